//! The keys of the file, and the ranges of its numbers.

ghost use Rattle.std.specs.Prelude.{◌≡◌};
ghost use Rattle.plc_group.specs.Values.{sharing_of, word_of};

/// A key of the file.
#[derive(Clone, Copy, Debug, PartialEq, Eq)]
pub enum Key {
    Name,
    Period,
    Budget,
    Every,
    Patience,
    Resend,
    Fresh,
    Idle,
    ColdStart,
    ConsoleKey,
    ConsoleSockets,
    KeyFile,
    Insecure,
    ModbusAllow,
    ModbusReadOnly,
    Machine,
    Replica,
    Modbus,
    ModbusRead,
    Console,
    Status,
    Identity,
}

/// The keys of the whole group.
pub(crate) const GROUP_KEYS: [Key; 17] = [
    Key::Name,
    Key::Period,
    Key::Budget,
    Key::Every,
    Key::Patience,
    Key::Resend,
    Key::Fresh,
    Key::Idle,
    Key::ColdStart,
    Key::ConsoleKey,
    Key::ConsoleSockets,
    Key::KeyFile,
    Key::Insecure,
    Key::ModbusAllow,
    Key::ModbusReadOnly,
    Key::Machine,
    Key::Identity,
];

/// The keys of a machine.
pub(crate) const MACHINE_KEYS: [Key; 5] = [
    Key::Replica,
    Key::Modbus,
    Key::ModbusRead,
    Key::Console,
    Key::Status,
];

impl Key {
    /// The word of the key in the file.
    pub fn word(self) -> &'static str
        ensures { result.now ≡ word_of self }
    {
        match self {
            Key::Name => "name",
            Key::Period => "period",
            Key::Budget => "budget",
            Key::Every => "every",
            Key::Patience => "patience",
            Key::Resend => "resend",
            Key::Fresh => "fresh",
            Key::Idle => "idle",
            Key::ColdStart => "cold_start",
            Key::ConsoleKey => "console_key",
            Key::ConsoleSockets => "console_sockets",
            Key::KeyFile => "key",
            Key::Insecure => "insecure",
            Key::ModbusAllow => "modbus_allow",
            Key::ModbusReadOnly => "modbus_read_only",
            Key::Machine => "machine",
            Key::Replica => "replica",
            Key::Modbus => "modbus",
            Key::ModbusRead => "modbus_read",
            Key::Console => "console",
            Key::Status => "status",
            Key::Identity => "identity",
        }
    }

    /// Whether the machines of a group have to have the same there, and when it may change.
    pub fn sharing(self) -> Sharing
        ensures { result ≡ sharing_of self }
    {
        match self {
            Key::Name | Key::Identity | Key::Budget | Key::Every | Key::Machine => Sharing::Store,
            Key::Fresh => Sharing::Group,
            _ => Sharing::Machine,
        }
    }
}

/// Whether the machines of a group have to have the same at a key, and when it may change.
#[derive(Clone, Copy, Debug, PartialEq, Eq)]
pub enum Sharing {
    /// All have the same, and it stays for as long as their stores do.
    Store,
    /// All have the same. It may change while all are stopped.
    Group,
    /// Each may have its own, and it may change at one after the other.
    Machine,
}

/// The numbers from one to another.
#[derive(Clone, Copy, Debug, PartialEq, Eq)]
pub struct Range {
    pub least: u32,
    pub most: u32,
}

/// In milliseconds.
pub(crate) const PERIODS: Range = Range {
    least: 1,
    most: 3_600_000,
};

/// In instructions of a scan.
pub(crate) const BUDGETS: Range = Range {
    least: 1,
    most: 1_000_000,
};

/// In entries from one checkpoint to the next. Without checkpoints a log would grow without an end.
pub(crate) const DISTANCES: Range = Range {
    least: 1,
    most: 65_535,
};

/// In milliseconds.
pub(crate) const PATIENCES: Range = Range {
    least: 25,
    most: 60_000,
};

/// In milliseconds.
pub(crate) const RESENDS: Range = Range {
    least: 5,
    most: 12_000,
};

/// In milliseconds.
pub(crate) const FRESHNESSES: Range = Range {
    least: 1,
    most: 86_400_000,
};

/// In seconds.
pub(crate) const IDLES: Range = Range {
    least: 1,
    most: 86_400,
};
