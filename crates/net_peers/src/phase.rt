//! How far a connection has come, and what is to be done.

/// How far a connection has come.
#[derive(Clone, Copy, Debug, PartialEq, Eq)]
pub enum Phase {
    /// There is none; it's dialled from then on.
    Away { due: u64 },
    /// It was dialled then, or came in, and there was no hello yet.
    Joining { since: u64 },
    /// It was opened, something came last, and something went last.
    Open { since: u64, heard: u64, sent: u64 },
}

/// What is to be done.
#[derive(Clone, Copy, Debug, PartialEq, Eq)]
pub enum Duty {
    Nothing,
    Dial,
    /// No hello came in time.
    GiveUp,
    Beat,
    /// The other end was silent for too long.
    End,
}
