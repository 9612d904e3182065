//! What is wrong with the text of a field.

ghost use Rattle.std.specs.Prelude.{◌≡◌};
ghost use Rattle.field_map.specs.declared.fault.FieldFault.TheVariants.{Memory};

use std::alloc::{AllocError, AllocFailed, Global};
use std::fmt;
use std::fmt::Write;
use thiserror::Error;

/// A table of the text. Devices, readings and writings are counted from 1.
#[derive(Clone, Copy, Debug, PartialEq, Eq)]
pub enum Spot {
    /// The one around all others.
    Top,
    Device(usize),
    /// A device and its reading.
    Read(usize, usize),
    /// A device and its writing.
    Write(usize, usize),
}

impl fmt::Display for Spot {
    fn fmt<W: Write>(&self, f: &mut fmt::Formatter<W>) -> fmt::Result {
        match self {
            Spot::Top => Ok(()),
            Spot::Device(device) => write!(f, "device {device} "),
            Spot::Read(device, reading) => write!(f, "device {device} read {reading} "),
            Spot::Write(device, writing) => write!(f, "device {device} write {writing} "),
        }
    }
}

/// What is wrong with the value of a key.
#[derive(Clone, Copy, Debug, PartialEq, Eq, Error)]
pub enum Why {
    #[error("missing")]
    Missing,
    #[error("unknown key")]
    Unknown,
    /// It's a value of another type.
    #[error("not of its type")]
    Shape,
    /// No number that it may have.
    #[error("out of range")]
    Range,
    /// A time or a count of 0.
    #[error("0")]
    Zero,
    /// No address and port.
    #[error("no ADDR:PORT")]
    Address,
    /// No table that can be read, or written.
    #[error("unknown table")]
    Table,
    /// Neither hold nor zero.
    #[error("neither hold nor zero")]
    Fallback,
    /// Bits have no words.
    #[error("for registers only")]
    Registers,
    #[error("none of int, dint and real")]
    Form,
    #[error("neither high_first nor low_first")]
    WordOrder,
    /// An order of words where registers are taken each by itself.
    #[error("for dint and real only")]
    Double,
    /// A value of 32 bits would have one register.
    #[error("an odd count of registers")]
    Odd,
    #[error("neither always nor changes")]
    Sending,
    /// Each write is sent in each round.
    #[error("no write is sent on changes only")]
    Refresh,
    /// No bit and no word of the area.
    #[error("no such place")]
    Place,
    /// A bit where the table has registers, or a word where it has bits.
    #[error("a place of another kind than the table's")]
    Kind,
    /// More than one request may carry (V1.1b3, section 6).
    #[error("more than one request may carry")]
    TooMany,
    /// More writings than a device may have.
    #[error("more than 512")]
    Many,
    /// Cells of the device past 65535.
    #[error("past the end of the table")]
    PastTable,
    /// Places past the end of the area.
    #[error("past the end of the area")]
    PastArea,
    /// Another reading, or an alive bit, fills one of the places.
    #[error("a place that is filled twice")]
    Taken,
    /// The places don't follow those of the reading before.
    #[error("not next to the reading before")]
    Apart,
    /// Another device has that name, or the controller.
    #[error("a name that is taken")]
    Name,
    /// An earlier writing has one of the cells.
    #[error("a cell that is written twice")]
    Written,
    /// Unit 0, which no device answers.
    #[error("a broadcast")]
    Broadcast,
    /// Outputs would be known no longer than from one cycle to the next.
    #[error("below two cycles")]
    Fresh,
    /// A late reply would be waited for past the next round.
    #[error("above the cycle")]
    Late,
    /// No path of a socket.
    #[error("no path that ends with .sock")]
    Socket,
    /// No element is there.
    #[error("empty")]
    Empty,
}

/// Why a text gives no field.
#[derive(Debug, Drop, Error)]
pub enum FieldFault {
    /// It's no TOML: at this byte, counted from 0.
    #[error("no TOML at byte {0}")]
    Text(usize),
    /// The value of a key.
    #[error("{spot}{key}: {why}")]
    Key { spot: Spot, key: String, why: Why },
    #[error("out of memory")]
    Memory,
}

impl FieldFault {
    /// The fault of a key of this table.
    pub(crate) fn of_key(alloc: Global, spot: Spot, key: &str, why: Why) -> FieldFault {
        match String::from_str(alloc, key) {
            Ok(key) => FieldFault::Key { spot, key, why },
            Err(_) => FieldFault::Memory,
        }
    }
}

impl From<AllocError> for FieldFault {
    ghost from_gives = { λ _ e. e ≡ Memory };

    fn from(_error: AllocError) -> FieldFault {
        FieldFault::Memory
    }
}

impl<T: Drop> From<AllocFailed<T>> for FieldFault {
    ghost from_gives = { λ _ e. e ≡ Memory };

    fn from(_failed: AllocFailed<T>) -> FieldFault {
        FieldFault::Memory
    }
}
