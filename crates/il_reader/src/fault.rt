//! Why a text cannot be read.

ghost use Rattle.std.specs.Prelude.{◌≡◌};
ghost use Rattle.il_reader.specs.declared.fault.Failure.TheVariants.{Memory};

use crate::place::Place;
use std::alloc::{AllocError, AllocFailed};
use thiserror::Error;

/// What is wrong at a place of a text.
#[derive(Clone, Copy, Debug, PartialEq, Eq, Error)]
pub enum FaultKind {
    /// A byte that is no tab, no line end and no printable ASCII, outside comments.
    #[error("bad byte")]
    BadByte,
    /// Bytes that make no token, or a name with two adjacent underscores or one at its end.
    #[error("bad token")]
    BadToken,
    /// A literal that is ill formed or out of its range.
    #[error("bad literal")]
    BadLiteral,
    /// A comment that is never closed, at its opening.
    #[error("unclosed comment")]
    UnclosedComment,
    /// A token, or the end of the text, that no case of the grammar allows there.
    #[error("misplaced")]
    Misplaced,
    /// A name of more than `LONGEST_NAME` characters, in an extended text a part of one or one of more than
    /// `LONGEST_DOTTED_NAME` bytes; or a text over its limit, at its first byte.
    #[error("too long")]
    TooLong,
}

/// A fault with its place.
#[derive(Clone, Copy, Debug, PartialEq, Eq, Error)]
#[error("{kind} at {place}")]
pub struct Fault {
    pub kind: FaultKind,
    pub place: Place,
}

/// Why a text was not read: its first fault, or memory ran out.
#[derive(Clone, Copy, Debug, PartialEq, Eq, Error)]
pub enum ReadError {
    #[error("{0}")]
    Fault(Fault),
    #[error("out of memory")]
    Memory,
}

impl FaultKind {
    ghost use Rattle.il_reader.specs.FirstFault.{kind_number};

    /// The number of a fault, from 1: bad byte, bad token, bad literal, unclosed comment, misplaced, too long.
    pub fn number(self) -> u8
        ensures { result ≡ kind_number self }
    {
        match self {
            FaultKind::BadByte => 1,
            FaultKind::BadToken => 2,
            FaultKind::BadLiteral => 3,
            FaultKind::UnclosedComment => 4,
            FaultKind::Misplaced => 5,
            FaultKind::TooLong => 6,
        }
    }
}

impl ReadError {
    ghost use Rattle.il_reader.specs.FirstFault.{error_number};

    /// The number of an error: that of its fault, or 7 for memory.
    pub fn number(self) -> u8
        ensures { result ≡ error_number self }
    {
        match self {
            ReadError::Fault(fault) => fault.kind.number(),
            ReadError::Memory => 7,
        }
    }
}

/// A fault, and how many bytes the text has from its place on.
#[derive(Clone, Copy, PartialEq, Eq)]
pub struct FaultAt {
    pub kind: FaultKind,
    pub left: usize,
}

/// Why reading ended.
#[derive(Clone, Copy, PartialEq, Eq)]
pub enum Failure {
    Refused(FaultAt),
    Memory,
}

impl From<AllocError> for Failure {
    ghost from_gives = { λ _ e. e ≡ Memory };

    fn from(_e: AllocError) -> Failure {
        Failure::Memory
    }
}

impl<T: Drop> From<AllocFailed<T>> for Failure {
    ghost from_gives = { λ _ e. e ≡ Memory };

    fn from(_e: AllocFailed<T>) -> Failure {
        Failure::Memory
    }
}
