//! Why a text of units has no expansion.

ghost use Rattle.std.specs.Prelude.{◌≡◌};
ghost use Rattle.il_units.specs.declared.fault.UnitError.TheVariants.{Memory};

use std::alloc::{AllocError, AllocFailed};
use thiserror::Error;

/// What is wrong with a unit beside those above it.
#[derive(Clone, Copy, Debug, PartialEq, Eq, Error)]
pub enum UnitFault {
    /// A name that was declared before, or that is a unit's.
    #[error("duplicate name")]
    Duplicate,
    /// A function that there isn't.
    #[error("unknown function")]
    Unknown,
    /// An instance that the unit doesn't declare.
    #[error("unknown name")]
    Undeclared,
    /// More units, more members of one, or, by the bodies of what is called, more lines than there may be.
    #[error("too many")]
    TooMany,
    /// An own block or function is misused: an argument, a field or a variable that it hasn't, that is missing, or that
    /// can't be written; or a declaration that a unit of its kind can't have.
    #[error("misused")]
    Misused,
}

impl UnitFault {
    ghost use Rattle.il_units.specs.Misuse.{unit_fault_number};

    /// The number of a fault, among those of declarations: 1, 2, 3, 8, 10.
    pub fn number(self) -> u8
        ensures { result ≡ unit_fault_number self }
    {
        match self {
            UnitFault::Duplicate => 1,
            UnitFault::Unknown => 2,
            UnitFault::Undeclared => 3,
            UnitFault::TooMany => 8,
            UnitFault::Misused => 10,
        }
    }
}

/// A fault, and how many bytes the text has from its place on.
#[derive(Clone, Copy, Debug, PartialEq, Eq)]
pub struct UnitFaultAt {
    pub kind: UnitFault,
    pub left: usize,
}

/// Why a text of units has no expansion: its first fault, or memory ran out.
#[derive(Clone, Copy, Debug, PartialEq, Eq, Error)]
pub enum UnitError {
    #[error("a fault")]
    Fault(UnitFaultAt),
    #[error("out of memory")]
    Memory,
}

impl From<AllocError> for UnitError {
    ghost from_gives = { λ _ e. e ≡ Memory };

    fn from(_e: AllocError) -> UnitError {
        UnitError::Memory
    }
}

impl<T: Drop> From<AllocFailed<T>> for UnitError {
    ghost from_gives = { λ _ e. e ≡ Memory };

    fn from(_e: AllocFailed<T>) -> UnitError {
        UnitError::Memory
    }
}
