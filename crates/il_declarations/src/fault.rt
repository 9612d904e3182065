//! Why a text that reads gives no program.

ghost use Rattle.std.specs.Prelude.{◌≡◌};
ghost use Rattle.il_declarations.specs.declared.fault.Failure.TheVariants.{Memory};

use il_reader::Place;
use std::alloc::{AllocError, AllocFailed};
use thiserror::Error;

/// What is wrong at a place of a text.
#[derive(Clone, Copy, Debug, PartialEq, Eq, Error)]
pub enum DeclKind {
    /// A name that was declared before; or a variable's under an instance's, as `T.Q` beside an instance `T`.
    #[error("duplicate name")]
    Duplicate,
    /// A type that is neither an elementary one nor the kind of a function block.
    #[error("unknown type")]
    UnknownType,
    /// An operand that is no declared variable and no field of an instance, or the name of an instance that is none.
    #[error("unknown name")]
    UnknownName,
    /// A direct address that is no location, or a location that a declaration cannot have.
    #[error("bad location")]
    BadLocation,
    /// A location that another variable has.
    #[error("overlap")]
    Overlap,
    /// An initial value that its variable cannot have; an instance can have none.
    #[error("bad initial value")]
    BadInitial,
    /// A word of the language as a name.
    #[error("reserved name")]
    ReservedName,
    /// One variable, instance or instruction more than a program may have.
    #[error("too many")]
    TooMany,
}

/// A fault with its place.
#[derive(Clone, Copy, Debug, PartialEq, Eq, Error)]
#[error("{kind} at {place}")]
pub struct Fault {
    pub kind: DeclKind,
    pub place: Place,
}

/// Why a text gave no program: its first fault, or memory ran out.
#[derive(Clone, Copy, Debug, PartialEq, Eq, Error)]
pub enum DeclError {
    #[error("{0}")]
    Fault(Fault),
    #[error("out of memory")]
    Memory,
}

impl DeclKind {
    ghost use Rattle.il_declarations.specs.FirstFault.{kind_number};

    /// The number of a fault, from 1: duplicate, unknown type, unknown name, bad location, overlap, bad initial value,
    /// reserved name, too many.
    pub fn number(self) -> u8
        ensures { result ≡ kind_number self }
    {
        match self {
            DeclKind::Duplicate => 1,
            DeclKind::UnknownType => 2,
            DeclKind::UnknownName => 3,
            DeclKind::BadLocation => 4,
            DeclKind::Overlap => 5,
            DeclKind::BadInitial => 6,
            DeclKind::ReservedName => 7,
            DeclKind::TooMany => 8,
        }
    }
}

impl DeclError {
    ghost use Rattle.il_declarations.specs.FirstFault.{error_number};

    /// The number of an error: that of its fault, or 9 for memory.
    pub fn number(self) -> u8
        ensures { result ≡ error_number self }
    {
        match self {
            DeclError::Fault(fault) => fault.kind.number(),
            DeclError::Memory => 9,
        }
    }
}

/// A fault, and how many bytes the text has from its place on.
#[derive(Clone, Copy, PartialEq, Eq)]
pub struct FaultAt {
    pub kind: DeclKind,
    pub left: usize,
}

/// Why resolving ended.
#[derive(Clone, Copy, PartialEq, Eq)]
pub enum Failure {
    Refused(FaultAt),
    Memory,
}

impl From<AllocError> for Failure {
    ghost from_gives = { λ _ e. e ≡ Memory };

    fn from(_e: AllocError) -> Failure {
        Failure::Memory
    }
}

impl<T: Drop> From<AllocFailed<T>> for Failure {
    ghost from_gives = { λ _ e. e ≡ Memory };

    fn from(_e: AllocFailed<T>) -> Failure {
        Failure::Memory
    }
}
