//! Why bytes are no image.

ghost use Rattle.std.specs.Prelude.{◌≡◌};
ghost use Rattle.il_records.specs.declared.fault.LoadError.TheVariants.{Memory};

use std::alloc::{AllocError, AllocFailed};
use thiserror::Error;

/// The first fault of bytes that are no image, in the order of reading; a position is the offset of the record or of
/// the word at fault, or that behind the last word where a parenthesis is open at the end.
#[derive(Clone, Copy, Debug, PartialEq, Eq, Error)]
pub enum LoadFault {
    /// The bytes end within a field.
    #[error("truncated")]
    Truncated,
    #[error("bad magic")]
    BadMagic,
    /// The version is none of 1, 2 and 3, or not the one that the program has; the latter is found last.
    #[error("bad version")]
    BadVersion,
    /// There are more records than a program may have.
    #[error("bad count")]
    BadCount,
    /// A field has no lawful value, a name or a location stands twice, or a variable stands under an instance.
    #[error("bad word at {position}")]
    BadWord { position: usize },
    /// An instruction doesn't find the types that it needs.
    #[error("bad type at {position}")]
    BadType { position: usize },
    /// A jump goes to no label.
    #[error("bad target at {position}")]
    BadTarget { position: usize },
    /// Bytes follow the last word.
    #[error("trailing bytes")]
    Trailing,
}

/// Why an image was not loaded: its first fault, or memory ran out.
#[derive(Clone, Copy, Debug, PartialEq, Eq, Error)]
pub enum LoadError {
    #[error("{0}")]
    Fault(LoadFault),
    #[error("out of memory")]
    Memory,
}

impl LoadError {
    ghost use Rattle.il_records.specs.Faults.{error_number};

    /// The number of an error, from 1 in the order of this page; want of memory is 9.
    pub fn number(self) -> u8
        ensures { result ≡ error_number self }
    {
        match self {
            LoadError::Fault(LoadFault::Truncated) => 1,
            LoadError::Fault(LoadFault::BadMagic) => 2,
            LoadError::Fault(LoadFault::BadVersion) => 3,
            LoadError::Fault(LoadFault::BadCount) => 4,
            LoadError::Fault(LoadFault::BadWord { .. }) => 5,
            LoadError::Fault(LoadFault::BadType { .. }) => 6,
            LoadError::Fault(LoadFault::BadTarget { .. }) => 7,
            LoadError::Fault(LoadFault::Trailing) => 8,
            LoadError::Memory => 9,
        }
    }
}

impl From<AllocError> for LoadError {
    ghost from_gives = { λ _ e. e ≡ Memory };

    fn from(_e: AllocError) -> LoadError {
        LoadError::Memory
    }
}

impl<T: Drop> From<AllocFailed<T>> for LoadError {
    ghost from_gives = { λ _ e. e ≡ Memory };

    fn from(_e: AllocFailed<T>) -> LoadError {
        LoadError::Memory
    }
}
