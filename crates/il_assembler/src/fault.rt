//! Why a program has no image.

ghost use Rattle.std.specs.Prelude.{◌≡◌};
ghost use Rattle.il_assembler.specs.declared.fault.AsmError.TheVariants.{Memory};

use il_model::TypeFault;
use std::alloc::{AllocError, AllocFailed};
use thiserror::Error;

/// Why a program was not assembled: the first fault of typing, with the number from 0 of its instruction (the number
/// after the last, where a parenthesis is open at the end), or memory ran out.
#[derive(Clone, Copy, Debug, PartialEq, Eq, Error)]
pub enum AsmError {
    #[error("{fault} at instruction {instruction}")]
    Fault {
        fault: TypeFault,
        instruction: usize,
    },
    #[error("out of memory")]
    Memory,
}

impl AsmError {
    ghost use Rattle.il_assembler.specs.Assembled.{error_number};

    /// The number of an error: that of the fault, or 9 for want of memory.
    pub fn number(self) -> u8
        ensures { result ≡ error_number self }
    {
        match self {
            AsmError::Fault { fault, .. } => fault.number(),
            AsmError::Memory => 9,
        }
    }
}

impl From<AllocError> for AsmError {
    ghost from_gives = { λ _ e. e ≡ Memory };

    fn from(_e: AllocError) -> AsmError {
        AsmError::Memory
    }
}

impl<T: Drop> From<AllocFailed<T>> for AsmError {
    ghost from_gives = { λ _ e. e ≡ Memory };

    fn from(_e: AllocFailed<T>) -> AsmError {
        AsmError::Memory
    }
}
