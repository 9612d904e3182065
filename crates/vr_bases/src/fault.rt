//! Why no base is read.

ghost use Rattle.std.specs.Prelude.{◌≡◌};
ghost use Rattle.vr_bases.specs.declared.fault.BaseFault.TheVariants.{Memory};

use std::alloc::AllocError;
use thiserror::Error;

/// Why no base is read.
#[derive(Clone, Copy, Debug, PartialEq, Eq, Error)]
pub enum BaseFault {
    /// There are fewer bytes than its marks have.
    #[error("the base of a journal is torn")]
    Torn,
    /// They are no replica's.
    #[error("the base of a journal is of no replica")]
    Foreign,
    #[error("out of memory")]
    Memory,
}

impl From<AllocError> for BaseFault {
    ghost from_gives = { λ _ e. e ≡ Memory };

    fn from(_error: AllocError) -> BaseFault {
        BaseFault::Memory
    }
}
