//! Why a snapshot is not restored.

ghost use Rattle.std.specs.Prelude.{◌≡◌};
ghost use Rattle.ctl_debugger.specs.declared.snap_error.SnapError.TheVariants.{Memory};

use std::alloc::AllocError;
use thiserror::Error;

/// Why a snapshot is not restored.
#[derive(Clone, Copy, Debug, PartialEq, Eq, Error)]
pub enum SnapError {
    /// The words of a function block are no state of its kind.
    #[error("bad block")]
    BadBlock,
    /// The snapshot doesn't fit the image or the budget.
    #[error("bad shape")]
    BadShape,
    #[error("out of memory")]
    Memory,
}

impl SnapError {
    ghost use Rattle.ctl_debugger.specs.Restored.{error_number};

    /// The number of an error, from 1 in the order of this page.
    pub fn number(self) -> u8
        ensures { result ≡ error_number self }
    {
        match self {
            SnapError::BadBlock => 1,
            SnapError::BadShape => 2,
            SnapError::Memory => 3,
        }
    }
}

impl From<AllocError> for SnapError {
    ghost from_gives = { λ _ e. e ≡ Memory };

    fn from(_e: AllocError) -> SnapError {
        SnapError::Memory
    }
}
