//! Why a machine isn't served, or is no more.

ghost use Rattle.std.specs.Prelude.{◌≡◌};
ghost use Rattle.plc_host.specs.declared.failed.Failed.TheVariants as failed;
ghost use Rattle.plc_member.specs.declared.unserved.Unserved.TheVariants as unserved;

use il_loader::LoadError;
use plc_host::Failed;
use plc_store::Refusal;
use std::alloc::AllocError;

/// Why a machine isn't served, or is no more.
#[derive(Clone, Copy, Debug, PartialEq, Eq)]
pub enum Unserved {
    /// Its directory is refused.
    Refused(Refusal),
    /// The image of its store is none of a program.
    Image(LoadError),
    /// Something failed.
    Failed(Failed),
}

impl From<Refusal> for Unserved {
    ghost from_gives = { λ refusal e. e ≡ unserved.Refused refusal };

    fn from(refusal: Refusal) -> Unserved {
        Unserved::Refused(refusal)
    }
}

impl From<LoadError> for Unserved {
    ghost from_gives = { λ error e. e ≡ unserved.Image error };

    fn from(error: LoadError) -> Unserved {
        Unserved::Image(error)
    }
}

impl From<Failed> for Unserved {
    ghost from_gives = { λ failed e. e ≡ unserved.Failed failed };

    fn from(failed: Failed) -> Unserved {
        Unserved::Failed(failed)
    }
}

impl From<AllocError> for Unserved {
    ghost from_gives = { λ _ e. e ≡ unserved.Failed failed.Memory };

    fn from(_error: AllocError) -> Unserved {
        Unserved::Failed(Failed::Memory)
    }
}
