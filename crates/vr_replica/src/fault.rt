//! Faults of a store and of a step.

ghost use Rattle.std.specs.Prelude.{◌≡◌};
ghost use Rattle.vr_replica.specs.declared.fault.StepFault.TheVariants.{Memory, Store};

use std::alloc::AllocError;
use thiserror::Error;

/// The store failed in this call, and has counted it.
#[derive(Clone, Copy, Debug, PartialEq, Eq, Error)]
#[error("store failed")]
pub struct StoreFault;

/// Why a step sent nothing.
#[derive(Clone, Copy, Debug, PartialEq, Eq, Error)]
pub enum StepFault {
    /// The replica is as it was; its store may keep the view that the rule saves.
    #[error("out of memory")]
    Memory,
    /// The replica is down until a restart; its store keeps the old view or the new one.
    #[error("store failed")]
    Store,
    /// The event is no restart. Nothing changed.
    #[error("replica is down")]
    Down,
}

impl StepFault {
    ghost use Rattle.vr_replica.specs.Stepped.{fault_number};

    /// The number of a fault, from 1 in the order of this page.
    pub fn number(self) -> u8
        ensures { result ≡ fault_number self }
    {
        match self {
            StepFault::Memory => 1,
            StepFault::Store => 2,
            StepFault::Down => 3,
        }
    }
}

impl From<AllocError> for StepFault {
    ghost from_gives = { λ _ e. e ≡ Memory };

    fn from(_error: AllocError) -> StepFault {
        StepFault::Memory
    }
}

impl From<StoreFault> for StepFault {
    ghost from_gives = { λ _ e. e ≡ Store };

    fn from(_fault: StoreFault) -> StepFault {
        StepFault::Store
    }
}
