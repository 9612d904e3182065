//! Why an event wasn't taken up, and why nothing is gone on with.

ghost use Rattle.std.specs.Prelude.{◌≡◌};
ghost use Rattle.vr_durable.specs.Faults.{of_keep, of_step};
ghost use Rattle.vr_durable.specs.declared.fault.ResumeFault.TheVariants.{Base, Memory, Step};

use std::alloc::AllocError;
use thiserror::Error;
use vr_bases::BaseFault;
use vr_kept::KeepFault;
use vr_replica::StepFault;

/// Why an event wasn't taken up.
#[derive(Clone, Copy, Debug, PartialEq, Eq, Error)]
pub enum TakeFault {
    /// It's a restart, or a message that has no frame. Nothing was taken up.
    #[error("no durable replica takes that up")]
    NotKept,
    /// Nothing was taken up.
    #[error("out of memory")]
    Memory,
    /// The replica is down, and is to be let go.
    #[error("replica is down")]
    Down,
}

impl From<KeepFault> for TakeFault {
    ghost from_gives = { λ fault e. e ≡ of_keep fault };

    fn from(fault: KeepFault) -> TakeFault {
        match fault {
            KeepFault::NotKept => TakeFault::NotKept,
            KeepFault::Memory => TakeFault::Memory,
        }
    }
}

impl From<StepFault> for TakeFault {
    ghost from_gives = { λ fault e. e ≡ of_step fault };

    fn from(fault: StepFault) -> TakeFault {
        match fault {
            StepFault::Memory => TakeFault::Memory,
            StepFault::Store | StepFault::Down => TakeFault::Down,
        }
    }
}

/// Why a replica can't go on from what a file keeps.
#[derive(Clone, Copy, Debug, PartialEq, Eq, Error)]
pub enum ResumeFault {
    /// Its base is torn, or of no replica.
    #[error("{0}")]
    Base(BaseFault),
    /// A record of an input is of none.
    #[error("a record of the journal is no input")]
    Input,
    /// The base's log can't be restored.
    #[error("the log of the journal's base can't be restored")]
    Log,
    /// Memory ran out, or an input is none that a replica takes up while it goes on.
    #[error("{0}")]
    Step(StepFault),
    #[error("out of memory")]
    Memory,
}

impl From<BaseFault> for ResumeFault {
    ghost from_gives = { λ fault e. e ≡ Base fault };

    fn from(fault: BaseFault) -> ResumeFault {
        ResumeFault::Base(fault)
    }
}

impl From<StepFault> for ResumeFault {
    ghost from_gives = { λ fault e. e ≡ Step fault };

    fn from(fault: StepFault) -> ResumeFault {
        ResumeFault::Step(fault)
    }
}

impl From<AllocError> for ResumeFault {
    ghost from_gives = { λ _ e. e ≡ Memory };

    fn from(_error: AllocError) -> ResumeFault {
        ResumeFault::Memory
    }
}
