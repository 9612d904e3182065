//! Why a schedule has no trace.

ghost use Rattle.std.specs.Prelude.{◌≡◌};
ghost use Rattle.vr_schedules.specs.declared.fault.EventFault.TheVariants.{Memory, Refused};

use std::alloc::{AllocError, AllocFailed};
use thiserror::Error;

/// Why an event can't take place.
#[derive(Clone, Copy, Debug, PartialEq, Eq)]
pub enum Reason {
    /// The number of its client or replica is out of range.
    OutOfRange,
    /// The message is not yet sent.
    NotYetSent,
    /// The replica has used the nonce before, if only for a restart that was lost.
    NonceUsed,
    /// The client submits while it waits, or retries while it waits for nothing.
    WaitsOrNot,
    /// The replica restarts while it is up.
    StillUp,
    /// The client's numbers are used up.
    NumbersUsedUp,
}

impl Reason {
    ghost use Rattle.std.specs.Prelude.{◌≡◌};
    ghost use Rattle.vr_schedules.specs.Events.{reason_number, reason_of};

    /// The number by which printed lines name it, from 1.
    pub fn number(self) -> u8
        ensures { result ≡ reason_number (reason_of self) }
    {
        match self {
            Reason::OutOfRange => 1,
            Reason::NotYetSent => 2,
            Reason::NonceUsed => 3,
            Reason::WaitsOrNot => 4,
            Reason::StillUp => 5,
            Reason::NumbersUsedUp => 6,
        }
    }
}

/// Why an event didn't take place.
#[derive(Clone, Copy)]
pub(crate) enum EventFault {
    Refused(Reason),
    Memory,
}

impl EventFault {
    ghost use Rattle.std.specs.Prelude.{◌≡◌};
    ghost use Rattle.vr_schedules.specs.Events.{error_at};

    /// What it is for a schedule whose event it was.
    pub fn at(self, index: usize) -> WorldError
        ensures { result ≡ error_at index self }
    {
        match self {
            EventFault::Refused(reason) => WorldError::BadSchedule { index, reason },
            EventFault::Memory => WorldError::Memory,
        }
    }
}

impl From<Reason> for EventFault {
    ghost from_gives = { λ reason e. e ≡ Refused reason };

    fn from(reason: Reason) -> EventFault {
        EventFault::Refused(reason)
    }
}

impl From<AllocError> for EventFault {
    ghost from_gives = { λ _ e. e ≡ Memory };

    fn from(_error: AllocError) -> EventFault {
        EventFault::Memory
    }
}

impl<T: Drop> From<AllocFailed<T>> for EventFault {
    ghost from_gives = { λ _ e. e ≡ Memory };

    fn from(_failed: AllocFailed<T>) -> EventFault {
        EventFault::Memory
    }
}

/// Why a schedule has no trace.
#[derive(Clone, Copy, Debug, PartialEq, Eq, Error)]
pub enum WorldError {
    /// The first event that can't take place, and the lowest reason for that.
    #[error("event {index} can't take place")]
    BadSchedule { index: usize, reason: Reason },
    /// Memory ran out.
    #[error("out of memory")]
    Memory,
}

impl From<AllocError> for WorldError {
    ghost use Rattle.vr_schedules.specs.declared.fault.WorldError.TheVariants as world;

    ghost from_gives = { λ _ e. e ≡ world.Memory };

    fn from(_error: AllocError) -> WorldError {
        WorldError::Memory
    }
}
