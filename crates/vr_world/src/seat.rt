//! A replica as a member of a world.

use crate::shelf::Shelf;
use std::alloc::{AllocError, Global};
use vr_model::{Event, Request, Sends};
use vr_replica::{Replica, StepFault};
use vr_schedules::{Member, MemoryStore};

/// A replica over a store in memory.
#[derive(Drop)]
pub(crate) struct Seat {
    pub replica: Replica,
}

impl Member for Seat {
    ghost use Rattle.vr_core.specs.StandsFor as core;
    ghost use Rattle.vr_replica.specs.Standing as replica;

    ghost IsSavedAs = { core.IsSavedAs };

    ghost StandsFor = { λ seat. replica.StandsFor seat.replica };

    fn step(
        &mut self,
        alloc: Global,
        event: Event,
        store: &mut MemoryStore,
    ) -> Result<Sends, AllocError> {
        let mut shelf = Shelf {
            store: *store,
            faults: 0,
        };
        let stepped = self.replica.step(alloc, event, &mut shelf);
        *store = shelf.store;
        match stepped {
            Ok(sends) => Ok(sends),
            Err(fault) => match fault {
                StepFault::Memory => Err(AllocError),
                StepFault::Store | StepFault::Down => Ok(Vec::new(alloc)),
            },
        }
    }

    fn crash(&mut self, alloc: Global) {
        self.replica.crash(alloc);
    }

    fn is_down(&self) -> bool {
        self.replica.is_down()
    }

    fn commit(&self) -> u64 {
        self.replica.commit()
    }

    fn entry(&self, place: u64) -> Option<&Request> {
        self.replica.entry(place)
    }
}
