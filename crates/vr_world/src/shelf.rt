//! A store in memory, as the store of a replica.

use vr_model::Stored;
use vr_replica::{StoreFault, ViewStore};
use vr_schedules::{Kept, MemoryStore};

/// A store in memory for one step, and how often it failed in it.
#[derive(Clone, Copy)]
pub(crate) struct Shelf {
    pub store: MemoryStore,
    pub faults: u64,
}

impl ViewStore for Shelf {
    ghost use Rattle.vr_world.specs.Shelves.{shelf_loads, shelf_saves};

    ghost load_gives = { shelf_loads };

    ghost save_gives = { shelf_saves };

    ghost faults = { λ shelf. shelf.faults };

    fn load(&mut self) -> Result<Stored, StoreFault> {
        Ok(Stored {
            view: self.store.view,
            starts: 0,
        })
    }

    fn save(&mut self, view: u64) -> Result<(), StoreFault> {
        match self.store.failing {
            None => {
                self.store.view = view;
                Ok(())
            }
            Some(kept) => {
                if kept == Kept::New {
                    self.store.view = view;
                }
                self.store.failing = None;
                self.faults = self.faults.saturating_add(1);
                Err(StoreFault)
            }
        }
    }

    fn faults(&self) -> u64 {
        self.faults
    }
}
