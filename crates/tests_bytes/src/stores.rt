//! A store of views in memory, whose first calls may fail.

use crate::notation::{behind, number_of};
use std::alloc::{AllocError, Global};
use vr_model::Stored;
use vr_replica::{StoreFault, ViewStore};

/// A store in memory. So many calls of it fail; a save that fails leaves the new view or the old one.
#[derive(Drop)]
pub struct Store {
    view: u64,
    failing: u64,
    keeps_new: bool,
    failures: u64,
}

impl Store {
    /// A store as `stored=4 failing=1 keeps=new` say; what isn't there is 0, and the old view.
    pub fn of(text: &str) -> Store {
        Store {
            view: number_of(text, "stored=").unwrap_or(0),
            failing: number_of(text, "failing=").unwrap_or(0),
            keeps_new: behind(text, "keeps=").is_some(),
            failures: 0,
        }
    }

    /// The view that it keeps, and how many calls of it failed.
    pub fn told(&self, alloc: Global) -> Result<String, AllocError> {
        let (view, failures) = (self.view, self.faults());
        format!(in alloc; "view={view} failures={failures}")
    }
}

impl ViewStore for Store {
    ghost use Rattle.std.specs.Prelude.{⊤};

    ghost load_gives = { λ _ _ _. ⊤ };

    ghost save_gives = { λ _ _ _ _. ⊤ };

    ghost faults = { λ s. s.failures };

    fn load(&mut self) -> Result<Stored, StoreFault> {
        if self.failing > 0 {
            self.failing -= 1;
            self.failures = self.failures.saturating_add(1);
            return Err(StoreFault);
        }
        Ok(Stored {
            view: self.view,
            starts: 0,
        })
    }

    fn save(&mut self, view: u64) -> Result<(), StoreFault> {
        if self.failing > 0 {
            self.failing -= 1;
            self.failures = self.failures.saturating_add(1);
            if self.keeps_new {
                self.view = view;
            }
            return Err(StoreFault);
        }
        self.view = view;
        Ok(())
    }

    fn faults(&self) -> u64 {
        self.failures
    }
}
