//! A store whose saves are tried again.

ghost use Rattle.std.specs.Prelude.{◌≡◌, ◌≤◌, false, true, MatchResult, OnErr};
ghost use Rattle.io_model.specs.Streams.{Failed};
ghost use Rattle.vr_threads.specs.Trying.{SavesAtLast, TriesAgain};

use crate::saves::{Pauses, Saves};
use crate::starting::Starts;
use std::sync::Arc;
use std::time::Clock;
use vr_model::Stored;
use vr_replica::{StoreFault, ViewStore};

/// A store whose saves are tried again until one is made: meanwhile its replica keeps its state, and takes nothing.
/// What it may hold behind a save that failed is read before the next try. A start is tried once.
#[derive(Drop)]
pub struct PatientStore<S, R> {
    store: S,
    rt: R,
    saves: Arc<Saves>,
}

impl<S, R> PatientStore<S, R> {
    /// This store, whose saves are tried again, and told to these.
    pub fn new(rt: R, store: S, saves: Arc<Saves>) -> PatientStore<S, R>
        ensures { result.store ≡ store }
    {
        PatientStore { store, rt, saves }
    }
}

impl<S: ViewStore, R: Clock> PatientStore<S, R> {
    /// Tries once more to save a view.
    fn try_again(&mut self, view: u64) -> Result<(), StoreFault>
        ensures tried { MatchResult result
            (λ _. TriesAgain S.load_gives S.save_gives self.old.store view true self.new.store)
            (λ _. TriesAgain S.load_gives S.save_gives self.old.store view false self.new.store) }
        ensures device { OnErr result (Failed (S.faults self.old.store) (S.faults self.new.store)) }
        ensures counts { S.faults self.old.store ≤ S.faults self.new.store }
    {
        self.store.load()?;
        self.store.save(view)
    }

    /// Tries to save a view until that's done, or no save is tried again.
    #[tactic(auto, using(crate::proofs::Tries::at_first, crate::proofs::Tries::one_more, crate::proofs::Tries::failed_later))]
    fn save_at_last(&mut self, view: u64) -> Result<(), StoreFault>
        ensures saved { MatchResult result
            (λ _. SavesAtLast S.load_gives S.save_gives self.old.store view true self.new.store)
            (λ _. SavesAtLast S.load_gives S.save_gives self.old.store view false self.new.store) }
        ensures device { OnErr result (Failed (S.faults self.old.store) (S.faults self.new.store)) }
        ensures counts { S.faults self.old.store ≤ S.faults self.new.store }
    {
        let mut pauses = Pauses::new();
        let mut saved = self.store.save(view);
        for _ in 0..u64::MAX {
            self.saves.note(saved.is_err());
            if saved.is_ok() || !self.saves.wait(&self.rt, &mut pauses) {
                return saved;
            }
            saved = self.try_again(view);
        }
        saved
    }
}

impl<S: ViewStore, R: Clock> ViewStore for PatientStore<S, R> {
    ghost use Rattle.vr_threads.specs.Trying.{SavesAtLast};

    ghost load_gives = { λ s found t. S.load_gives s.store found t.store };

    ghost save_gives = { λ s view made t. SavesAtLast S.load_gives S.save_gives s.store view made t.store };

    ghost faults = { λ s. S.faults s.store };

    fn load(&mut self) -> Result<Stored, StoreFault> {
        self.store.load()
    }

    fn save(&mut self, view: u64) -> Result<(), StoreFault> {
        self.save_at_last(view)
    }

    fn faults(&self) -> u64 {
        self.store.faults()
    }
}

impl<S: Starts, R: Clock> Starts for PatientStore<S, R> {
    ghost begin_gives = { λ s stored t. S.begin_gives s.store stored t.store };

    fn begin(&mut self) -> Result<Stored, StoreFault> {
        self.store.begin()
    }
}
