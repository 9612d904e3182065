//! A store of which each process counts one start.

ghost use Rattle.std.specs.Prelude.{◌≡◌, ◌≤◌, IfOk, MatchResult, None, OnErr, Some};
ghost use Rattle.io_model.specs.Streams.{Failed};
ghost use Rattle.vr_threads.specs.Numbering.{Finds};

use crate::numbers::number_of;
use crate::starting::Starts;
use vr_model::Stored;
use vr_replica::{StoreFault, ViewStore};

/// The store of a replica that a process starts again and again, as a machine does that thaws: the process counts one
/// start, its first, and each further one reads what is kept and writes nothing. The first has the number
/// `count * 2^32`, where the store has counted so many, each further one the next number: so numbers rise over all
/// processes. The very first start has number 1. Where no number is left a start fails.
#[derive(Drop)]
pub struct NumberedStarts<S> {
    store: S,
    /// How often this process has started the replica.
    started: u64,
    /// So many starts had no number left.
    unnumbered: u64,
}

impl<S> NumberedStarts<S> {
    /// Of a process that has not started its replica.
    pub fn new(store: S) -> NumberedStarts<S>
        ensures { (result.store ≡ store) × (result.started ≡ 0) }
    {
        NumberedStarts {
            store,
            started: 0,
            unnumbered: 0,
        }
    }
}

impl<S: Starts> NumberedStarts<S> {
    /// What the next start finds: the first of the process is counted.
    fn found(&mut self) -> Result<Stored, StoreFault>
        ensures finds { MatchResult result
            (λ found. Finds S.begin_gives S.load_gives self.old.started self.old.store (Some found) self.new.store)
            (λ _. Finds S.begin_gives S.load_gives self.old.started self.old.store None self.new.store) }
        ensures first { IfOk result (λ found. self.old.started ≡ 0 → found.starts ≡ 1 → found.view ≡ 0) }
        ensures device { OnErr result (Failed (S.faults self.old.store) (S.faults self.new.store)) }
        ensures counts { S.faults self.old.store ≤ S.faults self.new.store }
        ensures same { (self.new.started ≡ self.old.started) × (self.new.unnumbered ≡ self.old.unnumbered) }
    {
        if self.started == 0 {
            self.store.begin()
        } else {
            self.store.load()
        }
    }
}

impl<S: ViewStore> ViewStore for NumberedStarts<S> {
    ghost use Rattle.std.specs.Prelude.{◌+◌, ◌-◌, ◌^◌, min};

    ghost load_gives = { λ s found t. S.load_gives s.store found t.store × (t.started ≡ s.started) };

    ghost save_gives = { λ s view made t. S.save_gives s.store view made t.store × (t.started ≡ s.started) };

    ghost faults = { λ s. min (S.faults s.store + s.unnumbered) (2 ^ 64 - 1) };

    fn load(&mut self) -> Result<Stored, StoreFault> {
        self.store.load()
    }

    fn save(&mut self, view: u64) -> Result<(), StoreFault> {
        self.store.save(view)
    }

    fn faults(&self) -> u64 {
        self.store.faults().saturating_add(self.unnumbered)
    }
}

impl<S: Starts> Starts for NumberedStarts<S> {
    ghost use Rattle.std.specs.Prelude.{◌+◌, MatchOption};
    ghost use Rattle.vr_threads.specs.Numbering.{BeginsNumbered};

    ghost begin_gives = { λ s stored t.
        BeginsNumbered S.begin_gives S.load_gives s.started s.store stored t.store
        × MatchOption stored (t.started ≡ s.started) (λ _. t.started ≡ s.started + 1) };

    fn begin(&mut self) -> Result<Stored, StoreFault> {
        let found = self.found()?;
        let Some(number) = number_of(found.starts, self.started) else {
            self.unnumbered = self.unnumbered.saturating_add(1);
            return Err(StoreFault);
        };
        self.started += 1;
        Ok(Stored {
            view: found.view,
            starts: number,
        })
    }
}
