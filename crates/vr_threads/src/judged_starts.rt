//! A store whose next start was judged before.

ghost use Rattle.std.specs.Prelude.{◌≡◌};

use crate::starting::Starts;
use vr_model::Stored;
use vr_replica::{StoreFault, ViewStore};

/// The store of a machine, of which somebody judged beforehand whether its next start is its first. A start that is
/// another one than that fails: so a file that was lost in between begins no replica anew. Behind a first start each is
/// a later one.
#[derive(Drop)]
pub struct JudgedStarts<S> {
    store: S,
    is_first: bool,
    /// So many starts were others than was judged.
    misjudged: u64,
}

impl<S> JudgedStarts<S> {
    /// `is_first`: whether its next start was judged to be its first.
    pub fn new(store: S, is_first: bool) -> JudgedStarts<S>
        ensures judged { (result.store ≡ store) × (result.is_first ≡ is_first) }
    {
        JudgedStarts {
            store,
            is_first,
            misjudged: 0,
        }
    }
}

impl<S: ViewStore> ViewStore for JudgedStarts<S> {
    ghost use Rattle.std.specs.Prelude.{◌+◌, ◌-◌, ◌^◌, min};

    ghost load_gives = { λ s found t. S.load_gives s.store found t.store × (t.is_first ≡ s.is_first) };

    ghost save_gives = { λ s view made t. S.save_gives s.store view made t.store × (t.is_first ≡ s.is_first) };

    ghost faults = { λ s. min (S.faults s.store + s.misjudged) (2 ^ 64 - 1) };

    fn load(&mut self) -> Result<Stored, StoreFault> {
        self.store.load()
    }

    fn save(&mut self, view: u64) -> Result<(), StoreFault> {
        self.store.save(view)
    }

    fn faults(&self) -> u64 {
        self.store.faults().saturating_add(self.misjudged)
    }
}

impl<S: Starts> Starts for JudgedStarts<S> {
    ghost use Rattle.std.specs.Prelude.{IfSome, false};
    ghost use Rattle.vr_threads.specs.Working.{BeginsAsJudged};

    ghost begin_gives = { λ s stored t. BeginsAsJudged S.begin_gives s.is_first s.store stored t.store
        × IfSome stored (λ _. t.is_first ≡ false) };

    fn begin(&mut self) -> Result<Stored, StoreFault> {
        let stored = self.store.begin()?;
        if (stored.starts == 1) != self.is_first {
            self.misjudged = self.misjudged.saturating_add(1);
            return Err(StoreFault);
        }
        self.is_first = false;
        Ok(stored)
    }
}
