//! What is to happen, by time.

ghost use Rattle.std.specs.Prelude.{◌≡◌, ◌∷◌, ◌+◌, ◌<◌, ◌^◌, [], IfSome, IsNone, OnOk, OnErr};
ghost use Rattle.std.specs.BTreeMap.{insert_entry, keys};
ghost use Rattle.std.specs.List.{All};
ghost use Rattle.sim_time.specs.Times.{IsBehind, due_cmp};

use std::alloc::{AllocError, Global};
use std::collections::BTreeMap;

/// When something is to happen, in microseconds, and its number: what was put in before it has a smaller one.
pub type Due = (u64, u64);

/// What is to happen: the earliest first, and of what is to happen at one time what was put in first.
#[derive(Drop)]
pub struct Agenda<T> {
    due: BTreeMap<Due, T>,
    /// So many were put in.
    count: u64,
}

impl<T: Drop> Agenda<T> {
    /// Nothing is to happen.
    pub fn new(alloc: Global) -> Agenda<T>
        ensures { result.due.entries ≡ [] }
    {
        Agenda {
            due: BTreeMap::new(alloc),
            count: 0,
        }
    }

    /// This is to happen at that time, behind all that was put in for it before. Where memory is wanting, all is as it
    /// was.
    pub fn put(&mut self, time: u64, what: T) -> Result<(), AllocError>
        ensures ok { OnOk result
            (self.new.due.entries ≡ insert_entry due_cmp self.old.due.entries (time, self.old.count) what) }
        ensures counted { OnOk result (self.old.count + 1 < 2 ^ 64 → self.new.count ≡ self.old.count + 1) }
        ensures err { OnErr result (self.new.due.entries ≡ self.old.due.entries) }
    {
        self.due.insert((time, self.count), what)?;
        self.count = self.count.saturating_add(1);
        Ok(())
    }

    /// What happens next, and when: all else that is to happen comes behind it.
    pub fn take(&mut self) -> Option<(Due, T)>
        ensures taken { IfSome result (λ next. self.old.due.entries ≡ next ∷ self.new.due.entries) }
        ensures first { IfSome result (λ next. All (IsBehind next.0) (keys self.new.due)) }
        ensures none { IsNone result → self.old.due.entries ≡ [] }
    {
        self.due.pop_first()
    }
}
