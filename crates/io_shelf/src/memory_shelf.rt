//! A file in memory.

ghost use Rattle.std.specs.Prelude.{◌≡◌, ◌≤◌, ◌++◌, ◌∷◌, [], OnErr, OnOk};
ghost use Rattle.io_model.specs.Streams.{Failed};
ghost use Rattle.io_shelf.specs.Shelves.{content_of};

use crate::held::copied;
use crate::shelf::{Shelf, ShelfFault};
use std::alloc::Global;

/// A file in memory, as of tests. Each change is done at once, so a kill leaves what is there; it keeps each content
/// that it had, and so tells its moments.
#[derive(Drop)]
pub struct MemoryShelf {
    alloc: Global,
    content: Option<Vec<u8>>,
    past: Vec<Option<Vec<u8>>>,
    failures: u64,
}

impl MemoryShelf {
    /// A file with these bytes, or none that is there.
    pub fn new(alloc: Global, content: Option<Vec<u8>>) -> MemoryShelf
        ensures { result.content ≡ content }
    {
        MemoryShelf {
            alloc,
            content,
            past: Vec::new(alloc),
            failures: 0,
        }
    }

    /// Counts that memory ran out.
    fn fail(&mut self) -> ShelfFault
        ensures device { Failed self.old.failures self.new.failures }
        ensures counts { self.old.failures ≤ self.new.failures }
        ensures same { (self.new.content ≡ self.old.content) × (self.new.past ≡ self.old.past) }
    {
        self.failures = self.failures.saturating_add(1);
        ShelfFault::Memory
    }

    /// Keeps what it has now, as one of the contents that it had.
    fn keep_past(&mut self) -> Result<(), ShelfFault>
        ensures past { OnOk result ((v : _) × (content_of v ≡ content_of self.old.content)
            × (self.new.past.items ≡ self.old.past.items ++ v ∷ [])) }
        ensures past_err { OnErr result (self.new.past.items ≡ self.old.past.items) }
        ensures content { self.new.content ≡ self.old.content }
        ensures device { OnErr result (Failed self.old.failures self.new.failures) }
        ensures counts { self.old.failures ≤ self.new.failures }
    {
        let Ok(copy) = copied(self.alloc, &self.content) else {
            return Err(self.fail());
        };
        if self.past.push(copy).is_err() {
            return Err(self.fail());
        }
        Ok(())
    }

    /// Changes it to this.
    fn change(&mut self, new: Option<Vec<u8>>) -> Result<(), ShelfFault>
        ensures content { OnOk result (self.new.content ≡ new) }
        ensures content_err { OnErr result (self.new.content ≡ self.old.content) }
        ensures past { OnOk result ((v : _) × (content_of v ≡ content_of self.old.content)
            × (self.new.past.items ≡ self.old.past.items ++ v ∷ [])) }
        ensures past_err { OnErr result (self.new.past.items ≡ self.old.past.items) }
        ensures device { OnErr result (Failed self.old.failures self.new.failures) }
        ensures counts { self.old.failures ≤ self.new.failures }
    {
        self.keep_past()?;
        self.content = new;
        Ok(())
    }
}

impl Shelf for MemoryShelf {
    ghost use Rattle.std.specs.Prelude.{◌≡◌, ◌⊎◌, length, drop, true, refl};
    ghost use Rattle.std.proofs.Common.{inl};
    ghost use Rattle.io_shelf.specs.Shelves.{content_of};
    ghost use Rattle.io_shelf.specs.Past.{HadBeen, only_content};

    ghost tells = { true };

    ghost may_leave = { λ m c. c ≡ content_of m.content };

    ghost moment = { λ m. length m.past.items };

    ghost left_since = { λ m t c. (c ≡ content_of m.content) ⊎ HadBeen (drop t m.past.items) c };

    ghost faults = { λ m. m.failures };

    ghost leaves_some = { λ m. (content_of m.content, refl) };

    ghost counts_now = { λ m t c le now. inl now };

    ghost only_now = { λ m c tells left. only_content m.past.items (content_of m.content) c left };

    fn read(&mut self) -> Result<Option<Vec<u8>>, ShelfFault> {
        match copied(self.alloc, &self.content) {
            Ok(copy) => Ok(copy),
            Err(_) => Err(self.fail()),
        }
    }

    fn replace(&mut self, bytes: &[u8]) -> Result<(), ShelfFault> {
        match bytes.to_vec(self.alloc) {
            Ok(copy) => self.change(Some(copy)),
            Err(_) => Err(self.fail()),
        }
    }

    fn remove(&mut self) -> Result<(), ShelfFault> {
        self.change(None)
    }
}
