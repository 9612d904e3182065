//! The disk of a machine: what outlives a power cut, and what is written and isn't flushed.

ghost use Rattle.std.specs.Prelude.{◌≡◌, ◌++◌, ◌∷◌, [], IfSome, IsNone, None, OnOk, false, true};
ghost use Rattle.sim_machine.specs.Disks.{HasCounted, HasFlushed, HasSaved, HasWritten, number_in, store_in};
ghost use Rattle.sim_machine.specs.declared.disk.Write.TheVariants as writes;

use net_hello::Epoch;
use plc_epochs::Kept;
use std::alloc::{AllocError, Global};
use std::collections::VecDeque;
use vr_model::Stored;
use vr_replica::{StoreFault, ViewStore};

/// In microseconds: so long takes a write of a disk that is well.
pub const WRITE: u64 = 300;

/// A save that failed is tried again after so long, then after twice as long each time.
pub const FIRST_PAUSE: u64 = 1_000_000;

/// What the directory of a machine has.
#[derive(Clone, Copy)]
pub struct Files {
    pub kept: Kept,
    /// The epoch that is begun, as long as no start was counted in it.
    pub begins: Option<Epoch>,
    /// Whether the file of its replica is there.
    pub has_view: bool,
    pub view: u64,
    pub starts: u64,
    /// The number that was drawn for it in its epoch.
    pub store: u64,
    /// Of each other machine, which store was seen in its epoch; 0 where none was.
    seen: [u64; 8],
}

/// What is to be written.
#[derive(Clone, Copy)]
pub enum Write {
    /// A start is counted.
    Start,
    /// It begins this epoch: that is marked.
    Begins(Epoch),
    /// What it has of epochs.
    Keep(Kept),
}

/// A disk.
#[derive(Drop)]
pub struct Disk {
    pub files: Files,
    /// So many numbers were drawn for stores that are there, or were: the next one is greater.
    drawn: u64,
    /// What was asked for and isn't flushed, the earliest first.
    waiting: VecDeque<Write>,
    /// The view that its replica's thread saves, as long as that isn't flushed.
    saving: Option<u64>,
    pub is_full: bool,
    /// In microseconds: so long takes each write.
    pub latency: u64,
}

/// The number of an epoch that a store has; 0 where it has none.
fn number_in(kept: &Kept) -> u64
    ensures { result ≡ number_in kept.now }
{
    match kept {
        Kept::Nothing => 0,
        Kept::Above(epoch) | Kept::Entered(epoch) | Kept::Begun(epoch) => epoch.number,
    }
}

impl Files {
    /// Those of a machine that was formatted for this epoch.
    fn new(epoch: Epoch) -> Files {
        Files {
            kept: Kept::Entered(epoch),
            begins: None,
            has_view: false,
            view: 0,
            starts: 0,
            store: 1,
            seen: [0; 8],
        }
    }

    /// A start more is counted.
    fn count(&mut self)
        ensures { HasCounted self.old self.new }
    {
        self.has_view = true;
        self.starts = self.starts.saturating_add(1);
    }

    /// What the store is known by that has this of epochs, where this number was drawn.
    fn store_in(&self, kept: &Kept, drawn: u64) -> u64
        ensures { result ≡ store_in self.now kept.now drawn }
    {
        if number_in(&self.kept) == number_in(kept) {
            self.store
        } else {
            drawn
        }
    }

    /// They have this of epochs: of an epoch that is begun there are no views, and in another one no store was seen, and
    /// its own is known by this number.
    fn keep(&mut self, kept: Kept, drawn: u64)
        ensures { HasWritten (writes.Keep kept) drawn self.old self.new }
    {
        self.store = self.store_in(&kept, drawn);
        match kept {
            Kept::Begun(_) => {
                self.has_view = false;
                self.view = 0;
                self.starts = 0;
            }
            Kept::Nothing | Kept::Above(_) | Kept::Entered(_) => {}
        }
        if number_in(&self.kept) != number_in(&kept) {
            self.seen = [0; 8];
        }
        self.kept = kept;
    }

    /// This is written to them, where this number was drawn.
    fn write(&mut self, write: Write, drawn: u64)
        ensures { HasWritten write drawn self.old self.new }
    {
        match write {
            Write::Start => self.count(),
            Write::Begins(epoch) => self.begins = Some(epoch),
            Write::Keep(kept) => self.keep(kept, drawn),
        }
    }

    /// So often its replica was started in its epoch, with the start that is counted next.
    pub fn next_starts(&self) -> u64 {
        match self.kept {
            Kept::Begun(_) if self.has_view => self.starts.saturating_add(1),
            _ => 1,
        }
    }

    /// Whether they are refused: an epoch was begun, nothing tells that no start came of it, and none was counted.
    pub fn is_refused(&self) -> bool {
        match self.kept {
            Kept::Begun(epoch) => !self.has_view && self.begins != Some(epoch),
            _ => false,
        }
    }

    /// Whether they wait for an epoch above another one.
    pub fn waits(&self) -> bool {
        matches!(self.kept, Kept::Nothing | Kept::Above(_))
    }

    /// The store that was seen of a machine in its epoch.
    pub fn seen_of(&self, machine: u8) -> u64 {
        self.seen.get(usize::from(machine)).copied().unwrap_or(0)
    }

    /// This store was seen of a machine.
    pub fn see(&mut self, machine: u8, store: u64) {
        if let Some(seen) = self.seen.get_mut(usize::from(machine)) {
            *seen = store;
        }
    }
}

impl Disk {
    /// Of a machine that was formatted for this epoch.
    pub fn new(alloc: Global, epoch: Epoch) -> Disk {
        Disk {
            files: Files::new(epoch),
            drawn: 1,
            waiting: VecDeque::new(alloc),
            saving: None,
            is_full: false,
            latency: WRITE,
        }
    }

    /// This is to be written, behind what waits: whether nothing does.
    pub fn ask(&mut self, write: Write) -> Result<bool, AllocError>
        ensures waits { OnOk result (self.new.waiting.items ≡ self.old.waiting.items ++ write ∷ []) }
        ensures same { (self.new.files ≡ self.old.files) × (self.new.saving ≡ self.old.saving) }
    {
        let is_idle = self.waiting.is_empty();
        self.waiting.push_back(write)?;
        Ok(is_idle)
    }

    /// Whether something is to be written.
    pub fn is_busy(&self) -> bool {
        !self.waiting.is_empty()
    }

    /// A number that no store had that was there.
    fn draw(&mut self) -> u64
        ensures { (result ≡ self.new.drawn) × (self.new ≡ record self.old { drawn = self.new.drawn }) }
    {
        self.drawn = self.drawn.saturating_add(1);
        self.drawn
    }

    /// The first write that waits is flushed, if the disk isn't full: it, and whether it is.
    pub fn flush(&mut self) -> Option<(Write, bool)>
        ensures flushed { IfSome result (λ write.
            HasFlushed self.old.waiting.items self.new.waiting.items self.new.drawn self.old.files self.new.files
            write.0 write.1) }
        ensures none { IsNone result → self.old.waiting.items ≡ [] }
        ensures same { self.new.saving ≡ self.old.saving }
    {
        let write = self.waiting.pop_front()?;
        if self.is_full {
            return Some((write, false));
        }
        let drawn = self.draw();
        self.files.write(write, drawn);
        Some((write, true))
    }

    /// Whether a view is saved that isn't flushed.
    pub fn is_saving(&self) -> bool {
        self.saving.is_some()
    }

    /// The view that is saved is flushed, if the disk isn't full: whether no view is to be saved any more.
    pub fn settle(&mut self) -> bool
        ensures full { result ≡ false → self.new ≡ self.old }
        ensures settled { result ≡ true → self.new.saving ≡ None }
        ensures view { result ≡ true → HasSaved self.old.saving self.old.files self.new.files }
    {
        let Some(view) = self.saving else {
            return true;
        };
        if self.is_full {
            return false;
        }
        self.files.view = view;
        self.saving = None;
        true
    }

    /// A power cut, or the end of its process: what wasn't flushed is lost, and all else is there. Of what is under way
    /// either is so.
    pub fn cut(&mut self, is_flushed: bool)
        ensures files { is_flushed ≡ false → self.new.files ≡ self.old.files }
        ensures lost { (self.new.waiting.items ≡ []) × (self.new.saving ≡ None) }
    {
        if is_flushed {
            let _ = self.settle();
            let _ = self.flush();
        }
        self.saving = None;
        self.waiting.clear();
    }

    /// A machine is formatted there for this epoch, as one that is new.
    pub fn format(&mut self, epoch: Epoch) {
        let store = self.draw();
        self.files = Files {
            store,
            ..Files::new(epoch)
        };
    }

    /// It's replaced by another one, which waits for an epoch.
    pub fn replace(&mut self) {
        let store = self.draw();
        self.files = Files {
            kept: Kept::Nothing,
            begins: None,
            has_view: false,
            view: 0,
            starts: 0,
            store,
            seen: [0; 8],
        };
    }

    /// It's well again.
    pub fn heal(&mut self) {
        self.is_full = false;
        self.latency = WRITE;
    }
}

impl ViewStore for Disk {
    ghost use Rattle.std.specs.Prelude.{⊤};

    ghost load_gives = { λ _ _ _. ⊤ };

    ghost save_gives = { λ _ _ _ _. ⊤ };

    ghost faults = { λ _. 0 };

    fn load(&mut self) -> Result<Stored, StoreFault> {
        Ok(Stored {
            view: self.files.view,
            starts: self.files.starts,
        })
    }

    // The replica's thread goes on once that is flushed.
    fn save(&mut self, view: u64) -> Result<(), StoreFault> {
        self.saving = Some(view);
        Ok(())
    }

    fn faults(&self) -> u64 {
        0
    }
}
