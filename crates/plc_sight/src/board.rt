//! The board that a replica's thread and those who look share.

ghost use Rattle.std.specs.Prelude.{◌≡◌};
ghost use Rattle.plc_sight.specs.Left.{taken};

use il_model::Snapshot;
use std::sync::atomic::{AtomicU64, Ordering};
use std::sync::{Mutex, Wait};
use std::thread;
use std::time::{Clock, Duration};

/// In milliseconds, from one look to the next.
const PAUSE: u64 = 5;

/// A snapshot that was left, and how many wishes there were before it was taken.
#[derive(Drop)]
pub(crate) struct Left {
    pub(crate) wishes: u64,
    pub(crate) snapshot: Snapshot,
}

/// That a snapshot is wanted: one that is taken behind this.
#[derive(Clone, Copy)]
pub struct Wish {
    wishes: u64,
}

/// Where the thread of a replica leaves a snapshot of its controller for those who want one, and how many inputs and
/// outputs are forced. Whoever locks it holds the lock for a moment.
#[derive(Drop)]
pub struct SnapshotBoard {
    /// How many wishes there were so far.
    wishes: AtomicU64,
    /// How many there were before the last snapshot was taken.
    met: AtomicU64,
    left: Mutex<Option<Left>>,
    forces: AtomicU64,
}

/// Takes what was left, if it was taken behind so many wishes.
fn take(left: &mut Option<Left>, wishes: u64) -> Option<Snapshot>
    ensures { (result, left.new) ≡ taken left.old wishes }
{
    match left.take() {
        Some(it) if it.wishes >= wishes => {
            let Left { snapshot, .. } = it;
            Some(snapshot)
        }
        earlier => {
            *left = earlier;
            None
        }
    }
}

impl SnapshotBoard {
    /// None is there, none is wanted, and nothing is forced.
    pub fn new() -> SnapshotBoard {
        SnapshotBoard {
            wishes: AtomicU64::new(0),
            met: AtomicU64::new(0),
            left: Mutex::new(None),
            forces: AtomicU64::new(0),
        }
    }

    /// Whether a snapshot is wanted. It's taken behind this call.
    pub fn wish(&self) -> Option<Wish> {
        let wishes = self.wishes.load(Ordering::SeqCst);
        if wishes == self.met.load(Ordering::SeqCst) {
            None
        } else {
            Some(Wish { wishes })
        }
    }

    /// Leaves one that was taken behind this wish: none is wanted any more, unless somebody wished for one since.
    pub fn put<R: Wait>(&self, rt: &R, wish: Wish, snapshot: Snapshot) {
        let Wish { wishes } = wish;
        *self.left.lock(rt) = Some(Left { wishes, snapshot });
        self.met.store(wishes, Ordering::SeqCst);
    }

    /// So many inputs and outputs are forced from now on.
    pub fn put_forces(&self, forces: u64) {
        self.forces.store(forces, Ordering::SeqCst);
    }

    /// So many inputs and outputs are forced.
    pub fn forces(&self) -> u64 {
        self.forces.load(Ordering::SeqCst)
    }

    /// Wishes for one; how many wishes there are with this one.
    fn wish_for_one(&self) -> u64 {
        self.wishes.fetch_add(1, Ordering::SeqCst).wrapping_add(1)
    }

    /// Wants one that is newer than this call, and looks for it so often. Where another one takes it first, the next
    /// one is wanted.
    pub fn get<R: Wait + Clock>(&self, rt: &R, tries: u32) -> Option<Snapshot> {
        let wishes = self.wish_for_one();
        for _ in 0..tries {
            thread::sleep(rt, Duration::from_millis(PAUSE));
            let snapshot = take(&mut *self.left.lock(rt), wishes);
            if snapshot.is_some() {
                return snapshot;
            }
            if self.met.load(Ordering::SeqCst) >= wishes {
                let _ = self.wish_for_one();
            }
        }
        None
    }
}
