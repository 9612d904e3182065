//! How the saves of a replica go, and when one that failed is tried again.

ghost use Rattle.std.specs.Prelude.{◌≡◌, ◌*◌, min};

use std::sync::atomic::{AtomicBool, Ordering};
use std::thread;
use std::time::{Clock, Duration};

/// In milliseconds: how long it is from what failed to the next try; then twice as long each time, up to a minute.
const FIRST_PAUSE: u64 = 1000;

const LONGEST_PAUSE: u64 = 60_000;

/// In milliseconds: after that a pause is cut short at the end.
const NAP: u64 = 50;

/// The pauses before what failed is tried again, one after another: a second, and then each twice as long as the one
/// before it, up to a minute.
#[derive(Drop)]
pub struct Pauses {
    /// The next one, in milliseconds.
    next: u64,
}

impl Pauses {
    /// Of what is tried for the first time.
    pub fn new() -> Pauses
        ensures { result.next ≡ 1000 }
    {
        Pauses { next: FIRST_PAUSE }
    }

    /// The next one, in milliseconds.
    fn take(&mut self) -> u64
        ensures pause { result ≡ self.old.next }
        ensures next { self.new.next ≡ min (self.old.next * 2) 60_000 }
    {
        let pause = self.next;
        self.next = pause.saturating_mul(2).min(LONGEST_PAUSE);
        pause
    }
}

/// How the saves of a replica go: its thread tells it, and any thread reads it.
#[derive(Drop)]
pub struct Saves {
    /// Whether one failed since that was asked last.
    has_failed: AtomicBool,
    /// Whether the last one failed, and is to be tried again.
    is_failing: AtomicBool,
    /// Whether none is tried again.
    is_over: AtomicBool,
}

impl Saves {
    /// None was made yet.
    pub fn new() -> Saves {
        Saves {
            has_failed: AtomicBool::new(false),
            is_failing: AtomicBool::new(false),
            is_over: AtomicBool::new(false),
        }
    }

    /// Whether one failed since this was asked last.
    pub fn has_failed_anew(&self) -> bool {
        self.has_failed.swap(false, Ordering::SeqCst)
    }

    /// Whether one is to be tried again.
    pub fn are_failing(&self) -> bool {
        self.is_failing.load(Ordering::SeqCst)
    }

    /// Has none tried again from now on.
    pub fn end(&self) {
        self.is_over.store(true, Ordering::SeqCst);
    }

    /// Notes how one went.
    pub fn note(&self, has_failed: bool) {
        if has_failed {
            self.has_failed.store(true, Ordering::SeqCst);
        }
        self.is_failing.store(has_failed, Ordering::SeqCst);
    }

    /// Waits for the next of these pauses: whether what failed is to be tried again then.
    pub fn wait<R: Clock>(&self, rt: &R, pauses: &mut Pauses) -> bool {
        for _ in 0..pauses.take() / NAP {
            if self.is_over.load(Ordering::SeqCst) {
                return false;
            }
            thread::sleep(rt, Duration::from_millis(NAP));
        }
        true
    }
}
