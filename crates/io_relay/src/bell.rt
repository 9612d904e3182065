//! What the two ends of a relay tell each other.

use std::sync::Wait;
use std::sync::atomic::{AtomicBool, Ordering};
use std::thread::Parker;

/// What the two ends of a relay tell each other.
#[derive(Drop)]
pub(crate) struct Bell {
    parker: Parker,
    is_over: AtomicBool,
    is_done: AtomicBool,
}

impl Bell {
    /// Nothing was put yet.
    pub(crate) fn new() -> Bell {
        Bell {
            parker: Parker::new(),
            is_over: AtomicBool::new(false),
            is_done: AtomicBool::new(false),
        }
    }

    /// Waits until it's rung, unless it was since it waited last.
    pub(crate) fn wait<R: Wait>(&self, rt: &R) {
        self.parker.park(rt);
    }

    /// Something was put.
    pub(crate) fn ring(&self) {
        self.parker.unpark();
    }

    /// Nothing more is put.
    pub(crate) fn end(&self) {
        self.is_over.store(true, Ordering::SeqCst);
        self.parker.unpark();
    }

    /// Whether that is so.
    pub(crate) fn is_over(&self) -> bool {
        self.is_over.load(Ordering::SeqCst)
    }

    /// All that was put is written.
    pub(crate) fn finish(&self) {
        self.is_done.store(true, Ordering::SeqCst);
    }

    /// Whether that is so.
    pub(crate) fn is_done(&self) -> bool {
        self.is_done.load(Ordering::SeqCst)
    }
}
