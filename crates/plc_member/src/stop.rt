//! What ends the serving of a machine without a fault.

use std::alloc::{AllocError, Global};
use std::sync::Arc;
use std::sync::atomic::{AtomicBool, Ordering};

/// Ends the serving of a machine, from any thread.
#[derive(Drop)]
pub struct Stop {
    is_asked: Arc<AtomicBool>,
}

impl Stop {
    /// Of a machine that goes on.
    pub(crate) fn new(alloc: Global) -> Result<Stop, AllocError> {
        Ok(Stop {
            is_asked: Arc::new(alloc, AtomicBool::new(false))?,
        })
    }

    /// The same, for another thread.
    pub(crate) fn another(&self) -> Result<Stop, AllocError> {
        Ok(Stop {
            is_asked: Arc::try_clone(&self.is_asked)?,
        })
    }

    /// Has the machine come to its end, with the turn that it's in.
    pub fn ask(&self) {
        self.is_asked.store(true, Ordering::SeqCst);
    }

    /// Whether the machine is to end.
    pub(crate) fn is_asked(&self) -> bool {
        self.is_asked.load(Ordering::SeqCst)
    }
}
