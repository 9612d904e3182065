//! What the driver of a machine shows its replica's thread and its console.

use crate::giving_up::GivenUp;
use std::alloc::{AllocError, Global};
use std::sync::Arc;
use std::sync::atomic::AtomicBool;

/// What the driver of a machine shows other threads of the machine.
#[derive(Drop)]
pub(crate) struct Signals {
    /// The view that its machine gives up.
    pub(crate) given_up: Arc<GivenUp>,
    /// That it hears no majority.
    pub(crate) has_no_majority: Arc<AtomicBool>,
}

impl Signals {
    /// It gives up none, and hears a majority as far as it knows.
    pub(crate) fn new(alloc: Global) -> Result<Signals, AllocError> {
        Ok(Signals {
            given_up: Arc::new(alloc, GivenUp::new())?,
            has_no_majority: Arc::new(alloc, AtomicBool::new(false))?,
        })
    }
}
