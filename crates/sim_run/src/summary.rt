//! What was seen of a run so far.

use sim_checker::{Tally, Wrong};
use sim_machine::Setup;

/// What was seen of a run so far.
#[derive(Clone, Copy)]
pub struct Summary {
    pub setup: Setup,
    /// In microseconds since its beginning.
    pub time: u64,
    pub tally: Tally,
    /// So many scans are in the histories of its epochs.
    pub scans: u64,
    /// The last one.
    pub epoch: u64,
    /// Over all that was released, opened, closed and left.
    pub sum: u64,
    /// The first thing that is wrong, if anything is.
    pub wrong: Option<Wrong>,
}
