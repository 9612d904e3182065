//! How soon a group has to be well, in microseconds.

use sim_machine::Setup;
use sim_time::{MS, SECOND};

/// How soon a group has to be well, in microseconds.
#[derive(Clone, Copy)]
pub struct Limits {
    /// Behind the end of all faults all is well within that.
    pub healing: u64,
    /// Behind a power cut of all, from the last start on, outputs are there within that.
    pub cold: u64,
    /// A takeover is over within that, and eight times what a segment takes at most.
    pub takeover: u64,
}

/// Those of a group with the usual times: a patience of 100 ms, a period of 100 ms at most, and 40 ms more in which its
/// outputs are shown.
const USUAL: Limits = Limits {
    healing: 15 * SECOND,
    cold: 4 * SECOND,
    takeover: 250 * MS,
};

impl Limits {
    /// Those of a group: the usual ones, and what it takes beyond where its own times are longer.
    pub fn of(setup: &Setup) -> Limits {
        let patience = setup.patience.saturating_sub(100 * MS);
        let period = setup.period.saturating_sub(100 * MS);
        let shown = setup.period.saturating_add(40 * MS);
        let fresh = setup.fresh.saturating_sub(shown);
        let longer = patience
            .saturating_add(patience / 2)
            .saturating_add(period)
            .saturating_add(fresh);
        Limits {
            healing: USUAL.healing.saturating_add(longer.saturating_mul(8)),
            cold: USUAL.cold.saturating_add(longer.saturating_mul(4)),
            takeover: USUAL.takeover.saturating_add(longer),
        }
    }
}
