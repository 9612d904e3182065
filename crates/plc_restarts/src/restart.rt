//! Which restart is wanted.

/// How a controller goes on behind an outage (IEC 61131-3:2003, 2.4.2).
#[derive(Clone, Copy, Debug, PartialEq, Eq)]
pub enum Restart {
    /// As if there had been none, however long it was.
    Hot,
    /// Retained variables keep their values, all others begin anew.
    Warm,
    /// All variables begin anew.
    Cold,
}

/// Which restart is wanted, and behind which outages.
#[derive(Clone, Copy, Debug, PartialEq, Eq)]
pub struct Restarts {
    pub kind: Restart,
    /// In milliseconds: behind a shorter outage it goes on as if there had been none.
    pub hot_within: u64,
}
