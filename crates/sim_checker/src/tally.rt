//! What is counted of a run.

/// What is counted of a run: times are in microseconds.
#[derive(Clone, Copy)]
pub struct Tally {
    pub happenings: u64,
    pub faults: u64,
    pub takeovers: u64,
    pub longest_takeover: u64,
    pub cold_starts: u64,
    pub longest_cold: u64,
    /// From the end of all faults until all is well.
    pub longest_heal: u64,
    pub lost_disks: u64,
    pub reads: u64,
    pub releases: u64,
    /// When something was released last.
    released: u64,
    /// Between two releases.
    pub longest_gap: u64,
}

impl Tally {
    /// Nothing was counted.
    pub fn new() -> Tally {
        Tally {
            happenings: 0,
            faults: 0,
            takeovers: 0,
            longest_takeover: 0,
            cold_starts: 0,
            longest_cold: 0,
            longest_heal: 0,
            lost_disks: 0,
            reads: 0,
            releases: 0,
            released: 0,
            longest_gap: 0,
        }
    }

    /// Something happened.
    pub fn happened(&mut self) {
        self.happenings = self.happenings.saturating_add(1);
    }

    /// A fault came.
    pub fn failed(&mut self) {
        self.faults = self.faults.saturating_add(1);
    }

    /// A client read.
    pub fn read(&mut self) {
        self.reads = self.reads.saturating_add(1);
    }

    /// Something was released now.
    pub fn release(&mut self, now: u64) {
        self.releases = self.releases.saturating_add(1);
        self.longest_gap = self.longest_gap.max(now.saturating_sub(self.released));
        self.released = now;
    }

    /// A takeover took so long.
    pub fn took_over(&mut self, took: u64) {
        self.takeovers = self.takeovers.saturating_add(1);
        self.longest_takeover = self.longest_takeover.max(took);
    }

    /// All was well again so long behind the end of all faults.
    pub fn healed(&mut self, took: u64) {
        self.longest_heal = self.longest_heal.max(took);
    }

    /// A machine lost its disk.
    pub fn lost_disk(&mut self) {
        self.lost_disks = self.lost_disks.saturating_add(1);
    }

    /// A cold start took so long.
    pub fn began_anew(&mut self, took: u64) {
        self.cold_starts = self.cold_starts.saturating_add(1);
        self.longest_cold = self.longest_cold.max(took);
    }
}
