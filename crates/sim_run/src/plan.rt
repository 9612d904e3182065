//! How a run goes on: faults for a while, then none until all is well; then the machine that leads is killed, or all
//! lose their power; and faults again.

use crate::happening::{Act, Happening};
use crate::site::Site;
use crate::world::World;
use sim_checker::{What, Wrong};
use sim_time::{MS, SECOND};
use std::alloc::AllocError;

/// All is well for so long before something is tried.
const CALM: u64 = 1_200 * MS;

/// Outputs that were read within that are there.
const READ: u64 = 300 * MS;

impl World {
    /// It's looked how far the run is.
    pub(crate) fn plan(&mut self) -> Result<(), AllocError> {
        let step = match self.act {
            Act::Faults { until } => self.go_on_failing(until)?,
            Act::Heals { since } => self.go_on_healing(since),
            Act::Calm { until } => self.go_on_calm(until)?,
            Act::TakesOver { since, machine } => self.go_on_taking_over(since, machine)?,
            Act::Dark { since } => self.go_on_dark(since),
        };
        let next = self.site.net.after(step);
        self.site.net.agenda.put(next, Happening::Plan)
    }

    /// Faults come until then: how soon it's looked again.
    fn go_on_failing(&mut self, until: u64) -> Result<u64, AllocError> {
        let now = self.site.net.now;
        if now >= until {
            self.heal()?;
            self.act = Act::Heals { since: now };
        } else {
            self.trouble()?;
        }
        Ok(self.site.net.draws.between(10 * MS, 600 * MS))
    }

    /// Whether each machine is normal, or waits for an epoch, and none is paused.
    fn is_well(&self) -> bool {
        for it in self.machines.iter() {
            if !it.is_well(self.site.net.now) {
                return false;
            }
        }
        true
    }

    /// Whether the disk of one was lost, which takes part from the next epoch on.
    fn one_waits(&self) -> bool {
        self.machines.iter().any(|it| it.disk.files.waits())
    }

    /// No faults come since then: how soon it's looked again.
    fn go_on_healing(&mut self, since: u64) -> u64 {
        let now = self.site.net.now;
        let took = now.saturating_sub(since);
        let is_well = self.is_well();
        if is_well && self.last_read.saturating_add(READ) > now {
            self.site.tally.healed(took);
            self.act = Act::Calm {
                until: now.saturating_add(CALM),
            };
        } else if took > self.site.trial.limits.healing {
            self.site.checker.note(if is_well {
                Wrong::NoOutputs
            } else {
                Wrong::NotNormal
            });
        }
        20 * MS
    }

    /// All is well: how soon it's looked again.
    fn go_on_calm(&mut self, until: u64) -> Result<u64, AllocError> {
        if self.site.net.now >= until && !self.site.net.setup.is_calm {
            self.strike()?;
        }
        Ok(20 * MS)
    }

    /// Another machine is to take over since then: how soon it's looked again.
    fn go_on_taking_over(&mut self, since: u64, machine: u8) -> Result<u64, AllocError> {
        if self.last_read > since {
            self.site.took_over(self.last_read.saturating_sub(since));
            self.boot_soon(machine)?;
            self.begin_faults();
        } else if self.site.has_no_takeover(since) {
            self.site.checker.note(Wrong::SlowTakeover);
        }
        Ok(MS)
    }

    /// A machine starts within a second.
    fn boot_soon(&mut self, machine: u8) -> Result<(), AllocError> {
        let at = self.site.net.later(0, SECOND);
        match self.machines.get_mut(usize::from(machine)) {
            Some(it) => self.site.net.boot_at(it, at),
            None => Ok(()),
        }
    }

    /// All start by then: how soon it's looked again.
    fn go_on_dark(&mut self, since: u64) -> u64 {
        if self.last_read > since {
            self.site.began_anew(self.last_read.saturating_sub(since));
            if self.one_waits() {
                self.act = Act::Heals {
                    since: self.site.net.now,
                };
            } else {
                self.begin_faults();
            }
        } else if self.site.net.now.saturating_sub(since) > self.site.trial.limits.cold {
            self.site.checker.note(Wrong::SlowColdStart);
        }
        5 * MS
    }

    /// From now on faults come, for a while.
    fn begin_faults(&mut self) {
        let until = self.site.net.later(SECOND, 12 * SECOND);
        self.act = Act::Faults { until };
    }

    /// All is well: the one that leads is killed, or all are cut off.
    fn strike(&mut self) -> Result<(), AllocError> {
        let (cuts, kills) = self.site.trial.strikes();
        if !cuts && !kills {
            self.begin_faults();
            return Ok(());
        }
        self.site.tally.failed();
        self.site.tell(0, What::Strikes, 0);
        self.tell_reached();
        let is_dark = self.one_waits() || self.site.net.draws.comes(300);
        if cuts && (is_dark || !kills) {
            return self.go_dark();
        }
        let since = self.site.net.now;
        self.act = match self.kill_leading()? {
            Some(machine) => Act::TakesOver { since, machine },
            None => Act::Heals { since },
        };
        Ok(())
    }

    /// Which machines are reached by each, by bits: told where something is tried.
    fn tell_reached(&mut self) {
        for it in self.machines.iter() {
            let (_, reached) = it.neighbours(self.site.net.now);
            self.site.tell(it.number, What::Reached, u64::from(reached));
        }
    }

    /// The machine that leads, as clients see it, is killed, if one does: its number.
    fn kill_leading(&mut self) -> Result<Option<u8>, AllocError> {
        for it in self.machines.iter_mut() {
            if it.is_open(self.site.net.now) {
                let is_heard = self.site.net.draws.comes(500);
                self.site.kill(it, is_heard)?;
                return Ok(Some(it.number));
            }
        }
        Ok(None)
    }

    /// All lose their power, and maybe one its disk, and start again.
    fn go_dark(&mut self) -> Result<(), AllocError> {
        self.site.tell(0, What::Dark, 0);
        for it in self.machines.iter_mut() {
            self.site.kill(it, false)?;
        }
        let is_lost = !self.one_waits() && self.site.net.draws.comes(300);
        if is_lost && self.site.trial.kinds.loses_disks {
            self.lose_disk();
        }
        let since = self.boot_all()?;
        self.act = Act::Dark { since };
        Ok(())
    }

    /// All start again: when the last one does.
    fn boot_all(&mut self) -> Result<u64, AllocError> {
        let mut last = 0;
        for it in self.machines.iter_mut() {
            let at = self.site.net.later(500 * MS, 900 * MS);
            last = at.max(last);
            self.site.net.boot_at(it, at)?;
        }
        Ok(last)
    }

    /// A machine loses its disk, and gets another one, which was formatted to wait.
    fn lose_disk(&mut self) {
        let machine = self.site.net.any();
        if let Some(it) = self.machines.get_mut(usize::from(machine)) {
            it.disk.replace();
        }
        self.site.tally.lost_disk();
        self.site.tell(machine, What::DiskLost, 0);
    }

    /// All faults end, and each machine that is down starts.
    fn heal(&mut self) -> Result<(), AllocError> {
        self.site.tell(0, What::Heals, 0);
        self.site.net.heal_ways()?;
        for it in self.machines.iter_mut() {
            self.site.net.heal(it)?;
        }
        Ok(())
    }
}

impl Site {
    /// How long a takeover may take.
    fn most_takeover(&self) -> u64 {
        let setup = &self.net.setup;
        let longest = setup.latency.saturating_add(setup.jitter);
        let ways = longest.saturating_mul(8);
        self.trial.limits.takeover.saturating_add(ways)
    }

    /// Whether no machine has taken over since then, and none does any more.
    fn has_no_takeover(&self, since: u64) -> bool {
        let longest = self.most_takeover().saturating_add(SECOND);
        self.net.now.saturating_sub(since) > longest
    }

    /// A takeover took so long.
    fn took_over(&mut self, took: u64) {
        self.tally.took_over(took);
        if took > self.most_takeover() {
            self.checker.note(Wrong::SlowTakeover);
        }
    }

    /// A cold start took so long.
    fn began_anew(&mut self, took: u64) {
        self.tally.began_anew(took);
        if took > self.trial.limits.cold {
            self.checker.note(Wrong::SlowColdStart);
        }
    }
}
