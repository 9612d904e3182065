//! A group of machines by virtual time: one thing happens at a time, and nothing else tells it apart from another run
//! than its seed.

use crate::happening::{Act, Event, Happening};
use crate::inputs::Inputs;
use crate::net::Net;
use crate::site::Site;
use crate::summary::Summary;
use crate::trial::Trial;
use net_hello::Epoch;
use sim_checker::Line;
use sim_machine::{Disk, End, Machine, Program, Setup};
use sim_time::{Clock, Draws, MS, SECOND};
use std::alloc::{AllocError, Global};
use vr_model::ClientNumber;

/// A group of machines.
#[derive(Drop)]
pub struct World {
    pub(crate) machines: Vec<Machine>,
    pub(crate) site: Site,
    pub(crate) act: Act,
    /// What clients write.
    pub(crate) inputs: Inputs,
    /// When they read outputs last.
    pub(crate) last_read: u64,
}

/// A clock that goes fast or slow by so many millionths at most.
fn clock_of(draws: &mut Draws, drift: u64) -> Clock {
    let drawn = draws.below(drift.saturating_mul(2).saturating_add(1));
    Clock {
        began: 0,
        millionths: drawn.abs_diff(drift),
        is_fast: drawn >= drift,
    }
}

/// A machine that is down, and was formatted for the first epoch.
fn machine_of(
    alloc: Global,
    setup: &Setup,
    epoch: Epoch,
    number: u8,
    draws: &mut Draws,
) -> Result<Machine, AllocError> {
    let clock = clock_of(draws, setup.drift);
    let mut ends = Vec::new(alloc);
    for _ in 0..setup.size() {
        ends.push(End::new(setup.pulse()))?;
    }
    let disk = Disk::new(alloc, epoch);
    Ok(Machine::new(alloc, number, disk, clock, ends))
}

impl Net {
    /// What happens first, beside that machines start.
    fn begin(&mut self) -> Result<(), AllocError> {
        self.agenda.put(MS, Happening::Write)?;
        self.agenda.put(MS, Happening::Read)?;
        self.agenda.put(SECOND, Happening::Operate)?;
        self.agenda.put(SECOND, Happening::Plan)
    }
}

impl World {
    /// A group that runs this program, with no machine yet; the operator is its client of this number.
    pub fn new(
        alloc: Global,
        setup: Setup,
        trial: Trial,
        program: Box<Program>,
        operator: ClientNumber,
        inputs: Inputs,
    ) -> Result<Box<World>, AllocError> {
        let counter = inputs.counter();
        let site = Site::new(alloc, setup, trial, program, operator, counter)?;
        let world = World {
            machines: Vec::new(alloc),
            site,
            act: Act::Heals { since: 0 },
            inputs,
            last_read: 0,
        };
        Ok(Box::new(alloc, world)?)
    }

    /// Its machines are made.
    fn make_machines(&mut self) -> Result<(), AllocError> {
        let (alloc, setup) = (self.site.net.alloc, self.site.net.setup);
        let epoch = self.site.program.epoch;
        for number in 0..setup.size() {
            let machine = machine_of(alloc, &setup, epoch, number, &mut self.site.net.draws)?;
            self.machines.push(machine)?;
        }
        Ok(())
    }

    /// Runs from the beginning until that time, or until something is wrong.
    pub fn run(&mut self, until: u64) -> Result<(), AllocError> {
        self.begin()?;
        self.go_on(until, u64::MAX)
    }

    /// Its machines are to start within a tenth of a second.
    pub fn begin(&mut self) -> Result<(), AllocError> {
        self.make_machines()?;
        for it in self.machines.iter_mut() {
            let at = self.site.net.draws.below(100 * MS);
            self.site.net.boot_at(it, at)?;
        }
        self.site.net.begin()
    }

    /// Whether it's that time, or something is wrong.
    pub fn is_over(&self, until: u64) -> bool {
        self.site.net.now >= until || self.site.checker.wrong.is_some()
    }

    /// So many steps it went.
    pub fn steps(&self) -> u64 {
        self.site.tally.happenings
    }

    /// What was seen so far.
    pub fn summary(&self) -> Summary {
        let Site {
            net,
            checker,
            tally,
            journal,
            ..
        } = &self.site;
        Summary {
            setup: net.setup,
            time: net.now,
            tally: *tally,
            scans: checker.scans,
            epoch: checker.epoch,
            sum: journal.sum,
            wrong: checker.wrong,
        }
    }

    /// The lines that are kept of what happened.
    pub fn lines(&self) -> &[Line] {
        self.site.journal.lines.as_slice()
    }

    /// Keeps these lines no longer.
    pub fn forget_lines(&mut self) {
        self.site.journal.lines.clear();
    }

    /// Goes on for so many steps, until that time, or until something is wrong.
    pub fn go_on(&mut self, until: u64, steps: u64) -> Result<(), AllocError> {
        for _ in 0..steps {
            if self.is_over(until) {
                return Ok(());
            }
            let Some(what) = self.site.net.next() else {
                return Ok(());
            };
            self.site.tally.happened();
            self.happen(what)?;
        }
        Ok(())
    }

    /// This happens.
    fn happen(&mut self, what: Happening) -> Result<(), AllocError> {
        match what {
            Happening::At(machine, event) => self.happen_at(machine, event),
            Happening::Write => self.write(),
            Happening::Read => self.read(),
            Happening::Operate => self.site.operate(),
            Happening::Plan => self.plan(),
            Happening::Ends(trouble) => self.site.net.end_trouble(trouble),
        }
    }

    /// This happens at a machine.
    fn happen_at(&mut self, machine: u8, event: Event) -> Result<(), AllocError> {
        match self.machines.get_mut(usize::from(machine)) {
            Some(it) => self.site.happen(it, event),
            None => {
                drop(event);
                Ok(())
            }
        }
    }
}
