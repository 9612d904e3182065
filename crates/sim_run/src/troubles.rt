//! Faults at random, and how they end.

use crate::happening::{Event, Happening, Trouble};
use crate::kinds::Kind;
use crate::net::Net;
use crate::site::Site;
use crate::world::World;
use sim_machine::Machine;
use sim_time::MS;
use std::alloc::AllocError;

impl World {
    /// A fault comes.
    pub(crate) fn trouble(&mut self) -> Result<(), AllocError> {
        self.site.tally.failed();
        let machine = self.site.net.any();
        let Some(kind) = self.site.trial.kinds.draw(&mut self.site.net.draws) else {
            return Ok(());
        };
        self.site.tell(machine, kind.told(), 0);
        if kind == Kind::Power {
            return self.cut_most();
        }
        match self.machines.get_mut(usize::from(machine)) {
            Some(it) => self.site.trouble(it, kind),
            None => Ok(()),
        }
    }

    /// Most machines lose their power, and start again.
    fn cut_most(&mut self) -> Result<(), AllocError> {
        for it in self.machines.iter_mut() {
            if self.site.net.draws.comes(700) {
                self.site.cut(it)?;
            }
        }
        Ok(())
    }
}

impl Site {
    /// A fault of this kind comes to a machine.
    fn trouble(&mut self, it: &mut Machine, kind: Kind) -> Result<(), AllocError> {
        match kind {
            Kind::Crash => self.crash(it),
            Kind::Stop => self.stop(it),
            _ => self.net.trouble(it, kind),
        }
    }

    /// A process is killed, or its machine loses its power, and starts again.
    fn crash(&mut self, it: &mut Machine) -> Result<(), AllocError> {
        let is_heard = self.net.draws.comes(600);
        self.kill(it, is_heard)?;
        let at = self.net.later(50 * MS, 2_000 * MS);
        self.net.boot_at(it, at)
    }

    /// A machine loses its power, and starts again.
    fn cut(&mut self, it: &mut Machine) -> Result<(), AllocError> {
        self.kill(it, false)?;
        let at = self.net.later(200 * MS, 2_500 * MS);
        self.net.boot_at(it, at)
    }

    /// An operator stops a machine, and starts it again.
    fn stop(&mut self, it: &mut Machine) -> Result<(), AllocError> {
        if !it.is_up {
            return Ok(());
        }
        let at = self.net.later(50 * MS, 1_000 * MS);
        let mut deeds = Vec::new(self.net.alloc);
        it.stop(self.net.now, &mut deeds)?;
        self.do_all(it, deeds)?;
        if it.is_up {
            return Ok(());
        }
        self.net.boot_at(it, at)
    }
}

impl Net {
    /// A fault of this kind comes, with which no process ends.
    fn trouble(&mut self, it: &mut Machine, kind: Kind) -> Result<(), AllocError> {
        match kind {
            Kind::Pause => {
                self.pause(it);
                Ok(())
            }
            Kind::Isolate => self.isolate(it.number),
            Kind::DiskFull => self.fill_disk(it, 50 * MS, 2_000 * MS),
            Kind::DiskReadOnly => self.fill_disk(it, 2_000 * MS, 10_000 * MS),
            Kind::DiskSlow => self.slow_disk(it),
            _ => self.trouble_ways(it.number, kind),
        }
    }

    /// A fault of this kind comes to what goes between machines.
    fn trouble_ways(&mut self, one: u8, kind: Kind) -> Result<(), AllocError> {
        match kind {
            Kind::Cut => {
                let other = self.any();
                let is_both = self.draws.comes(600);
                self.block(one, other, is_both)
            }
            Kind::OneWay => {
                let other = self.any();
                self.block(one, other, false)
            }
            Kind::Delay => self.delay_segments(),
            Kind::Reorder => self.spread_segments(),
            _ => self.lose_segments(),
        }
    }

    /// A machine stands still for a while, or for longer where it does.
    fn pause(&mut self, it: &mut Machine) {
        let until = self.later(10 * MS, 2_500 * MS);
        it.paused_until = it.paused_until.max(until);
    }

    /// Nothing goes from a machine to another one for a while, and maybe nothing back.
    fn block(&mut self, one: u8, other: u8, is_both: bool) -> Result<(), AllocError> {
        let trouble = Trouble::Blocked {
            one,
            other,
            is_both,
        };
        self.lanes.block_ways(one, other, is_both, true);
        let at = self.later(20 * MS, 2_000 * MS);
        self.agenda.put(at, Happening::Ends(trouble))
    }

    /// Nothing goes to or from a machine for a while.
    fn isolate(&mut self, one: u8) -> Result<(), AllocError> {
        let at = self.later(50 * MS, 2_500 * MS);
        for other in 0..self.setup.size() {
            self.lanes.block_ways(one, other, true, true);
            let trouble = Trouble::Blocked {
                one,
                other,
                is_both: true,
            };
            self.agenda.put(at, Happening::Ends(trouble))?;
        }
        Ok(())
    }

    /// The disk of a machine takes no write for a while, as one that is full.
    fn fill_disk(&mut self, it: &mut Machine, least: u64, most: u64) -> Result<(), AllocError> {
        it.disk.is_full = true;
        let at = self.later(least, most);
        self.put(at, it.number, Event::HasRoom)
    }

    /// The disk of a machine is slow for a while.
    fn slow_disk(&mut self, it: &mut Machine) -> Result<(), AllocError> {
        it.disk.latency = self.draws.between(5 * MS, 400 * MS);
        let at = self.later(500 * MS, 4_000 * MS);
        self.put(at, it.number, Event::IsQuick)
    }

    /// Segments are lost for a while.
    fn lose_segments(&mut self) -> Result<(), AllocError> {
        self.lanes.loss = self.draws.between(5, 100);
        let at = self.later(200 * MS, 3_000 * MS);
        self.agenda.put(at, Happening::Ends(Trouble::Loss))
    }

    /// Segments take longer for a while.
    fn delay_segments(&mut self) -> Result<(), AllocError> {
        self.slower = self.draws.between(5 * MS, 50 * MS);
        let at = self.later(200 * MS, 3_000 * MS);
        self.agenda.put(at, Happening::Ends(Trouble::Delay))
    }

    /// Segments take now more time, now less, for a while.
    fn spread_segments(&mut self) -> Result<(), AllocError> {
        self.spread = self.draws.between(5 * MS, 50 * MS);
        let at = self.later(200 * MS, 3_000 * MS);
        self.agenda.put(at, Happening::Ends(Trouble::Reorder))
    }

    /// What goes between machines goes as before.
    pub(crate) fn heal_ways(&mut self) -> Result<(), AllocError> {
        self.lanes.heal();
        self.slower = 0;
        self.spread = 0;
        self.release()
    }

    /// A fault ends.
    pub(crate) fn end_trouble(&mut self, trouble: Trouble) -> Result<(), AllocError> {
        match trouble {
            Trouble::Blocked {
                one,
                other,
                is_both,
            } => {
                self.lanes.block_ways(one, other, is_both, false);
                self.release()
            }
            Trouble::Loss => {
                self.lanes.loss = 0;
                Ok(())
            }
            Trouble::Delay => {
                self.slower = 0;
                Ok(())
            }
            Trouble::Reorder => {
                self.spread = 0;
                Ok(())
            }
        }
    }

    /// The faults of a machine end, and it starts if it's down.
    pub(crate) fn heal(&mut self, it: &mut Machine) -> Result<(), AllocError> {
        it.disk.heal();
        if it.is_up || it.boots_at.is_some() {
            return Ok(());
        }
        let at = self.after(1);
        self.boot_at(it, at)
    }
}
