//! Clients of the group: one writes inputs at each open port, one reads at all open ports, and an operator forces
//! places and takes that back, or resets the program.

use crate::happening::Happening;
use crate::site::Site;
use crate::world::World;
use il_model::{Command, Slot, Value};
use sim_checker::Point;
use sim_time::MS;
use std::alloc::AllocError;

impl World {
    /// A client writes at each open port, with a count that it never wrote.
    pub(crate) fn write(&mut self) -> Result<(), AllocError> {
        let next = self.site.net.later(10 * MS, 60 * MS);
        self.site.net.agenda.put(next, Happening::Write)?;
        for it in self.machines.iter_mut() {
            if it.is_open(self.site.net.now) {
                self.inputs.write(&mut it.stage);
            }
        }
        Ok(())
    }

    /// A client reads at all open ports, one after another.
    pub(crate) fn read(&mut self) -> Result<(), AllocError> {
        let next = self.site.net.later(2 * MS, 8 * MS);
        self.site.net.agenda.put(next, Happening::Read)?;
        let first = self.site.net.any();
        let size = self.site.net.setup.size();
        for behind in 0..size {
            let machine = first.wrapping_add(behind);
            self.read_at(if machine < size {
                machine
            } else {
                machine.wrapping_sub(size)
            });
        }
        Ok(())
    }

    /// A client reads at a machine.
    fn read_at(&mut self, machine: u8) {
        if let Some(point) = self.point_at(machine) {
            self.last_read = self.site.net.now;
            self.site.tally.read();
            self.site.checker.read(point);
        }
    }

    /// What a client reads at a machine, if anything.
    fn point_at(&self, machine: u8) -> Option<Point> {
        let it = self.machines.get(usize::from(machine))?;
        it.read(self.site.net.now, self.site.net.setup.fresh)
    }
}

impl Site {
    /// An operator forces an output or takes that back, at any machine. What isn't answered is asked again.
    pub(crate) fn operate(&mut self) -> Result<(), AllocError> {
        let next = self.net.later(20 * MS, 1_500 * MS);
        self.net.agenda.put(next, Happening::Operate)?;
        if !self.operator.is_waiting() {
            self.order();
        }
        let sends = self.operator.retry(self.net.alloc)?;
        let at = self.net.any();
        for message in sends {
            self.net.ask(at, message)?;
        }
        Ok(())
    }

    /// The operator's next order.
    fn order(&mut self) {
        let slot = Slot(u16::try_from(self.net.draws.below(16)).unwrap_or(0));
        let operator = &mut self.operator;
        if self.trial.resets && self.net.draws.comes(100) {
            drop(operator.submit(Command::Reset, Command::Reset));
            return;
        }
        if self.net.draws.comes(500) {
            drop(operator.submit(Command::Unforce(slot), Command::Unforce(slot)));
            return;
        }
        let value = Value::Bool(self.net.draws.comes(500));
        drop(operator.submit(Command::Force(slot, value), Command::Force(slot, value)));
    }
}
