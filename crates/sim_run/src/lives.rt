//! Processes of machines, their lives, and what their disks write.

use crate::happening::{Event, Task};
use crate::net::Net;
use crate::site::Site;
use node_core::HostEvent;
use plc_epochs::Kept;
use sim_checker::{What, Wrong};
use sim_machine::{Ending, Machine, Owner, Write};
use sim_time::SECOND;
use std::alloc::AllocError;

impl Net {
    /// The process of a machine is to start then.
    pub(crate) fn boot_at(&mut self, it: &mut Machine, at: u64) -> Result<(), AllocError> {
        it.boots_at = Some(at);
        self.put(at, it.number, Event::Boots)
    }

    /// The disk of a machine is to write this, behind what waits there.
    pub(crate) fn ask_disk(&mut self, it: &mut Machine, write: Write) -> Result<(), AllocError> {
        if !it.disk.ask(write)? {
            return Ok(());
        }
        self.flush_later(it)
    }

    /// The first write that waits at the disk of a machine is flushed once it takes so long.
    fn flush_later(&mut self, it: &Machine) -> Result<(), AllocError> {
        let at = self.after(it.disk.latency);
        self.give(at, it.owner(), Task::Flush)
    }

    /// The store of a machine is to have this of epochs. Before it has an epoch as begun, that is marked.
    pub(crate) fn keep(&mut self, it: &mut Machine, kept: Kept) -> Result<(), AllocError> {
        if let Kept::Begun(epoch) = kept {
            self.ask_disk(it, Write::Begins(epoch))?;
        }
        self.ask_disk(it, Write::Keep(kept))
    }
}

impl Site {
    /// The process of a machine starts, if it was to start now.
    pub(crate) fn boot(&mut self, it: &mut Machine) -> Result<(), AllocError> {
        let now = self.net.now;
        if it.is_up || it.boots_at != Some(now) {
            return Ok(());
        }
        it.boot(now);
        self.tell(it.number, What::Boots, 0);
        self.begin_life(it)?;
        self.net.give(now, it.owner(), Task::Turn)
    }

    /// A life of a machine begins, from what its disk has.
    fn begin_life(&mut self, it: &mut Machine) -> Result<(), AllocError> {
        self.checker.forget(it.number);
        it.renew(self.net.alloc, self.net.setup.pulse());
        if it.disk.files.is_refused() {
            self.checker.note(Wrong::Refused);
            return Ok(());
        }
        let setup = self.host_setup(it.number)?;
        let deeds = it.begin(self.net.alloc, setup, self.net.now)?;
        self.show(it, deeds)
    }

    /// The process of a machine ends. Where its kernel lives on, the other ends of its connections hear of it.
    pub(crate) fn kill(&mut self, it: &mut Machine, is_heard: bool) -> Result<(), AllocError> {
        if !it.is_up {
            return Ok(());
        }
        self.tell(it.number, What::Killed, u64::from(is_heard));
        if is_heard {
            self.net.hang_up(it)?;
        }
        it.cut(self.net.draws.comes(500));
        self.checker.forget(it.number);
        Ok(())
    }

    /// A process ends by a failure, and is started again by its system.
    pub(crate) fn fails(&mut self, it: &mut Machine) -> Result<(), AllocError> {
        self.tell(it.number, What::Fails, 0);
        self.kill(it, true)?;
        let at = self.net.after(SECOND);
        self.net.boot_at(it, at)
    }

    /// Where a life is over and nothing of it is left, the store gets what it's to have, and another one begins.
    pub(crate) fn end_life(&mut self, it: &mut Machine) -> Result<(), AllocError> {
        match it.ending(self.net.now) {
            Ending::No | Ending::Waits => Ok(()),
            Ending::Hangs => {
                self.checker.note(Wrong::Hangs);
                Ok(())
            }
            Ending::Keeps(kept) => {
                it.node = None;
                it.host = None;
                self.net.hang_up(it)?;
                self.net.ask_disk(it, Write::Keep(kept))
            }
        }
    }

    /// The first write that waits at a disk is flushed, and the next one begins.
    pub(crate) fn flush(&mut self, it: &mut Machine) -> Result<(), AllocError> {
        let Some((write, is_flushed)) = it.disk.flush() else {
            return Ok(());
        };
        if it.disk.is_busy() {
            self.net.flush_later(it)?;
        }
        match write {
            Write::Start => self.counted(it, is_flushed),
            _ if !is_flushed => self.fails(it),
            Write::Begins(_) => Ok(()),
            Write::Keep(kept) => self.kept(it, kept),
        }
    }

    /// The disk of a machine has counted a start, or couldn't.
    fn counted(&mut self, it: &mut Machine, is_counted: bool) -> Result<(), AllocError> {
        if !is_counted && it.node.is_none() {
            return self.fails(it);
        }
        let stored = it.count(self.net.alloc, &self.net.setup, is_counted)?;
        let event = Box::new(self.net.alloc, HostEvent::Began(stored))?;
        self.tell_host(it, event)
    }

    /// The disk of a machine has this of epochs: a life that was left is over, and another one begins.
    fn kept(&mut self, it: &mut Machine, kept: Kept) -> Result<(), AllocError> {
        if it.leaving.is_some() {
            return self.begin_life(it);
        }
        let event = Box::new(self.net.alloc, HostEvent::Kept(kept))?;
        self.tell_host(it, event)
    }
}
