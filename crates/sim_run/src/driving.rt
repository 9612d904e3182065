//! Turns of machines, and what their drivers do.

use crate::happening::{Event, Task};
use crate::site::Site;
use io_image::Release;
use node_core::{Ended, NodeDeed};
use sim_checker::What;
use sim_machine::{Leaving, Machine, Owner, WRITE};
use std::alloc::AllocError;
use std::time::Duration;
use vr_model::{Message, Party, Sends};

impl Site {
    /// Something happens at a machine.
    pub(crate) fn happen(&mut self, it: &mut Machine, event: Event) -> Result<(), AllocError> {
        match event {
            Event::Arrives(segment) => self.net.arrive(it, segment),
            Event::Boots => self.boot(it),
            Event::HasRoom => {
                it.disk.is_full = false;
                Ok(())
            }
            Event::IsQuick => {
                it.disk.latency = WRITE;
                Ok(())
            }
            Event::Has(owner, task) => self.perform(it, owner, task),
        }
    }

    /// A process of a machine does this, unless it's over.
    fn perform(&mut self, it: &mut Machine, owner: Owner, task: Task) -> Result<(), AllocError> {
        if !it.is_process(owner) {
            drop(task);
            return Ok(());
        }
        match task {
            Task::Turn => self.turn(it, owner),
            Task::Flush => self.flush(it),
            Task::Host(event) => self.host(it, owner, event),
            Task::Saved(save) => self.saved(it, owner, save),
            Task::Driver(message) => self.driver(it, owner, message),
        }
    }

    /// A machine has a turn.
    fn turn(&mut self, it: &mut Machine, owner: Owner) -> Result<(), AllocError> {
        if let Some(until) = it.paused(self.net.now) {
            return self.net.give(until, owner, Task::Turn);
        }
        self.end_life(it)?;
        if it.host.is_some() {
            self.net.tend(it)?;
        }
        self.tick(it)?;
        let next = self.drive(it)?;
        self.net.give(next, owner, Task::Turn)
    }

    /// The driver of a machine has a turn: when the next turn of the machine is.
    fn drive(&mut self, it: &mut Machine) -> Result<u64, AllocError> {
        let mut deeds = Vec::new(self.net.alloc);
        let next = it.drive(self.net.alloc, self.net.now, &mut deeds)?;
        self.do_all(it, deeds)?;
        Ok(next)
    }

    /// Something comes to the driver of a machine, in this life.
    fn driver(
        &mut self,
        it: &mut Machine,
        owner: Owner,
        message: Box<Message>,
    ) -> Result<(), AllocError> {
        if !it.is_life(owner) {
            return Ok(());
        }
        if let Some(until) = it.paused(self.net.now) {
            return self.net.give(until, owner, Task::Driver(message));
        }
        let mut deeds = Vec::new(self.net.alloc);
        it.reply(self.net.alloc, self.net.now, &message, &mut deeds)?;
        self.do_all(it, deeds)
    }

    /// Does what the driver of a machine is to do, in order.
    pub(crate) fn do_all(
        &mut self,
        it: &mut Machine,
        deeds: Vec<NodeDeed>,
    ) -> Result<(), AllocError> {
        for deed in deeds {
            self.do_one(it, deed)?;
        }
        Ok(())
    }

    /// Does this.
    fn do_one(&mut self, it: &mut Machine, deed: NodeDeed) -> Result<(), AllocError> {
        match deed {
            NodeDeed::Send(sends) => self.submit(it, sends),
            NodeDeed::Publish(release, submitted) => self.publish(it, &release, submitted),
            NodeDeed::Open(view) => {
                self.journal.add(3, view, self.net.now);
                self.tell(it.number, What::Opens, view);
                Ok(())
            }
            NodeDeed::Close => {
                self.journal.add(4, u64::from(it.number), self.net.now);
                self.tell(it.number, What::Closes, 0);
                Ok(())
            }
            NodeDeed::End(ended) => self.end_driver(it, ended),
        }
    }

    /// The driver of a machine has ended.
    fn end_driver(&mut self, it: &mut Machine, ended: Ended) -> Result<(), AllocError> {
        match ended {
            Ended::Stopped => self.kill(it, true),
            Ended::Failed => self.fails(it),
            Ended::Leaves(kept) => {
                it.leaving = Some(Leaving {
                    kept,
                    since: self.net.now,
                });
                Ok(())
            }
        }
    }

    /// A driver submits this: it's connected with its machine's own replica alone.
    fn submit(&mut self, it: &Machine, sends: Sends) -> Result<(), AllocError> {
        for message in sends {
            if message.to == Party::Replica(it.number) {
                self.submit_one(it, message)?;
            } else {
                drop(message);
            }
        }
        Ok(())
    }

    /// A driver submits this to its machine's own replica.
    fn submit_one(&mut self, it: &Machine, message: Message) -> Result<(), AllocError> {
        let message = Box::new(self.net.alloc, message)?;
        if let Some(epoch) = it.epoch() {
            self.checker.submitted(&epoch, &message, self.net.now)?;
        }
        self.net.send_to_host(it.owner(), message)
    }

    /// A machine releases this, of a scan that it submitted then.
    fn publish(
        &mut self,
        it: &mut Machine,
        release: &Release,
        submitted: Duration,
    ) -> Result<(), AllocError> {
        let Some(epoch) = it.epoch() else {
            return Ok(());
        };
        let point = self.checker.released(&epoch, it.number, release)?;
        it.release(point, submitted, self.net.now);
        self.tally.release(self.net.now);
        self.journal.add(1, release.number, self.net.now);
        Ok(())
    }
}
