//! What comes to the replica's thread of a machine, and what that does.

use crate::happening::{Save, Task};
use crate::net::Visit;
use crate::site::Site;
use net_peers::FIRST_CONSOLE;
use node_core::{HostDeed, HostEvent};
use plc_epochs::Kept;
use sim_checker::What;
use sim_machine::{FIRST_PAUSE, Machine, Owner, Route, Write};
use std::alloc::AllocError;
use vr_model::{Message, Party};

/// Whether this comes from a party of the machine itself.
fn is_near(event: &HostEvent, machine: u8) -> bool {
    let HostEvent::Message(message) = event else {
        return false;
    };
    match message.from {
        Party::Replica(number) => number == machine,
        Party::Client(client) => client.number == machine,
    }
}

impl Site {
    /// Time passes for the replica's thread of a machine.
    pub(crate) fn tick(&mut self, it: &mut Machine) -> Result<(), AllocError> {
        if it.busy_until > self.net.now {
            return Ok(());
        }
        let (near, reached) = it.neighbours(self.net.now);
        let event = Box::new(self.net.alloc, HostEvent::Tick { near, reached })?;
        self.tell_host(it, event)
    }

    /// Something comes to the replica's thread of a machine, in this life.
    pub(crate) fn host(
        &mut self,
        it: &mut Machine,
        owner: Owner,
        event: Box<HostEvent>,
    ) -> Result<(), AllocError> {
        if !it.is_life(owner) {
            return Ok(());
        }
        let Some(until) = it.occupied(self.net.now) else {
            return self.tell_host(it, event);
        };
        // What its own machine's parties sent is read first, all of it.
        let at = if is_near(&event, owner.machine) {
            until
        } else {
            until.saturating_add(1)
        };
        self.net.give(at, owner, Task::Host(event))
    }

    /// Something comes to the replica's thread of a machine: what it's to do is done, behind the save of a view.
    pub(crate) fn tell_host(
        &mut self,
        it: &mut Machine,
        event: Box<HostEvent>,
    ) -> Result<(), AllocError> {
        if it.host.is_none() {
            return Ok(());
        }
        let deeds = it.step(self.net.alloc, self.net.now, event)?;
        self.look(it)?;
        if !it.disk.is_saving() {
            return self.show(it, deeds);
        }
        let pause = FIRST_PAUSE;
        let save = Save { deeds, pause };
        self.net.give(it.busy_until, it.owner(), Task::Saved(save))
    }

    /// Looks at what a machine's replica has executed.
    fn look(&mut self, it: &Machine) -> Result<(), AllocError> {
        let Some(host) = &it.host else {
            return Ok(());
        };
        if let (Some(replica), Some(epoch)) = (host.replica(), host.epoch()) {
            self.checker.look(it.number, &epoch, replica)?;
        }
        Ok(())
    }

    /// A view is to be saved by now, in this life: a replica's thread goes on, or tries that again after a pause.
    pub(crate) fn saved(
        &mut self,
        it: &mut Machine,
        owner: Owner,
        save: Save,
    ) -> Result<(), AllocError> {
        if !it.is_life(owner) {
            return Ok(());
        }
        if let Some(until) = it.paused(self.net.now) {
            return self.net.give(until, owner, Task::Saved(save));
        }
        if it.disk.settle() {
            return self.show(it, save.deeds);
        }
        it.busy_until = self.net.after(save.pause);
        let save = Save {
            deeds: save.deeds,
            pause: save.pause.saturating_mul(2),
        };
        self.net.give(it.busy_until, owner, Task::Saved(save))
    }

    /// The replica's thread of a machine publishes what it shows, and does what it's to do, in order.
    pub(crate) fn show(
        &mut self,
        it: &mut Machine,
        deeds: Vec<HostDeed>,
    ) -> Result<(), AllocError> {
        if let Some(standing) = it.publish() {
            self.journal
                .tell_standing(self.net.now, it.number, standing);
        }
        for deed in deeds {
            self.carry_out(it, deed)?;
        }
        Ok(())
    }

    /// Does this.
    fn carry_out(&mut self, it: &mut Machine, deed: HostDeed) -> Result<(), AllocError> {
        match deed {
            HostDeed::Send(message) => self.send(it, message),
            HostDeed::Say {
                to,
                epoch,
                word,
                within,
            } => {
                let route = Route::apart(it.number, to);
                self.net.visit(route, Visit { epoch, word }, within)
            }
            HostDeed::Begin => self.net.ask_disk(it, Write::Start),
            HostDeed::EndBegins => {
                it.disk.files.begins = None;
                Ok(())
            }
            HostDeed::Keep(kept) => self.net.keep(it, kept),
            HostDeed::Leave(kept) => self.leave(it, kept),
        }
    }

    /// A message of a machine's replica goes out.
    fn send(&mut self, it: &mut Machine, message: Box<Message>) -> Result<(), AllocError> {
        match message.to {
            Party::Replica(to) if to != it.number => self.net.send(it, to, message),
            Party::Replica(_) => self.net.send_to_host(it.owner(), message),
            Party::Client(client) if client.number == it.number => {
                self.net.send_to_driver(it.owner(), message)
            }
            Party::Client(client) => {
                if client.number == FIRST_CONSOLE {
                    let _ = self.operator.on_reply(&message);
                }
                drop(message);
                Ok(())
            }
        }
    }

    /// The life of a machine is to end.
    fn leave(&mut self, it: &mut Machine, kept: Kept) -> Result<(), AllocError> {
        self.journal.add(2, u64::from(it.number), self.net.now);
        self.tell(it.number, What::Leaves, 0);
        let mut deeds = Vec::new(self.net.alloc);
        it.leave(kept, self.net.now, &mut deeds)?;
        self.do_all(it, deeds)
    }
}
