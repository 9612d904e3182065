//! How the thread of a replica serves it.

ghost use Rattle.std.specs.Prelude.{◌≡◌, false};
ghost use Rattle.plc_host_core.specs.Reaching.{lets_through};

use crate::host::{Host, HostDeed, HostSetup, Phase};
use crate::joints::{down, has_recovered, is_among, is_past, millis};
use plc_epochs::Moment;
use plc_host_core::EpochAction;
use std::alloc::{AllocError, Global};
use std::time::Duration;
use vr_model::{Event, Message, Sends, Stored};
use vr_ports::Tick;
use vr_replica::{Replica, StepFault, ViewStore};

/// In milliseconds: so often it looks at its epoch.
const POLL: Moment = 50;

/// So many nonces belong to each start that its store counts.
const NONCES: u64 = 1 << 32;

/// This is to be sent.
fn send(alloc: Global, message: Message, deeds: &mut Vec<HostDeed>) -> Result<(), AllocError> {
    let message = Box::new(alloc, message)?;
    deeds.push(HostDeed::Send(message))?;
    Ok(())
}

/// These are to be sent, in order.
fn send_all(alloc: Global, sends: Sends, deeds: &mut Vec<HostDeed>) -> Result<(), AllocError> {
    for message in sends {
        send(alloc, message, deeds)?;
    }
    Ok(())
}

/// The replica of a start that a store counted: the first one is normal, each other one comes up by a restart.
fn made_by(alloc: Global, setup: &HostSetup, starts: u64) -> Result<Box<Replica>, AllocError> {
    let image = setup.image.copy(alloc)?;
    let replica = if starts == 1 {
        Replica::new(alloc, setup.config, setup.number, image, setup.budget)
    } else {
        Replica::down(alloc, setup.config, setup.number, image, setup.budget)
    };
    Ok(Box::new(alloc, replica?)?)
}

impl Host {
    /// One step of the replica: what it sends stands behind all that it shows.
    fn act<S: ViewStore>(
        &mut self,
        alloc: Global,
        now: Duration,
        event: Event,
        store: &mut S,
        deeds: &mut Vec<HostDeed>,
    ) -> Result<(), AllocError> {
        let Some(replica) = &mut self.replica else {
            drop(event);
            return Ok(());
        };
        let stepped = replica.step(alloc, event, store);
        self.watch.look(alloc, replica, now);
        let standing = replica.standing();
        self.timer.stand(standing);
        if self.keeper.cold_start().recovers() && has_recovered(standing) {
            self.keeper.recovered();
        }
        match stepped {
            Ok(sends) => send_all(alloc, sends, deeds),
            Err(StepFault::Store) => {
                self.has_failed = true;
                Ok(())
            }
            Err(StepFault::Memory) => Err(AllocError),
            Err(StepFault::Down) => Ok(()),
        }
    }

    /// A message came.
    pub(crate) fn take<S: ViewStore>(
        &mut self,
        alloc: Global,
        now: Duration,
        message: Box<Message>,
        store: &mut S,
        deeds: &mut Vec<HostDeed>,
    ) -> Result<(), AllocError>
        ensures frozen { lets_through self.old.keeper.cold_start.phase message.value ≡ false
            → (self.new ≡ self.old) × (deeds.new.items ≡ deeds.old.items) }
    {
        if self.phase != Phase::Serving || !self.keeper.lets_through(&message) {
            drop(message);
            return Ok(());
        }
        self.keeper.note_recovery(&message, millis(now));
        self.timer.hear(&message);
        let event = Event::Message(Box::into_inner(message));
        self.act(alloc, now, event, store, deeds)
    }

    /// Time has passed, and these are near, by bits.
    pub(crate) fn tick<S: ViewStore>(
        &mut self,
        alloc: Global,
        now: Duration,
        near: u8,
        store: &mut S,
        deeds: &mut Vec<HostDeed>,
    ) -> Result<(), AllocError> {
        if self.phase == Phase::Serving {
            match self.timer.tick(now, near, self.reached) {
                Tick::Timeout => self.act(alloc, now, Event::Timeout, store, deeds)?,
                Tick::Resend => self.act(alloc, now, Event::Resend, store, deeds)?,
                Tick::None => {}
            }
        }
        let moment = millis(now);
        if !is_past(self.looked, moment, POLL) {
            return Ok(());
        }
        self.looked = Some(moment);
        match self.phase {
            Phase::Waiting => self.look_waiting(moment, deeds),
            Phase::Serving => {
                self.note_signs(near, moment);
                self.look(alloc, now, store, deeds)
            }
            Phase::Counting | Phase::Left => Ok(()),
        }
    }

    /// Notes which machines are near, over connections of this epoch.
    fn note_signs(&mut self, near: u8, moment: Moment) {
        let Some(epoch) = self.keeper.cold_start().speaks_in() else {
            return;
        };
        for other in 0..self.setup.config.group_size() {
            if is_among(near, other) {
                let _ = self.keeper.hear_sign(other, &epoch, moment);
            }
        }
    }

    /// Looks at its epoch, where its replica recovers.
    fn look<S: ViewStore>(
        &mut self,
        alloc: Global,
        now: Duration,
        store: &mut S,
        deeds: &mut Vec<HostDeed>,
    ) -> Result<(), AllocError> {
        let moment = millis(now);
        if !self.keeper.cold_start().recovers() || self.has_failed {
            return Ok(());
        }
        let EpochAction::Thaws(nonce) = self.keeper.look(moment) else {
            return self.ask(moment, deeds);
        };
        if let Some(replica) = &mut self.replica {
            replica.crash(alloc);
        }
        self.timer.stand(down());
        self.act(alloc, now, Event::Restart(nonce), store, deeds)
    }

    /// The store has counted a start, or couldn't.
    pub(crate) fn began<S: ViewStore>(
        &mut self,
        alloc: Global,
        now: Duration,
        stored: Option<Stored>,
        store: &mut S,
        deeds: &mut Vec<HostDeed>,
    ) -> Result<(), AllocError> {
        let Some(stored) = stored else {
            self.has_failed = true;
            return Ok(());
        };
        let replica = made_by(alloc, &self.setup, stored.starts)?;
        self.timer.stand(replica.standing());
        self.replica = Some(replica);
        self.phase = Phase::Serving;
        if self.has_begins {
            self.has_begins = false;
            deeds.push(HostDeed::EndBegins)?;
        }
        if stored.starts == 1 {
            return Ok(());
        }
        let nonce = stored.starts.saturating_mul(NONCES);
        self.act(alloc, now, Event::Restart(nonce), store, deeds)
    }
}
