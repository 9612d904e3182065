//! What is under way between machines, and when it happens: one thing at a time, in an order that the seed gives.

use crate::happening::{Event, Happening, Task};
use net_hello::Epoch;
use node_core::HostEvent;
use plc_epochs::Word;
use sim_machine::{Lanes, Owner, Route, Segment, Setup, Signal, Wire};
use sim_time::{Agenda, Draws, MS};
use std::alloc::{AllocError, Global};
use vr_model::{Message, Party};

/// So much later comes what was lost and is sent again.
const AGAIN: u64 = 200 * MS;

/// What a machine says to another one in its epoch.
#[derive(Clone, Copy)]
pub(crate) struct Visit {
    pub(crate) epoch: Epoch,
    pub(crate) word: Word,
}

/// What is under way between machines.
#[derive(Drop)]
pub(crate) struct Net {
    pub(crate) alloc: Global,
    pub(crate) setup: Setup,
    pub(crate) now: u64,
    pub(crate) draws: Draws,
    pub(crate) agenda: Agenda<Happening>,
    pub(crate) lanes: Lanes,
    /// So much longer each segment takes, and so much longer at most.
    pub(crate) slower: u64,
    pub(crate) spread: u64,
}

impl Net {
    /// Nothing is under way.
    pub(crate) fn new(alloc: Global, setup: Setup) -> Net {
        Net {
            alloc,
            setup,
            now: 0,
            draws: Draws::new(setup.seed),
            agenda: Agenda::new(alloc),
            lanes: Lanes::new(alloc),
            slower: 0,
            spread: 0,
        }
    }

    /// What happens next, which is now.
    pub(crate) fn next(&mut self) -> Option<Happening> {
        let ((time, _), what) = self.agenda.take()?;
        self.now = time;
        Some(what)
    }

    /// A time that much later than now.
    pub(crate) fn after(&self, time: u64) -> u64 {
        self.now.saturating_add(time)
    }

    /// A time later than now by something between these.
    pub(crate) fn later(&mut self, least: u64, most: u64) -> u64 {
        let time = self.draws.between(least, most);
        self.after(time)
    }

    /// One of the machines.
    pub(crate) fn any(&mut self) -> u8 {
        self.draws.machine(self.setup.size())
    }

    /// This happens at a machine then.
    pub(crate) fn put(&mut self, at: u64, machine: u8, event: Event) -> Result<(), AllocError> {
        self.agenda.put(at, Happening::At(machine, event))
    }

    /// This process, or this life of it, has this to do then.
    pub(crate) fn give(&mut self, at: u64, owner: Owner, task: Task) -> Result<(), AllocError> {
        self.put(at, owner.machine, Event::Has(owner, task))
    }

    /// Something comes to the replica's thread of this life then.
    pub(crate) fn hand(
        &mut self,
        at: u64,
        owner: Owner,
        event: HostEvent,
    ) -> Result<(), AllocError> {
        let event = Box::new(self.alloc, event)?;
        self.give(at, owner, Task::Host(event))
    }

    /// How long a segment takes.
    fn delay(&mut self) -> u64 {
        let most = self
            .setup
            .jitter
            .saturating_add(self.spread)
            .saturating_add(1);
        let least = self.setup.latency.saturating_add(self.slower);
        least.saturating_add(self.draws.below(most))
    }

    /// The same of a segment of a connection: one that is lost is sent again.
    fn delay_or_loss(&mut self) -> u64 {
        let delay = self.delay();
        if self.draws.comes(self.lanes.loss) {
            delay.saturating_add(AGAIN)
        } else {
            delay
        }
    }

    /// A segment of a connection goes out: behind those before it on its way. Where that is blocked it's held.
    pub(crate) fn transmit(&mut self, route: Route, wire: Wire) -> Result<(), AllocError> {
        let delay = self.delay_or_loss();
        let segment = Box::new(self.alloc, Segment { route, wire })?;
        if self.lanes.is_blocked(route.from, route.to) {
            return self.hold(segment);
        }
        let at = self.after(delay);
        let arrives = self.lanes.arrives(route.from, route.to, at);
        self.put(arrives, route.to, Event::Arrives(segment))
    }

    /// A segment is held until its way is free, but for the first one of a connection, which is lost.
    fn hold(&mut self, segment: Box<Segment>) -> Result<(), AllocError> {
        if let Wire::Signal(Signal::Syn) = segment.wire {
            return Ok(());
        }
        self.lanes.held.push(segment)?;
        Ok(())
    }

    /// A segment comes then, apart from connections.
    fn post(&mut self, at: u64, route: Route, wire: Wire) -> Result<(), AllocError> {
        let segment = Box::new(self.alloc, Segment { route, wire })?;
        self.put(at, route.to, Event::Arrives(segment))
    }

    /// A visit goes out, over a connection of its own that is dialled within so many milliseconds, or not at all.
    pub(crate) fn visit(
        &mut self,
        route: Route,
        visit: Visit,
        within: u64,
    ) -> Result<(), AllocError> {
        let there = self.delay();
        let trip = there.saturating_add(self.delay());
        if self.lanes.is_cut(route.from, route.to) || trip > within.saturating_mul(MS) {
            return Ok(());
        }
        let at = self.after(trip.saturating_add(there));
        let (epoch, word) = (visit.epoch, visit.word);
        self.post(at, route, Wire::Visit { epoch, word })
    }

    /// What an operator asks of a replica goes out from this machine, apart from connections.
    pub(crate) fn ask(&mut self, from: u8, message: Message) -> Result<(), AllocError> {
        let party = message.to;
        let message = Box::new(self.alloc, message)?;
        let Party::Replica(to) = party else {
            return Ok(());
        };
        if self.lanes.is_blocked(from, to) {
            return Ok(());
        }
        let delay = self.delay();
        let at = self.after(delay);
        self.post(at, Route::apart(from, to), Wire::Console(message))
    }

    /// What was held goes on, where its way is free.
    pub(crate) fn release(&mut self) -> Result<(), AllocError> {
        for segment in self.lanes.take_held(self.alloc) {
            self.let_go(segment)?;
        }
        Ok(())
    }

    /// A segment that was held goes on within a while, or is held again.
    fn let_go(&mut self, segment: Box<Segment>) -> Result<(), AllocError> {
        let (from, to) = (segment.route.from, segment.route.to);
        if self.lanes.is_blocked(from, to) {
            return self.hold(segment);
        }
        let wait = self.draws.below(200 * MS);
        let at = self.after(wait);
        let arrives = self.lanes.arrives(from, to, at);
        self.put(arrives, to, Event::Arrives(segment))
    }
}
