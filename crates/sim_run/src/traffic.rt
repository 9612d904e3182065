//! What goes out of a machine over its connections, and what comes to it.

use crate::happening::{Event, Task};
use crate::net::Net;
use net_hello::Hello;
use node_core::HostEvent;
use sim_machine::{Machine, Owner, Route, Segment, Signal, Wire};
use std::alloc::AllocError;
use vr_model::{Message, Party};

/// In microseconds: so long it takes from a party to another one of the same machine.
const NEAR: u64 = 20;

impl Net {
    /// Tends the connections of a machine.
    pub(crate) fn tend(&mut self, it: &mut Machine) -> Result<(), AllocError> {
        for other in 0..self.setup.size() {
            if other != it.number {
                if let Some((route, signal)) = it.tend(other, self.now, &mut self.lanes) {
                    self.transmit(route, Wire::Signal(signal))?;
                }
            }
        }
        Ok(())
    }

    /// All connections of a machine are closed.
    pub(crate) fn hang_up(&mut self, it: &mut Machine) -> Result<(), AllocError> {
        for other in 0..self.setup.size() {
            if let Some(route) = it.closes(other) {
                self.transmit(route, Wire::Signal(Signal::Fin))?;
            }
        }
        Ok(())
    }

    /// A message goes to another machine, over the connection that is open.
    pub(crate) fn send(
        &mut self,
        it: &mut Machine,
        to: u8,
        message: Box<Message>,
    ) -> Result<(), AllocError> {
        match it.sends(to, self.now) {
            Some(route) => self.transmit(route, Wire::Data(message)),
            None => Ok(()),
        }
    }

    /// A message goes to the replica of this life's machine.
    pub(crate) fn send_to_host(
        &mut self,
        owner: Owner,
        message: Box<Message>,
    ) -> Result<(), AllocError> {
        let at = self.after(NEAR);
        self.hand(at, owner, HostEvent::Message(message))
    }

    /// A message goes to the driver of this life's machine.
    pub(crate) fn send_to_driver(
        &mut self,
        owner: Owner,
        message: Box<Message>,
    ) -> Result<(), AllocError> {
        let at = self.after(NEAR);
        self.give(at, owner, Task::Driver(message))
    }

    /// A segment comes to a machine.
    pub(crate) fn arrive(
        &mut self,
        it: &mut Machine,
        segment: Box<Segment>,
    ) -> Result<(), AllocError> {
        if !it.is_up {
            return Ok(());
        }
        if let Some(until) = it.paused(self.now) {
            return self.put(until, it.number, Event::Arrives(segment));
        }
        if it.host.is_none() {
            return Ok(());
        }
        let Segment { route, wire } = Box::into_inner(segment);
        self.take(it, route, wire)
    }

    /// A machine takes what came.
    fn take(&mut self, it: &mut Machine, route: Route, wire: Wire) -> Result<(), AllocError> {
        match wire {
            Wire::Signal(signal) => self.take_signal(it, route, signal),
            Wire::Hello(hello) => self.hear_hello(it, route, &hello),
            Wire::Data(message) => {
                if !it.hears(route, self.now) {
                    return Ok(());
                }
                self.hand(self.now, it.owner(), HostEvent::Message(message))
            }
            Wire::Visit { epoch, word } => {
                let from = route.from;
                self.hand(self.now, it.owner(), HostEvent::Visit { from, epoch, word })
            }
            Wire::Console(message) => {
                self.hand(self.now, it.owner(), HostEvent::Message(message))
            }
        }
    }

    /// A machine takes a segment that has nothing in it.
    fn take_signal(
        &mut self,
        it: &mut Machine,
        route: Route,
        signal: Signal,
    ) -> Result<(), AllocError> {
        match signal {
            Signal::Syn => self.transmit(route.back(), Wire::Signal(Signal::SynAck)),
            Signal::SynAck => self.greet(it, route),
            Signal::Beat => {
                let _ = it.hears(route, self.now);
                Ok(())
            }
            Signal::Fin => {
                it.hears_end(route, self.now);
                Ok(())
            }
        }
    }

    /// Who dialled says hello, where its connection stands.
    fn greet(&mut self, it: &mut Machine, route: Route) -> Result<(), AllocError> {
        let Some(own) = it.hello_to(route.from, &self.setup) else {
            return Ok(());
        };
        if !it.greets(route) {
            return Ok(());
        }
        self.transmit(route.back(), Wire::Hello(own))
    }

    /// A hello came: it's judged, answered where its end dialled, and heard by the replica's thread, accepted or not.
    fn hear_hello(
        &mut self,
        it: &mut Machine,
        route: Route,
        hello: &Hello,
    ) -> Result<(), AllocError> {
        let Some(own) = it.hello_to(route.from, &self.setup) else {
            return Ok(());
        };
        let Some(is_answered) = it.meets(&own, route, hello, self.now) else {
            return Ok(());
        };
        if is_answered {
            self.transmit(route.back(), Wire::Hello(own))?;
        }
        let (from, epoch) = (route.from, hello.epoch);
        self.hand(self.now, it.owner(), HostEvent::Hello { from, epoch })
    }
}
