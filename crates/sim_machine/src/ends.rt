//! The ends of a machine's connections: what's due at them, what goes over them, and what came.

use crate::lanes::Lanes;
use crate::machine::Machine;
use crate::net::{End, Route, Signal, Stage};
use net_hello::{Hello, Known, judge};

impl Machine {
    /// Its end of the connection to another machine.
    fn end(&self, other: u8) -> Option<End> {
        self.ends.get(usize::from(other)).copied()
    }

    /// That end is so from now on.
    fn set_end(&mut self, other: u8, end: End) {
        if let Some(own) = self.ends.get_mut(usize::from(other)) {
            *own = end;
        }
    }

    /// From it to another machine, by this connection.
    fn route(&self, other: u8, connection: u64) -> Route {
        Route {
            connection,
            from: self.number,
            to: other,
        }
    }

    /// What is due at the end to another machine is done, and gives what goes over it, if anything. Of two machines the
    /// one of the greater number dials.
    pub fn tend(&mut self, other: u8, now: u64, lanes: &mut Lanes) -> Option<(Route, Signal)> {
        let mut end = self.end(other)?;
        let signal = end.tend(other < self.number, self.moment(now), lanes);
        self.set_end(other, end);
        Some((self.route(other, end.connection), signal?))
    }

    /// It sends something to another machine: over which connection, if one is open.
    pub fn sends(&mut self, other: u8, now: u64) -> Option<Route> {
        let mut end = self.end(other)?;
        if end.stage != Stage::Open {
            return None;
        }
        end.course.sent(self.moment(now));
        self.set_end(other, end);
        Some(self.route(other, end.connection))
    }

    /// It closes its connection to another machine: which one, if there is one.
    pub fn closes(&mut self, other: u8) -> Option<Route> {
        let mut end = self.end(other)?;
        if end.stage == Stage::Away {
            return None;
        }
        end.stage = Stage::Away;
        self.set_end(other, end);
        Some(self.route(other, end.connection))
    }

    /// The machine that it dialled is there: whether it says hello now.
    pub fn greets(&mut self, route: Route) -> bool {
        let Some(mut end) = self.end(route.from) else {
            return false;
        };
        let greets = end.greets(route.connection);
        self.set_end(route.from, end);
        greets
    }

    /// A hello came, which is judged by its own: whether its own is to be said now, which is where it didn't dial.
    /// `None` where that hello is of no connection that it waits for.
    pub fn meets(&mut self, own: &Hello, route: Route, hello: &Hello, now: u64) -> Option<bool> {
        let from = route.from;
        let dials = from < self.number;
        let mut end = self.end(from)?;
        if dials && !end.waits_for(route.connection) {
            return None;
        }
        let known = Known {
            store: self.disk.files.seen_of(from),
            starts: if dials { 0 } else { end.starts },
        };
        if judge(own, Some(known), hello).is_ok() {
            end.opened(route.connection, hello.starts, self.moment(now));
            self.disk.files.see(from, hello.store);
        } else if dials {
            end.failed(self.moment(now));
        }
        self.set_end(from, end);
        Some(!dials)
    }

    /// Something came over a connection: whether that is open.
    pub fn hears(&mut self, route: Route, now: u64) -> bool {
        let Some(mut end) = self.end(route.from) else {
            return false;
        };
        let is_open = end.hears(route.connection, self.moment(now));
        self.set_end(route.from, end);
        is_open
    }

    /// The other end of a connection was closed.
    pub fn hears_end(&mut self, route: Route, now: u64) {
        if let Some(mut end) = self.end(route.from) {
            end.hears_end(route.connection, self.moment(now));
            self.set_end(route.from, end);
        }
    }
}
