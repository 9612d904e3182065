//! A field that runs: one poll over all of its connections.

use crate::control::Control;
use crate::notice::{STOPPED_LINE, notice_line};
use crate::run::{Ended, FieldError};
use crate::wire::Wire;
use field_cycle::{Action, Change, Cycle, LinkFault, Moment, Who};
use field_map::FieldMap;
use field_page::OpenFieldPage;
use io_model::{CountedWrite, write_all};
use mio::net::UnixListener;
use mio::{Events, Poll, Token};
use modbus_wire::Adu;
use plc_host::{Failed, Host, ServiceRuntime};
use std::alloc::Global;
use std::net::Net;
use std::time::{Clock, Duration, Instant};

/// How many events are told at once, at most.
const EVENTS: usize = 64;

/// So many actions follow one another with no look at what else happened.
const MOST_ACTIONS: u32 = 4096;

/// So long, in milliseconds, one round of all is waited for at most, beside the time for which outputs count as known.
const ROUND: u64 = 2000;

/// In milliseconds: a page shows no older cycle, where it's not being read just then.
const SHOWN: u64 = 100;

/// A controller and its devices, with their connections.
#[derive(Drop)]
pub(crate) struct Field<R: Copy + Drop> {
    pub(crate) host: Host<R>,
    begun: Instant,
    poll: Poll,
    events: Events<Global>,
    pub(crate) cycle: Cycle,
    /// That of the controller, and then those of the devices. The places are the tokens.
    wires: Vec<Option<Wire>>,
    /// What came of one connection.
    units: Vec<Adu>,
    /// By which it's asked to stop, if it can be. Its tokens are those behind the connections.
    control: Option<Control>,
    /// Whether something was lost.
    is_lossy: bool,
}

/// The place of a connection.
fn place_of(who: Who) -> usize {
    match who {
        Who::Controller => 0,
        Who::Device(number) => number.saturating_add(1),
    }
}

/// Whose connection has this place.
fn who_at(place: usize) -> Who {
    match place {
        0 => Who::Controller,
        _ => Who::Device(place - 1),
    }
}

/// What came over a connection, and whether that is its end.
#[derive(Drop)]
struct Arrival<'a> {
    who: Who,
    now: Moment,
    is_ending: bool,
    units: &'a mut Vec<Adu>,
}

/// Reads what came over a connection, which may be open only now.
fn read(wire: &mut Wire, cycle: &mut Cycle, arrival: &mut Arrival) -> Result<(), LinkFault> {
    if wire.opens()? {
        cycle.opened(arrival.who);
    }
    wire.attend(arrival.units, arrival.is_ending)
}

/// Takes what came over a connection, if it's there.
fn attend(slot: &mut Option<Wire>, cycle: &mut Cycle, arrival: &mut Arrival) {
    let Some(wire) = slot else {
        return;
    };
    let read = read(wire, cycle, arrival);
    for unit in arrival.units.iter() {
        if !cycle.came(arrival.who, unit, arrival.now) {
            *slot = None;
            return;
        }
    }
    if let Err(fault) = read {
        cycle.failed(arrival.who, fault, arrival.now);
        *slot = None;
    }
}

impl<R: Net + Clock + Copy + Drop> Field<R> {
    /// A field with no connection yet.
    pub(crate) fn new(
        host: Host<R>,
        map: FieldMap,
        listener: Option<UnixListener>,
    ) -> Result<Field<R>, FieldError> {
        let poll = Poll::new(&host.rt).map_err(Failed::from)?;
        let first = map.devices.len().saturating_add(1);
        let control = match listener {
            Some(listener) => Some(Control::open(listener, poll.registry(), first)?),
            None => None,
        };
        let cycle = Cycle::new(host.alloc, map)?;
        let mut wires = Vec::new(host.alloc);
        for _ in 0..first {
            wires.push(None).map_err(Failed::from)?;
        }
        Ok(Field {
            host,
            begun: Instant::now(&host.rt).map_err(Failed::from)?,
            poll,
            events: Events::with_capacity(host.alloc, EVENTS)?,
            cycle,
            wires,
            units: Vec::new(host.alloc),
            control,
            is_lossy: false,
        })
    }

    /// How many milliseconds it is since it began.
    fn now(&self) -> Result<Moment, Failed> {
        let elapsed = Instant::now(&self.host.rt)?.saturating_duration_since(self.begun);
        Ok(u64::try_from(elapsed.as_millis()).unwrap_or(Moment::MAX))
    }

    /// Lets outputs fall back, tells that, and answers who asked for it.
    pub(crate) fn stop<E: CountedWrite>(&mut self, err: &mut E) -> Result<(), Failed> {
        self.cycle.stop();
        self.settle(err)?;
        // Whoever doesn't listen misses it.
        let _ = write_all(err, STOPPED_LINE.as_bytes());
        if let Some(control) = &mut self.control {
            control.answer();
        }
        Ok(())
    }

    /// Carries until each device was read and written, or is lost, or for so long.
    pub(crate) fn carry_once<E: CountedWrite>(&mut self, err: &mut E) -> Result<(), Failed> {
        let end = self.cycle.controller.fresh.saturating_add(ROUND);
        for _ in 0..u64::MAX {
            self.turn(err)?;
            if self.cycle.is_carried() || self.now()? >= end {
                return Ok(());
            }
        }
        Ok(())
    }

    /// Goes on until each device had its round, or is lost.
    pub(crate) fn settle<E: CountedWrite>(&mut self, err: &mut E) -> Result<(), Failed> {
        for _ in 0..u64::MAX {
            self.turn(err)?;
            if self.cycle.is_settled() {
                return Ok(());
            }
        }
        Ok(())
    }

    /// How it ended so far.
    pub(crate) fn ended(&self) -> Ended {
        if self.is_lossy {
            Ended::Lossy
        } else {
            Ended::Whole
        }
    }

    /// Does what is due, waits until something happens or is due, and takes what came. Changes are told to `err`.
    /// Whether it's asked to stop.
    pub(crate) fn turn<E: CountedWrite>(&mut self, err: &mut E) -> Result<bool, Failed> {
        let now = self.now()?;
        self.act(now, err)?;
        let wait = self.cycle.until().saturating_sub(self.now()?);
        // Where it fails it gives no event.
        let _ = self
            .poll
            .poll(&mut self.events, Some(Duration::from_millis(wait)));
        let now = self.now()?;
        let mut is_called = false;
        for event in self.events.iter() {
            let Token(place) = event.token();
            is_called = is_called || place >= self.wires.len();
            self.units.clear();
            let mut arrival = Arrival {
                who: who_at(place),
                now,
                is_ending: event.is_read_closed() || event.is_error(),
                units: &mut self.units,
            };
            if let Some(slot) = self.wires.get_mut(place) {
                attend(slot, &mut self.cycle, &mut arrival);
            }
        }
        Ok(is_called && self.is_asked())
    }

    /// Whether it's asked to stop.
    fn is_asked(&mut self) -> bool {
        match &mut self.control {
            Some(control) => {
                control.accept(self.poll.registry());
                control.is_asked()
            }
            None => false,
        }
    }

    /// Does what is due now.
    fn act<E: CountedWrite>(&mut self, now: Moment, err: &mut E) -> Result<(), Failed> {
        for _ in 0..MOST_ACTIONS {
            match self.cycle.act(now) {
                Some(Action::Tell(who, change)) => self.tell(who, change, err)?,
                Some(action) => self.perform(action, now),
                None => return Ok(()),
            }
        }
        Ok(())
    }

    fn tell<E: CountedWrite>(
        &mut self,
        who: Who,
        change: Change,
        err: &mut E,
    ) -> Result<(), Failed> {
        if matches!(change, Change::Lost(_)) {
            self.is_lossy = true;
        }
        let line = notice_line(self.host.alloc, &self.cycle, who, change)?;
        // Whoever doesn't listen misses it.
        let _ = write_all(err, line.as_str().as_bytes());
        Ok(())
    }

    /// Makes a connection, closes it, or sends over it.
    fn perform(&mut self, action: Action, now: Moment) {
        match action {
            Action::Connect(who, address) => {
                let token = Token(place_of(who));
                let registry = self.poll.registry();
                match Wire::connect(&self.host.rt, self.host.alloc, registry, token, address) {
                    Ok(wire) => self.keep(who, Some(wire)),
                    Err(_) => self.cycle.failed(who, LinkFault::Closed, now),
                }
            }
            Action::Send(who, unit) => self.send(who, &unit, now),
            Action::Close(who) => self.keep(who, None),
            Action::Tell(_, _) => {}
        }
    }

    /// From now on this is the connection; the one before is closed.
    fn keep(&mut self, who: Who, wire: Option<Wire>) {
        if let Some(slot) = self.wires.get_mut(place_of(who)) {
            *slot = wire;
        }
    }

    fn send(&mut self, who: Who, unit: &Adu, now: Moment) {
        let sent = match self.wires.get_mut(place_of(who)) {
            Some(Some(wire)) => wire.send(unit),
            _ => Err(LinkFault::Closed),
        };
        if let Err(fault) = sent {
            self.cycle.failed(who, fault, now);
            self.keep(who, None);
        }
    }
}

impl<R: ServiceRuntime + Net> Field<R> {
    /// Shows what its cycle has now, if that is due. When it's due next. Where the clock fails nothing is shown.
    pub(crate) fn show(&self, page: &OpenFieldPage<R>, due: Moment) -> Moment {
        match self.now() {
            Ok(now) if now >= due => {
                page.show(&self.host, &self.cycle);
                now.saturating_add(SHOWN)
            }
            _ => due,
        }
    }
}
