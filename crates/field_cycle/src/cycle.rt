//! The cycle of a field: what is due, and what is done with what comes.

ghost use Rattle.std.specs.Prelude.{◌≡◌, false};
ghost use Rattle.std.specs.List.{list_all};
ghost use Rattle.field_cycle.specs.Stations.{begins, has_outputs, is_passed, outputs_for, taken_outputs};
ghost use Rattle.field_cycle.specs.Stations.{HasSameOutputs, HasOldOutputs};

use crate::controller::{Controller, Rhythm};
use crate::link::{LinkFault, Moment};
use crate::notices::Change;
use crate::passage::Showing;
use crate::signs::Signs;
use crate::station::Station;
use field_map::FieldMap;
use modbus_wire::{Adu, Request};
use std::alloc::{AllocError, Global};
use std::net::SocketAddr;

/// One that there is a connection to.
#[derive(Clone, Copy)]
pub enum Who {
    Controller,
    /// The device with this number, counted from 0.
    Device(usize),
}

/// What is to be done.
#[derive(Drop)]
pub enum Action {
    /// A connection is to be made. It's told by `opened`, or by `failed`.
    Connect(Who, SocketAddr),
    /// A unit is to be sent.
    Send(Who, Adu),
    /// The connection is to be closed.
    Close(Who),
    /// Something changed.
    Tell(Who, Change),
}

/// A controller and its devices.
#[derive(Drop)]
pub struct Cycle {
    pub controller: Controller,
    pub stations: Vec<Station>,
    /// What the field says of itself.
    signs: Signs,
    /// So many cycles began.
    pub cycles: u64,
    /// From cycle to cycle.
    period: u64,
    /// When the next cycle begins.
    next: Moment,
    /// Whether rounds wait for the outputs of this cycle.
    waits: bool,
    /// Whether no cycle begins any more, and the outputs don't count as known.
    is_ending: bool,
}

/// Begins the round of a device, if it's due and can be asked: with the outputs, while the controller is fresh.
fn begin_round(station: &mut Station, controller: &Controller, now: Moment, is_ending: bool)
    ensures round { station.new.round ≡ begins station.old (outputs_for controller.now now is_ending) now }
    ensures has { station.new.has_outputs ≡ has_outputs station.old (outputs_for controller.now now is_ending) }
{
    if is_ending {
        station.begin(None, now);
    } else {
        station.begin(controller.outputs(now), now);
    }
}

/// The next request that hands something over.
fn next_hand(stations: &mut Vec<Station>) -> Option<Request> {
    for station in stations.iter_mut() {
        // Most have none, and to take an empty place costs as much as a request.
        if !station.hands.is_empty() {
            return station.hands.take();
        }
    }
    None
}

/// Whether a scan that had its inputs was released of each device, or it's lost.
fn are_passed(stations: &[Station]) -> bool
    ensures { result ≡ list_all is_passed stations.now }
{
    stations.iter().all(|s| s.is_passed())
}

/// The controller showed all of its outputs now: they are taken once a scan that had the inputs of each device was
/// released since there is a connection to it.
fn take_shown(controller: &mut Controller, stations: &[Station], now: Moment)
    ensures outputs { controller.new.outputs ≡ taken_outputs controller.old (list_all is_passed stations.now) }
    ensures unreleased { controller.new.is_released ≡ false → HasOldOutputs controller.old controller.new }
{
    let is_passed = are_passed(stations);
    controller.take(now, is_passed);
}

/// The inputs of each device went on, as far as the controller showed it.
fn step(stations: &mut Vec<Station>, showing: Showing) {
    for station in stations.iter_mut() {
        station.step(showing);
    }
}

/// The outputs that count are those that the controller showed now, or they aren't: each device may be written them, once
/// a scan that had its inputs was released.
fn admit(stations: &mut Vec<Station>, is_released: bool) {
    if !is_released {
        return;
    }
    for station in stations.iter_mut() {
        station.admit();
    }
}

/// The controller is told that inputs are real, where they are.
fn tell_ready(signs: &mut Signs, is_ready: bool) {
    if is_ready {
        signs.mark(true);
    }
}

impl Cycle {
    /// The cycle of a field. It begins at once.
    pub fn new(alloc: Global, map: FieldMap) -> Result<Cycle, AllocError> {
        let rhythm = Rhythm {
            timeout: u64::from(map.controller_timeout),
            fresh: u64::from(map.fresh),
            scan: u64::from(map.scan),
            scan_count: map.scan_count,
        };
        let FieldMap {
            controllers,
            cycle,
            beat,
            ready,
            devices,
            ..
        } = map;
        let mut stations = Vec::new(alloc);
        for device in devices {
            stations.push(Station::new(device))?;
        }
        Ok(Cycle {
            controller: Controller::new(controllers, rhythm),
            stations,
            signs: Signs::new(beat, ready),
            cycles: 0,
            period: u64::from(cycle),
            next: 0,
            waits: false,
            is_ending: false,
        })
    }

    /// Begins a cycle where one is due: the outputs are to be taken, and each device is to have a round.
    fn tick(&mut self, now: Moment)
        ensures { HasSameOutputs self.old.controller self.new.controller }
    {
        if now < self.next {
            return;
        }
        let next = self.next.saturating_add(self.period);
        self.next = if next > now {
            next
        } else {
            now.saturating_add(self.period)
        };
        self.waits = !self.waits && self.controller.link.is_up();
        self.controller.is_due = true;
        self.cycles = self.cycles.saturating_add(1);
        self.signs.beat();
        for station in self.stations.iter_mut() {
            station.tick();
        }
    }

    /// What is to be done now; none where nothing is, before `until`, or before something comes. What is known of the
    /// controller's outputs stays.
    pub fn act(&mut self, now: Moment) -> Option<Action>
        ensures { HasSameOutputs self.old.controller self.new.controller }
    {
        self.tick(now);
        if let Some(action) = self.act_controller(now) {
            return Some(action);
        }
        for place in 0..self.stations.len() {
            if self.is_quiet(place, now) {
                continue;
            }
            if let Some(action) = self.act_station(place, now) {
                return Some(action);
            }
        }
        // What a round that ended just now is to hand over.
        self.act_controller(now)
    }

    /// Whether nothing is to be done about a device before something comes: most are so at most moments.
    fn is_quiet(&self, place: usize, now: Moment) -> bool {
        match self.stations.get(place) {
            Some(station) => station.is_quiet(now) && !station.is_left(self.controller.is_lost()),
            None => true,
        }
    }

    /// What is to be done about the controller.
    fn act_controller(&mut self, now: Moment) -> Option<Action>
        ensures { HasSameOutputs self.old.controller self.new.controller }
    {
        let controller = &mut self.controller;
        if let Some(change) = controller.notices.take() {
            return Some(Action::Tell(Who::Controller, change));
        }
        if controller.link.is_late(now) {
            self.failed(Who::Controller, LinkFault::Timeout, now);
            return Some(Action::Close(Who::Controller));
        }
        if controller.link.is_due(now) {
            let address = controller.address()?;
            controller.link.connect(now);
            return Some(Action::Connect(Who::Controller, address));
        }
        if let Some(adu) = controller.send(now) {
            return Some(Action::Send(Who::Controller, adu));
        }
        if !controller.takes_hands() {
            return None;
        }
        let request = match self.signs.take() {
            Some(sign) => sign,
            None => next_hand(&mut self.stations)?,
        };
        let adu = controller.hand(request, now)?;
        Some(Action::Send(Who::Controller, adu))
    }

    /// What is to be done about a device. Nothing is asked of it while the controller is lost, once its outputs fell
    /// back: another field may write them then, beside another controller.
    fn act_station(&mut self, place: usize, now: Moment) -> Option<Action>
        ensures { HasSameOutputs self.old.controller self.new.controller }
    {
        let is_lost = self.controller.is_lost();
        let station = self.stations.get_mut(place)?;
        let who = Who::Device(place);
        if let Some(change) = station.notices.take() {
            return Some(Action::Tell(who, change));
        }
        if station.link.is_late(now) {
            if let Some(adu) = station.link.ask_again(now) {
                return Some(Action::Send(who, adu));
            }
            station.lose(LinkFault::Timeout, now);
            return Some(Action::Close(who));
        }
        if station.is_left(is_lost) {
            return if station.leave() {
                Some(Action::Close(who))
            } else {
                None
            };
        }
        if station.link.is_due(now) {
            station.link.connect(now);
            return Some(Action::Connect(who, station.device.address));
        }
        // At first rounds wait until it's known whether there are outputs.
        if !self.waits && self.controller.is_known() {
            begin_round(station, &self.controller, now, self.is_ending);
        }
        match station.send(now) {
            Some(unit) => Some(Action::Send(who, unit)),
            None => Some(Action::Tell(who, station.notices.take()?)),
        }
    }

    /// A connection is made. What is known of the controller's outputs stays.
    pub fn opened(&mut self, who: Who)
        ensures { HasSameOutputs self.old.controller self.new.controller }
    {
        match who {
            Who::Controller => {
                self.controller.open();
                self.signs.tell_anew();
                for station in self.stations.iter_mut() {
                    station.tell_anew();
                }
            }
            Who::Device(place) => {
                if let Some(station) = self.stations.get_mut(place) {
                    station.link.open();
                }
            }
        }
    }

    /// The controller showed all of its outputs: they are taken, and each device may be written them, once a scan that
    /// had the inputs of each was released.
    fn show(&mut self, now: Moment)
        ensures { self.new.controller.is_released ≡ false → HasOldOutputs self.old.controller self.new.controller }
    {
        let showing = self.controller.showing(now);
        step(&mut self.stations, showing);
        take_shown(&mut self.controller, self.stations.as_slice(), now);
        admit(&mut self.stations, self.controller.is_released);
        self.waits = false;
        let is_ready = !self.is_ending && self.stations.iter().all(|s| s.is_known_there());
        tell_ready(&mut self.signs, is_ready);
    }

    /// A unit came. False where the connection is to be closed. The controller's outputs stay as they were until a scan
    /// that had the inputs was released since there is a connection to it.
    pub fn came(&mut self, who: Who, adu: &Adu, now: Moment) -> bool
        ensures { self.new.controller.is_released ≡ false → HasOldOutputs self.old.controller self.new.controller }
    {
        let heard = match who {
            Who::Controller => self.controller.hear(adu),
            Who::Device(place) => match self.stations.get_mut(place) {
                Some(station) => match station.hear(adu, now) {
                    Ok(()) => Ok(false),
                    Err(fault) => Err(fault),
                },
                None => Ok(false),
            },
        };
        match heard {
            Ok(true) => self.show(now),
            Ok(false) => {}
            Err(fault) => self.failed(who, fault, now),
        }
        heard.is_ok()
    }

    /// A connection failed, or can't be made. What is known of the controller's outputs stays.
    pub fn failed(&mut self, who: Who, fault: LinkFault, now: Moment)
        ensures outputs { HasSameOutputs self.old.controller self.new.controller }
        ensures released { self.new.controller.is_released ≡ self.old.controller.is_released }
    {
        match who {
            Who::Controller => {
                self.controller.lose(fault, now);
                self.waits = false;
            }
            Who::Device(place) => {
                if let Some(station) = self.stations.get_mut(place) {
                    station.lose(fault, now);
                }
            }
        }
    }

    /// By when something is due, if nothing comes before.
    pub fn until(&self) -> Moment {
        let is_lost = self.controller.is_lost();
        let mut until = self.next;
        if !self.controller.link.is_idle() {
            until = until.min(self.controller.link.until);
        }
        for station in self.stations.iter() {
            if !station.link.is_idle() && !station.is_left(is_lost) {
                until = until.min(station.link.until);
            }
        }
        until
    }

    /// One round more for each device that answers, in which it's written what its writings fall back to, if it has
    /// outputs. The controller is told that inputs aren't real any more, and then that each device isn't asked, and
    /// its inputs are FALSE and 0.
    pub fn stop(&mut self) {
        self.next = Moment::MAX;
        self.waits = false;
        self.is_ending = true;
        self.signs.mark(false);
        for station in self.stations.iter_mut() {
            station.end();
        }
    }

    /// Whether each device was read and written the outputs, or is lost or left.
    pub fn is_carried(&self) -> bool {
        let is_lost = self.controller.is_lost();
        self.controller.is_known() && self.stations.iter().all(|s| s.is_carried(is_lost))
    }

    /// Whether each device had its round, or is lost or left, and all is handed over that can be.
    pub fn is_settled(&self) -> bool {
        let is_lost = self.controller.is_lost();
        let is_told = is_lost || (self.signs.is_empty() && self.controller.takes_hands());
        self.controller.is_known() && is_told && self.stations.iter().all(|s| s.is_settled(is_lost))
    }
}
