//! The controller: its outputs are taken, and inputs are handed over to it.

ghost use Rattle.std.specs.Prelude.{◌≡◌, ◌||◌, false};
ghost use Rattle.std.specs.Option.{option_copied};
ghost use Rattle.field_cycle.specs.Stations.{known_outputs, count_of};

use crate::freshness::{Freshness, is_other};
use crate::link::{Link, LinkFault, Moment, TURN};
use crate::notices::Notices;
use crate::passage::{Pace, Showing};
use crate::station::Standing;
use field_map::{Form, Kind, Layout, Places, Reading};
use il_model::{BITS, Cells, WORDS};
use modbus_wire::{Adu, Reply, Request, Table};
use std::net::SocketAddr;

/// What is asked of the controller next, or waits for its reply.
#[derive(Clone, Copy)]
pub enum Task {
    Rest,
    /// The words of its outputs. The count of scans is one of them: so the bits, which come next, are of that scan or
    /// a later one.
    Words,
    /// Their bits.
    Bits,
    /// Inputs are handed over.
    Hand,
}

/// What is known of a controller's times, in milliseconds, and of its scans.
#[derive(Clone, Copy)]
pub struct Rhythm {
    /// A reply, or a connection, is late after so long.
    pub timeout: u64,
    /// Its outputs count as known for so long.
    pub fresh: u64,
    /// A scan takes so long, where no word counts them.
    pub scan: u64,
    /// The word of `%Q` that counts scans, if one does.
    pub scan_count: Option<Places>,
}

/// A controller at one of several addresses.
#[derive(Drop)]
pub struct Controller {
    pub addresses: Vec<SocketAddr>,
    /// The place of the address that is tried, or connected.
    pub place: usize,
    pub link: Link,
    pub task: Task,
    /// Whether its outputs are to be taken.
    pub is_due: bool,
    /// What it showed of its outputs so far.
    pub shown: Cells,
    /// Its outputs, as they were taken last.
    pub outputs: Cells,
    pub freshness: Freshness,
    /// Its outputs count as known for so long.
    pub fresh: u64,
    /// A scan takes so long, where no word counts them.
    pub scan: u64,
    /// The word of `%Q` that counts scans, if one does.
    pub scan_count: Option<Places>,
    /// Whether a scan that had each device's inputs was released since there is a connection.
    pub is_released: bool,
    pub standing: Standing,
    /// What is to be told.
    pub notices: Notices,
}

/// All outputs of a kind.
fn all_outputs(kind: Kind) -> Reading {
    let count = match kind {
        Kind::Bits => BITS,
        Kind::Words => WORDS,
    };
    Reading {
        table: Table::ReadOnly,
        address: 0,
        places: Places {
            kind,
            from: 0,
            count,
        },
        layout: Layout::Single,
        form: Form::Int,
    }
}

/// The value of a word, if there is one.
fn count_of(cells: &Cells, word: Option<Places>) -> Option<i16>
    ensures { result ≡ count_of cells.now word }
{
    cells.words.get(word?.from).copied()
}

impl Controller {
    ghost use Rattle.field_cycle.specs.Stations.{heard_at, showing_of, taken_outputs, IsTurnedAway};
    ghost use Rattle.field_cycle.specs.Stations.{HasSameOutputs};

    /// A controller at one of these addresses, of which nothing is known. The unit is 255, the server itself.
    pub fn new(addresses: Vec<SocketAddr>, rhythm: Rhythm) -> Controller
        ensures { result.is_released ≡ false }
    {
        Controller {
            addresses,
            place: 0,
            link: Link::new(255, rhythm.timeout, 0),
            task: Task::Rest,
            is_due: false,
            shown: Cells::clear(),
            outputs: Cells::clear(),
            freshness: Freshness::new(),
            fresh: rhythm.fresh,
            scan: rhythm.scan,
            scan_count: rhythm.scan_count,
            is_released: false,
            standing: Standing::Unknown,
            notices: Notices::none(),
        }
    }

    /// Its outputs, while it's fresh, whether there is a connection or none.
    pub fn outputs(&self, now: Moment) -> Option<&Cells>
        ensures { option_copied result ≡ known_outputs self.now now }
    {
        let counts = self.scan_count.is_some();
        if self.freshness.is_fresh(now, self.fresh, counts) {
            Some(&self.outputs)
        } else {
            None
        }
    }

    /// Whether it answered, or is known to be lost.
    pub fn is_known(&self) -> bool {
        !matches!(self.standing, Standing::Unknown)
    }

    /// Whether it's known to be lost.
    pub fn is_lost(&self) -> bool {
        matches!(self.standing, Standing::Lost)
    }

    /// The address that is tried, or connected.
    pub fn address(&self) -> Option<SocketAddr> {
        self.addresses.get(self.place).copied()
    }

    /// Whether inputs may be handed over now.
    pub fn takes_hands(&self) -> bool {
        self.link.is_idle() && !self.is_due && matches!(self.task, Task::Rest)
    }

    /// There is a connection. What it shows counts once a scan that had the inputs was released.
    pub fn open(&mut self)
        ensures outputs { HasSameOutputs self.old self.new }
        ensures released { self.new.is_released ≡ false }
    {
        self.link.open();
        self.is_released = false;
    }

    /// What is to be sent to take its outputs, if that is due.
    pub fn send(&mut self, now: Moment) -> Option<Adu>
        ensures { HasSameOutputs self.old self.new }
    {
        if !self.link.is_idle() {
            return None;
        }
        if self.is_due && matches!(self.task, Task::Rest) {
            self.task = Task::Words;
            self.is_due = false;
        }
        match self.task {
            Task::Words => self.link.ask(all_outputs(Kind::Words).request(), now),
            Task::Bits => self.link.ask(all_outputs(Kind::Bits).request(), now),
            Task::Rest | Task::Hand => None,
        }
    }

    /// What is to be sent to hand these inputs over.
    pub fn hand(&mut self, request: Request, now: Moment) -> Option<Adu>
        ensures { HasSameOutputs self.old self.new }
    {
        let adu = self.link.ask(request, now)?;
        self.task = Task::Hand;
        Some(adu)
    }

    /// Takes a unit that came. Whether it showed all of its outputs with it, or the fault where the connection is to be
    /// given up.
    pub fn hear(&mut self, adu: &Adu) -> Result<bool, LinkFault>
        ensures outputs { HasSameOutputs self.old self.new }
        ensures released { self.new.is_released ≡ self.old.is_released }
    {
        let Some(reply) = self.link.hear(adu)? else {
            return Ok(false);
        };
        match self.task {
            Task::Words if all_outputs(Kind::Words).take(&reply, &mut self.shown) => {
                self.task = Task::Bits;
                Ok(false)
            }
            Task::Bits if all_outputs(Kind::Bits).take(&reply, &mut self.shown) => {
                self.task = Task::Rest;
                Ok(true)
            }
            Task::Hand if matches!(reply, Reply::Done) => {
                self.task = Task::Rest;
                Ok(false)
            }
            _ => Err(LinkFault::Length),
        }
    }

    /// What it says of its scans that it showed all of its outputs now.
    pub fn showing(&self, now: Moment) -> Showing
        ensures { result ≡ showing_of self.now now }
    {
        let count = count_of(&self.shown, self.scan_count);
        let pace = match self.scan_count {
            Some(_) => Pace::Counted(is_other(self.freshness.count, count)),
            None => Pace::Timed(self.scan),
        };
        Showing { now, pace }
    }

    /// It showed all of its outputs now. They are taken once a scan that had the inputs of each device was released
    /// since there is a connection, which is known from now on, or isn't.
    pub fn take(&mut self, now: Moment, is_passed: bool)
        ensures outputs { self.new.outputs ≡ taken_outputs self.old is_passed }
        ensures fresh { self.new.freshness ≡ heard_at self.old.freshness now
            (count_of self.old.shown self.old.scan_count) (self.old.is_released || is_passed) }
        ensures released { self.new.is_released ≡ self.old.is_released || is_passed }
    {
        let is_released = self.is_released || is_passed;
        let count = count_of(&self.shown, self.scan_count);
        if is_released {
            self.outputs = self.shown;
        }
        self.freshness.hear(now, count, is_released);
        self.is_released = is_released;
        if let Some(change) = self.standing.found() {
            self.notices.put(change);
        }
        self.standing = Standing::Answers;
    }

    /// Gives the connection up, and tries the next address at once, or the first again after a pause. What is known of
    /// its outputs stays.
    pub fn lose(&mut self, fault: LinkFault, now: Moment)
        ensures { IsTurnedAway self.old self.new now }
    {
        let next = self.place.saturating_add(1);
        if next < self.addresses.len() {
            self.place = next;
            self.link.turn_away(now);
        } else {
            self.place = 0;
            self.link.turn_away(now.saturating_add(TURN));
        }
        self.task = Task::Rest;
        if let Some(change) = self.standing.lost(fault) {
            self.notices.put(change);
            self.standing = Standing::Lost;
        }
    }
}
