//! What there is to be shown of a controller, at one moment. Times are microseconds.

ghost use Rattle.std.specs.Prelude.{◌≡◌};
ghost use Rattle.plc_figures.specs.Readings.{shows_normal};

use il_model::{Loc, Stop, Value};
use vr_model::{Standing, Status};

/// What shows of a replica.
#[derive(Clone, Copy)]
pub struct Replica {
    pub number: u8,
    pub standing: Standing,
    /// How often it was started.
    pub starts: u64,
    /// Its store failed since it was started last.
    pub has_failed: bool,
}

impl Replica {
    /// Whether its view goes on normally, and its store has not failed.
    pub fn is_normal(&self) -> bool
        ensures { result ≡ shows_normal self.now }
    {
        match self.standing.status {
            Status::Normal => !self.has_failed,
            Status::ViewChange | Status::Recovering | Status::Down => false,
        }
    }
}

/// By what a scan was held or stopped, with its place: an instruction, from 0.
#[derive(Clone, Copy)]
pub enum Halt {
    Held(u16),
    Stopped(Stop, u16),
}

/// The greatest interval of each bucket but the last, which has those above.
pub const BOUNDS: [u64; 12] = [
    1_000, 2_500, 5_000, 10_000, 25_000, 50_000, 100_000, 250_000, 500_000, 1_000_000, 2_500_000,
    5_000_000,
];

/// So many buckets there are.
pub const BUCKETS: usize = 13;

/// What shows of the scans. An interval goes from the beginning of one to that of the next.
#[derive(Clone, Copy)]
pub struct Scans {
    /// How many were answered.
    pub scans: u64,
    /// How many of them began a period late or more.
    pub late: u64,
    /// How many released outputs.
    pub releases: u64,
    /// The last one.
    pub interval: u64,
    /// All of them together.
    pub interval_sum: u64,
    /// How many were at most each bound, and above the one before; and how many were above all.
    pub interval_counts: [u64; BUCKETS],
    /// Since the last of these began, if there was one.
    pub age: Option<u64>,
    /// That is so long ago as it should be at most.
    pub is_fresh: bool,
    /// By what the last scan was held or stopped, if it was.
    pub halt: Option<Halt>,
}

/// The functions of Modbus whose requests are counted each by itself.
pub const FUNCTIONS: [u64; 10] = [1, 2, 3, 4, 5, 6, 15, 16, 22, 23];

/// So many counts by functions there are: one for each of these, and the last for all others.
pub const PLACES: usize = 11;

/// The greatest code of an exception; the least is 1.
pub const EXCEPTIONS: usize = 4;

/// What Modbus clients did so far.
#[derive(Clone, Copy)]
pub struct Clients {
    /// How many connections were given a session.
    pub sessions: u64,
    /// How many of these sessions aren't at their end.
    pub open_sessions: u64,
    /// How many requests were answered of each function, in the order of `FUNCTIONS`, and behind them of all others.
    pub functions: [u64; PLACES],
    /// How many of them by an exception, of each code.
    pub exceptions: [u64; EXCEPTIONS],
}

/// What shows of a machine of a group.
#[derive(Clone, Copy)]
pub struct Machine {
    pub number: u8,
    /// The epoch of the group in which it takes part.
    pub epoch: u64,
    /// It drives: the scans of the group are its own, and it shows outputs.
    pub is_driving: bool,
    /// So many other machines it hears.
    pub heard: u8,
    /// So many other machines the group has.
    pub others: u8,
    /// It hears enough of them for a majority with it, or did a few seconds ago: without one no scan is answered.
    pub has_majority: bool,
    /// So many connections with them ended by a record that was forged or damaged.
    pub forged: u64,
}

/// What this process takes.
#[derive(Clone, Copy)]
pub struct Process {
    /// In bytes.
    pub resident: u64,
    /// Its time on a processor.
    pub processor: u64,
}

/// A line that an operator was told, without its end, and when that was, since 1970.
#[derive(Clone, Drop)]
pub struct Told {
    pub at: u64,
    pub line: Vec<u8>,
}

/// An input or an output with its name, and what it is.
#[derive(Drop)]
pub struct Point {
    /// As the program declares it.
    pub name: Vec<u8>,
    pub place: Loc,
    pub value: Value,
}

/// What shows of a controller.
#[derive(Drop)]
pub struct Reading {
    /// Of which machine, if it's of one: of others then nothing shows.
    pub machine: Option<Machine>,
    pub replicas: Vec<Replica>,
    pub scans: Scans,
    pub clients: Clients,
    /// Where the system tells it.
    pub process: Option<Process>,
    /// How many inputs and outputs are forced.
    pub forces: u64,
    pub inputs: Vec<Point>,
    pub outputs: Vec<Point>,
    /// The last ones, the oldest first.
    pub notices: Vec<Told>,
}
