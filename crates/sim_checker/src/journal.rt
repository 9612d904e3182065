//! What happened in a run: a sum over all of it, for a comparison of runs, and lines, where they are asked for.

use std::alloc::Global;
use vr_model::{Standing, Status};

/// So many lines are kept at most.
const MOST_LINES: usize = 20_000;

/// What a line tells.
#[derive(Clone, Copy, Debug)]
pub enum What {
    Boots,
    Killed,
    Leaves,
    Opens,
    Closes,
    Normal,
    Changes,
    Recovers,
    Down,
    /// Faults, by their kinds.
    Crash,
    Power,
    Pause,
    Stop,
    Loss,
    Delay,
    Reorder,
    Cut,
    OneWay,
    Isolate,
    DiskFull,
    DiskSlow,
    DiskReadOnly,
    Heals,
    Strikes,
    Dark,
    DiskLost,
    Fails,
    Reached,
}

/// A line: when what happened at which machine, and a number.
#[derive(Clone, Copy)]
pub struct Line {
    pub time: u64,
    pub machine: u8,
    pub what: What,
    pub number: u64,
}

/// What happened in a run.
#[derive(Drop)]
pub struct Journal {
    is_told: bool,
    pub sum: u64,
    pub lines: Vec<Line>,
    /// What was told last of each machine's replica.
    stood: [u64; 8],
}

/// What is told of a replica that stands so, and its number.
fn told_of(standing: Standing) -> (What, u64) {
    match standing.status {
        Status::Normal => (What::Normal, 1),
        Status::ViewChange => (What::Changes, 2),
        Status::Recovering => (What::Recovers, 3),
        Status::Down => (What::Down, 4),
    }
}

impl Journal {
    /// Nothing happened. Lines are kept, or aren't.
    pub fn new(alloc: Global, is_told: bool) -> Journal {
        Journal {
            is_told,
            sum: 0,
            lines: Vec::new(alloc),
            stood: [0; 8],
        }
    }

    /// This is in the sum, too.
    pub fn add(&mut self, kind: u64, value: u64, now: u64) {
        let mixed = self.sum ^ kind.wrapping_mul(0x100_0000_01B3) ^ value ^ now;
        self.sum = mixed.rotate_left(7).wrapping_mul(0x9E37_79B9_7F4A_7C15);
    }

    /// Keeps a line, if lines are kept. Where there are too many, those before go.
    pub fn tell(&mut self, line: Line) {
        if !self.is_told {
            return;
        }
        if self.lines.len() > MOST_LINES {
            self.lines.clear();
        }
        let _ = self.lines.push(line);
    }

    /// Tells what a replica shows, where that changed.
    pub fn tell_standing(&mut self, time: u64, machine: u8, standing: Standing) {
        let (what, number) = told_of(standing);
        let code = standing.view.wrapping_mul(8).wrapping_add(number);
        let Some(stood) = self.stood.get_mut(usize::from(machine)) else {
            return;
        };
        if *stood == code {
            return;
        }
        *stood = code;
        let number = standing.view;
        self.tell(Line {
            time,
            machine,
            what,
            number,
        });
    }
}
