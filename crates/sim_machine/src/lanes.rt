//! The ways from each machine to each other one: what goes one way comes in order, and what is blocked is held.

use crate::net::Segment;
use std::alloc::Global;
use std::mem;

/// So many ways there are, of eight machines at most.
const WAYS: usize = 64;

/// The ways from each machine to each other one.
#[derive(Drop)]
pub struct Lanes {
    blocked: [bool; WAYS],
    /// When the last segment arrives.
    arrival: [u64; WAYS],
    /// What goes on once its way is free.
    pub held: Vec<Box<Segment>>,
    /// Of a thousand segments so many are lost, and come a while later.
    pub loss: u64,
    /// So many connections were dialled.
    connections: u64,
}

/// The place of a way.
fn way(from: u8, to: u8) -> usize {
    usize::from(from) * 8 + usize::from(to)
}

impl Lanes {
    /// All are free.
    pub fn new(alloc: Global) -> Lanes {
        Lanes {
            blocked: [false; WAYS],
            arrival: [0; WAYS],
            held: Vec::new(alloc),
            loss: 0,
            connections: 0,
        }
    }

    /// The number of the next connection.
    pub fn connect(&mut self) -> u64 {
        self.connections = self.connections.saturating_add(1);
        self.connections
    }

    /// Whether nothing goes this way.
    pub fn is_blocked(&self, from: u8, to: u8) -> bool {
        self.blocked.get(way(from, to)).copied().unwrap_or(true)
    }

    /// Whether nothing goes between two machines, one way or both.
    pub fn is_cut(&self, one: u8, other: u8) -> bool {
        self.is_blocked(one, other) || self.is_blocked(other, one)
    }

    /// Nothing goes this way from now on, or all does.
    fn block(&mut self, from: u8, to: u8, is_blocked: bool) {
        if let Some(blocked) = self.blocked.get_mut(way(from, to)) {
            *blocked = is_blocked;
        }
    }

    /// The same of both ways between two machines, or of one.
    pub fn block_ways(&mut self, one: u8, other: u8, is_both: bool, is_blocked: bool) {
        self.block(one, other, is_blocked);
        if is_both {
            self.block(other, one, is_blocked);
        }
    }

    /// When a segment arrives that would at that time: behind the one before it.
    pub fn arrives(&mut self, from: u8, to: u8, at: u64) -> u64 {
        let Some(last) = self.arrival.get_mut(way(from, to)) else {
            return at;
        };
        let at = at.max(last.saturating_add(1));
        *last = at;
        at
    }

    /// All are free, and none loses anything.
    pub fn heal(&mut self) {
        self.blocked = [false; WAYS];
        self.loss = 0;
    }

    /// What was held.
    pub fn take_held(&mut self, alloc: Global) -> Vec<Box<Segment>> {
        mem::replace(&mut self.held, Vec::new(alloc))
    }
}
