//! What comes in of a stream of records.

ghost use Rattle.std.specs.Prelude.{◌≡◌, ◌≤◌, ◌<◌, [], length, take, IfOk, OnErr, IsTrue, ◌↔◌};
ghost use Rattle.std.specs.Io.KnownBytes.{Consumes, Keeps};
ghost use Rattle.net_ends.specs.Ends.{Counts};
ghost use Rattle.net_records.specs.Ends.{Unwraps};
ghost use Rattle.net_records.specs.declared.place.Place.TheVariants.{Length};

use crate::place::{Place, go_on};
use net_ends::{NonBlockingRead, Stop};
use std::alloc::{AllocError, Global};
use std::marker::Model;

/// So many bytes are read at once.
const PIECE: usize = 1 << 16;

/// A piece of a stream of records, of which some may be used already.
#[derive(Drop)]
pub(crate) struct Incoming {
    place: Place,
    piece: Vec<u8>,
    /// How many bytes of the piece came, and how many of these are used.
    count: usize,
    used: usize,
}

impl Model for Incoming {
    ghost use Rattle.std.specs.Prelude.{◌≤◌, ◌<◌, length, slice_range};
    ghost use Rattle.net_records.specs.Records.{IsPlace};
    ghost use Rattle.net_records.specs.Ends.{Coming};

    ghost Value = { Coming };

    ghost view = { λ i. record { place = i.place; waiting = slice_range i.piece.items i.used i.count } };

    ghost invariant = { λ i. (i.used ≤ i.count) × (i.count ≤ length i.piece.items) × (0 < length i.piece.items)
        × IsPlace i.place };
}

impl Incoming {
    /// Nothing came yet. It fails only where memory runs out.
    pub(crate) fn new(alloc: Global) -> Result<Incoming, AllocError>
        ensures { IfOk result (λ incoming. incoming ≡ record { place = Length; waiting = [] }) }
    {
        Ok(Incoming {
            place: Place::Length,
            piece: Vec::from_elem(alloc, 0, PIECE)?,
            count: 0,
            used: 0,
        })
    }

    /// Whether nothing waits.
    fn is_empty(&self) -> bool
        ensures { IsTrue result ↔ (self.now.waiting ≡ []) }
    {
        self.used == self.count
    }

    /// Goes on by a turn, which gives bytes of bodies to the front of `out`, and tells how many.
    fn turn(&mut self, out: &mut [u8]) -> usize
        requires some { self.old.waiting ≡ [] → ⊥ }
        requires room { 0 < length out.old }
        ensures fits { result ≤ length out.new }
        ensures given { Unwraps self.old self.new (take result out.new) }
        ensures less { length self.new.waiting < length self.old.waiting }
    {
        let turn = go_on(&mut self.place, &self.piece[self.used..self.count], out);
        self.used += turn.used;
        turn.given
    }

    /// Gives bytes of bodies from what waits to the front of `out`, as many as there are and as it has room for, and
    /// tells how many.
    pub(crate) fn unwrap(&mut self, out: &mut [u8]) -> usize
        ensures fits { result ≤ length out.new }
        ensures given { Unwraps self.old self.new (take result out.new) }
        ensures all { result < length out.new → self.new.waiting ≡ [] }
    {
        let mut given = 0;
        'turns: while given < out.len() {
            if self.is_empty() {
                return given;
            }
            given += self.turn(&mut out[given..]);
        }
        given
    }

    /// Reads a piece, where nothing waits, and tells how many bytes came.
    pub(crate) fn fill<R: NonBlockingRead>(&mut self, reader: &mut R) -> Result<usize, Stop>
        requires { self.old.waiting ≡ [] }
        ensures came { IfOk result
            (λ count. Consumes (R.left reader.old) (R.left reader.new) self.new.waiting) }
        ensures place { self.new.place ≡ self.old.place }
        ensures none { OnErr result (self.new.waiting ≡ []) }
        ensures kept { OnErr result (Keeps (R.left reader.old) (R.left reader.new)) }
        ensures stops { Counts result (R.stops reader.old) (R.stops reader.new) }
    {
        let count = reader.read(self.piece.as_mut_slice())?;
        self.count = count;
        self.used = 0;
        Ok(count)
    }
}
