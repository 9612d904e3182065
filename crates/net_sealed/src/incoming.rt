//! What comes in of a stream of sealed records.

ghost use Rattle.std.specs.Prelude.{◌≡◌, ◌≤◌, ◌<◌, [], false, true, length, take, IfOk, OnErr, OnOk, Ok};
ghost use Rattle.net_sealed.specs.Coming.{Gives, HasCounted, HasFilled, IsFront, OpensNext, front_of};
ghost use Rattle.net_sealed.specs.declared.incoming.Front.TheVariants.{Partial, Whole};

use net_ends::{NonBlockingRead, Stop};
use net_keys::{Opener, RecordFault, SUM};
use std::alloc::{AllocError, Global};
use std::marker::Model;

/// So many bytes are read at once.
const PIECE: usize = 1 << 16;

/// No record that is sealed has a longer body.
pub(crate) const MOST_BODY: usize = 16_384;

/// What stands at the front of the bytes that came.
#[derive(Clone, Copy, Debug, PartialEq, Eq)]
pub(crate) enum Front {
    /// Less than a record.
    Partial,
    /// A whole record, whose body has so many bytes.
    Whole(usize),
    /// A length that no record has.
    TooLong,
}

/// Why nothing more comes, or not now.
#[derive(Clone, Copy, Debug, PartialEq, Eq)]
pub(crate) enum Blocked {
    Stopped(Stop),
    Memory,
}

/// A stream of sealed records, of which some bytes came.
#[derive(Drop)]
pub(crate) struct Incoming {
    opener: Opener,
    /// What came.
    bytes: Vec<u8>,
    /// Where the rest of the body begins that was opened last, where it ends, and where the next record begins.
    given: usize,
    end: usize,
    next: usize,
    /// What is read at once.
    piece: Vec<u8>,
}

impl Model for Incoming {
    ghost use Rattle.std.specs.Prelude.{◌≤◌, ◌<◌, length, drop, slice_range};
    ghost use Rattle.net_sealed.specs.Coming.{Coming};

    ghost Value = { Coming };

    ghost view = { λ i. record {
      opener = i.opener;
      opened = slice_range i.bytes.items i.given i.end;
      waiting = drop i.next i.bytes.items;
    } };

    ghost invariant = { λ i. (i.given ≤ i.end) × (i.end ≤ i.next) × (i.next ≤ length i.bytes.items)
        × (0 < length i.piece.items) };
}

/// What stands at the front of these bytes.
fn front_of(bytes: &[u8]) -> Front
    ensures is { result ≡ front_of bytes.now }
    ensures fits { IsFront result bytes.now }
{
    if bytes.len() < 2 {
        return Front::Partial;
    }
    let length = usize::from(bytes[0]) * 256 + usize::from(bytes[1]);
    if length > MOST_BODY {
        return Front::TooLong;
    }
    if bytes.len() < length + 2 + SUM {
        return Front::Partial;
    }
    Front::Whole(length)
}

/// These bytes as a sum.
fn sum_in(bytes: &[u8]) -> [u8; SUM]
    requires { length bytes.now ≡ 16 }
    ensures { result ≡ bytes.now }
{
    match <[u8; SUM]>::try_from(bytes) {
        Ok(sum) => sum,
        Err(_) => unreachable!(),
    }
}

impl Incoming {
    /// Nothing came yet. It fails only where memory runs out.
    pub(crate) fn new(alloc: Global, opener: Opener) -> Result<Incoming, AllocError>
        ensures { IfOk result (λ incoming. incoming ≡ record { opener = opener; opened = []; waiting = [] }) }
    {
        Ok(Incoming {
            opener,
            bytes: Vec::new(alloc),
            given: 0,
            end: 0,
            next: 0,
            piece: Vec::from_elem(alloc, 0, PIECE)?,
        })
    }

    /// Gives bytes of the body that was opened last to the front of `out`, as many as there are and as it has room for,
    /// and tells how many.
    pub(crate) fn give(&mut self, out: &mut [u8]) -> usize
        ensures fits { result ≤ length out.new }
        ensures given { Gives self.old self.new (take result out.new) }
        ensures all { result < length out.new → self.new.opened ≡ [] }
    {
        let count = (self.end - self.given).min(out.len());
        out[..count].copy_from_slice(&self.bytes[self.given..self.given + count]);
        self.given += count;
        count
    }

    /// Opens the record of a body of this length, which is whole.
    fn open(&mut self, length: usize) -> Result<(), RecordFault>
        requires { IsFront (Whole length) self.old.waiting }
        ensures ok { OnOk result (OpensNext self.old self.new) }
        ensures err { OnErr result (self.new ≡ self.old) }
    {
        let body = self.next + 2;
        let behind = body + length;
        let sum = sum_in(&self.bytes[behind..behind + SUM]);
        self.opener.open(&self.bytes[body..behind], &sum)?;
        self.given = body;
        self.end = behind;
        self.next = behind + SUM;
        Ok(())
    }

    /// Opens the next record, if it's whole, and tells that. A record that can't be opened changes nothing.
    pub(crate) fn open_next(&mut self) -> Result<bool, RecordFault>
        ensures opened { result ≡ Ok true → OpensNext self.old self.new }
        ensures partial { result ≡ Ok false → self.new ≡ self.old }
        ensures more { result ≡ Ok false → front_of self.old.waiting ≡ Partial }
        ensures err { OnErr result (self.new ≡ self.old) }
    {
        match front_of(&self.bytes[self.next..]) {
            Front::Partial => Ok(false),
            Front::TooLong => Err(RecordFault::Forged),
            Front::Whole(length) => match self.open(length) {
                Ok(()) => Ok(true),
                Err(fault) => Err(fault),
            },
        }
    }

    /// Reads a piece, where all that was opened is given.
    #[tactic(auto, using(crate::proofs::Readings::fills_none))]
    pub(crate) fn fill<R: NonBlockingRead>(&mut self, reader: &mut R) -> Result<(), Blocked>
        requires { self.old.opened ≡ [] }
        ensures opener { self.new.opener ≡ self.old.opener }
        ensures opened { self.new.opened ≡ [] }
        ensures came { HasFilled result (R.left reader.old) (R.left reader.new) self.old self.new }
        ensures stops { HasCounted result (R.stops reader.old) (R.stops reader.new) }
    {
        self.bytes.drain(..self.next);
        self.given = 0;
        self.end = 0;
        self.next = 0;
        match reader.read(self.piece.as_mut_slice()) {
            Ok(count) => match self.bytes.extend_from_slice(&self.piece[..count]) {
                Ok(()) => Ok(()),
                Err(_) => Err(Blocked::Memory),
            },
            Err(stop) => Err(Blocked::Stopped(stop)),
        }
    }
}
