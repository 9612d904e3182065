//! Sealed records over what reads and writes.

ghost use Rattle.std.specs.Prelude.{◌≡◌, ◌≤◌, ◌<◌, [], length, take, IfOk, OnOk, None};
ghost use Rattle.net_ends.specs.Ends.{Counts, IsCounted};
ghost use Rattle.net_ends.specs.declared.non_blocking.Stop.TheVariants.{ForGood};
ghost use Rattle.net_sealed.specs.Coming.{HasRead, given_in, stops_of};
ghost use Rattle.net_sealed.specs.Going.{SealsNext};

use crate::incoming::{Blocked, Incoming, MOST_BODY};
use crate::outgoing::Outgoing;
use net_ends::{NonBlockingRead, NonBlockingWrite, Stop};
use net_keys::Ends;
use std::alloc::{AllocError, Global};

/// Behind so many turns without a byte to give, nothing comes any more: an end that is well sends a beat each few
/// milliseconds.
const MOST_BLANK: u32 = 1 << 16;

/// Whether a record came, and whether anything went.
#[derive(Clone, Copy, Debug, PartialEq, Eq)]
pub struct Signs {
    pub has_come: bool,
    pub has_gone: bool,
}

/// Sealed records over what reads and writes, which never wait: it reads and writes the bytes of their bodies. One
/// record that was sealed may wait to be written.
#[derive(Drop)]
pub struct SealedRecords<T> {
    inner: T,
    incoming: Incoming,
    outgoing: Outgoing,
    signs: Signs,
    is_forged: bool,
    /// How often it told that nothing comes or goes any more.
    ends: u64,
}

impl<T> SealedRecords<T> {
    /// Nothing came or went yet behind the records by which both ends have met. It fails only where memory runs out.
    pub fn new(alloc: Global, inner: T, ends: Ends) -> Result<SealedRecords<T>, AllocError>
    where
        T: Drop,
        ensures coming { IfOk result (λ records. records.incoming
            ≡ record { opener = ends.opener; opened = []; waiting = [] }) }
        ensures going { IfOk result (λ records. records.outgoing ≡ record { sealer = ends.sealer; waiting = [] }) }
    {
        let Ends { sealer, opener } = ends;
        Ok(SealedRecords {
            inner,
            incoming: Incoming::new(alloc, opener)?,
            outgoing: Outgoing::new(alloc, sealer),
            signs: Signs {
                has_come: false,
                has_gone: false,
            },
            is_forged: false,
            ends: 0,
        })
    }

    /// Whether a record came or anything went since that was asked last, beats among it.
    pub fn signs(&mut self) -> Signs {
        let signs = self.signs;
        self.signs = Signs {
            has_come: false,
            has_gone: false,
        };
        signs
    }

    /// Whether a record came that was forged or damaged: then nothing comes any more.
    pub fn is_forged(&self) -> bool
        ensures { result ≡ self.now.is_forged }
    {
        self.is_forged
    }

    /// Counts that nothing comes or goes any more.
    fn end(&mut self) -> Stop
        ensures is { result ≡ ForGood }
        ensures counted { IsCounted self.old.ends self.new.ends }
        ensures same { self.new ≡ record self.old { ends = self.new.ends } }
    {
        self.ends = self.ends.saturating_add(1);
        Stop::ForGood
    }
}

impl<T: NonBlockingRead> SealedRecords<T> {
    /// Reads a piece, where all that was opened is given.
    #[tactic(auto, using(crate::proofs::Readings::reads_filled))]
    fn fill(&mut self) -> Result<(), Stop>
        requires { self.old.incoming.opened ≡ [] }
        ensures reads { HasRead result (T.left self.old.inner) (T.left self.new.inner) self.old.incoming
            self.new.incoming [] }
        ensures stops { Counts result (stops_of (T.stops self.old.inner) self.old.ends)
            (stops_of (T.stops self.new.inner) self.new.ends) }
    {
        match self.incoming.fill(&mut self.inner) {
            Ok(()) => Ok(()),
            Err(Blocked::Stopped(Stop::ForNow)) => Err(Stop::ForNow),
            Err(Blocked::Stopped(Stop::ForGood) | Blocked::Memory) => Err(self.end()),
        }
    }

    /// Opens the next record, where all that was opened is given; reads a piece where it isn't whole.
    #[tactic(auto, using(crate::proofs::Readings::reads_next))]
    fn go_on(&mut self) -> Result<(), Stop>
        requires { self.old.incoming.opened ≡ [] }
        ensures reads { HasRead result (T.left self.old.inner) (T.left self.new.inner) self.old.incoming
            self.new.incoming [] }
        ensures stops { Counts result (stops_of (T.stops self.old.inner) self.old.ends)
            (stops_of (T.stops self.new.inner) self.new.ends) }
    {
        match self.incoming.open_next() {
            Ok(true) => {
                self.signs.has_come = true;
                Ok(())
            }
            Ok(false) => self.fill(),
            Err(_) => {
                self.is_forged = true;
                Err(self.end())
            }
        }
    }

    /// Gives bytes of bodies to the front of `out`, which has room, and tells how many.
    #[tactic(auto, using(crate::proofs::Readings::reads_nothing, crate::proofs::Readings::reads_given, crate::proofs::Readings::reads_more))]
    fn read_bodies(&mut self, out: &mut [u8]) -> Result<usize, Stop>
        requires { 0 < length out.old }
        ensures bound { IfOk result (λ count. count ≤ length out.new) }
        ensures some { IfOk result (λ count. 0 < count) }
        ensures reads { HasRead result (T.left self.old.inner) (T.left self.new.inner) self.old.incoming
            self.new.incoming (given_in result out.new) }
        ensures stops { Counts result (stops_of (T.stops self.old.inner) self.old.ends)
            (stops_of (T.stops self.new.inner) self.new.ends) }
    {
        'turns: for _ in 0..=MOST_BLANK {
            let given = self.incoming.give(out);
            if given > 0 {
                return Ok(given);
            }
            match self.go_on() {
                Ok(()) => {}
                Err(stop) => return Err(stop),
            }
        }
        Err(self.end())
    }
}

impl<T: NonBlockingRead> NonBlockingRead for SealedRecords<T> {
    ghost left = { λ _. None };

    ghost stops = { λ r. stops_of (T.stops r.inner) r.ends };

    fn read(&mut self, buf: &mut [u8]) -> Result<usize, Stop> {
        if buf.is_empty() {
            return Ok(0);
        }
        self.read_bodies(buf)
    }
}

impl<T: NonBlockingWrite> SealedRecords<T> {
    /// Writes once, where something waits.
    fn write_once(&mut self) -> Result<(), Stop>
        requires { self.old.outgoing.waiting ≡ [] → ⊥ }
        ensures less { OnOk result (length self.new.outgoing.waiting < length self.old.outgoing.waiting) }
        ensures sealer { self.new.outgoing.sealer ≡ self.old.outgoing.sealer }
        ensures stops { Counts result (stops_of (T.stops self.old.inner) self.old.ends)
            (stops_of (T.stops self.new.inner) self.new.ends) }
    {
        match self.outgoing.write(&mut self.inner) {
            Ok(_) => {
                self.signs.has_gone = true;
                Ok(())
            }
            Err(Stop::ForNow) => Err(Stop::ForNow),
            Err(Stop::ForGood) => Err(self.end()),
        }
    }

    /// Writes what waits, until nothing does or no more is taken.
    pub fn push(&mut self) -> Result<(), Stop>
        ensures all { OnOk result (self.new.outgoing.waiting ≡ []) }
        ensures sealer { self.new.outgoing.sealer ≡ self.old.outgoing.sealer }
        ensures stops { Counts result (stops_of (T.stops self.old.inner) self.old.ends)
            (stops_of (T.stops self.new.inner) self.new.ends) }
    {
        'writing: while !self.outgoing.is_empty() {
            match self.write_once() {
                Ok(()) => {}
                Err(stop) => return Err(stop),
            }
        }
        Ok(())
    }

    /// Seals a record of this body, where nothing waits: then that waits.
    fn put(&mut self, body: &[u8]) -> Result<(), Stop>
        requires nothing { self.old.outgoing.waiting ≡ [] }
        requires body { length body.now ≤ 16384 }
        ensures sealed { OnOk result (SealsNext self.old.outgoing self.new.outgoing body.now) }
        ensures stops { Counts result (stops_of (T.stops self.old.inner) self.old.ends)
            (stops_of (T.stops self.new.inner) self.new.ends) }
    {
        match self.outgoing.put(body) {
            Ok(()) => Ok(()),
            Err(_) => Err(self.end()),
        }
    }

    /// Seals a beat, unless something waits, and writes what waits, until nothing does or no more is taken.
    pub fn beat(&mut self) -> Result<(), Stop> {
        if self.outgoing.is_empty() {
            self.put(&[])?;
        }
        self.push()
    }

    /// Writes what waits, and seals a record of the front of these bytes; tells how many it takes.
    fn write_front(&mut self, bytes: &[u8]) -> Result<usize, Stop>
        requires { 0 < length bytes.now }
        ensures bound { IfOk result (λ count. (0 < count) × (count ≤ length bytes.now)) }
        ensures sealed { IfOk result (λ count. SealsNext self.old.outgoing self.new.outgoing (take count bytes.now)) }
        ensures stops { Counts result (stops_of (T.stops self.old.inner) self.old.ends)
            (stops_of (T.stops self.new.inner) self.new.ends) }
    {
        match self.push() {
            Ok(()) => {}
            Err(stop) => return Err(stop),
        }
        let count = bytes.len().min(MOST_BODY);
        match self.put(&bytes[..count]) {
            Ok(()) => Ok(count),
            Err(stop) => Err(stop),
        }
    }
}

impl<T: NonBlockingWrite> NonBlockingWrite for SealedRecords<T> {
    ghost held = { λ _. None };

    ghost stops = { λ r. stops_of (T.stops r.inner) r.ends };

    fn write(&mut self, buf: &[u8]) -> Result<usize, Stop> {
        if buf.is_empty() {
            return Ok(0);
        }
        self.write_front(buf)
    }
}
