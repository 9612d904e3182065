//! Records over what reads and writes.

ghost use Rattle.std.specs.Prelude.{◌≡◌, ◌≤◌, ◌<◌, ◌↔◌, [], false, length, take, Err, IfOk, IsTrue, OnErr, OnOk};
ghost use Rattle.std.specs.Io.KnownBytes.{Keeps, WriteAppends};
ghost use Rattle.net_ends.specs.Ends.{Counts, IsCounted};
ghost use Rattle.net_ends.specs.declared.non_blocking.Stop.TheVariants.{ForGood};
ghost use Rattle.net_records.specs.Records.{record_of};
ghost use Rattle.net_records.specs.Ends.{Pushes, Unwraps, or_beat, stops_of, taken, to_give};
ghost use Rattle.net_records.specs.declared.place.Place.TheVariants.{Length};

use crate::incoming::Incoming;
use crate::outgoing::{MOST_BODY, Outgoing};
use net_ends::{NonBlockingRead, NonBlockingWrite, Stop};
use std::alloc::{AllocError, Global};
use std::marker::Model;

/// Behind so many bytes in a row that are nothing but beats and lengths, without a pause between them, nothing comes any
/// more: an end that is well sends a beat each few milliseconds.
const MOST_BLANK: usize = 1 << 16;

/// Whether anything came, and whether anything went.
#[derive(Clone, Copy, Debug, PartialEq, Eq)]
pub struct Signs {
    pub has_come: bool,
    pub has_gone: bool,
}

/// Records over what reads and writes, which never wait: it reads and writes the bytes of their bodies. One record that
/// was taken may wait to be written.
#[derive(Drop)]
pub struct Records<T> {
    inner: T,
    incoming: Incoming,
    outgoing: Outgoing,
    signs: Signs,
    /// How often it told that nothing comes any more.
    ends: u64,
}

impl<T> Model for Records<T> {
    ghost use Rattle.net_records.specs.Ends.{Ends};

    ghost Value = { Ends T };

    ghost view = { λ r. record {
      inner = r.inner;
      coming = r.incoming;
      waiting = r.outgoing;
      has_come = r.signs.has_come;
      has_gone = r.signs.has_gone;
      ends = r.ends;
    } };
}

impl<T> Records<T> {
    /// Nothing came or went yet. It fails only where memory runs out.
    pub fn new(alloc: Global, inner: T) -> Result<Records<T>, AllocError>
    where
        T: Drop,
        ensures { IfOk result (λ records. records ≡ record {
          inner = inner;
          coming = record { place = Length; waiting = [] };
          waiting = [];
          has_come = false;
          has_gone = false;
          ends = 0;
        }) }
    {
        Ok(Records {
            inner,
            incoming: Incoming::new(alloc)?,
            outgoing: Outgoing::new(alloc)?,
            signs: Signs {
                has_come: false,
                has_gone: false,
            },
            ends: 0,
        })
    }

    /// Whether anything came or went since that was asked last, beats among it.
    pub fn signs(&mut self) -> Signs
        ensures came { result.has_come ≡ self.old.has_come }
        ensures went { result.has_gone ≡ self.old.has_gone }
        ensures after { self.new ≡ record self.old { has_come = false; has_gone = false } }
    {
        let signs = self.signs;
        self.signs = Signs {
            has_come: false,
            has_gone: false,
        };
        signs
    }
}

impl<T: NonBlockingRead> Records<T> {
    /// Counts that nothing comes any more.
    fn end(&mut self) -> Stop
        ensures is { result ≡ ForGood }
        ensures counted { IsCounted self.old.ends self.new.ends }
        ensures same { self.new ≡ record self.old { ends = self.new.ends } }
    {
        self.ends = self.ends.saturating_add(1);
        Stop::ForGood
    }

    /// Gives bytes of bodies from what waits to the front of `out`, and tells how many.
    fn unwrap(&mut self, out: &mut [u8]) -> usize
        ensures fits { result ≤ length out.new }
        ensures given { Unwraps self.old.coming self.new.coming (take result out.new) }
        ensures all { result < length out.new → self.new.coming.waiting ≡ [] }
        ensures inner { self.new.inner ≡ self.old.inner }
        ensures ends { self.new.ends ≡ self.old.ends }
    {
        self.incoming.unwrap(out)
    }

    /// Reads a piece, where nothing of the one before waits, and tells how many bytes came.
    fn fill(&mut self) -> Result<usize, Stop>
        requires { self.old.coming.waiting ≡ [] }
        ensures bytes { Keeps (to_give self.old.coming (T.left self.old.inner))
            (to_give self.new.coming (T.left self.new.inner)) }
        ensures stops { Counts result (stops_of (T.stops self.old.inner) self.old.ends)
            (stops_of (T.stops self.new.inner) self.new.ends) }
    {
        match self.incoming.fill(&mut self.inner) {
            Ok(count) => {
                self.signs.has_come = true;
                Ok(count)
            }
            Err(Stop::ForNow) => Err(Stop::ForNow),
            Err(Stop::ForGood) => Err(self.end()),
        }
    }
}

impl<T: NonBlockingRead> Records<T> {
    /// Reads a piece, where nothing of the one before waits, behind so many bytes that were blank, to which it adds those
    /// that come; behind `MOST_BLANK` of them nothing comes any more.
    fn fill_behind(&mut self, blank: &mut usize) -> Result<(), Stop>
        requires { self.old.coming.waiting ≡ [] }
        ensures bytes { Keeps (to_give self.old.coming (T.left self.old.inner))
            (to_give self.new.coming (T.left self.new.inner)) }
        ensures stops { Counts result (stops_of (T.stops self.old.inner) self.old.ends)
            (stops_of (T.stops self.new.inner) self.new.ends) }
        ensures limit { 65536 ≤ blank.old → (result ≡ Err ForGood) × (self.new.inner ≡ self.old.inner) }
    {
        if *blank >= MOST_BLANK {
            return Err(self.end());
        }
        match self.fill() {
            Ok(count) => {
                *blank = blank.saturating_add(count);
                Ok(())
            }
            Err(stop) => Err(stop),
        }
    }
}

impl<T: NonBlockingRead> NonBlockingRead for Records<T> {
    ghost left = { λ r. to_give r.coming (T.left r.inner) };

    ghost stops = { λ r. stops_of (T.stops r.inner) r.ends };

    fn read(&mut self, buf: &mut [u8]) -> Result<usize, Stop> {
        if buf.is_empty() {
            return Ok(0);
        }
        let mut blank = 0usize;
        'pieces: for _ in 0..=MOST_BLANK {
            let given = self.unwrap(buf);
            if given > 0 {
                return Ok(given);
            }
            match self.fill_behind(&mut blank) {
                Ok(()) => {}
                Err(stop) => return Err(stop),
            }
        }
        Err(self.end())
    }
}

impl<T: NonBlockingWrite> Records<T> {
    /// Whether nothing waits.
    fn is_empty(&self) -> bool
        ensures { IsTrue result ↔ (self.now.waiting ≡ []) }
    {
        self.outgoing.is_empty()
    }

    /// Writes once, where something waits.
    fn write_once(&mut self) -> Result<(), Stop>
        requires { self.old.waiting ≡ [] → ⊥ }
        ensures went { Pushes (T.held self.old.inner) (T.held self.new.inner) self.old.waiting self.new.waiting }
        ensures less { OnOk result (length self.new.waiting < length self.old.waiting) }
        ensures stops { Counts result (T.stops self.old.inner) (T.stops self.new.inner) }
    {
        match self.outgoing.write(&mut self.inner) {
            Ok(_) => {
                self.signs.has_gone = true;
                Ok(())
            }
            Err(stop) => Err(stop),
        }
    }

    /// Writes what waits, until nothing does or no more is taken.
    pub fn push(&mut self) -> Result<(), Stop>
        ensures went { Pushes (T.held self.old.inner) (T.held self.new.inner) self.old.waiting self.new.waiting }
        ensures all { OnOk result (self.new.waiting ≡ []) }
        ensures stops { Counts result (T.stops self.old.inner) (T.stops self.new.inner) }
    {
        'writing: while !self.is_empty() {
            match self.write_once() {
                Ok(()) => {}
                Err(stop) => return Err(stop),
            }
        }
        Ok(())
    }

    /// Puts a beat, unless something waits.
    fn put_beat(&mut self)
        ensures waiting { self.new.waiting ≡ or_beat self.old.waiting }
        ensures inner { self.new.inner ≡ self.old.inner }
    {
        if self.outgoing.is_empty() {
            self.outgoing.put(&[]);
        }
    }

    /// Puts a beat, unless something waits, and writes what waits, until nothing does or no more is taken.
    pub fn beat(&mut self) -> Result<(), Stop>
        ensures went { Pushes (T.held self.old.inner) (T.held self.new.inner) (or_beat self.old.waiting)
            self.new.waiting }
        ensures bytes { Keeps (taken (T.held self.old.inner) self.old.waiting)
            (taken (T.held self.new.inner) self.new.waiting) }
        ensures all { OnOk result (self.new.waiting ≡ []) }
        ensures stops { Counts result (T.stops self.old.inner) (T.stops self.new.inner) }
    {
        self.put_beat();
        self.push()
    }

    /// Writes the record of this body, where nothing waits: where none of it is taken, nothing of it waits.
    fn write_record(&mut self, body: &[u8]) -> Result<(), Stop>
        requires nothing { self.old.waiting ≡ [] }
        requires body { length body.now ≤ 16384 }
        ensures ok { OnOk result (Pushes (T.held self.old.inner) (T.held self.new.inner) (record_of body.now)
            self.new.waiting) }
        ensures err { OnErr result (self.new.waiting ≡ []) }
        ensures kept { OnErr result (Keeps (T.held self.old.inner) (T.held self.new.inner)) }
        ensures stops { Counts result (T.stops self.old.inner) (T.stops self.new.inner) }
    {
        self.outgoing.put(body);
        match self.outgoing.write(&mut self.inner) {
            Ok(_) => {
                self.signs.has_gone = true;
                Ok(())
            }
            Err(stop) => {
                self.outgoing.clear();
                Err(stop)
            }
        }
    }
}

impl<T: NonBlockingWrite> Records<T> {
    /// Writes a record of the front of these bytes, where nothing waits, and tells how many it takes.
    fn write_front(&mut self, bytes: &[u8]) -> Result<usize, Stop>
        requires nothing { self.old.waiting ≡ [] }
        requires some { 0 < length bytes.now }
        ensures count { IfOk result (λ count. (0 < count) × (count ≤ length bytes.now)) }
        ensures taken { WriteAppends (taken (T.held self.old.inner) []) (taken (T.held self.new.inner) self.new.waiting)
            result bytes.now }
        ensures stops { Counts result (T.stops self.old.inner) (T.stops self.new.inner) }
    {
        let count = bytes.len().min(MOST_BODY);
        match self.write_record(&bytes[..count]) {
            Ok(()) => Ok(count),
            Err(stop) => Err(stop),
        }
    }
}

impl<T: NonBlockingWrite> NonBlockingWrite for Records<T> {
    ghost held = { λ r. taken (T.held r.inner) r.waiting };

    ghost stops = { λ r. T.stops r.inner };

    fn write(&mut self, buf: &[u8]) -> Result<usize, Stop> {
        if buf.is_empty() {
            return Ok(0);
        }
        match self.push() {
            Ok(()) => self.write_front(buf),
            Err(stop) => Err(stop),
        }
    }
}
