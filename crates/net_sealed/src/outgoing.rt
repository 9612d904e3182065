//! What goes out as sealed records.

ghost use Rattle.std.specs.Prelude.{◌≡◌, ◌≤◌, ◌<◌, [], length, take, drop, IfOk, OnOk, OnErr, IsTrue, ◌↔◌};
ghost use Rattle.std.specs.Io.KnownBytes.{Appends, Keeps};
ghost use Rattle.net_ends.specs.Ends.{Counts};
ghost use Rattle.net_sealed.specs.Coming.{sealed_bytes};
ghost use Rattle.net_sealed.specs.Going.{SealsNext};

use net_ends::{NonBlockingWrite, Stop};
use net_keys::{RecordFault, Sealer};
use std::alloc::{AllocError, Global};
use std::marker::Model;
use thiserror::Error;

/// Why nothing is sealed.
#[derive(Clone, Copy, Debug, PartialEq, Eq, Error)]
pub(crate) enum Unsealed {
    #[error("no number left")]
    Last,
    #[error("out of memory")]
    Memory,
}

/// Sealed records that wait to be written, of the first of which some bytes may be written already.
#[derive(Drop)]
pub(crate) struct Outgoing {
    sealer: Sealer,
    bytes: Vec<u8>,
    /// How many of them are written.
    done: usize,
}

impl Model for Outgoing {
    ghost use Rattle.std.specs.Prelude.{◌≤◌, length, drop};
    ghost use Rattle.net_sealed.specs.Going.{Going};

    ghost Value = { Going };

    ghost view = { λ o. record { sealer = o.sealer; waiting = drop o.done o.bytes.items } };

    ghost invariant = { λ o. o.done ≤ length o.bytes.items };
}

impl Outgoing {
    /// Nothing waits.
    pub(crate) fn new(alloc: Global, sealer: Sealer) -> Outgoing
        ensures { result ≡ record { sealer = sealer; waiting = [] } }
    {
        Outgoing {
            sealer,
            bytes: Vec::new(alloc),
            done: 0,
        }
    }

    /// Whether nothing waits.
    #[tactic(auto, using(crate::proofs::Ranges::empty_tells))]
    pub(crate) fn is_empty(&self) -> bool
        ensures { IsTrue result ↔ (self.now.waiting ≡ []) }
    {
        self.bytes[self.done..].is_empty()
    }

    /// Puts the bytes of a record, where nothing waits. Where memory runs out some may be put.
    fn put_bytes(&mut self, body: &[u8], sum: &[u8]) -> Result<(), AllocError>
        requires { length body.now ≤ 16384 }
        ensures waiting { OnOk result (self.new.waiting ≡ sealed_bytes body.now sum.now) }
        ensures sealer { self.new.sealer ≡ self.old.sealer }
    {
        self.bytes.clear();
        self.done = 0;
        self.bytes
            .extend_from_slice(&(body.len() as u16).to_be_bytes())?;
        self.bytes.extend_from_slice(body)?;
        self.bytes.extend_from_slice(sum)
    }

    /// Seals a record of this body, where nothing waits: then that waits. Where it fails no more is to be sealed.
    pub(crate) fn put(&mut self, body: &[u8]) -> Result<(), Unsealed>
        requires nothing { self.old.waiting ≡ [] }
        requires body { length body.now ≤ 16384 }
        ensures { OnOk result (SealsNext self.old self.new body.now) }
    {
        match self.sealer.seal(body) {
            Ok(sum) => match self.put_bytes(body, &sum) {
                Ok(()) => Ok(()),
                Err(_) => Err(Unsealed::Memory),
            },
            Err(_) => Err(Unsealed::Last),
        }
    }

    /// Writes once, where something waits, and tells how many bytes went.
    pub(crate) fn write<W: NonBlockingWrite>(&mut self, writer: &mut W) -> Result<usize, Stop>
        ensures went { IfOk result
            (λ count. Appends (W.held writer.old) (W.held writer.new) (take count self.old.waiting)) }
        ensures rest { IfOk result (λ count. self.new.waiting ≡ drop count self.old.waiting) }
        ensures count { IfOk result (λ count. count ≤ length self.old.waiting) }
        ensures some { IfOk result (λ count. 0 < length self.old.waiting → 0 < count) }
        ensures sealer { self.new.sealer ≡ self.old.sealer }
        ensures err { OnErr result (self.new ≡ self.old) }
        ensures kept { OnErr result (Keeps (W.held writer.old) (W.held writer.new)) }
        ensures stops { Counts result (W.stops writer.old) (W.stops writer.new) }
    {
        let count = writer.write(&self.bytes[self.done..])?;
        self.done += count;
        Ok(count)
    }
}
