//! What goes out as records.

ghost use Rattle.std.specs.Prelude.{◌≡◌, ◌+◌, ◌≤◌, ◌<◌, [], length, take, drop, IfOk, OnErr, IsTrue, ◌↔◌};
ghost use Rattle.std.specs.Io.KnownBytes.{Appends, Keeps};
ghost use Rattle.net_ends.specs.Ends.{Counts};
ghost use Rattle.net_records.specs.Records.{record_of};

use net_ends::{NonBlockingWrite, Stop};
use std::alloc::{AllocError, Global};
use std::marker::Model;

/// No record that is written has a longer body.
pub(crate) const MOST_BODY: usize = 16_384;

/// A record that waits to be written, of which some may be written already.
#[derive(Drop)]
pub(crate) struct Outgoing {
    bytes: Vec<u8>,
    /// How many bytes the record has, and how many of them are written.
    count: usize,
    done: usize,
}

impl Model for Outgoing {
    ghost use Rattle.std.specs.Prelude.{◌≡◌, ◌≤◌, ℕ, List, length, slice_range};

    ghost Value = { List ℕ };

    ghost view = { λ o. slice_range o.bytes.items o.done o.count };

    ghost invariant = { λ o. (o.done ≤ o.count) × (o.count ≤ length o.bytes.items) × (length o.bytes.items ≡ 16386) };
}

/// Puts the record of a body to the front of these bytes.
fn put_record(out: &mut [u8], body: &[u8])
    requires room { length body.now + 2 ≤ length out.old }
    requires body { length body.now < 65536 }
    ensures { take (length body.now + 2) out.new ≡ record_of body.now }
{
    let [high, low] = (body.len() as u16).to_be_bytes();
    out[0] = high;
    out[1] = low;
    out[2..body.len() + 2].copy_from_slice(body);
}

impl Outgoing {
    /// Nothing waits. It fails only where memory runs out.
    pub(crate) fn new(alloc: Global) -> Result<Outgoing, AllocError>
        ensures { IfOk result (λ outgoing. outgoing ≡ []) }
    {
        Ok(Outgoing {
            bytes: Vec::from_elem(alloc, 0, MOST_BODY + 2)?,
            count: 0,
            done: 0,
        })
    }

    /// Whether nothing waits.
    pub(crate) fn is_empty(&self) -> bool
        ensures { IsTrue result ↔ (self.now ≡ []) }
    {
        self.done == self.count
    }

    /// From now on the record of this body waits, and nothing else.
    pub(crate) fn put(&mut self, body: &[u8])
        requires { length body.now ≤ 16384 }
        ensures { self.new ≡ record_of body.now }
    {
        put_record(self.bytes.as_mut_slice(), body);
        self.count = body.len() + 2;
        self.done = 0;
    }

    /// Nothing waits any more.
    pub(crate) fn clear(&mut self)
        ensures { self.new ≡ [] }
    {
        self.count = 0;
        self.done = 0;
    }

    /// Writes once, where something waits, and tells how many bytes went.
    pub(crate) fn write<W: NonBlockingWrite>(&mut self, writer: &mut W) -> Result<usize, Stop>
        ensures went { IfOk result (λ count. Appends (W.held writer.old) (W.held writer.new) (take count self.old)) }
        ensures rest { IfOk result (λ count. self.new ≡ drop count self.old) }
        ensures count { IfOk result (λ count. count ≤ length self.old) }
        ensures some { IfOk result (λ count. 0 < length self.old → 0 < count) }
        ensures err { OnErr result (self.new ≡ self.old) }
        ensures kept { OnErr result (Keeps (W.held writer.old) (W.held writer.new)) }
        ensures stops { Counts result (W.stops writer.old) (W.stops writer.new) }
    {
        let count = writer.write(&self.bytes[self.done..self.count])?;
        self.done += count;
        Ok(count)
    }
}
