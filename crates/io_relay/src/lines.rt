//! The writer that never waits.

ghost use Rattle.std.specs.Prelude.{◌≡◌, ◌++◌, [], if◌then◌else◌};
ghost use Rattle.rtrb.specs.Ring.{sent};
ghost use Rattle.io_relay.specs.Losing.{IsLossTold, IsSent};

use crate::bell::Bell;
use crate::relay::Relay;
use rtrb::{Producer, RingBuffer};
use std::alloc::{AllocError, Global};
use std::io;
use std::io::Write;
use std::sync::Arc;

/// In bytes: a line that is longer goes on its way in pieces.
const LONGEST: usize = 512;

/// In bytes: so much finds room that isn't written yet.
const ROOM: usize = 32_768;

/// Lines on their way to a stream. Whoever writes them never waits: a line that finds no room is lost, and counted. What
/// was written behind the last end of a line stays here until its own end is.
#[derive(Drop)]
pub struct Lines {
    alloc: Global,
    producer: Producer<u8>,
    bell: Arc<Bell>,
    /// The line that isn't at its end.
    line: Vec<u8>,
    /// How many found no room since the last one that did.
    lost: usize,
}

/// A writer that never waits, and what passes on what is written to it.
pub fn relayed(alloc: Global) -> Result<(Lines, Relay), AllocError> {
    let bell = Arc::new(alloc, Bell::new())?;
    let (producer, consumer) = RingBuffer::new(alloc, ROOM)?;
    let lines = Lines {
        alloc,
        producer,
        bell: Arc::try_clone(&bell)?,
        line: Vec::with_capacity(alloc, LONGEST)?,
        lost: 0,
    };
    Ok((lines, Relay { consumer, bell }))
}

/// Puts these bytes behind all that were put: whether they found room.
fn pass(producer: &mut Producer<u8>, bytes: &[u8]) -> bool
    ensures { sent producer.new ≡ (if result then sent producer.old ++ bytes.now else sent producer.old) }
{
    producer.push_entire_slice(bytes).is_ok()
}

impl Lines {
    /// Tells how many lines were lost, if any were, and that finds room.
    #[tactic(auto, using(crate::proofs::Losing::none, crate::proofs::Losing::told))]
    fn tell_loss(&mut self)
        ensures told { IsLossTold self.old self.new }
        ensures same { self.new.line ≡ self.old.line }
    {
        let lost = self.lost;
        if lost == 0 {
            return;
        }
        if let Ok(told) = format!(in self.alloc; "{lost} lines lost\n") {
            if pass(&mut self.producer, told.as_bytes()) {
                self.lost = 0;
            }
        }
    }

    /// The line is at its end, or as long as a piece: it goes on its way, unless lines before it were lost and that
    /// isn't told yet, or it finds no room: then it's lost, and counted.
    #[tactic(auto, using(crate::proofs::Losing::full, crate::proofs::Losing::untold, crate::proofs::Losing::whole))]
    fn send(&mut self)
        ensures sent { IsSent self.old.line.items self.old self.new }
        ensures next { self.new.line.items ≡ [] }
    {
        self.tell_loss();
        if self.lost > 0 || !pass(&mut self.producer, self.line.as_slice()) {
            self.lost = self.lost.saturating_add(1);
        }
        self.line.clear();
        self.bell.ring();
    }

    /// Takes a byte.
    fn take(&mut self, byte: u8) {
        // Room for it was had at first.
        let _ = self.line.push(byte);
        if byte == b'\n' || self.line.len() >= LONGEST {
            self.send();
        }
    }
}

impl Write for Lines {
    fn write(&mut self, bytes: &[u8]) -> io::Result<usize> {
        for byte in bytes {
            self.take(*byte);
        }
        Ok(bytes.len())
    }

    fn flush(&mut self) -> io::Result<()> {
        Ok(())
    }
}
