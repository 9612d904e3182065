//! What goes out over a connection.

ghost use Rattle.std.specs.Prelude.{◌≡◌, [], ◌++◌, ◌⊎◌, Err, OnErr, OnOk, true, false};
ghost use Rattle.vr_wire.specs.Frames.{frame_of, IsFramed};
ghost use Rattle.net_ends.specs.Ends.{Flushes, IsTooMuch, HasPaused, HasEnded};
ghost use Rattle.net_ends.specs.declared.outbox.Loss.TheVariants as loss;

use crate::non_blocking::{NonBlockingWrite, Stop};
use std::alloc::Global;
use std::marker::Model;
use thiserror::Error;
use vr_model::Message;
use vr_wire::{WireError, write};

/// So many bytes may wait for a slow receiver. One frame may, however long it is.
const MOST: usize = 1 << 20;

/// Why a message is lost.
#[derive(Clone, Copy, Debug, PartialEq, Eq, Error)]
pub enum Loss {
    /// It has no frame.
    #[error("no frame")]
    NoFrame,
    /// Too much waits for the receiver.
    #[error("receiver too slow")]
    Slow,
    #[error("out of memory")]
    Memory,
}

/// Frames that wait to be written, of the first of which some may be written already.
#[derive(Drop)]
pub struct Outbox {
    bytes: Vec<u8>,
    /// How many of them are written.
    done: usize,
}

impl Model for Outbox {
    ghost use Rattle.std.specs.Prelude.{◌≤◌, ℕ, List, length, drop};

    ghost Value = { List ℕ };

    ghost view = { λ o. drop o.done o.bytes.items };

    ghost invariant = { λ o. o.done ≤ length o.bytes.items };
}

impl Outbox {
    /// Nothing waits.
    pub fn new(alloc: Global) -> Outbox
        ensures { result ≡ [] }
    {
        Outbox {
            bytes: Vec::new(alloc),
            done: 0,
        }
    }

    /// Puts the frame of a message after what waits. A message that is lost changes nothing.
    pub fn put(&mut self, alloc: Global, message: &Message) -> Result<(), Loss>
        ensures ok { OnOk result (self.new ≡ self.old ++ frame_of message.now) }
        ensures framed { OnOk result (IsFramed message.now) }
        ensures room { OnOk result (IsTooMuch self.old (frame_of message.now) → ⊥) }
        ensures err { OnErr result (self.new ≡ self.old) }
        ensures no_frame { result ≡ Err loss.NoFrame → IsFramed message.now → ⊥ }
        ensures slow { result ≡ Err loss.Slow → IsTooMuch self.old (frame_of message.now) }
    {
        match write(alloc, message) {
            Ok(frame) => self.add(frame.as_slice()),
            Err(WireError::Fault(_)) => Err(Loss::NoFrame),
            Err(WireError::Memory) => Err(Loss::Memory),
        }
    }

    /// Puts the bytes of a frame after what waits, unless that would be too much, or memory runs out.
    fn add(&mut self, frame: &[u8]) -> Result<(), Loss>
        ensures ok { OnOk result (self.new ≡ self.old ++ frame.now) }
        ensures room { OnOk result (IsTooMuch self.old frame.now → ⊥) }
        ensures err { OnErr result (self.new ≡ self.old) }
        ensures framed { result ≡ Err loss.NoFrame → ⊥ }
        ensures slow { result ≡ Err loss.Slow → IsTooMuch self.old frame.now }
    {
        let waiting = self.bytes.len() - self.done;
        if waiting > 0 && waiting.saturating_add(frame.len()) > MOST {
            return Err(Loss::Slow);
        }
        match self.bytes.extend_from_slice(frame) {
            Ok(()) => Ok(()),
            Err(_) => Err(Loss::Memory),
        }
    }

    /// Writes what the writer takes: until nothing waits any more, or the writer pauses. False where the writer came to
    /// its end.
    pub fn flush<W: NonBlockingWrite>(&mut self, writer: &mut W) -> bool
        ensures bytes { Flushes (W.held writer.old) (W.held writer.new) self.old self.new }
        ensures all { result ≡ true → (self.new ≡ []) ⊎ HasPaused (W.stops writer.old) (W.stops writer.new) }
        ensures going { result ≡ true → (W.stops writer.new).ends ≡ (W.stops writer.old).ends }
        ensures over { result ≡ false → HasEnded (W.stops writer.old) (W.stops writer.new) }
    {
        while self.done < self.bytes.len() {
            match writer.write(&self.bytes[self.done..]) {
                Ok(count) => self.done += count,
                Err(stop) => {
                    self.shrink();
                    return stop == Stop::ForNow;
                }
            }
        }
        self.bytes.clear();
        self.done = 0;
        true
    }

    /// Lets go of what is written, where that is at least as much as what waits.
    fn shrink(&mut self)
        ensures { self.new ≡ self.old }
    {
        let waiting = self.bytes.len() - self.done;
        if waiting <= self.done {
            self.bytes.drain(..self.done);
            self.done = 0;
        }
    }
}
