//! Readers and writers that never wait, and count the calls in which no byte went.

ghost use Rattle.std.specs.Prelude.{◌≡◌, Err};
ghost use Rattle.net_ends.specs.Ends.{HasPaused, HasEnded};
ghost use Rattle.net_ends.specs.declared.non_blocking.Stop.TheVariants.{ForNow, ForGood};

use std::io::{ErrorKind, Read, Write};
use std::marker::Model;
use thiserror::Error;

/// Why no byte went.
#[derive(Clone, Copy, Debug, PartialEq, Eq, Error)]
pub enum Stop {
    /// None goes for now: it pauses.
    #[error("not now")]
    ForNow,
    /// None goes any more: it ended, or failed.
    #[error("at its end")]
    ForGood,
}

/// A reader that never waits.
pub trait NonBlockingRead {
    ghost use Rattle.std.specs.Prelude.{◌≤◌, ◌<◌, ℕ, List, Option, IfOk, length};
    ghost use Rattle.std.specs.Io.KnownBytes.{ReadConsumes};
    ghost use Rattle.net_ends.specs.Ends.{Stops, Counts};

    // The bytes that it will give from here on, where they are known.
    ghost left: { Self → Option (List ℕ) };

    ghost stops: { Self → Stops };

    /// Reads bytes into the front of `buf` and answers how many: one at least, unless `buf` is empty. Where none came
    /// that is counted.
    fn read(&mut self, buf: &mut [u8]) -> Result<usize, Stop>
        ensures bound { IfOk result (λ n. n ≤ length buf.new) }
        ensures some { IfOk result (λ n. 0 < length buf.new → 0 < n) }
        ensures bytes { ReadConsumes (left self.old) (left self.new) result buf.new }
        ensures stops { Counts result (stops self.old) (stops self.new) };
}

/// A writer that never waits.
pub trait NonBlockingWrite {
    ghost use Rattle.std.specs.Prelude.{◌≤◌, ◌<◌, ℕ, List, Option, IfOk, length};
    ghost use Rattle.std.specs.Io.KnownBytes.{WriteAppends};
    ghost use Rattle.net_ends.specs.Ends.{Stops, Counts};

    // The bytes that it holds, where they are known.
    ghost held: { Self → Option (List ℕ) };

    ghost stops: { Self → Stops };

    /// Takes bytes from the front of `buf` and answers how many: one at least, unless `buf` is empty. Where it took
    /// none that is counted.
    fn write(&mut self, buf: &[u8]) -> Result<usize, Stop>
        ensures bound { IfOk result (λ n. n ≤ length buf.now) }
        ensures some { IfOk result (λ n. 0 < length buf.now → 0 < n) }
        ensures bytes { WriteAppends (held self.old) (held self.new) result buf.now }
        ensures stops { Counts result (stops self.old) (stops self.new) };
}

/// How often a call is made that a signal interrupts before any byte went.
const INTERRUPTIONS: u32 = 1000;

/// A reader or a writer of std that never waits, with its counts. A call that a signal interrupted is made again. What
/// is known of the bytes is what is known of those of the reader or writer inside.
#[derive(Drop)]
pub struct NonBlocking<T> {
    inner: T,
    pauses: u64,
    ends: u64,
}

impl<T> Model for NonBlocking<T> {
    ghost use Rattle.net_ends.specs.Ends.{Counting};

    ghost Value = { Counting T };

    ghost view = { λ n. record { inner = n.inner; stops = record { pauses = n.pauses; ends = n.ends } } };
}

impl<T> NonBlocking<T> {
    /// This reader or writer, with nothing counted yet.
    pub fn new(inner: T) -> NonBlocking<T>
        ensures { result ≡ record { inner = inner; stops = record { pauses = 0; ends = 0 } } }
    {
        NonBlocking {
            inner,
            pauses: 0,
            ends: 0,
        }
    }

    /// Counts that no byte went, by the sort of failure.
    fn count(&mut self, kind: ErrorKind) -> Stop
        ensures inner { self.new.inner ≡ self.old.inner }
        ensures paused { result ≡ ForNow → HasPaused self.old.stops self.new.stops
            × (self.new.stops.ends ≡ self.old.stops.ends) }
        ensures ended { result ≡ ForGood → HasEnded self.old.stops self.new.stops
            × (self.new.stops.pauses ≡ self.old.stops.pauses) }
    {
        if kind == ErrorKind::WouldBlock {
            self.pauses = self.pauses.saturating_add(1);
            return Stop::ForNow;
        }
        self.ends = self.ends.saturating_add(1);
        Stop::ForGood
    }
}

impl<T: Read> NonBlockingRead for NonBlocking<T> {
    ghost left = { λ n. T.remaining n.inner };

    ghost stops = { λ n. n.stops };

    fn read(&mut self, buf: &mut [u8]) -> Result<usize, Stop> {
        for _ in 0..INTERRUPTIONS {
            match self.inner.read(buf) {
                Ok(count) if count > 0 || buf.is_empty() => return Ok(count),
                Ok(_) => break,
                Err(error) if error.kind() == ErrorKind::Interrupted => {}
                Err(error) => return Err(self.count(error.kind())),
            }
        }
        Err(self.count(ErrorKind::UnexpectedEof))
    }
}

impl<T: Write> NonBlockingWrite for NonBlocking<T> {
    ghost held = { λ n. T.contents n.inner };

    ghost stops = { λ n. n.stops };

    fn write(&mut self, buf: &[u8]) -> Result<usize, Stop> {
        for _ in 0..INTERRUPTIONS {
            match self.inner.write(buf) {
                Ok(count) if count > 0 || buf.is_empty() => return Ok(count),
                Ok(_) => break,
                Err(error) if error.kind() == ErrorKind::Interrupted => {}
                Err(error) => return Err(self.count(error.kind())),
            }
        }
        Err(self.count(ErrorKind::WriteZero))
    }
}
