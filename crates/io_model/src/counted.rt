//! Readers and writers that count their failures.

ghost use Rattle.std.specs.Prelude.{◌≡◌, ◌≤◌, ℕ, OnErr, OnOk, take};
ghost use Rattle.std.specs.Io.KnownBytes.{Appends};
ghost use Rattle.io_model.specs.Streams.{Failed};

use std::io::{ErrorKind, Read, Write};
use std::marker::Model;
use thiserror::Error;

/// A reader or a writer failed in this call, and has counted it.
#[derive(Clone, Copy, Debug, PartialEq, Eq, Error)]
#[error("device failed")]
pub struct DeviceFault;

/// A reader that counts its failures.
pub trait CountedRead {
    ghost use Rattle.std.specs.Prelude.{◌≡◌, ◌≤◌, ℕ, List, Option, OnErr, IfOk, length};
    ghost use Rattle.std.specs.Io.KnownBytes.{ReadConsumes};
    ghost use Rattle.io_model.specs.Streams.{Failed};

    // The bytes that it will give from here on, where they are known.
    ghost left: { Self → Option (List ℕ) };

    ghost faults: { Self → ℕ };

    /// Reads bytes into the front of `buf` and answers how many; where it tells its bytes, 0 only where `buf` is empty
    /// or no byte is left. It answers a fault only where the reader failed in this call; then it has as many bytes left
    /// as before.
    fn read(&mut self, buf: &mut [u8]) -> Result<usize, DeviceFault>
        ensures bound { IfOk result (λ n. n ≤ length buf.new) }
        ensures bytes { ReadConsumes (left self.old) (left self.new) result buf.new }
        ensures device { OnErr result (Failed (faults self.old) (faults self.new)) }
        ensures counts { faults self.old ≤ faults self.new };

    /// How often it has failed; it counts no further than `u64::MAX`.
    fn faults(&self) -> u64
        ensures { result ≡ faults self.now };
}

/// A writer that counts its failures.
pub trait CountedWrite {
    ghost use Rattle.std.specs.Prelude.{◌≡◌, ◌≤◌, ◌<◌, ℕ, List, Option, OnErr, IfOk, length};
    ghost use Rattle.std.specs.Io.KnownBytes.{WriteAppends};
    ghost use Rattle.io_model.specs.Streams.{Failed};

    // The bytes that it holds, where they are known.
    ghost held: { Self → Option (List ℕ) };

    ghost faults: { Self → ℕ };

    /// Takes bytes from the front of `buf` and answers how many: one at least, unless `buf` is empty. It answers a
    /// fault only where the writer failed in this call; then it holds what it held.
    fn write(&mut self, buf: &[u8]) -> Result<usize, DeviceFault>
        ensures bound { IfOk result (λ n. n ≤ length buf.now) }
        ensures some { IfOk result (λ n. 0 < length buf.now → 0 < n) }
        ensures bytes { WriteAppends (held self.old) (held self.new) result buf.now }
        ensures device { OnErr result (Failed (faults self.old) (faults self.new)) }
        ensures counts { faults self.old ≤ faults self.new };

    /// How often it has failed; it counts no further than `u64::MAX`.
    fn faults(&self) -> u64
        ensures { result ≡ faults self.now };
}

// How often a call is made that a signal interrupts before any byte went: a process that is stopped and goes on, or a
// debugger that attaches, interrupts it once.
const INTERRUPTIONS: u32 = 1000;

/// A reader or a writer of std with a count of its failures. A refusal is one, and so is a write that takes none of the
/// bytes of a buffer that has some; a call that a signal interrupted is made again. What is known of the bytes is what is known of those of the reader or writer
/// inside.
#[derive(Drop)]
pub struct Counted<T> {
    inner: T,
    failures: u64,
}

impl<T> Model for Counted<T> {
    ghost use Rattle.io_model.specs.Streams.{Counting};

    ghost Value = { Counting T };

    ghost view = { λ c. record { inner = c.inner; failures = c.failures } };
}

impl<T> Counted<T> {
    /// This reader or writer, with no failure counted yet.
    pub fn new(inner: T) -> Counted<T>
        ensures { result ≡ record { inner = inner; failures = 0 } }
    {
        Counted { inner, failures: 0 }
    }
}

impl<T: Read> CountedRead for Counted<T> {
    ghost left = { λ c. T.remaining c.inner };

    ghost faults = { λ c. c.failures };

    fn read(&mut self, buf: &mut [u8]) -> Result<usize, DeviceFault> {
        for _ in 0..INTERRUPTIONS {
            match self.inner.read(buf) {
                Ok(n) => return Ok(n),
                Err(error) if error.kind() == ErrorKind::Interrupted => {}
                Err(_) => break,
            }
        }
        self.failures = self.failures.saturating_add(1);
        Err(DeviceFault)
    }

    fn faults(&self) -> u64 {
        self.failures
    }
}

impl<T: Write> CountedWrite for Counted<T> {
    ghost held = { λ c. T.contents c.inner };

    ghost faults = { λ c. c.failures };

    fn write(&mut self, buf: &[u8]) -> Result<usize, DeviceFault> {
        for _ in 0..INTERRUPTIONS {
            match self.inner.write(buf) {
                Ok(n) if n > 0 || buf.is_empty() => return Ok(n),
                Err(error) if error.kind() == ErrorKind::Interrupted => {}
                _ => break,
            }
        }
        self.failures = self.failures.saturating_add(1);
        Err(DeviceFault)
    }

    fn faults(&self) -> u64 {
        self.failures
    }
}

/// Writes all of the bytes, in as many writes as the writer needs. It answers a fault only where the writer failed in
/// this call; then a prefix of the bytes went out.
pub fn write_all<W: CountedWrite>(writer: &mut W, bytes: &[u8]) -> Result<(), DeviceFault>
    ensures ok { OnOk result (Appends (W.held writer.old) (W.held writer.new) bytes.now) }
    ensures err { OnErr result
        ((n : ℕ) × Appends (W.held writer.old) (W.held writer.new) (take n bytes.now)) }
    ensures device { OnErr result (Failed (W.faults writer.old) (W.faults writer.new)) }
    ensures counts { W.faults writer.old ≤ W.faults writer.new }
{
    let mut done = 0;
    while done < bytes.len() {
        done += writer.write(&bytes[done..])?;
    }
    Ok(())
}
