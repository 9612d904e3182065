//! The last lines that an operator was told, with their times.

ghost use Rattle.std.specs.Prelude.{◌≡◌, ◌++◌, ◌∷◌, [], ◌≤◌, IfOk, OnOk, vec_len};
ghost use Rattle.plc_page.specs.Sources.{last, line_of, lines_of};

use plc_figures::Told;
use std::alloc::{AllocError, Global};
use std::io::Write;
use std::sync::{Arc, Mutex, Wait};
use std::time::{Clock, SystemTime, UNIX_EPOCH};
use std::{io, mem};

/// So many lines are kept.
const MOST: usize = 200;

/// So many bytes of a line are.
const LONGEST: usize = 512;

/// The last lines of what was written, each with the time of its end.
#[derive(Drop)]
struct Lines {
    alloc: Global,
    /// The oldest first.
    told: Vec<Told>,
    /// The line that has no end yet.
    begun: Vec<u8>,
    ghost few: { vec_len told ≤ 200 },
}

impl Lines {
    /// Nothing was written.
    fn new(alloc: Global) -> Lines
        ensures { result.told.items ≡ [] }
    {
        Lines {
            alloc,
            told: Vec::new(alloc),
            begun: Vec::new(alloc),
        }
    }

    /// Adds a byte to the line that has no end yet, unless it's too long.
    fn add(&mut self, byte: u8) -> Result<(), AllocError>
        ensures { self.new.told.items ≡ self.old.told.items }
    {
        if self.begun.len() < LONGEST {
            self.begun.push(byte)?;
        }
        Ok(())
    }

    /// Ends that line: it's the last one now, and where there are too many the oldest isn't kept.
    fn end(&mut self, at: u64) -> Result<(), AllocError>
        ensures { OnOk result (lines_of self.new.told.items
            ≡ last 200 (lines_of self.old.told.items ++ (at, self.old.begun.items) ∷ [])) }
    {
        let line = mem::replace(&mut self.begun, Vec::new(self.alloc));
        if self.told.len() == MOST {
            self.told.remove(0);
        }
        Ok(self.told.push(Told { at, line })?)
    }

    /// Takes what was written at this time.
    fn take(&mut self, bytes: &[u8], at: u64) -> Result<(), AllocError> {
        for byte in bytes {
            if *byte == b'\n' {
                self.end(at)?;
            } else {
                self.add(*byte)?;
            }
        }
        Ok(())
    }
}

/// The last 200 lines that an operator was told, for whoever asks for them. Whoever scans takes no part in it.
#[derive(Drop)]
pub struct Notices {
    alloc: Global,
    lines: Mutex<Lines>,
}

impl Notices {
    /// Nothing was told yet.
    pub fn new(alloc: Global) -> Notices {
        Notices {
            alloc,
            lines: Mutex::new(Lines::new(alloc)),
        }
    }

    /// Takes what was told now. A line is left out for which there's no memory.
    fn take<R: Clock + Wait>(&self, rt: &R, bytes: &[u8]) {
        let at = since_1970(rt);
        let _ = self.lines.lock(rt).take(bytes, at);
    }

    /// They, the oldest first.
    pub fn last<R: Wait>(&self, rt: &R) -> Result<Vec<Told>, AllocError> {
        self.lines.lock(rt).told.clone()
    }
}

/// In microseconds, by the clock of this machine; 0 where it has none.
fn since_1970<R: Clock>(rt: &R) -> u64 {
    let Ok(now) = SystemTime::now(rt) else {
        return 0;
    };
    match now.duration_since(UNIX_EPOCH) {
        Ok(time) => u64::try_from(time.as_micros()).unwrap_or(u64::MAX),
        Err(_) => 0,
    }
}

/// A writer whose lines are kept beside.
#[derive(Drop)]
pub struct Telling<W, R> {
    rt: R,
    inner: W,
    notices: Option<Arc<Notices>>,
}

impl<W, R> Telling<W, R> {
    /// What is written goes to this writer, and its lines are kept if that is wanted.
    pub fn new(rt: R, inner: W, notices: Option<Arc<Notices>>) -> Telling<W, R> {
        Telling { rt, inner, notices }
    }
}

impl<W: Write, R: Clock + Wait> Write for Telling<W, R> {
    fn write(&mut self, buf: &[u8]) -> io::Result<usize> {
        let count = self.inner.write(buf)?;
        if let Some(notices) = &self.notices {
            notices.take(&self.rt, &buf[..count]);
        }
        Ok(count)
    }

    fn flush(&mut self) -> io::Result<()> {
        self.inner.flush()
    }
}
