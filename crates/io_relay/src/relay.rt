//! What passes on the lines.

use crate::bell::Bell;
use rtrb::Consumer;
use std::io::Write;
use std::sync::{Arc, Wait};
use std::thread::{JoinHandle, Threads};
use std::time::{Clock, Duration};
use std::{io, thread};

/// In bytes: so many are written at once.
const PIECE: usize = 1024;

/// In milliseconds: for so long the end waits for who reads the stream.
const LONGEST_END: u64 = 1_000;

/// In milliseconds: so often it looks whether all is written by then.
const LOOK: u64 = 1;

/// What passes on the lines, and doesn't yet.
#[derive(Drop)]
pub struct Relay {
    pub(crate) consumer: Consumer<u8>,
    pub(crate) bell: Arc<Bell>,
}

/// What passes on the lines, in a thread of its own. It can't be let go of but by `close`.
pub struct OpenRelay {
    bell: Arc<Bell>,
    thread: JoinHandle<()>,
}

impl Relay {
    /// Passes on what is put, as soon as it is, to this stream. Where the stream fails, what follows goes on all the
    /// same. It fails where no thread is to be had, or memory runs out; then nothing is passed on.
    pub fn open<R, W>(self, rt: &R, to: W) -> io::Result<OpenRelay>
    where
        R: Threads + Wait + Copy + Send + 'static,
        W: Write + Send + Drop + 'static,
    {
        let bell = Arc::try_clone(&self.bell)?;
        let theirs = *rt;
        let thread = thread::spawn(rt, move || self.attend(&theirs, to))?;
        Ok(OpenRelay { bell, thread })
    }

    /// The same, until nothing more is put.
    fn attend<R: Wait, W: Write + Drop>(mut self, rt: &R, mut to: W) {
        for _ in rt.forever() {
            let is_over = self.bell.is_over();
            self.write_all(&mut to);
            if is_over {
                self.bell.finish();
                return;
            }
            self.bell.wait(rt);
        }
        unreachable!()
    }

    /// Writes what was put by now.
    fn write_all<W: Write>(&mut self, to: &mut W) {
        let mut bytes = [0u8; PIECE];
        for _ in 0..u64::MAX {
            let count = self.consumer.pop_partial_slice(&mut bytes);
            if count == 0 {
                return;
            }
            let _ = to.write_all(&bytes[..count]);
        }
    }
}

impl OpenRelay {
    /// Waits until all that was put is written, for a second at most: where nobody reads the stream by then, the thread is
    /// left behind, and what it has is lost with the process.
    pub fn close<R: Threads + Clock>(self, rt: &R) {
        let OpenRelay { bell, thread } = self;
        bell.end();
        for _ in 0..LONGEST_END / LOOK {
            if bell.is_done() {
                thread.join(rt);
                return;
            }
            thread::sleep(rt, Duration::from_millis(LOOK));
        }
    }
}
