//! What was released, on its way to a file.

ghost use Rattle.std.specs.Prelude.{◌≡◌, IfOk};
ghost use Rattle.plc_trace.specs.Tracing.{IsEmpty, IsPut};

use crate::line::{Line, Traced};
use crate::writer::TraceWriter;
use rtrb::{Producer, RingBuffer};
use std::alloc::{AllocError, Global};
use std::sync::atomic::{AtomicBool, Ordering};
use std::sync::{Arc, Wait};
use std::thread::Parker;

/// So many releases find room that aren't written yet.
const ROOM: usize = 256;

/// What the two ends of a trace tell each other.
#[derive(Drop)]
pub(crate) struct Bell {
    parker: Parker,
    is_over: AtomicBool,
    has_failed: AtomicBool,
    has_ended: AtomicBool,
}

impl Bell {
    fn new() -> Bell {
        Bell {
            parker: Parker::new(),
            is_over: AtomicBool::new(false),
            has_failed: AtomicBool::new(false),
            has_ended: AtomicBool::new(false),
        }
    }

    /// Waits until it's rung, unless it was since it waited last.
    pub(crate) fn wait<R: Wait>(&self, rt: &R) {
        self.parker.park(rt);
    }

    /// Nothing more is to be written than what was put.
    pub(crate) fn end(&self) {
        self.is_over.store(true, Ordering::SeqCst);
        self.parker.unpark();
    }

    pub(crate) fn is_over(&self) -> bool {
        self.is_over.load(Ordering::SeqCst)
    }

    /// Nothing more is written.
    pub(crate) fn fail(&self) {
        self.has_failed.store(true, Ordering::SeqCst);
    }

    /// The thread that writes is at its end.
    pub(crate) fn leave(&self) {
        self.has_ended.store(true, Ordering::SeqCst);
    }

    /// Whether the thread that writes is at its end.
    pub(crate) fn has_ended(&self) -> bool {
        self.has_ended.load(Ordering::SeqCst)
    }
}

/// What one thread releases is put into it, in order. Where more is put than has room before it's written, what finds
/// none is counted, and the count goes with the next one that finds some: so whoever releases never waits.
#[derive(Drop)]
pub struct Trace {
    pub(crate) producer: Producer<Line>,
    bell: Arc<Bell>,
    /// How many found no room since the last one that did.
    pub(crate) left_out: u64,
}

/// A trace, and what writes it. Each may go to a thread of its own.
pub fn traced(alloc: Global) -> Result<(Trace, TraceWriter), AllocError>
    ensures { IfOk result (λ r. IsEmpty r.0 r.1) }
{
    let bell = Arc::new(alloc, Bell::new())?;
    let (producer, consumer) = RingBuffer::new(alloc, ROOM)?;
    let trace = Trace {
        producer,
        bell: Arc::try_clone(&bell)?,
        left_out: 0,
    };
    Ok((trace, TraceWriter { consumer, bell }))
}

impl Trace {
    /// Puts a release behind all that were put; where it finds no room it's counted. It never waits.
    #[tactic(auto, using(crate::proofs::Putting::line_told, crate::proofs::Putting::none_told))]
    pub fn put(&mut self, traced: Traced)
        ensures { IsPut traced self.old self.new }
    {
        let line = Line {
            traced,
            left_out: self.left_out,
        };
        if self.producer.slots() == 0 {
            self.left_out = self.left_out.saturating_add(1);
            return;
        }
        self.producer.push_reserved(line);
        self.left_out = 0;
        self.bell.parker.unpark();
    }

    /// Whether nothing more is written, since the file failed.
    pub fn has_failed(&self) -> bool {
        self.bell.has_failed.load(Ordering::SeqCst)
    }
}
