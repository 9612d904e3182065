//! The trace of a machine, for trials: a line for each release, from the thread that releases to a file. Who holds what
//! the machines of a group released against each other, and against one controller, reads them.
//!
//! ```rust
//! let (mut trace, writer) = traced(alloc)?; // for two threads
//! let open = writer.open(host, Started { machine: 0, starts: 3 }, file)?; // "machine 0 start 3"
//! trace.put(Traced { epoch: 1, placed, number, answer }); // it never waits
//! // "1 17 12884901889 1700 0 outputs 16 QX0.0 QW1=250"
//! open.close(); // all that was put is written
//! ```
//!
//! Proved: what is put is added behind what was put, with how many were left out before it for want of room; what is
//! written are the lines of what was put, in order and each once, until the file fails, and each line is that of
//! `specs/Tracing`.
//!
//! By its code alone, and tested (`tools/try/try-machines`): that what was put is written at once, and that a file that
//! fails is told.
#![tactic(auto)]

mod line;
mod trace;
mod writer;

pub use line::{Placed, Started, Traced};
pub use trace::{Trace, traced};
pub use writer::{OpenTraceWriter, TraceWriter};
