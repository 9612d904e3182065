//! What a durable replica keeps of what it took up: each input as the bytes of a record of its journal, and back. It
//! knows no file, and no replica.
//!
//! ```rust
//! let bytes = vr_kept::spell(alloc, &event)?; // before the step, which takes the event
//! sum = vr_journal::put(&mut pending, sum, Kind::Input, bytes.as_slice())?;
//! if vr_kept::is_base_due(length) { .. } // the file has grown long: the other one is begun, with a new base
//! .. // behind a power cut, of what a file keeps
//! let inputs = vr_kept::read_inputs(alloc, kept.inputs.as_slice())?; // those events, in order
//! ```
//!
//! A record of an input says 0 and the frame of a message, or 1 for a timeout, or 2 for a resend. A restart has none:
//! who goes on from a journal doesn't restart.
//!
//! Proved: `spell` gives the one spelling of its event, and fails by `NotKept` only where it has none; `read_input` gives
//! the event whose spelling some bytes are, and none exactly where they are none's; `read_inputs` does so with all of
//! them. And of every file (`what_was_taken_up_is_read`): no two events have one spelling, and of a file in which those
//! of some events were put, first of all that is read stand these events, in order.
//!
//! No test rests here. Nothing builds on it yet.
#![tactic(auto)]

mod fault;
mod inputs;
mod laws;
mod length;
mod message;

pub use fault::KeepFault;
pub use inputs::{read_input, read_inputs, spell};
pub use laws::what_was_taken_up_is_read;
pub use length::is_base_due;
