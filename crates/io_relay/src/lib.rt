//! Lines on their way to a stream whose reader may be slow, or hang: a writer that never waits, and a thread that
//! writes to the stream behind it.
//!
//! ```rust
//! let (mut lines, relay) = relayed(alloc)?;
//! let relay = relay.open(&rt, rt.stderr())?; // its thread writes from now on
//! lines.write_all(b"replica normal view 0\n")?; // never waits: a line that finds no room is lost, and counted
//! relay.close(&rt); // all that was put is written, or the stream has hung for a second
//! ```
//!
//! A line of more than 512 bytes is sent in pieces, each as a line is.
//!
//! Proved: a line that is sent stands whole behind all that found room, and before it how many were lost; or nothing of
//! it does, and it's counted (`send`; `specs/Losing`). Each call of the writer is safe and returns.
//!
//! By its code alone: that each line that is written is sent, and that what found room is written, in that order.
#![tactic(auto)]

mod bell;
mod lines;
mod relay;

pub use lines::{Lines, relayed};
pub use relay::{OpenRelay, Relay};
