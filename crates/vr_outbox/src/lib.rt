//! What a durable replica says, on its way out: what its steps send waits in order until all that it took up is
//! flushed. It knows no file and no link: it's told what was put and which flush is over, and says which is due and
//! what may go out.
//!
//! ```rust
//! let mut outbox = Outbox::new(alloc);
//! outbox.take_up(sends, true)?; // a step was done, and what it took up was put: these wait for a flush
//! if outbox.is_flush_due() && outbox.begin_flush() {
//!     .. // the file is flushed; what is taken up meanwhile waits for the flush behind this one
//!     outbox.end_flush();
//! }
//! for message in outbox.hand_out(alloc) { .. } // all that waited, or nothing
//! ```
//!
//! Proved: `hand_out` gives all that waits, in order, where all that was put is flushed, and else nothing. And of any
//! list of these calls (`nothing_leaves_before_its_flush`): what was handed out, and behind that what waits, is what
//! came in, each message once and in order; and where something is handed out, all that was put by then was flushed, by
//! flushes that began behind it and are over.
//!
//! By its caller's code alone: that a flush was made between `begin_flush` and `end_flush`. A flush that failed is told
//! to no outbox: its replica is down, and its outbox is let go with it. No test rests here. Nothing calls it yet.
#![tactic(auto)]

mod laws;
mod outbox;
mod stage;

pub use laws::nothing_leaves_before_its_flush;
pub use outbox::Outbox;
pub use stage::Stage;
