//! The two ends of a connection that carries messages as frames of `vr_wire`: what goes out and what comes in, over any
//! writer and reader that never waits.
//!
//! ```rust
//! use net_ends::{Inbox, NonBlocking, Outbox};
//!
//! let mut wire = NonBlocking::new(stream); // counts the calls in which no byte went
//! let mut outbox = Outbox::new(alloc);
//! outbox.put(alloc, message).ok()?;
//! let is_open = outbox.flush(&mut wire); // writes what the writer takes; the rest waits
//! let mut inbox = Inbox::new(alloc).ok()?;
//! let flow = inbox.read(alloc, &mut wire, &mut messages); // one read, and the messages that are whole now
//! ```
//!
//! Proved: a message is put whole after what waits, or lost whole, exactly where it has no frame, where something waits
//! and it would be more than 1 MiB with it, or where memory runs out. A flush writes a prefix of what waits: all of it,
//! unless the writer paused or came to its end in the call, and the answer says which. What an inbox gives are the
//! messages whose frames it read, in whatever pieces; it's over only where the reader came to its end, where the bytes
//! are no frames, or where memory ran out for one piece a hundred times in a row. Where what one end has read is a
//! prefix of the frames that the other put, it gave a prefix of their messages, in order, and met no fault
//! (`only_sent_is_given`).
//!
//! By its code alone: that a `NonBlocking` counts a pause only where what is inside would block, and an end only where
//! that ended or failed. That TCP gives a prefix of what was written is the premise.
#![tactic(auto)]

mod inbox;
mod laws;
mod non_blocking;
mod outbox;

pub use inbox::{Flow, Inbox};
pub use laws::only_sent_is_given;
pub use non_blocking::{NonBlocking, NonBlockingRead, NonBlockingWrite, Stop};
pub use outbox::{Loss, Outbox};
