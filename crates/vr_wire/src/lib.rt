//! Frames of replication messages on a stream of bytes: `write` gives the frame of a message, a `Feed` takes a stream
//! in any pieces and gives the messages whose frames it is. It uses the messages of `vr_model` and the plain types of
//! `il_model`.
//!
//! ```rust
//! let frame = vr_wire::write(alloc, message).ok()?;
//! let mut messages = Vec::new(alloc);
//! vr_wire::Feed::new(alloc).feed(alloc, frame.as_slice(), &mut messages).ok()?; // that one message
//! ```
//!
//! Proved: `write` gives the frame of its message, BadFrame exactly where a part isn't lawful, TooLarge only above the
//! limit. A feed's messages and rest are those of the bytes so far, in any cut; a fault is answered for good, want of
//! memory changes nothing, and no frame is a prefix of another (`any_pieces`). `specs/Frames` has the one spelling of
//! each message, over those of its fields (`Fields`), of snapshots (`Snapshots`) and of logs with checkpoints (`Logs`).
//! A further message is a line in each of its tables, a reader in `specs/MessageReading`, and a clause in each table of
//! `proofs/Messages`; a further command likewise in `Fields` and `Reading`.
//!
//! Tests (nothing rests on them alone): `frames.rows` of `tests_bytes` cuts each stream at each byte. By its code
//! alone: what bytes of strangers can ask for. Entries are judged whole before memory is asked for, so those of no
//! message ask for none; those of a message ask once, at most 68 bytes for each of the body, since a command has its
//! input image in place, and once more for the image of each change. A checkpoint's lists grow while they are read: at
//! most ten bytes for each of theirs, and half a megabyte for the clients' answers; its image is asked for once.
#![tactic(auto)]

mod answer;
mod body;
mod bytes;
mod cells;
mod command;
mod fault;
mod feed;
mod field;
mod front;
mod lawful;
mod log;
mod message;
mod numbers;
mod request;
mod snapshot;
mod value;
mod writing;

pub use fault::{WireError, WireFault};
pub use feed::{Feed, any_pieces, only_framed_are_found};
pub use writing::write;
