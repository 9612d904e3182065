//! Records below the frames of a connection, so that its other end is known to be there: two bytes of a length, and so
//! many bytes of the frames. A record of length 0 is a beat, which says nothing else. `Records` stands between the ends
//! of a connection (`net_ends`) and any reader and writer that never waits.
//!
//! ```rust
//! use net_ends::{Inbox, NonBlocking, Outbox};
//! use net_records::Records;
//!
//! let mut records = Records::new(alloc, NonBlocking::new(stream)).ok()?;
//! outbox.flush(&mut records); // as over the stream itself
//! inbox.read(alloc, &mut records, &mut messages);
//! records.beat().ok()?; // nothing went for a while
//! let signs = records.signs(); // whether anything came or went since that was asked last, beats among it
//! ```
//!
//! Proved: what a read gives are the bodies of the records that come, joined, and what has come of the next; what a
//! write took comes as its records, whole, so a writer that holds whole records before holds them behind; a beat
//! changes neither, and is put between two records. Of a prefix of a stream a prefix of its bodies is given
//! (`know_records`).
//!
//! `tools/try/try-serve` tries streams of records, however they are cut.
#![tactic(auto)]

mod incoming;
mod laws;
mod outgoing;
mod place;
mod records;

pub use laws::know_records;
pub use records::{Records, Signs};
