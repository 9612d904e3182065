//! Sealed records below the frames of a connection between two machines that have a key: two bytes of a length, so many
//! bytes of the frames, and a sum (`net_keys`). A record of length 0 is a beat, which says nothing else. `SealedRecords`
//! stands between the ends of a connection (`net_ends`) and any reader and writer that never waits, as `Records`
//! (`net_records`) does where there is no key.
//!
//! ```rust
//! let mut records = SealedRecords::new(alloc, NonBlocking::new(stream), ends).ok()?; // `Ends` of net_keys
//! outbox.flush(&mut records); // as over the stream itself
//! records.push().ok()?; // what was sealed and not written yet
//! inbox.read(alloc, &mut records, &mut messages);
//! records.beat().ok()?; // nothing went for a while
//! let signs = records.signs(); // whether a record came or anything went since that was asked last
//! records.is_forged(); // whether it's over because a record was forged or damaged
//! ```
//!
//! Proved: of the bytes that came, behind those that waited, whole records stand first and nothing between, each opened
//! under the next number by the sum that stands behind its body. What is given are their bodies, in order, and the
//! other bytes wait (`specs/Coming`: `Reads`). For more bytes it waits only where no whole record is there. What is
//! taken is sealed under the next number, and its bytes wait until they are written (`specs/Going`). Of a whole
//! connection it follows that only what was sealed is opened, or a record was forged (`only_sealed_is_heard` of
//! `net_keys`); what that means of messages is in `laws_keys`. By its code alone: that a record which can't be opened, or
//! is longer than any that is sealed, ends the connection for good. Tested: that (rows of `tests_bytes`).
#![tactic(auto)]

mod incoming;
mod outgoing;
mod records;

pub use records::{SealedRecords, Signs};
