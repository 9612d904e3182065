//! The journal of a durable replica, as bytes: what the replica was at some time, its base, and the inputs that it took
//! up since. It's kept in two files, of which one is in use. There are no files here, and what a base and an input say
//! is the caller's.
//!
//! ```rust
//! // at a start: what both files keep, of this owner (the group, its epoch and the machine, in bytes)
//! let first = Kept::read(alloc, owner, bytes_of_first)?;
//! let second = Kept::read(alloc, owner, bytes_of_second)?;
//! match choose(first, second) {
//!     Some((file, kept)) if kept.start + 1 >= start => .., // the base, and behind it the inputs
//!     _ => .., // none, or of a life that went on without it: the replica recovers from the others
//! }
//! // a new file: written whole, and flushed, before the other one is left
//! let (bytes, mut sum) = begin(alloc, owner, generation + 1, start, base.as_slice())?;
//! // and what is taken up, behind that
//! sum = put(&mut pending, sum, Kind::Input, input.as_slice())?;
//! sum = put_number(&mut pending, sum, Kind::Time, now)?;
//! ```
//!
//! A record is the length of its body in four bytes, a sum in eight, and the body: its kind, and what it says. The sum
//! is FNV-1a of 64 bits over the bodies of all records of the file up to this one. So a file may be written over: old
//! records behind its end, as of an earlier generation, have other sums. A file has a head, a start and a base, and
//! behind them inputs, further starts and times. It's read up to the first record that isn't whole, or whose sum is
//! wrong.
//!
//! Proved: `put` adds exactly a record's bytes, or nothing; `begin` gives those of a head, a start and a base; `read`
//! gives the records that stand in some bytes, up to where none does; `Kept::read` gives what they keep where they are
//! whole and this owner's, and else nothing; `choose` takes the greater generation. And of every file
//! (`what_was_written_is_read`, `what_was_written_is_kept`): what was written is read back whole and in order, whatever
//! stands behind it; of what was cut short a prefix of what was written is read; of zeros nothing. Where bytes were
//! changed, and not only cut off, a prefix of what was written is read if no sum over them is right by chance: that's
//! trusted, and `AreHonest` says it.
//!
//! No test rests here. That files keep what was flushed, and in which order they are written, is the caller's.
#![tactic(auto)]

mod choosing;
mod kept;
mod laws;
mod reading;
mod record;
mod writing;

pub use choosing::{File, choose};
pub use kept::Kept;
pub use laws::{what_was_written_is_kept, what_was_written_is_read};
pub use reading::{Found, read};
pub use record::{FIRST_SUM, Kind, Record};
pub use writing::{PutFault, begin, put, put_number};
