//! The two files of a durable replica's journal: a trait for what is done with them, its one implementation over std's
//! files, and what a power cut leaves of them. It knows no replica.
//!
//! ```rust
//! let mut disk = TwoFiles::open(&rt, alloc, "stores", 0)?; // stores/journal-0-0, stores/journal-0-1
//! let first = disk.read(alloc, File::First)?; // at a start
//! .. // a writing is a deed: where it's done its completion is told
//! match perform(&mut disk, &writing) {
//!     Ok(()) => .., // it's written and flushed
//!     Err(DiskFault) => .., // its replica is let go, and goes on from what stands in the files
//! }
//! ```
//!
//! A `Disk` tells what was done with it, in a ghost list: what was written, flushed and read. Both files are made once,
//! of zeros, and then written over: so a flush needs no new length, and old records that stand behind a file's end are
//! none of its own, as their sums are others (vr_journal).
//!
//! Proved: `perform` writes all bytes of a writing to its place, and flushes that file behind it; a writing whose place
//! is the end of a file's records puts its own behind them (`a_writing_goes_behind`); and of a file that a power cut
//! left while a writing was under way are kept its base, all inputs that were flushed, and behind them some first ones
//! of those that were being written, whatever bytes stand in their place (`cuts_keep_what_was_flushed`).
//!
//! Trusted of a disk, by name (`IsLeft`): what was flushed stands as it was written, and in no other bytes is a
//! record's sum right by chance. By code alone: that `TwoFiles` does with std's files what it's asked to; it tells
//! nothing. No test rests here. Nothing calls it yet.
#![tactic(auto)]

mod disk;
mod laws;
mod two_files;
mod writing;

pub use disk::{Disk, DiskFault, perform};
pub use laws::{a_writing_goes_behind, cuts_keep_what_was_flushed};
pub use two_files::TwoFiles;
pub use writing::Writing;
