//! A file that is read whole and put in its place whole, so that it has the old bytes or the new ones wherever the
//! process is killed or the power is cut (`Shelf`); such files of the machine's disk (`FileShelf`); and a count that is
//! kept in one (`CountedFile`). It's meant to stand under all files of a machine's store, so that what a cut may leave
//! is said in one place. No crate uses it yet.
//!
//! ```rust
//! use io_shelf::{CountedFile, FileShelf, Shelf};
//!
//! let mut group = FileShelf::new(rt, "store", "group")?; // store/group, not read yet
//! let bytes = group.read()?; // None where it isn't there
//! group.replace(b"group 1")?; // on disk by now; where it fails the file has what it had, or these
//!
//! let mut starts = CountedFile::new(FileShelf::new(rt, "store", "starts")?);
//! let start = starts.count()?; // more than each that any process was ever answered
//! ```
//!
//! Proved: a file's value says what a kill or a power cut may leave, by what was read of the file and put there: behind
//! a change that was made just that, behind one that failed the old content or the new (`specs/Shelves`). A `FileShelf`
//! reads nothing else: where the disk gives other bytes, it fails. Counting gives one more than a count that may have
//! been left, which the file has by then; a kill at any moment of the call leaves the count before or one more, over
//! each shelf that tells its moments. So a later process finds what the one before left or what that was changing it to
//! (`later_starts_find_what_was_left`), and what is counted rises over all processes (`counts_rise`, `specs/Lives`).
//!
//! By its code alone: that a `FileShelf` does with the disk what its value says. It writes beside the file, flushes
//! that, puts it in the file's place and flushes the directory; it flushes the directory before it reads a file of
//! which it doesn't know what it has; and it changes none behind a change that failed before it has read it. A disk is
//! trusted to keep what was flushed, and to rename at once or not at all. Of two files no order is said.
//!
//! Only tested: nothing.
#![tactic(auto)]

mod counted_file;
mod file_shelf;
mod held;
mod laws;
mod memory_shelf;
mod shelf;

pub use counted_file::{CountFault, CountedFile};
pub use file_shelf::FileShelf;
pub use laws::{counts_rise, later_starts_find_what_was_left};
pub use memory_shelf::MemoryShelf;
pub use shelf::{Shelf, ShelfFault};
