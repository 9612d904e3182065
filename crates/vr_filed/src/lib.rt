//! A durable replica whose journal is in files: it says what is to be written where, and is told when that is flushed.
//! It knows no disk (vr_disk), no link and no clock.
//!
//! ```rust
//! let (bytes, sum) = begin(alloc, owner, generation, start, base.as_slice())?; // of vr_journal: a new file
//! .. // they're written from the beginning of the file that was not in use, and flushed
//! let mut filed = Filed::new(Durable::new(alloc, replica, sum, saved), file, bytes.len());
//! filed.take_up(alloc, event)?; // once or more
//! if let Some(writing) = filed.begin_flush(alloc) {
//!     perform(&mut disk, &writing)?; // here, or in another thread: a deed, and its completion
//!     filed.end_flush();
//! }
//! .. // the view's file, where `unsaved_view` gives one
//! for message in filed.hand_out(alloc) { .. }
//! ```
//!
//! A writing that failed is told by nothing: the value is let go then, which is to the group a power cut, and the
//! replica goes on from what stands in the files.
//!
//! Proved, for whatever records the file has (`specs/Filing`): `take_up` puts the event's record behind those that
//! wait; `begin_flush` gives just the bytes of all that wait, to be written where the file's records end, and only
//! while no writing is under way; `end_flush` makes these flushed; and `hand_out` hands something out only where all
//! that was taken up is flushed. What the replica is, and that each call is one of a life of the law of pauses, is as
//! in vr_durable. With `a_writing_goes_behind` and `cuts_keep_what_was_flushed` of vr_disk: what was handed out rests
//! on inputs that each later start finds.
//!
//! By its caller's code alone: that a writing is done before `end_flush` is called. No test rests here. Nothing calls
//! it yet.
#![tactic(auto)]

mod filed;

pub use filed::Filed;
