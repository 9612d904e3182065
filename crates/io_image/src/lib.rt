//! The process image of a plant, as threads share it: the staged inputs, each write of which stands whole in the next
//! sample, and the released outputs, whose readers wait for nobody and never go back. It stands on the cells of
//! `il_model`, and knows no program, no replication and no field protocol.
//!
//! ```rust
//! use io_image::StageBook;
//!
//! let mut book = StageBook::new(alloc);
//! let ticket = book.write_words(3, &[7, -2]); // Ok, with ticket 0; behind a lock: `Stage`
//! let sample = book.sample(); // %IW3 is 7, %IW4 is -2, and the next ticket is 1
//! ```
//!
//! Proved: over any list of calls each write that got a ticket stands whole, in ticket order, in the first sample after
//! it (`each_sample_holds_its_writes`); a refusal changes nothing. A `read` of the outputs shows the last release of a
//! list of which all that this reader saw before is a prefix; of what a writer told and a reader saw, one is a prefix
//! of the other (`agree`). Outputs that were released longer ago than a limit are stale (`is_stale`).
//!
//! Tests alone show that each call of a `Stage` is one hold of its lock, and one call of its book (`process_image_rows`
//! of `tests_parts`, by threads, in many rounds). That a reader waits for nobody is `left_right`'s. That a `Stamp` has the
//! time of the last release is by its code alone.
#![tactic(auto)]

mod book;
mod calls;
mod copies;
mod ends;
mod list;
mod release;
mod staging;
mod stamp;

pub use book::{Sample, StageBook, StageError, Ticket, Written};
pub use calls::each_sample_holds_its_writes;
pub use copies::{Pen, SharedPen};
pub use ends::{PublishError, ReleasedReader, ReleasedWriter, Told, Unmade, agree, released};
pub use list::{Naming, NewList};
pub use release::{Release, View};
pub use staging::{Stage, StageHandle, Staging};
pub use stamp::{Ages, MarkingPen, Stamp, is_stale};
