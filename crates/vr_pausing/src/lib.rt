//! A replica that goes on where another process of it stood: from what a store keeps of it at some moment, its marks
//! and its log, and from what it took up since, which is taken up again (`Replica::resumed` of vr_replica).
//!
//! ```rust
//! let marks = vr_pausing::marks_of(&core); // while it's normal
//! let log = core.log.copy(alloc)?;
//! .. // in another process
//! let new = Core::new(alloc, config, number, image, budget)?;
//! match vr_pausing::resume(new, alloc, &marks, log)? {
//!     Some(core) => .., // normal again, as it was
//!     None => .., // the log's checkpoint can't be restored
//! }
//! ```
//!
//! Proved: the marks and the log of a normal core are kept of each record of the rules that it stands for; and a core
//! that goes on from what is kept of a record stands for just that record. So to the rules nothing happened.
#![tactic(auto)]

mod marking;
mod resuming;

pub use marking::{Marks, marks_of};
pub use resuming::resume;
