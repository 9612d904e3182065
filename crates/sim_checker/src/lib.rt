//! What is said of a run of a group by virtual time: whether all that its replicas executed, released and showed is as
//! the table says (`Checker`), what is counted (`Tally`), and what is told, with a sum over all of it (`Journal`).
//!
//! ```rust
//! let mut checker = Checker::new(alloc, &image, budget, 3, Some(0))?; // three machines that run this program
//! checker.look(machine, &epoch, replica)?; // behind each step of a replica
//! checker.submitted(&epoch, &message, now)?; // what a machine's driver sends
//! let point = checker.released(&epoch, machine, &release)?; // where that stands in the epoch's history
//! checker.read(point); // a client read it
//! if let Some(wrong) = checker.wrong { /* the first thing that is wrong: Wrong::ReadWentBack, .. */ }
//! ```
//!
//! Each epoch has one history: the entries that a replica executed first at each place, which a controller of its own
//! executes, too. Any other replica has to execute the same ones; moments and what clients wrote never fall, and moments
//! go no faster than time; what is released is what that controller answers; and no read shows less than one before.
//!
//! Proved: the verdicts over two scans and over two places (`specs/Verdicts`), and that what was wrong first stays.
//!
//! By its code alone: that the checker asks for a verdict wherever it should; seen by wrong bodies of the values that
//! it watches.
#![tactic(auto)]

mod checker;
mod history;
mod journal;
mod tally;
mod verdicts;

pub use checker::Checker;
pub use journal::{Journal, Line, What};
pub use tally::Tally;
pub use verdicts::{Point, Wrong};
