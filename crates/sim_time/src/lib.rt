//! What a run by virtual time is made of that knows nothing of what runs: what is to happen and in which order
//! (`Agenda`), numbers at random by a seed (`Draws`), times (`micros`), and clocks that differ (`Clock`).
//!
//! ```rust
//! let mut agenda = Agenda::new(alloc);
//! agenda.put(20 * MS, Happening::Read)?; // at that time, behind all that was put in for it before
//! while let Some(((now, _), what)) = agenda.take() { /* what happens next, and when */ }
//! let delay = draws.between(MS, 3 * MS); // the same seed draws the same numbers
//! ```
//!
//! Proved: what is taken is the earliest that was put in, and of one time what was put in first; all else stays. A
//! number that is drawn is within its bounds. Microseconds are told exactly.
//!
//! By its code alone: which numbers a seed gives, and how far two clocks are apart.
#![tactic(auto)]

mod agenda;
mod clock;
mod draws;
mod times;

pub use agenda::{Agenda, Due};
pub use clock::Clock;
pub use draws::Draws;
pub use times::{MS, SECOND, micros, micros_of};
