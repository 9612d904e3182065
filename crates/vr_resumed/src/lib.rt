//! A replica that goes on where another process of it stood: from its base, and by taking up again what it took up
//! since.
//!
//! ```rust
//! let new = Core::new(alloc, config, number, image, budget)?; // one that took up nothing
//! let inputs = .. // the events that were taken up behind the base, in order
//! match vr_resumed::resume(new, alloc, &marks, log, inputs)? {
//!     Some(replica) => .., // it is what it was
//!     None => .., // the base's log can't be restored
//! }
//! ```
//!
//! What it sends on that way is let go: it was handed out before, or is as a message that was lost. Its views are saved
//! already; its caller holds the store's view to them. `step` is one step of a replica whose caller saves its views.
//!
//! Proved: `step` does the rule of its event and says what that says, and where it fails the replica stands for what it
//! stood for; `take_up_again` leaves a replica that stands for what the record before becomes by the rules at just these
//! inputs, and `resume` so from each record of which marks and log are kept. Rules are functions, so that is the very
//! record that the process before stood for.
//!
//! By its caller's code alone: that views are saved before anything is handed out. No test rests here. Nothing calls it
//! yet.
#![tactic(auto)]

mod again;
mod resuming;
mod store;

pub use again::{step, take_up_again};
pub use resuming::resume;
