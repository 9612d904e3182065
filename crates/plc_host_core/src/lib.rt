//! What the thread of a replica decides, as values: what it does about the epochs of its group, and what reaches its
//! replica. It knows no socket, no clock and no disk: it's told what came and when, and says what is to be done.
//!
//! ```rust
//! let mut keeper = EpochKeeper::new(cold_start); // a life of a machine begins
//! if keeper.lets_through(&message) { .. } // else it's an answer to a replica that is frozen
//! match keeper.hear_word(from, &epoch, &word, now) { // or hear, hear_sign, hear_recovery, look, stored
//!     EpochAction::Answers(word) => .., // said to that machine
//!     EpochAction::Keeps(kept) => .., // the store is to have this; then `stored`
//!     EpochAction::Starts => .., // its replica starts, normal in view 0
//!     EpochAction::Thaws(nonce) => .., // its replica crashes, and recovers anew under this nonce
//!     EpochAction::Leaves(why, kept) => .., // this life is over: all of it is closed, and the store is to have this
//!     EpochAction::Tells(notice) => .., // an operator is told
//!     EpochAction::Rests => {}
//! }
//! ```
//!
//! Proved: each call takes the step of `plc_epochs` that its table has for it, and does what follows of that step
//! (`KeepsTo`, `action_by`); a life ends by the steps that say so alone, and once it's over, none of these calls does
//! anything. No answer to a RECOVERY reaches a replica that recovers and is frozen (`lets_through`), in whichever call
//! it was frozen.
#![tactic(auto)]

mod epoch_keeper;
mod reaching;

pub use epoch_keeper::{EpochAction, EpochKeeper, EpochNotice, LifeEnd, Question};
pub use reaching::{is_answer, recovering_in};
