//! How a group of machines begins anew once its history is lost, as after a power cut: its epochs. An epoch is a run of
//! its own: replicas begin normal in view 0 with empty logs, and no message of one epoch is taken in another. One
//! machine is a value that is told what comes, and when, and says what is to be done: it has no socket, no thread and
//! no clock.
//!
//! ```rust
//! let mut machine = ColdStart::new(place, &kept, image, starts, now); // as its store says
//! match machine.hear_word(from, &epoch, &word, now) { // or hear, hear_sign, hear_recovery, look, stored
//!     Step::Freezes(word) | Step::Confirms(word) | Step::Declines(word) => .., // said to that machine
//!     Step::Ends(epoch) | Step::Hears(epoch) => .., // close and drop all of the old epoch; store `machine.kept()`
//!     Step::Begins(_) => .., // store `machine.kept()`, then `machine.stored(..)`
//!     Step::Starts(epoch) => .., // a new replica, normal in view 0
//!     Step::Thaws(nonce) => .., // the replica crashes and recovers anew under this nonce, without a start
//!     Step::Refuses(epoch) | Step::FarAbove(epoch) | Step::OtherProgram(epoch) => .., // an operator is told
//!     _ => ..,
//! }
//! if machine.takes_answers() { .. } // else no RECOVERYRESPONSE is handed to the replica
//! let bytes = Visit { identity, epoch, from, word }.spell(alloc)?; // a word, as another machine gets it
//! let visit = Visit::read(bytes.as_slice()); // `None` where they aren't one
//! ```
//!
//! A machine that recovers, and knows that f others do, too, asks all others to freeze: to take no answer. Of f that do
//! it asks once more, each under the nonce that it told, whether they still are. If all of them are, then f+1 were
//! recovering and frozen at one moment, and no view of the epoch can be led behind it: that's the evidence with which
//! the next epoch is entered. Who hears of a later epoch leaves its own for it, unless its group goes on: then a
//! majority takes part in its own, itself with f others, or f+1 others that bring it back. Nobody leaves for an epoch
//! more than one above its own, or for one whose image its store hasn't: an operator has to say it. Nobody begins an
//! epoch before f others have entered it, or before its store has that.
//!
//! Proved (`specs/Table`, `specs/Recovering`, `specs/Epochs`): each call takes exactly the step of the table that what
//! comes and what the machine is call for, and else changes nothing. Words are taken of other machines of the group
//! alone, in the epoch that was begun alone; an answer counts only to the question asked under the present nonce, the
//! second also only of a machine that was asked, under the nonce that it told first. An epoch is begun only once the
//! store has it as begun, f others said hello in it, and the image in force here is its image. By hand a store goes to
//! the next epoch exactly where it has one. No hello changes a machine in whose epoch a majority takes part
//! (`no_hello_ends_a_group`). No step lets a store go back: an epoch that was begun is left for a later one alone, and
//! never entered again (`no_store_goes_back`). A machine that is frozen stays so, and doesn't recover, until it
//! recovers anew under a nonce that it never used, or leaves its epoch (`who_is_frozen_stays_so`).
//!
//! That the protocol keeps what it promises is no theorem here: `tools/prove/check-cold-start` looks at all states of a
//! model of it, within bounds. Rows of `tests_bytes` have who says what in which order.
#![tactic(auto)]

mod cold_start;
mod epoch;
mod kept;
mod laws;
mod recovery;
mod told;
mod visit;
mod word;

pub use cold_start::{ColdStart, Greeting, OthersHeard, Phase, Place, Step};
pub use epoch::is_later;
pub use kept::{ByHandFault, Kept};
pub use laws::{no_hello_ends_a_group, no_store_goes_back, who_is_frozen_stays_so};
pub use recovery::{BEFORE_FREEZING, Question, Recovery};
pub use told::{Moment, RECENT, Told};
pub use visit::{VISIT, Visit};
pub use word::{Answer, Word};
