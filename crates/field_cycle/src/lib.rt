//! The cycle of a field, as a value that is told what comes, and when, and says what is to be done: connections,
//! requests and their deadlines, what is handed over to the controller, notices. It has no socket and no clock.
//!
//! ```rust
//! let mut cycle = Cycle::new(alloc, map)?;
//! while let Some(action) = cycle.act(now) {
//!     match action {
//!         Action::Connect(who, address) => .., // then `cycle.opened(who)`, or `cycle.failed(who, fault, now)`
//!         Action::Send(who, unit) => ..,
//!         Action::Close(who) => ..,
//!         Action::Tell(who, change) => .., // it's found, lost or back
//!     }
//! }
//! let is_good = cycle.came(who, &unit, now); // where it isn't, the connection is to be closed
//! let wait = cycle.until() - now; // unless something comes before
//! ```
//!
//! In each cycle the outputs of the controller are taken; then each device has a round: what is written there, and then
//! what is read. What a round gathered is handed over once it's whole. A device that is late costs the others nothing.
//!
//! A controller that was just connected has outputs of inputs that nobody handed over. So what it shows counts only
//! once two scans were released since the inputs of each device were handed over (`Passage`); till then the outputs
//! that were taken before count, as long as they are fresh, connected or not. A device that comes back has the same
//! rule for itself: it's only read, or written what its writings fall back to, until a scan that had its inputs was
//! released.
//!
//! Proved (`specs/Links`, `Passages`, `Stations`, `Rounds`, `Signs`, `Spans`): a reply is taken only of
//! the transaction and the unit that were asked, and as `modbus_wire` reads it; one to a request before is late or came
//! twice, and is skipped; what else comes is its named fault. What has no reply is asked again, so often as the device
//! says. A pause is 100 ms at first and doubles up to 5 s, until rounds were good for 5 s. A round takes what each
//! reply shows, step by step, and is handed over only once each step is done, whole; then it has what the replies show
//! (`know_a_round`). A round is begun with the outputs only while they are known and the device may be written them;
//! else by what the writings fall back to, if the device has outputs, and else it only reads. After a whole round
//! without outputs the device has none. What it was written counts as what it has, till it's lost or left, or all is to
//! be written again. Whatever is done, opened or fails, what is known of the controller's outputs stays
//! (`Cycle::act`, `opened`, `failed`), and of what comes only a showing after such a scan changes it (`came`). The next
//! address is tried at once. Replies, losses and times of rounds are counted (`Tally`, `Spans`).
//!
//! By its code alone, and shown by rows (`fields.rows` of `tests_bytes`): the order of what is done, notices, that a
//! late device doesn't hold up, and that no device is asked while the controller is lost and outputs fell back.
#![tactic(auto)]

mod controller;
mod cycle;
mod freshness;
mod hands;
mod laws;
mod link;
mod notices;
mod passage;
mod round;
mod signs;
mod spans;
mod station;

pub use controller::{Controller, Rhythm, Task};
pub use cycle::{Action, Cycle, Who};
pub use freshness::Freshness;
pub use hands::Hands;
pub use laws::know_a_round;
pub use link::{
    Asked, FIRST_PAUSE, GOOD, LONGEST_PAUSE, Link, LinkFault, Moment, Phase, TURN, Tally,
};
pub use notices::{Change, Notices};
pub use passage::{Pace, Passage, Showing};
pub use round::Round;
pub use signs::Signs;
pub use spans::{BOUNDS, BUCKETS, Spans};
pub use station::{Standing, Station};
