//! A node of a group, as a value: when it leads, when it has the group scan, what its stage inherits, when its port
//! opens and closes, and how it ends. It knows no socket, no thread and no clock: it's told what came and when, and
//! says one action at a time, which is done before the next one is asked for.
//!
//! ```rust
//! let mut node = Node::new(Role::new(ScanClient::new(number, period, driver)));
//! node.look(&shown, now); // what its own replica shows, of one look
//! while let Some(action) = node.next_action(now) {
//!     match action {
//!         NodeAction::Does(Action::Fill) => node.fill(&mut stage, now),
//!         NodeAction::Does(Action::Submit) => .., // node.submit(alloc, &mut stage, now) gives what is sent
//!         NodeAction::Does(Action::Again) => .., // node.again(alloc, now), too
//!         NodeAction::Does(Action::Open(view)) => .., // then node.opened(), or node.refused(view, now)
//!         NodeAction::Does(Action::Close) | NodeAction::Ends(LastAction::Close) => .., // then node.closed()
//!         NodeAction::Ends(LastAction::Cut) => .., // then node.cut(now)
//!         NodeAction::Ends(LastAction::End(ending)) => return ending,
//!     }
//! }
//! match node.reply(&message) {
//!     Answered::Released(release) => .., // published, as old as its scan
//!     Answered::Held { shows } => .., // what is shown, if anything is, is as old as that scan
//!     Answered::Nothing => {}
//! }
//! ```
//!
//! Proved: what is said is due by the table of actions, and nothing is said only where
//! nothing is due (`IsDue`, `IsNodeDue`). Its stage gets what it inherits behind a closed port alone, and no sample is
//! taken before that; as long as its stage is still to get inputs, no scan waits and nothing is shown. What it submits
//! is one sample's scan, as of a machine that leads (`SubmitsScan`). Its port is to open only where outputs are shown,
//! and to close where none are. What ended it first stays, and from then on it only closes its port, cuts its
//! replica's link and ends; one that leaves its epoch ends so only once its replica is served no longer.
//!
//! `ScanClient::of_all` is for a process that has all replicas of its group, and drives from the beginning on; nothing
//! calls it yet: `plc_driver` has a pace of its own.
//!
//! By the code of whoever asks it: that each action is done before the next one is asked for, and told back once it's
//! done.
#![tactic(auto)]

mod deciding;
mod ending;
mod filling;
mod node;
mod role;
mod scan_client;
mod tries;

pub use ending::{End, Ending, Failure, LastAction};
pub use node::{Node, NodeAction, ShownReplica};
pub use role::{Action, PortState, Role};
pub use scan_client::{Answered, ScanClient};
pub use tries::Tries;
