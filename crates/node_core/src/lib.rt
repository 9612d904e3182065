//! A node of a group as two values, for a run by virtual time: `Host`, what the thread of its replica does, and `Node`,
//! what its driver does. Each is told what came and when, and says what is to be done, in order; neither has a clock, a
//! socket, a file or a thread. `sim_run` has whole groups of them; no machine that is served uses it.
//!
//! ```rust
//! let mut host = Host::new(setup, &kept, starts, now); // a life begins, from what the store has of epochs
//! host.step(alloc, now, HostEvent::Tick { near, reached }, &mut store, &mut deeds)?;
//! for deed in deeds { /* HostDeed::Send(message), Say { .. }, Begin, Keep(kept), Leave(kept), .. */ }
//! node.turn(alloc, now, host.shown(), &mut stage, &mut deeds)?; // NodeDeed::Send(sends), Publish(..), Open(view), ..
//! ```
//!
//! It shares with the program what decides: the replica (`vr_replica`), its timer (`GroupPatience`), what is done about
//! epochs (`ColdStart`), when the machine leads, submits and shows (`MachineDriver`). What its driver does is decided
//! by `plc_node_core`, and what follows of each step about epochs by `plc_host_core`; docs/PROVED.md says what of
//! plc_member these two decide, and what it decides itself. It has a copy of what joins the rest there, where it stands
//! between threads: when a replica starts, steps and shows, and the last scan of a log (`scans`). The copy differs in
//! two ways: a frozen replica is frozen in the very call that freezes it, and not between two threads; and what an
//! operator is told is left out. A stage is filled in the turn in which its machine begins to lead, and behind each
//! message that comes to a driver that one has a turn at once: so it is in the program. So a fault of the shared values
//! shows in it, and one of plc_member's own code only where these, or the copy, have it, too.
//!
//! Proved: a host whose life is over, and a node that has ended, do nothing any more (`Host::step`, `Node::turn` and
//! its other calls); no answer reaches a replica that is frozen (`Host::step`); which scan is the last of a log of
//! which no kept entry is one (`is_last`). Each call is safe and returns. What a node decides is proved in
//! `plc_node_core`, and what is done about epochs in `plc_host_core`; that each action is done, and told back,
//! is by code. All else is by its code alone, and tried by the seeds of `sim_group`.
#![tactic(auto)]

mod host;
mod joints;
mod keeping;
mod node;
mod scan_watch;
mod serving;

pub use host::{Host, HostDeed, HostEvent, HostSetup, Shown};
pub use node::{Ended, Node, NodeDeed, NodeSetup};
