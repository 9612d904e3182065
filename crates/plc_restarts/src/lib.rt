//! How a controller goes on behind an outage: hot, as if there had been none; warm, where retained variables alone keep
//! their values; or cold (IEC 61131-3:2003, 2.4.2). It decides by values alone: it reads no clock, no log and no file.
//!
//! ```rust
//! use plc_restarts::{Clocks, LastScan, Restart, Restarts, first_command};
//!
//! let wanted = Restarts { kind: Restart::Warm, hot_within: 10_000 };
//! // a machine begins to lead: of its log's last scan it knows the last time that its journal has
//! let last = LastScan::Before(Some(written));
//! match first_command(wanted, last, Clocks { own, wall }, behind) {
//!     Some(command) => .., // Command::Warm: its first request, before any scan
//!     None => .., // it goes on
//! }
//! ```
//!
//! Proved: `age` is how old the last scan is, by the machine's own clock where this process took it up, else by the
//! wall clock and the last time that was written down; it has none where a clock went back, which is older than any
//! limit. `first_command` gives none where the controller never scanned, where a hot restart is wanted, where the last
//! scan is young enough, or where the log has a restart of that kind behind its last scan; and else the command that
//! makes one. So between two scans of the one log stands one restart at most, whoever begins to lead, how often and by
//! whatever clocks (`a_restart_is_made_once`).
//!
//! By its caller's code alone: that what it hands in is so, and that the command comes before any scan. Where entries
//! were put away behind a checkpoint their commands aren't seen: a restart that's made again then, with no scan
//! between, changes nothing. No test rests here. Nothing calls it yet.
#![tactic(auto)]

mod first;
mod laws;
mod outage;
mod restart;

pub use first::first_command;
pub use laws::a_restart_is_made_once;
pub use outage::{Clocks, LastScan, age, is_young};
pub use restart::{Restart, Restarts};
