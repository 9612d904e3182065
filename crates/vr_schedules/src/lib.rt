//! Runs of schedules: clients, replicas and stores in memory, and every message that was ever sent. What a replica is,
//! it knows by the trait `Member` alone.
//!
//! ```rust
//! use vr_schedules::{WorldEvent, run_schedule};
//!
//! let events = [WorldEvent::Timeout { replica: 1 }, WorldEvent::Deliver { message: 0 }];
//! let trace = run_schedule(alloc, config, members, &events).ok()?; // a `Member` for each number: `vr_world` has one
//! ```
//!
//! Proved, over members that keep the contract of `Member`: Ok only with a trace that is the report of a run of these
//! events, with exactly the losses that it lists, and the report explains the run (`specs/Traces`): one list of
//! requests, how long it was after each event, and each release with the answer of the commands up to its place.
//! `BadSchedule` exactly at the first event that can't take place, with the lowest reason; else memory ran out.
//!
//! Tests (nothing rests on them alone): `schedules.rows` and `long_schedule.rows` of `tests_rows` have reports that
//! were known before, each with checkpoints never, after every command and after every 64.
#![tactic(auto)]

mod client;
mod event;
mod fault;
mod member;
mod schedule;
mod store;
mod trace;
mod world;

pub use event::WorldEvent;
pub use fault::{Reason, WorldError};
pub use member::Member;
pub use schedule::run_schedule;
pub use store::{Kept, MemoryStore};
pub use trace::{Release, Trace};
