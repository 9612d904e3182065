//! Runs of schedules over replicas of one program, with clients and stores in memory. It may use the runner of
//! `vr_schedules` and the public calls of `vr_replica`, and knows no rule of replication.
//!
//! ```rust
//! use vr_schedules::WorldEvent;
//! use vr_world::run_world;
//!
//! let events = [WorldEvent::Submit { client: 0, command }, WorldEvent::Deliver { message: 0 }];
//! let trace = run_world(alloc, &config, image, budget, &events).ok()?;
//! let count = trace.sent.len(); // 3: the REQUEST, and a PREPARE to each backup
//! ```
//!
//! Proved: the promise of one history, down to the answers of the table of commands, at each command's place for the
//! program in force there: the image's, and from a change that is `Done` on the one that it brought. It is said twice.
//! Of the trace and the events alone, whatever list of events is handed in (`IsOneHistory`): one list of requests, each
//! submitted, none before that, each once, a client's in rising order, lengths that never fall, and each released
//! answer at its request's place among the answers of one controller. And as what the protocol gives (`IsTraced`): the
//! trace is the report of a run of the events by new replicas, with no premise on members left, and the report explains
//! the run. `proofs/WorkedHistory` computes the first definition, and shows a trace that is none.
//!
//! Tests (nothing rests on them alone): a run of 200 scans with two view changes, a crash and a recovery is the row of
//! `long_schedule.rows` (`tests_rows`), for checkpoints never, after every command and after every 64.
#![tactic(auto)]

mod run;
mod seat;
mod shelf;

pub use run::run_world;
