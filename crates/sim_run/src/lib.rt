//! Whole groups of machines by virtual time: one thing happens at a time, and nothing else tells a run apart from
//! another one than its seed. A machine is the values of `node_core`, with real replicas, real values for connections
//! (`Course`, `judge`), its stage (`StageBook`) and clients; its disk is a value, and so are frames: no byte of one is
//! written or read.
//!
//! ```rust
//! let kinds = Kinds::none().with_word("crash")?; // which faults come: none, all, or those of some words
//! let run = Run { seed: 7, hours: 1, steps: None, is_traced: false, kinds };
//! let status = simulate(alloc, text, &group, &run, &mut out, &mut err);
//! // 0, and `out` ends with: seed 7 ran 3600000 ms in 5716487 steps: 3 machines, 35998 scans, ..
//! ```
//!
//! Or step by step: `World::new`, `begin`, `go_on` until some time, and `summary` says what was seen so far.
//!
//! Faults: a process is killed, a machine loses its power, stands still, is cut off, one way or both; segments are
//! lost, take longer, or come in another order over other connections; a disk is full, slow, read-only or lost; an
//! operator stops a machine, forces places and resets the program. Clients write the inputs that a program names, at
//! random by the seed, and count their writes in two words that it doesn't name. Left out: threads, sockets and files
//! themselves, changes of the program, field devices, pages, a console's session, one process with several replicas,
//! and a cold start by hand: a group begins anew by itself, whatever its file says.
//!
//! Checked at each step (`sim_checker`): each entry that a replica executes is that of its epoch's one history, which a
//! controller of its own executes, too; moments and what clients wrote never fall; each output is that of its scan; no
//! read shows less than one before. Behind the last fault all is well within 15 s, a takeover takes 250 ms and eight
//! times what a segment takes at most, a cold start 4 s from the last machine's start on; longer, where the times of a
//! group are (`Limits`).
//!
//! Proved: `simulate` ends with 0 only where nothing is wrong, and the line of what was seen stands last; each line's
//! text (`specs/Told`). Each call is safe and returns. All else is by its code alone: what happens, and that it's the
//! same for a seed each time, which the seeds of `sim_group` show, whose output is stored.
#![tactic(auto)]

mod driving;
mod group;
mod happening;
mod hosting;
mod inputs;
mod kinds;
mod limits;
mod lives;
mod net;
mod plan;
mod serving;
mod simulating;
mod site;
mod summary;
mod telling;
mod traffic;
mod trial;
mod troubles;
mod world;

pub use group::setup_of_group;
pub use inputs::Inputs;
pub use kinds::{Kind, Kinds};
pub use limits::Limits;
pub use simulating::{Run, simulate};
pub use summary::Summary;
pub use telling::{DifferenceLine, SummaryLine, TraceLine};
pub use trial::Trial;
pub use world::World;
