//! A machine of a group that runs by virtual time: its clock, its disk, its process with the two values of `node_core`,
//! and the ends of its connections (`Machine`); the ways from each machine to each other one (`Lanes`); and what a
//! group is, as a seed draws it (`Setup`).
//!
//! ```rust
//! let disk = Disk::new(alloc, epoch); // formatted for that epoch
//! let mut machine = Machine::new(alloc, number, disk, clock, ends); // an end for each machine of its group
//! machine.boot(now);
//! let deeds = machine.begin(alloc, host_setup, now)?; // a life of it begins: what it does first
//! let deeds = machine.step(alloc, now, Box::new(alloc, HostEvent::Hello { from, epoch })?)?;
//! machine.cut(true); // its process ends; what its disk was writing is flushed
//! ```
//!
//! Proved: a write is flushed in its turn, or its disk is full and keeps what it has; a save of a view waits for a full
//! disk; a power cut loses what isn't flushed, and nothing else (`specs/Disks`).
//!
//! By its code alone: all else. Tried by the seeds of `sim_group`.
#![tactic(auto)]

mod disk;
mod ends;
mod lanes;
mod machine;
mod net;
mod setup;

pub use disk::{Disk, FIRST_PAUSE, Files, WRITE, Write};
pub use lanes::Lanes;
pub use machine::{Ending, Leaving, Machine, Owner};
pub use net::{End, Route, Segment, Signal, Wire};
pub use setup::{Asked, Program, Setup, setup_of};
