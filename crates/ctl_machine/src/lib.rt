//! A machine that performs the instructions of a loaded image. It uses il_model and ctl_model (the definitions),
//! ctl_blocks (the blocks) and loader (the image).
//!
//! ```rust
//! use il_model::InImage;
//! use machine::Machine;
//!
//! let mut machine = Machine::new(alloc, &image).ok()?;
//! machine.start(&InImage::clear());
//! let out = machine.step(&image, 0); // Next, End or Stopped
//! ```
//!
//! Proved: `step` is the step of the definition, state and answer; it has no answer for a program that went wrong,
//! since there is none. So is each instruction that `run_straight` performs, at its position, behind the one before,
//! and it tells how many it performed, or that the last one ended the run or stopped it (`HasRun`). `reset` and `new`
//! give the cold state, and `warm` that of a warm start; `carry_over` goes on with what a change of the program carries
//! over; a snapshot's parts come back as the same machine.
//!
//! Tests (nothing rests on them alone): `machine_rows` of `tests_parts` runs three stores. In no clause: that
//! `run_straight` doesn't stop early for nothing; the figures in `bench/README.md` would show it.
#![tactic(auto)]

mod arrival;
mod carrying;
mod cells;
mod instance;
mod machine;
mod out;
mod parts;
mod shape;
mod state;

pub use arrival::has_type;
pub use machine::Machine;
pub use out::{RunOut, StepOut};
pub use shape::{fits_run, fits_values, have_states};
