//! One scan: its inputs and its moment are latched, the program runs to its end, a breakpoint or a stop, and its
//! outputs are released; with values forced in place of inputs and outputs. It uses il_model and ctl_model (the
//! definitions), loader (the image) and machine, which alone performs instructions.
//!
//! ```rust
//! use il_model::{Budget, InImage};
//! use ctl_scan::{Breakpoints, ScanCycle};
//!
//! let mut cycle = ScanCycle::new(alloc, &image).ok()?;
//! let breaks = Breakpoints::none(alloc, image.len()).ok()?;
//! cycle.begin(&InImage::clear(), 0);
//! let out = cycle.run_to(&image, &breaks, Budget::new(10_000)?); // Done with the outputs, Held or Stopped
//! ```
//!
//! Proved: `begin`, `run_to`, `step`, `step_over`, `force`, `unforce`, `reset` and `warm` are their definitions
//! (`ctl_model/specs/Scan`), state and answer: before each instruction the end is tested, then the budget, then
//! the breakpoint. `carry_over` goes on from the scan cycle of another image with what a change of the program carries
//! over (`ctl_model/specs/Changes`). No call but `new`, `parts`, `from_parts` and `none` takes memory.
//!
//! Tests (nothing rests on them alone): `debugger.rows` and `scans.rows` of `tests_rows` hold scans, carry them on, and
//! force.
#![tactic(auto)]

mod breakpoints;
mod cycle;
mod force_table;
mod forces;
mod run;

pub use breakpoints::Breakpoints;
pub use ctl_machine::{fits_run, fits_values, has_type, have_states};
pub use ctl_model::ScanOut;
pub use cycle::ScanCycle;
