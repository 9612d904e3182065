//! What the program does, over byte slices and writers: tests call it with slices and vectors, `main` with files and
//! streams. It may use every layer below, opens no file and knows no runtime.
//!
//! ```rust
//! use il_model::Budget;
//! use io_model::Counted;
//!
//! let (mut out, mut err) = (Vec::new(alloc), Vec::new(alloc));
//! let commands = br#"[{"scan":{"ix":[0],"iw":[],"moment":0}}]"#;
//! let status = plc_tool::run(
//!     alloc,
//!     b"LD %IX0.0\nST %QX0.0\n",
//!     commands,
//!     Budget::new(10_000)?,
//!     &mut Counted::new(&mut out),
//!     &mut Counted::new(&mut err),
//! ); // 0, and `out` is "outputs 1 QX0.0\n"
//! ```
//!
//! Proved: a status of 0 only with exactly the lines of the answers (`run`), the image's bytes (`asm`), the listing
//! (`list`) or the report of a run of the schedule (`sim`) written; 1 only where the text or the other file has the
//! fault that is told, and nothing else was written; 2 only with a prefix of it, and a device is told only where a
//! writer failed. Of a text of units `run` tells each position with its place, unless a command is a change.
//!
//! Tests (nothing rests on them alone): rows of `tests_rows` have every printed line, and `files.rows` of
//! `tools/try/words` has streams that fail.
#![tactic(auto)]

mod answering;
mod assembly;
mod calls;
mod changing;
mod events;
mod fault;
mod listing;
mod report;
mod running;
mod simulating;

pub use answering::answers;
pub use calls::{
    asm, first_fault, list, run, run_commands, run_without_commands, sim, sim_events,
    sim_without_schedule,
};
pub use changing::{change_lines, change_to};
pub use fault::fault_of;
pub use report::ReportLine;
pub use simulating::Group;
