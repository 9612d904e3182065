//! What the parts of a served controller share: what an operator is told of it, and what shows of it. It starts no
//! thread, and knows none of the parts.
//!
//! ```rust
//! let Journals { mut driver, console, page, mut printer } = Journals::new(alloc)?; // one for each of three threads
//! driver.put(Notice::Down(2)); // it never waits; `driver.end()` ends the printer
//! printer.attend(&rt, &mut err); // "replica 2 down\n"
//! ```
//!
//! Proved: what is put into a journal is added behind what was put, or it's counted as lost where the journal has no
//! room; what is printed are, in order of each journal and each once, the lines of what was put, and at its end nothing
//! is left of the driver's (`specs/Journal`). What a status tells of a replica and of the scans is what the writer set and
//! counted by the publish whose words were read, and what it tells of a machine of a group is what was set last
//! (`specs/Published`, `specs/Scans`).
//!
//! By the code of io_board alone: that what a reader reads is what the writer published, and never half of two.
//!
//! Only tested: that what was put is printed at once (`tools/try/try-serve`), and what shows of a group that runs
//! (there, too).
#![tactic(auto)]

mod deed;
mod door;
mod feed;
mod group;
mod halting;
mod journal;
mod machine;
mod notice;
mod printer;
mod report;
mod scans;
mod status;

pub use deed::Deed;
pub use door::{DoorNotice, Doorway};
pub use group::GroupNotice;
pub use halting::{halt_in, note_halt};
pub use journal::{Journal, Journals};
pub use machine::MachineStatus;
pub use notice::{Notice, Why, tell_port};
pub use printer::Printer;
pub use report::{Counts, ReportFile, open_report, put_report};
pub use scans::{BOUNDS, BUCKETS, Halt, Scan, ScanStatus};
pub use status::{Status, StatusReader, StatusWriter};
