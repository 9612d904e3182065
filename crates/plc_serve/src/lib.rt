//! A controller that Modbus clients drive, from its text to its end: the text is judged, then the directories of its
//! stores are taken, the controller served (`plc_node`), and its report written. It knows no command words and names no
//! runtime.
//!
//! ```rust
//! let host = Host { rt, alloc };
//! let service = Service::new(host, "motor.il", &["stores"], settings, None)?; // no page
//! let mut file = Counted::new(ReportFile::at(&rt, None)); // no report is wanted
//! let status = serve::<Brand, _, _, _, _, _>(host, NewList::new(), service, &mut file, &mut out, &mut err);
//! // 0 after so many scans as the settings ask for
//! ```
//!
//! Proved: 0 only for a text without a fault, after as many scans as are asked for, with the line of its scans written,
//! and on `err` the line of a port, those of what changed, and nothing else; 1 only with the line of a fault of the
//! text or of a directory that was used, and with `out` and `report` as they were; 2 only with a line that tells what
//! failed (`specs/Serving`).
//!
//! Only tested: how threads, channels, sockets and locks are joined, and what a client sees of it
//! (`tools/try/try-serve`, `tools/try/try-clients`).
#![tactic(auto)]

mod failing;
mod service;
mod serving;

pub use failing::tell_failed;
pub use service::Service;
pub use serving::serve;
