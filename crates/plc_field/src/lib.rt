//! What `plc field` does: the cycle of a field (`field_cycle`) over sockets, with one poll for all of them. It looks at
//! its text only, or carries until all was read and written once, or until it's asked to stop by a socket of Unix.
//!
//! ```rust
//! run_field(host, text, Mode::Check, None, &mut out, &mut err)?; // what goes where, a line each; nothing is connected
//! let ended = run_field(host, text, Mode::Once, None, &mut out, &mut err)?; // what was read and written
//! // ended is `Ended::Lossy` where something was lost
//! run_field(host, text, Mode::Forever, page, &mut out, &mut err)?; // `coupler lost: timeout` goes to `err`
//! run_field(host, text, Mode::Stop, None, &mut out, &mut err)?; // ends the one that runs; outputs fell back
//! ```
//!
//! Nobody is to wait for who reads `err`: it's to be a writer that never waits, as `io_relay` has one.
//!
//! Proved: that it's safe, and waits in the poll alone. Tested by `tools/try/try-field`: devices and
//! controllers that fail in each way.
#![tactic(auto)]

mod control;
mod field;
mod notice;
mod page;
mod run;
mod stop;
mod table;
mod wire;

pub use run::{Ended, FieldError, Mode, run_field};
