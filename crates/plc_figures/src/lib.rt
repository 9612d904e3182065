//! What shows of a controller while it runs, as texts: figures for Prometheus, and one JSON object. All are values: it
//! opens no port and reads no clock.
//!
//! ```rust
//! let mut out = Vec::new(alloc);
//! put_metrics(&mut out, b"1.0.0", &reading)?; // "plc_scans_total 12\n", and what it is, a line each
//! put_state(&mut out, b"1.0.0", &reading)?; // {"version":"1.0.0","view":4, ..}
//! ```
//!
//! The parts of such texts are there, too, for whatever else shows: a family of figures, a string of JSON.
//!
//! Proved: each text is the definition's of what shows, each replica under its own number and each point's value beside
//! its own name, and nothing else (`specs/Metrics`, `specs/State`).
//!
//! Tests: `page.rows` of `tools/try/serving` have both texts, of controllers that go on, and of one that stopped.
#![tactic(auto)]

mod json;
mod metrics;
mod names;
mod reading;
mod state;
mod text;

pub use json::{put_code, put_comma, put_flag, put_string};
pub use metrics::{put_build, put_counter, put_family, put_metrics, sum_of};
pub use names::{phase_name, put_place, stop_name};
pub use reading::{
    BOUNDS, BUCKETS, Clients, EXCEPTIONS, FUNCTIONS, Halt, Machine, PLACES, Point, Process,
    Reading, Replica, Scans, Told,
};
pub use state::{put_notices, put_state, put_value_json};
pub use text::{put, put_number, put_seconds, put_signed, put_small_number, put_value};
