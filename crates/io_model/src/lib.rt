//! What the two ends of a stream owe: readers and writers that count their failures (`CountedRead`, `CountedWrite`),
//! and what a stream of frames is that comes in pieces (`specs/Streams`). It knows no language and no protocol, and
//! uses no other crate of this repository.
//!
//! ```rust
//! use io_model::{Counted, CountedWrite};
//!
//! let mut out = Counted::new(io::stdout());
//! write_all(&mut out, b"outputs 1 QX0.0\n")?; // DeviceFault: the device failed, and `out.faults()` rose
//! ```
//!
//! Proved: `write_all` writes all the bytes, or fails with a prefix of them written; for a format whose frames can be
//! told apart, a stream has one list of items, whatever pieces it comes in (`proofs/Streams`).
//!
//! By its code alone: that nothing but a failure of the reader or writer inside raises the count of a `Counted`.
#![tactic(auto)]

mod counted;

pub use counted::{Counted, CountedRead, CountedWrite, DeviceFault, write_all};
