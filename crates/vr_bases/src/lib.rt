//! What a durable replica is at some moment, as the bytes of its journal's base, and back: its marks and its log. It
//! knows no file, and no replica.
//!
//! ```rust
//! let marks = vr_pausing::marks_of(&replica.core); // while it's normal
//! let base = vr_bases::spell(alloc, &marks, replica.core.log.copy(alloc)?)?;
//! let (bytes, sum) = vr_journal::begin(alloc, owner, generation, start, base.as_slice())?; // a new file
//! .. // behind a power cut, of what a file keeps
//! let base = vr_bases::read(alloc, kept.base.as_slice())?; // base.marks, base.log
//! ```
//!
//! In front stand its stored view, its nonce, how far each replica has acknowledged, whether its DOVIEWCHANGE is sent,
//! and who sent STARTVIEWCHANGE: 17 numbers of eight bytes, big-endian. Behind them stands the DOVIEWCHANGE that it
//! would send, as an input is kept: its view, its last normal view, its commit number and its log.
//!
//! Proved: `spell` gives the one spelling of these marks and this log; `read` gives marks and a log of which some bytes
//! are the spelling, and fails by another fault than `Memory` exactly where they are of none: `Torn` where they are
//! fewer than the marks have, else `Foreign`. And no two replicas have one base (`a_base_is_of_one`): so what was
//! spelled is what is read.
//!
//! No test rests here. Nothing builds on it yet.
#![tactic(auto)]

mod base;
mod fault;
mod laws;
mod marks;

pub use base::{Base, read, spell};
pub use fault::BaseFault;
pub use laws::a_base_is_of_one;
