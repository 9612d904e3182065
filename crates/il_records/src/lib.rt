//! The fields of an image's records, each read of the bytes that begin with it: numbers, the header, names, first
//! values, constants; and the faults that an image may have. It uses il_model, where the spelling is defined. Whole
//! images are read by il_loader, which exports the faults too.
//!
//! ```rust
//! let (version, counts, rest) = il_records::header_at(bytes)?; // the first fault, where it isn't that of an image
//! ```
//!
//! Proved: each gives what its definition reads there, with the bytes behind it, or the first fault. So nothing is read
//! past the end, no name is longer than its version allows, and no constant is the same as one before it.
//!
//! Only tested: nothing; `images.rows` of `tests_rows` has images cut short, spoilt and too long.
#![tactic(auto)]

mod counts;
mod fault;
mod fields;

pub use counts::Counts;
pub use fault::{LoadError, LoadFault};
pub use fields::{
    agrees, constant_at, declared_at, first_value_at, header_at, lawful, spelled_name_at, u8_at,
    u16_at,
};
