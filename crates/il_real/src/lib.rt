//! REAL (IEC 61131-3:2003, 2.3.1, table 10): the finite values of IEEE 754's binary32 with one zero, kept by their
//! patterns, so that equal values are equal bits. It uses no other crate of this repository.
//!
//! ```rust
//! use il_real::real_from;
//!
//! let tenth = real_from(b"0.1")?;
//! let sum = tenth.plus(real_from(b"0.2")?)?; // None where it isn't finite
//! assert_eq!(rt; sum.text().as_str(), "0.3");
//! ```
//!
//! Proved: sums, differences, products, quotients and roots are the exact results, rounded once to the nearest value,
//! ties to even (IEEE 754-2019, 4.3.1), by the standard's own definition (`lib.Ieee`); comparisons are those of the
//! numbers; a conversion from a whole number gives the nearest value, one to a whole number the nearest, ties to even,
//! or the one next to it towards 0; a literal gives the value nearest to the number that it writes, however long it is;
//! the text of a value is a function of it, and a literal that is read back as it.
//!
//! Only tested: that this text has as few digits as one can that is read back so (at a power of two it may have one
//! more), and that none is written by its pattern.
#![tactic(auto)]

mod arithmetic;
mod decimal;
mod literal;
mod real;
mod text;
mod whole;

pub use literal::real_from;
pub use real::Real;
pub use text::{RealText, a_text_is_read_back};
