//! What a program's names are to whoever works with it: a table of them with their places and Modbus addresses, for
//! SCADA systems and spreadsheets, whether two programs are the same, and what a change from one to the other does to them.
//!
//! ```rust
//! use plc_symbols::{compare, names};
//!
//! let status = names(alloc, source, &mut out, &mut err); // "PUMP,BOOL,%QX0.0,discrete input,0", a line each
//! let status = compare(alloc, running, edited, &mut out, &mut err); // "another program", "goes on  LAST : INT", ..
//! ```
//!
//! Proved: the text that goes out is that of the typed program that the source says, by the tables of `specs/Symbols`;
//! two programs are told to be the same exactly where their images have the same bytes; a name goes on exactly where a
//! change of the program carries it over, by the definition of that change (`specs/Compared`). A source that is refused
//! is told by its first fault, and nothing is written.
//!
//! Tests (nothing rests on them alone): `names.rows` of `tests_rows`.
#![tactic(auto)]

mod calls;
mod comparing;
mod symbols;
mod words;

pub use calls::{Which, compare, first_fault, names};
