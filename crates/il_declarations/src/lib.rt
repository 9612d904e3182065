//! Turns the text that was read into a program: names in capital letters, types, kinds of function blocks, locations,
//! operands by name. It stands on `il_reader` (what a text says) and `il_model` (programs); it judges no types of
//! operands and no fields.
//!
//! ```rust
//! let source = il_reader::read(alloc, text).ok()?;
//! let program = il_declarations::resolve(alloc, source).ok()?;
//! let count = program.code.len();
//! ```
//!
//! Proved: Ok gives the program that the source declares (`specs/Declaring`), exactly where it has no fault; else what
//! is told is the first of all faults that it has (`specs/TextFaults`, `specs/FirstFault`), with its place. The
//! program's names are lawful and distinct, its locations of their type, no two of which share a bit or a word, and its
//! first values lawful. REAL, WORD and DWORD, their literals and double words are known in extended texts alone
//! (`Source::dialect`). What a block declares is retained exactly where its qualifier is RETAIN. A name with dots is the
//! variable that is called so, or else a field, behind the last dot; no variable stands under an instance's name.
//!
//! Only tested: nothing; `texts.rows` of `tests_rows` has sources with their faults.
#![tactic(auto)]

mod coded;
mod declared;
mod fault;
mod initial;
mod instructions;
mod resolving;
mod variables;

pub use fault::{DeclError, DeclKind, Fault};
pub use resolving::resolve;
