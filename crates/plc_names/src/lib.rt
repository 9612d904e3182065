//! Commands by name, as an operator writes them: what they mean to the controller of a program, and what it answers.
//!
//! ```rust
//! use plc_json::commands;
//! use plc_names::meant;
//!
//! // The slot of `START`, if the program has it; else a slot that no program has, and the controller refuses it.
//! let command = meant(&image, commands(alloc, br#"[{"read":"START"}]"#)?.pop()?);
//! ```
//!
//! Proved: a name is that of its slot in the program in force at the command's turn; where it's no slot's, the command
//! is one that every program refuses. `answers_of` gives what the definitions give, one command after another.
//!
//! Tests (nothing rests on them alone): `debugger.rows` and `changes.rows` of `tests_rows` have names that are looked
//! up.
#![tactic(auto)]

mod naming;

pub use naming::{answer, answers_of, meant};
