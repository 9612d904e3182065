//! Images from bytes: exactly the spellings of typed programs are loaded, each to its program. It uses il_model, where
//! the spelling and the typing are defined, and il_records, which reads the fields.
//!
//! ```rust
//! let image = il_loader::load(alloc, bytes.as_slice()).ok()?;
//! let same = image.bytes() == bytes.as_slice(); // true
//! ```
//!
//! Proved: `load` answers Ok exactly on the spelling of a typed program, and gives that program; else the first fault
//! in the order of reading, with its position (`exact`). `bytes` is that spelling, `copy` an equal image. The programs
//! that have an image are the well-formed ones (`know_well_formed`), and whatever reads images reads the same of all
//! bytes (`know_reading`). Each instruction's `Action` is the one that performs it, and of the instructions that
//! `straight` gives none but the first has a label, and they reach as far as the next label.
//!
//! Only tested: nothing; `images.rows` of `tests_rows` has images cut short, spoilt and too long.
#![tactic(auto)]

mod action;
mod declared;
mod grouping;
mod image;
mod instance;
mod judging;
mod label;
mod laws;
mod line;
mod linking;
mod loading;
mod numbers;
mod operands;
mod reading;
mod tables;
mod typing;
mod variable;
mod word;

pub use action::Action;
pub use il_records::{LoadError, LoadFault};
pub use image::Image;
pub use laws::{know_reading, know_well_formed};
pub use line::Line;
pub use loading::load;
