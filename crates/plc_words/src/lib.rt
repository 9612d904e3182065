//! The words that the program is called with, read by `clap`. It knows the forms of a call and their texts of help, and
//! opens no file.
//!
//! ```rust
//! use plc_words::{Words, read_words};
//!
//! let words = read_words(alloc, &["plc", "run", "a.il", "b.json"]).ok()?; // Words::Run, with a budget of 10000
//! ```
//!
//! Proved: that it returns and is safe, that want of memory is told as such, and what is printed where words ask for no
//! work (`tell_words`). What words mean is `clap`'s, by that crate's statements; no clause here says which words give
//! which form.
//!
//! Only tested: the forms with their options and defaults (`words.rows` of `tests_rows`), and words that are refused and
//! the usage lines (rows of `tools/try/words`). Neither: the texts of help, which say by hand what `docs/FAULTS.md`
//! says.
#![tactic(auto)]

mod clients;
mod commands;
mod console;
mod error;
mod form;
mod forms;
mod help;
mod operators;
mod options;
mod places;
mod telling;

pub use console::{AskedConsole, Fetching, Origin, Place};
pub use error::WordsError;
pub use forms::{EpochProgram, VERSION, Words, read_words};
pub use operators::OperatorsAt;
pub use telling::tell_words;
