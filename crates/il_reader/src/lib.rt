//! Reads an Instruction List text: what it says, or its first fault with its line and column. It stands on `il_model`
//! (the operator words and the literals of each dialect) and knows no program, no type and no location.
//!
//! ```rust
//! let source = il_reader::read(alloc, b"LD %IX0.0\nST %QX0.0\n").ok()?;
//! let count = source.lines().len(); // 2
//! ```
//!
//! Proved: `read` answers Ok exactly where the grammar (`specs/Spelling`, `specs/Grammar`) has a source for the text,
//! and gives that one; else the first fault, and where (`specs/FirstFault`): a text over the limit of its dialect (2
//! MiB, or 8 MiB for an extended text) is too long at 1:1, any other has its fault at the first token with which no
//! text begins. Each text has one source or one fault, and never both (`a_text_is_read_or_refused`). A text that begins
//! with VAR_GLOBAL, which no colon follows, is an extended text: its blocks begin with that word, behind which RETAIN
//! or NON_RETAIN may stand, and it alone may have literals of REAL, WORD and DWORD, the operator words that came with
//! them, and names with dots, each of which is one token (`Source::dialect`). What reads the parts of a text is public
//! too, for texts that have more around them.
//!
//! Only tested: nothing; `texts.rows` and `first_path.rows` of `tests_rows` have texts with their faults.
#![tactic(auto)]

mod blocks;
mod calls;
mod contents;
mod dialect;
mod fault;
mod first_fault;
mod lexeme;
mod lines;
mod lists;
mod operands;
mod operations;
mod place;
mod reading;
mod source;
mod whole;

pub use blocks::{declarations_read, qualifier_read};
pub use contents::{
    Argument, Behind, Block, Call, Contents, Declaration, Line, Names, Operand, Operation,
    Operator, Qualifier,
};
pub use fault::{Failure, Fault, FaultAt, FaultKind, ReadError};
pub use first_fault::{a_text_is_read_or_refused, worked_faults};
pub use lexeme::{Class, Lexeme, Sign, next};
pub use lists::{Listed, many};
pub use operands::operand_read;
pub use operations::{at_line_stop, operation_read};
pub use place::{Place, place_of};
pub use reading::{expected, is, is_end, is_word, past_breaks, past_keyword, refused};
pub use source::{EXTENDED_TEXT_LIMIT, Source, TEXT_LIMIT, read};
