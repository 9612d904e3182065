//! Words that one thread publishes together, and any number of threads read without waiting: the writer waits for no
//! reader, and a reader for no one.
//!
//! ```rust
//! use io_board::BoardWriter;
//!
//! let mut writer = BoardWriter::new(alloc, [0, 0])?; // what is read until the first publish
//! let mut reader = writer.reader()?; // goes to another thread; `reader.another()?` is one more
//! writer.publish([7, 8]);
//! let words = reader.read(); // [7, 8]
//! ```
//!
//! Proved: what a writer has published last is what it was handed, and what a reader gives is what it keeps as read
//! last, so many words. Each call returns.
//!
//! By its code alone: that the words of a read are those of one publish, and never go back to an earlier one. No
//! contract follows a word from one thread to another; `board_rows` of `tests_parts` tries it with threads.
#![tactic(auto)]

mod board;

pub use board::{BoardReader, BoardWriter};
