//! What shows of a replica to other threads: its status and view, whether it's the primary, its starts, whether its store
//! failed, and whether its thread serves it; the words that are published for that, and what publishes and reads them.
//! Who has the replica publishes, and any thread reads, without waiting.
//!
//! ```rust
//! let mut writer = ShownWriter::new(alloc)?; // of a replica that was never started
//! let mut reader = writer.reader()?; // goes to another thread; `reader.another()?` is one more
//! writer.show_start(standing, Some(1)); // the first start was counted
//! let shown = reader.read(); // normal in view 0
//! ```
//!
//! Proved: what is read of words is what they were published for (`Shown::words`, `Shown::from_words`), and what a
//! writer published last is what it was told, by what showed before (`specs/Showing`).
//!
//! By the code of io_board alone: that what a reader reads is what the writer published (`board_rows` of
//! `tests_parts`).
#![tactic(auto)]

mod ends;
mod shown;

pub use ends::{ShownReader, ShownWriter};
pub use shown::{Shown, WORDS};
