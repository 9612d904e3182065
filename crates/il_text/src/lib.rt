//! A text of the language as one thing: its image, or its first fault as a line and a status. What the program tells of
//! faults and of a controller's answers is written here, over any writer. It stands on the layers of the language
//! alone, and knows no JSON, no words of a call and no replicas.
//!
//! ```rust
//! use il_text::{ended, image};
//! use io_model::Counted;
//!
//! let image = image(alloc, b"LD %IX0.0\nST %QX0.0\n")?; // of its typed program
//! let mut err = Counted::new(io::stderr());
//! let status = ended(Err(Fault::Commands), &mut err); // 1, and `err` has "plc: commands\n"
//! ```
//!
//! Proved: `image` gives the image of the typed program that the text says, or the text's first fault in the first
//! layer that refuses it; a text of units says what the expansion of its program says. Each text has one typed program
//! or one fault, and never both (`a_text_means_one_thing`). A fault is told by its line and its status, and an answer
//! by its line: all of it goes out, or a device is told only where the writer failed.
//!
//! Tests (nothing rests on them alone): the rows of `tests_rows` have what texts and answers print.
#![tactic(auto)]

mod fault;
mod imaging;
mod layers;
mod line;
mod one_meaning;
mod telling;
mod units;

pub use fault::Fault;
pub use imaging::{image, image_bytes};
pub use line::{AnswerLine, put_line};
pub use one_meaning::a_text_means_one_thing;
pub use telling::{ended, put, put_numbered, tell};
pub use units::place_behind;
