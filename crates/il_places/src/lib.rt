//! From a position of a program, as debuggers count, to the line of its text, and back: where the instruction stands at
//! each position, and in a text of units the instance in whose body it does. It stands on the texts of `il_reader` and
//! `il_units`, and on what `il_text` tells.
//!
//! ```rust
//! use il_places::{Asked, locate, places_of};
//!
//! let places = places_of(alloc, text)?; // or the text's first fault
//! let place = places.place(612); // Some(Place { line: 13, column: 5 })
//! let instance = places.instance(612); // b"M7"
//! let status = locate(alloc, text, Asked::Line(13), &mut out, &mut err); // "612 13:5 M7", a line each
//! ```
//!
//! Proved: what is answered for a position is the origin of the instruction there, by the definition of an expansion's
//! origins (`specs/Origins`): an instruction of a body comes from its line in the block, in the instance that's called.
//! The lines that go out are those of the positions that are asked for, by `specs/Located`; a text that is refused, a
//! place without an instruction and a position that isn't there are told, and nothing is written. What is told of an
//! answer's position is told of texts of units alone (`texts_without_units_tell_no_places`).
//!
//! That an expansion is read as its lines, an instruction for each in their order, is a law of `laws_reading`.
//!
//! Tests (nothing rests on them alone): `where.rows` of `tests_rows` has the places of texts of both kinds.
#![tactic(auto)]

mod asked;
mod calls;
mod locating;
mod name;
mod origins;
mod places;
mod reaching;
mod standing;
mod tracing;

pub use asked::Asked;
pub use locating::locate;
pub use places::{Places, known_places, places_of};
pub use standing::{placed_text, put_answer, texts_without_units_tell_no_places};
