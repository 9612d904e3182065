//! The laws of listings. There is no code here: the function's clause states the law, and its empty body is proved to
//! meet it.
//!
//! A law is used by naming it in a function whose clause rests on it; nothing in the repository does, since nothing
//! builds on this one:
//!
//! ```rust
//! laws_listing::a_listing_reads_back();
//! ```
//!
//! Proved: the listing of every program that has an image is a text that is read and resolved to that same program,
//! which is its own typed program (`specs/ReadBack`). So it assembles to the same bytes. Its first word tells whether
//! it's read as a plain text, as those of the first two versions of images, or as an extended one. It joins four crates
//! that don't know of one another: the lister with the reader, the declarations and the typing, each by its own
//! definitions.
//!
//! Tests (nothing rests on them alone): `images.rows` of `tests_rows` assembles listings again.
#![tactic(auto)]

ghost use Rattle.il_model.specs.Program.{Program};
ghost use Rattle.il_model.specs.Fits.{IsImage};
ghost use Rattle.laws_listing.specs.ReadBack.{ReadsBack};

/// The listing of a program that has an image is a text that is read as the same program: it is short enough, it has
/// the form of a text, its names are resolved to the program's own declarations and instructions, and typing changes
/// nothing.
pub fn a_listing_reads_back()
    ensures { (Q : Program) → IsImage Q → ReadsBack Q }
{}
