//! The listing of an image: its program as text, in one spelling. It may use the loader's image and the definitions of
//! il_model, and writes through any counted writer; it knows no file.
//!
//! ```rust
//! use io_model::Counted;
//!
//! let mut text = Vec::new(alloc);
//! il_lister::list(&image, &mut Counted::new(&mut text)).ok()?;
//! ```
//!
//! Proved: Ok wrote exactly the listing of the image's program (`specs/Listing`), over any writer that tells its bytes.
//! It answers Device only where the writer failed in that call, and then a prefix of the listing went out. It takes
//! no memory. That a listing is read as the same program is the law of `laws_listing`.
//!
//! Tests (nothing rests on them alone): `images.rows` of `tests_rows` has listings, `files.rows` of `tools/try/words`
//! an output that fails in the middle.
#![tactic(auto)]

mod declaration;
mod fault;
mod instruction;
mod listing;
mod literal;
mod operand;
mod words;
mod writing;

pub use fault::ListFault;
pub use listing::list;
