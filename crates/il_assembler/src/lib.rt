//! From a program to the bytes of its image: the one spelling of a typed program, or its first fault. It uses il_model,
//! where the typing and the spelling are defined.
//!
//! ```rust
//! let program = il_declarations::resolve(alloc, source).ok()?;
//! let bytes = il_assembler::assemble(alloc, &program).ok()?;
//! ```
//!
//! Proved: Ok exactly where the program has a typed program, each bare number with the type of its place, and then with
//! exactly the bytes of that one's image; else the first fault of the least instruction that has one
//! (`specs/Assembled`). Each program has the one or the other, and never both (`a_program_is_typed_or_refused`). Of a
//! program that a text declares these bytes are an image, which the loader takes back (`image`).
//!
//! Only tested: nothing; `types.rows` and `images.rows` of `tests_rows` have faults, and images byte by byte.
#![tactic(auto)]

mod assembling;
mod constants;
mod encode;
mod fault;
mod laws;

pub use assembling::assemble;
pub use fault::AsmError;
pub use laws::a_program_is_typed_or_refused;
