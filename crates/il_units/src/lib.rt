//! Texts of units: functions and function blocks of one's own, and the program that uses them (IEC 61131-3:2003,
//! 2.5.1.3, 2.5.2.2 and B.1.5). It reads such a text and expands each unit: the extended text in which each call is
//! replaced by the body of what is called, with the names of its variables and instances under the instance's, so
//! that `il_reader`, `il_declarations` and all above take it as they take any text. It stands on `il_reader` and
//! `il_model`.
//!
//! ```rust
//! let units = il_units::read(alloc, text)?;
//! let mut above = Vec::new(alloc);
//! for unit in units.units() {
//!     let flat = flattened(alloc, units.text(), above.as_slice(), unit)?; // what it means beside those above it
//!     let expansion = flat.expansion(alloc)?; // its extended text, standing alone
//!     let place = units.place(expansion.origin(120)); // where the 120th byte of that comes from
//!     above.push(flat)?;
//! }
//! ```
//!
//! The expansion of the last unit is the program's.
//!
//! Proved: `read` answers Ok exactly where the grammar has units for the text (`specs/Spelling`), and gives those; else
//! the first fault, and where (`specs/FirstFault`). `flattened` gives the unit that is defined (`specs/Expansion`), or
//! the first fault of a unit that its expansion doesn't show (`specs/Misuse`).
#![tactic(auto)]

mod bodies;
mod calls;
mod choices;
mod contents;
mod expansion;
mod fault;
mod flat;
mod members;
mod misuse;
mod reading;
mod scope;
mod units;
mod whole;
mod word;

pub use contents::{Section, SectionKind, Step, Unit, UnitKind, UnitLine, Units};
pub use expansion::{Expansion, Origin};
pub use fault::{UnitError, UnitFault, UnitFaultAt};
pub use flat::Flat;
pub use reading::has_units;
pub use units::flattened;
pub use whole::read;
