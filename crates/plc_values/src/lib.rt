//! What an operator sees of a controller: the values of its variables and of its instances' fields, by their names, its
//! inputs as the scan had them and its outputs as the end of a scan at that moment would release them, and what is
//! forced. All is told of one snapshot; it opens no port and asks nobody.
//!
//! ```rust
//! let text = values(alloc, snapshot)?; // {"scans":12,"moment":1200,"phase":"idle", .. "variables":[{"name":"START", ..
//! let text = watched(alloc, snapshot, names.as_slice())?; // .. "values":[..]}, or plc: unknown name "STRAT"
//! ```
//!
//! Proved: each text is the definition's (`specs/Values`) of one controller, which the snapshot is of: no value of an
//! answer is of another scan, or of another controller. A value is what a read of its slot answers; an output's is %Q
//! with the forces over it, and 0 while the controller is stopped: what the end of a scan releases, and behind one what
//! it released (a law of `laws_values`). A name that the program doesn't have is told, and nothing else is.
//!
//! By its code alone: that a snapshot which a controller left is told, where there is memory.
//!
//! Tested: `page.rows` of `tools/try/serving` has the text of a controller with an instance, and of one of which inputs
//! and outputs are forced; a console is asked for both texts (`tools/try/try-serve`).
#![tactic(auto)]

mod entry;
mod head;
mod listing;
mod look;
mod outputs;
mod shown;
mod telling;

pub use telling::{values, watched};
