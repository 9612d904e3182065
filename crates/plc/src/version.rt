//! What is printed where the version is asked for. `tools/gate/sources --write` writes this file, whenever a source is
//! another; its `--check` looks.

/// The version, and the sum of the sources of this program: SHA-256 over the lines of crates.txt of this crate and all
/// below it, and their src, specs and proofs, but for this file. `tools/gate/sources --list` prints what it's taken of.
pub(crate) const PRINTED: &str =
    "plc 0.1.0\nsources d1c4bc41ef4d010d3943e6d71b7b21176ee92c4dd551807a56a78c3da03962e9\n";
