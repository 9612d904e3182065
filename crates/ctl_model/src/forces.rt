//! Forces: values that stand in the place of inputs and outputs.

use il_model::{BITS, WORDS};

/// For each cell of an area the value that is forced there, or none.
#[derive(Clone, Copy, PartialEq, Eq)]
pub struct Mask {
    pub bits: [Option<bool>; BITS],
    pub words: [Option<i16>; WORDS],
}

/// The forces of `%I` and `%Q`.
#[derive(Clone, Copy, PartialEq, Eq)]
pub struct Forces {
    pub input: Mask,
    pub output: Mask,
}
