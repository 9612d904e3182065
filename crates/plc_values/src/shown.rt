//! What is seen of one slot.

use il_model::{Loc, Value};

/// What is seen of a slot: where its value lies, if it lies at a location, the value, if it has one, and whether that is
/// forced.
#[derive(Clone, Copy)]
pub(crate) struct Shown {
    pub(crate) place: Option<Loc>,
    pub(crate) value: Option<Value>,
    pub(crate) is_forced: bool,
}
