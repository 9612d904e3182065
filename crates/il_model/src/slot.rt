//! Slots: what can be read or forced by its code.

/// The code of a directly represented location (IEC 61131-3:2003 2.4.1.1), a variable, or a field of a block instance.
#[derive(Clone, Copy, Debug, PartialEq, Eq, PartialOrd, Ord)]
pub struct Slot(pub u16);
