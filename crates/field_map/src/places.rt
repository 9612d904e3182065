//! Cells of an area of the controller that lie side by side.

ghost use Rattle.std.specs.Prelude.{◌≡◌, ◌+◌, ◌<◌, ◌≤◌};
ghost use Rattle.field_map.specs.Areas.{area_length, is_one_kind};

use il_model::{BITS, WORDS};

/// What a cell holds.
#[derive(Clone, Copy, Debug, PartialEq, Eq)]
pub enum Kind {
    /// A truth value: `%IXb.n` and `%QXb.n` are number 8b+n.
    Bits,
    /// A register of 16 bits: `%IWk` and `%QWk` are number k.
    Words,
}

impl Kind {
    /// How many cells of this kind an area has.
    pub fn area(self) -> usize
        ensures { result ≡ area_length self }
    {
        match self {
            Kind::Bits => BITS,
            Kind::Words => WORDS,
        }
    }

    /// Whether it's that kind, too.
    pub fn is(self, other: Kind) -> bool
        ensures { result ≡ is_one_kind self other }
    {
        match (self, other) {
            (Kind::Bits, Kind::Bits) | (Kind::Words, Kind::Words) => true,
            _ => false,
        }
    }
}

/// So many cells of one kind, from a number on. They are all in the area, and at least one.
#[derive(Clone, Copy, Debug, PartialEq, Eq)]
pub struct Places {
    pub kind: Kind,
    pub from: usize,
    pub count: usize,
    ghost some: { 0 < count },
    ghost inside: { from + count ≤ area_length kind },
}

impl Places {
    ghost use Rattle.field_map.specs.Filled.{are_apart};

    /// Whether they have no cell in common, if both are of one area.
    pub fn is_apart(&self, other: &Places) -> bool
        ensures { result ≡ are_apart self.now other.now }
    {
        !self.kind.is(other.kind)
            || self.from + self.count <= other.from
            || other.from + other.count <= self.from
    }
}
