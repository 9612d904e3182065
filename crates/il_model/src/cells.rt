//! The cells of an area of the controller, and the images of inputs and outputs.

use crate::limits::{BITS, WORDS};

/// The cells of one area: its bits, and its words of 16 bits, signed.
#[derive(Clone, Copy, Debug, PartialEq, Eq)]
pub struct Cells {
    pub bits: [bool; BITS],
    pub words: [i16; WORDS],
}

impl Cells {
    ghost use Rattle.std.specs.Prelude.{◌≡◌};
    ghost use Rattle.il_model.specs.Locations.{clear_cells};

    /// All bits FALSE and all words 0.
    pub const fn clear() -> Cells
        ensures { result ≡ clear_cells }
    {
        Cells {
            bits: [false; BITS],
            words: [0; WORDS],
        }
    }
}

/// An input image: the cells of `%I` (IEC 61131-3:2003 2.4.1.1).
#[derive(Clone, Copy, Debug, PartialEq, Eq)]
pub struct InImage {
    pub cells: Cells,
}

impl InImage {
    ghost use Rattle.std.specs.Prelude.{◌≡◌};
    ghost use Rattle.il_model.specs.Locations.{clear_inputs};

    /// All bits FALSE and all words 0.
    pub const fn clear() -> InImage
        ensures { result ≡ clear_inputs }
    {
        InImage {
            cells: Cells::clear(),
        }
    }
}

/// An output image: the cells of `%Q` (IEC 61131-3:2003 2.4.1.1).
#[derive(Clone, Copy, Debug, PartialEq, Eq)]
pub struct OutImage {
    pub cells: Cells,
}

impl OutImage {
    ghost use Rattle.std.specs.Prelude.{◌≡◌};
    ghost use Rattle.il_model.specs.Locations.{safe_image};

    /// The safe image: all bits FALSE and all words 0.
    pub const fn safe() -> OutImage
        ensures { result ≡ safe_image }
    {
        OutImage {
            cells: Cells::clear(),
        }
    }
}
