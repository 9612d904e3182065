//! What a device's cells are to the places of the controller.

ghost use Rattle.std.specs.Prelude.{◌≡◌, true};
ghost use Rattle.field_map.specs.Areas.{is_whole};

use crate::layout::{Form, Layout};
use crate::places::Places;
use il_model::Cells;
use modbus_wire::Table;

/// What becomes of cells while nobody says what they should be.
#[derive(Clone, Copy, Debug, PartialEq, Eq)]
pub enum Fallback {
    /// They stay as they are.
    Hold,
    /// They are FALSE and 0.
    Zero,
}

/// Cells of a device that are read, and the places of `%I` that take them, as many and of the same kind.
#[derive(Clone, Copy, Debug, PartialEq, Eq)]
pub struct Reading {
    /// Coils and holding registers, or discrete inputs and input registers.
    pub table: Table,
    /// The first cell that is read.
    pub address: u16,
    pub places: Places,
    /// How its registers are taken.
    pub layout: Layout,
    /// What its values are, for whoever looks at them.
    pub form: Form,
    ghost whole: { is_whole layout places.kind places.count ≡ true },
}

/// Cells of a device that are written, coils or holding registers, and the places of `%Q` that they are taken from.
#[derive(Clone, Copy, Debug, PartialEq, Eq)]
pub struct Writing {
    /// The first cell that is written.
    pub address: u16,
    pub places: Places,
    /// How its registers are taken.
    pub layout: Layout,
    /// What its values are, for whoever looks at them.
    pub form: Form,
    /// Whether it's written only where the device doesn't have its values yet.
    pub on_change: bool,
    /// What is written while the controller isn't fresh.
    pub on_stop: Fallback,
    ghost whole: { is_whole layout places.kind places.count ≡ true },
}

/// The outputs that a device is to have.
#[derive(Clone, Copy, Debug, PartialEq, Eq)]
pub struct Outputs {
    /// None: they aren't known, and it's to have what its writings fall back to.
    pub known: Option<Cells>,
    /// Those that it was written, and has. None: nothing is known of that.
    pub written: Option<Cells>,
}
