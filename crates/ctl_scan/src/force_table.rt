//! The forces that a scan cycle keeps.

ghost use Rattle.std.specs.Prelude.{◌≡◌, true, is_some, unwrap_or, IfOk};
ghost use Rattle.ctl_model.specs.Forces.{with_forces, no_forces, put_force, lift_force};
ghost use Rattle.ctl_model.specs.Snapshots.{forced_slots, fit_forces};
ghost use Rattle.ctl_scan.specs.Kept.{AreMasks};

use crate::forces::{
    force, know_whole_forces, no_forces, restored_forces, saved_forces, unforce, with_forces,
};
use ctl_model::Forces;
use il_model::{Cells, ForcedSlot, Loc, Value};
use std::alloc::{AllocError, Global};
use std::marker::Model;

/// Forces, and whether there may be any: where there are none, cells are copied as they are.
#[derive(Drop)]
pub struct ForceTable {
    forces: Forces,
    may_force: bool,
}

impl Model for ForceTable {
    ghost use Rattle.ctl_model.specs.declared.forces.Forces.{Forces};
    ghost use Rattle.ctl_scan.specs.Kept.{MayForce};

    ghost Value = { Forces };

    ghost view = { λ t. t.forces };

    ghost invariant = { λ t. MayForce t.may_force t.forces };
}

impl ForceTable {
    /// No forces.
    pub fn none() -> ForceTable
        ensures { result ≡ no_forces }
    {
        ForceTable {
            forces: no_forces(),
            may_force: false,
        }
    }

    /// An equal one.
    pub fn copy(&self) -> ForceTable
        ensures { result ≡ self.now }
    {
        ForceTable {
            forces: self.forces,
            may_force: self.may_force,
        }
    }

    /// The forces of slots that rise and have values of their types.
    pub fn restored(slots: &[ForcedSlot]) -> ForceTable
        requires { fit_forces slots.now ≡ true }
        ensures { forced_slots result ≡ slots.now }
    {
        ForceTable {
            forces: restored_forces(slots),
            may_force: true,
        }
    }

    /// What is forced, rising by slot.
    pub fn saved(&self, alloc: Global) -> Result<Vec<ForcedSlot>, AllocError>
        ensures { IfOk result (λ v. v.items ≡ forced_slots self.now) }
    {
        saved_forces(alloc, &self.forces)
    }

    /// There is a place for the force of each input and output. For proofs; it does nothing.
    pub fn know_whole(&self)
        ensures { AreMasks self.now }
    {
        know_whole_forces(&self.forces);
    }

    /// The inputs with the forces laid over them.
    pub fn over_inputs(&self, cells: &Cells) -> Cells
        ensures { result ≡ with_forces self.now.input cells.now }
    {
        if self.may_force {
            with_forces(&self.forces.input, cells)
        } else {
            *cells
        }
    }

    /// The outputs with the forces laid over them.
    pub fn over_outputs(&self, cells: &Cells) -> Cells
        ensures { result ≡ with_forces self.now.output cells.now }
    {
        if self.may_force {
            with_forces(&self.forces.output, cells)
        } else {
            *cells
        }
    }

    /// Forces a location of the inputs or outputs; false, and nothing changed, where it is of another area, or the
    /// value isn't of its type.
    pub fn force(&mut self, loc: Loc, v: Value) -> bool
        ensures told { result ≡ is_some (put_force self.old loc v) }
        ensures forced { self.new ≡ unwrap_or (put_force self.old loc v) self.old }
    {
        self.may_force = true;
        force(&mut self.forces, loc, v)
    }

    /// Frees a location of the inputs or outputs; false, and nothing changed, where it is of another area.
    pub fn unforce(&mut self, loc: Loc) -> bool
        ensures told { result ≡ is_some (lift_force self.old loc) }
        ensures unforced { self.new ≡ unwrap_or (lift_force self.old loc) self.old }
    {
        self.may_force = true;
        unforce(&mut self.forces, loc)
    }
}
