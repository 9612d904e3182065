//! Whether a snapshot fits an image and a budget.

ghost use Rattle.std.specs.Prelude.{◌≡◌, ◌&&◌, bytes_eq, length};
ghost use Rattle.ctl_model.specs.Commands.{forcible_at};
ghost use Rattle.ctl_model.specs.Snapshots.{fit_breaks, fits_location, fit_forces, is_at_rest, fits_phase, fits};
ghost use Rattle.il_model.specs.Image.{spelling};
ghost use Rattle.ctl_debugger.specs.Restored.{CanRestore};

use crate::controller::forcible_at;
use ctl_scan::{fits_run, fits_values, has_type, have_states};
use il_loader::Image;
use il_model::{Budget, ForcedSlot, SavedPhase, Slot, Snapshot, Value, loc_type};

/// Whether a slot is a location of `%I` or `%Q`, and the value of its type.
fn fits_location(value: Value, slot: Slot) -> bool
    ensures { result ≡ fits_location value (forcible_at slot.0) }
{
    match forcible_at(slot) {
        Some(loc) => match loc_type(loc) {
            Some(ty) => has_type(value, ty),
            None => false,
        },
        None => false,
    }
}

/// Whether the slots rise, and each is a location with a value of its type.
fn fit_forces(forces: &[ForcedSlot]) -> bool
    ensures { result ≡ fit_forces forces.now }
{
    let mut least = 0;
    for forced in forces {
        if (forced.slot.0 as u32) < least || !fits_location(forced.value, forced.slot) {
            return false;
        }
        least = forced.slot.0 as u32 + 1;
    }
    true
}

/// Whether the positions rise, and each is an instruction's.
fn fit_breaks(positions: &[u16], end: usize) -> bool
    ensures { result ≡ fit_breaks end positions.now }
{
    let mut least = 0;
    for position in positions {
        if (*position as u32) < least || *position as usize >= end {
            return false;
        }
        least = *position as u32 + 1;
    }
    true
}

fn is_at_rest(snapshot: &Snapshot) -> bool
    ensures { result ≡ is_at_rest snapshot.now }
{
    snapshot.cr.is_none() && snapshot.deferred.len() == 0 && snapshot.position == 0
}

/// Whether the open scan is before an instruction, with its types, and a held one has something left of its budget;
/// without one the machine is at rest.
fn fits_phase(image: &Image, budget: Budget, snapshot: &Snapshot) -> bool
    ensures { result ≡ fits_phase image.now budget.instructions snapshot.now snapshot.now.phase }
{
    match snapshot.phase {
        SavedPhase::Idle => is_at_rest(snapshot),
        SavedPhase::Held { performed } => {
            fits_run(image, snapshot) && performed < budget.instructions
        }
        SavedPhase::Stopped(_) => fits_run(image, snapshot),
    }
}

fn begins_with(image: &Image, snapshot: &Snapshot) -> bool
    ensures { result ≡ bytes_eq snapshot.now.image (spelling image.now) }
{
    snapshot.image.as_slice() == image.bytes()
}

/// Whether breakpoints, forces and an open scan are those of a controller of this image and this budget.
fn fits_debugging(image: &Image, budget: Budget, snapshot: &Snapshot) -> bool
    ensures { result ≡ (fit_breaks (length image.now.code) snapshot.now.breaks && (fit_forces snapshot.now.forces
        && fits_phase image.now budget.instructions snapshot.now snapshot.now.phase)) }
{
    fit_breaks(snapshot.breaks.as_slice(), image.len())
        && fit_forces(snapshot.forces.as_slice())
        && fits_phase(image, budget, snapshot)
}

/// Whether a snapshot begins with this image and is of a controller of it with this budget, the words of its blocks
/// aside.
pub fn fits(image: &Image, budget: Budget, snapshot: &Snapshot) -> bool
    ensures { result ≡ fits image.now budget.instructions snapshot.now }
{
    begins_with(image, snapshot)
        && fits_values(image, snapshot)
        && fits_debugging(image, budget, snapshot)
}

/// Whether a snapshot is one of a controller of this image and this budget, as `Controller::restore` judges it: then
/// only want of memory keeps it from being restored. It takes no memory.
pub fn can_restore(image: &Image, budget: Budget, snapshot: &Snapshot) -> bool
    ensures { CanRestore image.now budget.instructions snapshot.now result }
{
    fits(image, budget, snapshot) && have_states(snapshot.instances.as_slice())
}
