//! What is told of a controller before its values.

ghost use Rattle.std.specs.Prelude.{◌≡◌, OnOk};
ghost use Rattle.plc_figures.specs.Texts.{IsAdded};
ghost use Rattle.plc_values.specs.Values.{break_json, breaks_json, force_json, forces_json, head_json, phase_name};

use crate::entry::put_place_json;
use il_model::{ForcedSlot, Loc, SavedPhase, Snapshot};
use plc_figures::{put, put_comma, put_number, put_value_json};
use std::alloc::AllocError;

/// The word for whether a scan is open.
fn phase_name(phase: SavedPhase) -> &'static [u8]
    ensures { result.now ≡ phase_name phase }
{
    match phase {
        SavedPhase::Idle => b"idle",
        SavedPhase::Held { .. } => b"held",
        SavedPhase::Stopped(_) => b"stopped",
    }
}

/// Adds a force at this place of a list.
fn put_force(out: &mut Vec<u8>, number: usize, force: &ForcedSlot) -> Result<(), AllocError>
    ensures { OnOk result (IsAdded out.old.items (force_json (number, force.now)) out.new.items) }
{
    put_comma(out, number)?;
    put(out, b"{\"place\":")?;
    put_place_json(out, Loc::of_code(force.slot.0))?;
    put(out, b",\"value\":")?;
    put_value_json(out, force.value)?;
    put(out, b"}")?;
    Ok(())
}

/// Adds what is forced.
fn put_forces(out: &mut Vec<u8>, forces: &[ForcedSlot]) -> Result<(), AllocError>
    ensures { OnOk result (IsAdded out.old.items (forces_json forces.now) out.new.items) }
{
    for (number, force) in forces.iter().enumerate() {
        put_force(out, number, force)?;
    }
    Ok(())
}

/// Adds the position of a breakpoint at this place of a list.
fn put_break(out: &mut Vec<u8>, number: usize, position: u16) -> Result<(), AllocError>
    ensures { OnOk result (IsAdded out.old.items (break_json (number, position)) out.new.items) }
{
    put_comma(out, number)?;
    put_number(out, u64::from(position))?;
    Ok(())
}

/// Adds where breakpoints are.
fn put_breaks(out: &mut Vec<u8>, positions: &[u16]) -> Result<(), AllocError>
    ensures { OnOk result (IsAdded out.old.items (breaks_json positions.now) out.new.items) }
{
    for (number, position) in positions.iter().enumerate() {
        put_break(out, number, *position)?;
    }
    Ok(())
}

/// Adds what is told of a controller before its values.
pub(crate) fn put_head(out: &mut Vec<u8>, snapshot: &Snapshot) -> Result<(), AllocError>
    ensures { OnOk result (IsAdded out.old.items (head_json snapshot.now) out.new.items) }
{
    put(out, b"{\"scans\":")?;
    put_number(out, snapshot.count)?;
    put(out, b",\"moment\":")?;
    put_number(out, snapshot.moment)?;
    put(out, b",\"phase\":\"")?;
    put(out, phase_name(snapshot.phase))?;
    put(out, b"\",\"position\":")?;
    put_number(out, u64::from(snapshot.position))?;
    put(out, b",\"breaks\":[")?;
    put_breaks(out, snapshot.breaks.as_slice())?;
    put(out, b"],\"forces\":[")?;
    put_forces(out, snapshot.forces.as_slice())?;
    put(out, b"]")?;
    Ok(())
}
