//! The origins of a text of units, unit by unit.

ghost use Rattle.std.specs.Prelude.{◌≡◌, [], IfOk};
ghost use Rattle.il_units.specs.Units.{unit_text};
ghost use Rattle.il_units.specs.Expansion.{flat_of};
ghost use Rattle.il_places.specs.Origins.{trace_with, traces_from, program_origins};

use crate::calls::calls_in;
use crate::name::Name;
use crate::origins::{Origin, Trace, origins_of};
use il_units::{Flat, Unit, UnitError, Units, flattened};
use std::alloc::Global;

/// The trace of a unit that is flat.
fn trace_of(alloc: Global, traces: &[Trace], flat: &Flat, unit: &Unit) -> Result<Trace, UnitError>
    ensures { IfOk result (λ t. t ≡ trace_with traces.now flat.now (unit_text unit.now).lines) }
{
    let calls = calls_in(alloc, flat, unit.lines.as_slice())?;
    let origins = origins_of(alloc, traces, calls.as_slice(), flat)?;
    let name = Vec::from_slice(alloc, flat.name())?;
    Ok(Trace::of(Name::of(name), origins))
}

/// The traces of the units, each beside those above it.
#[tactic(auto, unfolding(crate::specs::Origins::traces_from))]
fn traces_of(alloc: Global, units: &Units) -> Result<Vec<Trace>, UnitError>
    ensures { IfOk result (λ v. v.items ≡ traces_from units.now.text [] [] units.now.units) }
{
    let mut above = Vec::new(alloc);
    let mut traces = Vec::new(alloc);
    for unit in units.units() {
        let flat = flattened(alloc, units.text(), above.as_slice(), unit)?;
        let trace = trace_of(alloc, traces.as_slice(), &flat, unit)?;
        above.push(flat)?;
        traces.push(trace)?;
    }
    Ok(traces)
}

/// The origins of the program of a text of units.
#[tactic(auto, using(crate::proofs::Last::last_of), unfolding(crate::specs::Origins::last_origins))]
pub fn program_origins(alloc: Global, units: &Units) -> Result<Vec<Origin>, UnitError>
    ensures { IfOk result (λ v. v.items ≡ program_origins units.now.text units.now.units) }
{
    let mut traces = traces_of(alloc, units)?;
    match traces.pop() {
        Some(program) => Ok(program.into_origins()),
        None => Ok(Vec::new(alloc)),
    }
}
