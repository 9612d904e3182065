//! Outputs as the end of a scan releases them.

ghost use Rattle.std.specs.Prelude.{◌≡◌, fold, slice_get, slice_set, suc, option_map};
ghost use Rattle.il_model.specs.Doubles.{word_value};
ghost use Rattle.ctl_model.specs.State.{double_in, value_in};
ghost use Rattle.plc_values.specs.Values.{laid, released};

use il_model::{Area, Cells, DoubleType, ForcedSlot, Loc, SavedPhase, Snapshot, Value, word_value};

/// Sets a cell, if it's there.
fn set<T: Copy>(cells: &mut [T], number: u16, value: T)
    ensures { cells.new ≡ slice_set cells.old number value }
{
    if (number as usize) < cells.len() {
        cells[number as usize] = value;
    }
}

/// Lays a force over the outputs, if it's one of an output.
fn lay(cells: &mut Cells, force: &ForcedSlot)
    ensures { cells.new ≡ laid cells.old force.now }
{
    match (Loc::of_code(force.slot.0), force.value) {
        (Some(Loc::Bit(Area::Output, number)), Value::Bool(value)) => {
            set(&mut cells.bits, number, value);
        }
        (Some(Loc::Word(Area::Output, number)), Value::Int(value)) => {
            set(&mut cells.words, number, value);
        }
        _ => {}
    }
}

/// The outputs with all forces over them.
fn laid_over(cells: &Cells, forces: &[ForcedSlot]) -> Cells
    ensures { result ≡ fold laid cells.now forces.now }
{
    let mut cells = *cells;
    let mut rest = forces;
    while let [force, behind @ ..] = rest {
        lay(&mut cells, force);
        rest = behind;
    }
    cells
}

/// The outputs as they would be released now.
pub(crate) fn released(snapshot: &Snapshot) -> Cells
    ensures { result ≡ released snapshot.now }
{
    match snapshot.phase {
        SavedPhase::Stopped(_) => Cells::clear(),
        SavedPhase::Idle | SavedPhase::Held { .. } => {
            laid_over(&snapshot.output, snapshot.forces.as_slice())
        }
    }
}

fn word_at(cells: &Cells, number: usize) -> Option<i16>
    ensures { result ≡ slice_get cells.now.words number }
{
    cells.words.get(number).copied()
}

/// The value of two words.
fn double_in(cells: &Cells, number: u16, ty: DoubleType) -> Option<Value>
    ensures { result ≡ double_in ty (slice_get cells.now.words number) (slice_get cells.now.words (suc number)) }
{
    let high = word_at(cells, usize::from(number))?;
    let low = word_at(cells, usize::from(number) + 1)?;
    Some(ty.value(high, low))
}

/// The WORD that a word is.
fn pattern_in(cells: &Cells, number: u16) -> Option<Value>
    ensures { result ≡ option_map word_value (slice_get cells.now.words number) }
{
    Some(word_value(word_at(cells, usize::from(number))?))
}

/// The value at a location among these cells.
pub(crate) fn value_in(cells: &Cells, place: Loc) -> Option<Value>
    ensures { result ≡ value_in cells.now place }
{
    match place {
        Loc::Bit(_, number) => match cells.bits.get(usize::from(number)) {
            Some(bit) => Some(Value::Bool(*bit)),
            None => None,
        },
        Loc::Word(_, number) => match word_at(cells, usize::from(number)) {
            Some(word) => Some(Value::Int(word)),
            None => None,
        },
        Loc::Pattern(_, number) => pattern_in(cells, number),
        Loc::Double(_, number, ty) => double_in(cells, number, ty),
    }
}
