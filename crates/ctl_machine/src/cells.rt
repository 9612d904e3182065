//! The cells of an area: values at locations, and those before the first scan.

ghost use Rattle.std.specs.Prelude.{◌≡◌, suc, slice_get, unwrap_or, option_map};
ghost use Rattle.std.specs.Option.{option_and_then};
ghost use Rattle.il_model.specs.Locations.{area_of};
ghost use Rattle.il_model.specs.Doubles.{double_pattern, word_value};
ghost use Rattle.il_model.specs.declared.program.Loc.TheVariants.{Bit, Word, Pattern};
ghost use Rattle.il_values.specs.declared.value.Value.TheVariants as values;
ghost use Rattle.ctl_model.specs.State.{same_area, with_first, first_cells, double_in, value_in, with_pattern_at};
ghost use Rattle.ctl_model.specs.State.{with_value_in};
ghost use Rattle.ctl_model.specs.Warm.{warm_first, warm_cells};

use il_model::{Area, BITS, Cells, DoubleType, Loc, Value, Variable, WORDS, word_value, words_of};

/// The area of a location.
pub fn area_of(loc: Loc) -> Area
    ensures { result ≡ area_of loc }
{
    loc.area()
}

/// The truth value of a bit.
#[inline(always)]
pub fn read_bit(cells: &Cells, n: u16) -> Option<Value>
    ensures { result ≡ option_map values.Bool (slice_get cells.now.bits n) }
{
    match cells.bits.get(n as usize) {
        Some(b) => Some(Value::Bool(*b)),
        None => None,
    }
}

/// The INT of a word.
#[inline(always)]
pub fn read_word(cells: &Cells, n: u16) -> Option<Value>
    ensures { result ≡ option_map values.Int (slice_get cells.now.words n) }
{
    match cells.words.get(n as usize) {
        Some(z) => Some(Value::Int(*z)),
        None => None,
    }
}

/// The value at a location of an area.
pub fn read_cells(cells: &Cells, loc: Loc) -> Option<Value>
    ensures { result ≡ value_in cells.now loc }
{
    match loc {
        Loc::Bit(_, n) => read_bit(cells, n),
        Loc::Word(_, n) => read_word(cells, n),
        Loc::Pattern(_, n) => read_pattern(cells, n),
        Loc::Double(_, n, ty) => read_double(cells, n, ty),
    }
}

fn word_at(cells: &Cells, n: usize) -> Option<i16>
    ensures { result ≡ slice_get cells.now.words n }
{
    cells.words.get(n).copied()
}

/// The WORD that a word is.
fn read_pattern(cells: &Cells, n: u16) -> Option<Value>
    ensures { result ≡ option_map word_value (slice_get cells.now.words n) }
{
    Some(word_value(word_at(cells, n as usize)?))
}

/// Writes a WORD to a word; None, and nothing written, where it isn't there or the value is of another type.
fn write_pattern(cells: &mut Cells, area: Area, n: u16, v: Value) -> Option<()>
    ensures { with_value_in cells.old (Pattern area n) v ≡ option_map (λ _. cells.new) result }
{
    let Value::Word(bits) = v else {
        return None;
    };
    if (n as usize) < WORDS {
        cells.words[n as usize] = bits.cast_signed();
        Some(())
    } else {
        None
    }
}

/// The value of two words.
fn read_double(cells: &Cells, n: u16, ty: DoubleType) -> Option<Value>
    ensures { result ≡ double_in ty (slice_get cells.now.words n) (slice_get cells.now.words (suc n)) }
{
    let high = word_at(cells, n as usize)?;
    let low = word_at(cells, n as usize + 1)?;
    Some(ty.value(high, low))
}

/// Writes a value to two words; None, and nothing written, where they aren't there or it is of another type.
fn write_double(cells: &mut Cells, n: u16, ty: DoubleType, v: Value) -> Option<()>
    ensures { option_and_then (with_pattern_at cells.old n) (double_pattern ty v) ≡ option_map (λ _. cells.new) result }
{
    let (high, low) = words_of(ty.pattern(v)?);
    if n as usize + 1 < WORDS {
        cells.words[n as usize] = high;
        cells.words[n as usize + 1] = low;
        Some(())
    } else {
        None
    }
}

/// Writes a truth value to a bit; None, and nothing written, where it isn't there.
#[inline(always)]
pub fn write_bit(cells: &mut Cells, area: Area, n: u16, b: bool) -> Option<()>
    ensures { with_value_in cells.old (Bit area n) (values.Bool b) ≡ option_map (λ _. cells.new) result }
{
    if (n as usize) < BITS {
        cells.bits[n as usize] = b;
        Some(())
    } else {
        None
    }
}

/// Writes an INT to a word; None, and nothing written, where it isn't there.
#[inline(always)]
pub fn write_word(cells: &mut Cells, area: Area, n: u16, z: i16) -> Option<()>
    ensures { with_value_in cells.old (Word area n) (values.Int z) ≡ option_map (λ _. cells.new) result }
{
    if (n as usize) < WORDS {
        cells.words[n as usize] = z;
        Some(())
    } else {
        None
    }
}

/// Writes a value at a location of an area; None, and nothing written, where it isn't there or is of another type.
pub fn write_cells(cells: &mut Cells, loc: Loc, v: Value) -> Option<()>
    ensures { with_value_in cells.old loc v ≡ option_map (λ _. cells.new) result }
{
    match (loc, v) {
        (Loc::Bit(area, n), Value::Bool(b)) => write_bit(cells, area, n, b),
        (Loc::Word(area, n), Value::Int(z)) => write_word(cells, area, n, z),
        (Loc::Pattern(area, n), v) => write_pattern(cells, area, n, v),
        (Loc::Double(_, n, ty), v) => write_double(cells, n, ty, v),
        _ => None,
    }
}

fn lies_in(loc: Loc, area: Area) -> bool
    ensures { result ≡ same_area (area_of loc) area }
{
    loc.area() == area
}

/// The cells with a value written, or as they are where it can't be.
fn written_or_same(cells: Cells, loc: Loc, v: Value) -> Cells
    ensures { result ≡ unwrap_or (with_value_in cells loc v) cells }
{
    let mut changed = cells;
    match write_cells(&mut changed, loc, v) {
        Some(()) => changed,
        None => cells,
    }
}

/// The cells of an area with a value at a location, where that lies in the area.
fn with_first(area: Area, cells: Cells, location: Option<Loc>, first: Value) -> Cells
    ensures { result ≡ with_first area cells location first }
{
    match location {
        Some(loc) => if lies_in(loc, area) {
            written_or_same(cells, loc, first)
        } else {
            cells
        },
        None => cells,
    }
}

/// The cells of an area before the first scan.
pub fn first_cells(area: Area, variables: &[Variable]) -> Cells
    ensures { result ≡ first_cells area variables.now }
{
    let mut cells = Cells::clear();
    for variable in variables {
        cells = with_first(area, cells, variable.location, variable.initial);
    }
    cells
}

/// The value that a variable at a location begins with at a warm start: the one that it has among these cells where
/// it's retained, else its first one.
fn warm_first(old: &Cells, variable: &Variable) -> Value
    ensures { result ≡ warm_first old.now variable.now }
{
    match variable.location {
        Some(loc) if variable.retained => read_cells(old, loc).unwrap_or(variable.initial),
        _ => variable.initial,
    }
}

/// The cells of an area behind a warm start, by those before it.
pub fn warm_cells(area: Area, old: &Cells, variables: &[Variable]) -> Cells
    ensures { result ≡ warm_cells area old.now variables.now }
{
    let mut cells = Cells::clear();
    for variable in variables {
        cells = with_first(area, cells, variable.location, warm_first(old, variable));
    }
    cells
}
