//! A text of units as a whole.

ghost use Rattle.std.specs.Prelude.{◌≡◌, map, IfOk};
ghost use Rattle.il_reader.specs.Reading.{Gives, Passes};
ghost use Rattle.il_reader.specs.Walk.{end_at};
ghost use Rattle.il_units.specs.Units.{unit_text};
ghost use Rattle.il_units.specs.Walk.{units_of, read_units};
ghost use Rattle.il_units.specs.Spelling.{SaysUnits};
ghost use Rattle.il_units.specs.Reading.{Answers, IsGiven};
ghost use Rattle.il_units.specs.FirstFault.{TellsFirst, IsTold};

use crate::contents::{Unit, Units};
use crate::reading::{UnitsAbove, unit_read};
use il_model::Dialect;
use il_reader::{
    EXTENDED_TEXT_LIMIT, Failure, Fault, FaultKind, Place, ReadError, is_end, many, next,
    past_breaks, place_of, refused,
};
use std::alloc::Global;

/// The end of the text.
#[tactic(auto, unfolding(il_reader::specs::Walk::end_at))]
fn ended(dialect: Dialect, bytes: &[u8]) -> Result<&[u8], Failure>
    ensures { Passes dialect end_at bytes.now result }
{
    let (t, _) = next(dialect, bytes);
    if is_end(t) {
        Ok(bytes)
    } else {
        Err(refused(t))
    }
}

/// The units up to the program, which is the last, behind which nothing stands.
#[tactic(auto, unfolding(crate::specs::Walk::units_of, crate::specs::Walk::units_at))]
fn units_in(alloc: Global, bytes: &[u8]) -> Result<Vec<Unit<'_>>, Failure>
    ensures { Gives (λ us. map unit_text us.items) result (units_of bytes.now) }
{
    let dialect = Dialect::Extended;
    let (mut found, rest) = many::<UnitsAbove>(dialect, alloc, bytes)?;
    let (program, rest) = unit_read(dialect, alloc, rest)?;
    ended(dialect, past_breaks(dialect, rest))?;
    found.push(program)?;
    Ok(found)
}

/// What a text of units says, or the fault at which the walk over it ends.
fn walked(alloc: Global, bytes: &[u8]) -> Result<Units<'_>, ReadError>
    ensures { Answers bytes.now result (read_units bytes.now) }
{
    if bytes.len() > EXTENDED_TEXT_LIMIT {
        return Err(ReadError::Fault(Fault {
            kind: FaultKind::TooLong,
            place: Place { line: 1, column: 1 },
        }));
    }
    match units_in(alloc, bytes) {
        Ok(found) => Ok(Units::of(bytes, found)),
        Err(Failure::Refused(refusal)) => Err(ReadError::Fault(Fault {
            kind: refusal.kind,
            place: place_of(bytes, refusal.left),
        })),
        Err(Failure::Memory) => Err(ReadError::Memory),
    }
}

/// Reads a text of units, of at most 8,388,608 bytes. A longer one is too long at 1:1, before all else. Answers the
/// first fault in the text, or that memory ran out.
pub fn read(alloc: Global, bytes: &[u8]) -> Result<Units<'_>, ReadError>
    // What is read is what the text says.
    ensures found { IfOk result (λ s. (s.text ≡ bytes.now) × SaysUnits bytes.now s.units) }
    // What the text says is read, unless memory runs out.
    ensures only { IsGiven bytes.now result }
    // A fault that is told is the first of the text: it stands at the first token with which no text of units begins.
    ensures refused { TellsFirst bytes.now result }
    // The first fault of the text is told, unless memory runs out.
    ensures told { IsTold bytes.now result }
{
    walked(alloc, bytes)
}
