//! The program of a text of units: that of the extended text in which all calls are replaced.

ghost use Rattle.std.specs.Prelude.{◌≡◌, ◌<◌, ◌≤◌, ◌^◌, ◌⊎◌, ℕ, true, List, ◌++◌, ◌∷◌, [], length, take, IfOk, Err};
ghost use Rattle.std.specs.Prelude.{IfErr};
ghost use Rattle.il_model.specs.Declarable.{IsDeclared};
ghost use Rattle.il_model.specs.Program.{Program as ProgramText};
ghost use Rattle.il_model.specs.Settled.{IsTypedProgramOf};
ghost use Rattle.il_reader.specs.Texts.{SourceText, Reads, place_behind};
ghost use Rattle.il_reader.specs.FirstFault as reading;
ghost use Rattle.il_declarations.specs.FirstFault as declaring;
ghost use Rattle.il_assembler.specs.Assembled as typing;
ghost use Rattle.il_units.specs.Units.{UnitText, unit_text};
ghost use Rattle.il_units.specs.Flats.{FlatUnit};
ghost use Rattle.il_units.specs.Spelling.{has_units};
ghost use Rattle.il_units.specs.Expansion.{text_of, flat_of, expansion_of};
ghost use Rattle.il_units.specs.Misuse.{TellsError, fault_of};
ghost use Rattle.il_text.specs.Meaning.{IsProgramOf, IsPlainProgramOf, IsFrom, IsMisuse, IsUnitReadFault};
ghost use Rattle.il_text.specs.Meaning.{IsUnitDeclarationFault, IsUnitTypingFault, IsUnitFault, IsExpansionFault};
ghost use Rattle.il_text.specs.Meaning.{IsGoodUnit, IsUnitsReadFault, IsUnitsFault, OrMemory};

use crate::fault::Fault;
use il_assembler::{AsmError, assemble};
use il_declarations::{DeclError, resolve};
use il_model::Program;
use il_reader::{Place, ReadError};
use il_units::{Expansion, Flat, Unit, UnitError, Units, flattened};
use std::alloc::Global;

/// The place behind a byte that stands at a place.
pub fn place_behind(here: Place, b: u8) -> Place
    requires line { here.line < 2 ^ 63 }
    requires column { here.column < 2 ^ 63 }
    // Where this place is behind some bytes, that is behind those and the byte.
    ensures { (before : List ℕ) → here ≡ place_behind before → result ≡ place_behind (before ++ b ∷ []) }
{
    if b == b'\n' {
        Place {
            line: here.line + 1,
            column: 1,
        }
    } else {
        Place {
            line: here.line,
            column: here.column + 1,
        }
    }
}

/// How many bytes stand before a place of a text.
fn offset_of(text: &[u8], place: Place) -> usize
    ensures short { result ≤ length text.now }
    // Where there is such a place, it is the one behind so many bytes.
    ensures found { (n : ℕ) → n ≤ length text.now → place ≡ place_behind (take n text.now)
        → place ≡ place_behind (take result text.now) }
{
    let mut here = Place { line: 1, column: 1 };
    for (i, b) in text.iter().enumerate() {
        if here == place {
            return i;
        }
        here = place_behind(here, *b);
    }
    text.len()
}

/// The place in the text of units that a place in an expansion comes from.
fn origin(units: &Units, expansion: &Expansion, place: Place) -> Place
    ensures { (u : FlatUnit) (n : ℕ) → expansion.now ≡ expansion_of u → n ≤ length (text_of u)
        → place ≡ place_behind (take n (text_of u)) → IsFrom units.now.text u place result }
{
    units.place(expansion.origin(offset_of(expansion.text(), place)))
}

/// What is told of a unit that can't be expanded.
fn misused(units: &Units, error: UnitError) -> Fault
    ensures { (above : List FlatUnit) (unit : UnitText) → TellsError error (fault_of units.now.text above unit)
        → OrMemory (IsMisuse units.now.text above unit) result }
{
    match error {
        UnitError::Memory => Fault::Memory,
        UnitError::Fault(fault) => {
            let place = units.place(fault.left);
            Fault::Declaration {
                number: fault.kind.number(),
                line: place.line,
                column: place.column,
            }
        }
    }
}

/// What is told of an expansion that isn't read.
fn unread(units: &Units, expansion: &Expansion, error: ReadError) -> Fault
    ensures { (u : FlatUnit) → expansion.now ≡ expansion_of u → reading.TellsFirst (text_of u) (Err error)
        → OrMemory (IsUnitReadFault units.now.text u) result }
{
    match error {
        ReadError::Memory => Fault::Memory,
        ReadError::Fault(fault) => {
            let place = origin(units, expansion, fault.place);
            Fault::Read {
                number: fault.kind.number(),
                line: place.line,
                column: place.column,
            }
        }
    }
}

/// What is told of an expansion that declares no program.
fn undeclared(units: &Units, expansion: &Expansion, error: DeclError) -> Fault
    ensures { (u : FlatUnit) (s : SourceText) → expansion.now ≡ expansion_of u → Reads (text_of u) s
        → declaring.TellsFirst {X = ProgramText} s (Err error)
        → OrMemory (IsUnitDeclarationFault units.now.text u) result }
{
    match error {
        DeclError::Memory => Fault::Memory,
        DeclError::Fault(fault) => {
            let place = origin(units, expansion, fault.place);
            Fault::Declaration {
                number: fault.kind.number(),
                line: place.line,
                column: place.column,
            }
        }
    }
}

/// What is told of a program that doesn't fit the types.
fn untyped(units: &Units, flat: &Flat, error: AsmError) -> Fault
    ensures { (p : ProgramText) → IsPlainProgramOf (text_of flat.now) p
        → typing.TellsFirst {X = Prim.Unit {0}} p (Err error)
        → OrMemory (IsUnitTypingFault units.now.text flat.now) result }
{
    match error {
        AsmError::Memory => Fault::Memory,
        AsmError::Fault { fault, instruction } => {
            let place = units.place(flat.instruction_origin(instruction));
            Fault::Type {
                number: fault.number(),
                line: place.line,
                column: place.column,
            }
        }
    }
}

/// The program of a unit that stands alone, which fits the types.
fn checked(alloc: Global, units: &Units, flat: &Flat) -> Result<Program, Fault>
    ensures declared { IfOk result (λ p. IsDeclared p) }
    ensures found { IfOk result (λ p. IsPlainProgramOf (text_of flat.now) p) }
    ensures typed { IfOk result (λ p. (typed : ProgramText) × IsTypedProgramOf p typed) }
    ensures refused { IfErr result (OrMemory (IsExpansionFault units.now.text flat.now)) }
{
    let expansion = flat.expansion(alloc)?;
    let source = match il_reader::read(alloc, expansion.text()) {
        Ok(source) => source,
        Err(error) => return Err(unread(units, &expansion, error)),
    };
    let program = match resolve(alloc, source) {
        Ok(program) => program,
        Err(error) => return Err(undeclared(units, &expansion, error)),
    };
    match assemble(alloc, &program) {
        Ok(_) => Ok(program),
        Err(error) => Err(untyped(units, flat, error)),
    }
}

/// A unit beside those above it, and its program.
fn unit_checked(
    alloc: Global,
    units: &Units,
    above: &[Flat],
    unit: &Unit,
) -> Result<(Flat, Program), Fault>
    ensures declared { IfOk result (λ x. IsDeclared x.1) }
    ensures flat { IfOk result (λ x. x.0 ≡ flat_of units.now.text above.now (unit_text unit.now)) }
    ensures found { IfOk result (λ x. IsPlainProgramOf (text_of x.0) x.1) }
    ensures good { IfOk result (λ x. IsGoodUnit units.now.text above.now (unit_text unit.now)) }
    ensures refused { IfErr result (OrMemory (IsUnitFault units.now.text above.now (unit_text unit.now))) }
{
    let flat = match flattened(alloc, units.text(), above, unit) {
        Ok(flat) => flat,
        Err(error) => return Err(misused(units, error)),
    };
    let program = checked(alloc, units, &flat)?;
    Ok((flat, program))
}

/// The program of a text of units, or its first fault: the first of the first unit that has one.
pub fn unit_program(alloc: Global, text: &[u8]) -> Result<Program, Fault>
    requires { has_units text.now ≡ true }
    ensures declared { IfOk result (λ p. IsDeclared p) }
    ensures found { IfOk result (λ p. IsProgramOf text.now p) }
    ensures typed { IfOk result (λ p. (typed : ProgramText) × IsTypedProgramOf p typed) }
    ensures refused { IfErr result (OrMemory (λ told. IsUnitsReadFault text.now told ⊎ IsUnitsFault text.now told)) }
{
    let units = il_units::read(alloc, text)?;
    let mut above = Vec::new(alloc);
    let mut last = Err(Fault::Memory);
    for unit in units.units() {
        let (flat, program) = unit_checked(alloc, &units, above.as_slice(), unit)?;
        above.push(flat)?;
        last = Ok(program);
    }
    last
}
