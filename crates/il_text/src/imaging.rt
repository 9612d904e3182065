//! The image of a text: reader, names, assembler and loader, one after the other.

ghost use Rattle.std.specs.Prelude.{◌≡◌, true, IfOk, IfErr};
ghost use Rattle.il_model.specs.Program.{Program as ProgramText};
ghost use Rattle.il_model.specs.Declarable.{IsDeclared};
ghost use Rattle.il_model.specs.Settled.{IsTypedProgramOf};
ghost use Rattle.il_assembler.specs.Assembled.{IsSpelled};
ghost use Rattle.il_units.specs.Spelling.{has_units};
ghost use Rattle.il_text.specs.Meaning.{IsProgramOf, IsTypedProgramOfText, IsImageOfText, IsProgramFault};
ghost use Rattle.il_text.specs.Meaning.{IsUntyped, IsTextFault, OrMemory};

use crate::fault::Fault;
use crate::units::unit_program;
use il_assembler::assemble;
use il_declarations::resolve;
use il_loader::{Image, LoadError, load};
use il_model::Program;
use il_reader::read;
use il_units::has_units;
use std::alloc::Global;

/// The image that the assembler wrote: the loader takes it back, unless memory runs out.
fn loaded(alloc: Global, program: &Program, bytes: &[u8]) -> Result<Image, Fault>
    requires declared { IsDeclared program.now }
    requires spelled { IsSpelled program.now bytes.now }
    ensures settled { IfOk result (λ i. IsTypedProgramOf program.now i) }
    ensures fault { IfErr result (λ e. e ≡ Fault.Memory) }
{
    match load(alloc, bytes) {
        Ok(image) => Ok(image),
        Err(LoadError::Memory) => Err(Fault::Memory),
        Err(LoadError::Fault(_)) => unreachable!(),
    }
}

/// The image of a program: that of its typed program.
fn image_of(alloc: Global, program: &Program) -> Result<Image, Fault>
    requires { IsDeclared program.now }
    ensures settled { IfOk result (λ i. IsTypedProgramOf program.now i) }
    ensures refused { IfErr result (OrMemory (IsUntyped program.now)) }
{
    let bytes = assemble(alloc, program)?;
    loaded(alloc, program, bytes.as_slice())
}

/// The program of a text, or the first fault of the first layer that refuses it.
fn program(alloc: Global, text: &[u8]) -> Result<Program, Fault>
    ensures declared { IfOk result (λ p. IsDeclared p) }
    ensures found { IfOk result (λ p. IsProgramOf text.now p) }
    // A text of units has no program but one that fits the types.
    ensures typed { IfOk result (λ p. has_units text.now ≡ true → (typed : ProgramText) × IsTypedProgramOf p typed) }
    ensures refused { IfErr result (OrMemory (IsProgramFault text.now)) }
{
    if has_units(text) {
        return unit_program(alloc, text);
    }
    let source = read(alloc, text)?;
    Ok(resolve(alloc, source)?)
}

/// The image of the program of a text, or the first fault of the first layer that refuses it.
pub fn image(alloc: Global, text: &[u8]) -> Result<Image, Fault>
    // The image is that of the typed program that the text says.
    ensures found { IfOk result (λ i. IsTypedProgramOfText text.now i) }
    // What is told is the text's first fault, or that memory ran out.
    ensures refused { IfErr result (OrMemory (IsTextFault text.now)) }
{
    let program = program(alloc, text)?;
    image_of(alloc, &program)
}

/// The bytes of the image of the program of a text, or the first fault of the first layer that refuses it.
pub fn image_bytes(alloc: Global, text: &[u8]) -> Result<Vec<u8>, Fault>
    // They spell the text's typed program.
    ensures found { IfOk result (λ v. IsImageOfText text.now v.items) }
    // What is told is the text's first fault, or that memory ran out.
    ensures refused { IfErr result (OrMemory (IsTextFault text.now)) }
{
    let program = program(alloc, text)?;
    Ok(assemble(alloc, &program)?)
}
