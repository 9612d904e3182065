//! The image of a program.

ghost use Rattle.std.specs.Prelude.{IfOk};
ghost use Rattle.il_model.specs.Declarable.{IsDeclared};
ghost use Rattle.il_assembler.specs.Assembled.{IsSpelled, IsGiven, TellsFirst, IsTold, IsImageBytes};
ghost use Rattle.il_assembler.specs.Walk.{GivesLiterals, GivesImage};

use crate::encode::encode;
use crate::fault::AsmError;
use il_model::{IndexedProgram, Program, TypeFault, Types, Value};
use std::alloc::Global;

/// Types each instruction from left to right, with bare numbers by their places; gives for each the literal that its
/// operand then is, if it is one.
fn literals(alloc: Global, program: &IndexedProgram) -> Result<Vec<Option<Value>>, AsmError>
    ensures { GivesLiterals program.now (λ v. v.items) result }
{
    let mut types = Types::start(program.program());
    let mut found = Vec::new(alloc);
    let code = program.code();
    let count = code.len();
    for n in 0..count {
        match types.settle(program, n, &code[n]) {
            Ok(literal) => found.push(literal)?,
            Err(fault) => {
                return Err(AsmError::Fault {
                    fault,
                    instruction: n,
                });
            }
        }
    }
    if types.depth() > 0 {
        return Err(AsmError::Fault {
            fault: TypeFault::Unbalanced,
            instruction: count,
        });
    }
    Ok(found)
}

/// The bytes of the image of a program, or the fault at which the walk over it ends.
fn walked(alloc: Global, program: &Program) -> Result<Vec<u8>, AsmError>
    ensures { GivesImage program.now (λ v. v.items) result }
{
    let program = IndexedProgram::new(alloc, program)?;
    let literals = literals(alloc, &program)?;
    Ok(encode(alloc, &program, literals.as_slice())?)
}

/// The bytes of the image of a program. A bare number takes the type that its place asks for: after LD or an opening
/// parenthesis INT where it fits, else DINT; elsewhere the type of the current result, 0 and 1 for BOOL. Answers the
/// fault of the least instruction that has one (of its faults the first in this order: a label that stands twice, an
/// unbalanced parenthesis, one too many, an unknown label, a bad field, an operand that can't be written, no current
/// result, a type that doesn't fit), or that memory ran out.
pub fn assemble(alloc: Global, program: &Program) -> Result<Vec<u8>, AsmError>
    // The bytes are the one spelling of the program's typed program.
    ensures found { IfOk result (λ v. IsSpelled program.now v.items) }
    // What has a typed program is assembled, unless memory runs out.
    ensures only { IsGiven program.now (λ v. v.items) result }
    // A fault that is told is the first of the least instruction that has one.
    ensures refused { TellsFirst program.now result }
    // The first fault of the program is told, unless memory runs out.
    ensures told { IsTold program.now (λ v. v.items) result }
    // Of a program that a text declares the bytes are an image.
    ensures image { IsDeclared program.now → IfOk result (λ v. IsImageBytes v.items) }
{
    walked(alloc, program)
}
