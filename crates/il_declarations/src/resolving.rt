//! From a text that was read to its program.

ghost use Rattle.std.specs.Prelude.{◌≡◌, map, IfOk};
ghost use Rattle.il_model.specs.Declarable.{IsDeclared};
ghost use Rattle.il_reader.specs.Grammar.{block_text, dialect_of};
ghost use Rattle.il_declarations.specs.Resolution.{Answers};
ghost use Rattle.il_declarations.specs.Walk.{Gives, nothing, declare_block, program_at, resolution_of, each};
ghost use Rattle.il_declarations.specs.Declaring.{IsProgramOf};
ghost use Rattle.il_declarations.specs.FirstFault.{HasNoFault, IsGiven, TellsFirst, IsTold};

use crate::declared::Declared;
use crate::fault::{DeclError, Failure, Fault};
use crate::instructions::instructions;
use crate::variables::declare_block;
use il_model::{Dialect, Program, Version};
use il_reader::{Block, Source};
use std::alloc::Global;

fn declared(dialect: Dialect, alloc: Global, blocks: &[Block]) -> Result<Declared, Failure>
    ensures { Gives (λ d. d) result (each (declare_block dialect) nothing (map block_text blocks.now)) }
{
    let mut known = Declared::new(alloc);
    for block in blocks {
        declare_block(dialect, alloc, &mut known, block)?;
    }
    Ok(known)
}

#[tactic(auto, unfolding(crate::specs::Walk::program_at))]
fn program(dialect: Dialect, alloc: Global, source: &Source) -> Result<Program, Failure>
    requires { dialect ≡ dialect_of source.now.text }
    ensures text { IfOk result (λ p. IsDeclared p) }
    ensures exact { Gives (λ p. p) result (program_at dialect source.now.says) }
{
    source.is_read();
    let known = declared(dialect, alloc, source.blocks())?;
    let code = instructions(dialect, alloc, &known, source.lines())?;
    let (variables, instances) = known.into_parts();
    match Program::new(Version::Three, variables, instances, code) {
        Some(program) => Ok(program),
        None => unreachable!(),
    }
}

/// The program, or the fault at which the walk over the text ends.
fn walked(alloc: Global, source: &Source) -> Result<Program, DeclError>
    ensures text { IfOk result (λ p. IsDeclared p) }
    ensures exact { Answers (λ p. p) result (resolution_of source.now) }
{
    match program(source.dialect(), alloc, source) {
        Ok(program) => Ok(program),
        Err(Failure::Refused(refusal)) => Err(DeclError::Fault(Fault {
            kind: refusal.kind,
            place: source.place(refusal.left),
        })),
        Err(Failure::Memory) => Err(DeclError::Memory),
    }
}

/// The program of a text that was read: its variables and its function block instances in the order of their
/// declarations, the variables with their first values, and its instructions, one for a label alone too, all names in
/// capital letters. Numbers without a type stay bare; labels of jumps and fields of instances are not looked up. A name
/// with dots that no variable has is the field behind its last dot. Else the first fault in the text with its line and
/// column; of two at one place the one with the least number. Or memory ran out.
pub fn resolve(alloc: Global, source: Source<'_>) -> Result<Program, DeclError>
    // Each part of the program has a lawful form: names are lawful and distinct; locations are there, and no two share
    // a bit or a word; values are in their ranges; an operator has letters and an operand that it takes; an operand, of
    // a call's arguments too, is a variable or an instance that is declared, a location or a value.
    ensures text { IfOk result (λ p. IsDeclared p) }
    // The program is what the text declares, and the text has no fault.
    ensures found { IfOk result (λ p. IsProgramOf (dialect_of source.entry.text) source.entry.says p
        × HasNoFault (dialect_of source.entry.text) source.entry.says) }
    // What a text without a fault declares is the program, unless memory runs out.
    ensures only { IsGiven source.entry result }
    // A fault that is told is the first of all that the text has.
    ensures refused { TellsFirst source.entry result }
    // The first fault of the text is told, unless memory runs out.
    ensures told { IsTold source.entry result }
{
    source.is_read();
    walked(alloc, &source)
}
