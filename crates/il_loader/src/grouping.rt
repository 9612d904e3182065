//! The instructions that words stand for.

ghost use Rattle.std.specs.Prelude.{◌≡◌, ◌++◌, IfOk, OnOk, option_map};
ghost use Rattle.il_model.specs.Codes.{argument_name};
ghost use Rattle.il_loader.specs.Tables.{lines_of, last_line, line_with};

use crate::instance::Instances;
use crate::word::{Content, Word};
use il_model::{Argument, Arguments, BlockKind, Instr, Name, Operand, Side};
use std::alloc::{AllocError, Global};
use std::marker::Model;

/// An instruction whose arguments are still being read.
#[derive(Drop)]
struct OpenLine {
    line: Instr,
    arguments: Vec<Argument>,
}

impl Model for OpenLine {
    ghost use Rattle.il_model.specs.declared.program.Instr.{Instr};

    ghost Value = { Instr };

    ghost view = { λ l. record l.line { arguments = l.arguments.items } };
}

impl OpenLine {
    ghost use Rattle.std.specs.Prelude.{◌≡◌, ◌++◌, [], ◌∷◌, IfOk};

    /// An instruction without arguments so far.
    fn of(alloc: Global, line: Instr) -> OpenLine
        ensures { result ≡ record line { arguments = [] } }
    {
        OpenLine {
            line,
            arguments: Vec::new(alloc),
        }
    }

    /// The operand.
    fn operand(&self) -> &Operand
        ensures { result.now ≡ self.now.operand }
    {
        &self.line.operand
    }

    /// The instruction with an argument behind the others.
    fn with(self, argument: Argument) -> Result<OpenLine, AllocError>
        ensures { IfOk result (λ l. l ≡ record self { arguments = self.arguments ++ argument ∷ [] }) }
    {
        let OpenLine {
            line,
            mut arguments,
        } = self;
        arguments.push(argument)?;
        Ok(OpenLine { line, arguments })
    }

    /// The instruction with all of its arguments.
    fn finished(self) -> Instr
        ensures { result ≡ self }
    {
        let OpenLine { line, arguments } = self;
        Instr {
            arguments: Arguments::of(arguments),
            ..line
        }
    }
}

/// The name of the field with a number; empty where the kind hasn't that field.
fn argument_name(alloc: Global, kind: Option<BlockKind>, n: u8) -> Result<Name, AllocError>
    ensures { IfOk result (λ name. name ≡ argument_name kind n) }
{
    let field = match kind {
        Some(kind) => kind.field(n),
        None => None,
    };
    match field {
        Some(field) => Ok(Name::of(Vec::from_slice(alloc, field.name())?)),
        None => Ok(Name::of(Vec::new(alloc))),
    }
}

/// Puts an argument behind those of the last instruction; where none has begun it is in none.
fn with_argument(
    alloc: Global,
    instances: &Instances,
    last: Option<OpenLine>,
    side: Side,
    number: u8,
    operand: Operand,
) -> Result<Option<OpenLine>, AllocError>
    ensures { IfOk result (λ o. o ≡ option_map (line_with instances.now side number operand) last) }
{
    let Some(line) = last else {
        return Ok(None);
    };
    let kind = instances.called_kind(line.operand());
    let field = argument_name(alloc, kind, number)?;
    let argument = Argument {
        field,
        side,
        operand,
    };
    Ok(Some(line.with(argument)?))
}

/// Puts the last instruction, if one has begun, behind the others.
fn put_last(lines: &mut Vec<Instr>, last: Option<OpenLine>) -> Result<(), AllocError>
    ensures { OnOk result (lines.new.items ≡ lines.old.items ++ last_line last) }
{
    if let Some(line) = last {
        lines.push(line.finished())?;
    }
    Ok(())
}

/// The instructions of the words, each with the arguments behind it.
pub fn lines_of(
    alloc: Global,
    instances: &Instances,
    words: Vec<Word>,
) -> Result<Vec<Instr>, AllocError>
    ensures { IfOk result (λ v. v.items ≡ lines_of instances.now words.items) }
{
    let mut lines = Vec::new(alloc);
    let mut last = None;
    for word in words {
        match word.content {
            Content::Instruction(line) => {
                put_last(&mut lines, last)?;
                last = Some(OpenLine::of(alloc, line));
            }
            Content::Argument(side, number, operand) => {
                last = with_argument(alloc, instances, last, side, number, operand)?;
            }
        }
    }
    put_last(&mut lines, last)?;
    Ok(lines)
}
