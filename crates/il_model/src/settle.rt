//! Bare numbers in a program: each takes the type that its place asks for, by the type of the current result on
//! arrival.

ghost use Rattle.std.specs.Prelude.{◌≡◌, ◌<◌, length, OnOk, OnErr, IfOk, IfErr, Ok, Err};
ghost use Rattle.il_model.specs.Constants.{operand_literal};
ghost use Rattle.il_model.specs.Program.{Program};
ghost use Rattle.il_model.specs.Resolved.{source_of};
ghost use Rattle.il_model.specs.Checking.{source_row, line_row_of};
ghost use Rattle.il_model.specs.Settled.{settled_operand, settled_line, if_typed, typed_program_of, HasNoBare};
ghost use Rattle.il_model.specs.Settled.{IsSettling, IsTypedProgramOf};

use crate::arguments::{arguments_fault, with_fault};
use crate::check::{Types, label_row, source_row};
use crate::indexed::IndexedProgram;
use crate::typing::{row_of, settle};
use crate::{Effect, Held, Instr, Operand, OperandKind, Program, TypeFault};
use il_values::{Ty, Value};

/// The literal that an operand is, once a bare number has the type that its place asks for.
fn settled_literal(cr: Option<Ty>, line: &Instr) -> Option<Value>
    ensures { result ≡ operand_literal (settled_operand cr line.now.op line.now.modifier line.now.operand) }
{
    match &line.operand {
        Operand::Literal(v) => Some(*v),
        Operand::Bare(z) => settle(cr, line.op, line.modifier.opens, *z),
        _ => None,
    }
}

/// What an instruction with its number settled does to the types, its arguments left aside.
fn operand_row(
    program: &IndexedProgram,
    cr: Option<Ty>,
    top: Option<Held>,
    depth: usize,
    line: &Instr,
    literal: Option<Value>,
) -> Result<Effect, TypeFault>
    requires { literal ≡ operand_literal (settled_operand cr line.now.op line.now.modifier line.now.operand) }
    ensures { result ≡ source_row program.now cr top depth (settled_line cr line.now)
        (source_of program.now (settled_line cr line.now).operand) }
{
    match literal {
        Some(v) => row_of(
            cr,
            top,
            depth,
            line.op,
            line.modifier,
            OperandKind::Typed(v.ty(), false),
        ),
        None => source_row(
            program.program(),
            cr,
            top,
            depth,
            line,
            program.source_of(&line.operand),
        ),
    }
}

fn settled_row(
    program: &IndexedProgram,
    cr: Option<Ty>,
    top: Option<Held>,
    depth: usize,
    line: &Instr,
    literal: Option<Value>,
) -> Result<Effect, TypeFault>
    requires { literal ≡ operand_literal (settled_operand cr line.now.op line.now.modifier line.now.operand) }
    ensures { result ≡ line_row_of program.now cr top depth (settled_line cr line.now) }
{
    let row = operand_row(program, cr, top, depth, line, literal);
    let kind = program.called_kind(&line.operand);
    with_fault(
        row,
        arguments_fault(program, true, kind, line.arguments.as_slice()),
    )
}

impl Types {
    ghost use Rattle.il_model.specs.Checking.{after_line};

    /// Goes past an instruction, in which a bare number takes the type that its place asks for. Gives the literal that
    /// the operand then is, if it is one, or the instruction's first fault and leaves the types as they were.
    pub fn settle(
        &mut self,
        program: &IndexedProgram,
        n: usize,
        line: &Instr,
    ) -> Result<Option<Value>, TypeFault>
        requires n { n < length program.now.code }
        ensures ok { OnOk result (after_line program.now n self.old (settled_line self.old.cr line.now) ≡ Ok self.new) }
        ensures literal { IfOk result
            (λ v. v ≡ operand_literal (settled_operand self.old.cr line.now.op line.now.modifier line.now.operand)) }
        ensures err { IfErr result
            (λ f. after_line program.now n self.old (settled_line self.old.cr line.now) ≡ Err f) }
        ensures unchanged { OnErr result (self.new ≡ self.old) }
    {
        // Read for its range: so n + 1 does not wrap.
        let _count = program.program().code.len();
        let depth = self.depth();
        label_row(program, n, depth, &line.label)?;
        let cr = self.cr();
        let literal = settled_literal(cr, line);
        let effect = settled_row(program, cr, self.top(), depth, line, literal)?;
        self.apply(effect);
        self.arrive(program.program(), n + 1);
        Ok(literal)
    }
}

/// What holds of a program and its typed program. For proofs; it does nothing.
pub fn settling(program: &Program)
    ensures typed { (Q : Program) → typed_program_of program.now ≡ Ok Q → IsTypedProgramOf program.now Q }
    ensures only { (Q : Program) → IsTypedProgramOf program.now Q → typed_program_of program.now ≡ Ok Q }
    ensures same { (Q : Program) → IsTypedProgramOf program.now Q → IsSettling program.now Q × HasNoBare Q }
    ensures plain { HasNoBare program.now → typed_program_of program.now ≡ if_typed program.now }
{
    let _code = &program.code;
}
