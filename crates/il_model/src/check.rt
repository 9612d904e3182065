//! The types on arrival at each instruction, and whether a program is typed.

ghost use Rattle.std.specs.Prelude.{◌≡◌, ◌<◌, ◌≤◌, ℕ, length, reverse, Ok, Err, Some};
ghost use Rattle.il_model.specs.Typing.{shape_on_arrival, Shape, Arrives, IsTyped};
ghost use Rattle.il_model.specs.Checking.{judgement_of, shape_at, source_row, line_row, line_row_of, label_at};
ghost use Rattle.il_model.specs.Checking.{label_row, shape_after, top_of, after_line, HasNoTypeFault};
ghost use Rattle.il_model.specs.Resolved.{is_labelled};
ghost use Rattle.il_model.specs.Row.{HasRoom};
ghost use Rattle.il_model.specs.declared.program.Instr.{Instr};
ghost use Rattle.il_model.specs.Program.{Program};
ghost use Rattle.il_model.specs.InstructionFaults.{applies, TellsFirst};
ghost use Rattle.std.specs.Prelude.{OnOk, IfErr};

use crate::arguments::{arguments_fault, with_fault};
use crate::indexed::IndexedProgram;
use crate::limits::MOST_OPEN_PARENTHESES;
use crate::resolve::{kind_of, missing_kind};
use crate::typing::row_of;
use crate::{Effect, Held, Instr, Name, Program, Source, TypeFault};
use arrayvec::ArrayVec;
use il_values::Ty;
use std::marker::Model;

fn label_at(first: Option<u16>, n: usize, depth: usize) -> Result<(), TypeFault>
    ensures { result ≡ label_at first n depth }
{
    match first {
        Some(first) => {
            if first as usize != n {
                return Err(TypeFault::DuplicateLabel);
            }
            if depth > 0 {
                Err(TypeFault::Unbalanced)
            } else {
                Ok(())
            }
        }
        None => Err(TypeFault::DuplicateLabel),
    }
}

pub(crate) fn label_row(
    program: &IndexedProgram,
    n: usize,
    depth: usize,
    label: &Option<Name>,
) -> Result<(), TypeFault>
    ensures { result ≡ label_row program.now n depth label.now }
{
    match label {
        Some(name) => label_at(program.target_of(name), n, depth),
        None => Ok(()),
    }
}

pub(crate) fn source_row(
    program: &Program,
    cr: Option<Ty>,
    top: Option<Held>,
    depth: usize,
    line: &Instr,
    source: Option<Source>,
) -> Result<Effect, TypeFault>
    ensures { result ≡ source_row program.now cr top depth line.now source }
{
    match source {
        Some(source) => row_of(
            cr,
            top,
            depth,
            line.op,
            line.modifier,
            kind_of(program, source),
        ),
        None => match row_of(
            cr,
            top,
            depth,
            line.op,
            line.modifier,
            missing_kind(&line.operand),
        ) {
            Ok(_) => Err(TypeFault::TypeMismatch),
            Err(fault) => Err(fault),
        },
    }
}

fn line_row(
    program: &IndexedProgram,
    cr: Option<Ty>,
    top: Option<Held>,
    depth: usize,
    line: &Instr,
) -> Result<Effect, TypeFault>
    ensures { result ≡ line_row_of program.now cr top depth line.now }
{
    let row = source_row(
        program.program(),
        cr,
        top,
        depth,
        line,
        program.source_of(&line.operand),
    );
    let kind = program.called_kind(&line.operand);
    with_fault(
        row,
        arguments_fault(program, false, kind, line.arguments.as_slice()),
    )
}

/// The types on arrival at an instruction: that of the current result, if there is one, and those of the operators that
/// wait for a closing parenthesis.
#[derive(Drop)]
pub struct Types {
    cr: Option<Ty>,
    kept: ArrayVec<Held, MOST_OPEN_PARENTHESES>,
}

impl Model for Types {
    ghost use Rattle.std.specs.Prelude.{reverse};
    ghost use Rattle.il_model.specs.Typing.{Shape};

    ghost Value = { Shape };

    ghost view = { λ t. record { cr = t.cr; kept = reverse t.kept.items } };
}

impl Types {
    /// The types on arrival at the first instruction.
    pub fn start(program: &Program) -> Types
        ensures { shape_at program.now 0 ≡ Ok result }
    {
        Types {
            cr: None,
            kept: ArrayVec::new(),
        }
    }

    /// The type of the current result, if there is one.
    pub fn cr(&self) -> Option<Ty>
        ensures { result ≡ self.now.cr }
    {
        self.cr
    }

    /// The operator that waits for the innermost closing parenthesis, if one is open.
    pub fn top(&self) -> Option<Held>
        ensures { result ≡ top_of self.now.kept }
    {
        self.kept.as_slice().last().copied()
    }

    /// How many parentheses are open.
    pub fn depth(&self) -> usize
        ensures { result ≡ length self.now.kept }
    {
        self.kept.len()
    }

    /// The operators that wait for a closing parenthesis, the outermost first.
    pub fn held(&self) -> &[Held]
        ensures { reverse result.now ≡ self.now.kept }
    {
        self.kept.as_slice()
    }

    /// What an instruction does to the types.
    pub fn apply(&mut self, effect: Effect)
        requires { HasRoom (length self.old.kept) effect }
        ensures { self.new ≡ shape_after self.old effect }
    {
        match effect {
            Effect::Sets(cr) => self.cr = cr,
            Effect::Opens(held, cr) => {
                self.kept.push(held);
                self.cr = cr;
            }
            Effect::Closes(ty) => {
                let _ = self.kept.pop();
                self.cr = Some(ty);
            }
        }
    }

    /// At a label there is no current result.
    pub fn arrive(&mut self, program: &Program, n: usize)
        ensures { self.new ≡ shape_on_arrival program.now n self.old }
    {
        if is_labelled(program, n) {
            self.cr = None;
        }
    }

    /// Goes past an instruction, or gives its fault.
    pub(crate) fn pass(
        &mut self,
        program: &IndexedProgram,
        n: usize,
        line: &Instr,
    ) -> Result<(), TypeFault>
        requires n { n < length program.now.code }
        ensures ok { OnOk result (after_line program.now n self.old line.now ≡ Ok self.new) }
        ensures err { IfErr result (λ f. after_line program.now n self.old line.now ≡ Err f) }
    {
        // Read for its range: so n + 1 does not wrap.
        let _count = program.code().len();
        let depth = self.depth();
        label_row(program, n, depth, &line.label)?;
        let effect = line_row(program, self.cr, self.top(), depth, line)?;
        self.apply(effect);
        self.arrive(program.program(), n + 1);
        Ok(())
    }
}

fn is_labelled(program: &Program, n: usize) -> bool
    ensures { result ≡ is_labelled program.now n }
{
    match program.code.get(n) {
        Some(line) => line.label.is_some(),
        None => false,
    }
}

/// Whether a program is typed, or the first fault with the instruction's number.
pub fn check(program: &IndexedProgram) -> Result<(), (TypeFault, usize)>
    ensures { result ≡ judgement_of program.now }
{
    let mut types = Types::start(program.program());
    let code = program.code();
    let count = code.len();
    for n in 0..count {
        if let Err(fault) = types.pass(program, n, &code[n]) {
            return Err((fault, n));
        }
    }
    if types.depth() > 0 {
        Err((TypeFault::Unbalanced, count))
    } else {
        Ok(())
    }
}

/// A program is typed exactly where the check finds no fault, and it arrives at an instruction with the types that the
/// check has there. For proofs; it does nothing.
pub fn know_typed()
    ensures typed { (Q : Program) → HasNoTypeFault Q → IsTyped Q }
    ensures faultless { (Q : Program) → IsTyped Q → HasNoTypeFault Q }
    ensures arrives { (Q : Program) (n : ℕ) (sh : Shape) → n ≤ length Q.code → shape_at Q n ≡ Ok sh → Arrives Q n sh }
    ensures shape { (Q : Program) (n : ℕ) (sh : Shape) → Arrives Q n sh → shape_at Q n ≡ Ok sh }
{}

/// Of the faults that an instruction has the one of least rank is told, in whatever program it stands, at whatever
/// place, and with whatever types the program comes to it. For proofs; it does nothing.
pub fn the_first_fault_is_told()
    ensures { (Q : Program) (n : ℕ) (sh : Shape) (line : Instr)
        → TellsFirst (applies Q n sh line) (after_line Q n sh line) }
{}
