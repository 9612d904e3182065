//! The fixed words of a listing, written.

ghost use Rattle.std.specs.Prelude.{◌≡◌, codes, if◌then◌else◌};
ghost use Rattle.il_model.specs.Kinds.{kind_name};
ghost use Rattle.il_model.specs.Codes.{is_empty};
ghost use Rattle.il_lister.specs.Listing.{truth_text, area_letter, type_name, function_name, shift_name};
ghost use Rattle.il_lister.specs.Listing.{op_name, side_text};
ghost use Rattle.il_lister.specs.Listing.{letter};
ghost use Rattle.il_lister.specs.Writing.{Writes};

use crate::fault::ListFault;
use crate::writing::write_text;
use il_model::{Area, BlockKind, Function, Op, Shift, Side, Ty};
use io_model::CountedWrite;

/// TRUE or FALSE.
pub fn write_truth<W: CountedWrite>(writer: &mut W, b: bool) -> Result<(), ListFault>
    ensures { Writes W.CountedWrite (truth_text b) writer.old writer.new result }
{
    write_text(writer, if b { b"TRUE" } else { b"FALSE" })
}

/// The letter of an area (IEC 61131-3:2003, 2.4.1.1): I, Q or M.
pub fn write_area<W: CountedWrite>(writer: &mut W, area: Area) -> Result<(), ListFault>
    ensures { Writes W.CountedWrite (area_letter area) writer.old writer.new result }
{
    match area {
        Area::Input => write_text(writer, b"I"),
        Area::Output => write_text(writer, b"Q"),
        Area::Memory => write_text(writer, b"M"),
    }
}

/// The name of a type.
pub fn write_type<W: CountedWrite>(writer: &mut W, ty: Ty) -> Result<(), ListFault>
    ensures { Writes W.CountedWrite (type_name ty) writer.old writer.new result }
{
    match ty {
        Ty::Bool => write_text(writer, b"BOOL"),
        Ty::Int => write_text(writer, b"INT"),
        Ty::Dint => write_text(writer, b"DINT"),
        Ty::Time => write_text(writer, b"TIME"),
        Ty::Lint => write_text(writer, b"LINT"),
        Ty::Real => write_text(writer, b"REAL"),
        Ty::Word => write_text(writer, b"WORD"),
        Ty::Dword => write_text(writer, b"DWORD"),
    }
}

/// The name of a kind of function blocks.
pub fn write_kind<W: CountedWrite>(writer: &mut W, kind: BlockKind) -> Result<(), ListFault>
    ensures { Writes W.CountedWrite (kind_name kind) writer.old writer.new result }
{
    write_text(writer, kind.name())
}

fn function_name(function: Function) -> &'static [u8]
    ensures { result.now ≡ function_name function }
{
    match function {
        Function::IntToReal => b"INT_TO_REAL",
        Function::DintToReal => b"DINT_TO_REAL",
        Function::LintToReal => b"LINT_TO_REAL",
        Function::TimeToReal => b"TIME_TO_REAL",
        Function::RealToInt => b"REAL_TO_INT",
        Function::RealToDint => b"REAL_TO_DINT",
        Function::RealToLint => b"REAL_TO_LINT",
        Function::RealToTime => b"REAL_TO_TIME",
        Function::Trunc => b"TRUNC",
        Function::Abs => b"ABS",
        Function::Sqrt => b"SQRT",
        Function::TimeToDint => b"TIME_TO_DINT",
        Function::DintToTime => b"DINT_TO_TIME",
        Function::Move => b"MOVE",
        Function::WordToInt => b"WORD_TO_INT",
        Function::IntToWord => b"INT_TO_WORD",
        Function::DwordToDint => b"DWORD_TO_DINT",
        Function::DintToDword => b"DINT_TO_DWORD",
        Function::WordToDword => b"WORD_TO_DWORD",
        Function::DwordToWord => b"DWORD_TO_WORD",
    }
}

fn shift_name(shift: Shift) -> &'static [u8]
    ensures { result.now ≡ shift_name shift }
{
    match shift {
        Shift::Left => b"SHL",
        Shift::Right => b"SHR",
        Shift::RotateLeft => b"ROL",
        Shift::RotateRight => b"ROR",
    }
}

fn op_name(op: Op) -> &'static [u8]
    ensures { result.now ≡ op_name op }
{
    match op {
        Op::Empty => b"",
        Op::Ld => b"LD",
        Op::St => b"ST",
        Op::S => b"S",
        Op::R => b"R",
        Op::And => b"AND",
        Op::Or => b"OR",
        Op::Xor => b"XOR",
        Op::Not => b"NOT",
        Op::Add => b"ADD",
        Op::Sub => b"SUB",
        Op::Min => b"MIN",
        Op::Max => b"MAX",
        Op::Mul => b"MUL",
        Op::Div => b"DIV",
        Op::Mod => b"MOD",
        Op::Gt => b"GT",
        Op::Ge => b"GE",
        Op::Eq => b"EQ",
        Op::Ne => b"NE",
        Op::Le => b"LE",
        Op::Lt => b"LT",
        Op::Jmp => b"JMP",
        Op::Cal => b"CAL",
        Op::Ret => b"RET",
        Op::Close => b")",
        Op::IntToDint => b"INT_TO_DINT",
        Op::DintToInt => b"DINT_TO_INT",
        Op::DintToLint => b"DINT_TO_LINT",
        Op::LintToDint => b"LINT_TO_DINT",
        Op::Shift(shift) => shift_name(shift),
        Op::Apply(function) => function_name(function),
    }
}

/// The word of an operator without its letters (IEC 61131-3:2003, table 52); nothing for an empty instruction.
pub fn write_op<W: CountedWrite>(writer: &mut W, op: Op) -> Result<(), ListFault>
    ensures { Writes W.CountedWrite (op_name op) writer.old writer.new result }
{
    write_text(writer, op_name(op))
}

fn colon(op: Op) -> &'static [u8]
    ensures { result.now ≡ (if is_empty op then codes ":" else codes ": ") }
{
    match op {
        Op::Empty => b":",
        _ => b": ",
    }
}

/// What stands behind a label: a colon, and a space where an operator follows.
pub fn write_colon<W: CountedWrite>(writer: &mut W, op: Op) -> Result<(), ListFault>
    ensures { Writes W.CountedWrite (if is_empty op then codes ":" else codes ": ")
        writer.old writer.new result }
{
    write_text(writer, colon(op))
}

/// A letter behind an operator, where it is present.
pub fn write_letter<W: CountedWrite>(
    writer: &mut W,
    present: bool,
    text: &[u8],
) -> Result<(), ListFault>
    ensures { Writes W.CountedWrite (letter present text.now) writer.old writer.new result }
{
    if present {
        write_text(writer, text)
    } else {
        Ok(())
    }
}

/// The sign between a field and its operand.
pub fn write_side<W: CountedWrite>(writer: &mut W, side: Side) -> Result<(), ListFault>
    ensures { Writes W.CountedWrite (side_text side) writer.old writer.new result }
{
    match side {
        Side::Input => write_text(writer, b" := "),
        Side::Output => write_text(writer, b" => "),
    }
}
