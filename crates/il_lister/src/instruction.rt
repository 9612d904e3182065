//! Instructions, written.

ghost use Rattle.std.specs.List.{flat_map};
ghost use Rattle.il_lister.specs.Listing.{operator_text, operation_text, label_text, line_text};
ghost use Rattle.il_lister.specs.Writing.{Writes};

use crate::fault::ListFault;
use crate::operand::{write_arguments, write_behind};
use crate::words::{write_colon, write_letter, write_op};
use crate::writing::{write_name, write_text};
use il_model::{Instr, Modifier, Op};
use io_model::CountedWrite;

fn write_operator<W: CountedWrite>(
    writer: &mut W,
    op: Op,
    modifier: Modifier,
) -> Result<(), ListFault>
    ensures { Writes W.CountedWrite (operator_text op modifier) writer.old writer.new result }
{
    write_op(writer, op)?;
    write_letter(writer, modifier.conditional, b"C")?;
    write_letter(writer, modifier.negated, b"N")?;
    write_letter(writer, modifier.opens, b"(")
}

fn write_operation<W: CountedWrite>(writer: &mut W, line: &Instr) -> Result<(), ListFault>
    ensures { Writes W.CountedWrite (operation_text line.now) writer.old writer.new result }
{
    write_operator(writer, line.op, line.modifier)?;
    write_behind(writer, &line.operand)?;
    write_arguments(writer, line.arguments.as_slice())
}

fn write_label<W: CountedWrite>(writer: &mut W, line: &Instr) -> Result<(), ListFault>
    ensures { Writes W.CountedWrite (label_text line.now.op line.now.label) writer.old writer.new
        result }
{
    match &line.label {
        None => Ok(()),
        Some(name) => {
            write_name(writer, name)?;
            write_colon(writer, line.op)
        }
    }
}

fn write_line<W: CountedWrite>(writer: &mut W, line: &Instr) -> Result<(), ListFault>
    ensures { Writes W.CountedWrite (line_text line.now) writer.old writer.new result }
{
    write_label(writer, line)?;
    write_operation(writer, line)?;
    write_text(writer, b"\n")
}

/// The instructions, a line each.
pub fn write_lines<W: CountedWrite>(writer: &mut W, code: &[Instr]) -> Result<(), ListFault>
    ensures { Writes W.CountedWrite (flat_map line_text code.now) writer.old writer.new result }
{
    for line in code {
        write_line(writer, line)?;
    }
    Ok(())
}
