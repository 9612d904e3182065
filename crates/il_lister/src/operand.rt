//! Operands and arguments, written.

ghost use Rattle.std.specs.Prelude.{◌≡◌, ◌++◌};
ghost use Rattle.std.specs.List.{flat_map};
ghost use Rattle.il_lister.specs.Listing.{dot_text, operand_text, behind_text, argument_text, next_argument_text};
ghost use Rattle.il_lister.specs.Listing.{arguments_text};
ghost use Rattle.il_lister.specs.Writing.{Writes};

use crate::fault::ListFault;
use crate::literal::{write_literal, write_location};
use crate::words::write_side;
use crate::writing::{write_name, write_number, write_text};
use il_model::{Argument, LONGEST_DOTTED_NAME, Name, Operand};
use io_model::CountedWrite;

/// The dot between an instance and its field, behind a blank where the three have more bytes than a name may have.
fn dot_between(name: &Name, field: &Name) -> &'static [u8]
    ensures { result.now ≡ dot_text name.now field.now }
{
    if name.bytes().len() + 1 + field.bytes().len() > LONGEST_DOTTED_NAME {
        b" ."
    } else {
        b"."
    }
}

/// A field behind its instance.
fn write_field<W: CountedWrite>(writer: &mut W, name: &Name, field: &Name) -> Result<(), ListFault>
    ensures { Writes W.CountedWrite (name.now ++ (dot_text name.now field.now ++ field.now)) writer.old
        writer.new result }
{
    write_name(writer, name)?;
    write_text(writer, dot_between(name, field))?;
    write_name(writer, field)
}

fn write_operand<W: CountedWrite>(writer: &mut W, operand: &Operand) -> Result<(), ListFault>
    ensures { Writes W.CountedWrite (operand_text operand.now) writer.old writer.new result }
{
    match operand {
        Operand::Absent => Ok(()),
        Operand::Literal(value) => write_literal(writer, *value),
        Operand::Bare(number) => write_number(writer, i64::from(*number)),
        Operand::Variable(name) => write_name(writer, name),
        Operand::Direct(location) => write_location(writer, *location),
        Operand::Label(name) => write_name(writer, name),
        Operand::Field(name, field) => write_field(writer, name, field),
        Operand::Instance(name) => write_name(writer, name),
    }
}

/// An operand behind its operator, with a space; nothing where it is absent.
pub fn write_behind<W: CountedWrite>(writer: &mut W, operand: &Operand) -> Result<(), ListFault>
    ensures { Writes W.CountedWrite (behind_text operand.now) writer.old writer.new result }
{
    if let Operand::Absent = operand {
        return Ok(());
    }
    write_text(writer, b" ")?;
    write_operand(writer, operand)
}

fn write_argument<W: CountedWrite>(writer: &mut W, argument: &Argument) -> Result<(), ListFault>
    ensures { Writes W.CountedWrite (argument_text argument.now) writer.old writer.new result }
{
    write_name(writer, &argument.field)?;
    write_side(writer, argument.side)?;
    write_operand(writer, &argument.operand)
}

fn write_next_argument<W: CountedWrite>(
    writer: &mut W,
    argument: &Argument,
) -> Result<(), ListFault>
    ensures { Writes W.CountedWrite (next_argument_text argument.now) writer.old writer.new result }
{
    write_text(writer, b", ")?;
    write_argument(writer, argument)
}

fn write_next_arguments<W: CountedWrite>(
    writer: &mut W,
    arguments: &[Argument],
) -> Result<(), ListFault>
    ensures { Writes W.CountedWrite (flat_map next_argument_text arguments.now) writer.old
        writer.new result }
{
    for argument in arguments {
        write_next_argument(writer, argument)?;
    }
    Ok(())
}

/// The arguments of a call in parentheses; nothing where there are none.
pub fn write_arguments<W: CountedWrite>(
    writer: &mut W,
    arguments: &[Argument],
) -> Result<(), ListFault>
    ensures { Writes W.CountedWrite (arguments_text arguments.now) writer.old writer.new result }
{
    let [first, more @ ..] = arguments else {
        return Ok(());
    };
    write_text(writer, b"(")?;
    write_argument(writer, first)?;
    write_next_arguments(writer, more)?;
    write_text(writer, b")")
}
