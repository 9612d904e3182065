//! Declarations, written.

ghost use Rattle.std.specs.Prelude.{◌≡◌};
ghost use Rattle.il_lister.specs.Listing.{at_text, initial_text, variable_text, instance_text, reads_as_qualifier};
ghost use Rattle.il_lister.specs.Listing.{qualifier_text, section_text, turn_text, variables_text, instances_text};
ghost use Rattle.il_lister.specs.Listing.{last_retained};
ghost use Rattle.il_lister.specs.Writing.{Writes};

use crate::fault::ListFault;
use crate::literal::{write_literal, write_location};
use crate::words::{write_kind, write_type};
use crate::writing::{write_name, write_text};
use il_model::{Instance, Loc, Name, Value, Variable, is_spelled};
use io_model::CountedWrite;

fn write_at<W: CountedWrite>(writer: &mut W, location: Option<Loc>) -> Result<(), ListFault>
    ensures { Writes W.CountedWrite (at_text location) writer.old writer.new result }
{
    match location {
        None => Ok(()),
        Some(location) => {
            write_text(writer, b" AT ")?;
            write_location(writer, location)
        }
    }
}

fn write_initial<W: CountedWrite>(writer: &mut W, value: Value) -> Result<(), ListFault>
    ensures { Writes W.CountedWrite (initial_text value) writer.old writer.new result }
{
    if value.number() == 0 {
        return Ok(());
    }
    write_text(writer, b" := ")?;
    write_literal(writer, value)
}

fn write_variable<W: CountedWrite>(writer: &mut W, variable: &Variable) -> Result<(), ListFault>
    ensures { Writes W.CountedWrite (variable_text variable.now) writer.old writer.new result }
{
    write_name(writer, &variable.name)?;
    write_at(writer, variable.location)?;
    write_text(writer, b" : ")?;
    write_type(writer, variable.ty)?;
    write_initial(writer, variable.initial)?;
    write_text(writer, b";\n")
}

fn write_instance<W: CountedWrite>(writer: &mut W, instance: &Instance) -> Result<(), ListFault>
    ensures { Writes W.CountedWrite (instance_text instance.now) writer.old writer.new result }
{
    write_name(writer, &instance.name)?;
    write_text(writer, b" : ")?;
    write_kind(writer, instance.kind)?;
    write_text(writer, b";\n")
}

/// Whether a name would be taken for a qualifier behind VAR_GLOBAL.
fn reads_as_qualifier(name: &[u8]) -> bool
    ensures { result ≡ reads_as_qualifier name.now }
{
    is_spelled(b"RETAIN", name) || is_spelled(b"NON_RETAIN", name)
}

/// The qualifier of a section whose first declaration has this name.
fn qualifier(retained: bool, name: &[u8]) -> &'static [u8]
    ensures { result.now ≡ qualifier_text retained name.now }
{
    if retained {
        b" RETAIN"
    } else if reads_as_qualifier(name) {
        b" NON_RETAIN"
    } else {
        b""
    }
}

/// What opens a section whose first declaration has this name.
pub fn write_section<W: CountedWrite>(
    writer: &mut W,
    retained: bool,
    name: &[u8],
) -> Result<(), ListFault>
    ensures { Writes W.CountedWrite (section_text retained name.now) writer.old writer.new result }
{
    write_text(writer, b"VAR_GLOBAL")?;
    write_text(writer, qualifier(retained, name))?;
    write_text(writer, b"\n")
}

/// Where a declaration is retained and the one before it isn't, or the other way round, a section ends and another one
/// begins.
fn write_turn<W: CountedWrite>(
    writer: &mut W,
    before: bool,
    retained: bool,
    name: &Name,
) -> Result<(), ListFault>
    ensures { Writes W.CountedWrite (turn_text before retained name.now) writer.old writer.new result }
{
    if before == retained {
        return Ok(());
    }
    write_text(writer, b"END_VAR\n")?;
    write_section(writer, retained, name.bytes())
}

/// The declarations of variables, a line each, behind one that is retained or isn't.
pub fn write_variables<W: CountedWrite>(
    writer: &mut W,
    before: bool,
    variables: &[Variable],
) -> Result<(), ListFault>
    ensures { Writes W.CountedWrite (variables_text before variables.now) writer.old writer.new result }
{
    let mut last = before;
    for variable in variables {
        write_turn(writer, last, variable.retained, &variable.name)?;
        write_variable(writer, variable)?;
        last = variable.retained;
    }
    Ok(())
}

/// The declarations of function block instances, a line each, behind one that is retained or isn't.
pub fn write_instances<W: CountedWrite>(
    writer: &mut W,
    before: bool,
    instances: &[Instance],
) -> Result<(), ListFault>
    ensures { Writes W.CountedWrite (instances_text before instances.now) writer.old writer.new result }
{
    let mut last = before;
    for instance in instances {
        write_turn(writer, last, instance.retained, &instance.name)?;
        write_instance(writer, instance)?;
        last = instance.retained;
    }
    Ok(())
}

/// Whether the last of these variables is retained, or the declaration before them where there are none.
pub fn last_retained(before: bool, variables: &[Variable]) -> bool
    ensures { result ≡ last_retained before variables.now }
{
    let mut last = before;
    for variable in variables {
        last = variable.retained;
    }
    last
}
