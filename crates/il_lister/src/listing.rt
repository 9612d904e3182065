//! The listing of an image.

ghost use Rattle.std.specs.Prelude.{◌≡◌, ◌≤◌, ℕ, OnErr, OnOk, take};
ghost use Rattle.std.specs.Io.KnownBytes.{Appends};
ghost use Rattle.io_model.specs.Streams.{Failed};
ghost use Rattle.il_model.specs.Image.{version_of};
ghost use Rattle.il_lister.specs.Listing.{first_retained, first_name, is_third, opening, listing};
ghost use Rattle.il_lister.specs.Writing.{Writes};

use crate::declaration::{last_retained, write_instances, write_section, write_variables};
use crate::fault::ListFault;
use crate::instruction::write_lines;
use crate::writing::write_text;
use il_loader::Image;
use il_model::{Instance, Variable, Version};
use io_model::CountedWrite;

/// Whether the first declaration is retained.
fn first_retained(variables: &[Variable], instances: &[Instance]) -> bool
    ensures { result ≡ first_retained variables.now instances.now }
{
    if let [variable, ..] = variables {
        variable.retained
    } else if let [instance, ..] = instances {
        instance.retained
    } else {
        false
    }
}

/// The name of the first declaration; it is empty where there is none.
fn first_name<'a>(variables: &'a [Variable], instances: &'a [Instance]) -> &'a [u8]
    ensures { result.now ≡ first_name variables.entry.now instances.entry.now }
{
    if let [variable, ..] = variables {
        variable.name.bytes()
    } else if let [instance, ..] = instances {
        instance.name.bytes()
    } else {
        &[]
    }
}

fn is_third(version: Version) -> bool
    ensures { result ≡ is_third version }
{
    matches!(version, Version::Three)
}

/// What stands before the declarations, of which the first is retained or isn't, and has this name: VAR, or a section's
/// opening where the image is of the third version.
fn write_opening<W: CountedWrite>(
    writer: &mut W,
    image: &Image,
    retained: bool,
    name: &[u8],
) -> Result<(), ListFault>
    ensures { Writes W.CountedWrite (opening (version_of image.now) retained name.now) writer.old writer.new result }
{
    if is_third(image.version()) {
        write_section(writer, retained, name)
    } else {
        write_text(writer, b"VAR\n")
    }
}

fn write_listing<W: CountedWrite>(writer: &mut W, image: &Image) -> Result<(), ListFault>
    ensures { Writes W.CountedWrite (listing image.now) writer.old writer.new result }
{
    let variables = image.variables();
    let instances = image.instances();
    let first = first_retained(variables, instances);
    write_opening(writer, image, first, first_name(variables, instances))?;
    write_variables(writer, first, variables)?;
    write_instances(writer, last_retained(first, variables), instances)?;
    write_text(writer, b"END_VAR\n")?;
    write_lines(writer, image.code())
}

/// Writes the listing of an image: its program in Instruction List (IEC 61131-3:2003, 3.2), in capital letters but for
/// the unit ms, each line ended by LF; it's an extended text where the image is of the third version, with a section
/// for each run of declarations that are all retained, or all aren't. It answers Device only where the writer failed in
/// this call; then a prefix of the listing went out.
pub fn list<W: CountedWrite>(image: &Image, writer: &mut W) -> Result<(), ListFault>
    ensures ok { OnOk result (Appends (W.held writer.old) (W.held writer.new) (listing image.now)) }
    ensures err { OnErr result
        ((n : ℕ) × Appends (W.held writer.old) (W.held writer.new) (take n (listing image.now))) }
    ensures device { OnErr result (Failed (W.faults writer.old) (W.faults writer.new)) }
    ensures counts { W.faults writer.old ≤ W.faults writer.new }
{
    write_listing(writer, image)
}
