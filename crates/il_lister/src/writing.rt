//! Texts, names and numbers, written.

ghost use Rattle.il_lister.specs.Listing.{decimal, number_text};
ghost use Rattle.il_lister.specs.Writing.{Writes};

use crate::fault::ListFault;
use il_model::Name;
use io_model::{CountedWrite, write_all};
use itoa::Buffer;

/// These bytes.
pub fn write_text<W: CountedWrite>(writer: &mut W, text: &[u8]) -> Result<(), ListFault>
    ensures { Writes W.CountedWrite text.now writer.old writer.new result }
{
    Ok(write_all(writer, text)?)
}

/// A name.
pub fn write_name<W: CountedWrite>(writer: &mut W, name: &Name) -> Result<(), ListFault>
    ensures { Writes W.CountedWrite name.now writer.old writer.new result }
{
    write_text(writer, name.bytes())
}

/// A number in decimal digits.
pub fn write_decimal<W: CountedWrite>(writer: &mut W, number: u16) -> Result<(), ListFault>
    ensures { Writes W.CountedWrite (decimal number) writer.old writer.new result }
{
    let mut buffer = Buffer::new();
    write_text(writer, buffer.format(number).as_bytes())
}

/// A number in decimal digits, with its sign where it is below 0.
pub fn write_number<W: CountedWrite>(writer: &mut W, number: i64) -> Result<(), ListFault>
    ensures { Writes W.CountedWrite (number_text number) writer.old writer.new result }
{
    let mut buffer = Buffer::new();
    write_text(writer, buffer.format(number).as_bytes())
}
