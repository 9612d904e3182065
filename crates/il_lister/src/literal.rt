//! Literals and locations, written.

ghost use Rattle.il_model.specs.declared.program.Loc.TheVariants as places;
ghost use Rattle.il_values.specs.BitStrings.{hex_double};
ghost use Rattle.il_lister.specs.Listing.{literal_text, location_text};
ghost use Rattle.il_lister.specs.Writing.{Writes};

use crate::fault::ListFault;
use crate::words::{write_area, write_truth};
use crate::writing::{write_decimal, write_number, write_text};
use il_model::{Area, Loc, Value, halves, hex_word};
use io_model::CountedWrite;

/// The literal of a value, with its type (IEC 61131-3:2003, 2.2).
pub fn write_literal<W: CountedWrite>(writer: &mut W, value: Value) -> Result<(), ListFault>
    ensures { Writes W.CountedWrite (literal_text value) writer.old writer.new result }
{
    match value {
        Value::Bool(b) => write_truth(writer, b),
        Value::Int(number) => {
            write_text(writer, b"INT#")?;
            write_number(writer, i64::from(number))
        }
        Value::Dint(number) => {
            write_text(writer, b"DINT#")?;
            write_number(writer, i64::from(number))
        }
        Value::Lint(number) => {
            write_text(writer, b"LINT#")?;
            write_number(writer, number)
        }
        Value::Time(milliseconds) => {
            write_text(writer, b"T#")?;
            write_number(writer, i64::from(milliseconds))?;
            write_text(writer, b"ms")
        }
        Value::Real(number) => {
            let text = number.text();
            write_text(writer, b"REAL#")?;
            write_text(writer, text.as_str().as_bytes())
        }
        Value::Word(bits) => {
            write_text(writer, b"WORD#16#")?;
            write_text(writer, &hex_word(bits))
        }
        Value::Dword(bits) => {
            write_text(writer, b"DWORD#16#")?;
            write_double_word(writer, bits)
        }
    }
}

/// The eight hexadecimal digits of a DWORD.
fn write_double_word<W: CountedWrite>(writer: &mut W, bits: u32) -> Result<(), ListFault>
    ensures { Writes W.CountedWrite (hex_double bits) writer.old writer.new result }
{
    let (high, low) = halves(bits);
    write_text(writer, &hex_word(high))?;
    write_text(writer, &hex_word(low))
}

/// A word, as %QW7; its pattern is written alike.
fn write_word<W: CountedWrite>(writer: &mut W, area: Area, number: u16) -> Result<(), ListFault>
    ensures { Writes W.CountedWrite (location_text (places.Word area number)) writer.old writer.new result }
{
    write_text(writer, b"%")?;
    write_area(writer, area)?;
    write_text(writer, b"W")?;
    write_decimal(writer, number)
}

/// A location, as %IX0.3, %QW7 or %MD4 (IEC 61131-3:2003, 2.4.1.1).
pub fn write_location<W: CountedWrite>(writer: &mut W, location: Loc) -> Result<(), ListFault>
    ensures { Writes W.CountedWrite (location_text location) writer.old writer.new result }
{
    match location {
        Loc::Bit(area, number) => {
            write_text(writer, b"%")?;
            write_area(writer, area)?;
            write_text(writer, b"X")?;
            write_decimal(writer, number / 8)?;
            write_text(writer, b".")?;
            write_decimal(writer, number % 8)
        }
        Loc::Word(area, number) => write_word(writer, area, number),
        Loc::Pattern(area, number) => write_word(writer, area, number),
        Loc::Double(area, number, _) => {
            write_text(writer, b"%")?;
            write_area(writer, area)?;
            write_text(writer, b"D")?;
            write_decimal(writer, number)
        }
    }
}
