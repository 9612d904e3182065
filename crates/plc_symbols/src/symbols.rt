//! The table of a program's names.

ghost use Rattle.std.specs.Prelude.{◌≡◌, ◌++◌, decimal, IfOk};
ghost use Rattle.plc_symbols.specs.Symbols.{bit_table, word_table, table_text, columns, symbol_line, symbols_text};

use crate::words::{name_of, place};
use il_loader::Image;
use il_model::{Area, Loc, Variable};
use itoa::Buffer;
use std::alloc::{AllocError, Global};

/// A word, and a number behind it.
fn numbered(alloc: Global, word: &[u8], number: u16) -> Result<Vec<u8>, AllocError>
    ensures { IfOk result (λ text. text.items ≡ word.now ++ decimal number) }
{
    let mut buffer = Buffer::new();
    let mut text = Vec::from_slice(alloc, word)?;
    text.extend_from_slice(buffer.format(number).as_bytes())?;
    Ok(text)
}

/// The table of Modbus that has a bit of this area, and the bit's address.
fn table_of_bit(alloc: Global, area: Area, number: u16) -> Result<Vec<u8>, AllocError>
    ensures { IfOk result (λ text. text.items ≡ bit_table area number) }
{
    match area {
        Area::Input => numbered(alloc, b"coil,", number),
        Area::Output => numbered(alloc, b"discrete input,", number),
        Area::Memory => Vec::from_slice(alloc, b","),
    }
}

/// The table of Modbus that has a word of this area, and the word's address; of a double word the first one's.
fn table_of_word(alloc: Global, area: Area, number: u16) -> Result<Vec<u8>, AllocError>
    ensures { IfOk result (λ text. text.items ≡ word_table area number) }
{
    match area {
        Area::Input => numbered(alloc, b"holding register,", number),
        Area::Output => numbered(alloc, b"input register,", number),
        Area::Memory => Vec::from_slice(alloc, b","),
    }
}

fn table(alloc: Global, loc: Loc) -> Result<Vec<u8>, AllocError>
    ensures { IfOk result (λ text. text.items ≡ table_text loc) }
{
    match loc {
        Loc::Bit(area, number) => table_of_bit(alloc, area, number),
        Loc::Word(area, number) | Loc::Pattern(area, number) => table_of_word(alloc, area, number),
        Loc::Double(area, number, _) => table_of_word(alloc, area, number),
    }
}

/// Place, table and address of a variable.
fn columns_of(alloc: Global, location: Option<Loc>) -> Result<Vec<u8>, AllocError>
    ensures { IfOk result (λ text. text.items ≡ columns location) }
{
    let Some(loc) = location else {
        return Vec::from_slice(alloc, b",,");
    };
    let mut text = place(alloc, loc)?;
    text.extend_from_slice(b",")?;
    let table = table(alloc, loc)?;
    text.extend_from_slice(table.as_slice())?;
    Ok(text)
}

/// The line of a variable.
fn line(alloc: Global, variable: &Variable) -> Result<Vec<u8>, AllocError>
    ensures { IfOk result (λ text. text.items ≡ symbol_line variable.now) }
{
    let columns = columns_of(alloc, variable.location)?;
    let mut text = Vec::from_slice(alloc, variable.name.bytes())?;
    text.extend_from_slice(b",")?;
    text.extend_from_slice(name_of(variable.ty))?;
    text.extend_from_slice(b",")?;
    text.extend_from_slice(columns.as_slice())?;
    text.extend_from_slice(b"\n")?;
    Ok(text)
}

/// The table of a program's names, a line each, in the order in which they are declared.
pub fn symbols(alloc: Global, image: &Image) -> Result<Vec<u8>, AllocError>
    ensures { IfOk result (λ text. text.items ≡ symbols_text image.now) }
{
    let mut text = Vec::from_slice(alloc, b"name,type,place,table,address\n")?;
    for variable in image.variables() {
        text.extend_from_slice(line(alloc, variable)?.as_slice())?;
    }
    Ok(text)
}
