//! The fixed words, and a place.

ghost use Rattle.std.specs.Prelude.{◌≡◌, IfOk};
ghost use Rattle.il_lister.specs.Listing.{area_letter, type_name};
ghost use Rattle.plc_symbols.specs.Symbols.{place_text};

use il_model::{Area, Loc, Ty};
use itoa::Buffer;
use std::alloc::{AllocError, Global};

/// The name of a type (IEC 61131-3:2003, 2.3.1).
pub fn name_of(ty: Ty) -> &'static [u8]
    ensures { result.now ≡ type_name ty }
{
    match ty {
        Ty::Bool => b"BOOL",
        Ty::Int => b"INT",
        Ty::Dint => b"DINT",
        Ty::Time => b"TIME",
        Ty::Lint => b"LINT",
        Ty::Real => b"REAL",
        Ty::Word => b"WORD",
        Ty::Dword => b"DWORD",
    }
}

/// The letter of an area: I, Q or M.
fn letter_of(area: Area) -> &'static [u8]
    ensures { result.now ≡ area_letter area }
{
    match area {
        Area::Input => b"I",
        Area::Output => b"Q",
        Area::Memory => b"M",
    }
}

/// A place, as %IX0.3, %QW7 or %MD4.
pub fn place(alloc: Global, loc: Loc) -> Result<Vec<u8>, AllocError>
    ensures { IfOk result (λ text. text.items ≡ place_text loc) }
{
    let mut buffer = Buffer::new();
    let mut text = Vec::from_slice(alloc, b"%")?;
    match loc {
        Loc::Bit(area, number) => {
            text.extend_from_slice(letter_of(area))?;
            text.extend_from_slice(b"X")?;
            text.extend_from_slice(buffer.format(number / 8).as_bytes())?;
            text.extend_from_slice(b".")?;
            text.extend_from_slice(buffer.format(number % 8).as_bytes())?;
        }
        Loc::Word(area, number) | Loc::Pattern(area, number) => {
            text.extend_from_slice(letter_of(area))?;
            text.extend_from_slice(b"W")?;
            text.extend_from_slice(buffer.format(number).as_bytes())?;
        }
        Loc::Double(area, number, _) => {
            text.extend_from_slice(letter_of(area))?;
            text.extend_from_slice(b"D")?;
            text.extend_from_slice(buffer.format(number).as_bytes())?;
        }
    }
    Ok(text)
}
