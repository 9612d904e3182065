//! Words for what shows.

ghost use Rattle.std.specs.Prelude.{◌≡◌, OnOk};
ghost use Rattle.il_lister.specs.Listing.{area_letter, location_text};
ghost use Rattle.il_model.specs.declared.program.Loc.TheVariants as places;
ghost use Rattle.il_text.specs.Lines.{stop_name};
ghost use Rattle.plc_figures.specs.Readings.{function_name};
ghost use Rattle.plc_figures.specs.State.{phase_name};
ghost use Rattle.plc_figures.specs.Texts.{IsAdded};

use crate::reading::FUNCTIONS;
use crate::text::{put, put_number};
use il_model::{Area, DoubleType, Loc, Stop};
use std::alloc::AllocError;
use vr_model::Status;

/// The word for the status of a replica.
pub fn phase_name(status: Status) -> &'static [u8]
    ensures { result.now ≡ phase_name status }
{
    match status {
        Status::Normal => b"normal",
        Status::ViewChange => b"view change",
        Status::Recovering => b"recovering",
        Status::Down => b"down",
    }
}

/// The word for why a scan stopped.
pub fn stop_name(stop: Stop) -> &'static [u8]
    ensures { result.now ≡ stop_name stop }
{
    match stop {
        Stop::Overflow => b"overflow",
        Stop::ZeroDivisor => b"zerodivisor",
        Stop::Budget => b"budget",
    }
}

/// The letter of an area.
fn area_letter(area: Area) -> &'static [u8]
    ensures { result.now ≡ area_letter area }
{
    match area {
        Area::Input => b"I",
        Area::Output => b"Q",
        Area::Memory => b"M",
    }
}

/// Adds the place of a bit.
fn put_bit(out: &mut Vec<u8>, area: Area, number: u16) -> Result<(), AllocError>
    ensures { OnOk result (IsAdded out.old.items (location_text (places.Bit area number)) out.new.items) }
{
    put(out, b"%")?;
    put(out, area_letter(area))?;
    put(out, b"X")?;
    put_number(out, u64::from(number / 8))?;
    put(out, b".")?;
    put_number(out, u64::from(number % 8))?;
    Ok(())
}

/// Adds the place of a word.
fn put_word(out: &mut Vec<u8>, area: Area, number: u16) -> Result<(), AllocError>
    ensures { OnOk result (IsAdded out.old.items (location_text (places.Word area number)) out.new.items) }
{
    put(out, b"%")?;
    put(out, area_letter(area))?;
    put(out, b"W")?;
    put_number(out, u64::from(number))?;
    Ok(())
}

/// Adds the place of a double word.
fn put_double(out: &mut Vec<u8>, area: Area, number: u16, ty: DoubleType) -> Result<(), AllocError>
    ensures { OnOk result (IsAdded out.old.items (location_text (places.Double area number ty)) out.new.items) }
{
    put(out, b"%")?;
    put(out, area_letter(area))?;
    put(out, b"D")?;
    put_number(out, u64::from(number))?;
    Ok(())
}

/// Adds a location as it's written, as %IX0.3, %QW7 or %MD4 (IEC 61131-3:2003, 2.4.1.1).
pub fn put_place(out: &mut Vec<u8>, place: Loc) -> Result<(), AllocError>
    ensures { OnOk result (IsAdded out.old.items (location_text place) out.new.items) }
{
    match place {
        Loc::Bit(area, number) => put_bit(out, area, number),
        Loc::Word(area, number) => put_word(out, area, number),
        Loc::Pattern(area, number) => put_word(out, area, number),
        Loc::Double(area, number, ty) => put_double(out, area, number, ty),
    }
}

/// Adds the function of Modbus whose requests are counted at this place.
pub(crate) fn put_function(out: &mut Vec<u8>, place: usize) -> Result<(), AllocError>
    ensures { OnOk result (IsAdded out.old.items (function_name place) out.new.items) }
{
    if place < 10 {
        put_number(out, FUNCTIONS[place])
    } else {
        put(out, b"other")
    }
}
