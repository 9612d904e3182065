//! One entry of what is seen.

ghost use Rattle.std.specs.Prelude.{◌≡◌, OnOk, Some};
ghost use Rattle.il_lister.specs.Listing.{type_name};
ghost use Rattle.plc_figures.specs.Texts.{IsAdded};
ghost use Rattle.plc_values.specs.Values.{entry_json, place_json, typed_json};

use crate::shown::Shown;
use il_model::{Loc, Ty, Value};
use plc_figures::{put, put_comma, put_flag, put_place, put_string, put_value_json};
use std::alloc::AllocError;

/// The name of a type (IEC 61131-3:2003, 2.3.1).
fn type_name(ty: Ty) -> &'static [u8]
    ensures { result.now ≡ type_name ty }
{
    match ty {
        Ty::Bool => b"BOOL",
        Ty::Int => b"INT",
        Ty::Dint => b"DINT",
        Ty::Time => b"TIME",
        Ty::Lint => b"LINT",
        Ty::Real => b"REAL",
        Ty::Word => b"WORD",
        Ty::Dword => b"DWORD",
    }
}

/// Adds a location.
fn put_known_place(out: &mut Vec<u8>, place: Loc) -> Result<(), AllocError>
    ensures { OnOk result (IsAdded out.old.items (place_json (Some place)) out.new.items) }
{
    put(out, b"\"")?;
    put_place(out, place)?;
    put(out, b"\"")?;
    Ok(())
}

/// The same: null where there's none.
pub(crate) fn put_place_json(out: &mut Vec<u8>, place: Option<Loc>) -> Result<(), AllocError>
    ensures { OnOk result (IsAdded out.old.items (place_json place) out.new.items) }
{
    match place {
        None => put(out, b"null"),
        Some(place) => put_known_place(out, place),
    }
}

/// Adds a value behind its type.
fn put_known_value(out: &mut Vec<u8>, value: Value) -> Result<(), AllocError>
    ensures { OnOk result (IsAdded out.old.items (typed_json (Some value)) out.new.items) }
{
    put(out, b"\"")?;
    put(out, type_name(value.ty()))?;
    put(out, b"\",\"value\":")?;
    put_value_json(out, value)?;
    Ok(())
}

/// The same: null where there's none.
fn put_typed(out: &mut Vec<u8>, value: Option<Value>) -> Result<(), AllocError>
    ensures { OnOk result (IsAdded out.old.items (typed_json value) out.new.items) }
{
    match value {
        None => put(out, b"null,\"value\":null"),
        Some(value) => put_known_value(out, value),
    }
}

/// Adds an entry at this place of a list.
pub(crate) fn put_entry(
    out: &mut Vec<u8>,
    number: usize,
    name: &[u8],
    shown: Shown,
) -> Result<(), AllocError>
    ensures { OnOk result (IsAdded out.old.items (entry_json number name.now shown) out.new.items) }
{
    put_comma(out, number)?;
    put(out, b"{\"name\":")?;
    put_string(out, name)?;
    put(out, b",\"place\":")?;
    put_place_json(out, shown.place)?;
    put(out, b",\"forced\":")?;
    put_flag(out, shown.is_forced)?;
    put(out, b",\"type\":")?;
    put_typed(out, shown.value)?;
    put(out, b"}")?;
    Ok(())
}
