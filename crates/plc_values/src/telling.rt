//! The whole texts.

ghost use Rattle.std.specs.Prelude.{◌≡◌, IfOk, IfSome, OnOk, find, string_bytes};
ghost use Rattle.std.specs.Option.{option_map};
ghost use Rattle.plc_figures.specs.Texts.{IsAdded};
ghost use Rattle.plc_values.specs.Seen.{IsToldOf};
ghost use Rattle.plc_values.specs.Values.{is_unknown, known_text, unknown_text, values_text, watch_text};

use crate::head::put_head;
use crate::listing::{put_instances, put_variables, put_watched};
use crate::look::Look;
use ctl_debugger::slot;
use il_loader::{Image, load};
use il_model::Snapshot;
use plc_figures::{put, put_string};
use std::alloc::{AllocError, Global};

/// The image of the program of a snapshot's controller: none where memory runs out, or its bytes are no image.
fn image_of(alloc: Global, snapshot: &Snapshot) -> Option<Image> {
    match load(alloc, snapshot.image.as_slice()) {
        Ok(image) => Some(image),
        Err(_) => None,
    }
}

/// Adds all that is seen.
fn put_values(
    alloc: Global,
    out: &mut Vec<u8>,
    image: &Image,
    look: &mut Look,
) -> Result<(), AllocError>
    requires program { look.old.program ≡ image.now }
    ensures { OnOk result (IsAdded out.old.items (values_text look.old) out.new.items) }
{
    put_head(out, look.snapshot())?;
    put(out, b",\"variables\":[")?;
    put_variables(out, image, look)?;
    put(out, b"],\"instances\":[")?;
    put_instances(alloc, out, image, look)?;
    put(out, b"]}\n")?;
    Ok(())
}

/// Adds what is seen of names that the program has.
fn put_known(
    out: &mut Vec<u8>,
    image: &Image,
    look: &mut Look,
    names: &[String],
) -> Result<(), AllocError>
    requires program { look.old.program ≡ image.now }
    ensures { OnOk result (IsAdded out.old.items (known_text look.old names.now) out.new.items) }
{
    put_head(out, look.snapshot())?;
    put(out, b",\"values\":[")?;
    put_watched(out, image, look, names)?;
    put(out, b"]}\n")?;
    Ok(())
}

/// Whether the program has no location, no variable and no field of this name.
fn is_unknown(image: &Image, name: &String) -> bool
    ensures { result ≡ is_unknown image.now name.now }
{
    slot(image, name.as_bytes()).is_none()
}

/// The first of these names that is unknown.
fn unknown_among<'a>(image: &Image, names: &'a [String]) -> Option<&'a String>
    ensures { option_map (λ name. name.now) result ≡ find (is_unknown image.now) names.now }
{
    names.iter().find(|name| is_unknown(image, name))
}

/// Adds that a name is unknown.
fn put_unknown(out: &mut Vec<u8>, name: &String) -> Result<(), AllocError>
    ensures { OnOk result (IsAdded out.old.items (unknown_text name.now) out.new.items) }
{
    put(out, b"plc: unknown name ")?;
    put_string(out, name.as_bytes())?;
    put(out, b"\n")?;
    Ok(())
}

/// Adds what is seen of names, or the first one that is unknown.
fn put_asked(
    out: &mut Vec<u8>,
    image: &Image,
    look: &mut Look,
    names: &[String],
) -> Result<(), AllocError>
    requires program { look.old.program ≡ image.now }
    ensures { OnOk result (IsAdded out.old.items (watch_text look.old names.now) out.new.items) }
{
    match unknown_among(image, names) {
        Some(name) => put_unknown(out, name),
        None => put_known(out, image, look, names),
    }
}

/// All that is seen of the controller which a snapshot is of, as one JSON object in a line: how many scans were begun,
/// what is forced, and each variable and each field of an instance with its type and its value, in the order of
/// declaration. None where memory runs out, or it's of no controller.
pub fn values(alloc: Global, snapshot: Snapshot) -> Option<Vec<u8>>
    ensures { IfSome result (λ text. IsToldOf snapshot values_text text.items) }
{
    let image = image_of(alloc, &snapshot)?;
    let mut look = Look::of(alloc, &image, snapshot)?;
    let mut out = Vec::new(alloc);
    match put_values(alloc, &mut out, &image, &mut look) {
        Ok(()) => Some(out),
        Err(_) => None,
    }
}

/// What is seen of the locations, variables and fields of these names, likewise, in the order of the names; or that the
/// first unknown one of them is, and nothing else. None where memory runs out, or the snapshot is of no controller.
pub fn watched(alloc: Global, snapshot: Snapshot, names: &[String]) -> Option<Vec<u8>>
    ensures { IfSome result (λ text. IsToldOf snapshot (λ o. watch_text o names.now) text.items) }
{
    let image = image_of(alloc, &snapshot)?;
    let mut look = Look::of(alloc, &image, snapshot)?;
    let mut out = Vec::new(alloc);
    match put_asked(&mut out, &image, &mut look, names) {
        Ok(()) => Some(out),
        Err(_) => None,
    }
}
