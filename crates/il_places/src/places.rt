//! The places of a program's instructions in its text.

ghost use Rattle.std.specs.Prelude.{◌≡◌, map, true, false, IfOk, IfErr, IfSome};
ghost use Rattle.il_units.specs.Spelling.{has_units};
ghost use Rattle.il_reader.specs.Grammar.{line};
ghost use Rattle.il_text.specs.Meaning.{IsTextFault, OrMemory};
ghost use Rattle.il_places.specs.Places.{left_in, plain_origin, ArePlaces, AreKnownPlaces};

use crate::name::Name;
use crate::origins::Origin;
use crate::reaching::Reached;
use crate::tracing::program_origins;
use il_reader::{EXTENDED_TEXT_LIMIT, Line, Place, Source, place_of};
use il_text::{Fault, image};
use il_units::{Units, has_units};
use std::alloc::{AllocError, Global};
use std::marker::Model;

/// A text, and where the instruction at each position of its program comes from.
#[derive(Drop)]
pub struct Places<'t> {
    text: &'t [u8],
    origins: Vec<Origin>,
}

impl<'t> Model for Places<'t> {
    ghost use Rattle.std.specs.Prelude.{◌≤◌, length};
    ghost use Rattle.il_reader.specs.declared.source.TheConstants.{EXTENDED_TEXT_LIMIT};
    ghost use Rattle.il_places.specs.Places.{PlacesText};

    ghost Value = { PlacesText };

    ghost view = { λ p. record { text = p.text.now; origins = p.origins.items } };

    ghost invariant = { λ p. length p.text.now ≤ EXTENDED_TEXT_LIMIT };
}

impl<'t> Places<'t> {
    ghost use Rattle.std.specs.Prelude.{◌≡◌, ◌≤◌, [], length};
    ghost use Rattle.il_reader.specs.Texts.{place_at};
    ghost use Rattle.il_reader.specs.declared.source.TheConstants.{EXTENDED_TEXT_LIMIT};
    ghost use Rattle.il_places.specs.Places.{place_in, instance_in, nowhere, IsReached};

    /// The places of a text that isn't too long.
    fn of(text: &'t [u8], origins: Vec<Origin>) -> Places<'t>
        requires { length text.now ≤ EXTENDED_TEXT_LIMIT }
        ensures { result ≡ record { text = text.entry.now; origins = origins.items } }
    {
        Places { text, origins }
    }

    /// No place of any position.
    pub fn nowhere(alloc: Global) -> Places<'t>
        ensures { result ≡ nowhere }
    {
        Places {
            text: b"",
            origins: Vec::new(alloc),
        }
    }

    /// The origins, in the order of positions.
    pub(crate) fn origins(&self) -> &[Origin]
        ensures { result.now ≡ self.now.origins }
    {
        self.origins.as_slice()
    }

    /// To where the byte of the text stands from which on so many are left, from what was reached before.
    pub(crate) fn reached(&self, before: Reached, left: usize) -> Reached
        requires { IsReached self.now.text before }
        ensures reached { IsReached self.now.text result }
        ensures place { result.place ≡ place_at self.now.text left }
    {
        before.at(self.text, left)
    }

    /// Where the instruction at a position stands; none where there is no such position.
    pub fn place(&self, position: usize) -> Option<Place>
        ensures { result ≡ place_in self.now position }
    {
        match self.origins.get(position) {
            Some(origin) => Some(place_of(self.text, origin.left)),
            None => None,
        }
    }

    /// The full name of the instance in whose body it stands; nothing where it's the program's own, or there is none.
    pub fn instance(&self, position: usize) -> &[u8]
        ensures { result.now ≡ instance_in self.now position }
    {
        match self.origins.get(position) {
            Some(origin) => origin.instance.bytes(),
            None => b"",
        }
    }
}

// ---- texts without units

/// How many bytes the text has from the place of a line's instruction on: the operator's, or that of a label alone.
fn left_in(written: &Line) -> usize
    ensures { result ≡ left_in (line written.now) }
{
    match written {
        Line::Labelled(t, None) => t.left,
        Line::Labelled(_, Some(o)) | Line::Plain(o) => o.operator.left,
    }
}

/// The origins of the lines of a text that is none of units.
fn plain_origins(alloc: Global, source: &Source) -> Result<Vec<Origin>, AllocError>
    ensures { IfOk result (λ v. v.items ≡ map plain_origin source.now.says.lines) }
{
    let mut found = Vec::new(alloc);
    for written in source.lines() {
        found.push(Origin::by_itself(alloc, left_in(written)))?;
    }
    Ok(found)
}

// ---- any text

/// The places of a text that is none of units; none where it has a fault, or memory ran out.
fn plain_places(alloc: Global, text: &[u8]) -> Option<Places<'_>>
    requires { has_units text.now ≡ false }
    ensures { IfSome result (ArePlaces text.entry.now) }
{
    if text.len() > EXTENDED_TEXT_LIMIT {
        return None;
    }
    let Ok(source) = il_reader::read(alloc, text) else {
        return None;
    };
    match plain_origins(alloc, &source) {
        Ok(origins) => Some(Places::of(text, origins)),
        Err(_) => None,
    }
}

/// The places of a text of units; none where it has a fault, or memory ran out.
fn unit_places(alloc: Global, text: &[u8]) -> Option<Places<'_>>
    requires { has_units text.now ≡ true }
    ensures { IfSome result (ArePlaces text.entry.now) }
{
    if text.len() > EXTENDED_TEXT_LIMIT {
        return None;
    }
    let Ok(units) = il_units::read(alloc, text) else {
        return None;
    };
    match program_origins(alloc, &units) {
        Ok(origins) => Some(Places::of(text, origins)),
        Err(_) => None,
    }
}

/// The places of a text; none where it has a fault, or memory ran out.
fn places_in(alloc: Global, text: &[u8]) -> Option<Places<'_>>
    ensures { IfSome result (ArePlaces text.entry.now) }
{
    if has_units(text) {
        unit_places(alloc, text)
    } else {
        plain_places(alloc, text)
    }
}

/// The places of a text, or its first fault.
pub fn places_of(alloc: Global, text: &[u8]) -> Result<Places<'_>, Fault>
    ensures found { IfOk result (ArePlaces text.entry.now) }
    // What is told is the text's first fault, or that memory ran out.
    ensures refused { IfErr result (OrMemory (IsTextFault text.entry.now)) }
{
    image(alloc, text)?;
    match places_in(alloc, text) {
        Some(places) => Ok(places),
        // The text is good: what is wanting is memory.
        None => Err(Fault::Memory),
    }
}

/// The places that are told beside the answers of a text's program: those of a text of units, as long as no other
/// program goes on. None where the text has a fault, or memory ran out.
pub fn known_places(alloc: Global, text: &[u8], is_changed: bool) -> Option<Places<'_>>
    ensures { IfSome result (AreKnownPlaces text.entry.now is_changed) }
{
    if is_changed || !has_units(text) {
        Some(Places::nowhere(alloc))
    } else {
        places_in(alloc, text)
    }
}
