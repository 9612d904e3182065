//! What a change of the program does to the names of both.

ghost use Rattle.std.specs.Prelude.{◌≡◌, ◌++◌, find, IfOk};
ghost use Rattle.std.specs.List.{flat_map, list_any};
ghost use Rattle.std.specs.Option.{option_map};
ghost use Rattle.ctl_model.specs.Changes.{goes_on, goes_on_as};
ghost use Rattle.plc_symbols.specs.Compared.{at_place, variable_text, instance_text, source_of, source_of_instance};
ghost use Rattle.plc_symbols.specs.Compared.{variable_line, instance_line, ended_line, ended_instance_line};
ghost use Rattle.plc_symbols.specs.Compared.{retained_text, turned_text, was_retained, was_retained_instance};
ghost use Rattle.plc_symbols.specs.Compared.{compared_text, verdict_text};

use crate::words::{name_of, place};
use il_loader::Image;
use il_model::{Instance, Loc, Variable};
use std::alloc::{AllocError, Global};

/// Whether a variable goes on as another one, by its name and its type: neither lies at a place.
fn does_go_on(old: &Variable, new: &Variable) -> bool
    ensures { result ≡ goes_on old.now new.now }
{
    old.name.is(&new.name) && old.ty == new.ty && old.location.is_none() && new.location.is_none()
}

/// Whether an instance goes on as another one, by its name and its kind.
fn does_go_on_as(old: &Instance, new: &Instance) -> bool
    ensures { result ≡ goes_on_as old.now new.now }
{
    old.name.is(&new.name) && old.kind.code() == new.kind.code()
}

fn goes_on_from_any(old: &[Variable], new: &Variable) -> bool
    ensures { result ≡ list_any (λ u. goes_on u new.now) old.now }
{
    old.iter().any(|variable| does_go_on(variable, new))
}

fn goes_on_as_any(old: &Variable, new: &[Variable]) -> bool
    ensures { result ≡ list_any (λ v. goes_on old.now v) new.now }
{
    new.iter().any(|variable| does_go_on(old, variable))
}

fn instance_from_any(old: &[Instance], new: &Instance) -> bool
    ensures { result ≡ list_any (λ x. goes_on_as x new.now) old.now }
{
    old.iter().any(|instance| does_go_on_as(instance, new))
}

fn instance_as_any(old: &Instance, new: &[Instance]) -> bool
    ensures { result ≡ list_any (λ y. goes_on_as old.now y) new.now }
{
    new.iter().any(|instance| does_go_on_as(old, instance))
}

fn at(alloc: Global, location: Option<Loc>) -> Result<Vec<u8>, AllocError>
    ensures { IfOk result (λ text. text.items ≡ at_place location) }
{
    let Some(loc) = location else {
        return Ok(Vec::new(alloc));
    };
    let mut text = Vec::from_slice(alloc, b" AT ")?;
    text.extend_from_slice(place(alloc, loc)?.as_slice())?;
    Ok(text)
}

/// What is written behind a type or a kind where what has it is retained.
fn retained_text(retained: bool) -> &'static [u8]
    ensures { result.now ≡ retained_text retained }
{
    if retained { b" RETAIN" } else { b"" }
}

/// What is written of a name that goes on, by whether it was retained and whether it is now.
fn turned_text(before: bool, now: bool) -> &'static [u8]
    ensures { result.now ≡ turned_text before now }
{
    match (before, now) {
        (false, true) => b", not retained before",
        (true, false) => b", retained before",
        _ => b"",
    }
}

fn text_of(alloc: Global, variable: &Variable) -> Result<Vec<u8>, AllocError>
    ensures { IfOk result (λ text. text.items ≡ variable_text variable.now) }
{
    let place = at(alloc, variable.location)?;
    let mut text = Vec::from_slice(alloc, variable.name.bytes())?;
    text.extend_from_slice(place.as_slice())?;
    text.extend_from_slice(b" : ")?;
    text.extend_from_slice(name_of(variable.ty))?;
    text.extend_from_slice(retained_text(variable.retained))?;
    Ok(text)
}

fn text_of_instance(alloc: Global, instance: &Instance) -> Result<Vec<u8>, AllocError>
    ensures { IfOk result (λ text. text.items ≡ instance_text instance.now) }
{
    let mut text = Vec::from_slice(alloc, instance.name.bytes())?;
    text.extend_from_slice(b" : ")?;
    text.extend_from_slice(instance.kind.name())?;
    text.extend_from_slice(retained_text(instance.retained))?;
    Ok(text)
}

/// The variable of the old program that goes on as this one of the new program.
fn earlier<'a>(old: &'a [Variable], new: &Variable) -> Option<&'a Variable>
    ensures { option_map (λ u. u.now) result ≡ find (λ u. goes_on u new.now) old.now }
{
    old.iter().find(|variable| does_go_on(variable, new))
}

/// The instance of the old program that does.
fn earlier_instance<'a>(old: &'a [Instance], new: &Instance) -> Option<&'a Instance>
    ensures { option_map (λ x. x.now) result ≡ find (λ x. goes_on_as x new.now) old.now }
{
    old.iter().find(|instance| does_go_on_as(instance, new))
}

/// Whether that from which a variable goes on was retained; as it is now where it goes on from none.
fn was_retained(old: &[Variable], new: &Variable) -> bool
    ensures { result ≡ was_retained old.now new.now }
{
    match earlier(old, new) {
        Some(variable) => variable.retained,
        None => new.retained,
    }
}

/// The same of an instance.
fn was_retained_instance(old: &[Instance], new: &Instance) -> bool
    ensures { result ≡ was_retained_instance old.now new.now }
{
    match earlier_instance(old, new) {
        Some(instance) => instance.retained,
        None => new.retained,
    }
}

/// Where a variable of the new program has its value from.
fn source(old: &[Variable], variable: &Variable) -> &'static [u8]
    ensures { result.now ≡ source_of old.now variable.now }
{
    if variable.location.is_some() {
        b"at place "
    } else if goes_on_from_any(old, variable) {
        b"goes on  "
    } else {
        b"begins   "
    }
}

fn source_of_block(old: &[Instance], instance: &Instance) -> &'static [u8]
    ensures { result.now ≡ source_of_instance old.now instance.now }
{
    if instance_from_any(old, instance) {
        b"goes on  "
    } else {
        b"begins   "
    }
}

/// The line of a variable of the new program.
fn line(alloc: Global, old: &[Variable], variable: &Variable) -> Result<Vec<u8>, AllocError>
    ensures { IfOk result (λ text. text.items ≡ variable_line old.now variable.now) }
{
    let mut text = Vec::from_slice(alloc, source(old, variable))?;
    text.extend_from_slice(text_of(alloc, variable)?.as_slice())?;
    text.extend_from_slice(turned_text(was_retained(old, variable), variable.retained))?;
    text.extend_from_slice(b"\n")?;
    Ok(text)
}

/// The line of an instance of the new program.
fn line_of_instance(
    alloc: Global,
    old: &[Instance],
    instance: &Instance,
) -> Result<Vec<u8>, AllocError>
    ensures { IfOk result (λ text. text.items ≡ instance_line old.now instance.now) }
{
    let mut text = Vec::from_slice(alloc, source_of_block(old, instance))?;
    text.extend_from_slice(text_of_instance(alloc, instance)?.as_slice())?;
    text.extend_from_slice(turned_text(was_retained_instance(old, instance), instance.retained))?;
    text.extend_from_slice(b"\n")?;
    Ok(text)
}

/// The line of a variable of the old program that goes on as none of the new one, or nothing.
fn line_of_ended(
    alloc: Global,
    new: &[Variable],
    variable: &Variable,
) -> Result<Vec<u8>, AllocError>
    ensures { IfOk result (λ text. text.items ≡ ended_line new.now variable.now) }
{
    if variable.location.is_some() || goes_on_as_any(variable, new) {
        return Ok(Vec::new(alloc));
    }
    let mut text = Vec::from_slice(alloc, b"ends     ")?;
    text.extend_from_slice(text_of(alloc, variable)?.as_slice())?;
    text.extend_from_slice(b"\n")?;
    Ok(text)
}

/// The line of an instance of the old program that goes on as none of the new one, or nothing.
fn line_of_ended_instance(
    alloc: Global,
    new: &[Instance],
    instance: &Instance,
) -> Result<Vec<u8>, AllocError>
    ensures { IfOk result (λ text. text.items ≡ ended_instance_line new.now instance.now) }
{
    if instance_as_any(instance, new) {
        return Ok(Vec::new(alloc));
    }
    let mut text = Vec::from_slice(alloc, b"ends     ")?;
    text.extend_from_slice(text_of_instance(alloc, instance)?.as_slice())?;
    text.extend_from_slice(b"\n")?;
    Ok(text)
}

fn lines(alloc: Global, old: &[Variable], new: &[Variable]) -> Result<Vec<u8>, AllocError>
    ensures { IfOk result (λ text. text.items ≡ flat_map (variable_line old.now) new.now) }
{
    let mut text = Vec::new(alloc);
    for variable in new {
        text.extend_from_slice(line(alloc, old, variable)?.as_slice())?;
    }
    Ok(text)
}

fn lines_of_instances(
    alloc: Global,
    old: &[Instance],
    new: &[Instance],
) -> Result<Vec<u8>, AllocError>
    ensures { IfOk result (λ text. text.items ≡ flat_map (instance_line old.now) new.now) }
{
    let mut text = Vec::new(alloc);
    for instance in new {
        text.extend_from_slice(line_of_instance(alloc, old, instance)?.as_slice())?;
    }
    Ok(text)
}

fn lines_of_ended(alloc: Global, old: &[Variable], new: &[Variable]) -> Result<Vec<u8>, AllocError>
    ensures { IfOk result (λ text. text.items ≡ flat_map (ended_line new.now) old.now) }
{
    let mut text = Vec::new(alloc);
    for variable in old {
        text.extend_from_slice(line_of_ended(alloc, new, variable)?.as_slice())?;
    }
    Ok(text)
}

fn lines_of_ended_instances(
    alloc: Global,
    old: &[Instance],
    new: &[Instance],
) -> Result<Vec<u8>, AllocError>
    ensures { IfOk result (λ text. text.items ≡ flat_map (ended_instance_line new.now) old.now) }
{
    let mut text = Vec::new(alloc);
    for instance in old {
        text.extend_from_slice(line_of_ended_instance(alloc, new, instance)?.as_slice())?;
    }
    Ok(text)
}

/// Whether two programs are the same, by the bytes of their images.
fn verdict(old: &Image, new: &Image) -> &'static [u8]
    ensures { result.now ≡ verdict_text old.now new.now }
{
    if old.bytes() == new.bytes() {
        b"same program\n"
    } else {
        b"another program\n"
    }
}

/// What a change from one program to the other does: whether they are the same, a line for each name of the new one, and
/// for each of the old one that goes on as none of it.
pub fn compared(alloc: Global, old: &Image, new: &Image) -> Result<Vec<u8>, AllocError>
    ensures { IfOk result (λ text. text.items ≡ compared_text old.now new.now) }
{
    let mut text = Vec::from_slice(alloc, verdict(old, new))?;
    text.extend_from_slice(lines(alloc, old.variables(), new.variables())?.as_slice())?;
    text.extend_from_slice(lines_of_instances(
        alloc,
        old.instances(),
        new.instances(),
    )?.as_slice())?;
    text.extend_from_slice(lines_of_ended(alloc, old.variables(), new.variables())?.as_slice())?;
    text.extend_from_slice(lines_of_ended_instances(
        alloc,
        old.instances(),
        new.instances(),
    )?.as_slice())?;
    Ok(text)
}
