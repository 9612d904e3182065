//! Lists of what is seen: all variables, all instances with their fields, those that are named.

ghost use Rattle.std.specs.Prelude.{◌≡◌, ◌<◌, ◌≤◌, IfOk, OnOk, length};
ghost use Rattle.std.specs.List.{enumerate_from, flat_map};
ghost use Rattle.il_model.specs.CodedOperands.{code_of};
ghost use Rattle.il_model.specs.declared.coded_operand.CodedOperand.TheVariants as coded;
ghost use Rattle.il_model.specs.declared.limits.TheConstants.{MOST_INSTANCES, MOST_VARIABLES};
ghost use Rattle.ctl_model.specs.Slots.{slot_of};
ghost use Rattle.plc_figures.specs.Texts.{IsAdded};
ghost use Rattle.plc_values.specs.Values.{field_json, full_name, instance_json, instances_json};
ghost use Rattle.plc_values.specs.Values.{shown_of, variable_json, variables_json, watched_json, watched_in};

use crate::entry::put_entry;
use crate::look::Look;
use crate::shown::Shown;
use ctl_debugger::slot;
use il_loader::Image;
use il_model::{CodedOperand, Field, Instance, Slot, Variable};
use plc_figures::{put, put_comma, put_string};
use std::alloc::{AllocError, Global};

/// The slot of the variable with this number.
fn slot_of_variable(number: usize) -> Slot
    requires { number < MOST_VARIABLES }
    ensures { result.0 ≡ code_of (coded.Variable number) }
{
    Slot(CodedOperand::Variable(number as u16).code() as u16)
}

/// The slot of the field with this number of the instance with that one.
fn slot_of_field(instance: usize, field: usize) -> Slot
    requires instance { instance < MOST_INSTANCES }
    requires field { field < 8 }
    ensures { result.0 ≡ code_of (coded.Field instance field) }
{
    let coded = CodedOperand::Field {
        instance: instance as u16,
        field: field as u8,
    };
    Slot(coded.code() as u16)
}

/// Adds the variable with this number.
fn put_variable(
    out: &mut Vec<u8>,
    image: &Image,
    look: &mut Look,
    number: usize,
    variable: &Variable,
) -> Result<(), AllocError>
    requires program { look.old.program ≡ image.now }
    requires few { number < MOST_VARIABLES }
    ensures text { OnOk result
        (IsAdded out.old.items (variable_json look.old (number, variable.now)) out.new.items) }
    ensures same { look.new ≡ look.old }
{
    let shown = look.shown_at(image, slot_of_variable(number));
    put_entry(out, number, variable.name.bytes(), shown)?;
    Ok(())
}

fn put_each_variable(
    out: &mut Vec<u8>,
    image: &Image,
    look: &mut Look,
    variables: &[Variable],
) -> Result<(), AllocError>
    requires program { look.old.program ≡ image.now }
    requires few { length variables.now ≤ MOST_VARIABLES }
    ensures text { OnOk result (IsAdded out.old.items
        (flat_map (variable_json look.old) (enumerate_from 0 variables.now)) out.new.items) }
    ensures same { look.new ≡ look.old }
{
    for (number, variable) in variables.iter().enumerate() {
        put_variable(out, image, look, number, variable)?;
    }
    Ok(())
}

/// Adds all variables.
pub(crate) fn put_variables(
    out: &mut Vec<u8>,
    image: &Image,
    look: &mut Look,
) -> Result<(), AllocError>
    requires program { look.old.program ≡ image.now }
    ensures text { OnOk result (IsAdded out.old.items (variables_json look.old) out.new.items) }
    ensures same { look.new ≡ look.old }
{
    image.know_lawful();
    put_each_variable(out, image, look, image.variables())?;
    Ok(())
}

/// The name of an instance's field, as `T1.ET`.
fn full_name(alloc: Global, name: &[u8], field: Field) -> Result<Vec<u8>, AllocError>
    ensures { IfOk result (λ text. text.items ≡ full_name name.now field) }
{
    let mut text = Vec::from_slice(alloc, name)?;
    text.extend_from_slice(b".")?;
    text.extend_from_slice(field.name())?;
    Ok(text)
}

/// Adds the field with this number of an instance.
fn put_field(
    alloc: Global,
    out: &mut Vec<u8>,
    image: &Image,
    look: &mut Look,
    instance: usize,
    name: &[u8],
    number: usize,
    field: Field,
) -> Result<(), AllocError>
    requires program { look.old.program ≡ image.now }
    requires few { instance < MOST_INSTANCES }
    requires field { number < 8 }
    ensures text { OnOk result
        (IsAdded out.old.items (field_json look.old instance name.now (number, field)) out.new.items) }
    ensures same { look.new ≡ look.old }
{
    let name = full_name(alloc, name, field)?;
    let shown = look.shown_at(image, slot_of_field(instance, number));
    put_entry(out, number, name.as_slice(), shown)?;
    Ok(())
}

/// Adds all fields of an instance.
fn put_fields(
    alloc: Global,
    out: &mut Vec<u8>,
    image: &Image,
    look: &mut Look,
    instance: usize,
    name: &[u8],
    fields: &[Field],
) -> Result<(), AllocError>
    requires program { look.old.program ≡ image.now }
    requires few { instance < MOST_INSTANCES }
    requires fields { length fields.now ≤ 8 }
    ensures text { OnOk result (IsAdded out.old.items
        (flat_map (field_json look.old instance name.now) (enumerate_from 0 fields.now)) out.new.items) }
    ensures same { look.new ≡ look.old }
{
    for (number, field) in fields.iter().enumerate() {
        put_field(alloc, out, image, look, instance, name, number, *field)?;
    }
    Ok(())
}

/// Adds the instance with this number.
fn put_instance(
    alloc: Global,
    out: &mut Vec<u8>,
    image: &Image,
    look: &mut Look,
    number: usize,
    instance: &Instance,
) -> Result<(), AllocError>
    requires program { look.old.program ≡ image.now }
    requires few { number < MOST_INSTANCES }
    ensures text { OnOk result
        (IsAdded out.old.items (instance_json look.old (number, instance.now)) out.new.items) }
    ensures same { look.new ≡ look.old }
{
    let name = instance.name.bytes();
    put_comma(out, number)?;
    put(out, b"{\"name\":")?;
    put_string(out, name)?;
    put(out, b",\"type\":\"")?;
    put(out, instance.kind.name())?;
    put(out, b"\",\"fields\":[")?;
    put_fields(
        alloc,
        out,
        image,
        look,
        number,
        name,
        instance.kind.fields(),
    )?;
    put(out, b"]}")?;
    Ok(())
}

fn put_each_instance(
    alloc: Global,
    out: &mut Vec<u8>,
    image: &Image,
    look: &mut Look,
    instances: &[Instance],
) -> Result<(), AllocError>
    requires program { look.old.program ≡ image.now }
    requires few { length instances.now ≤ MOST_INSTANCES }
    ensures text { OnOk result (IsAdded out.old.items
        (flat_map (instance_json look.old) (enumerate_from 0 instances.now)) out.new.items) }
    ensures same { look.new ≡ look.old }
{
    for (number, instance) in instances.iter().enumerate() {
        put_instance(alloc, out, image, look, number, instance)?;
    }
    Ok(())
}

/// Adds all instances.
pub(crate) fn put_instances(
    alloc: Global,
    out: &mut Vec<u8>,
    image: &Image,
    look: &mut Look,
) -> Result<(), AllocError>
    requires program { look.old.program ≡ image.now }
    ensures text { OnOk result (IsAdded out.old.items (instances_json look.old) out.new.items) }
    ensures same { look.new ≡ look.old }
{
    image.know_lawful();
    put_each_instance(alloc, out, image, look, image.instances())?;
    Ok(())
}

/// What is seen of the slot of a name.
fn shown_of(image: &Image, look: &mut Look, name: &str) -> Shown
    requires program { look.old.program ≡ image.now }
    ensures shown { result ≡ shown_of look.old (slot_of image.now name.now) }
    ensures same { look.new ≡ look.old }
{
    match slot(image, name.as_bytes()) {
        Some(slot) => look.shown_at(image, slot),
        None => Shown {
            place: None,
            value: None,
            is_forced: false,
        },
    }
}

/// Adds what is seen of a name.
fn put_named(
    out: &mut Vec<u8>,
    image: &Image,
    look: &mut Look,
    number: usize,
    name: &String,
) -> Result<(), AllocError>
    requires program { look.old.program ≡ image.now }
    ensures text { OnOk result
        (IsAdded out.old.items (watched_json look.old (number, name.now)) out.new.items) }
    ensures same { look.new ≡ look.old }
{
    let shown = shown_of(image, look, name.as_str());
    put_entry(out, number, name.as_bytes(), shown)?;
    Ok(())
}

/// Adds what is seen of these names, in their order.
pub(crate) fn put_watched(
    out: &mut Vec<u8>,
    image: &Image,
    look: &mut Look,
    names: &[String],
) -> Result<(), AllocError>
    requires program { look.old.program ≡ image.now }
    ensures text { OnOk result (IsAdded out.old.items (watched_in look.old names.now) out.new.items) }
    ensures same { look.new ≡ look.old }
{
    for (number, name) in names.iter().enumerate() {
        put_named(out, image, look, number, name)?;
    }
    Ok(())
}
