//! What goes on when the program changes.

ghost use Rattle.std.specs.Prelude.{◌≡◌, length, map, position};
ghost use Rattle.ctl_model.specs.Changes.{goes_on, goes_on_as, kept_value, kept_instance, carried_value};
ghost use Rattle.ctl_model.specs.Changes.{carried_instance, placed_by};

use crate::instance::InstanceState;
use il_loader::Image;
use il_model::{Instance, Value, Variable};

/// Whether a variable goes on as another one, of the new program: both have that name and that type, and neither has a
/// location.
fn goes_on(old: &Variable, new: &Variable) -> bool
    ensures { result ≡ goes_on old.now new.now }
{
    old.name.is(&new.name) && old.ty == new.ty && old.location.is_none() && new.location.is_none()
}

/// Whether an instance goes on as another one, of the new program: both have that name and that kind.
fn goes_on_as(old: &Instance, new: &Instance) -> bool
    ensures { result ≡ goes_on_as old.now new.now }
{
    old.name.is(&new.name) && old.kind == new.kind
}

/// The number of a variable, if that goes on as this one.
fn if_goes_on(variables: &[Variable], number: Option<u16>, new: &Variable) -> Option<usize>
    ensures { result ≡ placed_by (λ old. goes_on old new.now) variables.now number }
{
    let i = usize::from(number?);
    let old = variables.get(i)?;
    if goes_on(old, new) { Some(i) } else { None }
}

/// The place of the variable that goes on as this one; it's found by its name.
fn place_before(image: &Image, new: &Variable) -> Option<usize>
    ensures { result ≡ position (λ old. goes_on old new.now) image.now.variables }
{
    image.know_lawful();
    let number = image.variable_named(&new.name);
    if_goes_on(image.variables(), number, new)
}

/// The value of the variable that goes on as this one.
fn kept_value(image: &Image, values: &[Value], new: &Variable) -> Option<Value>
    ensures { result ≡ kept_value image.now.variables values.now new.now }
{
    let i = place_before(image, new)?;
    values.get(i).copied()
}

fn carried_value(image: &Image, values: &[Value], new: &Variable) -> Value
    ensures { result ≡ carried_value image.now.variables values.now new.now }
{
    match kept_value(image, values, new) {
        Some(value) => value,
        None => new.initial,
    }
}

/// The values of the new program's variables, in order, by the image and the values of the old one.
pub fn carry_values(own: &mut Vec<Value>, new: &[Variable], image: &Image, values: &[Value])
    requires { length own.old.items ≡ length new.now }
    ensures { own.new.items ≡ map (carried_value image.now.variables values.now) new.now }
{
    for i in 0..new.len() {
        own[i] = carried_value(image, values, &new[i]);
    }
}

/// The number of an instance, if that goes on as this one.
fn if_goes_on_as(declared: &[Instance], number: Option<u16>, new: &Instance) -> Option<usize>
    ensures { result ≡ placed_by (λ old. goes_on_as old new.now) declared.now number }
{
    let i = usize::from(number?);
    let old = declared.get(i)?;
    if goes_on_as(old, new) { Some(i) } else { None }
}

/// The place of the instance that goes on as this one; it's found by its name.
fn instance_before(image: &Image, new: &Instance) -> Option<usize>
    ensures { result ≡ position (λ old. goes_on_as old new.now) image.now.instances }
{
    image.know_lawful();
    let number = image.instance_named(&new.name);
    if_goes_on_as(image.instances(), number, new)
}

/// The instance that goes on as this one, with its inputs and its state.
fn kept_instance(
    image: &Image,
    instances: &[InstanceState],
    new: &Instance,
) -> Option<InstanceState>
    ensures { result ≡ kept_instance image.now.instances instances.now new.now }
{
    let i = instance_before(image, new)?;
    let instance = instances.get(i)?;
    Some(instance.copy())
}

fn carried_instance(image: &Image, instances: &[InstanceState], new: &Instance) -> InstanceState
    ensures { result ≡ carried_instance image.now.instances instances.now new.now }
{
    match kept_instance(image, instances, new) {
        Some(instance) => instance,
        None => InstanceState::cold(new),
    }
}

/// The instances of the new program, in order, by the image and the instances of the old one.
pub fn carry_instances(
    states: &mut Vec<InstanceState>,
    new: &[Instance],
    image: &Image,
    instances: &[InstanceState],
)
    requires { length states.old.items ≡ length new.now }
    ensures { states.new.items ≡ map (carried_instance image.now.instances instances.now) new.now }
{
    for i in 0..new.len() {
        states[i] = carried_instance(image, instances, &new[i]);
    }
}
