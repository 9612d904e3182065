//! Whether a snapshot has what a machine of an image keeps: values and instances as declared, and the types on arrival.

ghost use Rattle.std.specs.Prelude.{◌≡◌, ◌&&◌, length, nat_lt, MatchBool};
ghost use Rattle.ctl_model.specs.Suits.{input_types};
ghost use Rattle.ctl_model.specs.Snapshots.{own_types, are_types, fits_instance, fit_instances, fits_run};
ghost use Rattle.ctl_machine.specs.Kept.{HasBlock, HaveBlocks, HasNoBlock, HasNoState};

use crate::arrival::{are_of, has_type, types_at};
use ctl_blocks::Block;
use il_loader::Image;
use il_model::{BlockKind, Instance, SavedInstance, Snapshot, Value, Variable};

/// Whether there is a value of its type for each variable without a location, in order.
fn fit_variables(values: &[Value], variables: &[Variable]) -> bool
    ensures { result ≡ are_types values.now (own_types variables.now) }
{
    let mut rest = values;
    for variable in variables {
        if variable.location.is_none() {
            let [value, more @ ..] = rest else {
                return false;
            };
            if !has_type(*value, variable.ty) {
                return false;
            }
            rest = more;
        }
    }
    rest.is_empty()
}

/// Whether there is a value of its type for each input of the kind, in order.
fn fit_inputs(values: &[Value], kind: BlockKind) -> bool
    ensures { result ≡ are_types values.now (input_types kind) }
{
    let mut rest = values;
    for field in kind.fields() {
        if field.is_input() {
            let [value, more @ ..] = rest else {
                return false;
            };
            if !has_type(*value, field.ty()) {
                return false;
            }
            rest = more;
        }
    }
    rest.is_empty()
}

fn fits_instance(declared: &Instance, saved: &SavedInstance) -> bool
    ensures { result ≡ fits_instance declared.now saved.now }
{
    saved.kind == declared.kind && fit_inputs(saved.inputs.as_slice(), declared.kind)
}

/// Whether there is an instance of its kind for each that is declared, in order.
fn fit_instances(declared: &[Instance], saved: &[SavedInstance]) -> bool
    ensures { result ≡ fit_instances declared.now saved.now }
{
    if declared.len() != saved.len() {
        return false;
    }
    for i in 0..declared.len() {
        if !fits_instance(&declared[i], &saved[i]) {
            return false;
        }
    }
    true
}

/// Whether a snapshot has a value of its type for each variable that the image declares without a location, and an
/// instance of its kind, with a value of its type for each input, for each instance.
pub fn fits_values(image: &Image, parts: &Snapshot) -> bool
    ensures { result ≡ (are_types parts.now.variables (own_types image.now.variables)
        && fit_instances image.now.instances parts.now.instances) }
{
    fit_variables(parts.variables.as_slice(), image.variables())
        && fit_instances(image.instances(), parts.instances.as_slice())
}

/// Whether the words of an instance are a state of its kind.
fn has_state(saved: &SavedInstance) -> bool
    ensures { MatchBool result (HasBlock saved.now) (HasNoBlock saved.now) }
{
    Block::restore(saved.kind, saved.words).is_some()
}

/// Whether the words of each instance are a state of its kind.
pub fn have_states(instances: &[SavedInstance]) -> bool
    ensures { MatchBool result (HaveBlocks instances.now) (HasNoState instances.now) }
{
    for x in instances {
        if !has_state(x) {
            return false;
        }
    }
    true
}

/// Whether a snapshot's position is an instruction's, and its current result and deferred operators are of the types on
/// arrival there.
pub fn fits_run(image: &Image, parts: &Snapshot) -> bool
    ensures { result ≡ fits_run image.now parts.now }
{
    if parts.position as usize >= image.len() {
        return false;
    }
    let types = types_at(image, parts.position);
    are_of(&types, parts.cr, parts.deferred.as_slice())
}
