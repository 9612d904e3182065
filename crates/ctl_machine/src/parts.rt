//! Variables and function block instances in snapshots, and back.

ghost use Rattle.std.specs.Prelude.{◌≡◌, ◌≤◌, length, map, IfOk, option_map};
ghost use Rattle.std.specs.List.{AllByRecursion};
ghost use Rattle.il_model.specs.Snapshots.{SavedBlock};
ghost use Rattle.ctl_model.specs.Snapshots.{own_values, saved_instance};
ghost use Rattle.ctl_machine.specs.Kept.{all_values, AreLawful, HasFewInputs, RestoresAll};

use crate::instance::InstanceState;
use arrayvec::ArrayVec;
use il_model::{Deferred, MOST_OPEN_PARENTHESES, SavedInstance, Value, Variable};
use std::alloc::{AllocError, Global};

/// The values of the variables without a location, in order.
#[tactic(auto, using(crate::proofs::Values::none_own))]
pub fn own_values(
    alloc: Global,
    variables: &[Variable],
    values: &[Value],
) -> Result<Vec<Value>, AllocError>
    ensures { IfOk result (λ v. v.items ≡ own_values variables.now values.now) }
{
    let mut own = Vec::new(alloc);
    let mut rest = values;
    for variable in variables {
        let [value, more @ ..] = rest else {
            return Ok(own);
        };
        if variable.location.is_none() {
            own.push(*value)?;
        }
        rest = more;
    }
    Ok(own)
}

/// A value for each variable: its first one where it has a location, else the next of these.
pub fn all_values(
    alloc: Global,
    variables: &[Variable],
    own: &[Value],
) -> Result<Vec<Value>, AllocError>
    ensures { IfOk result (λ v. v.items ≡ all_values variables.now own.now) }
{
    let mut values = Vec::new(alloc);
    let mut rest = own;
    for variable in variables {
        if variable.location.is_some() {
            values.push(variable.initial)?;
        } else if let [value, more @ ..] = rest {
            values.push(*value)?;
            rest = more;
        }
    }
    Ok(values)
}

/// What a snapshot has of instances, in order.
pub fn saved_instances(
    alloc: Global,
    instances: &[InstanceState],
) -> Result<Vec<SavedInstance>, AllocError>
    ensures saved { IfOk result (λ v. v.items ≡ map saved_instance instances.now) }
    ensures lawful { IfOk result (λ v. AreLawful instances.now) }
{
    let mut saved = Vec::new(alloc);
    for x in instances {
        saved.push(x.saved(alloc)?)?;
    }
    Ok(saved)
}

/// The instances that a snapshot has, in order; None where the words of one are no state of its kind.
pub fn restored_instances(
    alloc: Global,
    saved: &[SavedInstance],
) -> Result<Option<Vec<InstanceState>>, AllocError>
    requires { AllByRecursion HasFewInputs saved.now }
    ensures { IfOk result (λ o. RestoresAll saved.now (option_map (λ v. v.items) o)) }
{
    let mut instances = Vec::new(alloc);
    for x in saved {
        let Some(instance) = InstanceState::restored(x) else {
            return Ok(None);
        };
        instances.push(instance)?;
    }
    Ok(Some(instances))
}

/// The deferred operators of a snapshot.
pub fn restored_deferred(deferred: &[Deferred]) -> ArrayVec<Deferred, MOST_OPEN_PARENTHESES>
    requires { length deferred.now ≤ MOST_OPEN_PARENTHESES }
    ensures { result.items ≡ deferred.now }
{
    let mut kept = ArrayVec::new();
    for x in deferred {
        kept.push(*x);
    }
    kept
}
