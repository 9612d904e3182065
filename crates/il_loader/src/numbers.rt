//! The numbers of variables and of instances by their names, so that a look-up takes a time that grows as the logarithm
//! of how many there are. The tables own the names.

ghost use Rattle.std.specs.Prelude.{◌≡◌, ◌≤◌, ℕ, List, length, IfOk};
ghost use Rattle.std.specs.List.{position};
ghost use Rattle.il_model.specs.Words.{same_name};
ghost use Rattle.il_model.specs.Resolved.{instance_in};
ghost use Rattle.il_loader.specs.Linked.{number_in, TellNumbers};

use il_model::{Instance, MOST_INSTANCES, MOST_VARIABLES, Program, Variable};
use std::alloc::{AllocError, Global};
use std::collections::BTreeMap;

/// The number of each variable, and of each instance, by its name.
#[derive(Drop)]
pub struct Numbers {
    pub variables: BTreeMap<Vec<u8>, u16>,
    pub instances: BTreeMap<Vec<u8>, u16>,
}

/// The number of the first variable with each name, found from behind.
fn variable_numbers(
    alloc: Global,
    variables: &[Variable],
) -> Result<BTreeMap<Vec<u8>, u16>, AllocError>
    requires { length variables.now ≤ MOST_VARIABLES }
    ensures { IfOk result (λ m. (name : List ℕ)
        → number_in m name ≡ position (λ v. same_name v.name name) variables.now) }
{
    let mut found = BTreeMap::new(alloc);
    let mut n = variables.len();
    while n > 0 {
        n -= 1;
        let key = Vec::from_slice(alloc, variables[n].name.bytes())?;
        found.insert(key, n as u16)?;
    }
    Ok(found)
}

/// The number of the first instance with each name, found from behind.
fn instance_numbers(
    alloc: Global,
    instances: &[Instance],
) -> Result<BTreeMap<Vec<u8>, u16>, AllocError>
    requires { length instances.now ≤ MOST_INSTANCES }
    ensures { IfOk result (λ m. (name : List ℕ) → number_in m name ≡ instance_in instances.now name) }
{
    let mut found = BTreeMap::new(alloc);
    let mut n = instances.len();
    while n > 0 {
        n -= 1;
        let key = Vec::from_slice(alloc, instances[n].name.bytes())?;
        found.insert(key, n as u16)?;
    }
    Ok(found)
}

/// The numbers of a program's variables and instances.
pub fn numbered(alloc: Global, program: &Program) -> Result<Numbers, AllocError>
    ensures { IfOk result (λ n. TellNumbers program.now n) }
{
    let variables = variable_numbers(alloc, program.variables.as_slice())?;
    let instances = instance_numbers(alloc, program.instances.as_slice())?;
    Ok(Numbers {
        variables,
        instances,
    })
}
