//! What is declared so far.

ghost use Rattle.std.specs.Prelude.{◌≡◌, OnOk};
ghost use Rattle.il_declarations.specs.DeclaredTables.{AddsName};

use il_model::{Instance, Loc, Name, Variable, is_overlapping, put_code, stands_under};
use std::alloc::{AllocError, Global};
use std::collections::BTreeSet;
use std::marker::Model;
use std::mem;

/// The variables and the function block instances, each in the order of their declarations, with tables of their names
/// and of the codes of locations, so that a look-up takes a time that grows as the logarithm of their number.
#[derive(Drop)]
pub struct Declared {
    variables: Vec<Variable>,
    instances: Vec<Instance>,
    variable_names: BTreeSet<Vec<u8>>,
    instance_names: BTreeSet<Vec<u8>>,
    codes: BTreeSet<usize>,
}

impl Model for Declared {
    ghost use Rattle.il_model.specs.Program.{Declarations};
    ghost use Rattle.il_declarations.specs.DeclaredTables.{AreDeclaredTables};

    ghost Value = { Declarations };

    ghost view = { λ d. record { variables = d.variables.items; instances = d.instances.items } };

    ghost invariant = { λ d.
        AreDeclaredTables d.variables.items d.instances.items d.variable_names d.instance_names d.codes };
}

/// Puts a name to those of a table.
fn put_name(alloc: Global, names: &mut BTreeSet<Vec<u8>>, name: &Name) -> Result<(), AllocError>
    ensures { OnOk result (AddsName names.old names.new name.now) }
{
    let key = Vec::from_slice(alloc, name.bytes())?;
    names.insert(key)?;
    Ok(())
}

impl Declared {
    ghost use Rattle.std.specs.Prelude.{length, IfOk, OnErr};
    ghost use Rattle.std.specs.List.{list_any};
    ghost use Rattle.il_model.specs.Words.{stands_under};
    ghost use Rattle.il_model.specs.Codes.{has_under, is_overlapped};
    ghost use Rattle.il_declarations.specs.Walk.{nothing, has_name, has_instance, with_variable, with_instance};

    /// Nothing.
    pub fn new(alloc: Global) -> Declared
        ensures { result ≡ nothing }
    {
        Declared {
            variables: Vec::new(alloc),
            instances: Vec::new(alloc),
            variable_names: BTreeSet::new(alloc),
            instance_names: BTreeSet::new(alloc),
            codes: BTreeSet::new(alloc),
        }
    }

    /// How many variables there are.
    pub fn variable_count(&self) -> usize
        ensures { result ≡ length self.now.variables }
    {
        self.variables.len()
    }

    /// How many instances there are.
    pub fn instance_count(&self) -> usize
        ensures { result ≡ length self.now.instances }
    {
        self.instances.len()
    }

    /// Whether a variable has the name.
    pub fn is_variable(&self, name: &Name) -> bool
        ensures { result ≡ has_name self.now name.now }
    {
        self.variable_names.contains(name.bytes())
    }

    /// Whether an instance has the name.
    pub fn is_instance(&self, name: &Name) -> bool
        ensures { result ≡ has_instance self.now name.now }
    {
        self.instance_names.contains(name.bytes())
    }

    /// Whether a variable stands under the name.
    pub fn has_under(&self, name: &Name) -> bool
        ensures { result ≡ has_under self.now.variables name.now }
    {
        self.variables
            .iter()
            .any(|v| stands_under(name.bytes(), v.name.bytes()))
    }

    /// Whether the name stands under that of an instance.
    pub fn is_under(&self, name: &Name) -> bool
        ensures { result ≡ list_any (λ x. stands_under x.name name.now) self.now.instances }
    {
        self.instances
            .iter()
            .any(|x| stands_under(x.name.bytes(), name.bytes()))
    }

    /// Whether a variable lies at a part of the location.
    pub fn is_overlapped(&self, loc: Loc) -> bool
        ensures { result ≡ is_overlapped self.now.variables loc }
    {
        is_overlapping(&self.codes, loc)
    }

    fn with_variable(self, alloc: Global, v: Variable) -> Result<Declared, AllocError>
        ensures { IfOk result (λ d. d ≡ with_variable self v) }
    {
        let Declared {
            mut variables,
            instances,
            mut variable_names,
            instance_names,
            mut codes,
        } = self;
        put_name(alloc, &mut variable_names, &v.name)?;
        put_code(&mut codes, variables.as_slice(), &v)?;
        variables.push(v)?;
        Ok(Declared {
            variables,
            instances,
            variable_names,
            instance_names,
            codes,
        })
    }

    fn with_instance(self, alloc: Global, x: Instance) -> Result<Declared, AllocError>
        ensures { IfOk result (λ d. d ≡ with_instance self x) }
    {
        let Declared {
            variables,
            mut instances,
            variable_names,
            mut instance_names,
            codes,
        } = self;
        put_name(alloc, &mut instance_names, &x.name)?;
        instances.push(x)?;
        Ok(Declared {
            variables,
            instances,
            variable_names,
            instance_names,
            codes,
        })
    }

    /// Puts a variable behind the others. Where memory runs out, nothing is left.
    pub fn push_variable(&mut self, alloc: Global, v: Variable) -> Result<(), AllocError>
        ensures pushed { OnOk result (self.new ≡ with_variable self.old v) }
        ensures emptied { OnErr result (self.new ≡ nothing) }
    {
        let others = mem::replace(self, Declared::new(alloc));
        *self = others.with_variable(alloc, v)?;
        Ok(())
    }

    /// Puts an instance behind the others. Where memory runs out, nothing is left.
    pub fn push_instance(&mut self, alloc: Global, x: Instance) -> Result<(), AllocError>
        ensures pushed { OnOk result (self.new ≡ with_instance self.old x) }
        ensures emptied { OnErr result (self.new ≡ nothing) }
    {
        let others = mem::replace(self, Declared::new(alloc));
        *self = others.with_instance(alloc, x)?;
        Ok(())
    }

    /// The variables and the instances alone.
    pub fn into_parts(self) -> (Vec<Variable>, Vec<Instance>)
        ensures variables { result.0.items ≡ self.variables }
        ensures instances { result.1.items ≡ self.instances }
    {
        (self.variables, self.instances)
    }
}
