//! What was declared before the words of an image.

use crate::instance::Instances;
use crate::label::Labels;
use crate::variable::Variables;
use il_model::{Value, Version};
use std::marker::Model;

/// Variables and instances, to which the numbers in words point.
#[derive(Drop)]
pub struct Declared<'a, 'b> {
    variables: &'a Variables<'b>,
    instances: &'a Instances<'b>,
}

impl<'a, 'b> Model for Declared<'a, 'b> {
    ghost use Rattle.il_model.specs.Program.{Declarations};

    ghost Value = { Declarations };

    ghost view = { λ d. record { variables = d.variables.now; instances = d.instances.now } };
}

impl<'a, 'b> Declared<'a, 'b> {
    ghost use Rattle.std.specs.Prelude.{◌≡◌};

    /// These variables and instances.
    pub fn of(variables: &'a Variables<'b>, instances: &'a Instances<'b>) -> Declared<'a, 'b>
        ensures { result ≡ record { variables = variables.now; instances = instances.now } }
    {
        Declared {
            variables,
            instances,
        }
    }

    /// The variables.
    pub fn variables(&self) -> &Variables<'b>
        ensures { result.now ≡ self.now.variables }
    {
        self.variables
    }

    /// The instances.
    pub fn instances(&self) -> &Instances<'b>
        ensures { result.now ≡ self.now.instances }
    {
        self.instances
    }
}

/// The version of an image, and the tables before its words, to which their numbers point.
#[derive(Drop)]
pub struct SymbolTables<'a, 'b> {
    pub version: Version,
    pub declared: &'a Declared<'a, 'b>,
    pub labels: &'a Labels<'b>,
    pub constants: &'a [Value],
}
