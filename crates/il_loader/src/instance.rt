//! Function block instances as they are read.

ghost use Rattle.std.specs.Prelude.{◌≡◌, ◌++◌, [], ◌∷◌, OnOk};
ghost use Rattle.il_loader.specs.NameTables.{AreInstanceNumbers};

use il_model::{BlockKind, Instance, Operand};
use std::alloc::{AllocError, Global};
use std::collections::BTreeMap;
use std::marker::Model;

/// Instances in the order in which they were read, with a table of their names, so that a look-up takes a time that
/// grows as the logarithm of their number.
#[derive(Drop)]
pub struct Instances<'a> {
    found: Vec<Instance>,
    numbers: BTreeMap<&'a [u8], usize>,
}

impl<'a> Model for Instances<'a> {
    ghost use Rattle.il_loader.specs.NameTables.{InstanceList, AreInstanceNumbers};

    ghost Value = { InstanceList };

    ghost view = { λ x. x.found.items };

    ghost invariant = { λ x. AreInstanceNumbers x.found.items x.numbers };
}

/// Puts the number of an instance behind these into the table, where no instance has its name.
fn put_number<'a>(
    numbers: &mut BTreeMap<&'a [u8], usize>,
    seen: &[Instance],
    name: &'a [u8],
    x: &Instance,
) -> Result<(), AllocError>
    requires name { name.now ≡ x.now.name }
    requires numbers { AreInstanceNumbers seen.now numbers.old }
    ensures { OnOk result (AreInstanceNumbers (seen.now ++ x.now ∷ []) numbers.new) }
{
    if !numbers.contains_key(name) {
        numbers.insert(name, seen.len())?;
    }
    Ok(())
}

impl<'a> Instances<'a> {
    ghost use Rattle.std.specs.Prelude.{◌≡◌, ◌<◌, ◌^◌, ◌++◌, IfOk, IfSome, [], ◌∷◌};
    ghost use Rattle.il_model.specs.Resolved.{instance_in, kind_in};

    /// No instances.
    pub fn new(alloc: Global) -> Instances<'a>
        ensures { result ≡ [] }
    {
        Instances {
            found: Vec::new(alloc),
            numbers: BTreeMap::new(alloc),
        }
    }

    /// The instances with one behind them, whose name this is.
    pub fn with(self, x: Instance, name: &'a [u8]) -> Result<Instances<'a>, AllocError>
        requires { name.now ≡ x.name }
        ensures { IfOk result (λ l. l ≡ self.entry ++ x ∷ []) }
    {
        let Instances {
            mut found,
            mut numbers,
        } = self;
        put_number(&mut numbers, found.as_slice(), name, &x)?;
        found.push(x)?;
        Ok(Instances { found, numbers })
    }

    /// The instances.
    pub fn as_slice(&self) -> &[Instance]
        ensures { result.now ≡ self.now }
    {
        self.found.as_slice()
    }

    /// The instances alone.
    pub fn into_vec(self) -> Vec<Instance>
        ensures { result.items ≡ self.entry }
    {
        self.found
    }

    /// The number of the instance of a name.
    pub fn number_of(&self, name: &[u8]) -> Option<usize>
        ensures number { result ≡ instance_in self.now name.now }
        ensures small { IfSome result (λ k. k < 2 ^ 63) }
    {
        self.numbers.get(name).copied()
    }

    /// The kind of the instance that an operand names for a call.
    pub fn called_kind(&self, operand: &Operand) -> Option<BlockKind>
        ensures { result ≡ kind_in self.now operand.now }
    {
        let Operand::Instance(name) = operand else {
            return None;
        };
        let i = self.number_of(name.bytes())?;
        let x = self.as_slice().get(i)?;
        Some(x.kind)
    }
}
