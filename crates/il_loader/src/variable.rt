//! Variables as they are read.

ghost use Rattle.std.specs.Prelude.{◌≡◌, ◌++◌, [], ◌∷◌, OnOk};
ghost use Rattle.il_loader.specs.NameTables.{AreNumbered};

use il_model::{Loc, Variable, is_lawful_name, is_overlapping, put_code, stands_under};
use std::alloc::{AllocError, Global};
use std::collections::{BTreeMap, BTreeSet};
use std::marker::Model;

/// Variables in the order in which they were read, with tables of their names and of their locations' codes, so that a
/// look-up takes a time that grows as the logarithm of their number.
#[derive(Drop)]
pub struct Variables<'a> {
    found: Vec<Variable>,
    numbers: BTreeMap<&'a [u8], usize>,
    codes: BTreeSet<usize>,
}

impl<'a> Model for Variables<'a> {
    ghost use Rattle.il_loader.specs.NameTables.{VariableList, AreVariableTables};

    ghost Value = { VariableList };

    ghost view = { λ v. v.found.items };

    ghost invariant = { λ v. AreVariableTables v.found.items v.numbers v.codes };
}

/// Puts the number of a variable behind these into the table, where no variable has its name.
fn put_number<'a>(
    numbers: &mut BTreeMap<&'a [u8], usize>,
    seen: &[Variable],
    name: &'a [u8],
    v: &Variable,
) -> Result<(), AllocError>
    requires name { name.now ≡ v.now.name }
    requires numbers { AreNumbered seen.now numbers.old }
    ensures { OnOk result (AreNumbered (seen.now ++ v.now ∷ []) numbers.new) }
{
    if !numbers.contains_key(name) {
        numbers.insert(name, seen.len())?;
    }
    Ok(())
}

impl<'a> Variables<'a> {
    ghost use Rattle.std.specs.Prelude.{◌≡◌, ◌<◌, ◌^◌, ◌++◌, IfOk, IfSome, [], ◌∷◌};
    ghost use Rattle.il_model.specs.Codes.{is_number, is_new_name, has_under, is_overlapped};

    /// No variables.
    pub fn new(alloc: Global) -> Variables<'a>
        ensures { result ≡ [] }
    {
        Variables {
            found: Vec::new(alloc),
            numbers: BTreeMap::new(alloc),
            codes: BTreeSet::new(alloc),
        }
    }

    /// The variables with one behind them, whose name this is.
    pub fn with(self, v: Variable, name: &'a [u8]) -> Result<Variables<'a>, AllocError>
        requires { name.now ≡ v.name }
        ensures { IfOk result (λ l. l ≡ self.entry ++ v ∷ []) }
    {
        let Variables {
            mut found,
            mut numbers,
            mut codes,
        } = self;
        put_number(&mut numbers, found.as_slice(), name, &v)?;
        put_code(&mut codes, found.as_slice(), &v)?;
        found.push(v)?;
        Ok(Variables {
            found,
            numbers,
            codes,
        })
    }

    /// The variables.
    pub fn as_slice(&self) -> &[Variable]
        ensures { result.now ≡ self.now }
    {
        self.found.as_slice()
    }

    /// The variables alone.
    pub fn into_vec(self) -> Vec<Variable>
        ensures { result.items ≡ self.entry }
    {
        self.found
    }

    /// The number of the variable of a name.
    pub fn number_of(&self, name: &[u8]) -> Option<usize>
        ensures number { result ≡ is_number self.now name.now }
        ensures small { IfSome result (λ k. k < 2 ^ 63) }
    {
        self.numbers.get(name).copied()
    }

    /// Whether a name is lawful and no variable has it.
    pub fn is_new(&self, name: &[u8]) -> bool
        ensures { result ≡ is_new_name self.now name.now }
    {
        is_lawful_name(name) && !self.number_of(name).is_some()
    }

    /// Whether a variable stands under the name.
    pub fn has_under(&self, name: &[u8]) -> bool
        ensures { result ≡ has_under self.now name.now }
    {
        self.found
            .iter()
            .any(|v| stands_under(name, v.name.bytes()))
    }

    /// Whether a variable lies at a part of this location.
    pub fn is_overlapped(&self, loc: Loc) -> bool
        ensures { result ≡ is_overlapped self.now loc }
    {
        is_overlapping(&self.codes, loc)
    }
}
