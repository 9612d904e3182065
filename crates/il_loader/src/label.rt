//! Labels as they are read.

ghost use Rattle.std.specs.Prelude.{◌≡◌, ◌++◌, [], ◌∷◌, OnOk, IfOk, option_map};
ghost use Rattle.il_model.specs.Codes.{label_there, is_new_label};
ghost use Rattle.il_loader.specs.NameTables.{AreNumbers, AreNames};

use il_model::is_lawful_name;
use std::alloc::{AllocError, Global};
use std::collections::BTreeMap;
use std::marker::Model;

/// A label, and the address where it stands.
#[derive(Drop)]
pub struct Label<'a> {
    pub name: &'a [u8],
    pub at: u16,
}

impl<'a> Model for Label<'a> {
    ghost use Rattle.il_model.specs.Marks.{Mark};

    ghost Value = { Mark };

    ghost view = { λ l. record { name = l.name.now; at = l.at } };
}

/// Labels in the order in which they were read, with tables of their names and of their addresses, so that a look-up
/// takes a time that grows as the logarithm of their number.
#[derive(Drop)]
pub struct Labels<'a> {
    found: Vec<Label<'a>>,
    numbers: BTreeMap<&'a [u8], usize>,
    names: BTreeMap<usize, &'a [u8]>,
}

impl<'a> Model for Labels<'a> {
    ghost use Rattle.il_loader.specs.NameTables.{Marks, AreLabelTables};

    ghost Value = { Marks };

    ghost view = { λ l. l.found.items };

    ghost invariant = { λ l. AreLabelTables l.found.items l.numbers l.names };
}

/// Puts the number of a label behind these into the table, where no label has its name.
fn put_number<'a>(
    numbers: &mut BTreeMap<&'a [u8], usize>,
    seen: &[Label<'a>],
    name: &'a [u8],
    at: u16,
) -> Result<(), AllocError>
    requires { AreNumbers seen.now numbers.old }
    ensures { OnOk result (AreNumbers (seen.now ++ record { name = name.entry.now; at = at } ∷ []) numbers.new) }
{
    if !numbers.contains_key(name) {
        numbers.insert(name, seen.len())?;
    }
    Ok(())
}

/// Puts the name of a label behind these into the table, where none stands at its address.
fn put_name<'a>(
    names: &mut BTreeMap<usize, &'a [u8]>,
    seen: &[Label<'a>],
    name: &'a [u8],
    at: u16,
) -> Result<(), AllocError>
    requires { AreNames seen.now names.old }
    ensures { OnOk result (AreNames (seen.now ++ record { name = name.entry.now; at = at } ∷ []) names.new) }
{
    let address = at as usize;
    if !names.contains_key(&address) {
        names.insert(address, name)?;
    }
    Ok(())
}

impl<'a> Labels<'a> {
    /// No labels.
    pub fn new(alloc: Global) -> Labels<'a>
        ensures { result ≡ [] }
    {
        Labels {
            found: Vec::new(alloc),
            numbers: BTreeMap::new(alloc),
            names: BTreeMap::new(alloc),
        }
    }

    /// The labels.
    pub fn as_slice(&self) -> &[Label<'a>]
        ensures { result.now ≡ self.now }
    {
        self.found.as_slice()
    }

    /// Whether a name is lawful and no label has it.
    pub fn is_new(&self, name: &[u8]) -> bool
        ensures { result ≡ is_new_label self.now name.now }
    {
        is_lawful_name(name) && !self.numbers.contains_key(name)
    }

    /// The name of the first label at an address.
    pub fn name_at(&self, n: usize) -> Option<&'a [u8]>
        ensures { option_map (λ name. name.now) result ≡ label_there self.now n }
    {
        self.names.get(&n).copied()
    }

    /// The labels with one behind them.
    pub fn with(self, label: Label<'a>) -> Result<Labels<'a>, AllocError>
        ensures { IfOk result (λ l. l ≡ self.entry ++ label.entry ∷ []) }
    {
        let Labels {
            mut found,
            mut numbers,
            mut names,
        } = self;
        put_number(&mut numbers, found.as_slice(), label.name, label.at)?;
        put_name(&mut names, found.as_slice(), label.name, label.at)?;
        found.push(label)?;
        Ok(Labels {
            found,
            numbers,
            names,
        })
    }
}
