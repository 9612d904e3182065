//! Names, as bytes.

ghost use Rattle.std.specs.Prelude.{◌≡◌, map, IfOk};

use il_model::{capital, under};
use std::alloc::{AllocError, Global};
use std::marker::Model;

/// The bytes of a name, none where there is no name.
#[derive(Drop)]
pub struct Name {
    bytes: Vec<u8>,
}

impl Model for Name {
    ghost use Rattle.std.specs.Prelude.{ℕ, List};

    ghost Value = { List ℕ };

    ghost view = { λ n. n.bytes.items };
}

impl Name {
    ghost use Rattle.std.specs.Prelude.{[]};
    ghost use Rattle.std.specs.Str.{bytes_eq};
    ghost use Rattle.il_units.specs.Words.{capitals};
    ghost use Rattle.il_places.specs.Names.{in_front};

    /// No name.
    pub fn none(alloc: Global) -> Name
        ensures { result ≡ [] }
    {
        Name {
            bytes: Vec::new(alloc),
        }
    }

    /// The name of these bytes.
    pub fn of(bytes: Vec<u8>) -> Name
        ensures { result ≡ bytes.items }
    {
        Name { bytes }
    }

    /// These bytes in capital letters.
    pub fn capitals(alloc: Global, text: &[u8]) -> Result<Name, AllocError>
        ensures { IfOk result (λ n. n ≡ capitals text.now) }
    {
        let mut bytes = Vec::new(alloc);
        for b in text {
            bytes.push(capital(*b))?;
        }
        Ok(Name { bytes })
    }

    /// The bytes.
    pub fn bytes(&self) -> &[u8]
        ensures { result.now ≡ self.now }
    {
        self.bytes.as_slice()
    }

    /// Whether the name is these bytes.
    pub fn is(&self, other: &[u8]) -> bool
        ensures { result ≡ bytes_eq self.now other.now }
    {
        self.bytes.as_slice() == other
    }

    /// The name under another one, where that is one.
    pub fn placed(&self, alloc: Global, front: &[u8]) -> Result<Name, AllocError>
        ensures { IfOk result (λ n. n ≡ in_front front.now self.now) }
    {
        let name = self.bytes.as_slice();
        if front.is_empty() {
            return Ok(Name::of(Vec::from_slice(alloc, name)?));
        }
        if name.is_empty() {
            return Ok(Name::of(Vec::from_slice(alloc, front)?));
        }
        Ok(Name::of(under(alloc, front, name)?))
    }
}
