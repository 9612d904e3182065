//! Constants in a table, so that a look-up takes a time that grows as the logarithm of their number.

ghost use Rattle.std.specs.Prelude.{◌≡◌, ◌++◌, [], ◌∷◌, OnOk};
ghost use Rattle.il_model.specs.Tables.{key_of, place_in, IsConstantTable};

use crate::codes::type_code;
use il_values::Value;
use std::alloc::{AllocError, Global};
use std::collections::BTreeMap;
use std::marker::Model;

/// Constants in an order, with a table of their numbers.
#[derive(Drop)]
pub struct Constants {
    found: Vec<Value>,
    places: BTreeMap<(usize, i64), usize>,
}

impl Model for Constants {
    ghost use Rattle.il_model.specs.Tables.{ConstantList, IsConstantTable};

    ghost Value = { ConstantList };

    ghost view = { λ c. c.found.items };

    ghost invariant = { λ c. IsConstantTable c.found.items c.places };
}

/// The type and the number of a value.
fn key(v: Value) -> (usize, i64)
    ensures { result ≡ key_of v }
{
    (type_code(v.ty()), v.number())
}

fn place_in(places: &BTreeMap<(usize, i64), usize>, v: Value) -> Option<usize>
    ensures { result ≡ place_in places.now v }
{
    places.get(&key(v)).copied()
}

/// Puts the number of a value behind these into the table, where none of them is the same.
fn put(
    places: &mut BTreeMap<(usize, i64), usize>,
    found: &[Value],
    v: Value,
) -> Result<(), AllocError>
    requires { IsConstantTable found.now places.old }
    ensures { OnOk result (IsConstantTable (found.now ++ v ∷ []) places.new) }
{
    if place_in(places, v).is_none() {
        places.insert(key(v), found.len())?;
    }
    Ok(())
}

impl Constants {
    ghost use Rattle.std.specs.Prelude.{◌≡◌, ◌<◌, ◌^◌, ◌++◌, IfOk, IfSome, [], ◌∷◌};
    ghost use Rattle.std.specs.List.{position};
    ghost use Rattle.il_model.specs.Constants.{same_value};

    /// No constants.
    pub fn new(alloc: Global) -> Constants
        ensures { result ≡ [] }
    {
        Constants {
            found: Vec::new(alloc),
            places: BTreeMap::new(alloc),
        }
    }

    /// The constants with one behind them.
    pub fn with(self, v: Value) -> Result<Constants, AllocError>
        ensures { IfOk result (λ c. c ≡ self ++ v ∷ []) }
    {
        let Constants {
            mut found,
            mut places,
        } = self;
        put(&mut places, found.as_slice(), v)?;
        found.push(v)?;
        Ok(Constants { found, places })
    }

    /// The constants.
    pub fn values(&self) -> &[Value]
        ensures { result.now ≡ self.now }
    {
        self.found.as_slice()
    }

    /// The number of a constant.
    pub fn place(&self, v: Value) -> Option<usize>
        ensures place { result ≡ position (same_value v) self.now }
        ensures small { IfSome result (λ k. k < 2 ^ 63) }
    {
        place_in(&self.places, v)
    }
}
