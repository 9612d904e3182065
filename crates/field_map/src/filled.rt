//! Which places of `%I` are filled.

ghost use Rattle.std.specs.Prelude.{◌≡◌, [], ◌∷◌, ◌++◌, true, false, Ok, OnOk, OnErr};
ghost use Rattle.std.specs.List.{list_all};
ghost use Rattle.field_map.specs.Filled.{are_apart, are_all_apart};

use crate::places::Places;
use std::alloc::{AllocError, Global};

/// Places of which no two have a cell in common.
#[derive(Drop)]
pub(crate) struct Filled {
    pub(crate) places: Vec<Places>,
    ghost apart: { are_all_apart places.items ≡ true },
}

/// Whether each of these is apart from some places.
fn is_each_apart(filled: &[Places], places: &Places) -> bool
    ensures { result ≡ list_all (λ p. are_apart p places.now) filled.now }
{
    filled.iter().all(|p| p.is_apart(places))
}

/// Adds places that are apart from each.
#[tactic(auto, using(crate::proofs::ApartLaws::apart_with))]
fn push(filled: &mut Vec<Places>, places: Places) -> Result<(), AllocError>
    requires apart { are_all_apart filled.old.items ≡ true }
    requires next { list_all (λ p. are_apart p places) filled.old.items ≡ true }
    ensures ok { OnOk result (filled.new.items ≡ filled.old.items ++ places ∷ []) }
    ensures err { OnErr result (filled.new.items ≡ filled.old.items) }
    ensures still { are_all_apart filled.new.items ≡ true }
{
    filled.push(places)?;
    Ok(())
}

impl Filled {
    pub(crate) fn new(alloc: Global) -> Filled
        ensures { result.places.items ≡ [] }
    {
        Filled {
            places: Vec::new(alloc),
        }
    }

    /// Adds these. False where another of them has a cell of these: then nothing changes.
    pub(crate) fn add(&mut self, places: Places) -> Result<bool, AllocError>
        ensures added { result ≡ Ok true → self.new.places.items ≡ self.old.places.items ++ places ∷ [] }
        ensures taken { result ≡ Ok false → list_all (λ p. are_apart p places) self.old.places.items ≡ false }
    {
        if !is_each_apart(self.places.as_slice(), &places) {
            return Ok(false);
        }
        push(&mut self.places, places)?;
        Ok(true)
    }
}
