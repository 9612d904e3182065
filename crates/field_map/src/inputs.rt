//! The inputs of one device.

ghost use Rattle.std.specs.Prelude.{◌≡◌, ◌↔◌, ◌≤◌, length, [], ◌∷◌, ◌++◌, true, false, Ok};
ghost use Rattle.field_map.specs.Filled.{AreFilled, count_of, does_follow};

use crate::places::Places;
use crate::reading::Reading;
use std::alloc::{AllocError, Global};

/// Readings whose places lie side by side, in their order, and these places.
#[derive(Drop)]
pub struct Inputs {
    pub readings: Vec<Reading>,
    /// The places that the readings fill, and no others.
    pub places: Option<Places>,
    ghost filled: { AreFilled places readings.items },
    ghost few: { length readings.items ≤ count_of places },
}

impl Inputs {
    /// No reading.
    pub fn new(alloc: Global) -> Inputs
        ensures { result.readings.items ≡ [] }
    {
        Inputs {
            readings: Vec::new(alloc),
            places: None,
        }
    }

    /// One reading more. False where its places don't follow: then nothing changes, nor does it for want of memory.
    pub fn add(&mut self, reading: Reading) -> Result<bool, AllocError>
        ensures added { result ≡ Ok true → self.new.readings.items ≡ self.old.readings.items ++ reading ∷ [] }
        ensures apart { (result ≡ Ok false) ↔ (does_follow self.old.places reading.places ≡ false) }
        ensures same { (result ≡ Ok true → ⊥) →
            (self.new.readings.items ≡ self.old.readings.items) × (self.new.places ≡ self.old.places) }
    {
        let next = reading.places;
        let places = match self.places {
            None => next,
            Some(places) if places.kind.is(next.kind) && places.from + places.count == next.from =>
                {
                    Places {
                        kind: places.kind,
                        from: places.from,
                        count: places.count + next.count,
                    }
                }
            Some(_) => return Ok(false),
        };
        self.readings.push(reading)?;
        self.places = Some(places);
        Ok(true)
    }
}
