//! A key that is ready for many sums.

ghost use Rattle.std.specs.Prelude.{◌≡◌, []};
ghost use Rattle.net_keys.specs.Hmac.{Sums};

use crate::hmac::Hmac;
use std::marker::Model;

/// A key by which many texts are summed. Its two blocks are hashed once, and not again for each sum.
#[derive(Drop)]
pub(crate) struct SumKey {
    key: [u8; 32],
    /// The sum of no text yet.
    begun: Hmac,
}

impl Model for SumKey {
    ghost use Rattle.std.specs.Prelude.{List, [], ℕ};
    ghost use Rattle.net_keys.specs.Hmac.{Sums};

    ghost Value = { List ℕ };

    ghost view = { λ s. s.key };

    ghost invariant = { λ s. Sums s.begun s.key [] };
}

impl SumKey {
    /// This key.
    pub(crate) fn new(key: [u8; 32]) -> SumKey
        ensures { result ≡ key }
    {
        SumKey {
            key,
            begun: Hmac::new(&key),
        }
    }

    /// The same key.
    pub(crate) fn copy(&self) -> SumKey
        ensures { result ≡ self.now }
    {
        SumKey {
            key: self.key,
            begun: self.begun.copy(),
        }
    }

    /// The sum of no text yet, under this key.
    pub(crate) fn begin(&self) -> Hmac
        ensures { Sums result self.now [] }
    {
        self.begun.copy()
    }
}
