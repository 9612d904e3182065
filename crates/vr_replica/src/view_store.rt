//! What outlives a crash.

use crate::fault::StoreFault;
use vr_model::Stored;

/// The store of a replica: the view that outlives a crash. It counts its failures.
pub trait ViewStore {
    ghost use Rattle.std.specs.Prelude.{◌≡◌, ◌≤◌, ℕ, Bool, true, false, Option, Some, None, MatchResult, OnErr};
    ghost use Rattle.io_model.specs.Streams.{Failed};
    ghost use Rattle.vr_model.specs.declared.event.Stored.{Stored};

    // How a load leaves it that gave this, or failed.
    ghost load_gives: { Self → Option Stored → Self → Type 0 };

    // How a save of this view leaves it that was made, or failed.
    ghost save_gives: { Self → ℕ → Bool → Self → Type 0 };

    ghost faults: { Self → ℕ };

    /// What it keeps. It answers a fault only where the store failed in this call.
    fn load(&mut self) -> Result<Stored, StoreFault>
        ensures gives { MatchResult result (λ stored. load_gives self.old (Some stored) self.new)
            (λ _. load_gives self.old None self.new) }
        ensures device { OnErr result (Failed (faults self.old) (faults self.new)) }
        ensures counts { faults self.old ≤ faults self.new };

    /// Keeps a view, an earlier one too. It answers a fault only where the store failed in this call; then it keeps
    /// this view or the one before.
    fn save(&mut self, view: u64) -> Result<(), StoreFault>
        ensures gives { MatchResult result (λ _. save_gives self.old view true self.new)
            (λ _. save_gives self.old view false self.new) }
        ensures device { OnErr result (Failed (faults self.old) (faults self.new)) }
        ensures counts { faults self.old ≤ faults self.new };

    /// How often it has failed; it counts no further than `u64::MAX`.
    fn faults(&self) -> u64
        ensures { result ≡ faults self.now };
}
