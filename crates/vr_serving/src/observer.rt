//! What looks at a replica behind its steps.

use vr_ports::{Gate, OpenGate};
use vr_replica::Replica;

/// A gate that looks at its replica too: behind each start and behind each step, before it shows what the replica is
/// then, and before anything that the step sends is handed on.
pub trait Observer: Gate {
    ghost use Rattle.std.specs.Prelude.{⊤};
    ghost use Rattle.vr_replica.specs.declared.state.Replica.{Replica};

    // What it has seen to once it has looked at a replica; nothing, where it doesn't say.
    ghost has_seen: { Self → Replica → Type 0 } = { λ _ _. ⊤ };

    /// Looks at what the replica is now.
    fn observe(&mut self, replica: &Replica)
        ensures seen { has_seen self.new replica.now };
}

impl Observer for OpenGate {
    fn observe(&mut self, _replica: &Replica) {}
}
