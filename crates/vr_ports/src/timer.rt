//! When a replica is late.

use vr_model::{Message, Standing};

/// What a timer says.
#[derive(Clone, Copy, Debug, PartialEq, Eq)]
pub enum Tick {
    None,
    /// The primary was not heard of for too long.
    Timeout,
    /// It is time to send again what may have been lost.
    Resend,
}

/// Says when a replica is late. A timer tells what it said, or tells nothing.
pub trait Timer {
    ghost use Rattle.std.specs.Prelude.{◌≡◌, [], ◌∷◌, List, Option};
    ghost use Rattle.vr_ports.specs.declared.timer.Tick.{Tick};
    ghost use Rattle.vr_ports.specs.Parties.{Grows};

    // What the polls gave so far, if it tells.
    ghost ticks: { Self → Option (List Tick) };

    fn poll(&mut self) -> Tick
        ensures { Grows (ticks self.old) (ticks self.new) (result ∷ []) };

    /// Is told of each message that was received.
    fn heard(&mut self, message: &Message)
        ensures { ticks self.new ≡ ticks self.old };

    /// Is told what the replica shows of itself after each step.
    fn stepped(&mut self, standing: Standing)
        ensures { ticks self.new ≡ ticks self.old };
}
