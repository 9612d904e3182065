//! The machine's time as the timer of a replica.

ghost use Rattle.std.specs.Prelude.{None};

use crate::patience::Patience;
use std::time::{Clock, Duration, Instant};
use vr_model::{Config, Message, Standing};
use vr_ports::{Tick, Timer};

/// A replica times out where nothing showed for a while that its view goes on, and at once where the primary of its
/// view came up again, which has lost the view. What shows it are messages of that view or a later one, and to a
/// primary that f others follow; a message of an earlier view shows nothing. Each view that doesn't begin is waited for
/// twice as long as the one before, up to sixteen times. It sends again after each pause. It tells nothing. Where the
/// machine's time cannot be read, no time passes.
#[derive(Drop)]
pub struct MachineTimer<R: Clock + Drop> {
    rt: R,
    /// The time of its first poll.
    begun: Option<Instant>,
    patience: Patience,
}

impl<R: Clock + Drop> MachineTimer<R> {
    /// A timer of a replica of this group, which begins with its first poll. `pause` is to be well below `patience`:
    /// what is sent again keeps a silent group patient.
    pub fn new(rt: R, config: Config, patience: Duration, pause: Duration) -> MachineTimer<R> {
        MachineTimer {
            rt,
            begun: None,
            patience: Patience::new(config, patience, pause),
        }
    }
}

impl<R: Clock + Drop> Timer for MachineTimer<R> {
    ghost ticks = { λ _. None };

    fn poll(&mut self) -> Tick {
        let Ok(now) = Instant::now(&self.rt) else {
            return Tick::None;
        };
        let begun = self.begun.unwrap_or(now);
        self.begun = Some(begun);
        self.patience.tick(now.saturating_duration_since(begun))
    }

    fn heard(&mut self, message: &Message) {
        self.patience.hear(message);
    }

    fn stepped(&mut self, standing: Standing) {
        self.patience.stand(standing);
    }
}
