//! The machine's time as the timer of a replica whose group runs on several machines.

ghost use Rattle.std.specs.Prelude.{None};

use crate::group_patience::{GroupPatience, GroupTimes};
use std::time::{Clock, Duration, Instant};
use vr_model::{Config, Message, Standing};
use vr_ports::{Tick, Timer};

/// Tells which replicas of other machines are there: bit k stands for replica k.
pub trait Neighbours {
    /// Of which something came just now.
    fn near(&self) -> u8;

    /// Which are connected.
    fn reached(&self) -> u8;
}

/// A replica of a group of machines times out where nothing showed for as long as its patience that its view goes on,
/// or where the primary of its view was away for two fifths of that; and, as a `MachineTimer` has it, at once where
/// that primary has lost the view, and later where views don't begin. While fewer than f others are near it doesn't,
/// unless it leads; nor for four times its patience behind that, unless it hears by then that its view goes on; nor
/// behind a pause of the process itself. It sends again after each pause. It tells nothing. It's to be asked a few
/// times within half its patience. Where the machine's time cannot be read, no time passes.
#[derive(Drop)]
pub struct GroupTimer<R: Clock + Drop, N: Neighbours + Drop> {
    rt: R,
    /// The time of its first poll.
    begun: Option<Instant>,
    patience: GroupPatience,
    neighbours: N,
}

impl<R: Clock + Drop, N: Neighbours + Drop> GroupTimer<R, N> {
    /// A timer of this replica of a group, which begins with its first poll, with the times that go with this patience
    /// (`GroupTimes::new`).
    pub fn new(
        rt: R,
        config: Config,
        number: u8,
        patience: Duration,
        resend: Duration,
        neighbours: N,
    ) -> GroupTimer<R, N> {
        GroupTimer {
            rt,
            begun: None,
            patience: GroupPatience::new(config, number, GroupTimes::new(patience, resend)),
            neighbours,
        }
    }
}

impl<R: Clock + Drop, N: Neighbours + Drop> Timer for GroupTimer<R, N> {
    ghost ticks = { λ _. None };

    fn poll(&mut self) -> Tick {
        let Ok(now) = Instant::now(&self.rt) else {
            return Tick::None;
        };
        let begun = self.begun.unwrap_or(now);
        self.begun = Some(begun);
        let (near, reached) = (self.neighbours.near(), self.neighbours.reached());
        self.patience
            .tick(now.saturating_duration_since(begun), near, reached)
    }

    fn heard(&mut self, message: &Message) {
        self.patience.hear(message);
    }

    fn stepped(&mut self, standing: Standing) {
        self.patience.stand(standing);
    }
}
