//! How a machine gives up the view that its replica leads: by a change of the view, which its replica's timer begins.

ghost use Rattle.std.specs.Prelude.{◌≡◌, None};
ghost use Rattle.plc_member.specs.Trying.{hands_over};

use std::sync::Arc;
use std::sync::atomic::{AtomicU64, Ordering};
use vr_model::{Message, Standing, Status};
use vr_ports::{Tick, Timer};

/// The view that a machine gives up, as its driver's thread orders it of its replica's.
#[derive(Drop)]
pub(crate) struct GivenUp {
    /// One more than it; 0 where there's no order.
    ordered: AtomicU64,
}

impl GivenUp {
    /// None was ordered.
    pub(crate) fn new() -> GivenUp {
        GivenUp {
            ordered: AtomicU64::new(0),
        }
    }

    /// This view is given up, if the replica leads it still.
    pub(crate) fn order(&self, view: u64) {
        self.ordered.store(view.saturating_add(1), Ordering::SeqCst);
    }

    /// What was ordered since that was asked last.
    fn take(&self) -> Option<u64> {
        self.ordered.swap(0, Ordering::SeqCst).checked_sub(1)
    }
}

/// Whether a replica that is this leads the view that its machine gives up, if it gives up one.
fn hands_over(standing: Standing, given_up: Option<u64>) -> bool
    ensures { result ≡ hands_over standing given_up }
{
    match given_up {
        Some(view) => standing.is_primary && standing.view == view,
        None => false,
    }
}

/// Says when a replica is late, as another timer does, and that it is where its machine gives up the view that it
/// leads. Then it begins the next view, whose leader is the next machine, and so on: it leads again behind all others.
#[derive(Drop)]
pub(crate) struct GivingTimer<T: Timer + Drop> {
    timer: T,
    given_up: Arc<GivenUp>,
    /// What its replica is.
    standing: Standing,
}

impl<T: Timer + Drop> GivingTimer<T> {
    /// Of a replica that is down.
    pub(crate) fn new(timer: T, given_up: Arc<GivenUp>) -> GivingTimer<T> {
        GivingTimer {
            timer,
            given_up,
            standing: Standing {
                status: Status::Down,
                view: 0,
                is_primary: false,
            },
        }
    }
}

impl<T: Timer + Drop> Timer for GivingTimer<T> {
    ghost ticks = { λ _. None };

    fn poll(&mut self) -> Tick {
        if hands_over(self.standing, self.given_up.take()) {
            return Tick::Timeout;
        }
        self.timer.poll()
    }

    fn heard(&mut self, message: &Message) {
        self.timer.heard(message);
    }

    fn stepped(&mut self, standing: Standing) {
        self.standing = standing;
        self.timer.stepped(standing);
    }
}
