//! Small decisions that a host is joined by.

use plc_epochs::Moment;
use std::time::Duration;
use vr_model::{Standing, Status};

/// Whether so much time has passed since then, if that was at all.
pub(crate) fn is_past(then: Option<Moment>, now: Moment, pause: Moment) -> bool {
    match then {
        Some(then) => now.saturating_sub(then) >= pause,
        None => true,
    }
}

/// In milliseconds.
pub(crate) fn millis(now: Duration) -> Moment {
    u64::try_from(now.as_millis()).unwrap_or(u64::MAX)
}

/// Whether a machine is among these, by bits.
pub(crate) fn is_among(machines: u8, machine: u8) -> bool {
    machine < 8 && machines >> machine & 1 == 1
}

/// What a replica shows that isn't up.
pub(crate) fn down() -> Standing {
    Standing {
        status: Status::Down,
        view: 0,
        is_primary: false,
    }
}

/// Whether a replica that stood so has recovered.
pub(crate) fn has_recovered(standing: Standing) -> bool {
    matches!(standing.status, Status::Normal | Status::ViewChange)
}
