//! Whether a view is later than a replica's own.

ghost use Rattle.std.specs.Prelude.{◌≡◌};
ghost use Rattle.vr_model.specs.StandsFor.{status_of};
ghost use Rattle.vr_judging.specs.Judging.{behind_in};

use vr_model::Status;

/// Whether a replica of this status takes part, and this view is later than its own, or its own and not yet begun.
pub fn is_behind(status: Status, own: u64, view: u64) -> bool
    ensures { result ≡ behind_in (status_of status) own view }
{
    match status {
        Status::Normal => own < view,
        Status::ViewChange => own <= view,
        Status::Recovering | Status::Down => false,
    }
}
