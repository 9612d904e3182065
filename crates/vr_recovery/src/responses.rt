//! What the responses to a recovering replica tell.

ghost use Rattle.std.specs.Prelude.{◌≡◌, ◌<◌, true, is_some, slice_set};
ghost use Rattle.std.specs.Option.{option_copied};
ghost use Rattle.vr_model.specs.Groups.{group_size, how_many, primary};
ghost use Rattle.vr_model.specs.Choices as choices;
ghost use Rattle.vr_model.specs.declared.standing.Status.TheVariants.{Recovering};
ghost use Rattle.vr_core.specs.Follows.{Tells};
ghost use Rattle.vr_recovery.specs.Responses.{kept_of, is_fresher, stays, told_length, with_back, HasState, Keeps};

use std::mem::replace;
use vr_core::{Core, Response};

/// The response that is kept of a replica.
pub(crate) fn kept(core: &Core, replica: u8) -> Option<&Response>
    ensures { option_copied result ≡ kept_of core.now replica }
{
    match core.responses.get(usize::from(replica)) {
        Some(response) => response.as_ref(),
        None => None,
    }
}

/// Whether a response has a later view than another, or the same and a longer log.
fn is_better(response: &Response, other: &Response) -> bool
    ensures { result ≡ is_fresher other.now response.now }
{
    other.view < response.view
        || other.view == response.view && log_length(other) < log_length(response)
}

/// The length of its log, 0 without one.
fn log_length(response: &Response) -> u64
    ensures { result ≡ told_length response.now.state }
{
    match &response.state {
        Some(state) => state.log.op_number(),
        None => 0,
    }
}

/// Whether what is kept of a replica stays where this response comes.
pub(crate) fn stays_kept(core: &Core, replica: u8, response: &Response) -> bool
    ensures { result ≡ stays (kept_of core.now replica) response.now }
{
    match kept(core, replica) {
        Some(other) => !is_better(response, other),
        None => false,
    }
}

/// The replica keeps one response of each sender: that of the later view, then that with the longer log, at a tie the
/// first. Where this one takes the place of what was kept, it hands that back.
pub(crate) fn keep(core: &mut Core, sender: u8, response: Response) -> Option<Option<Response>>
    requires recovers { core.old.status ≡ Recovering }
    requires member { sender < group_size core.old.config.f }
    ensures kept { Keeps core.old sender response core.new }
    ensures others { core.new ≡ record core.old { responses = core.new.responses } }
    ensures back { with_back core.new.responses.items sender result ≡ core.old.responses.items }
{
    if stays_kept(core, sender, &response) {
        return None;
    }
    Some(put(core, sender, Some(response)))
}

/// What was kept of a replica is kept of it again, if another response took its place.
pub(crate) fn put_back(core: &mut Core, replica: u8, before: Option<Option<Response>>)
    ensures after { core.new.responses.items ≡ with_back core.old.responses.items replica before }
    ensures others { core.new ≡ record core.old { responses = core.new.responses } }
{
    if let Some(response) = before {
        let _ = put(core, replica, response);
    }
}

/// This is what is kept of a replica from now on; it hands back what was kept.
pub(crate) fn put(core: &mut Core, replica: u8, response: Option<Response>) -> Option<Response>
    ensures before { result ≡ kept_of core.old replica }
    ensures after { core.new.responses.items ≡ slice_set core.old.responses.items replica response }
    ensures others { core.new ≡ record core.old { responses = core.new.responses } }
{
    match core.responses.get_mut(usize::from(replica)) {
        Some(kept) => replace(kept, response),
        None => None,
    }
}

/// How many replicas it has kept a response of.
pub(crate) fn count(core: &Core) -> u8
    requires recovers { core.now.status ≡ Recovering }
    ensures { Tells core.now (λ w r. how_many (λ s. is_some (r.responses s)) (group_size w.f)) result }
{
    let mut count = 0;
    for s in 0..core.config.group_size() {
        if kept(core, s).is_some() {
            count += 1;
        }
    }
    count
}

/// The latest view that they tell.
pub(crate) fn latest(core: &Core) -> u64
    requires recovers { core.now.status ≡ Recovering }
    ensures { Tells core.now (λ w r. choices.latest r.responses (group_size w.f)) result }
{
    let mut latest = 0;
    for s in 0..core.config.group_size() {
        latest = view_told(core, s).max(latest);
    }
    latest
}

/// The view that a replica told, 0 if it told none.
fn view_told(core: &Core, replica: u8) -> u64
    requires recovers { core.now.status ≡ Recovering }
    requires member { replica < group_size core.now.config.f }
    ensures { Tells core.now (λ w r. choices.view_of (r.responses replica)) result }
{
    match kept(core, replica) {
        Some(response) => response.view,
        None => 0,
    }
}

/// Whether the primary of this view told its state in it.
pub(crate) fn is_told(core: &Core, view: u64) -> bool
    requires recovers { core.now.status ≡ Recovering }
    ensures told { Tells core.now (λ w r. is_some (choices.state_of view (r.responses (primary w.f view)))) result }
    ensures some { result ≡ true → HasState core.now view }
{
    match kept(core, core.config.primary(view)) {
        Some(response) => response.view == view && response.state.is_some(),
        None => false,
    }
}
