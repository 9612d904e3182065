//! What a replica does once it holds another log.

ghost use Rattle.std.specs.Prelude.{◌≡◌, ◌<◌, ◌-◌, [], vec_capacity};
ghost use Rattle.vr_model.specs.Groups.{primary};
ghost use Rattle.vr_model.specs.Rules as rules;
ghost use Rattle.vr_model.specs.declared.message.Body.TheVariants as says;
ghost use Rattle.vr_core.specs.Changes.{FollowsIfReady};
ghost use Rattle.vr_core.specs.Follows.{message_from, op_number_of};
ghost use Rattle.vr_recovery.specs.Recovering.{holds_replying};

use std::alloc::Global;
use vr_core::{Core, ReadyChanges};
use vr_model::{Body, Message, Sends};

/// A backup executes its log up to a commit number, where the changes among these entries are ready, and tells the
/// primary how much it holds.
pub(crate) fn hold(
    core: &mut Core,
    alloc: Global,
    room: Sends,
    commit_number: u64,
    changes: ReadyChanges,
) -> Sends
    requires empty { room.items ≡ [] }
    requires room { 0 < vec_capacity room }
    ensures { FollowsIfReady core.old commit_number changes
        (λ w r. rules.holds_log w.f w.number w.answer r r.log commit_number) core.new result.items }
{
    core.execute_to(alloc, commit_number, changes);
    let mut sends = room;
    sends.push_reserved(acknowledgement(core));
    sends
}

/// A primary executes its log up to a commit number, where the changes among these entries are ready, replies to what
/// it executes, and tells itself how much it holds.
pub(crate) fn hold_as_primary(
    core: &mut Core,
    alloc: Global,
    room: Sends,
    commit_number: u64,
    changes: ReadyChanges,
) -> Sends
    requires empty { room.items ≡ [] }
    requires room { commit_number - core.old.commit_number < vec_capacity room }
    ensures { FollowsIfReady core.old commit_number changes
        (λ w r. holds_replying w r commit_number) core.new result.items }
{
    let end = commit_number.min(core.op_number());
    let mut sends = core.commit_to(alloc, room, end, changes);
    sends.push_reserved(acknowledgement(core));
    sends
}

/// PREPAREOK for its whole log, to the primary of its view.
fn acknowledgement(core: &Core) -> Message
    ensures { result ≡ message_from core.now.number (says.PrepareOk core.now.view (op_number_of core.now))
        (primary core.now.config.f core.now.view) }
{
    let prepare_ok = Body::PrepareOk {
        view: core.view,
        op_number: core.op_number(),
    };
    core.message(core.config.primary(core.view), prepare_ok)
}
