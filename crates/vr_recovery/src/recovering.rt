//! How a recovery ends.

ghost use Rattle.std.specs.Prelude.{◌≡◌, ◌==◌, ◌≤◌, ◌<◌, [], ◌&&◌, true, false, is_some, Some, IfOk, OnOk};
ghost use Rattle.std.specs.Prelude.{OnErr, MatchOption};
ghost use Rattle.vr_model.specs.Groups.{group_size, how_many};
ghost use Rattle.vr_model.specs.Choices as choices;
ghost use Rattle.vr_model.specs.Rules as rules;
ghost use Rattle.vr_model.specs.Replicas.{is_normal, is_recovering};
ghost use Rattle.vr_model.specs.declared.standing.Status.TheVariants.{Recovering};
ghost use Rattle.vr_core.specs.declared.state.Response.{Response};
ghost use Rattle.il_model.specs.declared.command.Command.{Command};
ghost use Rattle.vr_model.specs.Messages.{RecoveryResponse, RecoveryResponseMessage};
ghost use Rattle.vr_core.specs.StandsFor.{ResponseStands, own_group};
ghost use Rattle.vr_core.specs.Checkpoints.{IsOfNone, Drops};
ghost use Rattle.vr_core.specs.Changes.{IsReadied};
ghost use Rattle.vr_core.specs.Follows.{Tells, FollowsIfKept, DoesIfKept, receives_from};
ghost use Rattle.vr_judging.specs.Judging.{told_enough};
ghost use Rattle.vr_recovery.specs.Responses.{HasState, IsUnfitResponse, kept_of, stays};
ghost use Rattle.vr_recovery.specs.Recovering.{Recovers};

use crate::responses::{count, is_told, keep, kept, latest, put, put_back, stays_kept};
use std::alloc::{AllocError, Global};
use vr_core::{Core, Readied, Response};
use vr_judging::is_enough;
use vr_model::{PrimaryState, Sends, Status};

/// RECOVERYRESPONSE with a nonce. It recovers when those of more than half of the group are kept, the latest view among
/// them is no earlier than its stored view, and the primary of that view told its state. One whose checkpoint can't be
/// taken up here is dropped. It fails only where it would keep the response or recover, and memory runs out.
pub fn on_recovery_response(
    core: &mut Core,
    alloc: Global,
    sender: u8,
    nonce: u64,
    response: Response,
) -> Result<Sends, AllocError>
    ensures rule { (a : RecoveryResponse Command) → ResponseStands (own_group core.old) response a
        → DoesIfKept core.old (receives_from sender (RecoveryResponseMessage nonce a)) core.new result }
    ensures dropped { IsUnfitResponse core.old sender response → Drops core.old core.new result }
{
    if core.is_other(sender) {
        response_of_other(core, alloc, sender, nonce, response)
    } else {
        Ok(Vec::new(alloc))
    }
}

/// RECOVERYRESPONSE of another replica of the group.
fn response_of_other(
    core: &mut Core,
    alloc: Global,
    sender: u8,
    nonce: u64,
    response: Response,
) -> Result<Sends, AllocError>
    requires { sender < group_size core.old.config.f }
    ensures rule { (a : RecoveryResponse Command) → ResponseStands (own_group core.old) response a
        → DoesIfKept core.old
        (λ w r. rules.on_recovery_response w.f w.number w.answer r sender nonce a) core.new result }
    ensures dropped { IsUnfitResponse core.old sender response → Drops core.old core.new result }
{
    if !recovers_with(core, nonce) {
        return Ok(Vec::new(alloc));
    }
    if !response_fits(core, alloc, sender, &response)? {
        return Ok(Vec::new(alloc));
    }
    let before = keep(core, sender, response);
    match recover_if_told(core, alloc) {
        Ok(()) => Ok(Vec::new(alloc)),
        Err(error) => {
            put_back(core, sender, before);
            Err(error)
        }
    }
}

/// Whether the checkpoint of a response, if it has one, can be taken up here. It fails only where the response would be
/// kept of this sender, and memory runs out.
fn response_fits(
    core: &Core,
    alloc: Global,
    sender: u8,
    response: &Response,
) -> Result<bool, AllocError>
    ensures fits { IfOk result
        (λ fits. fits ≡ false → (a : RecoveryResponse Command) → ResponseStands (own_group core.now) response.now a
        → ⊥) }
    ensures err { OnErr result (stays (kept_of core.now sender) response.now ≡ false) }
    ensures unfit { IfOk result (λ fits. fits ≡ true → IsUnfitResponse core.now sender response.now → ⊥) }
{
    if stays_kept(core, sender, response) {
        return Ok(true);
    }
    match &response.state {
        Some(state) => core.can_stand(alloc, state.commit_number, &state.log),
        None => Ok(true),
    }
}

/// Whether it recovers, and asked with this nonce.
fn recovers_with(core: &Core, nonce: u64) -> bool
    ensures status { result ≡ true → core.now.status ≡ Recovering }
    ensures told { Tells core.now (λ w r. is_recovering r.status && (r.nonce == nonce)) result }
{
    core.status == Status::Recovering && core.nonce == nonce
}

/// The replica recovers if it is told enough. It fails only where memory runs out, and then nothing changed.
fn recover_if_told(core: &mut Core, alloc: Global) -> Result<(), AllocError>
    requires { core.old.status ≡ Recovering }
    ensures ok { OnOk result (FollowsIfKept core.old (λ w r. rules.recovers w.f w.number w.answer r) core.new []) }
    ensures err { OnErr result (core.new ≡ core.old) }
    ensures lost { OnErr result
        (Tells core.old (λ w r. is_normal (rules.recovers w.f w.number w.answer r).replica.status) true) }
{
    let view = latest(core);
    if !is_told_enough(core, view) || !is_told(core, view) {
        return Ok(());
    }
    let Some(ready) = ready_for_told(core, alloc, view)? else {
        return Ok(());
    };
    recover(core, alloc, view, ready);
    Ok(())
}

/// What the log needs that the primary of this view told, before it takes the place of the core's; `None` where it
/// stands for none. It fails only where memory runs out.
fn ready_for_told(core: &Core, alloc: Global, view: u64) -> Result<Option<Readied>, AllocError>
    ensures { (h : HasState core.now view) → IfOk result (λ o. MatchOption o (IsOfNone core.now h.state.log)
        (IsReadied core.now h.state.log h.state.commit_number)) }
{
    match kept(core, core.config.primary(view)) {
        Some(
            Response {
                state: Some(state),
                ..
            },
        ) => core.ready_for(alloc, &state.log, state.commit_number),
        _ => Ok(None),
    }
}

/// Whether more than half of the group answered, and this view is no earlier than its stored one.
fn is_told_enough(core: &Core, view: u64) -> bool
    requires { core.now.status ≡ Recovering }
    ensures told { Tells core.now (λ w r.
        told_enough w.f (how_many (λ s. is_some (r.responses s)) (group_size w.f)) r.stored_view view) result }
    ensures stored { result ≡ true → core.now.stored_view ≤ view }
{
    is_enough(core.config.f, count(core), core.stored_view, view)
}

/// The replica adopts this view, with the log that its primary told.
fn recover(core: &mut Core, alloc: Global, view: u64, ready: Readied)
    requires stored { core.old.stored_view ≤ view }
    requires told { HasState core.old view }
    requires ready { (h : HasState core.old view)
        → IsReadied core.old h.state.log h.state.commit_number ready }
    ensures { (h : HasState core.old view) → Recovers core.old view h.state core.new }
{
    core.adopt(view);
    if let Some(state) = take_state(core, view) {
        core.replace_log(state.log, ready.begun);
        core.execute_to(alloc, state.commit_number, ready.changes);
    }
}

/// The state that the primary of this view told. No response is kept any more.
fn take_state(core: &mut Core, view: u64) -> Option<PrimaryState>
    ensures state { (h : HasState core.old view) → result ≡ Some h.state }
    ensures others { core.new ≡ record core.old { responses = core.new.responses } }
    ensures gone { core.new.responses.items ≡ [] }
{
    let from = core.config.primary(view);
    let told = put(core, from, None);
    core.responses.clear();
    told?.state
}
