//! Which rule an event has.

ghost use Rattle.std.specs.Prelude.{◌≡◌, List};
ghost use Rattle.il_model.specs.declared.command.Command.{Command};
ghost use Rattle.vr_model.specs.Logs as logs;
ghost use Rattle.vr_model.specs.Protocols.{NormalCase, ViewChange, Recovery, protocol_of};
ghost use Rattle.vr_model.specs.Rules as rules;
ghost use Rattle.vr_model.specs.StandsFor.{body_with, party_of, Carries};
ghost use Rattle.vr_core.specs.StandsFor.{IsSavedAs, own_group};
ghost use Rattle.vr_core.specs.Follows.{DoesIfKept, receives_from};
ghost use Rattle.vr_replica.specs.Ruled.{DoesFrom, Ruled};
ghost use Rattle.vr_core.specs.Checkpoints.{Drops};
ghost use Rattle.vr_replica.specs.Stepped.{IsUnfitBody, IsUnfitFrom, IsUnfitEvent};

use std::alloc::{AllocError, Global};
use vr_core::{Core, Response};
use vr_model::{Body, DoViewChange, Event, Message, Party, Sends};
use vr_normal::{Prepare, on_commit, on_prepare, on_prepare_ok, on_request, resend};
use vr_recovery::{NewState, on_get_state, on_new_state, on_recovery, on_recovery_response};
use vr_viewchange::{on_do_view_change, on_start_view, on_start_view_change, on_timeout};

/// What the rules make of an event of a replica that is up: it drops a restart.
pub(crate) fn by_rule(core: &mut Core, alloc: Global, event: Event) -> Result<Sends, AllocError>
    ensures rule { Ruled core.old event core.new result }
    ensures dropped { IsUnfitEvent core.old event → Drops core.old core.new result }
{
    match event {
        Event::Message(message) => receive(core, alloc, message),
        Event::Timeout => on_timeout(core, alloc),
        Event::Resend => resend(core, alloc),
        Event::Restart(_) => Ok(Vec::new(alloc)),
    }
}

/// What the rules make of a message.
fn receive(core: &mut Core, alloc: Global, message: Message) -> Result<Sends, AllocError>
    ensures rule { (l : List (logs.Request Command)) → Carries IsSavedAs (own_group core.old) message.body l
        → DoesFrom core.old message.body
        (λ w r. rules.receives w.f w.number w.answer r (party_of message.from)
        (body_with l message.body)) core.new result }
    ensures dropped { IsUnfitFrom core.old message.from message.body → Drops core.old core.new result }
{
    match message.from {
        Party::Client(_) => from_client(core, alloc, message.body),
        Party::Replica(sender) => from_replica(core, alloc, sender, message.body),
    }
}

/// What the rules make of a message of a client: of a request.
fn from_client(core: &mut Core, alloc: Global, body: Body) -> Result<Sends, AllocError>
    ensures { (l : List (logs.Request Command))
        → DoesIfKept core.old (λ w r. rules.from_client w.f w.number w.answer r (body_with l body)) core.new result }
{
    match body {
        Body::Request(request) => on_request(core, alloc, request),
        _ => Ok(Vec::new(alloc)),
    }
}

/// What the rules make of a message of a replica: of all but requests and replies. It is sorted by protocol first, so
/// that each function here is proved by the calls of one protocol.
fn from_replica(core: &mut Core, alloc: Global, sender: u8, body: Body) -> Result<Sends, AllocError>
    ensures rule { (l : List (logs.Request Command)) → Carries IsSavedAs (own_group core.old) body l
        → DoesFrom core.old body (receives_from sender (body_with l body)) core.new result }
    ensures dropped { IsUnfitBody core.old sender body → Drops core.old core.new result }
{
    match body {
        Body::Request(_)
        | Body::Prepare { .. }
        | Body::PrepareOk { .. }
        | Body::Commit { .. }
        | Body::Reply { .. } => in_normal_case(core, alloc, sender, body),
        Body::StartViewChange { .. } | Body::DoViewChange { .. } | Body::StartView { .. } => {
            in_view_change(core, alloc, sender, body)
        }
        Body::Recovery { .. }
        | Body::RecoveryResponse { .. }
        | Body::GetState { .. }
        | Body::NewState { .. } => in_recovery(core, alloc, sender, body),
    }
}

/// What the rules make of a message of the normal case.
fn in_normal_case(
    core: &mut Core,
    alloc: Global,
    sender: u8,
    body: Body,
) -> Result<Sends, AllocError>
    requires part { protocol_of body ≡ NormalCase }
    ensures { (l : List (logs.Request Command))
        → DoesIfKept core.old (receives_from sender (body_with l body)) core.new result }
{
    match body {
        Body::Request(_) | Body::Reply { .. } => Ok(Vec::new(alloc)),
        Body::Prepare {
            view,
            request,
            op_number,
            commit_number,
        } => {
            let prepare = Prepare {
                view,
                request,
                op_number,
                commit_number,
            };
            on_prepare(core, alloc, sender, prepare)
        }
        Body::PrepareOk { view, op_number } => on_prepare_ok(core, alloc, sender, view, op_number),
        Body::Commit {
            view,
            commit_number,
        } => on_commit(core, alloc, sender, view, commit_number),
        _ => unreachable!(),
    }
}

/// What the rules make of a message of a view change.
fn in_view_change(
    core: &mut Core,
    alloc: Global,
    sender: u8,
    body: Body,
) -> Result<Sends, AllocError>
    requires part { protocol_of body ≡ ViewChange }
    ensures rule { (l : List (logs.Request Command)) → Carries IsSavedAs (own_group core.old) body l
        → DoesIfKept core.old (receives_from sender (body_with l body)) core.new result }
    ensures dropped { IsUnfitBody core.old sender body → Drops core.old core.new result }
{
    match body {
        Body::StartViewChange { view } => on_start_view_change(core, alloc, sender, view),
        Body::DoViewChange {
            view,
            last_normal_view,
            commit_number,
            log,
        } => {
            let told = DoViewChange {
                replica: sender,
                last_normal_view,
                commit_number,
                log,
            };
            on_do_view_change(core, alloc, view, told)
        }
        Body::StartView {
            view,
            commit_number,
            log,
        } => on_start_view(core, alloc, sender, view, commit_number, log),
        _ => unreachable!(),
    }
}

/// What the rules make of a message of recovery or of state transfer.
fn in_recovery(core: &mut Core, alloc: Global, sender: u8, body: Body) -> Result<Sends, AllocError>
    requires part { protocol_of body ≡ Recovery }
    ensures rule { (l : List (logs.Request Command)) → Carries IsSavedAs (own_group core.old) body l
        → DoesFrom core.old body (receives_from sender (body_with l body)) core.new result }
    ensures dropped { IsUnfitBody core.old sender body → Drops core.old core.new result }
{
    match body {
        Body::Recovery { nonce, stored_view } => on_recovery(
            core,
            alloc,
            sender,
            nonce,
            stored_view,
        ),
        Body::RecoveryResponse { view, nonce, state } => {
            on_recovery_response(core, alloc, sender, nonce, Response { view, state })
        }
        Body::GetState { view, op_number } => on_get_state(core, alloc, sender, view, op_number),
        Body::NewState {
            view,
            op_number,
            commit_number,
            log,
        } => {
            let new_state = NewState {
                view,
                op_number,
                commit_number,
                log,
            };
            on_new_state(core, alloc, sender, new_state)
        }
        _ => unreachable!(),
    }
}
