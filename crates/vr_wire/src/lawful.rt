//! Which messages have a frame.

ghost use Rattle.std.specs.Prelude.{◌≡◌, ◌↔◌, IsTrue};
ghost use Rattle.vr_wire.specs.Fields.{IsSafe};
ghost use Rattle.vr_wire.specs.Logs.{IsLog};
ghost use Rattle.vr_wire.specs.MessageReading.{is_past};
ghost use Rattle.vr_wire.specs.Frames.{IsEnd, may_send, may_receive, IsState, IsPast, IsBody, IsLawful};

use crate::log::is_log;
use il_model::{Answer, OutImage};
use vr_model::{Body, Log, MOST_REPLICAS, Message, Party, PrimaryState};

fn is_end(may_be_client: bool, party: Party) -> bool
    ensures { IsTrue result ↔ IsEnd may_be_client party }
{
    match party {
        Party::Replica(number) => usize::from(number) < MOST_REPLICAS,
        Party::Client(_) => may_be_client,
    }
}

fn may_send(body: &Body) -> bool
    ensures { result ≡ may_send body.now }
{
    matches!(body, Body::Request(_))
}

fn may_receive(body: &Body) -> bool
    ensures { result ≡ may_receive body.now }
{
    matches!(body, Body::Reply { .. })
}

fn is_same(a: &OutImage, b: &OutImage) -> bool
    ensures { IsTrue result ↔ (a.now ≡ b.now) }
{
    a == b
}

pub(crate) fn is_safe(answer: &Answer) -> bool
    ensures { IsTrue result ↔ IsSafe answer.now }
{
    match answer {
        Answer::Stopped { image, .. } => is_same(image, &OutImage::safe()),
        _ => true,
    }
}

fn is_state(state: &Option<PrimaryState>) -> bool
    ensures { IsTrue result ↔ IsState state.now }
{
    match state {
        None => true,
        Some(state) => is_log(&state.log),
    }
}

/// Whether a log's checkpoint, if it has one, is past this op number.
pub(crate) fn is_past(op_number: u64, log: &Log) -> bool
    ensures value { result ≡ is_past op_number log.now.checkpoint }
    ensures lawful { IsTrue result ↔ IsPast op_number log.now.checkpoint }
{
    match log.checkpoint() {
        None => true,
        Some(checkpoint) => op_number < checkpoint.base,
    }
}

fn is_handed_on(op_number: u64, log: &Log) -> bool
    ensures { IsTrue result ↔ (IsLog log.now × IsPast op_number log.now.checkpoint) }
{
    is_log(log) && is_past(op_number, log)
}

fn is_body(body: &Body) -> bool
    ensures { IsTrue result ↔ IsBody body.now }
{
    match body {
        Body::Reply { answer, .. } => is_safe(answer),
        Body::DoViewChange { log, .. } | Body::StartView { log, .. } => is_log(log),
        Body::RecoveryResponse { state, .. } => is_state(state),
        Body::NewState { op_number, log, .. } => is_handed_on(*op_number, log),
        Body::Request(_)
        | Body::Prepare { .. }
        | Body::PrepareOk { .. }
        | Body::Commit { .. }
        | Body::StartViewChange { .. }
        | Body::Recovery { .. }
        | Body::GetState { .. } => true,
    }
}

/// Whether the sender, the receiver and each field have a lawful value.
pub(crate) fn is_lawful(message: &Message) -> bool
    ensures { IsTrue result ↔ IsLawful message.now }
{
    is_end(may_send(&message.body), message.from)
        && is_end(may_receive(&message.body), message.to)
        && is_body(&message.body)
}
