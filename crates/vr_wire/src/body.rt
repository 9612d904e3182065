//! What messages say, both ways.

ghost use Rattle.std.specs.Int.{w64, to_be_bytes};
ghost use Rattle.std.specs.Prelude.{◌≡◌, ◌<◌, ◌^◌, ◌++◌, OnOk, false};
ghost use Rattle.vr_model.specs.declared.message.Body.TheVariants as says;
ghost use Rattle.vr_wire.specs.Frames.{log_tag, state_checkpoint, state_mark, body_tag, body_fields, state_bytes};
ghost use Rattle.vr_wire.specs.Frames.{IsState, IsBody, FitsState, FitsBody};
ghost use Rattle.vr_wire.specs.Logs.{IsLog};
ghost use Rattle.vr_wire.specs.MessageReading.{request_at, numbers_at, primary_state_at, state_at, prepare_at};
ghost use Rattle.vr_wire.specs.MessageReading.{reply_at, do_view_change_at, start_view_at, recovery_response_at};
ghost use Rattle.vr_wire.specs.MessageReading.{new_state_at, body_at};
ghost use Rattle.vr_wire.specs.Reading.{Gives, closed, number_at, fields_1};

use crate::answer::{answer_at, put_answer};
use crate::fault::ReadError;
use crate::lawful::is_past;
use crate::log::{put_log, whole_log};
use crate::numbers::{ended, put_u8, put_u64, u8_at, u64_at};
use crate::request::{put_request, request_at, request_end};
use il_model::Answer;
use std::alloc::{AllocError, Global};
use vr_model::{Body, Log, PrimaryState, Request};

/// The tag of a message that carries a log: one for a log from its first entry on, another for one behind a checkpoint.
fn log_tag(log: &Log, whole: u8, behind: u8) -> u8
    ensures { result ≡ log_tag log.now.checkpoint whole behind }
{
    match log.checkpoint() {
        None => whole,
        Some(_) => behind,
    }
}

fn response_tag(state: &Option<PrimaryState>) -> u8
    ensures { result ≡ log_tag (state_checkpoint state.now) 10 15 }
{
    match state {
        None => 10,
        Some(state) => log_tag(&state.log, 10, 15),
    }
}

pub(crate) fn body_tag(body: &Body) -> u8
    ensures { result ≡ body_tag body.now }
{
    match body {
        Body::Request(_) => 1,
        Body::Prepare { .. } => 2,
        Body::PrepareOk { .. } => 3,
        Body::Commit { .. } => 4,
        Body::Reply { .. } => 5,
        Body::StartViewChange { .. } => 6,
        Body::DoViewChange { log, .. } => log_tag(log, 7, 13),
        Body::StartView { log, .. } => log_tag(log, 8, 14),
        Body::Recovery { .. } => 9,
        Body::RecoveryResponse { state, .. } => response_tag(state),
        Body::GetState { .. } => 11,
        Body::NewState { log, .. } => log_tag(log, 12, 16),
    }
}

fn put_numbers(out: &mut Vec<u8>, first: u64, second: u64) -> Result<(), AllocError>
    ensures text { OnOk result (out.new.items ≡ out.old.items ++ (to_be_bytes w64 first ++ to_be_bytes w64 second)) }
    ensures fits { OnOk result ((first < 2 ^ 64) × (second < 2 ^ 64)) }
{
    put_u64(out, first)?;
    put_u64(out, second)
}

fn put_prepare(
    out: &mut Vec<u8>,
    view: u64,
    request: &Request,
    op_number: u64,
    commit_number: u64,
) -> Result<(), AllocError>
    ensures text { OnOk result
        (out.new.items ≡ out.old.items ++ body_fields (says.Prepare view request.now op_number commit_number)) }
    ensures fits { OnOk result (FitsBody (says.Prepare view request.now op_number commit_number)) }
{
    put_u64(out, view)?;
    put_request(out, request)?;
    put_numbers(out, op_number, commit_number)
}

fn put_reply(out: &mut Vec<u8>, view: u64, number: u64, answer: &Answer) -> Result<(), AllocError>
    ensures text { OnOk result (out.new.items ≡ out.old.items ++ body_fields (says.Reply view number answer.now)) }
    ensures fits { OnOk result (FitsBody (says.Reply view number answer.now)) }
{
    put_u64(out, view)?;
    put_u64(out, number)?;
    put_answer(out, answer)
}

/// Two numbers, then a commit number and a log.
fn put_numbers_and_log(
    out: &mut Vec<u8>,
    first: u64,
    second: u64,
    commit_number: u64,
    log: &Log,
) -> Result<(), AllocError>
    requires { IsLog log.now }
    ensures text { OnOk result
        (out.new.items ≡ out.old.items ++ body_fields (says.NewState first second commit_number log.now)) }
    ensures fits { OnOk result (FitsBody (says.NewState first second commit_number log.now)) }
{
    put_u64(out, first)?;
    put_u64(out, second)?;
    put_u64(out, commit_number)?;
    put_log(out, log)
}

fn put_start_view(
    out: &mut Vec<u8>,
    view: u64,
    commit_number: u64,
    log: &Log,
) -> Result<(), AllocError>
    requires { IsLog log.now }
    ensures text { OnOk result
        (out.new.items ≡ out.old.items ++ body_fields (says.StartView view commit_number log.now)) }
    ensures fits { OnOk result (FitsBody (says.StartView view commit_number log.now)) }
{
    put_u64(out, view)?;
    put_u64(out, commit_number)?;
    put_log(out, log)
}

/// Writes the mark that there is a state, where the tag doesn't say it.
fn put_mark(out: &mut Vec<u8>, log: &Log) -> Result<(), AllocError>
    ensures { OnOk result (out.new.items ≡ out.old.items ++ state_mark log.now.checkpoint) }
{
    match log.checkpoint() {
        None => put_u8(out, 1),
        Some(_) => Ok(()),
    }
}

fn put_state(out: &mut Vec<u8>, state: &Option<PrimaryState>) -> Result<(), AllocError>
    requires { IsState state.now }
    ensures text { OnOk result (out.new.items ≡ out.old.items ++ state_bytes state.now) }
    ensures fits { OnOk result (FitsState state.now) }
{
    match state {
        None => put_u8(out, 0),
        Some(state) => {
            put_mark(out, &state.log)?;
            put_u64(out, state.commit_number)?;
            put_log(out, &state.log)
        }
    }
}

fn put_recovery_response(
    out: &mut Vec<u8>,
    view: u64,
    nonce: u64,
    state: &Option<PrimaryState>,
) -> Result<(), AllocError>
    requires { IsState state.now }
    ensures text { OnOk result
        (out.new.items ≡ out.old.items ++ (to_be_bytes w64 view ++ (to_be_bytes w64 nonce ++ state_bytes state.now))) }
    ensures fits { OnOk result ((view < 2 ^ 64) × (nonce < 2 ^ 64) × FitsState state.now) }
{
    put_u64(out, view)?;
    put_u64(out, nonce)?;
    put_state(out, state)
}

pub(crate) fn put_fields(out: &mut Vec<u8>, body: &Body) -> Result<(), AllocError>
    requires { IsBody body.now }
    ensures text { OnOk result (out.new.items ≡ out.old.items ++ body_fields body.now) }
    ensures fits { OnOk result (FitsBody body.now) }
{
    match body {
        Body::Request(request) => put_request(out, request),
        Body::Prepare {
            view,
            request,
            op_number,
            commit_number,
        } => put_prepare(out, *view, request, *op_number, *commit_number),
        Body::PrepareOk { view, op_number } => put_numbers(out, *view, *op_number),
        Body::Commit {
            view,
            commit_number,
        } => put_numbers(out, *view, *commit_number),
        Body::Reply {
            view,
            number,
            answer,
        } => put_reply(out, *view, *number, answer),
        Body::StartViewChange { view } => put_u64(out, *view),
        Body::DoViewChange {
            view,
            last_normal_view,
            commit_number,
            log,
        } => put_numbers_and_log(out, *view, *last_normal_view, *commit_number, log),
        Body::StartView {
            view,
            commit_number,
            log,
        } => put_start_view(out, *view, *commit_number, log),
        Body::Recovery { nonce, stored_view } => put_numbers(out, *nonce, *stored_view),
        Body::RecoveryResponse { view, nonce, state } => {
            put_recovery_response(out, *view, *nonce, state)
        }
        Body::GetState { view, op_number } => put_numbers(out, *view, *op_number),
        Body::NewState {
            view,
            op_number,
            commit_number,
            log,
        } => put_numbers_and_log(out, *view, *op_number, *commit_number, log),
    }
}

// ---- what the fields of a body say, where they are all of the bytes

/// A primary's commit number and log.
fn whole_primary_state(
    alloc: Global,
    is_behind: bool,
    bytes: &[u8],
) -> Result<Option<PrimaryState>, ReadError>
    ensures { Gives (λ state. state) result (closed (primary_state_at is_behind) bytes.now) }
{
    let (commit_number, rest) = u64_at(bytes)?;
    let log = whole_log(alloc, is_behind, rest)?;
    Ok(Some(PrimaryState { commit_number, log }))
}

fn whole_marked_state(alloc: Global, bytes: &[u8]) -> Result<Option<PrimaryState>, ReadError>
    ensures { Gives (λ state. state) result (closed (state_at false) bytes.now) }
{
    let (tag, rest) = u8_at(bytes)?;
    match tag {
        0 => {
            ended(rest)?;
            Ok(None)
        }
        1 => whole_primary_state(alloc, false, rest),
        _ => Err(ReadError::Malformed),
    }
}

fn whole_state(
    alloc: Global,
    is_behind: bool,
    bytes: &[u8],
) -> Result<Option<PrimaryState>, ReadError>
    ensures { Gives (λ state. state) result (closed (state_at is_behind) bytes.now) }
{
    if is_behind {
        return whole_primary_state(alloc, true, bytes);
    }
    whole_marked_state(alloc, bytes)
}

/// Two numbers and no more.
fn whole_numbers(bytes: &[u8]) -> Result<(u64, u64), ReadError>
    ensures { Gives (λ x. x) result (closed numbers_at bytes.now) }
{
    let (first, rest) = u64_at(bytes)?;
    let (second, rest) = u64_at(rest)?;
    ended(rest)?;
    Ok((first, second))
}

/// A request that is all of the bytes. It's judged whole before memory is asked for.
fn whole_request(alloc: Global, bytes: &[u8]) -> Result<Body, ReadError>
    ensures { Gives (λ body. body) result (closed (fields_1 says.Request request_at) bytes.now) }
{
    ended(request_end(bytes)?)?;
    let (request, _end) = request_at(alloc, bytes)?;
    Ok(Body::Request(request))
}

/// A PREPARE that is all of the bytes. It's judged whole before memory is asked for.
fn whole_prepare(alloc: Global, bytes: &[u8]) -> Result<Body, ReadError>
    ensures { Gives (λ body. body) result (closed prepare_at bytes.now) }
{
    let (view, rest) = u64_at(bytes)?;
    let behind = request_end(rest)?;
    let (op_number, commit_number) = whole_numbers(behind)?;
    let (request, _behind) = request_at(alloc, rest)?;
    Ok(Body::Prepare {
        view,
        request,
        op_number,
        commit_number,
    })
}

fn whole_reply(bytes: &[u8]) -> Result<Body, ReadError>
    ensures { Gives (λ body. body) result (closed reply_at bytes.now) }
{
    let (view, rest) = u64_at(bytes)?;
    let (number, rest) = u64_at(rest)?;
    let (answer, rest) = answer_at(rest)?;
    ended(rest)?;
    Ok(Body::Reply {
        view,
        number,
        answer,
    })
}

fn whole_start_view_change(bytes: &[u8]) -> Result<Body, ReadError>
    ensures { Gives (λ body. body) result (closed (fields_1 says.StartViewChange (number_at w64)) bytes.now) }
{
    let (view, rest) = u64_at(bytes)?;
    ended(rest)?;
    Ok(Body::StartViewChange { view })
}

fn whole_do_view_change(alloc: Global, is_behind: bool, bytes: &[u8]) -> Result<Body, ReadError>
    ensures { Gives (λ body. body) result (closed (do_view_change_at is_behind) bytes.now) }
{
    let (view, rest) = u64_at(bytes)?;
    let (last_normal_view, rest) = u64_at(rest)?;
    let (commit_number, rest) = u64_at(rest)?;
    let log = whole_log(alloc, is_behind, rest)?;
    Ok(Body::DoViewChange {
        view,
        last_normal_view,
        commit_number,
        log,
    })
}

fn whole_start_view(alloc: Global, is_behind: bool, bytes: &[u8]) -> Result<Body, ReadError>
    ensures { Gives (λ body. body) result (closed (start_view_at is_behind) bytes.now) }
{
    let (view, rest) = u64_at(bytes)?;
    let (commit_number, rest) = u64_at(rest)?;
    let log = whole_log(alloc, is_behind, rest)?;
    Ok(Body::StartView {
        view,
        commit_number,
        log,
    })
}

fn whole_recovery_response(alloc: Global, is_behind: bool, bytes: &[u8]) -> Result<Body, ReadError>
    ensures { Gives (λ body. body) result (closed (recovery_response_at is_behind) bytes.now) }
{
    let (view, rest) = u64_at(bytes)?;
    let (nonce, rest) = u64_at(rest)?;
    let state = whole_state(alloc, is_behind, rest)?;
    Ok(Body::RecoveryResponse { view, nonce, state })
}

fn whole_new_state(alloc: Global, is_behind: bool, bytes: &[u8]) -> Result<Body, ReadError>
    ensures { Gives (λ body. body) result (closed (new_state_at is_behind) bytes.now) }
{
    let (view, rest) = u64_at(bytes)?;
    let (op_number, rest) = u64_at(rest)?;
    let (commit_number, rest) = u64_at(rest)?;
    let log = whole_log(alloc, is_behind, rest)?;
    if !is_past(op_number, &log) {
        return Err(ReadError::Malformed);
    }
    Ok(Body::NewState {
        view,
        op_number,
        commit_number,
        log,
    })
}

/// What a message with a tag up to 12 says, whose fields are all of the bytes.
fn whole_plain_body(alloc: Global, tag: u8, bytes: &[u8]) -> Result<Body, ReadError>
    requires { tag < 13 }
    ensures { Gives (λ body. body) result (closed (body_at tag) bytes.now) }
{
    match tag {
        1 => whole_request(alloc, bytes),
        2 => whole_prepare(alloc, bytes),
        3 => {
            let (view, op_number) = whole_numbers(bytes)?;
            Ok(Body::PrepareOk { view, op_number })
        }
        4 => {
            let (view, commit_number) = whole_numbers(bytes)?;
            Ok(Body::Commit {
                view,
                commit_number,
            })
        }
        5 => whole_reply(bytes),
        6 => whole_start_view_change(bytes),
        7 => whole_do_view_change(alloc, false, bytes),
        8 => whole_start_view(alloc, false, bytes),
        9 => {
            let (nonce, stored_view) = whole_numbers(bytes)?;
            Ok(Body::Recovery { nonce, stored_view })
        }
        10 => whole_recovery_response(alloc, false, bytes),
        11 => {
            let (view, op_number) = whole_numbers(bytes)?;
            Ok(Body::GetState { view, op_number })
        }
        12 => whole_new_state(alloc, false, bytes),
        _ => Err(ReadError::Malformed),
    }
}

/// What a message with this tag says, whose fields are all of the bytes.
pub(crate) fn whole_body(alloc: Global, tag: u8, bytes: &[u8]) -> Result<Body, ReadError>
    ensures { Gives (λ body. body) result (closed (body_at tag) bytes.now) }
{
    match tag {
        13 => whole_do_view_change(alloc, true, bytes),
        14 => whole_start_view(alloc, true, bytes),
        15 => whole_recovery_response(alloc, true, bytes),
        16 => whole_new_state(alloc, true, bytes),
        17.. => Err(ReadError::Malformed),
        _ => whole_plain_body(alloc, tag, bytes),
    }
}
