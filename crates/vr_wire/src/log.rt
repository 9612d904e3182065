//! Checkpoints and the logs behind them, both ways.

ghost use Rattle.std.specs.Prelude.{◌≡◌, ℕ, ◌<◌, ◌≤◌, ◌^◌, ◌↔◌, ◌++◌, [], IsTrue, OnOk, length, true};
ghost use Rattle.std.specs.List.{flat_map, AllByRecursion};
ghost use Rattle.vr_model.specs.Groups.{client_count};
ghost use Rattle.vr_wire.specs.Logs.{client_bytes, with_answer, answered_from, clients_bytes, checkpoint_bytes};
ghost use Rattle.vr_wire.specs.Logs.{may_checkpoint_bytes, log_bytes, IsExecuted, IsCheckpoint, MayBeCheckpoint, IsLog};
ghost use Rattle.vr_wire.specs.Logs.{FitsClient, FitsExecuted, FitsCheckpoint, MayFit, FitsLog};
ghost use Rattle.vr_wire.specs.MessageReading.{client_answer_at, next_of, table_of, clients_at, checkpoint_at, log_at};
ghost use Rattle.vr_wire.specs.Reading.{Gives, closed};

use crate::answer::{answer_at, put_answer};
use crate::fault::ReadError;
use crate::field::{Field, items_at};
use crate::lawful::is_safe;
use crate::numbers::{put_u8, put_u64, u8_at, u64_at};
use crate::request::{put_entries, whole_entries};
use crate::snapshot::{is_snapshot, put_snapshot, snapshot_at};
use crate::value::lawful;
use std::alloc::{AllocError, Global};
use vr_model::{CLIENTS, Checkpoint, Executed, Log};

// ---- the clients' answers

/// A client, with the last of its requests that were executed and the answer to it.
#[derive(Drop)]
pub(crate) struct ClientAnswer {
    client: u8,
    executed: Executed,
}

fn put_client_answer(out: &mut Vec<u8>, client: u8, executed: &Executed) -> Result<(), AllocError>
    ensures text { OnOk result
        (out.new.items ≡ out.old.items ++ client_bytes (record { client = client; executed = executed.now })) }
    ensures fits { OnOk result (FitsClient (record { client = client; executed = executed.now })) }
{
    put_u8(out, client)?;
    put_u64(out, executed.number)?;
    put_answer(out, &executed.answer)
}

fn put_may_answer(
    out: &mut Vec<u8>,
    client: u8,
    executed: &Option<Executed>,
) -> Result<(), AllocError>
    ensures text { OnOk result
        (out.new.items ≡ out.old.items ++ flat_map client_bytes (with_answer client executed.now [])) }
    ensures fits { OnOk result (FitsExecuted executed.now) }
{
    match executed {
        None => Ok(()),
        Some(executed) => put_client_answer(out, client, executed),
    }
}

/// How many answers one client has.
fn answer_count(executed: &Option<Executed>) -> u8
    ensures value { (client : ℕ) → result ≡ length (with_answer client executed.now []) }
    ensures few { result ≤ 1 }
{
    match executed {
        None => 0,
        Some(_) => 1,
    }
}

/// How many clients have an answer.
fn answered_count(clients: &[Option<Executed>]) -> u8
    requires { length clients.now ≤ client_count }
    ensures { result ≡ length (answered_from 0 clients.now) }
{
    let mut count = 0;
    for executed in clients {
        count += answer_count(executed);
    }
    count
}

/// Writes the answers of the clients that have one, in order.
fn put_answers(out: &mut Vec<u8>, clients: &[Option<Executed>]) -> Result<(), AllocError>
    requires { length clients.now ≤ client_count }
    ensures text { OnOk result (out.new.items ≡ out.old.items ++ flat_map client_bytes (answered_from 0 clients.now)) }
    ensures fits { OnOk result (AllByRecursion FitsExecuted clients.now) }
{
    let mut client = 0;
    for executed in clients {
        put_may_answer(out, client, executed)?;
        client += 1;
    }
    Ok(())
}

fn put_clients(out: &mut Vec<u8>, clients: &[Option<Executed>]) -> Result<(), AllocError>
    requires { length clients.now ≤ client_count }
    ensures text { OnOk result (out.new.items ≡ out.old.items ++ clients_bytes clients.now) }
    ensures fits { OnOk result (AllByRecursion FitsExecuted clients.now) }
{
    put_u8(out, answered_count(clients))?;
    put_answers(out, clients)
}

impl Field for ClientAnswer {
    ghost text = { client_bytes };

    ghost IsLawful = { λ _. Unit {0} };

    ghost Fits = { FitsClient };

    ghost read_at = { client_answer_at };

    fn put(&self, out: &mut Vec<u8>) -> Result<(), AllocError> {
        put_client_answer(out, self.client, &self.executed)
    }

    fn is_lawful(&self) -> bool {
        true
    }

    fn read(_alloc: Global, bytes: &[u8]) -> Result<(ClientAnswer, &[u8]), ReadError> {
        let (client, rest) = u8_at(bytes)?;
        if client >= CLIENTS {
            return Err(ReadError::Malformed);
        }
        let (number, rest) = u64_at(rest)?;
        let (answer, rest) = answer_at(rest)?;
        let executed = Executed { number, answer };
        Ok((ClientAnswer { client, executed }, rest))
    }
}

/// The answer of this client, if it is the next of those that are told, and the others.
fn next_of(client: u8, answers: &[ClientAnswer]) -> (Option<Executed>, &[ClientAnswer])
    ensures { (result.0, result.1.now) ≡ next_of client answers.now }
{
    match answers {
        [] => (None, answers),
        [first, others @ ..] => {
            if first.client == client {
                (Some(first.executed), others)
            } else {
                (None, answers)
            }
        }
    }
}

/// The answer of each client, of those that are told, if they rise.
fn table_of(alloc: Global, answers: &[ClientAnswer]) -> Result<Vec<Option<Executed>>, ReadError>
    ensures { Gives (λ table. table.items) result (table_of answers.now) }
{
    let mut table = Vec::with_capacity(alloc, usize::from(CLIENTS))?;
    let mut rest = answers;
    for client in 0..CLIENTS {
        let (executed, others) = next_of(client, rest);
        table.push(executed)?;
        rest = others;
    }
    if !rest.is_empty() {
        return Err(ReadError::Malformed);
    }
    Ok(table)
}

fn clients_at(alloc: Global, bytes: &[u8]) -> Result<(Vec<Option<Executed>>, &[u8]), ReadError>
    ensures { Gives (λ x. (x.0.items, x.1.now)) result (clients_at bytes.now) }
{
    let (count, rest) = u8_at(bytes)?;
    let (answers, rest) = items_at(alloc, usize::from(count), rest)?;
    let table = table_of(alloc, answers.as_slice())?;
    Ok((table, rest))
}

fn is_executed(executed: &Option<Executed>) -> bool
    ensures { IsTrue result ↔ IsExecuted executed.now }
{
    match executed {
        None => true,
        Some(executed) => is_safe(&executed.answer),
    }
}

fn are_executed(clients: &[Option<Executed>]) -> bool
    ensures { IsTrue result ↔ AllByRecursion IsExecuted clients.now }
{
    for executed in clients {
        if !is_executed(executed) {
            return false;
        }
    }
    true
}

// ---- checkpoints

fn is_checkpoint(c: &Checkpoint) -> bool
    ensures { IsTrue result ↔ IsCheckpoint c.now }
{
    c.base > 0
        && c.clients.len() == usize::from(CLIENTS)
        && are_executed(c.clients.as_slice())
        && is_snapshot(&c.snapshot)
}

fn put_checkpoint(out: &mut Vec<u8>, c: &Checkpoint) -> Result<(), AllocError>
    requires { IsCheckpoint c.now }
    ensures text { OnOk result (out.new.items ≡ out.old.items ++ checkpoint_bytes c.now) }
    ensures fits { OnOk result (FitsCheckpoint c.now) }
{
    put_u64(out, c.base)?;
    put_clients(out, c.clients.as_slice())?;
    put_snapshot(out, &c.snapshot)
}

fn checkpoint_at(alloc: Global, bytes: &[u8]) -> Result<(Checkpoint, &[u8]), ReadError>
    ensures { Gives (λ x. (x.0, x.1.now)) result (checkpoint_at bytes.now) }
{
    let (base, rest) = u64_at(bytes)?;
    if base == 0 {
        return Err(ReadError::Malformed);
    }
    let (clients, rest) = clients_at(alloc, rest)?;
    let (snapshot, rest) = snapshot_at(alloc, rest)?;
    let checkpoint = Checkpoint {
        base,
        snapshot,
        clients,
    };
    Ok((checkpoint, rest))
}

fn may_be_checkpoint(log: &Log) -> bool
    ensures { IsTrue result ↔ MayBeCheckpoint log.now.checkpoint }
{
    match log.checkpoint() {
        None => true,
        Some(checkpoint) => is_checkpoint(checkpoint),
    }
}

fn put_may_checkpoint(out: &mut Vec<u8>, log: &Log) -> Result<(), AllocError>
    requires { MayBeCheckpoint log.now.checkpoint }
    ensures text { OnOk result (out.new.items ≡ out.old.items ++ may_checkpoint_bytes log.now.checkpoint) }
    ensures fits { OnOk result (MayFit log.now.checkpoint) }
{
    match log.checkpoint() {
        None => Ok(()),
        Some(checkpoint) => put_checkpoint(out, checkpoint),
    }
}

// ---- logs

/// Whether a log has a spelling.
pub(crate) fn is_log(log: &Log) -> bool
    ensures { IsTrue result ↔ IsLog log.now }
{
    let _last = log.op_number();
    may_be_checkpoint(log) && log.entries().len() < 4294967296
}

pub(crate) fn put_log(out: &mut Vec<u8>, log: &Log) -> Result<(), AllocError>
    requires { IsLog log.now }
    ensures text { OnOk result (out.new.items ≡ out.old.items ++ log_bytes log.now) }
    ensures fits { OnOk result (FitsLog log.now) }
{
    put_may_checkpoint(out, log)?;
    put_entries(out, log.entries())
}

/// A checkpoint, and the log behind it, which is all of the other bytes.
fn whole_log_behind(alloc: Global, bytes: &[u8]) -> Result<Log, ReadError>
    ensures { Gives (λ log. log) result (closed (log_at true) bytes.now) }
{
    let (checkpoint, rest) = checkpoint_at(alloc, bytes)?;
    let entries = whole_entries(alloc, rest)?;
    lawful(Log::past(Box::new(alloc, checkpoint)?, entries))
}

/// A log that is all of the bytes, from its first entry on or behind a checkpoint.
pub(crate) fn whole_log(alloc: Global, is_behind: bool, bytes: &[u8]) -> Result<Log, ReadError>
    ensures { Gives (λ log. log) result (closed (log_at is_behind) bytes.now) }
{
    if is_behind {
        return whole_log_behind(alloc, bytes);
    }
    Ok(Log::of(whole_entries(alloc, bytes)?))
}
