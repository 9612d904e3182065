//! Commands that are sent to a console.

ghost use Rattle.std.specs.Prelude.{◌≡◌, ◌≤◌, ◌↔◌, true, codes, map, IfErr, IfOk};
ghost use Rattle.std.specs.Io.KnownBytes.{Consumes};
ghost use Rattle.plc_host.specs.declared.failed.Failed.TheVariants.{Device};
ghost use Rattle.plc_console.specs.Sending.{Asked, AskedOne, EndsLine, IsUnread, IsWhyBroken, IsWorst, TellsKey};
ghost use Rattle.plc_console.specs.Sending.{item_bytes, reply_to};

use crate::line::{LINE_END, PIECE};
use io_model::{CountedRead, CountedWrite, write_all};
use plc_host::{Failed, Host};
use std::sync::Wait;

/// What an answer says of its command.
#[derive(Clone, Copy, Debug, PartialEq, Eq)]
pub enum Reply {
    /// It was done, or tells what was asked for.
    Done,
    /// It was refused.
    Refused,
    /// It's no command of a console.
    NoCommand,
}

/// What an answer's line says.
fn reply_to(answer: &[u8]) -> Reply
    ensures { result ≡ reply_to answer.now }
{
    if answer.starts_with(b"plc: ") {
        Reply::NoCommand
    } else if answer.starts_with(b"refused ") {
        Reply::Refused
    } else {
        Reply::Done
    }
}

/// What is to be said of all these together: that one is no command, or else that one was refused.
pub fn worst(replies: &[Reply]) -> Reply
    ensures { IsWorst replies.now result }
{
    if replies.contains(&Reply::NoCommand) {
        Reply::NoCommand
    } else if replies.contains(&Reply::Refused) {
        Reply::Refused
    } else {
        Reply::Done
    }
}

/// Sends each of these as a line, and prints its answer before the next one is sent: what each answer says. Where a
/// device fails, that is the reader, the writer or `out`, or the reader came to its end before each line was answered;
/// then a prefix of it was done.
#[tactic(auto, using(crate::proofs::Passing::asked_none, crate::proofs::Passing::asked_all, crate::proofs::Passing::broken_later))]
pub fn send_commands<H: Wait + Copy, R: CountedRead, W: CountedWrite, O: CountedWrite>(
    host: &Host<H>,
    commands: &[Vec<u8>],
    reader: &mut R,
    writer: &mut W,
    out: &mut O,
) -> Result<Vec<Reply>, Failed>
    ensures asked { IfOk result (λ v. Asked (map item_bytes commands.now) v.items (R.left reader.old)
        (R.left reader.new) (W.held writer.old) (W.held writer.new) (O.held out.old) (O.held out.new)) }
    ensures broken { IfErr result (λ e. e ≡ Device → IsWhyBroken (R.left reader.new)
        (R.faults reader.old) (R.faults reader.new) (W.faults writer.old) (W.faults writer.new)
        (O.faults out.old) (O.faults out.new)) }
{
    let mut replies = Vec::new(host.alloc);
    for command in commands {
        let reply = send_command(host, command.as_slice(), reader, writer, out)?;
        replies.push(reply)?;
    }
    Ok(replies)
}

/// Sends a console the key that it asks for first, as a line: whether it takes it. Where a device fails, that is the
/// reader or the writer, or the reader came to its end before the answer did.
pub fn send_key<H: Wait + Copy, R: CountedRead, W: CountedWrite>(
    host: &Host<H>,
    key: &[u8],
    reader: &mut R,
    writer: &mut W,
) -> Result<bool, Failed>
    ensures { IfOk result (λ is_taken. TellsKey key.now is_taken (R.left reader.old) (R.left reader.new)
        (W.held writer.old) (W.held writer.new)) }
{
    write_all(writer, key)?;
    write_all(writer, &[LINE_END])?;
    let answer = read_answer(host, reader)?;
    Ok(is_done(answer.as_slice()))
}

/// Whether an answer says that something was done.
fn is_done(answer: &[u8]) -> bool
    ensures { (result ≡ true) ↔ (answer.now ≡ codes "done\n") }
{
    answer == b"done\n".as_slice()
}

/// Sends one command as a line, and prints its answer.
#[tactic(auto, using(crate::proofs::Passing::broken_later, crate::proofs::Sessions::failed_later))]
fn send_command<H: Wait + Copy, R: CountedRead, W: CountedWrite, O: CountedWrite>(
    host: &Host<H>,
    command: &[u8],
    reader: &mut R,
    writer: &mut W,
    out: &mut O,
) -> Result<Reply, Failed>
    ensures asked { IfOk result (λ reply. AskedOne command.now reply (R.left reader.old) (R.left reader.new)
        (W.held writer.old) (W.held writer.new) (O.held out.old) (O.held out.new)) }
    ensures broken { IfErr result (λ e. e ≡ Device → IsWhyBroken (R.left reader.new)
        (R.faults reader.old) (R.faults reader.new) (W.faults writer.old) (W.faults writer.new)
        (O.faults out.old) (O.faults out.new)) }
    ensures counts { (R.faults reader.old ≤ R.faults reader.new) × ((W.faults writer.old ≤ W.faults writer.new)
        × (O.faults out.old ≤ O.faults out.new)) }
{
    write_all(writer, command)?;
    write_all(writer, &[LINE_END])?;
    let answer = read_answer(host, reader)?;
    write_all(out, answer.as_slice())?;
    Ok(reply_to(answer.as_slice()))
}

/// Reads an answer: up to where what was read at once ends a line.
#[tactic(auto, using(crate::proofs::Passing::unread_later))]
pub(crate) fn read_answer<H: Wait + Copy, R: CountedRead>(
    host: &Host<H>,
    reader: &mut R,
) -> Result<Vec<u8>, Failed>
    ensures read { IfOk result (λ v. Consumes (R.left reader.old) (R.left reader.new) v.items × EndsLine v.items) }
    ensures broken { IfErr result (λ e. e ≡ Device →
        IsUnread (R.left reader.new) (R.faults reader.old) (R.faults reader.new)) }
    ensures counts { R.faults reader.old ≤ R.faults reader.new }
{
    let mut answer = Vec::new(host.alloc);
    let mut piece = [0; PIECE];
    for _ in host.rt.forever() {
        let count = reader.read(&mut piece)?;
        if count == 0 {
            return Err(Failed::Device);
        }
        answer.extend_from_slice(&piece[..count])?;
        if ends_line(answer.as_slice()) {
            return Ok(answer);
        }
    }
    unreachable!()
}

/// Whether these bytes end a line.
#[tactic(auto, using(crate::proofs::Passing::ends))]
fn ends_line(bytes: &[u8]) -> bool
    ensures { result ≡ true → EndsLine bytes.now }
{
    match bytes.last() {
        Some(last) => *last == LINE_END,
        None => false,
    }
}
