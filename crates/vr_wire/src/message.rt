//! Messages, both ways: a tag, the sender, the receiver, and what is said.

ghost use Rattle.std.specs.Prelude.{◌≡◌, ◌+◌, ◌<◌, ◌++◌, ◌==◌, OnOk};
ghost use Rattle.vr_wire.specs.Frames.{party_code, message_bytes, IsLawful, FitsBody};
ghost use Rattle.vr_wire.specs.MessageReading.{client_end, party_of_code, party_at, parts_at, message_at};
ghost use Rattle.vr_wire.specs.Reading.{Gives, closed};

use crate::body::{body_tag, put_fields, whole_body};
use crate::fault::ReadError;
use crate::numbers::{put_u8, u8_at};
use crate::request::client_of;
use crate::value::lawful;
use std::alloc::{AllocError, Global};
use vr_model::{MOST_REPLICAS, Message, Party};

fn party_code(party: Party) -> u8
    requires { party_code party < 256 }
    ensures { result ≡ party_code party }
{
    match party {
        Party::Replica(number) => number,
        Party::Client(client) => 128 + client.number,
    }
}

pub(crate) fn put_message(out: &mut Vec<u8>, message: &Message) -> Result<(), AllocError>
    requires { IsLawful message.now }
    ensures text { OnOk result (out.new.items ≡ out.old.items ++ message_bytes message.now) }
    ensures fits { OnOk result (FitsBody message.now.body) }
{
    put_u8(out, body_tag(&message.body))?;
    put_u8(out, party_code(message.from))?;
    put_u8(out, party_code(message.to))?;
    put_fields(out, &message.body)
}

fn client_end(may_be_client: bool, number: u8) -> Option<Party>
    ensures { result ≡ client_end may_be_client number }
{
    if !may_be_client {
        return None;
    }
    let client = client_of(number)?;
    Some(Party::Client(client))
}

fn party_of_code(may_be_client: bool, code: u8) -> Option<Party>
    ensures { result ≡ party_of_code may_be_client code }
{
    if usize::from(code) < MOST_REPLICAS {
        return Some(Party::Replica(code));
    }
    if code < 128 {
        return None;
    }
    client_end(may_be_client, code - 128)
}

fn party_at(may_be_client: bool, bytes: &[u8]) -> Result<(Party, &[u8]), ReadError>
    ensures { Gives (λ x. (x.0, x.1.now)) result (party_at may_be_client bytes.now) }
{
    let (code, rest) = u8_at(bytes)?;
    let party = lawful(party_of_code(may_be_client, code))?;
    Ok((party, rest))
}

/// A sender and a receiver, and behind them the fields, which are all of the bytes.
fn whole_parts(alloc: Global, tag: u8, bytes: &[u8]) -> Result<Message, ReadError>
    ensures { Gives (λ m. m) result (closed (parts_at tag) bytes.now) }
{
    let (from, rest) = party_at(tag == 1, bytes)?;
    let (to, rest) = party_at(tag == 5, rest)?;
    let body = whole_body(alloc, tag, rest)?;
    Ok(Message { from, to, body })
}

/// The message whose body is all of the bytes.
#[tactic(auto, unfolding(crate::specs::MessageReading::message_at))]
pub(crate) fn whole_message(alloc: Global, bytes: &[u8]) -> Result<Message, ReadError>
    ensures { Gives (λ m. m) result (message_at bytes.now) }
{
    let (tag, rest) = u8_at(bytes)?;
    whole_parts(alloc, tag, rest)
}
