//! Requests and the entries of a log, both ways.

ghost use Rattle.std.specs.Prelude.{◌≡◌, ◌<◌, ◌^◌, ◌++◌, OnOk, length};
ghost use Rattle.std.specs.List.{AllByRecursion};
ghost use Rattle.vr_wire.specs.Logs.{request_bytes, entries_bytes, FitsRequest};
ghost use Rattle.vr_wire.specs.MessageReading.{client_of, request_at, entries_at};
ghost use Rattle.vr_wire.specs.Reading.{Gives, items_at, end_of, closed};

use crate::command::{command_at, command_end, put_command};
use crate::fault::ReadError;
use crate::numbers::{put_u8, put_u32, put_u64, u8_at, u32_at, u64_at};
use crate::value::lawful;
use std::alloc::{AllocError, Global};
use vr_model::{ClientNumber, Request};

pub(crate) fn put_request(out: &mut Vec<u8>, request: &Request) -> Result<(), AllocError>
    ensures text { OnOk result (out.new.items ≡ out.old.items ++ request_bytes request.now) }
    ensures fits { OnOk result (FitsRequest request.now) }
{
    put_u8(out, request.client.number)?;
    put_u64(out, request.number)?;
    put_command(out, &request.command)
}

pub(crate) fn put_entries(out: &mut Vec<u8>, entries: &[Request]) -> Result<(), AllocError>
    requires { length entries.now < 2 ^ 32 }
    ensures text { OnOk result (out.new.items ≡ out.old.items ++ entries_bytes entries.now) }
    ensures fits { OnOk result (AllByRecursion FitsRequest entries.now) }
{
    put_u32(out, entries.len() as u32)?;
    for request in entries {
        put_request(out, request)?;
    }
    Ok(())
}

/// A client, by its number.
pub(crate) fn client_of(number: u8) -> Option<ClientNumber>
    ensures { result ≡ client_of number }
{
    ClientNumber::new(number)
}

pub(crate) fn request_at(alloc: Global, bytes: &[u8]) -> Result<(Request, &[u8]), ReadError>
    ensures { Gives (λ x. (x.0, x.1.now)) result (request_at bytes.now) }
{
    let (code, rest) = u8_at(bytes)?;
    let client = lawful(client_of(code))?;
    let (number, rest) = u64_at(rest)?;
    let (command, rest) = command_at(alloc, rest)?;
    let request = Request {
        client,
        number,
        command,
    };
    Ok((request, rest))
}

/// Where a request ends that is lawful. Nothing is made of it.
pub(crate) fn request_end(bytes: &[u8]) -> Result<&[u8], ReadError>
    ensures { Gives (λ rest. rest.now) result (end_of request_at bytes.now) }
{
    let (code, rest) = u8_at(bytes)?;
    let _client = lawful(client_of(code))?;
    let (_number, rest) = u64_at(rest)?;
    command_end(rest)
}

/// Where so many lawful requests end.
fn requests_end(count: u32, bytes: &[u8]) -> Result<&[u8], ReadError>
    ensures { Gives (λ rest. rest.now) result (end_of (items_at request_at count) bytes.now) }
{
    let mut rest = bytes;
    for _ in 0..count {
        let behind = request_end(rest)?;
        rest = behind;
    }
    Ok(rest)
}

/// So many requests, in a vector that is asked for once, for all of them; each change asks for its bytes.
fn requests_at(alloc: Global, count: u32, bytes: &[u8]) -> Result<(Vec<Request>, &[u8]), ReadError>
    ensures { Gives (λ x. (x.0.items, x.1.now)) result (items_at request_at count bytes.now) }
{
    let mut requests = Vec::with_capacity(alloc, count as usize)?;
    let mut rest = bytes;
    for _ in 0..count {
        let (request, behind) = request_at(alloc, rest)?;
        requests.push(request)?;
        rest = behind;
    }
    Ok((requests, rest))
}

/// Entries that are all of the bytes. They are judged whole before memory is asked for.
pub(crate) fn whole_entries(alloc: Global, bytes: &[u8]) -> Result<Vec<Request>, ReadError>
    ensures { Gives (λ entries. entries.items) result (closed entries_at bytes.now) }
{
    let (count, rest) = u32_at(bytes)?;
    let behind = requests_end(count, rest)?;
    if !behind.is_empty() {
        return Err(ReadError::Malformed);
    }
    let (requests, _end) = requests_at(alloc, count, rest)?;
    Ok(requests)
}
