//! Replies by what a client may do.
ghost use Rattle.std.specs.Prelude.{◌≡◌, ◌<◌, ◌≤◌, false, true, length};
ghost use Rattle.modbus_replies.specs.Requests.{IsSound};
ghost use Rattle.modbus_replies.specs.Replies.{is_write as writes_in, function_at, outcome_by, permitted_reply, read_reply};
ghost use Rattle.modbus_replies.specs.Replies.{table_cells, writes, Replies};

use crate::replies::{shown_bits, shown_words, shows_outputs, timely_reply};
use crate::request::{Asked, request_of};
use il_model::{Cells, InImage};
use io_image::{Staging, View};
use modbus_wire::{Exception, Function, Pdu, Table, exception_reply};

/// What a client may do.
#[derive(Clone, Copy, Debug, PartialEq, Eq)]
pub enum Access {
    ReadsAndWrites,
    ReadsAlone,
}

/// Whether a function writes.
fn writes(function: Function) -> bool
    ensures { result ≡ writes function }
{
    match function {
        Function::ReadBits(_) | Function::ReadWords(_) => false,
        Function::WriteBit
        | Function::WriteWord
        | Function::WriteBits
        | Function::WriteWords
        | Function::MaskWord
        | Function::WriteReadWords => true,
    }
}

/// Whether a request is for a function that writes.
fn is_write(pdu: &[u8]) -> bool
    requires { 0 < length pdu.now }
    ensures { result ≡ writes_in (function_at pdu.now) }
{
    match Function::of_code(pdu[0]) {
        Some(function) => writes(function),
        None => false,
    }
}

/// The cells of a table, which a client may write, or not.
fn table_cells(table: Table, staged: &InImage, released: &View) -> Cells
    ensures { result ≡ table_cells table staged.now.cells released.now.image.cells }
{
    match table {
        Table::ReadWrite => staged.cells,
        Table::ReadOnly => released.image.cells,
    }
}

/// Answers a request that passed each check, and doesn't write.
fn look(pdu: &[u8], request: Asked, staged: &InImage, released: &View) -> Pdu
    requires { (0 < length pdu.now) × IsSound pdu.now request × (writes request.function ≡ false) }
    ensures { result.items ≡ (outcome_by pdu.now staged.now.cells released.now.image.cells true
        request.function request.address request.quantity).reply }
{
    let at = request.address;
    let count = request.quantity;
    match request.function {
        Function::ReadBits(table) => {
            shown_bits(pdu, &table_cells(table, staged, released).bits, at, count)
        }
        Function::ReadWords(table) => {
            shown_words(pdu, &table_cells(table, staged, released).words, at, count)
        }
        _ => unreachable!(),
    }
}

/// The reply to a request of 1 to 253 bytes of who may only read, where these are the staged inputs: exception 01 to
/// 05, 06, 15, 16, 22 and 23, whatever else stands in it, since to him these are no allowable actions of the server
/// (V1.1b3, section 7); to the others what everybody gets. It's handed no staging, so it writes nothing.
pub fn read_reply(pdu: &[u8], staged: &InImage, released: &View, are_stale: bool) -> Pdu
    requires { (0 < length pdu.now) × (length pdu.now ≤ 253) }
    ensures { result.items ≡ read_reply are_stale pdu.now staged.now.cells released.now.image.cells }
{
    if is_write(pdu) {
        return exception_reply(pdu, Exception::IllegalFunction);
    }
    if are_stale && shows_outputs(pdu) {
        return exception_reply(pdu, Exception::ServerDeviceFailure);
    }
    match request_of(pdu) {
        Ok(request) => look(pdu, request, staged, released),
        Err(fault) => exception_reply(pdu, fault),
    }
}

/// The reply by what a client may do: `timely_reply`, or `read_reply` of the inputs that are staged.
pub fn permitted_reply<S: Staging>(
    access: Access,
    pdu: &[u8],
    staging: &mut S,
    released: &View,
    are_stale: bool,
) -> Pdu
    requires { (0 < length pdu.now) × (length pdu.now ≤ 253) }
    ensures { Replies (S.told staging.old) (S.told staging.new)
        (λ staged refused. permitted_reply access are_stale pdu.now staged released.now.image.cells refused) result.items }
{
    match access {
        Access::ReadsAndWrites => timely_reply(pdu, staging, released, are_stale),
        Access::ReadsAlone => read_reply(pdu, &staging.read(), released, are_stale),
    }
}
