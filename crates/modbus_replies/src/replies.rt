//! Replies to requests, over any staging.
ghost use Rattle.std.specs.Prelude.{◌≡◌, ◌+◌, ◌<◌, ◌≤◌, length, slice_range};
ghost use Rattle.modbus_wire.specs.declared.function.Function.TheVariants.{MaskWord, WriteReadWords};
ghost use Rattle.modbus_wire.specs.Functions.{HasLength};
ghost use Rattle.modbus_wire.specs.Packing.{bytes_of_bits, bytes_of_words};
ghost use Rattle.modbus_wire.specs.Replies.{data_reply};
ghost use Rattle.modbus_replies.specs.Requests.{request_of as judged, IsSound};
ghost use Rattle.modbus_replies.specs.Replies.{mask_outcome, write_read_outcome, LooksAt};
ghost use Rattle.modbus_replies.specs.Replies.{outcome_by, modbus_reply, shows_outputs, timely_reply, Replies};

use crate::request::{Asked, request_of};
use il_model::{BITS, Cells, WORDS};
use io_image::{Staging, View};
use modbus_wire::{
    Exception, Function, Pdu, Table, bits_of, bits_reply, exception_reply, number_at, pdu_of,
    words_of, words_reply,
};

pub(crate) fn shown_bits(pdu: &[u8], bits: &[bool], at: usize, count: usize) -> Pdu
    requires { (0 < length pdu.now) × (at + count ≤ length bits.now) × (length bits.now ≡ BITS) }
    ensures { result.items ≡ data_reply pdu.now (bytes_of_bits (slice_range bits.now at (at + count))) }
{
    bits_reply(pdu, &bits[at..at + count])
}

pub(crate) fn shown_words(pdu: &[u8], words: &[i16], at: usize, count: usize) -> Pdu
    requires { (0 < length pdu.now) × (at + count ≤ length words.now) × (length words.now ≡ WORDS) }
    ensures { result.items ≡ data_reply pdu.now (bytes_of_words (slice_range words.now at (at + count))) }
{
    words_reply(pdu, &words[at..at + count])
}

/// The cells of a table: of those that a client may write, the staged inputs with each write so far; of the others, the
/// released outputs.
fn cells_of<S: Staging>(table: Table, staging: &mut S, released: &View) -> Cells
    ensures { LooksAt table (S.told staging.old) (S.told staging.new) released.now.image.cells result }
{
    match table {
        Table::ReadWrite => staging.read().cells,
        Table::ReadOnly => released.image.cells,
    }
}

/// Lays two masks on the word at `at`.
fn mask_word<S: Staging>(pdu: &[u8], at: usize, staging: &mut S) -> Pdu
    requires { HasLength MaskWord pdu.now × (at < WORDS) }
    ensures { Replies (S.told staging.old) (S.told staging.new)
        (λ staged refused. mask_outcome refused pdu.now at) result.items }
{
    match staging.mask_word(at, number_at(pdu, 3), number_at(pdu, 5)) {
        Ok(_) => pdu_of(pdu),
        Err(_) => exception_reply(pdu, Exception::ServerDeviceFailure),
    }
}

/// Writes words, and shows `count` of them from `at` on as they are then.
fn write_read<S: Staging>(pdu: &[u8], at: usize, count: usize, staging: &mut S) -> Pdu
    requires { (length pdu.now ≤ 253) × HasLength WriteReadWords pdu.now × (at + count ≤ WORDS) }
    ensures { Replies (S.told staging.old) (S.told staging.new)
        (λ staged refused. write_read_outcome refused pdu.now staged at count) result.items }
{
    let words = words_of(&pdu[10..], usize::from(number_at(pdu, 7)));
    match staging.write_read(usize::from(number_at(pdu, 5)), words.as_slice()) {
        Ok(written) => shown_words(pdu, &written.inputs.cells.words, at, count),
        Err(_) => exception_reply(pdu, Exception::ServerDeviceFailure),
    }
}

/// Acts on a request that passed each check.
fn perform<S: Staging>(pdu: &[u8], request: Asked, staging: &mut S, released: &View) -> Pdu
    requires { (0 < length pdu.now) × (length pdu.now ≤ 253) × IsSound pdu.now request }
    ensures { Replies (S.told staging.old) (S.told staging.new)
        (λ staged refused.
        outcome_by pdu.now staged released.now.image.cells refused request.function request.address request.quantity) result.items }
{
    let at = request.address;
    let count = request.quantity;
    match request.function {
        Function::ReadBits(table) => {
            shown_bits(pdu, &cells_of(table, staging, released).bits, at, count)
        }
        Function::ReadWords(table) => {
            shown_words(pdu, &cells_of(table, staging, released).words, at, count)
        }
        Function::WriteBit => match staging.write_bits(at, &[number_at(pdu, 3) == 0xff00]) {
            Ok(_) => pdu_of(pdu),
            Err(_) => exception_reply(pdu, Exception::ServerDeviceFailure),
        },
        Function::WriteWord => match staging.write_words(at, &[number_at(pdu, 3).cast_signed()]) {
            Ok(_) => pdu_of(pdu),
            Err(_) => exception_reply(pdu, Exception::ServerDeviceFailure),
        },
        Function::WriteBits => {
            match staging.write_bits(at, bits_of(&pdu[6..], count).as_slice()) {
                Ok(_) => pdu_of(&pdu[..5]),
                Err(_) => exception_reply(pdu, Exception::ServerDeviceFailure),
            }
        }
        Function::WriteWords => {
            match staging.write_words(at, words_of(&pdu[6..], count).as_slice()) {
                Ok(_) => pdu_of(&pdu[..5]),
                Err(_) => exception_reply(pdu, Exception::ServerDeviceFailure),
            }
        }
        Function::MaskWord => mask_word(pdu, at, staging),
        Function::WriteReadWords => write_read(pdu, at, count, staging),
    }
}

/// The reply to a request of 1 to 253 bytes (V1.1b3, sections 6 and 7): 01 and 03 read the staged inputs, 02 and 04
/// the released outputs; 05, 06, 15 and 16 write staged inputs, 22 lays two masks on one word of them, and 23 writes
/// words and then reads. The exceptions, in this order: 01 for another function, 03 for a wrong length, quantity, byte
/// count or value of a bit, 02 for cells past the area, 04 where the staging has no room or no memory for the write.
pub fn reply<S: Staging>(pdu: &[u8], staging: &mut S, released: &View) -> Pdu
    requires { (0 < length pdu.now) × (length pdu.now ≤ 253) }
    ensures { Replies (S.told staging.old) (S.told staging.new)
        (λ staged refused. modbus_reply pdu.now staged released.now.image.cells refused) result.items }
{
    match request_of(pdu) {
        Ok(request) => perform(pdu, request, staging, released),
        Err(fault) => exception_reply(pdu, fault),
    }
}

/// Whether a request passes each check, and reads outputs.
pub(crate) fn shows_outputs(pdu: &[u8]) -> bool
    requires { 0 < length pdu.now }
    ensures { result ≡ shows_outputs (judged pdu.now) }
{
    match request_of(pdu) {
        Ok(request) => matches!(
            request.function,
            Function::ReadBits(Table::ReadOnly) | Function::ReadWords(Table::ReadOnly)
        ),
        Err(_) => false,
    }
}

/// The same where outputs may be stale: then exception 04 stands in their place.
pub fn timely_reply<S: Staging>(
    pdu: &[u8],
    staging: &mut S,
    released: &View,
    are_stale: bool,
) -> Pdu
    requires { (0 < length pdu.now) × (length pdu.now ≤ 253) }
    ensures { Replies (S.told staging.old) (S.told staging.new)
        (λ staged refused. timely_reply are_stale pdu.now staged released.now.image.cells refused) result.items }
{
    if are_stale && shows_outputs(pdu) {
        return exception_reply(pdu, Exception::ServerDeviceFailure);
    }
    reply(pdu, staging, released)
}
