//! What a request asks for, and whether its cells are there.
ghost use Rattle.std.specs.Prelude.{◌≡◌, ◌+◌, ◌<◌, length, IfOk};
ghost use Rattle.modbus_wire.specs.Functions.{HasLength};
ghost use Rattle.modbus_replies.specs.Requests.{area_length, writes_within, request_of as asked, IsSound};

use il_model::{BITS, WORDS};
use modbus_wire::{Exception, Function, number_at};

/// A request that passed each check; values stay in the PDU.
#[derive(Clone, Copy)]
pub(crate) struct Asked {
    pub(crate) function: Function,
    pub(crate) address: usize,
    pub(crate) quantity: usize,
}

/// How many cells the area of a function has.
fn area(function: Function) -> usize
    ensures { result ≡ area_length function }
{
    match function {
        Function::ReadBits(_) | Function::WriteBit | Function::WriteBits => BITS,
        Function::ReadWords(_)
        | Function::WriteWord
        | Function::WriteWords
        | Function::MaskWord
        | Function::WriteReadWords => WORDS,
    }
}

/// Whether the words that 23 writes are there.
fn writes_within(function: Function, pdu: &[u8]) -> bool
    requires { HasLength function pdu.now }
    ensures { result ≡ writes_within function pdu.now }
{
    match function {
        Function::WriteReadWords => {
            usize::from(number_at(pdu, 5)) + usize::from(number_at(pdu, 7)) <= WORDS
        }
        _ => true,
    }
}

/// What a request asks for, or the exception that answers it.
pub(crate) fn request_of(pdu: &[u8]) -> Result<Asked, Exception>
    requires { 0 < length pdu.now }
    ensures is { result ≡ asked pdu.now }
    ensures sound { IfOk result (λ r. IsSound pdu.now r) }
{
    let Some(function) = Function::of_code(pdu[0]) else {
        return Err(Exception::IllegalFunction);
    };
    if !function.is_lawful(pdu) {
        return Err(Exception::IllegalDataValue);
    }
    let address = usize::from(number_at(pdu, 1));
    let quantity = function.quantity(pdu);
    if address + quantity > area(function) || !writes_within(function, pdu) {
        return Err(Exception::IllegalDataAddress);
    }
    Ok(Asked {
        function,
        address,
        quantity,
    })
}
