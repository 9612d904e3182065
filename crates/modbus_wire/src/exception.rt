//! Exceptions (V1.1b3, section 7).
ghost use Rattle.std.specs.Prelude.{◌≡◌, ◌<◌, length};
ghost use Rattle.modbus_wire.specs.Replies.{number_of, exception_of};

use crate::adu::{Pdu, pdu_of};

/// Why a request isn't done.
#[derive(Clone, Copy, Debug, PartialEq, Eq)]
pub enum Exception {
    /// 01: the server doesn't know the function.
    IllegalFunction,
    /// 02: a cell isn't there.
    IllegalDataAddress,
    /// 03: a wrong length, quantity, byte count or value of a bit.
    IllegalDataValue,
    /// 04: the server failed.
    ServerDeviceFailure,
}

impl Exception {
    /// Its code.
    pub fn number(self) -> u8
        ensures { result ≡ number_of self }
    {
        match self {
            Exception::IllegalFunction => 1,
            Exception::IllegalDataAddress => 2,
            Exception::IllegalDataValue => 3,
            Exception::ServerDeviceFailure => 4,
        }
    }
}

/// The exception reply to a PDU: its function code with bit 7 set, then the exception's code.
pub fn exception_reply(pdu: &[u8], exception: Exception) -> Pdu
    requires { 0 < length pdu.now }
    ensures { result.items ≡ exception_of pdu.now exception }
{
    pdu_of(&[pdu[0] | 0x80, exception.number()])
}
