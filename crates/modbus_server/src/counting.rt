//! Requests that are answered, as they are counted.

ghost use Rattle.std.specs.Prelude.{◌≡◌};
ghost use Rattle.modbus_wire.specs.Frames.{IsFramed};
ghost use Rattle.modbus_server.specs.Sessions.{exception_in, with_reply};

use modbus_wire::Adu;
use plc_host::Requests;

/// The code of a function, with this bit, tells of an exception (V1.1b3, section 7).
const EXCEPTION: u8 = 0x80;

/// The code of the exception that a reply is, if it's one.
fn exception_in(pdu: &[u8]) -> Option<u8>
    ensures { result ≡ exception_in pdu.now }
{
    if pdu.len() >= 2 && pdu[0] >= EXCEPTION {
        Some(pdu[1])
    } else {
        None
    }
}

/// Counts a request that is answered so.
pub(crate) fn count_reply(counts: &mut Requests, request: &Adu, reply: &Adu)
    requires { IsFramed request.now }
    ensures { counts.new ≡ with_reply counts.old request.now reply.now }
{
    let function = request.pdu.as_slice()[0];
    counts.count(function, exception_in(reply.pdu.as_slice()));
}
