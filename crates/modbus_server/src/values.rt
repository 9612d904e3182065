//! The table by the values of a request.
ghost use Rattle.modbus_server.specs.Values.{AreServed};

use modbus_wire::requests_are_read_back;

/// That `reply` does with the bytes of a request what its values say: the cells that it names are read or written, and
/// the reply is the one that shows them.
pub fn values_are_served()
    ensures { AreServed }
{
    requests_are_read_back();
}
