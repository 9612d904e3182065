//! The fault that is told of a file in JSON.

ghost use Rattle.std.specs.Prelude.{◌≡◌};
ghost use Rattle.plc_tool.specs.Calls.{fault_of};

use il_text::Fault;
use plc_json::JsonFault;

/// The fault of a text that gives no commands.
pub fn fault_of(fault: JsonFault) -> Fault
    ensures { result ≡ fault_of fault }
{
    match fault {
        JsonFault::Shape => Fault::Commands,
        JsonFault::Memory => Fault::Memory,
    }
}
