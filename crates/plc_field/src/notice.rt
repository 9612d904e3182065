//! What an operator is told.

use field_cycle::{Change, Cycle, Who};
use std::alloc::{AllocError, Global};

/// The line that a field has ended as it was asked to.
pub(crate) const STOPPED_LINE: &str = "stopped\n";

/// The line of a change.
pub(crate) fn notice_line(
    alloc: Global,
    cycle: &Cycle,
    who: Who,
    change: Change,
) -> Result<String, AllocError> {
    let name = match who {
        Who::Controller => "controller",
        Who::Device(number) => match cycle.stations.get(number) {
            Some(station) => station.device.name.as_str(),
            None => "",
        },
    };
    match change {
        Change::Found => format!(in alloc; "{name} found\n"),
        Change::Back => format!(in alloc; "{name} back\n"),
        Change::Lost(fault) => format!(in alloc; "{name} lost: {fault}\n"),
    }
}
