//! Events that are taken up, or once more.

ghost use Rattle.std.specs.Prelude.{◌≡◌, IfOk, OnErr, OnOk};
ghost use Rattle.vr_resumed.specs.Resuming.{StaysAtErr, Steps, TakesUpAgain};

use crate::store::SavedByCaller;
use std::alloc::Global;
use vr_model::{Event, Sends};
use vr_replica::{Replica, StepFault};

/// One step of a replica whose caller sees to it that its views are saved, before anything that this sends is handed
/// out. `Memory` and `Down` are answered as by `Replica::step`, `Store` never.
pub fn step(replica: &mut Replica, alloc: Global, event: Event) -> Result<Sends, StepFault>
    ensures ok { IfOk result (λ sends. Steps replica.old event replica.new sends.items) }
    ensures err { OnErr result (StaysAtErr replica.old event replica.new) }
{
    let mut store = SavedByCaller { view: 0 };
    replica.step(alloc, event, &mut store)
}

/// Takes these events up again, in order, and lets go of what is sent. Where it fails the replica may have taken up
/// some of them.
pub fn take_up_again(
    replica: &mut Replica,
    alloc: Global,
    events: Vec<Event>,
) -> Result<(), StepFault>
    ensures { OnOk result (TakesUpAgain replica.old events.items replica.new) }
{
    for event in events {
        let sends = step(replica, alloc, event)?;
        drop(sends);
    }
    Ok(())
}
