//! From a base on.

ghost use Rattle.std.specs.Prelude.{◌≡◌, IfOk, MatchOption};
ghost use Rattle.vr_pausing.specs.Bases.{IsNew, ResumesNone};
ghost use Rattle.vr_resumed.specs.Resuming.{GoesOn, IsNormally};

use crate::again::take_up_again;
use std::alloc::Global;
use vr_core::Core;
use vr_model::{Event, Log};
use vr_pausing::Marks;
use vr_replica::{Replica, StepFault};

/// A core that is normal, as a replica.
fn normally(core: Core) -> Replica
    ensures { IsNormally core result }
{
    Replica { core }
}

/// A core that took up nothing yet goes on as the replica of which these marks and this log are kept, and takes up
/// again what that took up since; none where the log's checkpoint can't be restored. It fails only where memory runs
/// out, or where an event is none that a replica takes up while it goes on.
pub fn resume(
    core: Core,
    alloc: Global,
    marks: &Marks,
    log: Log,
    events: Vec<Event>,
) -> Result<Option<Replica>, StepFault>
    requires new { IsNew core }
    ensures { IfOk result (λ resumed. MatchOption resumed (ResumesNone core marks.now log)
        (λ resumed. GoesOn core marks.now log events.items resumed)) }
{
    let Some(core) = vr_pausing::resume(core, alloc, marks, log)? else {
        return Ok(None);
    };
    let mut replica = normally(core);
    take_up_again(&mut replica, alloc, events)?;
    Ok(Some(replica))
}
