//! A replica that goes on from what a file keeps.

ghost use Rattle.std.specs.Prelude.{◌≡◌, IfOk};
ghost use Rattle.vr_durable.specs.Lives.{ResumesFrom};
ghost use Rattle.vr_pausing.specs.Bases.{IsNew};

use crate::fault::ResumeFault;
use std::alloc::Global;
use vr_bases::Base;
use vr_core::Core;
use vr_journal::Kept;
use vr_replica::Replica;

/// A core that took up nothing yet goes on as the replica of which a file keeps this: from its base, and by taking up
/// again what it took up since.
pub fn resume(core: Core, alloc: Global, kept: &Kept) -> Result<Replica, ResumeFault>
    requires new { IsNew core }
    ensures { IfOk result (λ replica. ResumesFrom core kept.now replica) }
{
    let Base { marks, log } = vr_bases::read(alloc, kept.base.as_slice())?;
    let Some(events) = vr_kept::read_inputs(alloc, kept.inputs.as_slice())? else {
        return Err(ResumeFault::Input);
    };
    match vr_resumed::resume(core, alloc, &marks, log, events)? {
        Some(replica) => Ok(replica),
        None => Err(ResumeFault::Log),
    }
}
