//! A replica that goes on.

ghost use Rattle.std.specs.Prelude.{◌≡◌, IfOk, MatchOption};
ghost use Rattle.vr_pausing.specs.Bases.{IsNew, Resumes, ResumesNone, marked};

use crate::marking::Marks;
use std::alloc::{AllocError, Global};
use vr_core::Core;
use vr_model::{Log, Status};

/// The core with these marks, normal.
fn marked(core: Core, marks: &Marks) -> Core
    ensures { result ≡ marked core marks.now }
{
    let acknowledged = marks.acknowledged;
    let start_view_changes = marks.start_view_changes;
    let mut core = core;
    core.status = Status::Normal;
    core.view = marks.view;
    core.last_normal_view = marks.last_normal_view;
    core.stored_view = marks.stored_view;
    core.acknowledged = acknowledged;
    core.start_view_changes = start_view_changes;
    core.sent_do_view_change = marks.sent_do_view_change;
    core.nonce = marks.nonce;
    core
}

/// A core that took up nothing yet goes on as the replica of which these marks and this log are kept; none where the
/// log's checkpoint can't be restored. It fails only where memory runs out.
pub fn resume(
    core: Core,
    alloc: Global,
    marks: &Marks,
    log: Log,
) -> Result<Option<Core>, AllocError>
    requires new { IsNew core }
    ensures { IfOk result (λ resumed. MatchOption resumed (ResumesNone core marks.now log)
        (λ resumed. Resumes core marks.now log resumed)) }
{
    let Some(ready) = core.ready_for(alloc, &log, marks.commit_number)? else {
        return Ok(None);
    };
    let mut core = core;
    core.replace_log(log, ready.begun);
    core.execute_to(alloc, marks.commit_number, ready.changes);
    Ok(Some(marked(core, marks)))
}
