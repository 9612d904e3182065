//! Logs that are handed in with a commit number.

ghost use Rattle.std.specs.Prelude.{◌≡◌, ◌≤◌, true, false, List, Some, IfOk, IfSome, MatchOption};
ghost use Rattle.il_model.specs.declared.command.Command.{Command};
ghost use Rattle.vr_model.specs.Logs as logs;
ghost use Rattle.vr_model.specs.Checkpoints.{base_of, SavedCheckpoint};
ghost use Rattle.vr_core.specs.declared.state.Core as cores;
ghost use Rattle.vr_core.specs.StandsFor.{StandsForLog};
ghost use Rattle.vr_core.specs.Checkpoints.{IsOfNone, IsSpoilt, IsUnfit};
ghost use Rattle.vr_core.specs.Changes.{IsReadied};

use crate::changes::ReadyChanges;
use crate::state::Core;
use ctl_debugger::{Controller, SnapError};
use std::alloc::{AllocError, Global};
use vr_model::Log;

/// Whether the checkpoint of a log, if it has one, is no later than the commit number that comes with it. What comes
/// with another is dropped.
pub fn is_reached(commit_number: u64, log: &Log) -> bool
    ensures stands { result ≡ false → (core : cores.Core) (l : List (logs.Request Command))
        → StandsForLog core commit_number log.now l → ⊥ }
    ensures reached { result ≡ true → base_of log.now.checkpoint ≤ commit_number }
{
    log.base() <= commit_number
}

/// What a log that is handed in needs before it takes the place of a core's.
#[derive(Drop)]
pub struct Readied {
    /// The controller that has executed what the log's checkpoint stands in place of; none where the core has executed
    /// that much.
    pub begun: Option<Controller>,
    /// The changes among the entries that are executed then.
    pub changes: ReadyChanges,
}

impl Core {
    /// Whether the checkpoint of a log that comes with this commit number, if it has one, is no later than that and can
    /// be restored; a log with another stands for none, and what comes with it is dropped. It fails only where memory
    /// runs out, and takes none where it can be, with the program in force.
    pub fn can_stand(
        &self,
        alloc: Global,
        commit_number: u64,
        log: &Log,
    ) -> Result<bool, AllocError>
        ensures stands { IfOk result (λ can. can ≡ false → (l : List (logs.Request Command))
            → StandsForLog self.now commit_number log.now l → ⊥) }
        ensures fit { IfOk result (λ can. can ≡ true → IsUnfit self.now commit_number log.now → ⊥) }
    {
        if !is_reached(commit_number, log) {
            return Ok(false);
        }
        self.fits(alloc, log)
    }
    /// What a log that is handed in needs before it takes the place of the core's and is executed up to this op number;
    /// `None` where its checkpoint can't be restored: such a log stands for none, and what comes with it is dropped. It
    /// fails only where memory runs out.
    pub fn ready_for(
        &self,
        alloc: Global,
        log: &Log,
        op_number: u64,
    ) -> Result<Option<Readied>, AllocError>
        ensures readied { IfOk result
            (λ o. MatchOption o (IsOfNone self.now log.now) (IsReadied self.now log.now op_number)) }
        ensures spoilt { IfOk result (λ o. IfSome o (λ _. (c : SavedCheckpoint) → log.now.checkpoint ≡ Some c
            → IsSpoilt self.now c.snapshot → ⊥)) }
    {
        let begun = match self.begun(alloc, log) {
            Ok(begun) => begun,
            Err(SnapError::Memory) => return Err(AllocError),
            Err(_) => return Ok(None),
        };
        let changes = self.prepare_handed(alloc, log, op_number)?;
        Ok(Some(Readied { begun, changes }))
    }
}
