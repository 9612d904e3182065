//! What memory the changes of the program take is taken before any of them is executed.

ghost use Rattle.std.specs.Prelude.{◌≡◌, ◌<◌, min, take, drop, IfOk, OnErr};
ghost use Rattle.vr_model.specs.Checkpoints.{requests_of};
ghost use Rattle.vr_core.specs.Follows.{op_number_of};
ghost use Rattle.vr_core.specs.Changes.{IsReadyTo, IsReadyPast, IsReadyFor};

use crate::changes::{ReadyChanges, prepare_before};
use crate::state::Core;
use std::alloc::{AllocError, Global};
use vr_model::{Log, Request};

/// The entries past the first of these places, up to the second, as far as there are any.
fn between(entries: &[Request], from: u64, to: u64) -> &[Request]
    ensures { result.now ≡ drop from (take to entries.now) }
{
    let end = to.min(entries.len() as u64) as usize;
    let start = from.min(end as u64) as usize;
    &entries[start..end]
}

impl Core {
    /// The changes among the entries that it has not executed, up to this op number, ready in their order. It fails
    /// only where there is such an entry and memory runs out.
    pub fn prepare_to(&self, alloc: Global, op_number: u64) -> Result<ReadyChanges, AllocError>
        ensures ready { IfOk result (IsReadyTo self.now op_number) }
        ensures err { OnErr result (self.now.commit_number < min op_number (op_number_of self.now)) }
    {
        if op_number.min(self.op_number()) <= self.commit_number {
            return Ok(ReadyChanges::none(alloc));
        }
        let base = self.log.base();
        let from = self.commit_number.saturating_sub(base);
        let to = op_number.saturating_sub(base);
        let entries = between(self.log.entries(), from, to);
        prepare_before(alloc, entries, ReadyChanges::none(alloc))
    }

    /// The changes among the entries that it will not have executed, up to an op number, ready in their order, once
    /// these entries come past an op number in place of its own. It fails only where memory runs out.
    pub fn prepare_past(
        &self,
        alloc: Global,
        op_number: u64,
        entries: &[Request],
        end: u64,
    ) -> Result<ReadyChanges, AllocError>
        ensures { IfOk result (IsReadyPast self.now op_number (requests_of entries.now) end) }
    {
        let from = self.commit_number.saturating_sub(op_number);
        let to = end.saturating_sub(op_number);
        let more = between(entries, from, to);
        let changes = prepare_before(alloc, more, ReadyChanges::none(alloc))?;
        let base = self.log.base();
        let from = self.commit_number.saturating_sub(base);
        let to = end.min(op_number).saturating_sub(base);
        let own = between(self.log.entries(), from, to);
        prepare_before(alloc, own, changes)
    }

    /// The changes among the entries of a log that is handed in, past its checkpoint and past what this replica has
    /// executed, up to this op number, ready in their order. It fails only where memory runs out.
    pub fn prepare_handed(
        &self,
        alloc: Global,
        log: &Log,
        op_number: u64,
    ) -> Result<ReadyChanges, AllocError>
        ensures { IfOk result (IsReadyFor self.now log.now op_number) }
    {
        let base = log.base();
        let from = self.commit_number.max(base) - base;
        let to = op_number.saturating_sub(base);
        let entries = between(log.entries(), from, to);
        prepare_before(alloc, entries, ReadyChanges::none(alloc))
    }
}
