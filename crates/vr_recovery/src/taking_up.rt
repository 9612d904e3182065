//! A log with a checkpoint is taken over.

ghost use Rattle.std.specs.Prelude.{◌≡◌, ◌≤◌, true, List, IfOk, OnErr};
ghost use Rattle.il_model.specs.declared.command.Command.{Command};
ghost use Rattle.vr_model.specs.Groups.{primary};
ghost use Rattle.vr_model.specs.Logs as logs;
ghost use Rattle.vr_model.specs.Rules as rules;
ghost use Rattle.vr_core.specs.StandsFor.{StandsForLog};
ghost use Rattle.vr_core.specs.Follows.{Tells, FollowsIfKept};
ghost use Rattle.vr_core.specs.Checkpoints.{IsUnfit, Drops};
ghost use Rattle.vr_model.specs.Checkpoints.{base_of};
ghost use Rattle.vr_recovery.specs.Recovering.{catches_up};

use crate::holding::{hold, hold_as_primary};
use std::alloc::{AllocError, Global};
use vr_core::Core;
use vr_model::{Log, Sends};

/// A backup holds this log in place of its own, tells the primary, and executes. A checkpoint that can't be restored
/// here is dropped. It fails only where memory runs out, and then nothing changed.
pub(crate) fn take_up(
    core: &mut Core,
    alloc: Global,
    commit_number: u64,
    log: Log,
) -> Result<Sends, AllocError>
    requires { base_of log.checkpoint ≤ commit_number }
    ensures ok { IfOk result
        (λ sends. (l : List (logs.Request Command)) → StandsForLog core.old commit_number log l
        → FollowsIfKept core.old
        (λ w r. rules.holds_log w.f w.number w.answer r l commit_number) core.new sends.items) }
    ensures err { OnErr result (core.new ≡ core.old) }
    ensures dropped { IsUnfit core.old commit_number log → Drops core.old core.new result }
{
    let Some(ready) = core.ready_for(alloc, &log, commit_number)? else {
        return Ok(Vec::new(alloc));
    };
    let sends = Vec::with_capacity(alloc, 1)?;
    core.replace_log(log, ready.begun);
    Ok(hold(core, alloc, sends, commit_number, ready.changes))
}

/// A replica that is behind adopts a view that another one is the primary of, holds this log in place of its own, tells
/// that primary, and executes. A checkpoint that can't be restored here is dropped. It fails only where memory runs
/// out, and then nothing changed.
pub(crate) fn adopt_and_take_up(
    core: &mut Core,
    alloc: Global,
    view: u64,
    commit_number: u64,
    log: Log,
) -> Result<Sends, AllocError>
    requires reached { base_of log.checkpoint ≤ commit_number }
    requires behind { Tells core.old (λ w r. rules.behind w.f w.number w.answer r view) true }
    requires backup { primary core.old.config.f view ≡ core.old.number → ⊥ }
    ensures ok { IfOk result
        (λ sends. (l : List (logs.Request Command)) → StandsForLog core.old commit_number log l
        → FollowsIfKept core.old (λ w r. catches_up w r view l commit_number) core.new sends.items) }
    ensures err { OnErr result (core.new ≡ core.old) }
    ensures dropped { IsUnfit core.old commit_number log → Drops core.old core.new result }
{
    let Some(ready) = core.ready_for(alloc, &log, commit_number)? else {
        return Ok(Vec::new(alloc));
    };
    let sends = Vec::with_capacity(alloc, 1)?;
    core.replace_log(log, ready.begun);
    core.adopt(view);
    Ok(hold(core, alloc, sends, commit_number, ready.changes))
}

/// A replica that is behind adopts a view of its own, holds this log in place of its own, and replies to what it
/// executes. No run comes to this. Replies to what the checkpoint stands in place of can't be made: where it has not
/// executed that, the event counts as lost.
pub(crate) fn take_up_as_primary(
    core: &mut Core,
    alloc: Global,
    view: u64,
    commit_number: u64,
    log: Log,
) -> Result<Sends, AllocError>
    requires reached { base_of log.checkpoint ≤ commit_number }
    requires behind { Tells core.old (λ w r. rules.behind w.f w.number w.answer r view) true }
    requires own { primary core.old.config.f view ≡ core.old.number }
    ensures ok { IfOk result
        (λ sends. (l : List (logs.Request Command)) → StandsForLog core.old commit_number log l
        → FollowsIfKept core.old (λ w r. catches_up w r view l commit_number) core.new sends.items) }
    ensures err { OnErr result (core.new ≡ core.old) }
    ensures dropped { IsUnfit core.old commit_number log → Drops core.old core.new result }
{
    let executed = commit_number.min(log.op_number());
    let Some(ready) = core.ready_for(alloc, &log, executed)? else {
        return Ok(Vec::new(alloc));
    };
    if core.commit_number < log.base() {
        return Err(AllocError);
    }
    let room = Vec::with_capacity(alloc, log.entries().len() + 1)?;
    core.replace_log(log, ready.begun);
    core.adopt(view);
    Ok(hold_as_primary(core, alloc, room, executed, ready.changes))
}
