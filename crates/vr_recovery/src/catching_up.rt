//! What a replica does with a part of the log that it asked for.

ghost use Rattle.std.specs.Prelude.{◌≡◌, ◌≤◌, ◌<◌, ◌-◌, ◌+◌, ◌&&◌, true, is_some, nat_le, nat_lt, List, length};
ghost use Rattle.il_model.specs.declared.command.Command.{Command};
ghost use Rattle.vr_model.specs.Logs as logs;
ghost use Rattle.vr_model.specs.Messages as messages;
ghost use Rattle.vr_model.specs.Rules as rules;
ghost use Rattle.vr_model.specs.declared.message.Body.TheVariants as says;
ghost use Rattle.vr_model.specs.Checkpoints.{requests_of};
ghost use Rattle.vr_model.specs.StandsFor.{IsCarriedPart};
ghost use Rattle.vr_core.specs.StandsFor.{IsSavedAs, own_group};
ghost use Rattle.vr_core.specs.Follows.{Tells, DoesIfKept, DoesIfFits, op_number_of, receives_from};
ghost use Rattle.vr_core.specs.Checkpoints.{IsUnfit, Drops};

use crate::entries::{catch_up, catch_up_as_primary, go_on};
use crate::taking_up::{adopt_and_take_up, take_up, take_up_as_primary};
use std::alloc::{AllocError, Global};
use vr_core::{Core, is_reached};
use vr_model::{Log, Request, Sends};

/// What a NEWSTATE says: the view's log past this op number; or, if it has a checkpoint, past that.
#[derive(Drop)]
pub struct NewState {
    pub view: u64,
    pub op_number: u64,
    pub commit_number: u64,
    pub log: Log,
}

/// NEWSTATE: the view's log past an op number. A backup of that view appends what lies past its own log; who is behind
/// adopts the view, if what it has executed is neither cut nor left behind. One whose checkpoint can't be taken up here
/// is dropped.
pub fn on_new_state(
    core: &mut Core,
    alloc: Global,
    sender: u8,
    new_state: NewState,
) -> Result<Sends, AllocError>
    ensures rule { (l : List (logs.Request Command))
        → IsCarriedPart IsSavedAs (own_group core.old) new_state.op_number new_state.commit_number new_state.log l
        → DoesIfFits core.old
        (says.NewState new_state.view new_state.op_number new_state.commit_number new_state.log)
        (receives_from sender
        (messages.NewState new_state.view new_state.op_number new_state.commit_number l)) core.new result }
    ensures dropped { IsUnfit core.old new_state.commit_number new_state.log → Drops core.old core.new result }
{
    if core.is_other(sender) {
        new_state_of_other(
            core,
            alloc,
            new_state.view,
            new_state.op_number,
            new_state.commit_number,
            new_state.log,
        )
    } else {
        Ok(Vec::new(alloc))
    }
}

/// NEWSTATE of another replica of the group.
fn new_state_of_other(
    core: &mut Core,
    alloc: Global,
    view: u64,
    op_number: u64,
    commit_number: u64,
    log: Log,
) -> Result<Sends, AllocError>
    ensures rule { (l : List (logs.Request Command))
        → IsCarriedPart IsSavedAs (own_group core.old) op_number commit_number log l
        → DoesIfFits core.old (says.NewState view op_number commit_number log)
        (λ w r. rules.on_new_state w.f w.number w.answer r view op_number commit_number l) core.new result }
    ensures dropped { IsUnfit core.old commit_number log → Drops core.old core.new result }
{
    if log.checkpoint().is_some() {
        on_checkpoint(core, alloc, view, op_number, commit_number, log)
    } else {
        on_entries(
            core,
            alloc,
            view,
            op_number,
            commit_number,
            log.into_entries(),
        )
    }
}

/// Entries past an op number alone.
fn on_entries(
    core: &mut Core,
    alloc: Global,
    view: u64,
    op_number: u64,
    commit_number: u64,
    entries: Vec<Request>,
) -> Result<Sends, AllocError>
    ensures { DoesIfKept core.old
        (λ w r. rules.on_new_state w.f w.number w.answer r view op_number commit_number
        (requests_of entries.items)) core.new result }
{
    let count = entries.len() as u64;
    if core.is_backup_in(view) {
        if goes_past(core, op_number, count) {
            go_on(core, alloc, op_number, commit_number, entries)
        } else {
            Ok(Vec::new(alloc))
        }
    } else if !may_catch_up(core, view, op_number, count) {
        Ok(Vec::new(alloc))
    } else if core.config.primary(view) == core.number {
        catch_up_as_primary(core, alloc, view, op_number, commit_number, entries)
    } else {
        catch_up(core, alloc, view, op_number, commit_number, entries)
    }
}

/// What is kept of a whole log, with its checkpoint: it takes the place of its own.
fn on_checkpoint(
    core: &mut Core,
    alloc: Global,
    view: u64,
    op_number: u64,
    commit_number: u64,
    log: Log,
) -> Result<Sends, AllocError>
    requires { is_some log.checkpoint ≡ true }
    ensures rule { (l : List (logs.Request Command))
        → IsCarriedPart IsSavedAs (own_group core.old) op_number commit_number log l
        → DoesIfFits core.old (says.NewState view op_number commit_number log)
        (λ w r. rules.on_new_state w.f w.number w.answer r view op_number commit_number l) core.new result }
    ensures dropped { IsUnfit core.old commit_number log → Drops core.old core.new result }
{
    if !is_reached(commit_number, &log) {
        return Ok(Vec::new(alloc));
    }
    let count = log.op_number().saturating_sub(op_number);
    if core.is_backup_in(view) {
        if goes_past(core, op_number, count) {
            take_up(core, alloc, commit_number, log)
        } else {
            Ok(Vec::new(alloc))
        }
    } else if !may_catch_up(core, view, op_number, count) {
        Ok(Vec::new(alloc))
    } else if core.config.primary(view) == core.number {
        take_up_as_primary(core, alloc, view, commit_number, log)
    } else {
        adopt_and_take_up(core, alloc, view, commit_number, log)
    }
}

/// Whether so many entries past this op number begin within its log and go past its end.
fn goes_past(core: &Core, op_number: u64, count: u64) -> bool
    ensures told { Tells core.now
        (λ w r. nat_le op_number (length r.log) && nat_lt (length r.log) (op_number + count)) result }
    ensures within { result ≡ true → (op_number ≤ op_number_of core.now) × (op_number_of core.now - op_number < count) }
{
    let held = core.op_number();
    op_number <= held && held - op_number < count
}

/// Whether it is behind this view, and so many entries past this op number leave nothing out.
fn may_catch_up(core: &Core, view: u64, op_number: u64, count: u64) -> bool
    ensures told { Tells core.now
        (λ w r. rules.behind w.f w.number w.answer r view
        && (nat_le op_number r.commit_number && nat_le r.commit_number (op_number + count))) result }
    ensures behind { result ≡ true → Tells core.now (λ w r. rules.behind w.f w.number w.answer r view) true }
    ensures within { result ≡ true → op_number ≤ core.now.commit_number }
{
    core.is_behind(view) && reaches(core, op_number, count)
}

/// Whether so many entries past this op number begin within what it has executed and reach its end.
fn reaches(core: &Core, op_number: u64, count: u64) -> bool
    ensures told { Tells core.now
        (λ w r. nat_le op_number r.commit_number && nat_le r.commit_number (op_number + count)) result }
    ensures within { result ≡ true → op_number ≤ core.now.commit_number }
{
    op_number <= core.commit_number && core.commit_number - op_number <= count
}
