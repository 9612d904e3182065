//! Entries past an op number are taken over.

ghost use Rattle.std.specs.Prelude.{◌≡◌, ◌≤◌, ◌<◌, ◌-◌, ◌++◌, true, take, drop, length, vec_len, IfOk, OnErr};
ghost use Rattle.vr_model.specs.Groups.{primary};
ghost use Rattle.vr_model.specs.Rules as rules;
ghost use Rattle.vr_model.specs.Checkpoints.{requests_of};
ghost use Rattle.vr_core.specs.Follows.{Tells, FollowsIfKept, op_number_of};
ghost use Rattle.vr_recovery.specs.Recovering.{catches_up};

use crate::holding::{hold, hold_as_primary};
use std::alloc::{AllocError, Global};
use vr_core::Core;
use vr_model::{Request, Sends};

/// Drops the first entries of a list.
fn forget_first(entries: &mut Vec<Request>, count: usize)
    requires { count ≤ vec_len entries.old }
    ensures { entries.new.items ≡ drop count entries.old.items }
{
    drop(entries.drain(..count));
}

/// A backup appends what lies past its log, tells the primary, and executes. It fails only where memory or the op
/// numbers run out, and then nothing changed. This holds of each call here.
pub(crate) fn go_on(
    core: &mut Core,
    alloc: Global,
    op_number: u64,
    commit_number: u64,
    entries: Vec<Request>,
) -> Result<Sends, AllocError>
    requires { (op_number ≤ op_number_of core.old) × (op_number_of core.old - op_number < length entries.items) }
    ensures ok { IfOk result
        (λ sends. FollowsIfKept core.old
        (λ w r. rules.holds_log w.f w.number w.answer r
        (r.log ++ drop (length r.log - op_number) (requests_of entries.items)) commit_number) core.new sends.items) }
    ensures err { OnErr result (core.new ≡ core.old) }
{
    let held = core.op_number();
    let mut past = entries;
    forget_first(&mut past, (held - op_number) as usize);
    let changes = core.prepare_past(alloc, held, past.as_slice(), commit_number)?;
    let sends = Vec::with_capacity(alloc, 1)?;
    core.replace_log_past(held, past)?;
    Ok(hold(core, alloc, sends, commit_number, changes))
}

/// The replica adopts a view that another one is the primary of, with these entries past an op number, and tells the
/// primary.
pub(crate) fn catch_up(
    core: &mut Core,
    alloc: Global,
    view: u64,
    op_number: u64,
    commit_number: u64,
    entries: Vec<Request>,
) -> Result<Sends, AllocError>
    requires behind { Tells core.old (λ w r. rules.behind w.f w.number w.answer r view) true }
    requires backup { primary core.old.config.f view ≡ core.old.number → ⊥ }
    requires within { op_number ≤ core.old.commit_number }
    ensures ok { IfOk result
        (λ sends. FollowsIfKept core.old
        (λ w r. catches_up w r view
        (take op_number r.log ++ requests_of entries.items) commit_number) core.new sends.items) }
    ensures err { OnErr result (core.new ≡ core.old) }
{
    let changes = core.prepare_past(alloc, op_number, entries.as_slice(), commit_number)?;
    let sends = Vec::with_capacity(alloc, 1)?;
    core.replace_log_past(op_number, entries)?;
    core.adopt(view);
    Ok(hold(core, alloc, sends, commit_number, changes))
}

/// The replica adopts a view of its own, with these entries past an op number, replies to what it executes, and tells
/// itself. No run comes to this.
pub(crate) fn catch_up_as_primary(
    core: &mut Core,
    alloc: Global,
    view: u64,
    op_number: u64,
    commit_number: u64,
    entries: Vec<Request>,
) -> Result<Sends, AllocError>
    requires behind { Tells core.old (λ w r. rules.behind w.f w.number w.answer r view) true }
    requires own { primary core.old.config.f view ≡ core.old.number }
    requires within { op_number ≤ core.old.commit_number }
    ensures ok { IfOk result
        (λ sends. FollowsIfKept core.old
        (λ w r. catches_up w r view
        (take op_number r.log ++ requests_of entries.items) commit_number) core.new sends.items) }
    ensures err { OnErr result (core.new ≡ core.old) }
{
    let Some(end) = op_number.checked_add(entries.len() as u64) else {
        return Err(AllocError);
    };
    let executed = commit_number.min(end);
    let changes = core.prepare_past(alloc, op_number, entries.as_slice(), executed)?;
    let room = Vec::with_capacity(alloc, entries.len() + 1)?;
    core.replace_log_past(op_number, entries)?;
    core.adopt(view);
    Ok(hold_as_primary(core, alloc, room, executed, changes))
}
