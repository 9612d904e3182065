//! The changes of the program among some entries.

ghost use Rattle.std.specs.Prelude.{◌≡◌, ◌++◌, ◌∷◌, [], List, IfOk};
ghost use Rattle.il_model.specs.declared.command.Command.{Command};
ghost use Rattle.vr_model.specs.Logs as logs;
ghost use Rattle.vr_model.specs.Checkpoints.{requests_of};
ghost use Rattle.ctl_debugger.specs.Prepared.{Prepared, IsReady};
ghost use Rattle.vr_core.specs.Changes.{AreReady};

use ctl_debugger::{Ready, prepare};
use il_model::Command;
use std::alloc::{AllocError, Global};
use std::marker::Model;
use vr_model::Request;

/// The changes among some entries, ready to be executed in the order of the entries.
#[derive(Drop)]
pub struct ReadyChanges {
    /// The next change is the last of this list.
    changes: Vec<Ready>,
}

impl Model for ReadyChanges {
    ghost use Rattle.std.specs.Prelude.{List, reverse};
    ghost use Rattle.ctl_debugger.specs.Prepared.{Prepared};

    ghost Value = { List Prepared };

    ghost view = { λ c. reverse c.changes.items };
}

impl ReadyChanges {
    ghost use Rattle.std.specs.Prelude.{◌∷◌, MatchOption};

    /// No changes.
    pub fn none(alloc: Global) -> ReadyChanges
        ensures { result ≡ [] }
    {
        ReadyChanges {
            changes: Vec::new(alloc),
        }
    }

    /// Takes the next change out, if there is one.
    pub(crate) fn next(&mut self) -> Option<Ready>
        ensures { MatchOption result (self.old ≡ []) (λ r. self.old ≡ r ∷ self.new) }
    {
        self.changes.pop()
    }
}

/// Puts a change behind those that are ready, made ready itself. It fails only where memory runs out. It stands apart
/// from the search for changes, since what it takes in room is paid for whenever it begins.
fn put_ready(alloc: Global, changes: &mut Vec<Ready>, change: &Command) -> Result<(), AllocError>
    ensures { IfOk result (λ _. (ready : Prepared) × IsReady change.now ready
        × (changes.new.items ≡ changes.old.items ++ ready ∷ [])) }
{
    changes.push(prepare(alloc, change)?)?;
    Ok(())
}

/// The changes among these entries come before those that are ready. It fails only where memory runs out.
pub(crate) fn prepare_before(
    alloc: Global,
    entries: &[Request],
    ready: ReadyChanges,
) -> Result<ReadyChanges, AllocError>
    ensures { IfOk result (λ c. (rest : List (logs.Request Command)) → AreReady rest ready
        → AreReady (requests_of entries.now ++ rest) c) }
{
    let mut changes = ready.changes;
    let mut n = entries.len();
    while n > 0 {
        n -= 1;
        if entries[n].command.is_change() {
            put_ready(alloc, &mut changes, &entries[n].command)?;
        }
    }
    Ok(ReadyChanges { changes })
}
