//! How a node ends.

ghost use Rattle.std.specs.Prelude.{◌≡◌};
ghost use Rattle.plc_node_core.specs.Ending as spec;

use std::time::Duration;

/// In seconds: for so long a node waits at its end until its replica is served no longer.
const LONGEST_END: u64 = 10;

/// In milliseconds: so long it is from one cut of its replica's link to the next.
const PAUSE: u64 = 1;

/// Why a node can't go on.
#[derive(Clone, Copy, Debug, PartialEq, Eq)]
pub enum Failure {
    /// The store of its replica has failed, or what its machine has to keep couldn't be kept.
    Store,
    /// Its replica's thread is at its end.
    Thread,
    Memory,
    /// The numbers of its client's requests.
    NumbersUsedUp,
}

/// How a node ends.
#[derive(Clone, Copy, Debug, PartialEq, Eq)]
pub enum Ending {
    /// It was asked to.
    Stopped,
    /// Its machine leaves its epoch. What the store is to have is told by its replica's thread.
    Leaves,
    Failed(Failure),
}

/// What a node does that has ended.
#[derive(Clone, Copy, Debug, PartialEq, Eq)]
pub enum LastAction {
    /// The port closes, with each of its sessions: `Node::closed`.
    Close,
    /// Its replica's link is cut: `Node::cut`.
    Cut,
    /// It's over.
    End(Ending),
}

/// How a node has ended, when, and when its replica's link was cut last.
#[derive(Clone, Copy, PartialEq, Eq)]
pub struct End {
    pub(crate) ending: Ending,
    pub(crate) since: Duration,
    pub(crate) cut: Option<Duration>,
}

/// Why a node can't go on, if it can't: its replica's store has failed or not, and that one's thread is at its end or
/// not.
pub(crate) fn failure_of(has_failed: bool, is_over: bool) -> Option<Failure>
    ensures { result ≡ spec.failure_of has_failed is_over }
{
    match (has_failed, is_over) {
        (true, _) => Some(Failure::Store),
        (false, true) => Some(Failure::Thread),
        (false, false) => None,
    }
}

/// Whether a node that ended then has waited long enough.
fn is_late(since: Duration, now: Duration) -> bool
    ensures { result ≡ spec.is_late since now }
{
    now.saturating_sub(since).as_nanos() >= Duration::from_secs(LONGEST_END).as_nanos()
}

/// What a node ends with that ended so: its replica is served no longer or still is, and it has waited long or not.
fn outcome_of(ending: Ending, is_over: bool, is_late: bool) -> Option<Ending>
    ensures { result ≡ spec.outcome_of ending is_over is_late }
{
    match (ending, is_over, is_late) {
        (Ending::Stopped, _, _) => Some(Ending::Stopped),
        (Ending::Failed(failure), _, _) => Some(Ending::Failed(failure)),
        (Ending::Leaves, true, _) => Some(Ending::Leaves),
        (Ending::Leaves, false, true) => Some(Ending::Failed(Failure::Store)),
        (Ending::Leaves, false, false) => None,
    }
}

/// Whether the pause behind the last cut is over.
fn is_cut_again(last: Duration, now: Duration) -> bool
    ensures { result ≡ spec.is_cut_again last now }
{
    now.saturating_sub(last).as_nanos() >= Duration::from_millis(PAUSE).as_nanos()
}

/// Whether a replica's link is to be cut now that was cut then, if it was, of a node that ends with this, if it does
/// yet.
fn is_cut_due(cut: Option<Duration>, outcome: Option<Ending>, now: Duration) -> bool
    ensures { result ≡ spec.is_cut_due cut outcome now }
{
    match (cut, outcome) {
        (None, _) => true,
        (Some(_), Some(_)) => false,
        (Some(last), None) => is_cut_again(last, now),
    }
}

/// What a node does that has ended, in this order: its port closes, its replica's link is cut, and it's over.
fn last_action(is_open: bool, is_cut_due: bool, outcome: Option<Ending>) -> Option<LastAction>
    ensures { result ≡ spec.last_action is_open is_cut_due outcome }
{
    match (is_open, is_cut_due, outcome) {
        (true, _, _) => Some(LastAction::Close),
        (false, true, _) => Some(LastAction::Cut),
        (false, false, Some(ending)) => Some(LastAction::End(ending)),
        (false, false, None) => None,
    }
}

impl End {
    /// It ends so, now.
    pub(crate) fn new(ending: Ending, now: Duration) -> End
        ensures { result ≡ record { ending = ending; since = now; cut = None } }
    {
        End {
            ending,
            since: now,
            cut: None,
        }
    }

    /// What it does next, with its port open or not, and its replica served no longer or still.
    pub(crate) fn next_action(
        &self,
        is_open: bool,
        is_over: bool,
        now: Duration,
    ) -> Option<LastAction>
        ensures { result ≡ spec.action_behind self.now is_open is_over now }
    {
        let outcome = outcome_of(self.ending, is_over, is_late(self.since, now));
        last_action(is_open, is_cut_due(self.cut, outcome, now), outcome)
    }
}
