//! When a port that is taken is tried again, and from when on its node leads no longer for that.

ghost use Rattle.std.specs.Prelude.{◌≡◌};
ghost use Rattle.plc_node_core.specs.Trying.{IsUnrefused, given_up, has_paused, is_due, most_after};
ghost use Rattle.plc_node_core.specs.Trying.{refused_in, twice, unrefused, was_in};

use std::time::Duration;

/// So often the port of a node is refused before it gives up the view that it leads.
const MOST: u32 = 3;

/// The same at most, of one that gave up view after view.
const MOST_AT_LAST: u32 = 96;

/// In milliseconds: so long it is from one try to the next.
const PAUSE: u64 = 500;

/// How often the port of a node was refused since it was open last.
#[derive(Clone, Copy, PartialEq, Eq)]
pub struct Tries {
    /// The view in which it was refused last, if it was.
    view: Option<u64>,
    /// So often it was in that view.
    refused: u32,
    /// So often it is before the node gives up that view.
    most: u32,
    /// When it was refused last.
    last: Duration,
}

/// Whether this is the view in which the port was refused last.
fn was_in(last: Option<u64>, view: u64) -> bool
    ensures { result ≡ was_in last view }
{
    match last {
        Some(last) => last == view,
        None => false,
    }
}

/// Whether the pause behind the last try is over.
fn has_paused(last: Duration, now: Duration) -> bool
    ensures { result ≡ has_paused last now }
{
    now.saturating_sub(last).as_nanos() >= Duration::from_millis(PAUSE).as_nanos()
}

/// Twice as often, up to the most.
fn twice(count: u32) -> u32
    ensures { result ≡ twice count }
{
    if count < MOST_AT_LAST / 2 {
        count * 2
    } else {
        MOST_AT_LAST
    }
}

impl Tries {
    /// It wasn't refused.
    pub(crate) fn none() -> Tries
        ensures { IsUnrefused result }
    {
        Tries {
            view: None,
            refused: 0,
            most: MOST,
            last: Duration::from_millis(0),
        }
    }

    /// Whether a try in this view is due now: the first one at once, and each later one behind a pause.
    pub(crate) fn is_due(&self, view: u64, now: Duration) -> bool
        ensures { result ≡ is_due self.now view now }
    {
        !was_in(self.view, view) || has_paused(self.last, now)
    }

    /// So often the port is refused in another view before that is given up: twice as often as in the last one, if
    /// that was.
    fn most_after(&self) -> u32
        ensures { result ≡ most_after self.now }
    {
        if self.refused < self.most {
            self.most
        } else {
            twice(self.most)
        }
    }

    /// The tries behind the port's opening.
    pub(crate) fn unrefused(&self) -> Tries
        ensures { result ≡ unrefused self.now }
    {
        Tries {
            view: None,
            refused: 0,
            most: MOST,
            last: self.last,
        }
    }

    /// The tries where the port is refused in this view, now.
    pub(crate) fn refused_in(&self, view: u64, now: Duration) -> Tries
        ensures { result ≡ refused_in self.now view now }
    {
        if was_in(self.view, view) {
            Tries {
                view: self.view,
                refused: self.refused.saturating_add(1),
                most: self.most,
                last: now,
            }
        } else {
            Tries {
                view: Some(view),
                refused: 1,
                most: self.most_after(),
                last: now,
            }
        }
    }

    /// The view that the node gives up, if it does: its port was refused too often there.
    pub(crate) fn given_up(&self) -> Option<u64>
        ensures { result ≡ given_up self.now }
    {
        if self.refused < self.most {
            None
        } else {
            self.view
        }
    }
}
