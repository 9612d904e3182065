//! Replicas that are to be started anew.

ghost use Rattle.std.specs.Prelude.{◌≡◌, ◌+◌, min, false, true, option_map, None, Some};
ghost use Rattle.std.specs.Duration.{as_nanos, max_nanos};
ghost use Rattle.plc_driver.specs.Tending.{due_then, first_pause, pause_behind, starts_now};

use std::time::Duration;

/// In seconds: after that a replica is started anew that needs it.
const FIRST_PAUSE: u64 = 5;

/// In seconds: the longest time between two starts.
const LONGEST_PAUSE: u64 = 60;

/// In nanoseconds.
const LONGEST_PAUSE_NANOS: u128 = 60_000_000_000;

/// When a replica is started anew that isn't served, or whose store failed.
#[derive(Clone, Copy)]
pub(crate) struct Revival {
    /// Not known while a start is under way.
    due: Option<Duration>,
    /// From the end of the last start, or since that was needed first.
    pause: Duration,
}

impl Revival {
    /// Of a replica that is to be started anew since now.
    pub(crate) fn new(now: Duration) -> Revival
        ensures pause { as_nanos result.pause ≡ first_pause }
        ensures due { option_map as_nanos result.due ≡ Some (min (as_nanos now + first_pause) max_nanos) }
    {
        let pause = Duration::from_secs(FIRST_PAUSE);
        Revival {
            due: Some(now.saturating_add(pause)),
            pause,
        }
    }

    /// Whether it's to be started now. Then it's to be started again after twice the pause, up to a minute, which runs
    /// from the first look behind the end of that start.
    pub(crate) fn is_due(&mut self, now: Duration) -> bool
        ensures due { result ≡ starts_now (option_map as_nanos self.old.due) (as_nanos now) }
        ensures started { result ≡ true → (as_nanos self.new.pause ≡ pause_behind (as_nanos self.old.pause))
            × (self.new.due ≡ None) }
        ensures waits { result ≡ false → (self.new.pause ≡ self.old.pause) × (option_map as_nanos self.new.due
            ≡ Some (due_then (as_nanos self.old.pause) (option_map as_nanos self.old.due) (as_nanos now))) }
    {
        let Some(due) = self.due else {
            self.due = Some(now.saturating_add(self.pause));
            return false;
        };
        if due.as_nanos() > now.as_nanos() {
            return false;
        }
        self.pause = pause_behind(self.pause);
        self.due = None;
        true
    }
}

/// The pause behind this one.
fn pause_behind(pause: Duration) -> Duration
    ensures { as_nanos result ≡ pause_behind (as_nanos pause) }
{
    let twice = pause.saturating_add(pause);
    if twice.as_nanos() < LONGEST_PAUSE_NANOS {
        twice
    } else {
        Duration::from_secs(LONGEST_PAUSE)
    }
}
