//! The periods of the scans, by the machine's time.

ghost use Rattle.std.specs.Prelude.{◌≡◌, ◌*◌, ◌-◌, ◌/◌, ◌^◌, min, IfOk};
ghost use Rattle.std.specs.Duration.{as_nanos};
ghost use Rattle.plc_driver.specs.Driving.{is_late, longest_silence, next_due, IsAwaited, WorkedDues};

use plc_host::Failed;
use std::thread;
use std::time::{Clock, Duration, Instant};

/// In milliseconds: the longest that it sleeps at once before a scan is nearly due.
const NAP: u64 = 500;

/// When the next scan is due, since a beginning.
#[derive(Clone, Copy)]
pub(crate) struct Pace {
    begun: Instant,
    period: Duration,
    due: Duration,
}

/// How a scan came.
#[derive(Clone, Copy)]
pub(crate) struct Came {
    /// In milliseconds since the beginning.
    pub(crate) moment: u64,
    /// In microseconds since the beginning.
    pub(crate) at: u64,
    /// It came a period late or more.
    pub(crate) is_late: bool,
}

impl Pace {
    /// So many milliseconds to a period. The first scan is due at once.
    pub(crate) fn new(begun: Instant, period: u32) -> Pace
        ensures period { as_nanos result.period ≡ period * 1_000_000 }
        ensures due { as_nanos result.due ≡ 0 }
    {
        Pace {
            begun,
            period: Duration::from_millis(u64::from(period)),
            due: Duration::from_millis(0),
        }
    }

    /// How long it is since the beginning.
    pub(crate) fn elapsed<R: Clock>(&self, rt: &R) -> Result<Duration, Failed> {
        Ok(Instant::now(rt)?.saturating_duration_since(self.begun))
    }

    /// Sleeps for a while, unless the next scan is due within it: whether it is.
    pub(crate) fn rest<R: Clock>(&self, rt: &R) -> Result<bool, Failed> {
        let nap = Duration::from_millis(NAP);
        if self.due.saturating_sub(self.elapsed(rt)?) <= nap {
            return Ok(true);
        }
        thread::sleep(rt, nap);
        Ok(false)
    }

    /// Sleeps until the next scan is due, and tells how it came. By then the one behind it is due.
    pub(crate) fn await_scan<R: Clock>(&mut self, rt: &R) -> Result<Came, Failed>
        ensures awaited { IfOk result
            (IsAwaited (as_nanos self.old.period) (as_nanos self.old.due) (as_nanos self.new.due)) }
        ensures period { self.new.period ≡ self.old.period }
    {
        thread::sleep(rt, self.due.saturating_sub(self.elapsed(rt)?));
        let now = self.elapsed(rt)?;
        let came = Came {
            moment: milliseconds(now),
            at: microseconds(now),
            is_late: is_late(self.due, now, self.period),
        };
        self.due = next_due(self.due, now, self.period);
        Ok(came)
    }

    /// So long the driver waits for a reply before it asks again.
    pub(crate) fn longest_silence(&self) -> Duration
        ensures { as_nanos result ≡ longest_silence (as_nanos self.now.period) }
    {
        let second = Duration::from_secs(1);
        if self.period.as_nanos() < second.as_nanos() {
            self.period
        } else {
            second
        }
    }
}

/// When the scan behind one is due that was due then and came now: a period after that was due, or, where it came a
/// period late or more, a period from now.
fn next_due(due: Duration, now: Duration, period: Duration) -> Duration
    ensures { as_nanos result ≡ next_due (as_nanos due) (as_nanos now) (as_nanos period) }
{
    let next = due.saturating_add(period);
    if now.as_nanos() < next.as_nanos() {
        next
    } else {
        now.saturating_add(period)
    }
}

/// Whether a scan that was due then and came now came a period late or more.
fn is_late(due: Duration, now: Duration, period: Duration) -> bool
    ensures { result ≡ is_late (as_nanos due) (as_nanos now) (as_nanos period) }
{
    due.saturating_add(period).as_nanos() <= now.as_nanos()
}

/// A time in whole microseconds.
fn microseconds(time: Duration) -> u64
    ensures { result ≡ min (as_nanos time / 1_000) (2 ^ 64 - 1) }
{
    u64::try_from(time.as_micros()).unwrap_or(u64::MAX)
}

/// A time in whole milliseconds.
fn milliseconds(time: Duration) -> u64
    ensures { result ≡ min (as_nanos time / 1_000_000) (2 ^ 64 - 1) }
{
    u64::try_from(time.as_millis()).unwrap_or(u64::MAX)
}

/// What the definition gives for worked scans.
pub fn worked_dues()
    ensures { WorkedDues }
{}
