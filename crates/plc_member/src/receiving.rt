//! Whether the thread of a replica comes to its receives, or hangs behind its disk.

ghost use Rattle.std.specs.Prelude.{◌≡◌, ◌&&◌, false, not, None};
ghost use Rattle.plc_member.specs.Receiving.{hang_notice, hangs, since_after};

use plc_status::Notice;
use std::time::Duration;

/// In seconds: behind so long without a receive a thread hangs. A receive waits for some milliseconds at most.
const LONG: u64 = 3;

/// The receives of a replica's thread, as its driver's looks at them.
#[derive(Clone, Copy)]
pub(crate) struct Receives {
    /// So many there were at the last look.
    count: u64,
    /// When so many were seen first; none before the first look.
    since: Option<Duration>,
    hangs: bool,
}

/// When so many receives were seen first as there are now: there were that many at the last look, if there was one.
fn since_after(receives: Receives, count: u64, now: Duration) -> Duration
    ensures { result ≡ since_after receives count now }
{
    match receives.since {
        Some(since) if receives.count == count => since,
        _ => now,
    }
}

/// Whether a thread hangs that has come to no other receive since then.
fn hangs(since: Duration, now: Duration) -> bool
    ensures { result ≡ hangs since now }
{
    now.saturating_sub(since).as_nanos() >= Duration::from_secs(LONG).as_nanos()
}

/// What is told of a replica of this number that hung, or didn't, and does now, or doesn't.
pub(crate) fn hang_notice(hung: bool, hangs: bool, number: u8) -> Option<Notice>
    ensures { result ≡ hang_notice hung hangs number }
{
    if hangs && !hung {
        Some(Notice::Hangs(number))
    } else {
        None
    }
}

impl Receives {
    /// None was looked at.
    pub(crate) fn new() -> Receives
        ensures { (result.since ≡ None) × (result.hangs ≡ false) }
    {
        Receives {
            count: 0,
            since: None,
            hangs: false,
        }
    }

    /// Whether the thread hung at the last look.
    pub(crate) fn hang(&self) -> bool
        ensures { result ≡ self.now.hangs }
    {
        self.hangs
    }

    /// There are so many now. Where it's told otherwise why there are no more, as of a save that is tried again, the thread
    /// doesn't hang.
    pub(crate) fn look(&mut self, count: u64, is_told: bool, now: Duration)
        ensures count { self.new.count ≡ count }
        ensures since { self.new.since ≡ Some (since_after self.old count now) }
        ensures hangs { self.new.hangs ≡ (not is_told && hangs (since_after self.old count now) now) }
    {
        let since = since_after(*self, count, now);
        self.count = count;
        self.since = Some(since);
        self.hangs = !is_told && hangs(since, now);
    }
}
