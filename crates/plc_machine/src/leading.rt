//! When a machine leads, and by which times it goes then. A time is told since a beginning of the machine's own.

ghost use Rattle.std.specs.Prelude.{◌≡◌, IsTrue};
ghost use Rattle.std.specs.Duration.{as_nanos};
ghost use Rattle.plc_machine.specs.Leading.{Begins, Follows, led_view, moment_at, next_due, opens_from, starts_from};

use il_model::InImage;
use std::time::Duration;
use vr_model::Standing;

/// The last scan in the log of a machine's own replica.
#[derive(Clone, Copy, Debug, PartialEq, Eq)]
pub struct LastScan {
    /// In milliseconds.
    pub moment: u64,
    /// When it came in here.
    pub came: Duration,
}

/// The last scan in that log, with its inputs.
#[derive(Clone, Copy, Debug, PartialEq, Eq)]
pub struct SeenScan {
    pub last: LastScan,
    pub inputs: InImage,
}

/// How long it is from scan to scan, and how long outputs are shown.
#[derive(Clone, Copy, Debug, PartialEq, Eq)]
pub struct Pace {
    pub period: Duration,
    /// Behind the submission of their scan.
    pub fresh: Duration,
}

/// A time in which a machine leads.
#[derive(Clone, Copy, Debug, PartialEq, Eq)]
pub struct Lead {
    /// The view whose primary its replica is.
    pub view: u64,
    /// The scan from whose moment its moments go on.
    pub from: LastScan,
    /// When the next scan is due.
    pub due: Duration,
    /// Before that nothing is shown.
    pub opens: Duration,
}

/// Whether a machine leads.
#[derive(Clone, Copy, Debug, PartialEq, Eq)]
pub enum Course {
    StandingBy,
    Leading(Lead),
}

/// The view that a replica leads, by what it shows of itself, and whether its store has failed.
pub fn led_view(standing: Standing, has_failed: bool) -> Option<u64>
    ensures { result ≡ led_view standing has_failed }
{
    if standing.is_primary && !has_failed {
        Some(standing.view)
    } else {
        None
    }
}

/// When the next scan is due behind one that was due then and comes now: a period after that was due, or, where it comes
/// a period late or more, a period from now.
fn next_due(due: Duration, now: Duration, period: Duration) -> Duration
    ensures { as_nanos result ≡ next_due (as_nanos due) (as_nanos now) (as_nanos period) }
{
    let next = due.saturating_add(period);
    if now.as_nanos() < next.as_nanos() {
        next
    } else {
        now.saturating_add(period)
    }
}

/// When a scan is due that follows the last one, and no earlier than now.
fn due_from(last: LastScan, now: Duration, period: Duration) -> Duration
    ensures { as_nanos result ≡ starts_from (as_nanos last.came) (as_nanos now) (as_nanos period) }
{
    let due = last.came.saturating_add(period);
    if now.as_nanos() < due.as_nanos() {
        due
    } else {
        now
    }
}

impl Lead {
    /// It begins to lead this view now, with the last scan of its log, if there is one: moments go on from that scan's,
    /// the next scan is due a period behind it, and nothing is shown before whoever led until now shows nothing any
    /// more. In an epoch that has no scan yet that may be who led in the one before it: so it's as behind a scan that
    /// came in now.
    fn begin(view: u64, last: Option<LastScan>, now: Duration, pace: Pace) -> Lead
        ensures { Begins view last now pace result }
    {
        match last {
            Some(last) => Lead {
                view,
                from: last,
                due: due_from(last, now, pace.period),
                opens: last.came.saturating_add(pace.fresh),
            },
            None => Lead {
                view,
                from: LastScan {
                    moment: 0,
                    came: now,
                },
                due: now,
                opens: now.saturating_add(pace.fresh),
            },
        }
    }

    /// The moment of a scan that is submitted now, in milliseconds: that of the last scan and the time since it came in.
    pub fn moment_at(&self, now: Duration) -> u64
        ensures { result ≡ moment_at self.now.from (as_nanos now) }
    {
        let passed = now.saturating_sub(self.from.came);
        let passed = u64::try_from(passed.as_millis()).unwrap_or(u64::MAX);
        self.from.moment.saturating_add(passed)
    }

    /// The same, once a scan was submitted now.
    pub(crate) fn submitted(self, now: Duration, period: Duration) -> Lead
        ensures same { (result.view ≡ self.view) × (result.from ≡ self.from) × (result.opens ≡ self.opens) }
        ensures due { as_nanos result.due ≡ next_due (as_nanos self.due) (as_nanos now) (as_nanos period) }
    {
        Lead {
            due: next_due(self.due, now, period),
            ..self
        }
    }
}

impl Course {
    /// What becomes of it by a look at its replica, which leads this view, if it leads: as long as it's one view, it
    /// goes on.
    pub fn after(
        self,
        leads: Option<u64>,
        last: Option<LastScan>,
        now: Duration,
        pace: Pace,
    ) -> Course
        ensures { Follows self leads last now pace result }
    {
        match (self, leads) {
            (_, None) => Course::StandingBy,
            (Course::Leading(lead), Some(view)) if lead.view == view => self,
            (_, Some(view)) => Course::Leading(Lead::begin(view, last, now, pace)),
        }
    }
}
