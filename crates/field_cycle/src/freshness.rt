//! Whether what the controller released is worth anything.

ghost use Rattle.std.specs.Prelude.{◌≡◌};
ghost use Rattle.field_cycle.specs.Stations.{never, is_recent, heard_at, is_fresh, is_other};

use crate::link::Moment;

/// What the controller answered last, as far as its freshness goes.
#[derive(Clone, Copy)]
pub struct Freshness {
    /// When its outputs were taken last.
    pub answered: Option<Moment>,
    /// The count of scans that it showed last.
    pub count: Option<i16>,
    /// When a count came that was another than the one before.
    pub counted: Option<Moment>,
}

/// Whether a moment is no longer ago than so long.
fn is_recent(moment: Option<Moment>, now: Moment, fresh: u64) -> bool
    ensures { result ≡ is_recent moment now fresh }
{
    match moment {
        Some(moment) => now <= moment.saturating_add(fresh),
        None => false,
    }
}

impl Freshness {
    /// It never answered.
    pub fn new() -> Freshness
        ensures { result ≡ never }
    {
        Freshness {
            answered: None,
            count: None,
            counted: None,
        }
    }

    /// It showed its outputs now, and a count of scans, if a word counts them; they were taken, or not.
    pub fn hear(&mut self, now: Moment, count: Option<i16>, is_taken: bool)
        ensures { self.new ≡ heard_at self.old now count is_taken }
    {
        if is_other(self.count, count) {
            self.counted = Some(now);
        }
        if is_taken {
            self.answered = Some(now);
        }
        self.count = count;
    }

    /// Whether its outputs were taken no longer ago than so long, and, where scans are counted, a count came since then
    /// that was another than the one before.
    pub fn is_fresh(&self, now: Moment, fresh: u64, counts: bool) -> bool
        ensures { result ≡ is_fresh self.now now fresh counts }
    {
        is_recent(self.answered, now, fresh) && (!counts || is_recent(self.counted, now, fresh))
    }
}

/// Whether both are there, and differ.
pub(crate) fn is_other(before: Option<i16>, count: Option<i16>) -> bool
    ensures { result ≡ is_other before count }
{
    match (before, count) {
        (Some(before), Some(count)) => before != count,
        _ => false,
    }
}
