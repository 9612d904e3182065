//! Whether a machine hears a majority of its group.

ghost use Rattle.std.specs.Prelude.{◌≡◌, false};
ghost use Rattle.plc_member.specs.Hearing.{is_missing, lacking_after, majority_notice};

use plc_status::{GroupNotice, Notice};
use std::time::Duration;

/// In seconds: for so long fewer than f others are heard before that is told.
const LACKING: u64 = 3;

/// Whether a machine hears a majority, itself among it, and since when it doesn't.
#[derive(Clone, Copy)]
pub(crate) struct Majority {
    /// Since when fewer than half of the others are heard, if they are.
    lacking: Option<Duration>,
    /// That has been so for a while.
    is_missing: bool,
}

/// Since when fewer than half of so many others are heard, if so many are heard now.
fn lacking_after(
    lacking: Option<Duration>,
    heard: u8,
    others: u8,
    now: Duration,
) -> Option<Duration>
    ensures { result ≡ lacking_after lacking heard others now }
{
    if heard < others / 2 {
        Some(lacking.unwrap_or(now))
    } else {
        None
    }
}

/// Whether that has been so for a while.
fn is_missing(lacking: Option<Duration>, now: Duration) -> bool
    ensures { result ≡ is_missing lacking now }
{
    match lacking {
        Some(lacking) => {
            now.saturating_sub(lacking).as_nanos() >= Duration::from_secs(LACKING).as_nanos()
        }
        None => false,
    }
}

/// What is told of a majority that was missing, or wasn't, and is now, or isn't, where so many of so many others are
/// heard.
fn notice_of(was_missing: bool, is_missing: bool, heard: u8, others: u8) -> Option<Notice>
    ensures { result ≡ majority_notice was_missing is_missing heard others }
{
    match (was_missing, is_missing) {
        (false, true) => Some(Notice::Group(GroupNotice::NoMajority { heard, others })),
        (true, false) => Some(Notice::Group(GroupNotice::Majority)),
        (false, false) => None,
        (true, true) => None,
    }
}

impl Majority {
    /// It isn't known yet that one is missing.
    pub(crate) fn new() -> Majority
        ensures { result.is_missing ≡ false }
    {
        Majority {
            lacking: None,
            is_missing: false,
        }
    }

    /// Whether fewer than f others have been heard for a while.
    pub(crate) fn is_missing(&self) -> bool
        ensures { result ≡ self.now.is_missing }
    {
        self.is_missing
    }

    /// So many of so many others are heard now: what is to be told of that.
    pub(crate) fn look(&mut self, heard: u8, others: u8, now: Duration) -> Option<Notice>
        ensures lacking { self.new.lacking ≡ lacking_after self.old.lacking heard others now }
        ensures missing { self.new.is_missing ≡ is_missing self.new.lacking now }
        ensures told { result ≡ majority_notice self.old.is_missing self.new.is_missing heard others }
    {
        let was_missing = self.is_missing;
        self.lacking = lacking_after(self.lacking, heard, others, now);
        self.is_missing = is_missing(self.lacking, now);
        notice_of(was_missing, self.is_missing, heard, others)
    }
}
