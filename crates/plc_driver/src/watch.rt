//! What an operator is told of the replicas: a notice of each change.

ghost use Rattle.std.specs.Prelude.{◌≡◌, IfNone, IfOk, IfSome, nat_lt, option_map, false, None, true};
ghost use Rattle.std.specs.Duration.{as_nanos};
ghost use Rattle.plc_status.specs.Journal.{AreNoted};
ghost use Rattle.plc_driver.specs.Tending.{needs_start, starts_now};
ghost use Rattle.plc_driver.specs.Watching.{AreFramesNoted, IsFailureNoted, IsTurnNoted, change, is_lost, lapsed_since};
ghost use Rattle.plc_driver.specs.Watching.{failed_at, is_failure_new, turned};

use crate::reviving::Revival;
use plc_status::{Journal, Notice};
use std::alloc::{AllocError, Global};
use std::time::Duration;
use vr_model::Config;
use vr_shown::Shown;

/// So many nanoseconds a replica may not be normal before that is told.
const PATIENCE: u128 = 1_000_000_000;

/// What is known and told of one replica.
#[derive(Clone, Copy)]
struct Seen {
    /// Since when it hasn't been normal.
    since: Option<Duration>,
    /// It was told that it's down, and not since that it's normal.
    is_told_down: bool,
}

/// Since when something hasn't been well, by whether it's well now.
fn lapsed_since(since: Option<Duration>, is_well: bool, now: Duration) -> Option<Duration>
    ensures { option_map as_nanos result ≡ lapsed_since (option_map as_nanos since) is_well (as_nanos now) }
{
    if is_well {
        None
    } else {
        Some(since.unwrap_or(now))
    }
}

impl Seen {
    /// What is to be told of it now: true that it's normal again, false that it's down.
    fn change(self, now: Duration) -> Option<bool>
        ensures { result ≡ change self.is_told_down (option_map as_nanos self.since) (as_nanos now) }
    {
        match self.since {
            None if self.is_told_down => Some(true),
            Some(since) if !self.is_told_down && now.saturating_sub(since).as_nanos() >= PATIENCE =>
                Some(false),
            _ => None,
        }
    }

    /// Shows whether it's normal now.
    fn see(&mut self, is_normal: bool, now: Duration)
        ensures since { option_map as_nanos self.new.since ≡ lapsed_since (option_map as_nanos self.old.since) is_normal
            (as_nanos now) }
        ensures same { self.new.is_told_down ≡ self.old.is_told_down }
    {
        self.since = lapsed_since(self.since, is_normal, now);
    }
}

/// A replica that is watched.
#[derive(Clone, Copy)]
struct Watched {
    seen: Seen,
    /// At which try to start it it was told last that its store failed, by how many there were before it.
    told_failed: Option<u64>,
    /// So many of its messages had no frame.
    frameless: u64,
    /// Where it was to be started anew, and hasn't been normal since.
    revival: Option<Revival>,
}

impl Watched {
    /// Notes what changed of it since the last look, as it shows now.
    #[tactic(auto, using(crate::proofs::Noted::both, crate::proofs::Noted::none, crate::proofs::Noted::one))]
    fn look(&mut self, number: u8, shown: Shown, now: Duration, journal: &mut Journal)
        ensures { AreNoted journal.old journal.new }
    {
        self.note_failure(number, shown.has_failed, shown.tries, journal);
        self.note_frames(number, shown.frameless, journal);
        self.note_turn(number, shown.is_normal(), now, journal);
    }

    /// Notes that its store failed, once for each try to start it.
    #[tactic(auto, using(crate::proofs::Noted::both, crate::proofs::Noted::none, crate::proofs::Noted::one))]
    fn note_failure(&mut self, number: u8, has_failed: bool, tries: u64, journal: &mut Journal)
        ensures noted { IsFailureNoted number (is_failure_new self.old.told_failed (failed_at has_failed tries))
            journal.old journal.new }
        ensures told { self.new.told_failed ≡ failed_at has_failed tries }
        ensures notices { AreNoted journal.old journal.new }
    {
        let failed = failed_at(has_failed, tries);
        let is_new = is_failure_new(self.told_failed, failed);
        self.told_failed = failed;
        if is_new {
            journal.put(Notice::Store(number));
        }
    }

    /// Notes that messages of it had no frame, where there are more than at the last look.
    #[tactic(auto, using(crate::proofs::Noted::both, crate::proofs::Noted::none, crate::proofs::Noted::one))]
    fn note_frames(&mut self, number: u8, frameless: u64, journal: &mut Journal)
        ensures noted { AreFramesNoted number (nat_lt self.old.frameless frameless) journal.old journal.new }
        ensures told { self.new.frameless ≡ frameless }
        ensures notices { AreNoted journal.old journal.new }
    {
        let is_new = self.frameless < frameless;
        self.frameless = frameless;
        if is_new {
            journal.put(Notice::NoFrame(number));
        }
    }

    /// Notes that it's down, or normal again, where that is due.
    #[tactic(auto, using(crate::proofs::Noted::both, crate::proofs::Noted::none, crate::proofs::Noted::one))]
    fn note_turn(&mut self, number: u8, is_normal: bool, now: Duration, journal: &mut Journal)
        ensures told { IsTurnNoted number
            (change self.old.seen.is_told_down (option_map as_nanos self.new.seen.since) (as_nanos now))
            journal.old journal.new }
        ensures since { option_map as_nanos self.new.seen.since ≡ lapsed_since
            (option_map as_nanos self.old.seen.since) is_normal (as_nanos now) }
        ensures notices { AreNoted journal.old journal.new }
    {
        self.seen.see(is_normal, now);
        let Some(is_normal) = self.seen.change(now) else {
            return;
        };
        journal.put(turned(number, is_normal));
        self.seen.is_told_down = !is_normal;
    }

    /// Whether it's to be started anew now, as it shows: that was needed some time ago, and it hasn't been normal since.
    /// While it's being started nothing is due.
    fn is_due(&mut self, shown: Shown, is_starting: bool, now: Duration) -> bool
        ensures starting { is_starting ≡ true → (result ≡ false) × (self.new ≡ self.old) }
        ensures well { needs_start shown ≡ false → result ≡ false }
        ensures first { is_starting ≡ false → needs_start shown ≡ true → self.old.revival ≡ None → result ≡ false }
        ensures due { is_starting ≡ false → needs_start shown ≡ true → IfSome self.old.revival
            (λ revival. result ≡ starts_now (option_map as_nanos revival.due) (as_nanos now)) }
    {
        if is_starting {
            return false;
        }
        if !needs_start(shown) {
            if shown.is_normal() {
                self.revival = None;
            }
            return false;
        }
        match &mut self.revival {
            Some(revival) => revival.is_due(now),
            None => {
                self.revival = Some(Revival::new(now));
                false
            }
        }
    }
}

/// At which try to start a replica its store failed, if it did, by how many there were before it.
fn failed_at(has_failed: bool, tries: u64) -> Option<u64>
    ensures { result ≡ failed_at has_failed tries }
{
    if has_failed { Some(tries) } else { None }
}

/// Whether a store failed otherwise than was told, by at which tries.
fn is_failure_new(told: Option<u64>, failed: Option<u64>) -> bool
    ensures { result ≡ is_failure_new told failed }
{
    match (told, failed) {
        (_, None) => false,
        (None, Some(_)) => true,
        (Some(at), Some(tries)) => at != tries,
    }
}

/// Whether a replica is to be started anew, as it shows: nothing is done for it, or its store failed.
fn needs_start(shown: Shown) -> bool
    ensures { result ≡ needs_start shown }
{
    shown.has_failed || !shown.is_served
}

/// What is noted of a replica that is normal again, or down.
fn turned(number: u8, is_normal: bool) -> Notice
    ensures { result ≡ turned number is_normal }
{
    if is_normal {
        Notice::Normal(number)
    } else {
        Notice::Down(number)
    }
}

/// The replicas of a group, watched by the driver's thread.
#[derive(Drop)]
pub(crate) struct Watch {
    replicas: Vec<Watched>,
    /// After so long with fewer than f+1 replicas that are normal the group is lost.
    patience: Duration,
    /// Since when that is so.
    without_majority: Option<Duration>,
}

impl Watch {
    /// Of a group that was not looked at yet, and is lost after so long without a majority.
    pub(crate) fn new(
        alloc: Global,
        config: Config,
        patience: Duration,
    ) -> Result<Watch, AllocError>
        ensures { IfOk result (λ watch. watch.patience ≡ patience) }
    {
        let mut replicas = Vec::new(alloc);
        for _ in 0..config.group_size() {
            replicas.push(Watched {
                seen: Seen {
                    since: None,
                    is_told_down: false,
                },
                told_failed: None,
                frameless: 0,
                revival: None,
            })?;
        }
        Ok(Watch {
            replicas,
            patience,
            without_majority: None,
        })
    }

    /// Notes what changed of a replica since the last look, as it shows now.
    #[tactic(auto, using(crate::proofs::Noted::both, crate::proofs::Noted::none, crate::proofs::Noted::one))]
    pub(crate) fn look_at(&mut self, number: u8, shown: Shown, now: Duration, journal: &mut Journal)
        ensures { AreNoted journal.old journal.new }
    {
        if let Some(watched) = self.replicas.get_mut(usize::from(number)) {
            watched.look(number, shown, now, journal);
        }
    }

    /// Whether the group is lost, by whether a majority is normal now.
    pub(crate) fn is_lost(&mut self, is_majority: bool, now: Duration) -> bool
        ensures since { option_map as_nanos self.new.without_majority ≡ lapsed_since
            (option_map as_nanos self.old.without_majority) is_majority (as_nanos now) }
        ensures lost { result ≡ is_lost (as_nanos self.old.patience) (option_map as_nanos self.new.without_majority)
            (as_nanos now) }
    {
        self.without_majority = lapsed_since(self.without_majority, is_majority, now);
        match self.without_majority {
            Some(since) => now.saturating_sub(since).as_nanos() >= self.patience.as_nanos(),
            None => false,
        }
    }

    /// Whether this replica is to be started anew now, as it shows, by whether it's being started.
    pub(crate) fn is_due(
        &mut self,
        number: u8,
        shown: Shown,
        is_starting: bool,
        now: Duration,
    ) -> bool {
        match self.replicas.get_mut(usize::from(number)) {
            Some(watched) => watched.is_due(shown, is_starting, now),
            None => false,
        }
    }
}
