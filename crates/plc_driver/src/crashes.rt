//! Replicas that crash in turn, where that is asked for.

ghost use Rattle.std.specs.Prelude.{◌≡◌, ◌+◌, ◌-◌, ◌^◌, min, IfNone, IfSome, is_some};
ghost use Rattle.plc_driver.specs.Tending.{crashes_now, turn_behind};

use vr_model::Config;

/// When replicas crash: behind so many releases one does, in turn from replica 0, but not before the one that was
/// restarted last is normal again. Then it crashes behind a later release, and the count of releases begins anew there.
#[derive(Clone, Copy)]
pub(crate) struct Crashes {
    size: u8,
    /// Behind so many releases; none crashes where that isn't asked for.
    every: Option<u32>,
    /// Since the last crash.
    releases: u32,
    next: u8,
    restarted: Option<u8>,
    count: u64,
}

impl Crashes {
    pub(crate) fn new(config: Config, every: Option<u32>) -> Crashes {
        Crashes {
            size: config.group_size(),
            every,
            releases: 0,
            next: 0,
            restarted: None,
            count: 0,
        }
    }

    /// How many there were.
    pub(crate) fn count(&self) -> u64
        ensures { result ≡ self.now.count }
    {
        self.count
    }

    /// The replica that crashed last, if one did.
    pub(crate) fn last(&self) -> Option<u8> {
        self.restarted
    }

    /// Counts a release, by whether the replica that crashed last is normal again: the replica that is to crash behind
    /// it, if one is.
    pub(crate) fn released(&mut self, is_over: bool) -> Option<u8>
        ensures crashes { IfSome result
            (λ number. (number ≡ self.old.next) × (self.new.next ≡ turn_behind self.old.size number)
            × (self.new.count ≡ min (self.old.count + 1) (2 ^ 64 - 1)) × (self.new.releases ≡ 0)) }
        ensures none { IfNone result ((self.new.next ≡ self.old.next) × (self.new.count ≡ self.old.count)
            × (self.new.releases ≡ min (self.old.releases + 1) (2 ^ 32 - 1))) }
        ensures due { is_some result ≡ crashes_now self.old.every (min (self.old.releases + 1) (2 ^ 32 - 1)) is_over }
    {
        self.releases = self.releases.saturating_add(1);
        if !is_due(self.every, self.releases, is_over) {
            return None;
        }
        let number = self.next;
        self.restarted = Some(number);
        self.releases = 0;
        self.next = turn_behind(self.size, number);
        self.count = self.count.saturating_add(1);
        Some(number)
    }
}

/// Whether a replica crashes now.
fn is_due(every: Option<u32>, releases: u32, is_over: bool) -> bool
    ensures { result ≡ crashes_now every releases is_over }
{
    match every {
        Some(every) => releases >= every && is_over,
        None => false,
    }
}

/// The replica behind this one, of so many.
fn turn_behind(size: u8, number: u8) -> u8
    ensures { result ≡ turn_behind size number }
{
    if number < size && size - number > 1 {
        number + 1
    } else {
        0
    }
}
