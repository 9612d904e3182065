//! How long a replica of a group of machines waits for its primary.

ghost use Rattle.std.specs.Prelude.{◌≡◌, ◌<◌, Some, None, false, true, count_ones, option_map};
ghost use Rattle.std.specs.Duration.{as_nanos};
ghost use Rattle.vr_ports.specs.declared.timer.Tick.TheVariants as tick;
ghost use Rattle.vr_threads.specs.declared.patience.Sign.TheVariants as sign;
ghost use Rattle.vr_threads.specs.Patience.{sign_of, wait_behind, GoWith, is_within, has_bit, has_stood, may_change};
ghost use Rattle.vr_threads.specs.Patience.{lacks_primary, is_healing, is_late, is_timeout, begins_anew, group_tick};
ghost use Rattle.vr_threads.specs.Patience.{silent_after, lacking_after, alone_after};

use crate::patience::{Patience, is_over, primary};
use std::time::Duration;
use vr_model::{Config, Message, Standing, Status};
use vr_ports::Tick;

/// The times of a replica in a group of machines.
#[derive(Clone, Copy, Debug, PartialEq, Eq)]
pub struct GroupTimes {
    /// For so long it waits for a sign that its view goes on.
    pub patience: Duration,
    /// It is so long from one time that it sends again to the next.
    pub resend: Duration,
    /// A primary that isn't reached for so long is given up, and one that isn't near where its view has yet to begin.
    pub unreached: Duration,
    /// Behind having been alone it begins no view for so long, unless it hears that its view goes on.
    pub healing: Duration,
    /// Where it wasn't asked for so long it stood still, and what it didn't hear says nothing.
    pub pause: Duration,
    /// Where it wasn't asked for so long it was alone.
    pub absence: Duration,
}

impl GroupTimes {
    /// The times that go with this patience: with 100 ms the others are 40, 400, 50 and 200 ms. `resend` is to be well
    /// below `unreached`.
    pub fn new(patience: Duration, resend: Duration) -> GroupTimes
        ensures { GoWith patience resend result }
    {
        GroupTimes {
            patience,
            resend,
            unreached: patience.saturating_mul(2) / 5,
            healing: patience.saturating_mul(4),
            pause: patience / 2,
            absence: patience.saturating_mul(2),
        }
    }
}

/// Whether it was so then, and that is not so long ago.
fn is_within(time: Duration, then: Option<Duration>, now: Duration) -> bool
    ensures { result ≡ is_within (as_nanos time) (option_map as_nanos then) (as_nanos now) }
{
    match then {
        Some(then) => now.saturating_sub(then).as_nanos() < time.as_nanos(),
        None => false,
    }
}

/// Whether this bit is set.
fn has_bit(mask: u8, bit: u64) -> bool
    ensures { result ≡ has_bit mask bit }
{
    bit < 8 && (mask >> (bit as u32)) % 2 == 1
}

/// What the timer of a replica in a group of machines knows, in times since a beginning.
#[derive(Clone, Copy)]
pub struct GroupPatience {
    patience: Patience,
    times: GroupTimes,
    number: u8,
    /// When it was asked last.
    asked_at: Option<Duration>,
    /// Since when the primary of its view is not reached, or while the view changes not near.
    lacking_since: Option<Duration>,
    /// When it was alone last, where it hasn't heard since that its view goes on.
    alone_at: Option<Duration>,
}

impl GroupPatience {
    /// Of this replica of a group, which is down.
    pub fn new(config: Config, number: u8, times: GroupTimes) -> GroupPatience {
        GroupPatience {
            patience: Patience::new(config, times.patience, times.resend),
            times,
            number,
            asked_at: None,
            lacking_since: None,
            alone_at: None,
        }
    }

    /// What is to be done now, where these replicas of other machines are near and those reached: bit k stands for
    /// replica k. Nothing but a sending again while fewer than f are near, unless it leads.
    pub fn tick(&mut self, now: Duration, near: u8, reached: u8) -> Tick
        ensures tick { result ≡ group_tick self.old now near reached }
        ensures alone { count_ones near < self.old.patience.f → self.old.patience.standing.is_primary ≡ false
            → result ≡ tick.Timeout → ⊥ }
        ensures asked { self.new.asked_at ≡ Some now }
        ensures timeout { is_timeout self.old now near reached ≡ true → (self.new.patience.silent_since ≡ None)
            × (self.new.lacking_since ≡ None) × (self.new.alone_at ≡ None) × (self.new.patience.is_lost ≡ false)
            × (as_nanos self.new.patience.wait
            ≡ wait_behind (as_nanos self.old.patience.longest) (as_nanos self.old.patience.wait)) }
        ensures waits { is_timeout self.old now near reached ≡ false
            → (self.new.patience.silent_since ≡ Some (silent_after self.old now near))
            × (self.new.lacking_since ≡ lacking_after self.old now near reached)
            × (self.new.alone_at ≡ alone_after self.old now near)
            × (self.new.patience.is_lost ≡ self.old.patience.is_lost)
            × (self.new.patience.wait ≡ self.old.patience.wait) }
    {
        if self.is_timeout(now, near, reached) {
            self.asked_at = Some(now);
            self.lacking_since = None;
            self.alone_at = None;
            self.patience.give_up();
            return Tick::Timeout;
        }
        let begins_anew = self.begins_anew(now, near);
        self.lacking_since = self.lacking_after(now, near, reached);
        self.alone_at = self.alone_after(now, near);
        self.asked_at = Some(now);
        if begins_anew {
            self.patience.begin_anew();
        }
        self.patience.go_on(now)
    }

    /// Whether it stood still for so long.
    fn has_stood(&self, time: Duration, now: Duration) -> bool
        ensures { result ≡ has_stood self.now time now }
    {
        is_over(time, self.asked_at, now)
    }

    /// Whether a change of its view could come to something.
    fn may_change(&self, near: u8) -> bool
        ensures { result ≡ may_change self.now near }
    {
        near.count_ones() >= u32::from(self.patience.f) || self.patience.standing.is_primary
    }

    /// Whether the primary of its view, another one, is not there.
    fn lacks_primary(&self, near: u8, reached: u8) -> bool
        ensures { result ≡ lacks_primary self.now near reached }
    {
        let leader = primary(self.patience.f, self.patience.standing.view);
        if leader == u64::from(self.number) {
            return false;
        }
        match self.patience.standing.status {
            Status::Normal => !has_bit(reached, leader),
            Status::ViewChange => !has_bit(near, leader),
            Status::Recovering | Status::Down => false,
        }
    }

    /// Whether it was alone not long ago.
    fn is_healing(&self, now: Duration) -> bool
        ensures { result ≡ is_healing self.now now }
    {
        self.has_stood(self.times.absence, now) || is_within(self.times.healing, self.alone_at, now)
    }

    /// Whether it has waited long enough.
    fn is_late(&self, now: Duration, near: u8, reached: u8) -> bool
        ensures { result ≡ is_late self.now now near reached }
    {
        if self.patience.is_lost {
            return true;
        }
        if self.has_stood(self.times.pause, now) {
            return false;
        }
        self.patience.is_over(now)
            || self.lacks_primary(near, reached)
                && is_over(self.times.unreached, self.lacking_since, now)
    }

    fn is_timeout(&self, now: Duration, near: u8, reached: u8) -> bool
        ensures { result ≡ is_timeout self.now now near reached }
    {
        self.may_change(near) && !self.is_healing(now) && self.is_late(now, near, reached)
    }

    /// Whether what it didn't hear until now says nothing.
    fn begins_anew(&self, now: Duration, near: u8) -> bool
        ensures { result ≡ begins_anew self.now now near }
    {
        self.has_stood(self.times.pause, now) || !self.may_change(near)
    }

    /// Since when its primary is lacking, where it doesn't time out.
    fn lacking_after(&self, now: Duration, near: u8, reached: u8) -> Option<Duration>
        ensures { result ≡ lacking_after self.now now near reached }
    {
        if !self.lacks_primary(near, reached) {
            return None;
        }
        if self.begins_anew(now, near) {
            Some(now)
        } else {
            Some(self.lacking_since.unwrap_or(now))
        }
    }

    /// When it was alone last, where it doesn't time out.
    fn alone_after(&self, now: Duration, near: u8) -> Option<Duration>
        ensures { result ≡ alone_after self.now now near }
    {
        if self.has_stood(self.times.absence, now) || !self.may_change(near) {
            Some(now)
        } else {
            self.alone_at
        }
    }

    /// Takes what a message says.
    pub fn hear(&mut self, message: &Message)
        ensures none { sign_of self.old.patience.f self.old.patience.standing message.now ≡ sign.None
            → self.new ≡ self.old }
        ensures goes_on { sign_of self.old.patience.f self.old.patience.standing message.now ≡ sign.GoesOn
            → (self.new.alone_at ≡ None) × (self.new.patience.silent_since ≡ None)
            × (self.new.patience.wait ≡ self.old.patience.first) }
        ensures lost { sign_of self.old.patience.f self.old.patience.standing message.now ≡ sign.Lost
            → (self.new.alone_at ≡ self.old.alone_at) × (self.new.patience.is_lost ≡ true) }
    {
        if self.patience.hear(message) {
            self.alone_at = None;
        }
    }

    /// The replica is this after a step. In another view or status it waits anew.
    pub fn stand(&mut self, standing: Standing)
        ensures standing { self.new.patience.standing ≡ standing }
        ensures alone { self.new.alone_at ≡ self.old.alone_at }
    {
        if self.patience.has_turned(standing) {
            self.lacking_since = None;
        }
        self.patience.stand(standing);
    }
}
