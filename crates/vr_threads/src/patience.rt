//! How long a replica waits for its primary, by what it hears.

ghost use Rattle.std.specs.Prelude.{◌≡◌, ◌↔◌, option_map, unwrap_or, None, Some, IsFalse, false, true};
ghost use Rattle.std.specs.Duration.{as_nanos};
ghost use Rattle.vr_model.specs.Groups.{primary};
ghost use Rattle.vr_ports.specs.declared.timer.Tick.TheVariants as tick;
ghost use Rattle.vr_threads.specs.declared.patience.Sign.TheVariants as sign;
ghost use Rattle.vr_threads.specs.Patience.{is_over, resend_at, sign_of, tick_at, wait_behind};

use std::time::Duration;
use vr_model::{Body, Config, Message, Party, Standing, Status};
use vr_ports::Tick;

/// What a message says of the view that a replica is in.
#[derive(Clone, Copy, Debug, PartialEq, Eq)]
pub(crate) enum Sign {
    /// Nothing of it.
    None,
    /// The view goes on, or a later one.
    GoesOn,
    /// This replica follows the one that hears it.
    Follows(u8),
    /// The primary came up again, with nothing of the view.
    Lost,
}

/// What a message says in a group for f failures, by what the replica is that hears it.
fn sign_of(f: u8, standing: Standing, message: &Message) -> Sign
    ensures { result ≡ sign_of f standing message.now }
{
    let Party::Replica(sender) = message.from else {
        return Sign::None;
    };
    match message.body {
        Body::Prepare { view, .. }
        | Body::Commit { view, .. }
        | Body::StartView { view, .. }
        | Body::NewState { view, .. }
            if standing.view <= view => { Sign::GoesOn }
        Body::PrepareOk { view, .. } if standing.is_primary && view == standing.view => {
            Sign::Follows(sender)
        }
        Body::Recovery { .. }
            if standing.status == Status::Normal
                && u64::from(sender) == primary(f, standing.view) => { Sign::Lost }
        _ => Sign::None,
    }
}

/// The primary of a view, in a group for f failures.
pub(crate) fn primary(f: u8, view: u64) -> u64
    ensures { result ≡ primary f view }
{
    view % (2 * u64::from(f) + 1)
}

/// Whether so much time went by since then.
pub(crate) fn is_over(time: Duration, since: Option<Duration>, now: Duration) -> bool
    ensures { result ≡ is_over (as_nanos time) (option_map as_nanos since) (as_nanos now) }
{
    match since {
        Some(since) => now.saturating_sub(since).as_nanos() >= time.as_nanos(),
        None => false,
    }
}

/// What a replica's timer knows, in times since a beginning.
#[derive(Clone, Copy)]
pub(crate) struct Patience {
    /// So many replicas of the group may fail.
    pub(crate) f: u8,
    /// How long it waits in a view that comes behind one that went on.
    first: Duration,
    /// How long it waits at most.
    longest: Duration,
    /// How long it waits in this view.
    wait: Duration,
    /// Since when nothing showed that the view goes on: not known before the next look.
    silent_since: Option<Duration>,
    /// How long it is from one time that it sends again to the next.
    pause: Duration,
    /// When it sent again: not known before the next look.
    resent_at: Option<Duration>,
    /// What the replica is.
    pub(crate) standing: Standing,
    /// Which replicas it heard follow it since enough did: bit k is replica k.
    followers: u8,
    /// Whether its primary has lost the view.
    pub(crate) is_lost: bool,
}

impl Patience {
    /// Of a replica that is down.
    pub(crate) fn new(config: Config, first: Duration, pause: Duration) -> Patience {
        Patience {
            f: config.f,
            first,
            longest: first.saturating_mul(16),
            wait: first,
            silent_since: None,
            pause,
            resent_at: None,
            standing: Standing {
                status: Status::Down,
                view: 0,
                is_primary: false,
            },
            followers: 0,
            is_lost: false,
        }
    }

    /// What is to be done now: a timeout where the primary is lost, or nothing showed for as long as is waited; else
    /// what may be lost is sent again. Behind either its time begins anew with the next look, so with what the step
    /// took; and behind a timeout it waits longer.
    pub(crate) fn tick(&mut self, now: Duration) -> Tick
        ensures tick { result ≡ tick_at self.old.is_lost (as_nanos self.old.wait)
            (option_map as_nanos self.old.silent_since) (as_nanos self.old.pause)
            (option_map as_nanos self.old.resent_at) (as_nanos now) }
        ensures timeout { result ≡ tick.Timeout → (self.new.silent_since ≡ None) × (self.new.is_lost ≡ false)
            × (as_nanos self.new.wait ≡ wait_behind (as_nanos self.old.longest) (as_nanos self.old.wait)) }
        ensures resend { result ≡ tick.Resend → (self.new.resent_at ≡ None) × (self.new.wait ≡ self.old.wait) }
        ensures none { result ≡ tick.None → self.new.wait ≡ self.old.wait }
    {
        if self.is_lost || self.is_over(now) {
            self.give_up();
            return Tick::Timeout;
        }
        self.go_on(now)
    }

    /// Whether nothing showed for as long as is waited that its view goes on.
    pub(crate) fn is_over(&self, now: Duration) -> bool
        ensures { result ≡ is_over (as_nanos self.now.wait) (option_map as_nanos self.now.silent_since)
            (as_nanos now) }
    {
        is_over(self.wait, self.silent_since, now)
    }

    /// It times out: its time begins anew with the next look, and it waits longer.
    pub(crate) fn give_up(&mut self)
        ensures anew { (self.new.silent_since ≡ None) × (self.new.is_lost ≡ false) }
        ensures longer { as_nanos self.new.wait ≡ wait_behind (as_nanos self.old.longest) (as_nanos self.old.wait) }
    {
        self.silent_since = None;
        self.is_lost = false;
        self.wait = wait_behind(self.longest, self.wait);
    }

    /// It doesn't time out: what may be lost is sent again, where that's due.
    pub(crate) fn go_on(&mut self, now: Duration) -> Tick
        ensures tick { result ≡ resend_at (as_nanos self.old.pause) (option_map as_nanos self.old.resent_at)
            (as_nanos now) }
        ensures silent { self.new.silent_since ≡ Some (unwrap_or self.old.silent_since now) }
        ensures resend { result ≡ tick.Resend → self.new.resent_at ≡ None }
        ensures kept { (self.new.wait ≡ self.old.wait) × (self.new.is_lost ≡ self.old.is_lost) }
    {
        self.silent_since = Some(self.silent_since.unwrap_or(now));
        if is_over(self.pause, self.resent_at, now) {
            self.resent_at = None;
            return Tick::Resend;
        }
        self.resent_at = Some(self.resent_at.unwrap_or(now));
        Tick::None
    }

    /// What it didn't hear so far says nothing: its time begins anew with the next look.
    pub(crate) fn begin_anew(&mut self)
        ensures { self.new ≡ record self.old { silent_since = None } }
    {
        self.silent_since = None;
    }

    /// Takes what a message says: whether its view goes on by that.
    pub(crate) fn hear(&mut self, message: &Message) -> bool
        ensures none { sign_of self.old.f self.old.standing message.now ≡ sign.None
            → (result ≡ false) × (self.new ≡ self.old) }
        ensures goes_on { sign_of self.old.f self.old.standing message.now ≡ sign.GoesOn
            → (result ≡ true) × (self.new.silent_since ≡ None) × (self.new.wait ≡ self.old.first) }
        ensures lost { sign_of self.old.f self.old.standing message.now ≡ sign.Lost
            → (result ≡ false) × (self.new ≡ record self.old { is_lost = true }) }
    {
        match sign_of(self.f, self.standing, message) {
            Sign::None => false,
            Sign::GoesOn => {
                self.begin();
                true
            }
            Sign::Follows(sender) => self.follow(sender),
            Sign::Lost => {
                self.is_lost = true;
                false
            }
        }
    }

    /// The view goes on.
    fn begin(&mut self)
        ensures { (self.new.silent_since ≡ None) × (self.new.wait ≡ self.old.first) }
    {
        self.silent_since = None;
        self.wait = self.first;
        self.followers = 0;
        self.is_lost = false;
    }

    /// A replica follows: the view goes on once f of them did since it went on last, since that is how many a primary
    /// needs to commit anything. Whether it goes on.
    fn follow(&mut self, sender: u8) -> bool {
        self.followers |= 1u8.checked_shl(u32::from(sender)).unwrap_or(0);
        let goes_on = self.followers.count_ones() >= u32::from(self.f);
        if goes_on {
            self.begin();
        }
        goes_on
    }

    /// Whether this is another view, or another status, than it knows of.
    pub(crate) fn has_turned(&self, standing: Standing) -> bool
        ensures { IsFalse result ↔ (standing.view ≡ self.now.standing.view)
            × (standing.status ≡ self.now.standing.status) }
    {
        standing.view != self.standing.view || standing.status != self.standing.status
    }

    /// The replica is this after a step. In another view or status it waits anew. While it takes part in none, no view
    /// that doesn't begin counts.
    pub(crate) fn stand(&mut self, standing: Standing)
        ensures standing { self.new.standing ≡ standing }
    {
        if self.has_turned(standing) {
            self.silent_since = None;
            self.followers = 0;
        }
        if matches!(standing.status, Status::Recovering | Status::Down) {
            self.wait = self.first;
        }
        self.standing = standing;
    }
}

/// How long is waited behind so long a wait in a view that did not begin.
fn wait_behind(longest: Duration, wait: Duration) -> Duration
    ensures { as_nanos result ≡ wait_behind (as_nanos longest) (as_nanos wait) }
{
    let twice = wait.saturating_add(wait);
    if twice.as_nanos() < longest.as_nanos() {
        twice
    } else {
        longest
    }
}
