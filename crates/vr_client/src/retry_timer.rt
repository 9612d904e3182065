//! When a request without a reply is sent again.
ghost use Rattle.std.specs.Prelude.{◌≡◌, option_map};
ghost use Rattle.std.specs.Duration.{as_nanos};
ghost use Rattle.std.specs.Time.{instant_nanos};
ghost use Rattle.vr_client.specs.Client.{asked_at, is_due};

use std::marker::Model;
use std::time::{Duration, Instant};

/// When the request that waits was sent last, and after how long without a reply it's sent again, by one clock.
/// Contracts see both in nanoseconds.
#[derive(Drop)]
pub struct RetryTimer {
    period: Duration,
    sent: Option<Instant>,
}

impl Model for RetryTimer {
    ghost use Rattle.std.specs.Prelude.{option_map};
    ghost use Rattle.std.specs.Duration.{as_nanos};
    ghost use Rattle.std.specs.Time.{instant_nanos};
    ghost use Rattle.vr_client.specs.Client.{Timer};

    ghost Value = { Timer };

    ghost view = { λ t. record { period = as_nanos t.period; sent = option_map instant_nanos t.sent } };
}

impl RetryTimer {
    /// A request was sent at this time, if the clock could be read.
    pub fn new(period: Duration, sent: Option<Instant>) -> RetryTimer
        ensures { result ≡ record { period = as_nanos period; sent = option_map instant_nanos sent } }
    {
        RetryTimer { period, sent }
    }

    /// Whether a period went by since the request was sent last: then it's sent again now. Where it isn't known when it
    /// was sent, it counts as sent now.
    pub fn is_due(&mut self, now: Instant) -> bool
        ensures due { result ≡ is_due self.old (instant_nanos now) }
        ensures asked { self.new ≡ asked_at self.old (instant_nanos now) }
    {
        let Some(sent) = self.sent else {
            self.sent = Some(now);
            return false;
        };
        let silence = now.saturating_duration_since(sent);
        if silence.as_nanos() < self.period.as_nanos() {
            return false;
        }
        self.sent = Some(now);
        true
    }
}
