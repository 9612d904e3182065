//! Times of a run, in microseconds since it began.

ghost use Rattle.std.specs.Prelude.{◌≡◌, ◌*◌, ◌/◌, ◌^◌, ◌<◌};
ghost use Rattle.std.specs.Duration.{as_nanos};

use std::time::Duration;

pub const MS: u64 = 1_000;

pub const SECOND: u64 = 1_000_000;

/// As a program is told it.
pub fn micros(time: u64) -> Duration
    ensures { time * 1000 < 2 ^ 64 → as_nanos result ≡ time * 1000 }
{
    Duration::from_nanos(time.saturating_mul(1000))
}

/// As a run counts it: whole microseconds.
pub fn micros_of(duration: Duration) -> u64
    ensures { as_nanos duration / 1000 < 2 ^ 64 → result ≡ as_nanos duration / 1000 }
{
    u64::try_from(duration.as_nanos() / 1000).unwrap_or(u64::MAX)
}
