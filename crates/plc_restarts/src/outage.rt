//! How long a controller was out.

ghost use Rattle.std.specs.Prelude.{◌≡◌, IsTrue, ◌↔◌, MatchOption};
ghost use Rattle.plc_restarts.specs.Outages.{HasNoAge, IsAge, IsYoung};

/// When the last scan came in, by what this machine knows.
#[derive(Clone, Copy, Debug, PartialEq, Eq)]
pub enum LastScan {
    /// There was none.
    NoScan,
    /// This process took it up when the machine's own clock showed this, in milliseconds.
    Heard(u64),
    /// An earlier process did. By the wall clock, in milliseconds: the last time that it wrote down, if it wrote one.
    Before(Option<u64>),
}

/// What a machine's clocks show, in milliseconds.
#[derive(Clone, Copy, Debug, PartialEq, Eq)]
pub struct Clocks {
    /// Its own, which no one sets and which begins anew with its process.
    pub own: u64,
    pub wall: u64,
}

/// How old the last scan is, in milliseconds; none where nobody can tell, as where a clock went back.
pub fn age(last: LastScan, now: Clocks) -> Option<u64>
    ensures { MatchOption result (HasNoAge last now) (λ age. IsAge last now age) }
{
    match last {
        LastScan::NoScan | LastScan::Before(None) => None,
        LastScan::Heard(at) => now.own.checked_sub(at),
        LastScan::Before(Some(at)) => now.wall.checked_sub(at),
    }
}

/// Whether the last scan is younger than a limit, in milliseconds: one without an age isn't.
pub fn is_young(limit: u64, last: LastScan, now: Clocks) -> bool
    ensures { IsTrue result ↔ IsYoung limit last now }
{
    match age(last, now) {
        Some(age) => age < limit,
        None => false,
    }
}
