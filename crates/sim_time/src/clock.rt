//! Clocks that go fast or slow.

/// A clock that goes fast or slow by so many millionths, and began then: times are in microseconds.
#[derive(Clone, Copy)]
pub struct Clock {
    pub began: u64,
    pub millionths: u64,
    pub is_fast: bool,
}

impl Clock {
    /// Its time, since it began.
    pub fn local(&self, now: u64) -> u64 {
        let since = now.saturating_sub(self.began);
        let apart = (since / 1000).saturating_mul(self.millionths) / 1000;
        if self.is_fast {
            since.saturating_add(apart)
        } else {
            since.saturating_sub(apart)
        }
    }
}
