//! How long rounds took.

ghost use Rattle.std.specs.Prelude.{◌≡◌, ◌<◌};
ghost use Rattle.field_cycle.specs.Spans.{bucket_of, no_span, with_span};
ghost use Rattle.field_cycle.specs.Links.{later};

/// In milliseconds: the longest span of each bucket but the last, which has those above.
pub const BOUNDS: [u64; 12] = [1, 2, 5, 10, 20, 50, 100, 200, 500, 1000, 2000, 5000];

/// So many buckets there are.
pub const BUCKETS: usize = 13;

/// Spans of time, in milliseconds. Where a number would be too great for 64 bits, it's the greatest.
#[derive(Clone, Copy, Debug, PartialEq, Eq)]
pub struct Spans {
    /// How many there are in each bucket.
    pub counts: [u64; BUCKETS],
    /// All of them together.
    pub sum: u64,
    pub last: u64,
    pub longest: u64,
}

/// The bucket of a span.
fn bucket_of(span: u64) -> usize
    ensures value { result ≡ bucket_of span }
    ensures within { result < 13 }
{
    BOUNDS.iter().take_while(|bound| **bound < span).count()
}

impl Spans {
    /// None yet.
    pub fn none() -> Spans
        ensures { result ≡ no_span }
    {
        Spans {
            counts: [0; BUCKETS],
            sum: 0,
            last: 0,
            longest: 0,
        }
    }

    /// One more.
    pub fn add(&mut self, span: u64)
        ensures { self.new ≡ with_span self.old span }
    {
        let bucket = bucket_of(span);
        self.counts[bucket] = self.counts[bucket].saturating_add(1);
        self.sum = self.sum.saturating_add(span);
        self.last = span;
        self.longest = self.longest.max(span);
    }
}
