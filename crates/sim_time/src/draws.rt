//! Numbers at random, by a seed.

ghost use Rattle.std.specs.Prelude.{◌<◌, ◌≤◌};

/// Numbers at random: the same seed gives the same ones.
#[derive(Clone, Copy)]
pub struct Draws {
    state: u64,
}

impl Draws {
    /// By this seed.
    pub fn new(seed: u64) -> Draws {
        Draws { state: seed }
    }

    /// The next number: a step of SplitMix64.
    fn next(&mut self) -> u64 {
        self.state = self.state.wrapping_add(0x9E37_79B9_7F4A_7C15);
        let first = (self.state ^ (self.state >> 30)).wrapping_mul(0xBF58_476D_1CE4_E5B9);
        let second = (first ^ (first >> 27)).wrapping_mul(0x94D0_49BB_1331_11EB);
        second ^ (second >> 31)
    }

    /// Below that; 0 where nothing is.
    pub fn below(&mut self, bound: u64) -> u64
        ensures { 0 < bound → result < bound }
    {
        if bound == 0 { 0 } else { self.next() % bound }
    }

    /// From one to the other, both included.
    pub fn between(&mut self, least: u64, most: u64) -> u64
        ensures least { least ≤ result }
        ensures most { least ≤ most → result ≤ most }
    {
        let width = most.saturating_sub(least).saturating_add(1);
        least.saturating_add(self.below(width))
    }

    /// Whether it comes so, of a thousand times so often.
    pub fn comes(&mut self, permille: u64) -> bool {
        self.below(1000) < permille
    }

    /// One of so many machines.
    pub fn machine(&mut self, count: u8) -> u8
        ensures { 0 < count → result < count }
    {
        u8::try_from(self.below(u64::from(count))).unwrap_or(0)
    }
}
