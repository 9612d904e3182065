//! The group of a file, as a run has it.

use crate::kinds::Kinds;
use plc_group::Group;
use sim_machine::Setup;
use sim_time::{Draws, MS};

/// In microseconds, one way: a seed draws one of these.
const LATENCIES: [u64; 5] = [60, 300, 1_500, 5_000, 15_000];

/// In millionths: so much faster or slower a clock goes at most.
const DRIFT: u64 = 50;

/// What a segment takes, by a seed: a sixth of the patience at most.
fn latency_of(seed: u64, patience: u64) -> u64 {
    let mut draws = Draws::new(seed ^ 0xABCD_EF01);
    let place = usize::try_from(draws.below(5)).unwrap_or(0);
    let drawn = LATENCIES.get(place).copied().unwrap_or(300);
    drawn.min(patience / 6)
}

/// The group of a file, with what a seed makes of its links.
pub fn setup_of_group(seed: u64, group: &Group, kinds: &Kinds) -> Setup {
    let patience = u64::from(group.times.patience).saturating_mul(MS);
    let latency = latency_of(seed, patience);
    Setup {
        seed,
        config: group.config,
        every: u64::from(group.config.every),
        period: u64::from(group.period).saturating_mul(MS),
        fresh: u64::from(group.times.fresh).saturating_mul(MS),
        patience,
        resend: u64::from(group.times.resend).saturating_mul(MS),
        latency,
        jitter: (latency / 4).saturating_add(20),
        drift: DRIFT,
        is_calm: kinds.is_empty(),
        is_told: false,
    }
}
