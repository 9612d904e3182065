//! What a group of a run is.

use il_loader::Image;
use il_model::Budget;
use net_hello::Epoch;
use net_peers::Pulse;
use plc_machine::Pace;
use sim_time::{Draws, MS, micros};
use vr_model::Config;
use vr_threads::GroupTimes;

/// What was asked for of a run; what is none is drawn by its seed.
#[derive(Clone, Copy)]
pub struct Asked {
    /// No faults come.
    pub is_calm: bool,
    /// What happened is printed.
    pub is_told: bool,
    /// Of half of its machines, without the middle one: 1, 2 or 3.
    pub f: Option<u64>,
    /// In milliseconds.
    pub period: Option<u64>,
    /// In microseconds, one way.
    pub latency: Option<u64>,
    /// A checkpoint comes behind so many entries.
    pub every: Option<u64>,
    /// In millionths: so much faster or slower a clock goes at most.
    pub drift: u64,
}

/// A group: times are in microseconds.
#[derive(Clone, Copy)]
pub struct Setup {
    pub seed: u64,
    pub config: Config,
    pub every: u64,
    pub period: u64,
    /// For so long outputs are shown behind their scan.
    pub fresh: u64,
    pub patience: u64,
    pub resend: u64,
    /// One way, and so much more at most.
    pub latency: u64,
    pub jitter: u64,
    pub drift: u64,
    pub is_calm: bool,
    pub is_told: bool,
}

/// What a group runs.
#[derive(Drop)]
pub struct Program {
    pub image: Image,
    pub budget: Budget,
    /// The first one.
    pub epoch: Epoch,
}

/// One of these.
fn drawn(draws: &mut Draws, values: &[u64]) -> u64 {
    let place = draws.below(values.len() as u64);
    let place = usize::try_from(place).unwrap_or(0);
    values.get(place).copied().unwrap_or(1)
}

/// What a seed makes of a group, where that isn't asked for; none where no group is so.
pub fn setup_of(seed: u64, asked: &Asked) -> Option<Setup> {
    let mut draws = Draws::new(seed ^ 0xABCD_EF01);
    let latency = drawn(&mut draws, &[60, 300, 1_500, 5_000, 15_000]);
    let period = drawn(&mut draws, &[20, 50, 100]);
    let every = drawn(&mut draws, &[1, 2, 4, 16, 64]);
    let f = if draws.comes(200) { 2 } else { 1 };
    let latency = asked.latency.unwrap_or(latency);
    let period = asked.period.unwrap_or(period);
    let every = asked.every.unwrap_or(every);
    let f = u8::try_from(asked.f.unwrap_or(f)).unwrap_or(0);
    let config = Config::new(f, u16::try_from(every).unwrap_or(0))?;
    Some(Setup {
        seed,
        config,
        every,
        period: period.saturating_mul(MS),
        fresh: period.saturating_add(40).saturating_mul(MS),
        patience: 100 * MS,
        resend: 25 * MS,
        latency,
        jitter: (latency / 4).saturating_add(20),
        drift: asked.drift,
        is_calm: asked.is_calm,
        is_told: asked.is_told,
    })
}

impl Setup {
    /// How often an end of a connection says that it's there.
    pub fn pulse(&self) -> Pulse {
        let patience = u32::try_from(self.patience / MS).unwrap_or(u32::MAX);
        let resend = u32::try_from(self.resend / MS).unwrap_or(u32::MAX);
        Pulse::of(patience, resend)
    }

    /// By which times its replicas go.
    pub fn times(&self) -> GroupTimes {
        GroupTimes::new(micros(self.patience), micros(self.resend))
    }

    /// By which times its drivers go.
    pub fn pace(&self) -> Pace {
        Pace {
            period: micros(self.period),
            fresh: micros(self.fresh),
        }
    }

    /// So many machines it has.
    pub fn size(&self) -> u8 {
        self.config.group_size()
    }
}
