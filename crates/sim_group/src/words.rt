//! The words of a call: settings of the runs behind them, and which seeds are run.

use sim_machine::Asked;

/// In seconds: so long a run is where no word says it.
const STANDARD: u64 = 60;

/// In millionths: so much faster or slower a clock goes at most, where no word says it.
const DRIFT: u64 = 50;

/// What the words so far ask for.
#[derive(Clone, Copy)]
pub(crate) struct Words {
    pub(crate) asked: Asked,
    /// In virtual seconds, of each seed.
    pub(crate) seconds: u64,
}

/// What a word says.
#[derive(Clone, Copy)]
pub(crate) enum Said {
    /// These seeds are run now, the last one included.
    Seeds(u64, u64),
    /// It's a setting.
    Set,
    /// It's none of them.
    Unknown,
}

/// The seeds of a word as 1..20, or 7.
fn seeds_in(word: &str) -> Option<(u64, u64)> {
    match word.split_once("..") {
        Some((first, last)) => Some((first.parse().ok()?, last.parse().ok()?)),
        None => {
            let seed = word.parse().ok()?;
            Some((seed, seed))
        }
    }
}

impl Words {
    /// No word came.
    pub(crate) fn new() -> Words {
        Words {
            asked: Asked {
                is_calm: false,
                is_told: false,
                f: None,
                period: None,
                latency: None,
                every: None,
                drift: DRIFT,
            },
            seconds: STANDARD,
        }
    }

    /// A setting as period=50.
    fn set(&mut self, name: &str, number: u64) -> Said {
        match name {
            "f" => self.asked.f = Some(number),
            "period" => self.asked.period = Some(number),
            "latency" => self.asked.latency = Some(number),
            "every" => self.asked.every = Some(number),
            "drift" => self.asked.drift = number,
            "seconds" => self.seconds = number,
            _ => return Said::Unknown,
        }
        Said::Set
    }

    /// Takes a word.
    pub(crate) fn take(&mut self, word: &str) -> Said {
        match word {
            "calm" => self.asked.is_calm = true,
            "faults" => self.asked.is_calm = false,
            "trace" => self.asked.is_told = true,
            _ => {
                if let Some((name, text)) = word.split_once("=") {
                    return match text.parse::<u64>() {
                        Ok(number) => self.set(name, number),
                        Err(_) => Said::Unknown,
                    };
                }
                return match seeds_in(word) {
                    Some((first, last)) => Said::Seeds(first, last),
                    None => Said::Unknown,
                };
            }
        }
        Said::Set
    }
}
