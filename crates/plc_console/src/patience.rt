//! How long a command may wait for its answer.

use il_model::{Command, is_long_image};
use std::sync::Arc;
use std::sync::atomic::{AtomicBool, Ordering};
use std::time::{Clock, Duration, Instant};

/// In seconds: a command is given up after so long without a majority, in which nothing can answer it.
const LONGEST: u64 = 10;

/// In seconds: a change to a long image is sent again after so long at the least. Replicas read it for longer than any
/// other command, and as often as it was sent meanwhile it waits in memory.
const LEAST: u64 = 1;

/// How long a client waits: after each period it asks again, for a change to a long image after a second at the least,
/// and where there's no majority it gives up after a while.
#[derive(Drop)]
pub struct Patience {
    period: Duration,
    /// Set while there's no majority, as whoever hears the group says.
    has_no_majority: Option<Arc<AtomicBool>>,
    /// From when on there has been none, while a command waits.
    since: Option<Instant>,
    /// So often the client may still start again.
    starts: u16,
}

impl Patience {
    /// After each period without an answer a command is sent again, a change to a long image after a second at the
    /// least. None is given up.
    pub fn new(period: Duration) -> Patience {
        Patience {
            period,
            has_no_majority: None,
            since: None,
            starts: u16::MAX,
        }
    }

    /// The same, and one is given up that waits while this is set for 10 s.
    pub(crate) fn minding(self, has_no_majority: Arc<AtomicBool>) -> Patience {
        Patience {
            has_no_majority: Some(has_no_majority),
            ..self
        }
    }

    /// After how long without an answer this command is sent again.
    pub(crate) fn period(&self, command: &Command) -> Duration {
        let least = Duration::from_secs(LEAST);
        if is_long(command) && self.period.as_nanos() < least.as_nanos() {
            least
        } else {
            self.period
        }
    }

    /// Whether there's no majority now.
    pub(crate) fn has_no_majority(&self) -> bool {
        match &self.has_no_majority {
            Some(flag) => flag.load(Ordering::SeqCst),
            None => false,
        }
    }

    /// A command begins to wait.
    pub(crate) fn begin(&mut self) {
        self.since = None;
    }

    /// Whether the command that waits is to be given up.
    pub(crate) fn is_at_its_end<R: Clock>(&mut self, rt: &R) -> bool {
        if !self.has_no_majority() {
            self.since = None;
            return false;
        }
        let Ok(now) = Instant::now(rt) else {
            return false;
        };
        match self.since {
            Some(since) => now.saturating_duration_since(since) >= Duration::from_secs(LONGEST),
            None => {
                self.since = Some(now);
                false
            }
        }
    }

    /// Whether the client may start again, which counts as one of its starts: their numbers are told apart up to here.
    pub(crate) fn may_start_again(&mut self) -> bool {
        match self.starts.checked_sub(1) {
            Some(left) => {
                self.starts = left;
                true
            }
            None => false,
        }
    }
}

/// Whether a command is a change to a long image.
fn is_long(command: &Command) -> bool {
    match command {
        Command::Change(image) => is_long_image(image.as_slice()),
        _ => false,
    }
}
