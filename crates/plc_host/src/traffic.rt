//! What clients did, as it's counted.

use crate::requests::{EXCEPTIONS, PLACES, Requests};
use std::array;
use std::sync::atomic::{AtomicU64, Ordering};

/// How many connections were given a session, how many of these ended, and how many requests were answered. Any thread
/// counts and reads. No count falls.
#[derive(Drop)]
pub struct Traffic {
    sessions: AtomicU64,
    ended: AtomicU64,
    functions: [AtomicU64; PLACES],
    exceptions: [AtomicU64; EXCEPTIONS],
}

/// Counts so many more at each place.
fn add(counts: &[AtomicU64], more: &[u64]) {
    for (count, more) in counts.iter().zip(more.iter()) {
        if *more > 0 {
            count.fetch_add(*more, Ordering::SeqCst);
        }
    }
}

/// How many were counted at each place.
fn read(counts: &[AtomicU64], shown: &mut [u64]) {
    for (count, shown) in counts.iter().zip(shown.iter_mut()) {
        *shown = count.load(Ordering::SeqCst);
    }
}

impl Traffic {
    /// Nothing was counted yet.
    pub fn new() -> Traffic {
        Traffic {
            sessions: AtomicU64::new(0),
            ended: AtomicU64::new(0),
            functions: array::from_fn(|_| AtomicU64::new(0)),
            exceptions: array::from_fn(|_| AtomicU64::new(0)),
        }
    }

    /// Counts one session more.
    pub fn begin_session(&self) {
        self.sessions.fetch_add(1, Ordering::SeqCst);
    }

    /// Counts one more that is at its end.
    pub fn end_session(&self) {
        self.ended.fetch_add(1, Ordering::SeqCst);
    }

    /// Counts these requests.
    pub fn add_requests(&self, requests: &Requests) {
        add(&self.functions, &requests.functions);
        add(&self.exceptions, &requests.exceptions);
    }

    /// How many sessions there were so far.
    pub fn sessions(&self) -> u64 {
        self.sessions.load(Ordering::SeqCst)
    }

    /// How many of them aren't at their end.
    pub fn open_sessions(&self) -> u64 {
        let ended = self.ended.load(Ordering::SeqCst);
        self.sessions().saturating_sub(ended)
    }

    /// The requests that were answered so far.
    pub fn requests(&self) -> Requests {
        let mut requests = Requests::none();
        read(&self.functions, &mut requests.functions);
        read(&self.exceptions, &mut requests.exceptions);
        requests
    }
}
