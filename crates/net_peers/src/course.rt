//! When a connection is dialled, given up, kept alive and ended.

ghost use Rattle.std.specs.Prelude.{◌≡◌, ◌≤◌, ◌<◌, ℕ, IsTrue, ◌↔◌};
ghost use Rattle.net_peers.specs.Courses.{IsFailed, IsNear, IsOpen, WasLong, duty_at, heard_at, pulse_of, sent_at};
ghost use Rattle.net_peers.specs.declared.phase.Phase.TheVariants.{Away, Joining, Open};
ghost use Rattle.net_peers.specs.declared.phase.Duty.TheVariants.{Nothing};

use crate::phase::{Duty, Phase};

/// In milliseconds, as all times here: a dial or a greeting that takes longer is given up.
const JOINING_LIMIT: u64 = 400;

/// The first pause between two dials, and the longest.
const FIRST_PAUSE: u64 = 50;

const LONGEST_PAUSE: u64 = 400;

/// A connection over which nothing came for so long is over.
const SILENCE_LIMIT: u64 = 500;

/// How often an end says that it's there, and how soon it's missed.
#[derive(Clone, Copy, Debug, PartialEq, Eq)]
pub struct Pulse {
    /// An end that sent nothing for so long says that it's there.
    pub beat: u64,
    /// Whoever sent nothing for so long isn't near.
    pub near: u64,
}

impl Pulse {
    /// That of a group whose replicas wait for a sign of their primary for as long as `patience`, and send again after
    /// `resend`: who sent nothing for three fifths of the patience isn't near, and a beat is sent as often as replicas
    /// send again, so that there are two at least within that time. With 100 ms and 25 ms these are 60 and 25.
    pub fn of(patience: u32, resend: u32) -> Pulse
        ensures { result ≡ pulse_of patience resend }
    {
        let near = SILENCE_LIMIT.min(3 * u64::from(patience) / 5);
        Pulse {
            beat: u64::from(resend).min(near / 2),
            near,
        }
    }
}

/// The course of the connections to one party: told what happened and when, it tells what is to be done.
#[derive(Clone, Copy, Debug, PartialEq, Eq)]
pub struct Course {
    pub phase: Phase,
    pub pulse: Pulse,
    /// Between the next dial that fails and the one after it.
    pub pause: u64,
    pub ghost most: { pause ≤ 400 },
}

impl Course {
    /// It's dialled from now on.
    pub fn new(pulse: Pulse, now: u64) -> Course
        ensures phase { result.phase ≡ Away now }
        ensures pulse { result.pulse ≡ pulse }
        ensures pause { result.pause ≡ 50 }
    {
        Course {
            phase: Phase::Away { due: now },
            pulse,
            pause: FIRST_PAUSE,
        }
    }

    /// What is to be done now.
    pub fn duty(&self, now: u64) -> Duty
        ensures { result ≡ duty_at self.now.pulse.beat self.now.phase now }
    {
        match self.phase {
            Phase::Away { due } if due <= now => Duty::Dial,
            Phase::Joining { since } if JOINING_LIMIT <= now.saturating_sub(since) => Duty::GiveUp,
            Phase::Open { heard, .. } if SILENCE_LIMIT <= now.saturating_sub(heard) => Duty::End,
            Phase::Open { sent, .. } if sent.saturating_add(self.pulse.beat) <= now => Duty::Beat,
            _ => Duty::Nothing,
        }
    }

    /// Until when there is nothing to be done.
    pub fn next_due(&self) -> u64
        ensures { (now : ℕ) → now < result → duty_at self.now.pulse.beat self.now.phase now ≡ Nothing }
    {
        match self.phase {
            Phase::Away { due } => due,
            Phase::Joining { since } => since.saturating_add(JOINING_LIMIT),
            Phase::Open { heard, sent, .. } => {
                let end = heard.saturating_add(SILENCE_LIMIT);
                end.min(sent.saturating_add(self.pulse.beat))
            }
        }
    }

    /// It was dialled.
    pub fn dialled(&mut self, now: u64)
        ensures phase { self.new.phase ≡ Joining now }
        ensures same { (self.new.pause ≡ self.old.pause) × (self.new.pulse ≡ self.old.pulse) }
    {
        self.phase = Phase::Joining { since: now };
    }

    /// Its hello was accepted.
    pub fn opened(&mut self, now: u64)
        ensures phase { self.new.phase ≡ Open now now now }
        ensures same { (self.new.pause ≡ self.old.pause) × (self.new.pulse ≡ self.old.pulse) }
    {
        self.phase = Phase::Open {
            since: now,
            heard: now,
            sent: now,
        };
    }

    /// Something came, if it's open.
    pub fn heard(&mut self, now: u64)
        ensures phase { self.new.phase ≡ heard_at self.old.phase now }
        ensures same { (self.new.pause ≡ self.old.pause) × (self.new.pulse ≡ self.old.pulse) }
    {
        if let Phase::Open { since, sent, .. } = self.phase {
            self.phase = Phase::Open {
                since,
                heard: now,
                sent,
            };
        }
    }

    /// Something went, if it's open.
    pub fn sent(&mut self, now: u64)
        ensures phase { self.new.phase ≡ sent_at self.old.phase now }
        ensures same { (self.new.pause ≡ self.old.pause) × (self.new.pulse ≡ self.old.pulse) }
    {
        if let Phase::Open { since, heard, .. } = self.phase {
            self.phase = Phase::Open {
                since,
                heard,
                sent: now,
            };
        }
    }

    /// It's over before it was open for long: it's dialled again after a pause, which doubles, up to the longest.
    pub fn failed(&mut self, now: u64)
        ensures failed { IsFailed self.old.pause self.new.phase self.new.pause now }
        ensures same { self.new.pulse ≡ self.old.pulse }
    {
        self.phase = Phase::Away {
            due: now.saturating_add(self.pause),
        };
        self.pause = (2 * self.pause).min(LONGEST_PAUSE);
    }

    /// It's over: dialled again at once, if it was open for at least as long as a silence may last.
    pub fn closed(&mut self, now: u64)
        ensures long { WasLong self.old.phase now → (self.new.phase ≡ Away now) × (self.new.pause ≡ 50) }
        ensures short { (WasLong self.old.phase now → ⊥) → IsFailed self.old.pause self.new.phase self.new.pause now }
        ensures same { self.new.pulse ≡ self.old.pulse }
    {
        match self.phase {
            Phase::Open { since, .. } if SILENCE_LIMIT <= now.saturating_sub(since) => {
                self.phase = Phase::Away { due: now };
                self.pause = FIRST_PAUSE;
            }
            _ => self.failed(now),
        }
    }

    /// Whether a hello was accepted, and it isn't over.
    pub fn is_open(&self) -> bool
        ensures { IsTrue result ↔ IsOpen self.now.phase }
    {
        matches!(self.phase, Phase::Open { .. })
    }

    /// Whether it's open, and something came within the pulse's `near`.
    pub fn is_near(&self, now: u64) -> bool
        ensures { IsTrue result ↔ IsNear self.now.pulse.near self.now.phase now }
    {
        match self.phase {
            Phase::Open { heard, .. } => now.saturating_sub(heard) < self.pulse.near,
            _ => false,
        }
    }
}
