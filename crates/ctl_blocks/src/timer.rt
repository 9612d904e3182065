//! The timers (IEC 61131-3:2003, 2.5.2.3.4): TP gives a pulse, TON delays a rise, TOF delays a fall. Times and moments
//! are in ms. A timer changes at its calls alone.

ghost use Rattle.std.specs.Prelude.{◌≡◌, ◌<◌, ◌^◌, true, ℕ, List, Bool, refl};
ghost use Rattle.il_model.specs.Kinds.{kind_code};
ghost use Rattle.il_model.specs.declared.kind.BlockKind.TheVariants as kinds;
ghost use Rattle.ctl_blocks.specs.Timers.{cold_timer, milliseconds, elapsed_time, resting_timer, running_delay};
ghost use Rattle.ctl_blocks.specs.Timers.{running_pulse, pulse_after, ton_after, tof_after, tp_after, timer_outs};
ghost use Rattle.ctl_blocks.specs.Timers.{timer_words, fits_timer, is_cold_timer, is_running, is_resting};
ghost use Rattle.ctl_blocks.specs.Timers.{ton_holds, tof_holds, tp_holds};

use crate::equations::{BlockState, Equations};
use crate::standard_block::StandardBlock;
use crate::words::{has_bit, high_half, low_half, saved_words};
use il_model::BlockKind;

/// The inputs of a timer.
#[derive(Clone, Copy, PartialEq, Eq)]
pub struct TimerIn {
    /// IN.
    pub input: bool,
    /// The preset time; one below 0 counts as 0.
    pub pt: i32,
}

/// The outputs of a timer.
#[derive(Clone, Copy, Debug, PartialEq, Eq)]
pub struct TimerOut {
    pub q: bool,
    /// The time elapsed, at most the preset time.
    pub et: i32,
}

/// What a timer keeps.
#[derive(Clone, Copy)]
pub struct TimerState {
    /// Called at least once.
    pub called: bool,
    pub q: bool,
    /// IN at the last call.
    pub last: bool,
    /// Whether time elapses.
    pub run: bool,
    pub et: i32,
    pub pt: i32,
    /// The moment at which it began to run; 0 where it doesn't.
    pub start: u64,
}

impl BlockState for TimerState {
    type Out = TimerOut;

    ghost cold_state = { cold_timer };

    ghost outs_of = { timer_outs };

    ghost words_of = { timer_words };

    ghost fits = { fits_timer };

    fn cold() -> TimerState {
        TimerState {
            called: false,
            q: false,
            last: false,
            run: false,
            et: 0,
            pt: 0,
            start: 0,
        }
    }

    fn outs(&self) -> TimerOut {
        TimerOut {
            q: self.q,
            et: self.et,
        }
    }

    fn words(&self) -> [u64; 4] {
        saved_words(
            &[self.called, self.q, self.last, self.run],
            self.pt,
            self.et,
            self.start,
        )
    }

    fn of_words(words: &[u64; 4]) -> TimerState {
        TimerState {
            called: has_bit(words[0], 1),
            q: has_bit(words[0], 2),
            last: has_bit(words[0], 4),
            run: has_bit(words[0], 8),
            et: low_half(words[1]),
            pt: high_half(words[1]),
            start: words[2],
        }
    }
}

fn milliseconds(pt: i32) -> u32
    ensures value { result ≡ milliseconds pt }
    ensures small { result < 2 ^ 31 }
{
    if pt > 0 { pt as u32 } else { 0 }
}

fn elapsed_time(pt: i32, start: u64, now: u64) -> u32
    ensures value { result ≡ elapsed_time pt start now }
    ensures small { result < 2 ^ 31 }
{
    let limit = milliseconds(pt);
    now.saturating_sub(start).min(u64::from(limit)) as u32
}

fn resting_timer(q: bool, input: bool, pt: i32) -> TimerState
    ensures { result ≡ resting_timer q input pt }
{
    TimerState {
        called: true,
        q,
        last: input,
        run: false,
        et: 0,
        pt,
        start: 0,
    }
}

fn running_delay(pt: i32, start: u64, now: u64) -> TimerState
    ensures { result ≡ running_delay pt start now }
{
    let e = elapsed_time(pt, start, now);
    TimerState {
        called: true,
        q: milliseconds(pt) <= e,
        last: true,
        run: true,
        et: e as i32,
        pt,
        start,
    }
}

fn running_pulse(input: bool, pt: i32, start: u64, now: u64) -> TimerState
    ensures { result ≡ running_pulse input pt start now }
{
    let e = elapsed_time(pt, start, now);
    TimerState {
        called: true,
        q: e < milliseconds(pt),
        last: input,
        run: true,
        et: e as i32,
        pt,
        start,
    }
}

fn pulse_after(input: bool, pt: i32, start: u64, now: u64) -> TimerState
    ensures { result ≡ pulse_after input pt start now }
{
    if elapsed_time(pt, start, now) == milliseconds(pt) && !input {
        resting_timer(false, false, pt)
    } else {
        running_pulse(input, pt, start, now)
    }
}

fn is_cold_timer(s: &TimerState) -> bool
    ensures { result ≡ is_cold_timer s.now }
{
    !s.q && !s.last && !s.run && s.et == 0 && s.pt == 0 && s.start == 0
}

fn is_running(s: &TimerState) -> bool
    ensures { result ≡ is_running s.now }
{
    s.et >= 0
        && milliseconds(s.et) <= milliseconds(s.pt)
        && s.start <= u64::MAX - u64::from(milliseconds(s.et))
}

fn is_resting(s: &TimerState) -> bool
    ensures { result ≡ is_resting s.now }
{
    s.et == 0 && s.start == 0
}

/// TP: an edge of IN starts a pulse of PT, which nothing prolongs; Q is TRUE in it, and ET stays at PT until IN is
/// FALSE.
pub type Tp = StandardBlock<Pulse>;

/// The equations of TP.
pub struct Pulse;

impl Equations for Pulse {
    type State = TimerState;

    type In = TimerIn;

    ghost CODE = { kind_code kinds.Tp };

    ghost after = { tp_after };

    ghost holds = { tp_holds };

    const CODE: u8 = BlockKind::Tp as u8;

    fn next(s: &TimerState, i: &TimerIn, now: u64) -> TimerState {
        if s.run {
            pulse_after(i.input, i.pt, s.start, now)
        } else if i.input && !s.last {
            pulse_after(true, i.pt, now, now)
        } else {
            resting_timer(false, i.input, i.pt)
        }
    }

    fn holds(s: &TimerState) -> bool {
        if !s.called {
            is_cold_timer(s)
        } else if s.run {
            is_running(s)
                && s.q == (milliseconds(s.et) < milliseconds(s.pt))
                && (milliseconds(s.et) != milliseconds(s.pt) || s.last)
        } else {
            is_resting(s) && !s.last && !s.q
        }
    }

    ghost cold_holds = { refl };
}

/// TON: Q is TRUE once IN has been TRUE for PT.
pub type Ton = StandardBlock<OnDelay>;

/// The equations of TON.
pub struct OnDelay;

impl Equations for OnDelay {
    type State = TimerState;

    type In = TimerIn;

    ghost CODE = { kind_code kinds.Ton };

    ghost after = { ton_after };

    ghost holds = { ton_holds };

    const CODE: u8 = BlockKind::Ton as u8;

    fn next(s: &TimerState, i: &TimerIn, now: u64) -> TimerState {
        if i.input {
            running_delay(i.pt, if s.last { s.start } else { now }, now)
        } else {
            resting_timer(false, false, i.pt)
        }
    }

    fn holds(s: &TimerState) -> bool {
        if !s.called {
            is_cold_timer(s)
        } else if s.run {
            is_running(s) && s.last && s.q == (milliseconds(s.pt) <= milliseconds(s.et))
        } else {
            is_resting(s) && !s.last && !s.q
        }
    }

    ghost cold_holds = { refl };
}

/// TOF: Q is TRUE while IN is TRUE and for PT after it.
pub type Tof = StandardBlock<OffDelay>;

/// The equations of TOF.
pub struct OffDelay;

impl Equations for OffDelay {
    type State = TimerState;

    type In = TimerIn;

    ghost CODE = { kind_code kinds.Tof };

    ghost after = { tof_after };

    ghost holds = { tof_holds };

    const CODE: u8 = BlockKind::Tof as u8;

    fn next(s: &TimerState, i: &TimerIn, now: u64) -> TimerState {
        if i.input {
            resting_timer(true, true, i.pt)
        } else if s.last {
            running_pulse(false, i.pt, now, now)
        } else if s.run {
            running_pulse(false, i.pt, s.start, now)
        } else {
            resting_timer(false, false, i.pt)
        }
    }

    fn holds(s: &TimerState) -> bool {
        if !s.called {
            is_cold_timer(s)
        } else if s.run {
            is_running(s) && !s.last && s.q == (milliseconds(s.et) < milliseconds(s.pt))
        } else {
            is_resting(s) && s.q == s.last
        }
    }

    ghost cold_holds = { refl };
}
