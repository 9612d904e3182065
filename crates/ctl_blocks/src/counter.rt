//! The counters (IEC 61131-3:2003, 2.5.2.3.3): CTU counts up, CTD down, CTUD both ways.

ghost use Rattle.std.specs.Prelude.{◌≡◌, true, ℕ, List, Bool, refl};
ghost use Rattle.il_model.specs.Kinds.{kind_code};
ghost use Rattle.il_model.specs.declared.kind.BlockKind.TheVariants as kinds;
ghost use Rattle.ctl_blocks.specs.Counters.{cold_counter, cold_ctud, one_up, one_down, moved_count, ctu_count};
ghost use Rattle.ctl_blocks.specs.Counters.{ctd_count, ctud_count, ctu_after, ctd_after, ctud_after, counter_outs};
ghost use Rattle.ctl_blocks.specs.Counters.{ctud_outs, counter_words, ctud_words, fits_counter, fits_ctud};
ghost use Rattle.ctl_blocks.specs.Counters.{is_cold_counter, is_cold_ctud, ctu_holds, ctd_holds, ctud_holds};

use crate::equations::{BlockState, Equations};
use crate::standard_block::StandardBlock;
use crate::words::{has_bit, high_half, int_or_zero, low_half, saved_words};
use il_model::BlockKind;

/// The inputs of CTU.
#[derive(Clone, Copy, PartialEq, Eq)]
pub struct CtuIn {
    pub cu: bool,
    pub r: bool,
    pub pv: i16,
}

/// The inputs of CTD.
#[derive(Clone, Copy, PartialEq, Eq)]
pub struct CtdIn {
    pub cd: bool,
    pub ld: bool,
    pub pv: i16,
}

/// The inputs of CTUD.
#[derive(Clone, Copy, PartialEq, Eq)]
pub struct CtudIn {
    pub cu: bool,
    pub cd: bool,
    pub r: bool,
    pub ld: bool,
    pub pv: i16,
}

/// The outputs of CTU and CTD.
#[derive(Clone, Copy, Debug, PartialEq, Eq)]
pub struct CounterOut {
    pub q: bool,
    pub cv: i16,
}

/// The outputs of CTUD.
#[derive(Clone, Copy, Debug, PartialEq, Eq)]
pub struct CtudOut {
    pub qu: bool,
    pub qd: bool,
    pub cv: i16,
}

/// What CTU and CTD keep.
#[derive(Clone, Copy)]
pub struct CounterState {
    /// Called at least once.
    pub called: bool,
    pub q: bool,
    /// CU or CD at the last call.
    pub last: bool,
    pub cv: i16,
    pub pv: i16,
}

/// What CTUD keeps.
#[derive(Clone, Copy)]
pub struct CtudState {
    /// Called at least once.
    pub called: bool,
    pub qu: bool,
    pub qd: bool,
    /// CU at the last call.
    pub last_up: bool,
    /// CD at the last call.
    pub last_down: bool,
    pub cv: i16,
    pub pv: i16,
}

impl BlockState for CounterState {
    type Out = CounterOut;

    ghost cold_state = { cold_counter };

    ghost outs_of = { counter_outs };

    ghost words_of = { counter_words };

    ghost fits = { fits_counter };

    fn cold() -> CounterState {
        CounterState {
            called: false,
            q: false,
            last: false,
            cv: 0,
            pv: 0,
        }
    }

    fn outs(&self) -> CounterOut {
        CounterOut {
            q: self.q,
            cv: self.cv,
        }
    }

    fn words(&self) -> [u64; 4] {
        saved_words(
            &[self.called, self.q, self.last],
            i32::from(self.pv),
            i32::from(self.cv),
            0,
        )
    }

    fn of_words(words: &[u64; 4]) -> CounterState {
        CounterState {
            called: has_bit(words[0], 1),
            q: has_bit(words[0], 2),
            last: has_bit(words[0], 4),
            cv: int_or_zero(low_half(words[1])),
            pv: int_or_zero(high_half(words[1])),
        }
    }
}

impl BlockState for CtudState {
    type Out = CtudOut;

    ghost cold_state = { cold_ctud };

    ghost outs_of = { ctud_outs };

    ghost words_of = { ctud_words };

    ghost fits = { fits_ctud };

    fn cold() -> CtudState {
        CtudState {
            called: false,
            qu: false,
            qd: false,
            last_up: false,
            last_down: false,
            cv: 0,
            pv: 0,
        }
    }

    fn outs(&self) -> CtudOut {
        CtudOut {
            qu: self.qu,
            qd: self.qd,
            cv: self.cv,
        }
    }

    fn words(&self) -> [u64; 4] {
        saved_words(
            &[self.called, self.qu, self.qd, self.last_up, self.last_down],
            i32::from(self.pv),
            i32::from(self.cv),
            0,
        )
    }

    fn of_words(words: &[u64; 4]) -> CtudState {
        CtudState {
            called: has_bit(words[0], 1),
            qu: has_bit(words[0], 2),
            qd: has_bit(words[0], 4),
            last_up: has_bit(words[0], 8),
            last_down: has_bit(words[0], 16),
            cv: int_or_zero(low_half(words[1])),
            pv: int_or_zero(high_half(words[1])),
        }
    }
}

fn one_up(cv: i16) -> i16
    ensures { result ≡ one_up cv }
{
    if cv < i16::MAX { cv + 1 } else { cv }
}

fn one_down(cv: i16) -> i16
    ensures { result ≡ one_down cv }
{
    if cv > i16::MIN { cv - 1 } else { cv }
}

fn is_cold_counter(s: &CounterState) -> bool
    ensures { result ≡ is_cold_counter s.now }
{
    !s.q && !s.last && s.cv == 0 && s.pv == 0
}

fn is_cold_ctud(s: &CtudState) -> bool
    ensures { result ≡ is_cold_ctud s.now }
{
    !s.qu && !s.qd && !s.last_up && !s.last_down && s.cv == 0 && s.pv == 0
}

fn ctu_count(s: &CounterState, i: &CtuIn) -> i16
    ensures { result ≡ ctu_count s.now i.now }
{
    if i.r {
        0
    } else if i.cu && !s.last {
        one_up(s.cv)
    } else {
        s.cv
    }
}

/// CTU: an edge of CU counts up to 32767, R sets CV to 0, Q says that CV has reached PV.
pub type Ctu = StandardBlock<UpCounter>;

/// The equations of CTU.
pub struct UpCounter;

impl Equations for UpCounter {
    type State = CounterState;

    type In = CtuIn;

    ghost CODE = { kind_code kinds.Ctu };

    ghost after = { λ s i now. ctu_after s i };

    ghost holds = { ctu_holds };

    const CODE: u8 = BlockKind::Ctu as u8;

    fn next(s: &CounterState, i: &CtuIn, _now: u64) -> CounterState {
        let cv = ctu_count(s, i);
        CounterState {
            called: true,
            q: cv >= i.pv,
            last: i.cu,
            cv,
            pv: i.pv,
        }
    }

    fn holds(s: &CounterState) -> bool {
        if s.called {
            s.q == (s.cv >= s.pv) && s.cv >= 0
        } else {
            is_cold_counter(s)
        }
    }

    ghost cold_holds = { refl };
}

fn ctd_count(s: &CounterState, i: &CtdIn) -> i16
    ensures { result ≡ ctd_count s.now i.now }
{
    if i.ld {
        i.pv
    } else if i.cd && !s.last {
        one_down(s.cv)
    } else {
        s.cv
    }
}

/// CTD: an edge of CD counts down to -32768, LD sets CV to PV, Q says that CV is 0 or less.
pub type Ctd = StandardBlock<DownCounter>;

/// The equations of CTD.
pub struct DownCounter;

impl Equations for DownCounter {
    type State = CounterState;

    type In = CtdIn;

    ghost CODE = { kind_code kinds.Ctd };

    ghost after = { λ s i now. ctd_after s i };

    ghost holds = { ctd_holds };

    const CODE: u8 = BlockKind::Ctd as u8;

    fn next(s: &CounterState, i: &CtdIn, _now: u64) -> CounterState {
        let cv = ctd_count(s, i);
        CounterState {
            called: true,
            q: cv <= 0,
            last: i.cd,
            cv,
            pv: i.pv,
        }
    }

    fn holds(s: &CounterState) -> bool {
        if s.called {
            s.q == (s.cv <= 0)
        } else {
            is_cold_counter(s)
        }
    }

    ghost cold_holds = { refl };
}

fn moved_count(rises: bool, falls: bool, cv: i16) -> i16
    ensures { result ≡ moved_count rises falls cv }
{
    match (rises, falls) {
        (true, true) => cv,
        (true, false) => one_up(cv),
        (false, true) => one_down(cv),
        (false, false) => cv,
    }
}

fn ctud_count(s: &CtudState, i: &CtudIn) -> i16
    ensures { result ≡ ctud_count s.now i.now }
{
    if i.r {
        0
    } else if i.ld {
        i.pv
    } else {
        moved_count(i.cu && !s.last_up, i.cd && !s.last_down, s.cv)
    }
}

/// CTUD: counts up at an edge of CU and down at one of CD, neither at both; R wins over LD, and LD over edges.
pub type Ctud = StandardBlock<UpDownCounter>;

/// The equations of CTUD.
pub struct UpDownCounter;

impl Equations for UpDownCounter {
    type State = CtudState;

    type In = CtudIn;

    ghost CODE = { kind_code kinds.Ctud };

    ghost after = { λ s i now. ctud_after s i };

    ghost holds = { ctud_holds };

    const CODE: u8 = BlockKind::Ctud as u8;

    fn next(s: &CtudState, i: &CtudIn, _now: u64) -> CtudState {
        let cv = ctud_count(s, i);
        CtudState {
            called: true,
            qu: cv >= i.pv,
            qd: cv <= 0,
            last_up: i.cu,
            last_down: i.cd,
            cv,
            pv: i.pv,
        }
    }

    fn holds(s: &CtudState) -> bool {
        if s.called {
            s.qu == (s.cv >= s.pv) && s.qd == (s.cv <= 0)
        } else {
            is_cold_ctud(s)
        }
    }

    ghost cold_holds = { refl };
}
