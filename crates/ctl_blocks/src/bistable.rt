//! The bistable blocks (IEC 61131-3:2003, 2.5.2.3.1): SR, in which setting wins, and RS, in which resetting wins.

ghost use Rattle.std.specs.Prelude.{◌≡◌, true, ℕ, List, Bool, refl};
ghost use Rattle.il_model.specs.Kinds.{kind_code};
ghost use Rattle.il_model.specs.declared.kind.BlockKind.TheVariants as kinds;
ghost use Rattle.ctl_blocks.specs.Bistables.{cold_bistable, sr_after, rs_after, bistable_outs, bistable_words};
ghost use Rattle.ctl_blocks.specs.Bistables.{is_bistable};

use crate::equations::{BlockState, Equations};
use crate::standard_block::StandardBlock;
use crate::words::{has_bit, saved_words};
use il_model::BlockKind;

/// The inputs of SR.
#[derive(Clone, Copy, PartialEq, Eq)]
pub struct SrIn {
    pub s1: bool,
    pub r: bool,
}

/// The inputs of RS.
#[derive(Clone, Copy, PartialEq, Eq)]
pub struct RsIn {
    pub s: bool,
    pub r1: bool,
}

/// The output of SR and RS.
#[derive(Clone, Copy, Debug, PartialEq, Eq)]
pub struct BistableOut {
    pub q1: bool,
}

/// What SR and RS keep.
#[derive(Clone, Copy)]
pub struct BistableState {
    /// Called at least once.
    pub called: bool,
    pub q1: bool,
}

impl BlockState for BistableState {
    type Out = BistableOut;

    ghost cold_state = { cold_bistable };

    ghost outs_of = { bistable_outs };

    ghost words_of = { bistable_words };

    ghost fits = { λ s. true };

    fn cold() -> BistableState {
        BistableState {
            called: false,
            q1: false,
        }
    }

    fn outs(&self) -> BistableOut {
        BistableOut { q1: self.q1 }
    }

    fn words(&self) -> [u64; 4] {
        saved_words(&[self.called, self.q1], 0, 0, 0)
    }

    fn of_words(words: &[u64; 4]) -> BistableState {
        BistableState {
            called: has_bit(words[0], 1),
            q1: has_bit(words[0], 2),
        }
    }
}

/// SR: S1 sets Q1, also where R is TRUE.
pub type Sr = StandardBlock<SetDominant>;

/// The equations of SR.
pub struct SetDominant;

impl Equations for SetDominant {
    type State = BistableState;

    type In = SrIn;

    ghost CODE = { kind_code kinds.Sr };

    ghost after = { λ s i now. sr_after s i };

    ghost holds = { is_bistable };

    const CODE: u8 = BlockKind::Sr as u8;

    fn next(s: &BistableState, i: &SrIn, _now: u64) -> BistableState {
        BistableState {
            called: true,
            q1: i.s1 || (!i.r && s.q1),
        }
    }

    fn holds(s: &BistableState) -> bool {
        s.called || !s.q1
    }

    ghost cold_holds = { refl };
}

/// RS: R1 resets Q1, also where S is TRUE.
pub type Rs = StandardBlock<ResetDominant>;

/// The equations of RS.
pub struct ResetDominant;

impl Equations for ResetDominant {
    type State = BistableState;

    type In = RsIn;

    ghost CODE = { kind_code kinds.Rs };

    ghost after = { λ s i now. rs_after s i };

    ghost holds = { is_bistable };

    const CODE: u8 = BlockKind::Rs as u8;

    fn next(s: &BistableState, i: &RsIn, _now: u64) -> BistableState {
        BistableState {
            called: true,
            q1: !i.r1 && (i.s || s.q1),
        }
    }

    fn holds(s: &BistableState) -> bool {
        s.called || !s.q1
    }

    ghost cold_holds = { refl };
}
