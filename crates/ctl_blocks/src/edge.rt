//! The edge detectors (IEC 61131-3:2003, 2.5.2.3.2): R_TRIG for rising edges, F_TRIG for falling ones.

ghost use Rattle.std.specs.Prelude.{◌≡◌, true, ℕ, List, Bool, refl};
ghost use Rattle.il_model.specs.Kinds.{kind_code};
ghost use Rattle.il_model.specs.declared.kind.BlockKind.TheVariants as kinds;
ghost use Rattle.ctl_blocks.specs.Edges.{cold_edge, r_trig_after, f_trig_after, edge_outs, edge_words, is_edge};

use crate::equations::{BlockState, Equations};
use crate::standard_block::StandardBlock;
use crate::words::{has_bit, saved_words};
use il_model::BlockKind;

/// The input of R_TRIG and F_TRIG.
#[derive(Clone, Copy, PartialEq, Eq)]
pub struct EdgeIn {
    pub clk: bool,
}

/// The output of R_TRIG and F_TRIG.
#[derive(Clone, Copy, Debug, PartialEq, Eq)]
pub struct EdgeOut {
    pub q: bool,
}

/// What R_TRIG and F_TRIG keep.
#[derive(Clone, Copy)]
pub struct EdgeState {
    /// Called at least once.
    pub called: bool,
    pub q: bool,
    /// CLK at the last call; of F_TRIG its negation.
    pub m: bool,
}

impl BlockState for EdgeState {
    type Out = EdgeOut;

    ghost cold_state = { cold_edge };

    ghost outs_of = { edge_outs };

    ghost words_of = { edge_words };

    ghost fits = { λ s. true };

    fn cold() -> EdgeState {
        EdgeState {
            called: false,
            q: false,
            m: false,
        }
    }

    fn outs(&self) -> EdgeOut {
        EdgeOut { q: self.q }
    }

    fn words(&self) -> [u64; 4] {
        saved_words(&[self.called, self.q, self.m], 0, 0, 0)
    }

    fn of_words(words: &[u64; 4]) -> EdgeState {
        EdgeState {
            called: has_bit(words[0], 1),
            q: has_bit(words[0], 2),
            m: has_bit(words[0], 4),
        }
    }
}

fn is_edge(s: &EdgeState) -> bool
    ensures { result ≡ is_edge s.now }
{
    if s.called { !s.q || s.m } else { !s.q && !s.m }
}

/// R_TRIG: Q where CLK is TRUE and was FALSE at the last call.
pub type RTrig = StandardBlock<RisingEdge>;

/// The equations of R_TRIG.
pub struct RisingEdge;

impl Equations for RisingEdge {
    type State = EdgeState;

    type In = EdgeIn;

    ghost CODE = { kind_code kinds.RTrig };

    ghost after = { λ s i now. r_trig_after s i };

    ghost holds = { is_edge };

    const CODE: u8 = BlockKind::RTrig as u8;

    fn next(s: &EdgeState, i: &EdgeIn, _now: u64) -> EdgeState {
        EdgeState {
            called: true,
            q: i.clk && !s.m,
            m: i.clk,
        }
    }

    fn holds(s: &EdgeState) -> bool {
        is_edge(s)
    }

    ghost cold_holds = { refl };
}

/// F_TRIG: Q where CLK is FALSE and was TRUE at the last call, or at a first call where CLK is FALSE.
pub type FTrig = StandardBlock<FallingEdge>;

/// The equations of F_TRIG.
pub struct FallingEdge;

impl Equations for FallingEdge {
    type State = EdgeState;

    type In = EdgeIn;

    ghost CODE = { kind_code kinds.FTrig };

    ghost after = { λ s i now. f_trig_after s i };

    ghost holds = { is_edge };

    const CODE: u8 = BlockKind::FTrig as u8;

    fn next(s: &EdgeState, i: &EdgeIn, _now: u64) -> EdgeState {
        EdgeState {
            called: true,
            q: !i.clk && !s.m,
            m: !i.clk,
        }
    }

    fn holds(s: &EdgeState) -> bool {
        is_edge(s)
    }

    ghost cold_holds = { refl };
}
