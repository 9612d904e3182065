//! A standard function block of any equations.

ghost use Rattle.std.specs.Prelude.{◌≡◌, ◌&&◌, true, ℕ, List, Bool, Some, IfSome};

use crate::equations::{BlockState, Equations};
use crate::function_block::FunctionBlock;
use std::marker::Model;

/// A block with these equations. Its state is always one of its kind.
#[derive(Drop)]
pub struct StandardBlock<E: Equations> {
    state: E::State,
}

impl<E: Equations> Model for StandardBlock<E> {
    ghost use Rattle.std.specs.Prelude.{◌≡◌, ◌&&◌, true};

    ghost Value = { E.State };

    ghost view = { λ b. b.state };

    ghost invariant = { λ b. (E.State.fits b.state && E.holds b.state) ≡ true };
}

impl<E: Equations> FunctionBlock for StandardBlock<E> {
    type In = E::In;

    type Out = <E::State as BlockState>::Out;

    ghost CODE = { E.CODE };

    ghost after = { E.after };

    ghost outs_of = { E.State.outs_of };

    ghost cold_state = { E.State.cold_state };

    ghost is_state = { λ s. E.State.fits s && E.holds s };

    ghost words_of = { E.State.words_of };

    const CODE: u8 = E::CODE;

    fn cold() -> StandardBlock<E> {
        StandardBlock {
            state: E::State::cold(),
        }
    }

    fn call(&mut self, i: &E::In, now: u64) -> <E::State as BlockState>::Out {
        self.state = E::next(&self.state, i, now);
        self.state.outs()
    }

    fn outs(&self) -> <E::State as BlockState>::Out {
        self.state.outs()
    }

    fn save(&self) -> [u64; 4] {
        self.state.words()
    }

    fn restore(given: [u64; 4]) -> Option<StandardBlock<E>> {
        let state = E::State::of_words(&given);
        if E::holds(&state) && state.words() == given {
            Some(StandardBlock { state })
        } else {
            None
        }
    }
}
