//! What makes a standard function block: what it keeps, and its equations. `standard_block` makes a block of them.

ghost use Rattle.std.specs.Prelude.{◌≡◌, ◌<◌, ◌^◌, ℕ, List, Bool, true};

/// What a block keeps from one call to the next.
pub trait BlockState: Copy + Drop {
    /// The values of the outputs.
    type Out;

    /// The state before the first call.
    ghost cold_state: { Self };

    /// The outputs in a state.
    ghost outs_of: { Self → Self.Out };

    /// The words that a state is saved as.
    ghost words_of: { Self → List ℕ };

    /// Whether its numbers are ones of their types.
    ghost fits: { Self → Bool };

    /// The state before the first call.
    fn cold() -> Self
        ensures value { result ≡ cold_state }
        ensures fits { fits result ≡ true };

    /// The outputs.
    fn outs(&self) -> Self::Out
        ensures { result ≡ outs_of self.now };

    /// The words that it is saved as.
    fn words(&self) -> [u64; 4]
        ensures { result ≡ words_of self.now };

    /// The state that is saved as these words, where there is one.
    fn of_words(words: &[u64; 4]) -> Self
        ensures known { (s : Self) → fits s ≡ true → words_of s ≡ words.now → result ≡ s }
        ensures fits { fits result ≡ true };
}

/// The equations of one kind of block.
pub trait Equations {
    /// What it keeps.
    type State: BlockState;

    /// The values of the inputs.
    type In;

    /// The code of the kind.
    ghost CODE: { ℕ };

    /// The state after a call: of the state before it, the inputs and the moment.
    ghost after: { Self.State → Self.In → ℕ → Self.State };

    /// Whether the values of a state belong together: the kind's invariant.
    ghost holds: { Self.State → Bool };

    /// The code of the kind, 1 to 10.
    const CODE: u8;

    /// The state after a call with these inputs at the moment `now`, in ms.
    fn next(state: &Self::State, i: &Self::In, now: u64) -> Self::State
        requires fits { Self.State.fits state.now ≡ true }
        requires holds { holds state.now ≡ true }
        ensures equations { result ≡ after state.now i.now now }
        ensures fits { Self.State.fits result ≡ true }
        ensures holds { holds result ≡ true };

    /// Whether the values of a state belong together.
    fn holds(state: &Self::State) -> bool
        ensures { result ≡ holds state.now };

    /// The invariant holds before the first call.
    ghost cold_holds: { holds Self.State.cold_state ≡ true };
}
