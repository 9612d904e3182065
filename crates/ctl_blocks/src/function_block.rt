//! What every standard function block is: its laws, stated once.

ghost use Rattle.std.specs.Prelude.{◌≡◌, ◌<◌, ◌^◌, ℕ, List, Some, Option, true, Bool, IfSome};

/// A standard function block (IEC 61131-3:2003, 2.5.2.3). A call takes no memory and always returns, at every
/// moment and for every preset value.
pub trait FunctionBlock: Sized {
    /// The values of the inputs.
    type In;

    /// The values of the outputs.
    type Out;

    /// The code of the block's kind.
    ghost CODE: { ℕ };

    /// The state after a call, by the block's equations: of the state before it, the inputs and the moment.
    ghost after: { Self → Self.In → ℕ → Self };

    /// The outputs in a state.
    ghost outs_of: { Self → Self.Out };

    /// The state before the first call.
    ghost cold_state: { Self };

    /// Whether it is a state of the block: the block's invariant.
    ghost is_state: { Self → Bool };

    /// The words that a state is saved as.
    ghost words_of: { Self → List ℕ };

    /// The code of the block's kind, 1 to 10.
    const CODE: u8;

    /// A block that was never called.
    fn cold() -> Self
        ensures value { result ≡ cold_state }
        ensures lawful { is_state result ≡ true };

    /// Calls the block with its inputs at the moment `now`, in ms, and answers its outputs after the call.
    fn call(&mut self, i: &Self::In, now: u64) -> Self::Out
        ensures equations { self.new ≡ after self.old i.now now }
        ensures answer { result ≡ outs_of self.new }
        ensures lawful { is_state self.new ≡ true };

    /// The outputs since the last call.
    fn outs(&self) -> Self::Out
        ensures { result ≡ outs_of self.now };

    /// The words of the state. Of a block that was never called all are 0.
    fn save(&self) -> [u64; 4]
        ensures words { result ≡ words_of self.now }
        ensures lawful { is_state self.now ≡ true };

    /// The block whose state has these words; None where they are no state's.
    fn restore(words: [u64; 4]) -> Option<Self>
        ensures found { (s : Self) → is_state s ≡ true → words_of s ≡ words → result ≡ Some s }
        ensures only { IfSome result (λ s. (is_state s ≡ true) × (words_of s ≡ words)) };
}

/// What was saved, restored: always a block with the same state.
pub fn saved_again<B: FunctionBlock>(block: &B) -> Option<B>
    ensures { result ≡ Some block.now }
{
    B::restore(block.save())
}
