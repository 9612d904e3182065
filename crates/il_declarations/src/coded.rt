//! Instructions, one behind the other, with how many words more there is room for.

use il_model::{Dialect, EARLIER_INSTRUCTIONS, Instr, MOST_WORDS};
use std::alloc::{AllocError, Global};
use std::marker::Model;

/// The instructions of the lines so far.
#[derive(Drop)]
pub struct Coded {
    code: Vec<Instr>,
    left: usize,
}

impl Model for Coded {
    ghost use Rattle.std.specs.Prelude.{◌≡◌, ◌-◌, List};
    ghost use Rattle.il_model.specs.declared.limits.TheConstants.{MOST_WORDS};
    ghost use Rattle.il_model.specs.declared.program.Instr.{Instr};
    ghost use Rattle.il_model.specs.Marks.{words_in};

    ghost Value = { List Instr };

    ghost view = { λ c. c.code.items };

    ghost invariant = { λ c. c.left ≡ MOST_WORDS - words_in c.code.items };
}

impl Coded {
    ghost use Rattle.std.specs.Prelude.{◌≡◌, ◌<◌, ◌+◌, ◌++◌, ◌∷◌, [], suc, length, OnOk};
    ghost use Rattle.il_model.specs.Marks.{words_in};
    ghost use Rattle.il_declarations.specs.Resolution.{are_too_many};

    /// None yet.
    pub fn new(alloc: Global) -> Coded
        ensures { result ≡ [] }
    {
        Coded {
            code: Vec::new(alloc),
            left: MOST_WORDS,
        }
    }

    /// Whether one more, of so many words, makes them too many for a text of the dialect.
    #[tactic(auto, using(crate::proofs::Rooms::past_room))]
    pub fn has_no_room_for(&self, dialect: Dialect, words: usize) -> bool
        requires { 0 < words }
        ensures { result ≡ are_too_many dialect (suc (length self.now)) (words_in self.now + words) }
    {
        let count = self.code.len();
        count >= dialect.newest().most_instructions()
            || (count >= EARLIER_INSTRUCTIONS && self.left < words)
    }

    /// Puts an instruction behind the others.
    #[tactic(auto, using(crate::proofs::Rooms::one_more))]
    pub fn push(&mut self, line: Instr) -> Result<(), AllocError>
        ensures { OnOk result (self.new ≡ self.old ++ line ∷ []) }
    {
        let words = 1 + line.arguments.as_slice().len();
        self.code.push(line)?;
        self.left = self.left.saturating_sub(words);
        Ok(())
    }

    /// The instructions alone.
    pub fn into_vec(self) -> Vec<Instr>
        ensures { result.items ≡ self }
    {
        self.code
    }
}
