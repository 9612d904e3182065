//! What a line of a unit is read beside.

use crate::flat::{Flat, block_of};
use crate::members::{Member, operand_word};
use crate::word::{Line, Sort, Word, Words};
use il_reader::Operand;
use std::alloc::{AllocError, Global};

/// The text of units, the units above, and the members of the unit.
#[derive(Clone, Copy)]
pub struct Scope<'t> {
    pub alloc: Global,
    pub text: &'t [u8],
    pub above: &'t [Flat],
    pub members: &'t [Member],
}

impl<'t> Scope<'t> {
    ghost use Rattle.std.specs.Prelude.{◌≡◌, IfOk, option_copied};
    ghost use Rattle.il_reader.specs.Grammar.{operand};
    ghost use Rattle.il_units.specs.Words.{said};
    ghost use Rattle.il_units.specs.Members.{operand_word};
    ghost use Rattle.il_units.specs.Flats.{block_of};

    /// A word that is said as it stands.
    pub fn said(self, text: &[u8], left: usize) -> Result<Word, AllocError>
        ensures { IfOk result (λ w. w ≡ said text.now left) }
    {
        Word::said(self.alloc, text, left)
    }

    /// The word that an operand stands for.
    pub fn operand(self, x: Operand) -> Result<Word, AllocError>
        ensures { IfOk result (λ w. w ≡ operand_word self.entry.members.now (operand x.entry)) }
    {
        operand_word(self.alloc, self.members, x)
    }

    /// The own block of which the member of a name is an instance.
    pub fn block_of(self, name: &[u8]) -> Option<&'t Flat>
        ensures { option_copied result ≡ block_of self.entry.above.now self.entry.members.now name.now }
    {
        block_of(self.above, self.members, name)
    }
}

ghost use Rattle.std.specs.Prelude.{◌≡◌, ◌++◌, ◌∷◌, [], IfOk, OnOk};
ghost use Rattle.il_model.specs.Words.{under};
ghost use Rattle.il_units.specs.Words.{mark, label};
ghost use Rattle.il_units.specs.Calls.{with_operand, ld, st, jump};

/// A line of an operator and an operand.
pub fn with_operand(alloc: Global, op: &[u8], x: Word, left: usize) -> Result<Line, AllocError>
    ensures { IfOk result (λ l. l ≡ with_operand op.now x left) }
{
    let mut words = Vec::new(alloc);
    words.push(Word::said(alloc, op, left)?)?;
    words.push(x)?;
    Ok(Line {
        label: None,
        words: Words::of(words),
        left,
    })
}

/// A line that loads.
pub fn ld(alloc: Global, x: Word, left: usize) -> Result<Line, AllocError>
    ensures { IfOk result (λ l. l ≡ ld x left) }
{
    with_operand(alloc, b"LD", x, left)
}

/// A line that stores.
pub fn st(alloc: Global, x: Word, left: usize) -> Result<Line, AllocError>
    ensures { IfOk result (λ l. l ≡ st x left) }
{
    with_operand(alloc, b"ST", x, left)
}

/// A jump to a label under a name.
pub fn jump(
    alloc: Global,
    op: &[u8],
    front: &[u8],
    name: &[u8],
    left: usize,
) -> Result<Line, AllocError>
    ensures { IfOk result (λ l. l ≡ jump op.now (under front.now name.now) left) }
{
    let target = Word::under(alloc, Sort::Label, front, name, left)?;
    with_operand(alloc, op, target, left)
}

/// A label under a name with a line of its own.
pub fn mark(alloc: Global, front: &[u8], name: &[u8], left: usize) -> Result<Line, AllocError>
    ensures { IfOk result (λ l. l ≡ mark (under front.now name.now) left) }
{
    Ok(Line {
        label: Some(Word::under(alloc, Sort::Label, front, name, left)?),
        words: Words::of(Vec::new(alloc)),
        left,
    })
}
