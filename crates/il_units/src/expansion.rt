//! The extended text of a unit that stands alone, with the places that its words come from.

ghost use Rattle.std.specs.Prelude.{◌≡◌, ◌++◌, ◌∷◌, [], map, IfOk, OnOk, option_map};
ghost use Rattle.std.specs.List.{flat_map};
ghost use Rattle.il_units.specs.Expansion.{Pieces, expansion_of, with_pieces, piece_of, line_end, said_piece};
ghost use Rattle.il_units.specs.Expansion.{entry_pieces, label_pieces, line_pieces, kept_as, qualifier_pieces};
ghost use Rattle.il_units.specs.Expansion.{kept_pieces, head_pieces, end_pieces, block_pieces, first_left, entries_of};
ghost use Rattle.il_units.specs.Expansion.{pieces_of, origin_in};
ghost use Rattle.il_units.specs.Expansion.{instruction_origin};

use crate::flat::Flat;
use crate::word::{Entry, Line, Word};
use std::alloc::{AllocError, Global};
use std::marker::Model;

/// How many bytes a piece of an expansion has, and how many the text of units has from the place on that it comes from.
#[derive(Clone, Copy)]
pub struct Origin {
    pub len: usize,
    pub left: usize,
}

/// An extended text, and where its bytes come from.
#[derive(Drop)]
pub struct Expansion {
    text: Vec<u8>,
    origins: Vec<Origin>,
}

impl Model for Expansion {
    ghost use Rattle.il_units.specs.Expansion.{Pieces};

    ghost Value = { Pieces };

    ghost view = { λ e. record { text = e.text.items; origins = e.origins.items } };
}

impl Expansion {
    fn new(alloc: Global) -> Expansion
        ensures { result ≡ record { text = []; origins = [] } }
    {
        Expansion {
            text: Vec::new(alloc),
            origins: Vec::new(alloc),
        }
    }

    /// The extended text.
    pub fn text(&self) -> &[u8]
        ensures { result.now ≡ self.now.text }
    {
        self.text.as_slice()
    }

    /// How many bytes the text of units has from the place on that the n-th byte of the expansion comes from.
    #[tactic(auto, unfolding(crate::specs::Expansion::origin_in))]
    pub fn origin(&self, n: usize) -> usize
        ensures { result ≡ origin_in self.now.origins n }
    {
        let mut before = n;
        for origin in self.origins.as_slice() {
            if before < origin.len {
                return origin.left;
            }
            before -= origin.len;
        }
        0
    }

    /// Puts a word behind the others, and a blank behind it.
    fn put(self, text: &[u8], left: usize) -> Result<Expansion, AllocError>
        ensures { IfOk result (λ e. e ≡ with_pieces self (said_piece text.now left ∷ [])) }
    {
        let Expansion {
            text: mut bytes,
            mut origins,
        } = self;
        let before = bytes.len();
        bytes.extend_from_slice(text)?;
        bytes.push(b' ')?;
        origins.push(Origin {
            len: bytes.len() - before,
            left,
        })?;
        Ok(Expansion {
            text: bytes,
            origins,
        })
    }

    /// Ends the line.
    fn end_line(self, left: usize) -> Result<Expansion, AllocError>
        ensures { IfOk result (λ e. e ≡ with_pieces self (line_end left ∷ [])) }
    {
        let Expansion {
            mut text,
            mut origins,
        } = self;
        text.push(b'\n')?;
        origins.push(Origin { len: 1, left })?;
        Ok(Expansion { text, origins })
    }

    #[tactic(auto, using(crate::proofs::Joined::pieces_joined, crate::proofs::Joined::pieces_none))]
    fn put_words(self, words: &[Word]) -> Result<Expansion, AllocError>
        ensures { IfOk result (λ e. e ≡ with_pieces self (map piece_of words.now)) }
    {
        let mut out = self;
        for word in words {
            out = out.put(word.text.bytes(), word.left)?;
        }
        Ok(out)
    }

    #[tactic(auto, using(crate::proofs::Joined::pieces_joined, crate::proofs::Joined::pieces_none))]
    fn put_entry(self, e: &Entry) -> Result<Expansion, AllocError>
        ensures { IfOk result (λ x. x ≡ with_pieces self (entry_pieces e.now)) }
    {
        let out = self.put(e.name.text.bytes(), e.name.left)?;
        let out = out.put_words(e.words.as_slice())?;
        out.end_line(e.name.left)
    }

    /// Puts a declaration behind the others, if it is retained, or if it isn't.
    #[tactic(auto, using(crate::proofs::Joined::pieces_joined, crate::proofs::Joined::pieces_none))]
    fn put_kept(self, e: &Entry, retained: bool) -> Result<Expansion, AllocError>
        ensures { IfOk result (λ x. x ≡ with_pieces self (kept_pieces retained e.now)) }
    {
        if is_kept(e, retained) {
            self.put_entry(e)
        } else {
            Ok(self)
        }
    }

    /// Puts the declarations behind the others that are retained, or that aren't.
    #[tactic(auto, using(crate::proofs::Joined::pieces_joined, crate::proofs::Joined::pieces_none))]
    fn put_entries(self, entries: &[Entry], retained: bool) -> Result<Expansion, AllocError>
        ensures { IfOk result (λ e. e ≡ with_pieces self (flat_map (kept_pieces retained) entries.now)) }
    {
        let mut out = self;
        for e in entries {
            out = out.put_kept(e, retained)?;
        }
        Ok(out)
    }

    #[tactic(auto, using(crate::proofs::Joined::pieces_joined, crate::proofs::Joined::pieces_none))]
    fn put_label(self, label: &Option<Word>) -> Result<Expansion, AllocError>
        ensures { IfOk result (λ e. e ≡ with_pieces self (label_pieces label.now)) }
    {
        match label {
            Some(word) => {
                let out = self.put(word.text.bytes(), word.left)?;
                out.put(b":", word.left)
            }
            None => Ok(self),
        }
    }

    fn put_line(self, line: &Line) -> Result<Expansion, AllocError>
        ensures { IfOk result (λ e. e ≡ with_pieces self (line_pieces line.now)) }
    {
        let out = self.put_label(&line.label)?;
        let out = out.put_words(line.words.as_slice())?;
        out.end_line(line.left)
    }

    #[tactic(auto, using(crate::proofs::Joined::pieces_joined, crate::proofs::Joined::pieces_none))]
    fn put_lines(self, lines: &[Line]) -> Result<Expansion, AllocError>
        ensures { IfOk result (λ e. e ≡ with_pieces self (flat_map line_pieces lines.now)) }
    {
        let mut out = self;
        for line in lines {
            out = out.put_line(line)?;
        }
        Ok(out)
    }

    #[tactic(auto, using(crate::proofs::Joined::pieces_joined, crate::proofs::Joined::pieces_none))]
    fn put_qualifier(self, retained: bool, left: usize) -> Result<Expansion, AllocError>
        ensures { IfOk result (λ e. e ≡ with_pieces self (qualifier_pieces retained left)) }
    {
        if retained {
            self.put(b"RETAIN", left)
        } else {
            Ok(self)
        }
    }

    /// Begins a block.
    fn put_head(self, retained: bool, left: usize) -> Result<Expansion, AllocError>
        ensures { IfOk result (λ e. e ≡ with_pieces self (head_pieces retained left)) }
    {
        let out = self.put(b"VAR_GLOBAL", left)?;
        let out = out.put_qualifier(retained, left)?;
        out.end_line(left)
    }

    /// Puts all declarations of a unit behind the others that are retained, or that aren't.
    fn put_declared(self, unit: &Flat, retained: bool) -> Result<Expansion, AllocError>
        ensures { IfOk result (λ e. e ≡ with_pieces self (flat_map (kept_pieces retained) (entries_of unit.now))) }
    {
        let out = self.put_entries(unit.shared(), retained)?;
        let out = out.put_entries(unit.bound(), retained)?;
        out.put_entries(unit.declared(), retained)
    }

    /// Ends a block.
    #[tactic(auto, using(crate::proofs::Joined::pieces_joined, crate::proofs::Joined::pieces_none))]
    fn put_end(self, left: usize) -> Result<Expansion, AllocError>
        ensures { IfOk result (λ e. e ≡ with_pieces self (end_pieces left)) }
    {
        let out = self.put(b"END_VAR", left)?;
        out.end_line(left)
    }

    /// Puts the declarations of a unit that are retained, or that aren't, as a block.
    fn put_block(self, unit: &Flat, retained: bool, left: usize) -> Result<Expansion, AllocError>
        ensures { IfOk result (λ e. e ≡ with_pieces self (block_pieces retained left (entries_of unit.now))) }
    {
        let out = self.put_head(retained, left)?;
        let out = out.put_declared(unit, retained)?;
        out.put_end(left)
    }
}

/// Whether a declaration is retained, or whether it isn't.
fn is_kept(e: &Entry, retained: bool) -> bool
    ensures { result ≡ kept_as retained e.now }
{
    if retained { e.retained } else { !e.retained }
}

fn first_left(flat: &Flat) -> usize
    ensures { result ≡ first_left flat.now.members }
{
    match flat.members() {
        [m, ..] => m.name.left,
        [] => 0,
    }
}

impl Flat {
    ghost use Rattle.std.specs.Prelude.{◌≡◌, IfOk};
    ghost use Rattle.il_units.specs.Expansion.{expansion_of, instruction_origin};

    /// The extended text that the unit is where it stands alone: a block's inputs, outputs and VAR_IN_OUT are
    /// variables.
    pub fn expansion(&self, alloc: Global) -> Result<Expansion, AllocError>
        ensures { IfOk result (λ e. e ≡ expansion_of self.now) }
    {
        let left = first_left(self);
        let out = Expansion::new(alloc);
        let out = out.put_block(self, false, left)?;
        let out = out.put_block(self, true, left)?;
        out.put_lines(self.lines())
    }

    /// How many bytes the text of units has from the place on that an instruction comes from, by its number from 0.
    pub fn instruction_origin(&self, n: usize) -> usize
        ensures { result ≡ instruction_origin self.now n }
    {
        match self.lines().get(n) {
            Some(line) => line.left,
            None => 0,
        }
    }
}
