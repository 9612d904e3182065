//! Words of an expansion, each with the place that it comes from, and what becomes of them where a unit is placed.

ghost use Rattle.std.specs.Prelude.{◌≡◌, map, IfOk, OnOk, option_copied};

use il_model::{Modifier, capital, under};
use std::alloc::{AllocError, Global};
use std::marker::Model;

/// Bytes of a word.
#[derive(Drop)]
pub struct Text {
    bytes: Vec<u8>,
}

impl Model for Text {
    ghost use Rattle.std.specs.Prelude.{ℕ, List};

    ghost Value = { List ℕ };

    ghost view = { λ t. t.bytes.items };
}

impl Text {
    ghost use Rattle.std.specs.Str.{bytes_eq};
    ghost use Rattle.il_units.specs.Words.{capitals};

    /// The text of these bytes.
    pub fn of(bytes: Vec<u8>) -> Text
        ensures { result ≡ bytes.items }
    {
        Text { bytes }
    }

    /// A copy of these bytes.
    pub fn copied(alloc: Global, bytes: &[u8]) -> Result<Text, AllocError>
        ensures { IfOk result (λ t. t ≡ bytes.now) }
    {
        Ok(Text {
            bytes: Vec::from_slice(alloc, bytes)?,
        })
    }

    /// These bytes in capital letters.
    pub fn capitals(alloc: Global, text: &[u8]) -> Result<Text, AllocError>
        ensures { IfOk result (λ t. t ≡ capitals text.now) }
    {
        let mut bytes = Vec::new(alloc);
        for b in text {
            bytes.push(capital(*b))?;
        }
        Ok(Text { bytes })
    }

    /// The bytes.
    pub fn bytes(&self) -> &[u8]
        ensures { result.now ≡ self.now }
    {
        self.bytes.as_slice()
    }

    /// Whether the text is these bytes.
    pub fn is(&self, other: &[u8]) -> bool
        ensures { result ≡ bytes_eq self.now other.now }
    {
        self.bytes.as_slice() == other
    }
}

/// How a word changes where a unit is placed.
#[derive(Clone, Copy, PartialEq, Eq)]
pub enum Sort {
    /// Not at all: an operator, a sign, a literal, an address, a type.
    Said,
    /// A variable or an instance of the unit: it goes under the front.
    Own,
    /// A variable of a function, under that one's name: there is one, wherever the function is used.
    Shared,
    /// A label: it goes under the name of the call.
    Label,
    /// A VAR_IN_OUT: what the call gives stands for it.
    InOut,
    /// RET with its letters: a jump behind the body.
    Return(Modifier),
}

/// A word, and how many bytes the text has from its place on.
#[derive(Drop)]
pub struct Word {
    pub sort: Sort,
    pub text: Text,
    pub left: usize,
}

/// Words one behind the other.
#[derive(Drop)]
pub struct Words {
    words: Vec<Word>,
}

impl Model for Words {
    ghost use Rattle.std.specs.Prelude.{List};
    ghost use Rattle.il_units.specs.declared.word.Word.{Word};

    ghost Value = { List Word };

    ghost view = { λ w. w.words.items };
}

/// A line: a label or none, and the words of an instruction, or none of them.
#[derive(Drop)]
pub struct Line {
    pub label: Option<Word>,
    pub words: Words,
    pub left: usize,
}

/// A declaration: whether it is retained, the name, and the words behind it up to the semicolon.
#[derive(Drop)]
pub struct Entry {
    pub retained: bool,
    pub name: Word,
    pub words: Words,
}

/// What a call gives for a VAR_IN_OUT.
#[derive(Drop)]
pub struct Given {
    pub name: Text,
    pub word: Word,
}

/// Where a body is placed: the name under which its variables go, as variables of an instance or of a function; the
/// name under which its labels go; what is given for VAR_IN_OUT; and the place of the call.
#[derive(Clone, Copy)]
pub struct Spot<'s> {
    pub front: &'s [u8],
    pub sort: Sort,
    pub call: &'s [u8],
    pub given: &'s [Given],
    pub left: usize,
}

impl Words {
    /// These words.
    pub fn of(words: Vec<Word>) -> Words
        ensures { result ≡ words.items }
    {
        Words { words }
    }

    /// The words.
    pub fn as_slice(&self) -> &[Word]
        ensures { result.now ≡ self.now }
    {
        self.words.as_slice()
    }
}

impl Word {
    ghost use Rattle.il_model.specs.Words.{under};
    ghost use Rattle.il_units.specs.Words.{said, moved, placed, placed_by, placing};

    /// A word of these bytes.
    pub fn of(alloc: Global, sort: Sort, text: &[u8], left: usize) -> Result<Word, AllocError>
        ensures { IfOk result (λ w. w ≡ record { sort = sort; text = text.now; left = left }) }
    {
        Ok(Word {
            sort,
            text: Text::copied(alloc, text)?,
            left,
        })
    }

    /// A word that is said as it stands.
    pub fn said(alloc: Global, text: &[u8], left: usize) -> Result<Word, AllocError>
        ensures { IfOk result (λ w. w ≡ said text.now left) }
    {
        Word::of(alloc, Sort::Said, text, left)
    }

    /// A word under another name.
    pub fn under(
        alloc: Global,
        sort: Sort,
        front: &[u8],
        name: &[u8],
        left: usize,
    ) -> Result<Word, AllocError>
        ensures { IfOk result (λ w. w ≡ record { sort = sort; text = under front.now name.now; left = left }) }
    {
        Ok(Word {
            sort,
            text: Text::of(under(alloc, front, name)?),
            left,
        })
    }

    /// The same at another place.
    pub fn moved(&self, alloc: Global, left: usize) -> Result<Word, AllocError>
        ensures { IfOk result (λ w. w ≡ moved left self.now) }
    {
        Word::of(alloc, self.sort, self.text.bytes(), left)
    }

    /// The word where its unit is placed there.
    pub fn placed(&self, alloc: Global, at: Spot) -> Result<Word, AllocError>
        ensures { IfOk result (λ w. w ≡ placed (placing at.entry) self.now) }
    {
        match self.sort {
            Sort::Own => Word::under(alloc, at.sort, at.front, self.text.bytes(), at.left),
            Sort::Label => Word::under(alloc, Sort::Label, at.call, self.text.bytes(), at.left),
            Sort::InOut => match given_for(at.given, self.text.bytes()) {
                Some(given) => given.word.moved(alloc, at.left),
                None => self.moved(alloc, at.left),
            },
            Sort::Said | Sort::Shared | Sort::Return(_) => self.moved(alloc, at.left),
        }
    }
}

ghost use Rattle.std.specs.Prelude.{option_map};
ghost use Rattle.il_units.specs.Words.{given_for, jump_with, placed, placed_words, placed_line, placing};
ghost use Rattle.il_units.specs.Words.{placed_first, placed_entry, moved, moved_entry};

fn given_for<'g>(given: &'g [Given], name: &[u8]) -> Option<&'g Given>
    ensures { option_copied result ≡ given_for given.entry.now name.now }
{
    given.iter().find(|g| g.name.is(name))
}

/// Each of the words where their unit is placed there.
fn each_placed(alloc: Global, at: Spot, words: &[Word]) -> Result<Words, AllocError>
    ensures { IfOk result (λ ws. ws ≡ map (placed (placing at.entry)) words.now) }
{
    let mut found = Vec::new(alloc);
    for word in words {
        found.push(word.placed(alloc, at)?)?;
    }
    Ok(Words::of(found))
}

/// The words at another place.
fn each_moved(alloc: Global, left: usize, words: &[Word]) -> Result<Words, AllocError>
    ensures { IfOk result (λ ws. ws ≡ map (moved left) words.now) }
{
    let mut found = Vec::new(alloc);
    for word in words {
        found.push(word.moved(alloc, left)?)?;
    }
    Ok(Words::of(found))
}

/// The jump with the letters of a return.
fn jump_with(letters: Modifier) -> &'static [u8]
    ensures { result.now ≡ jump_with letters }
{
    if letters.conditional {
        if letters.negated { b"JMPCN" } else { b"JMPC" }
    } else {
        b"JMP"
    }
}

/// A jump behind the body in place of a return, else each of the words.
fn placed_first(alloc: Global, at: Spot, sort: Sort, words: &[Word]) -> Result<Words, AllocError>
    ensures { IfOk result (λ ws. ws ≡ placed_first (placing at.entry) sort words.now) }
{
    let Sort::Return(letters) = sort else {
        return each_placed(alloc, at, words);
    };
    let mut found = Vec::new(alloc);
    found.push(Word::said(alloc, jump_with(letters), at.left)?)?;
    found.push(Word::under(alloc, Sort::Label, at.call, b"RET", at.left)?)?;
    Ok(Words::of(found))
}

/// The words of a line where its unit is placed there.
fn placed_words(alloc: Global, at: Spot, words: &[Word]) -> Result<Words, AllocError>
    ensures { IfOk result (λ ws. ws ≡ placed_words (placing at.entry) words.now) }
{
    match words {
        [] => Ok(Words::of(Vec::new(alloc))),
        [word, ..] => placed_first(alloc, at, word.sort, words),
    }
}

/// A label where its unit is placed there.
fn placed_label(alloc: Global, at: Spot, label: &Option<Word>) -> Result<Option<Word>, AllocError>
    ensures { IfOk result (λ o. o ≡ option_map (placed (placing at.entry)) label.now) }
{
    match label {
        Some(word) => Ok(Some(word.placed(alloc, at)?)),
        None => Ok(None),
    }
}

impl Line {
    ghost use Rattle.std.specs.Prelude.{Some};
    ghost use Rattle.il_units.specs.Words.{placed_line, placing};

    /// The line with a label.
    pub fn labelled(self, label: Word) -> Line
        ensures { result ≡ record { label = Some label; words = self.words; left = self.left } }
    {
        Line {
            label: Some(label),
            words: self.words,
            left: self.left,
        }
    }

    /// The line where its unit is placed there.
    pub fn placed(&self, alloc: Global, at: Spot) -> Result<Line, AllocError>
        ensures { IfOk result (λ l. l ≡ placed_line (placing at.entry) self.now) }
    {
        Ok(Line {
            label: placed_label(alloc, at, &self.label)?,
            words: placed_words(alloc, at, self.words.as_slice())?,
            left: at.left,
        })
    }
}

impl Entry {
    ghost use Rattle.il_units.specs.Words.{placed_entry, moved_entry, placing};

    /// The declaration where its unit is placed there, for an instance that is retained or isn't.
    pub fn placed(&self, alloc: Global, at: Spot, retained: bool) -> Result<Entry, AllocError>
        ensures { IfOk result (λ e. e ≡ placed_entry (placing at.entry) retained self.now) }
    {
        Ok(Entry {
            retained: retained || self.retained,
            name: self.name.placed(alloc, at)?,
            words: each_placed(alloc, at, self.words.as_slice())?,
        })
    }

    /// The same at another place.
    pub fn moved(&self, alloc: Global, left: usize) -> Result<Entry, AllocError>
        ensures { IfOk result (λ e. e ≡ moved_entry left self.now) }
    {
        Ok(Entry {
            retained: self.retained,
            name: self.name.moved(alloc, left)?,
            words: each_moved(alloc, left, self.words.as_slice())?,
        })
    }
}
