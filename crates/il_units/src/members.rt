//! The variables and instances of a unit, and what its operands stand for.

ghost use Rattle.std.specs.Prelude.{◌≡◌, ◌++◌, IfOk, OnOk, map, option_map, option_copied};
ghost use Rattle.std.specs.List.{flat_map};
ghost use Rattle.il_reader.specs.Tokens.{token};
ghost use Rattle.il_reader.specs.Grammar.{operand, declaration, declarations, names_of};
ghost use Rattle.il_units.specs.Units.{section_text, unit_text};
ghost use Rattle.il_units.specs.Members.{type_named, type_word, place_in, written, member_by, declared_members};
ghost use Rattle.il_units.specs.Members.{section_members, result_members, members_of, member_named, constant_word};
ghost use Rattle.il_units.specs.Members.{name_word, member_word, operand_word, place_words, initial_words};
ghost use Rattle.il_units.specs.Members.{is_bare, takes_numbers, typed_number, settled};

use crate::contents::{Section, SectionKind, Unit};
use crate::word::{Entry, Sort, Text, Word, Words};
use il_model::{Dialect, Literal, Ty};
use il_reader::{Declaration, Lexeme, Names, Operand, Qualifier};
use std::alloc::{AllocError, Global};

/// A variable or an instance of a unit: what it is there, whether it is retained, its name and the word of its type in
/// capital letters, where it lies, and its first value.
#[derive(Drop)]
pub struct Member {
    pub kind: SectionKind,
    pub retained: bool,
    pub name: Word,
    pub ty: Word,
    pub place: Option<Word>,
    pub initial: Option<Word>,
}

// ---- types by their words

/// The elementary types.
static TYPES: [Ty; 8] = [
    Ty::Bool,
    Ty::Int,
    Ty::Dint,
    Ty::Time,
    Ty::Lint,
    Ty::Real,
    Ty::Word,
    Ty::Dword,
];

/// The elementary type of a word in capital letters.
pub fn type_named(word: &[u8]) -> Option<Ty>
    ensures { result ≡ type_named word.now }
{
    TYPES.iter().copied().find(|ty| type_word(*ty) == word)
}

/// The word of a type.
pub fn type_word(ty: Ty) -> &'static [u8]
    ensures { result.now ≡ type_word ty }
{
    match ty {
        Ty::Bool => b"BOOL",
        Ty::Int => b"INT",
        Ty::Dint => b"DINT",
        Ty::Time => b"TIME",
        Ty::Lint => b"LINT",
        Ty::Real => b"REAL",
        Ty::Word => b"WORD",
        Ty::Dword => b"DWORD",
    }
}

// ---- a bare number is of the type of what it goes into

fn is_bare(text: &[u8]) -> bool
    ensures { result ≡ is_bare text.now }
{
    match Dialect::Extended.literal(text) {
        Some(Literal::Bare(_)) => true,
        Some(Literal::Typed(_)) | None => false,
    }
}

/// Whether bare numbers may be of a type.
fn takes_numbers(ty: Option<Ty>) -> bool
    ensures { result ≡ takes_numbers ty }
{
    match ty {
        None | Some(Ty::Time) | Some(Ty::Real) => false,
        Some(Ty::Bool) | Some(Ty::Int) | Some(Ty::Dint) | Some(Ty::Lint) => true,
        Some(Ty::Word) | Some(Ty::Dword) => true,
    }
}

/// A number with its type.
fn typed_number(alloc: Global, ty: &[u8], word: &Word) -> Result<Word, AllocError>
    ensures { IfOk result (λ w. w ≡ typed_number ty.now word.now) }
{
    let mut text = Vec::from_slice(alloc, ty)?;
    text.push(b'#')?;
    text.extend_from_slice(word.text.bytes())?;
    Ok(Word {
        sort: Sort::Said,
        text: Text::of(text),
        left: word.left,
    })
}

/// A value that goes into a variable of a type: a bare number is of that type.
pub fn settled(alloc: Global, ty: &[u8], word: Word) -> Result<Word, AllocError>
    ensures { IfOk result (λ w. w ≡ settled ty.now word) }
{
    let is_number = matches!(word.sort, Sort::Said)
        && (takes_numbers(type_named(ty)) && is_bare(word.text.bytes()));
    if is_number {
        typed_number(alloc, ty, &word)
    } else {
        Ok(word)
    }
}

// ---- members

/// A word as it is written.
fn written(alloc: Global, t: Lexeme) -> Result<Word, AllocError>
    ensures { IfOk result (λ w. w ≡ written (token t.entry)) }
{
    Word::said(alloc, t.text, t.left)
}

fn optional_written(alloc: Global, t: Option<Lexeme>) -> Result<Option<Word>, AllocError>
    ensures { IfOk result (λ o. o ≡ option_map written (option_map token t.entry)) }
{
    match t {
        Some(t) => Ok(Some(written(alloc, t)?)),
        None => Ok(None),
    }
}

/// Where a declaration says that its variable lies.
fn place_in<'a>(names: &Names<'a>) -> Option<Lexeme<'a>>
    ensures { option_map token result ≡ place_in (names_of names.entry.now) }
{
    match names {
        Names::Located(t) => Some(*t),
        Names::More(_) => None,
    }
}

/// The member of a name that a declaration has.
fn member_by(
    alloc: Global,
    kind: SectionKind,
    retained: bool,
    d: &Declaration,
    t: Lexeme,
) -> Result<Member, AllocError>
    ensures { IfOk result (λ m. m ≡ member_by kind retained (declaration d.now) (token t.entry)) }
{
    Ok(Member {
        kind,
        retained,
        name: Word {
            sort: Sort::Own,
            text: Text::capitals(alloc, t.text)?,
            left: t.left,
        },
        ty: Word {
            sort: Sort::Said,
            text: Text::capitals(alloc, d.ty.text)?,
            left: d.ty.left,
        },
        place: optional_written(alloc, place_in(&d.names))?,
        initial: optional_written(alloc, d.initial)?,
    })
}

/// Puts the members of names behind the others.
fn push_names(
    alloc: Global,
    found: &mut Vec<Member>,
    kind: SectionKind,
    retained: bool,
    d: &Declaration,
    names: &[Lexeme],
) -> Result<(), AllocError>
    ensures { OnOk result (found.new.items
        ≡ found.old.items ++ map (member_by kind retained (declaration d.now)) (map token names.now)) }
{
    for t in names {
        found.push(member_by(alloc, kind, retained, d, *t)?)?;
    }
    Ok(())
}

/// Puts the members of a declaration behind the others.
fn push_declaration(
    alloc: Global,
    found: &mut Vec<Member>,
    kind: SectionKind,
    retained: bool,
    d: &Declaration,
) -> Result<(), AllocError>
    ensures { OnOk result (found.new.items
        ≡ found.old.items ++ declared_members kind retained (declaration d.now)) }
{
    found.push(member_by(alloc, kind, retained, d, d.name)?)?;
    match &d.names {
        Names::Located(_) => Ok(()),
        Names::More(more) => push_names(alloc, found, kind, retained, d, more.as_slice()),
    }
}

/// Puts the members of declarations behind the others.
fn push_declarations(
    alloc: Global,
    found: &mut Vec<Member>,
    kind: SectionKind,
    retained: bool,
    ds: &[Declaration],
) -> Result<(), AllocError>
    ensures { OnOk result (found.new.items
        ≡ found.old.items ++ flat_map (declared_members kind retained) (declarations ds.now)) }
{
    for d in ds {
        push_declaration(alloc, found, kind, retained, d)?;
    }
    Ok(())
}

/// Puts the members of a section behind the others.
fn push_section(alloc: Global, found: &mut Vec<Member>, section: &Section) -> Result<(), AllocError>
    ensures { OnOk result (found.new.items ≡ found.old.items ++ section_members (section_text section.now)) }
{
    let retained = match section.qualifier {
        Some(Qualifier::Retain) => true,
        Some(Qualifier::NonRetain) | None => false,
    };
    let declarations = section.declarations.as_slice();
    push_declarations(alloc, found, section.kind, retained, declarations)
}

/// Puts the result of a function before the others: a variable of its name.
fn result_members(
    alloc: Global,
    name: Lexeme,
    result_type: Option<Lexeme>,
) -> Result<Vec<Member>, AllocError>
    ensures { IfOk result (λ v. v.items ≡ result_members (token name.entry) (option_map token result_type.entry)) }
{
    let mut found = Vec::new(alloc);
    if let Some(ty) = result_type {
        found.push(Member {
            kind: SectionKind::Local,
            retained: false,
            name: Word {
                sort: Sort::Own,
                text: Text::capitals(alloc, name.text)?,
                left: name.left,
            },
            ty: Word {
                sort: Sort::Said,
                text: Text::capitals(alloc, ty.text)?,
                left: ty.left,
            },
            place: None,
            initial: None,
        })?;
    }
    Ok(found)
}

/// The members of a unit, in the order of the text.
pub fn members(alloc: Global, unit: &Unit) -> Result<Vec<Member>, AllocError>
    ensures { IfOk result (λ v. v.items ≡ members_of (unit_text unit.now)) }
{
    let mut found = result_members(alloc, unit.name, unit.result)?;
    for section in unit.sections.as_slice() {
        push_section(alloc, &mut found, section)?;
    }
    Ok(found)
}

/// The member of a name in capital letters.
pub fn member_named<'m>(members: &'m [Member], name: &[u8]) -> Option<&'m Member>
    ensures { option_copied result ≡ member_named members.entry.now name.now }
{
    members.iter().find(|m| m.name.text.is(name))
}

// ---- operands

/// The word of a constant: its literal, of its type.
fn constant_word(alloc: Global, m: &Member, name: &[u8], left: usize) -> Result<Word, AllocError>
    ensures { IfOk result (λ w. w ≡ constant_word m.now.ty.text m.now.initial name.now left) }
{
    match &m.initial {
        Some(word) => {
            let literal = Word::said(alloc, word.text.bytes(), left)?;
            settled(alloc, m.ty.text.bytes(), literal)
        }
        None => Word::of(alloc, Sort::Own, name, left),
    }
}

/// The word of a name, by what the member of that name is.
fn name_word(alloc: Global, m: &Member, name: &[u8], left: usize) -> Result<Word, AllocError>
    ensures { IfOk result (λ w. w ≡ name_word m.now name.now left) }
{
    match m.kind {
        SectionKind::Constant => constant_word(alloc, m, name, left),
        SectionKind::InOut => Word::of(alloc, Sort::InOut, name, left),
        SectionKind::Local | SectionKind::Input | SectionKind::Output => {
            Word::of(alloc, Sort::Own, name, left)
        }
    }
}

fn member_word(
    alloc: Global,
    members: &[Member],
    name: &[u8],
    left: usize,
) -> Result<Word, AllocError>
    ensures { IfOk result (λ w. w ≡ member_word (member_named members.now name.now) name.now left) }
{
    match member_named(members, name) {
        Some(m) => name_word(alloc, m, name, left),
        None => Word::of(alloc, Sort::Own, name, left),
    }
}

/// The word that an operand stands for.
pub fn operand_word(alloc: Global, members: &[Member], x: Operand) -> Result<Word, AllocError>
    ensures { IfOk result (λ w. w ≡ operand_word members.now (operand x.entry)) }
{
    match x {
        Operand::Constant(t) | Operand::Direct(t) => written(alloc, t),
        Operand::Named(t) => {
            let name = Text::capitals(alloc, t.text)?;
            member_word(alloc, members, name.bytes(), t.left)
        }
        Operand::Field(t, f) => {
            let name = Text::capitals(alloc, t.text)?;
            let field = Text::capitals(alloc, f.text)?;
            Word::under(alloc, Sort::Own, name.bytes(), field.bytes(), t.left)
        }
    }
}

// ---- declarations

/// Puts the words of where a variable lies behind the others.
fn push_place(alloc: Global, words: &mut Vec<Word>, place: &Option<Word>) -> Result<(), AllocError>
    ensures { OnOk result (words.new.items ≡ words.old.items ++ place_words place.now) }
{
    if let Some(word) = place {
        words.push(Word::said(alloc, b"AT", word.left)?)?;
        words.push(word.moved(alloc, word.left)?)?;
    }
    Ok(())
}

/// Puts the words of a first value behind the others.
fn push_initial(
    alloc: Global,
    words: &mut Vec<Word>,
    initial: &Option<Word>,
) -> Result<(), AllocError>
    ensures { OnOk result (words.new.items ≡ words.old.items ++ initial_words initial.now) }
{
    if let Some(word) = initial {
        words.push(Word::said(alloc, b":=", word.left)?)?;
        words.push(word.moved(alloc, word.left)?)?;
    }
    Ok(())
}

impl Member {
    ghost use Rattle.il_units.specs.Members.{entry_of};

    /// The declaration of a variable, or of an instance of a standard block.
    pub fn declaration(&self, alloc: Global) -> Result<Entry, AllocError>
        ensures { IfOk result (λ e. e ≡ entry_of self.now) }
    {
        let mut words = Vec::new(alloc);
        push_place(alloc, &mut words, &self.place)?;
        words.push(Word::said(alloc, b":", self.ty.left)?)?;
        words.push(self.ty.moved(alloc, self.ty.left)?)?;
        push_initial(alloc, &mut words, &self.initial)?;
        words.push(Word::said(alloc, b";", self.ty.left)?)?;
        Ok(Entry {
            retained: self.retained,
            name: self.name.moved(alloc, self.name.left)?,
            words: Words::of(words),
        })
    }
}
