//! LIMIT, SEL and MUX (IEC 61131-3:2003, 2.5.1.5.4) by operators.

ghost use Rattle.std.specs.Prelude.{◌≡◌, ◌++◌, ◌∷◌, [], map, codes, IfOk, OnOk};
ghost use Rattle.std.specs.Fmt.{decimal};
ghost use Rattle.il_model.specs.Words.{split_last};
ghost use Rattle.il_model.specs.Typing.{kind_field};
ghost use Rattle.il_reader.specs.Grammar.{operand};
ghost use Rattle.il_units.specs.Choices.{literal_type, address_type, standard_type, type_of_field, type_of_parts};
ghost use Rattle.il_units.specs.Choices.{type_of_name};
ghost use Rattle.il_units.specs.Choices.{type_of_operand, type_of_choice, chosen, chosen_entry, case_label, case_of};
ghost use Rattle.il_units.specs.Choices.{cases_from, cases, selected, number_literal, test_of, tests_from, multiplexed};
ghost use Rattle.il_units.specs.Choices.{limited, choice_named, made};
ghost use Rattle.il_units.specs.Members.{member_named};

use crate::calls::push_passed;
use crate::flat::Body;
use crate::members::{Member, member_named, type_named, type_word};
use crate::scope::{Scope, jump, ld, mark, st, with_operand};
use crate::word::{Entry, Line, Sort, Text, Word, Words};
use il_model::{BlockKind, Dialect, Field, Literal, Ty, loc_type, split_last, under};
use il_reader::Operand;
use std::alloc::{AllocError, Global};

/// A choice among values.
#[derive(Clone, Copy, Debug, PartialEq, Eq)]
pub enum Choice {
    Limit,
    Sel,
    Mux,
}

static ALL: [Choice; 3] = [Choice::Limit, Choice::Sel, Choice::Mux];

/// The variable that a choice leaves its value in; its first part is no name of a unit or of an instance.
const CHOSEN: &[u8] = b"LD";

// ---- types

/// The type of a literal, where it has one.
fn literal_type(literal: Option<Literal>) -> Option<Ty>
    ensures { result ≡ literal_type literal }
{
    match literal {
        Some(Literal::Typed(v)) => Some(v.ty()),
        Some(Literal::Bare(_)) | None => None,
    }
}

/// The type of a location's value in an instruction.
fn address_type(text: &[u8]) -> Option<Ty>
    ensures { result ≡ address_type text.now }
{
    match Dialect::Extended.location(text) {
        Some(loc) => loc_type(loc),
        None => None,
    }
}

/// The field of a name that a standard block has.
fn kind_field(kind: BlockKind, name: &[u8]) -> Option<Field>
    ensures { result ≡ kind_field kind name.now }
{
    let number = kind.field_number(name)?;
    kind.field(number)
}

/// The type of a field of a standard block.
fn standard_type(field: &[u8], m: &Member) -> Option<Ty>
    ensures { result ≡ standard_type field.now m.now }
{
    let kind = BlockKind::of_name(m.ty.text.bytes())?;
    let found = kind_field(kind, field)?;
    Some(found.ty())
}

/// The type of the field of an instance.
fn type_of_field(scope: Scope, x: &[u8], field: &[u8]) -> Option<Ty>
    ensures { result ≡ type_of_field scope.entry.above.now scope.entry.members.now x.now field.now }
{
    match scope.block_of(x) {
        Some(block) => {
            let m = member_named(block.members(), field)?;
            type_named(m.ty.text.bytes())
        }
        None => {
            let m = member_named(scope.members, x)?;
            standard_type(field, m)
        }
    }
}

/// The type of a field behind the last dot of a name.
fn type_of_parts(scope: Scope, name: &[u8]) -> Option<Ty>
    ensures { result ≡ type_of_parts scope.entry.above.now scope.entry.members.now (split_last name.now) }
{
    match split_last(name) {
        Some((x, field)) => type_of_field(scope, x, field),
        None => None,
    }
}

/// The type of a variable, or of a field behind the last dot of its name.
fn type_of_name(scope: Scope, name: &[u8]) -> Option<Ty>
    ensures { result ≡ type_of_name scope.entry.above.now scope.entry.members.now name.now
        (member_named scope.entry.members.now name.now) }
{
    match member_named(scope.members, name) {
        Some(m) => type_named(m.ty.text.bytes()),
        None => type_of_parts(scope, name),
    }
}

/// The type of an operand; None of a bare number, and where it isn't known.
pub fn type_of_operand(scope: Scope, x: Operand) -> Result<Option<Ty>, AllocError>
    ensures { IfOk result (λ o. o
        ≡ type_of_operand scope.entry.above.now scope.entry.members.now (operand x.entry)) }
{
    match x {
        Operand::Constant(t) => Ok(literal_type(Dialect::Extended.literal(t.text))),
        Operand::Direct(t) => Ok(address_type(t.text)),
        Operand::Named(t) => {
            let name = Text::capitals(scope.alloc, t.text)?;
            Ok(type_of_name(scope, name.bytes()))
        }
        Operand::Field(t, f) => {
            let x = Text::capitals(scope.alloc, t.text)?;
            let field = Text::capitals(scope.alloc, f.text)?;
            Ok(type_of_field(scope, x.bytes(), field.bytes()))
        }
    }
}

/// The type of the first operand that has one, else INT.
#[tactic(auto, unfolding(crate::specs::Choices::type_of_choice))]
fn type_of_choice(scope: Scope, others: &[Operand]) -> Result<Ty, AllocError>
    ensures { IfOk result (λ ty. ty
        ≡ type_of_choice scope.entry.above.now scope.entry.members.now (map operand others.now)) }
{
    let mut rest = others;
    while let [x, more @ ..] = rest {
        if let Some(ty) = type_of_operand(scope, *x)? {
            return Ok(ty);
        }
        rest = more;
    }
    Ok(Ty::Int)
}

// ---- choices

/// The variable that a choice leaves a value in.
fn chosen(alloc: Global, part: &[u8], left: usize) -> Result<Word, AllocError>
    ensures { IfOk result (λ w. w ≡ chosen part.now left) }
{
    Word::under(alloc, Sort::Shared, CHOSEN, part, left)
}

/// Its declaration.
fn chosen_entry(alloc: Global, part: &[u8], ty: Ty, left: usize) -> Result<Entry, AllocError>
    ensures { IfOk result (λ e. e ≡ chosen_entry part.now ty left) }
{
    let mut words = Vec::new(alloc);
    words.push(Word::said(alloc, b":", left)?)?;
    words.push(Word::said(alloc, type_word(ty), left)?)?;
    words.push(Word::said(alloc, b";", left)?)?;
    Ok(Entry {
        retained: false,
        name: chosen(alloc, part, left)?,
        words: Words::of(words),
    })
}

/// The last part of the label of the n-th value.
fn case_part(alloc: Global, n: usize) -> Result<Text, AllocError>
    ensures { IfOk result (λ t. t ≡ codes "I" ++ decimal n) }
{
    let name = format!(in alloc; "I{n}")?;
    Text::copied(alloc, name.as_str().as_bytes())
}

/// The literal of a number.
fn number_literal(alloc: Global, n: usize) -> Result<Text, AllocError>
    ensures { IfOk result (λ t. t ≡ number_literal n) }
{
    let name = format!(in alloc; "INT#{n}")?;
    Text::copied(alloc, name.as_str().as_bytes())
}

/// Puts the lines of the n-th value behind the others.
fn push_case(
    scope: Scope,
    lines: &mut Vec<Line>,
    call: &[u8],
    ty: Ty,
    place: (usize, usize),
    x: Operand,
) -> Result<(), AllocError>
    ensures { OnOk result (lines.new.items ≡ lines.old.items
        ++ case_of scope.entry.members.now call.now ty place.0 place.1 (operand x.entry)) }
{
    let alloc = scope.alloc;
    let (left, n) = place;
    let part = case_part(alloc, n)?;
    lines.push(mark(alloc, call, part.bytes(), left)?)?;
    let value = scope.operand(x)?;
    let v = chosen(alloc, type_word(ty), left)?;
    push_passed(alloc, lines, type_word(ty), value, v, left)?;
    lines.push(jump(alloc, b"JMP", call, b"RET", left)?)?;
    Ok(())
}

/// Puts the lines of all values behind the others.
#[tactic(auto, unfolding(crate::specs::Choices::cases_from))]
fn push_values(
    scope: Scope,
    lines: &mut Vec<Line>,
    call: &[u8],
    ty: Ty,
    others: &[Operand],
    left: usize,
) -> Result<(), AllocError>
    ensures { OnOk result (lines.new.items ≡ lines.old.items
        ++ cases_from scope.entry.members.now call.now ty left 0 (map operand others.now)) }
{
    for (n, x) in others.iter().enumerate() {
        push_case(scope, lines, call, ty, (left, n), *x)?;
    }
    Ok(())
}

/// Puts the lines of all values behind the others, and behind them the one that was chosen.
fn push_cases(
    scope: Scope,
    lines: &mut Vec<Line>,
    call: &[u8],
    ty: Ty,
    others: &[Operand],
    left: usize,
) -> Result<(), AllocError>
    ensures { OnOk result (lines.new.items ≡ lines.old.items
        ++ cases scope.entry.members.now call.now ty (map operand others.now) left) }
{
    let alloc = scope.alloc;
    push_values(scope, lines, call, ty, others, left)?;
    lines.push(mark(alloc, call, b"RET", left)?)?;
    let value = chosen(alloc, type_word(ty), left)?;
    lines.push(ld(alloc, value, left)?)?;
    Ok(())
}

/// SEL in0, in1: with a current result that is TRUE the second.
fn selected(scope: Scope, call: &[u8], others: &[Operand], left: usize) -> Result<Body, AllocError>
    ensures { IfOk result (λ b. b ≡ selected scope.entry.above.now scope.entry.members.now call.now
        (map operand others.now) left) }
{
    let alloc = scope.alloc;
    let ty = type_of_choice(scope, others)?;
    let mut shared = Vec::new(alloc);
    shared.push(chosen_entry(alloc, type_word(ty), ty, left)?)?;
    let mut lines = Vec::new(alloc);
    let second = case_part(alloc, 1)?;
    lines.push(jump(alloc, b"JMPC", call, second.bytes(), left)?)?;
    push_cases(scope, &mut lines, call, ty, others, left)?;
    Ok(Body::of(shared, lines, 0))
}

/// Puts the lines behind the others that jump to the n-th value where the number is n.
fn push_test(
    alloc: Global,
    lines: &mut Vec<Line>,
    call: &[u8],
    left: usize,
    n: usize,
) -> Result<(), AllocError>
    ensures { OnOk result (lines.new.items ≡ lines.old.items ++ test_of call.now left n) }
{
    let number = chosen(alloc, b"K", left)?;
    lines.push(ld(alloc, number, left)?)?;
    let literal = Word {
        sort: Sort::Said,
        text: number_literal(alloc, n)?,
        left,
    };
    lines.push(with_operand(alloc, b"EQ", literal, left)?)?;
    let part = case_part(alloc, n)?;
    lines.push(jump(alloc, b"JMPC", call, part.bytes(), left)?)?;
    Ok(())
}

#[tactic(auto, unfolding(crate::specs::Choices::tests_from))]
fn push_tests(
    alloc: Global,
    lines: &mut Vec<Line>,
    call: &[u8],
    others: &[Operand],
    left: usize,
) -> Result<(), AllocError>
    ensures { OnOk result (lines.new.items ≡ lines.old.items
        ++ tests_from call.now left 0 (map operand others.now)) }
{
    for (n, _) in others.iter().enumerate() {
        push_test(alloc, lines, call, left, n)?;
    }
    Ok(())
}

/// MUX in0, .., in7: the one whose number the current result is, an INT, and the last where there is none.
fn multiplexed(
    scope: Scope,
    call: &[u8],
    others: &[Operand],
    left: usize,
) -> Result<Body, AllocError>
    ensures { IfOk result (λ b. b ≡ multiplexed scope.entry.above.now scope.entry.members.now call.now
        (map operand others.now) left) }
{
    let alloc = scope.alloc;
    let ty = type_of_choice(scope, others)?;
    let mut shared = Vec::new(alloc);
    shared.push(chosen_entry(alloc, b"K", Ty::Int, left)?)?;
    shared.push(chosen_entry(alloc, type_word(ty), ty, left)?)?;
    let mut lines = Vec::new(alloc);
    let number = chosen(alloc, b"K", left)?;
    lines.push(st(alloc, number, left)?)?;
    push_tests(alloc, &mut lines, call, others, left)?;
    let last = case_part(alloc, others.len().saturating_sub(1))?;
    lines.push(jump(alloc, b"JMP", call, last.bytes(), left)?)?;
    push_cases(scope, &mut lines, call, ty, others, left)?;
    Ok(Body::of(shared, lines, 0))
}

/// LIMIT with its operands: of the current result and the one the greater, of that and the other the less.
fn limited_by(scope: Scope, x: Operand, y: Operand, left: usize) -> Result<Body, AllocError>
    ensures { IfOk result (λ b. b
        ≡ limited scope.entry.members.now (operand x.entry ∷ operand y.entry ∷ []) left) }
{
    let alloc = scope.alloc;
    let mut lines = Vec::new(alloc);
    let value = scope.operand(x)?;
    lines.push(with_operand(alloc, b"MAX", value, left)?)?;
    let most = scope.operand(y)?;
    lines.push(with_operand(alloc, b"MIN", most, left)?)?;
    Ok(Body::lines(alloc, lines))
}

/// LIMIT in, mx; nothing with other operands, which are refused.
fn limited(scope: Scope, others: &[Operand], left: usize) -> Result<Body, AllocError>
    ensures { IfOk result (λ b. b ≡ limited scope.entry.members.now (map operand others.now) left) }
{
    let [x, more @ ..] = others else {
        return Ok(Body::new(scope.alloc));
    };
    let [y, rest @ ..] = more else {
        return Ok(Body::new(scope.alloc));
    };
    match rest {
        [] => limited_by(scope, *x, *y, left),
        [_, ..] => Ok(Body::new(scope.alloc)),
    }
}

impl Choice {
    ghost use Rattle.std.specs.Prelude.{◌≡◌, IfOk, map};
    ghost use Rattle.il_reader.specs.Grammar.{operand};
    ghost use Rattle.il_units.specs.Choices.{choice_word, choice_named, made};

    /// Its word, in capital letters.
    fn word(self) -> &'static [u8]
        ensures { result.now ≡ choice_word self }
    {
        match self {
            Choice::Limit => b"LIMIT",
            Choice::Sel => b"SEL",
            Choice::Mux => b"MUX",
        }
    }

    /// The choice that a word in capital letters is.
    pub fn named(word: &[u8]) -> Option<Choice>
        ensures { result ≡ choice_named word.now }
    {
        ALL.iter().copied().find(|choice| choice.word() == word)
    }

    /// The choice by operators.
    pub fn made(
        self,
        scope: Scope,
        call: &[u8],
        others: &[Operand],
        left: usize,
    ) -> Result<Body, AllocError>
        ensures { IfOk result (λ b. b ≡ made self scope.entry.above.now scope.entry.members.now call.now
            (map operand others.now) left) }
    {
        match self {
            Choice::Limit => limited(scope, others, left),
            Choice::Sel => selected(scope, call, others, left),
            Choice::Mux => multiplexed(scope, call, others, left),
        }
    }
}
