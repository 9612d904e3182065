//! Calls of own blocks and functions.

ghost use Rattle.std.specs.Prelude.{◌≡◌, ◌++◌, ◌∷◌, [], map, false, IfOk, OnOk, MatchOption, option_copied};
ghost use Rattle.std.specs.List.{flat_map, filter, zip};
ghost use Rattle.il_reader.specs.Grammar.{operand, argument, call, arguments_of};
ghost use Rattle.il_units.specs.Words.{placing, placed_line, placed_entry, moved_entry, capitals};
ghost use Rattle.il_units.specs.Members.{operand_word, type_named};
ghost use Rattle.il_units.specs.Calls.{argued, given_by, given_words};
ghost use Rattle.il_units.specs.Calls.{passed, input_of};
ghost use Rattle.il_units.specs.Calls.{input_as, output_of, output_as, skip_word, skipped, placed_body, called};
ghost use Rattle.il_units.specs.Calls.{instance_placing, made_call, is_input_kind, is_input, shared_in, other_input};
ghost use Rattle.il_units.specs.Calls.{function_inputs, zero_of_type, first_literal, first_value, function_placing};
ghost use Rattle.il_units.specs.Calls.{applied_lines, function_entries, applied, called_lines};

use crate::contents::SectionKind;
use crate::flat::{Body, Flat};
use crate::members::{Member, member_named, settled, type_named};
use crate::scope::{Scope, jump, ld, mark, st};
use crate::word::{Entry, Given, Line, Sort, Spot, Text, Word};
use il_model::{Modifier, Ty};
use il_reader::{Argument, Call, Operand};
use std::alloc::{AllocError, Global};

// ---- arguments

/// Lets a value go into a variable of a type.
pub fn push_passed(
    alloc: Global,
    lines: &mut Vec<Line>,
    ty: &[u8],
    x: Word,
    v: Word,
    left: usize,
) -> Result<(), AllocError>
    ensures { OnOk result (lines.new.items ≡ lines.old.items ++ passed ty.now x v left) }
{
    let value = settled(alloc, ty, x)?;
    lines.push(ld(alloc, value, left)?)?;
    lines.push(st(alloc, v, left)?)?;
    Ok(())
}

/// The member of a block that an argument names.
pub fn argued<'b>(
    alloc: Global,
    block: &'b Flat,
    a: Argument,
) -> Result<Option<&'b Member>, AllocError>
    ensures { IfOk result (λ o. option_copied o ≡ argued block.entry.now (argument a.entry)) }
{
    let name = Text::capitals(alloc, a.field.text)?;
    Ok(member_named(block.members(), name.bytes()))
}

/// Puts what an argument gives for a VAR_IN_OUT behind the others.
fn push_given(
    scope: Scope,
    found: &mut Vec<Given>,
    block: &Flat,
    a: Argument,
) -> Result<(), AllocError>
    ensures { OnOk result (found.new.items ≡ found.old.items
        ++ given_by (argued block.now (argument a.entry))
        (operand_word scope.entry.members.now (argument a.entry).operand)) }
{
    if let Some(m) = argued(scope.alloc, block, a)? {
        if let SectionKind::InOut = m.kind {
            found.push(Given {
                name: Text::copied(scope.alloc, m.name.text.bytes())?,
                word: scope.operand(a.operand)?,
            })?;
        }
    }
    Ok(())
}

/// What a call gives for each VAR_IN_OUT.
fn all_given(scope: Scope, block: &Flat, args: &[Argument]) -> Result<Vec<Given>, AllocError>
    ensures { IfOk result (λ v. v.items ≡ given_words scope.entry.members.now block.now (map argument args.now)) }
{
    let mut found = Vec::new(scope.alloc);
    for a in args {
        push_given(scope, &mut found, block, *a)?;
    }
    Ok(found)
}

/// Puts the lines of an argument behind the others, where it is an input.
fn push_input(
    scope: Scope,
    lines: &mut Vec<Line>,
    block: &Flat,
    front: &[u8],
    a: Argument,
) -> Result<(), AllocError>
    ensures { OnOk result (lines.new.items ≡ lines.old.items
        ++ input_of scope.entry.members.now block.now front.now (argument a.entry)) }
{
    if let Some(m) = argued(scope.alloc, block, a)? {
        if let SectionKind::Input = m.kind {
            let left = a.field.left;
            let x = scope.operand(a.operand)?;
            let v = Word::under(scope.alloc, Sort::Own, front, m.name.text.bytes(), left)?;
            push_passed(scope.alloc, lines, m.ty.text.bytes(), x, v, left)?;
        }
    }
    Ok(())
}

fn push_inputs(
    scope: Scope,
    lines: &mut Vec<Line>,
    block: &Flat,
    front: &[u8],
    args: &[Argument],
) -> Result<(), AllocError>
    ensures { OnOk result (lines.new.items ≡ lines.old.items
        ++ flat_map (input_of scope.entry.members.now block.now front.now) (map argument args.now)) }
{
    for a in args {
        push_input(scope, lines, block, front, *a)?;
    }
    Ok(())
}

/// Puts the lines of an argument behind the others, where it is an output.
fn push_output(
    scope: Scope,
    lines: &mut Vec<Line>,
    block: &Flat,
    front: &[u8],
    a: Argument,
) -> Result<(), AllocError>
    ensures { OnOk result (lines.new.items ≡ lines.old.items
        ++ output_of scope.entry.members.now block.now front.now (argument a.entry)) }
{
    if let Some(m) = argued(scope.alloc, block, a)? {
        if let SectionKind::Output = m.kind {
            let left = a.field.left;
            let v = Word::under(scope.alloc, Sort::Own, front, m.name.text.bytes(), left)?;
            lines.push(ld(scope.alloc, v, left)?)?;
            let x = scope.operand(a.operand)?;
            lines.push(st(scope.alloc, x, left)?)?;
        }
    }
    Ok(())
}

fn push_outputs(
    scope: Scope,
    lines: &mut Vec<Line>,
    block: &Flat,
    front: &[u8],
    args: &[Argument],
) -> Result<(), AllocError>
    ensures { OnOk result (lines.new.items ≡ lines.old.items
        ++ flat_map (output_of scope.entry.members.now block.now front.now) (map argument args.now)) }
{
    for a in args {
        push_output(scope, lines, block, front, *a)?;
    }
    Ok(())
}

// ---- a call of an own block

/// A call with C or CN that isn't made goes behind it.
fn push_skip(
    alloc: Global,
    lines: &mut Vec<Line>,
    call: &[u8],
    letters: Modifier,
    left: usize,
) -> Result<(), AllocError>
    ensures { OnOk result (lines.new.items ≡ lines.old.items ++ skipped call.now letters left) }
{
    if letters.conditional {
        let op: &[u8] = if letters.negated { b"JMPC" } else { b"JMPCN" };
        lines.push(jump(alloc, op, call, b"CAL", left)?)?;
    }
    Ok(())
}

/// Puts the lines of a unit where they are placed.
fn push_body(alloc: Global, lines: &mut Vec<Line>, at: Spot, unit: &Flat) -> Result<(), AllocError>
    ensures { OnOk result (lines.new.items ≡ lines.old.items ++ placed_body (placing at.entry) unit.now) }
{
    for line in unit.lines() {
        lines.push(line.placed(alloc, at)?)?;
    }
    Ok(())
}

/// Puts the body of a block where it is called.
fn push_instance(
    scope: Scope,
    lines: &mut Vec<Line>,
    block: &Flat,
    name: &[u8],
    c: &Call,
    left: usize,
) -> Result<(), AllocError>
    ensures { OnOk result (lines.new.items ≡ lines.old.items
        ++ placed_body (instance_placing scope.entry.members.now block.now name.now (call c.now) left) block.now) }
{
    let front = Text::capitals(scope.alloc, c.instance.text)?;
    let given = all_given(scope, block, c.arguments())?;
    let at = Spot {
        front: front.bytes(),
        sort: Sort::Own,
        call: name,
        given: given.as_slice(),
        left,
    };
    push_body(scope.alloc, lines, at, block)
}

/// Puts the lines of a call that is made behind the others: inputs as written, the body, outputs as written.
fn push_made_call(
    scope: Scope,
    lines: &mut Vec<Line>,
    block: &Flat,
    name: &[u8],
    c: &Call,
    left: usize,
) -> Result<(), AllocError>
    ensures { OnOk result (lines.new.items ≡ lines.old.items
        ++ made_call scope.entry.members.now block.now name.now (call c.now) left) }
{
    let front = Text::capitals(scope.alloc, c.instance.text)?;
    push_inputs(scope, lines, block, front.bytes(), c.arguments())?;
    push_instance(scope, lines, block, name, c, left)?;
    lines.push(mark(scope.alloc, name, b"RET", left)?)?;
    push_outputs(scope, lines, block, front.bytes(), c.arguments())
}

/// The call of that name of an own block.
pub fn called(
    scope: Scope,
    block: &Flat,
    name: &[u8],
    letters: Modifier,
    c: &Call,
    left: usize,
) -> Result<Body, AllocError>
    ensures { IfOk result (λ b. b ≡ called scope.entry.members.now block.now name.now letters (call c.now) left) }
{
    let alloc = scope.alloc;
    let mut lines = Vec::new(alloc);
    push_skip(alloc, &mut lines, name, letters, left)?;
    push_made_call(scope, &mut lines, block, name, c, left)?;
    lines.push(mark(alloc, name, b"CAL", left)?)?;
    Ok(Body::lines(alloc, lines))
}

// ---- an own function

/// A variable of a function.
fn shared_in(alloc: Global, f: &Flat, name: &[u8], left: usize) -> Result<Word, AllocError>
    ensures { IfOk result (λ w. w ≡ shared_in f.now name.now left) }
{
    Word::under(alloc, Sort::Shared, f.name(), name, left)
}

pub fn is_input(m: &Member) -> bool
    ensures { result ≡ is_input m.now }
{
    matches!(m.kind, SectionKind::Input)
}

/// Puts the lines of an input behind the first.
fn push_other(
    scope: Scope,
    lines: &mut Vec<Line>,
    f: &Flat,
    m: &Member,
    x: Operand,
    left: usize,
) -> Result<(), AllocError>
    ensures { OnOk result (lines.new.items ≡ lines.old.items
        ++ passed m.now.ty.text (operand_word scope.entry.members.now (operand x.entry))
        (shared_in f.now m.now.name.text left) left) }
{
    let value = scope.operand(x)?;
    let v = shared_in(scope.alloc, f, m.name.text.bytes(), left)?;
    push_passed(scope.alloc, lines, m.ty.text.bytes(), value, v, left)
}

/// The first input among the members, and the members behind it.
fn next_input(members: &[Member]) -> Option<(&Member, &[Member])>
    ensures { MatchOption result (filter is_input members.now ≡ [])
        (λ x. filter is_input members.now ≡ x.0.now ∷ filter is_input x.1.now) }
{
    let mut rest = members;
    while let [m, more @ ..] = rest {
        if is_input(m) {
            return Some((m, more));
        }
        rest = more;
    }
    None
}

/// Puts the lines of the inputs behind the first: an operand goes into each.
fn push_others(
    scope: Scope,
    lines: &mut Vec<Line>,
    f: &Flat,
    members: &[Member],
    others: &[Operand],
    left: usize,
) -> Result<(), AllocError>
    ensures { OnOk result (lines.new.items ≡ lines.old.items
        ++ flat_map (other_input scope.entry.members.now f.now left)
        (zip (filter is_input members.now) (map operand others.now))) }
{
    let mut rest = members;
    for x in others {
        let Some((m, more)) = next_input(rest) else {
            return Ok(());
        };
        push_other(scope, lines, f, m, *x, left)?;
        rest = more;
    }
    Ok(())
}

/// The first input is the current result, the others are the operands.
fn push_function_inputs(
    scope: Scope,
    lines: &mut Vec<Line>,
    f: &Flat,
    others: &[Operand],
    left: usize,
) -> Result<(), AllocError>
    ensures { OnOk result (lines.new.items ≡ lines.old.items
        ++ function_inputs scope.entry.members.now f.now left (filter is_input f.now.members)
        (map operand others.now)) }
{
    let Some((m, more)) = next_input(f.members()) else {
        return Ok(());
    };
    let v = shared_in(scope.alloc, f, m.name.text.bytes(), left)?;
    lines.push(st(scope.alloc, v, left)?)?;
    push_others(scope, lines, f, more, others, left)
}

/// The literal of the first value of a type.
fn zero_of_type(ty: Option<Ty>) -> &'static [u8]
    ensures { result.now ≡ zero_of_type ty }
{
    match ty {
        None => b"FALSE",
        Some(Ty::Bool) => b"FALSE",
        Some(Ty::Int) => b"INT#0",
        Some(Ty::Dint) => b"DINT#0",
        Some(Ty::Time) => b"T#0s",
        Some(Ty::Lint) => b"LINT#0",
        Some(Ty::Real) => b"0.0",
        Some(Ty::Word) => b"WORD#0",
        Some(Ty::Dword) => b"DWORD#0",
    }
}

/// The literal of the first value of a member.
fn first_literal(m: &Member) -> &[u8]
    ensures { result.now ≡ first_literal m.now.ty.text m.now.initial }
{
    match &m.initial {
        Some(word) => word.text.bytes(),
        None => zero_of_type(type_named(m.ty.text.bytes())),
    }
}

/// Puts the lines behind the others that let a variable of a function begin anew.
fn push_first_value(
    alloc: Global,
    lines: &mut Vec<Line>,
    f: &Flat,
    m: &Member,
    left: usize,
) -> Result<(), AllocError>
    ensures { OnOk result (lines.new.items ≡ lines.old.items ++ first_value f.now left m.now) }
{
    if let SectionKind::Local = m.kind {
        let first = Word::said(alloc, first_literal(m), left)?;
        let v = shared_in(alloc, f, m.name.text.bytes(), left)?;
        push_passed(alloc, lines, m.ty.text.bytes(), first, v, left)?;
    }
    Ok(())
}

fn push_first_values(
    alloc: Global,
    lines: &mut Vec<Line>,
    f: &Flat,
    left: usize,
) -> Result<(), AllocError>
    ensures { OnOk result (lines.new.items ≡ lines.old.items ++ flat_map (first_value f.now left) f.now.members) }
{
    for m in f.members() {
        push_first_value(alloc, lines, f, m, left)?;
    }
    Ok(())
}

/// Where the body of a function is placed.
fn function_spot<'s>(f: &'s Flat, call: &'s [u8], left: usize) -> Spot<'s>
    ensures { placing result ≡ function_placing f.entry.now call.entry.now left }
{
    Spot {
        front: f.name(),
        sort: Sort::Shared,
        call,
        given: &[],
        left,
    }
}

/// The lines of a call of a function.
fn applied_lines(
    scope: Scope,
    f: &Flat,
    call: &[u8],
    others: &[Operand],
    left: usize,
) -> Result<Vec<Line>, AllocError>
    ensures { IfOk result (λ v. v.items
        ≡ applied_lines scope.entry.members.now f.now call.now (map operand others.now) left) }
{
    let alloc = scope.alloc;
    let mut lines = Vec::new(alloc);
    push_function_inputs(scope, &mut lines, f, others, left)?;
    push_first_values(alloc, &mut lines, f, left)?;
    push_body(alloc, &mut lines, function_spot(f, call, left), f)?;
    lines.push(mark(alloc, call, b"RET", left)?)?;
    let given = shared_in(alloc, f, f.name(), left)?;
    lines.push(ld(alloc, given, left)?)?;
    Ok(lines)
}

/// Puts the variables of the functions that a function uses behind the others.
fn push_used(alloc: Global, found: &mut Vec<Entry>, f: &Flat, left: usize) -> Result<(), AllocError>
    ensures { OnOk result (found.new.items ≡ found.old.items ++ map (moved_entry left) f.now.shared) }
{
    for e in f.shared() {
        found.push(e.moved(alloc, left)?)?;
    }
    Ok(())
}

/// Puts the variables of a function behind the others.
fn push_variables(
    alloc: Global,
    found: &mut Vec<Entry>,
    at: Spot,
    f: &Flat,
) -> Result<(), AllocError>
    ensures { OnOk result (found.new.items
        ≡ found.old.items ++ map (placed_entry (placing at.entry) false) f.now.declared) }
{
    for e in f.declared() {
        found.push(e.placed(alloc, at, false)?)?;
    }
    Ok(())
}

/// The variables of a function, and of those that it uses.
fn function_entries(
    alloc: Global,
    f: &Flat,
    call: &[u8],
    left: usize,
) -> Result<Vec<Entry>, AllocError>
    ensures { IfOk result (λ v. v.items ≡ function_entries f.now call.now left) }
{
    let mut found = Vec::new(alloc);
    push_used(alloc, &mut found, f, left)?;
    push_variables(alloc, &mut found, function_spot(f, call, left), f)?;
    Ok(found)
}

/// The call of that name of an own function: the current result is its first input, and what it gives becomes the
/// current result.
pub fn applied(
    scope: Scope,
    f: &Flat,
    call: &[u8],
    others: &[Operand],
    left: usize,
) -> Result<Body, AllocError>
    ensures { IfOk result (λ b. b
        ≡ applied scope.entry.members.now f.now call.now (map operand others.now) left) }
{
    let lines = applied_lines(scope, f, call, others, left)?;
    let shared = function_entries(scope.alloc, f, call, left)?;
    Ok(Body::of(shared, lines, f.depth()))
}
