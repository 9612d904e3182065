//! The lines of a unit one after the other, in which all that it calls is replaced.

ghost use Rattle.std.specs.Prelude.{◌≡◌, ◌++◌, ◌∷◌, [], map, true, false, codes, option_map, option_copied, IfOk};
ghost use Rattle.std.specs.Prelude.{OnOk};
ghost use Rattle.std.specs.List.{flat_map};
ghost use Rattle.std.specs.Fmt.{decimal};
ghost use Rattle.il_reader.specs.Tokens.{token};
ghost use Rattle.il_reader.specs.Grammar.{operand, argument, call, arguments_of, behind, operation};
ghost use Rattle.il_units.specs.Units.{step_text, line_text, Function};
ghost use Rattle.il_units.specs.Words.{said};
ghost use Rattle.il_units.specs.Expansion.{ScopeText, scope_text, written_at, side_sign, argument_words};
ghost use Rattle.il_units.specs.Expansion.{next_argument_words, all_argument_words, call_words, optional_words};
ghost use Rattle.il_units.specs.Expansion.{is_return, lone_word, operation_words, call_name, plain_operation};
ghost use Rattle.il_units.specs.Expansion.{called_by, operated};
ghost use Rattle.il_units.specs.Expansion.{function_by, choice_by, stepped, optional_step, is_unlabelled};
ghost use Rattle.il_units.specs.Expansion.{labelled_lines, with_label};
ghost use Rattle.il_units.specs.Expansion.{line_body};

use crate::calls::{applied, called};
use crate::choices::Choice;
use crate::contents::{Step, UnitLine};
use crate::flat::{Body, unit_named};
use crate::scope::Scope;
use crate::word::{Line, Sort, Text, Word, Words};
use il_model::{Dialect, Mnemonic, Op, Side};
use il_reader::{Argument, Behind, Call, Lexeme, Operand, Operation, next};
use std::alloc::{AllocError, Global};

// ---- lines that are no call

/// An operator as it is written: the token that begins there.
fn written_at(text: &[u8], left: usize) -> &[u8]
    ensures { result.now ≡ written_at text.now left }
{
    let from = text.len().saturating_sub(left);
    let (t, _) = next(Dialect::Extended, &text[from..]);
    t.text
}

fn side_sign(side: Side) -> &'static [u8]
    ensures { result.now ≡ side_sign side }
{
    match side {
        Side::Input => b":=",
        Side::Output => b"=>",
    }
}

/// Puts the words of an argument behind the others.
fn push_argument(scope: Scope, words: &mut Vec<Word>, a: Argument) -> Result<(), AllocError>
    ensures { OnOk result (words.new.items
        ≡ words.old.items ++ argument_words scope.entry.members.now (argument a.entry)) }
{
    let left = a.field.left;
    let field = Text::capitals(scope.alloc, a.field.text)?;
    words.push(Word {
        sort: Sort::Said,
        text: field,
        left,
    })?;
    words.push(scope.said(side_sign(a.side), left)?)?;
    words.push(scope.operand(a.operand)?)?;
    Ok(())
}

/// Puts the words of the arguments behind the first behind the others.
fn push_next_arguments(
    scope: Scope,
    words: &mut Vec<Word>,
    args: &[Argument],
) -> Result<(), AllocError>
    ensures { OnOk result (words.new.items ≡ words.old.items
        ++ flat_map (next_argument_words scope.entry.members.now) (map argument args.now)) }
{
    for a in args {
        words.push(scope.said(b",", a.field.left)?)?;
        push_argument(scope, words, *a)?;
    }
    Ok(())
}

fn push_arguments(scope: Scope, words: &mut Vec<Word>, args: &[Argument]) -> Result<(), AllocError>
    ensures { OnOk result (words.new.items ≡ words.old.items
        ++ all_argument_words scope.entry.members.now (map argument args.now)) }
{
    match args {
        [] => Ok(()),
        [a, more @ ..] => {
            push_argument(scope, words, *a)?;
            push_next_arguments(scope, words, more)
        }
    }
}

/// The words of a call of a standard block.
fn call_words(scope: Scope, op: &[u8], c: &Call, left: usize) -> Result<Words, AllocError>
    ensures { IfOk result (λ ws. ws ≡ call_words scope.entry.members.now op.now (call c.now) left) }
{
    let mut words = Vec::new(scope.alloc);
    words.push(scope.said(op, left)?)?;
    words.push(Word {
        sort: Sort::Own,
        text: Text::capitals(scope.alloc, c.instance.text)?,
        left: c.instance.left,
    })?;
    words.push(scope.said(b"(", left)?)?;
    push_arguments(scope, &mut words, c.arguments())?;
    words.push(scope.said(b")", left)?)?;
    Ok(Words::of(words))
}

/// Whether an operator is a return.
fn is_return(op: Op) -> bool
    ensures { result ≡ is_return op }
{
    match op {
        Op::Ret => true,
        _ => false,
    }
}

/// The word of an operator alone.
fn lone_word(alloc: Global, m: Mnemonic, op: &[u8], left: usize) -> Result<Word, AllocError>
    ensures { IfOk result (λ w. w ≡ lone_word m op.now left) }
{
    if is_return(m.op) {
        Word::of(alloc, Sort::Return(m.modifier), op, left)
    } else {
        Word::said(alloc, op, left)
    }
}

/// The words of an operator with a word behind it.
fn two_words(scope: Scope, op: &[u8], x: Word, left: usize) -> Result<Words, AllocError>
    ensures { IfOk result (λ ws. ws ≡ said op.now left ∷ x ∷ []) }
{
    let mut words = Vec::new(scope.alloc);
    words.push(scope.said(op, left)?)?;
    words.push(x)?;
    Ok(Words::of(words))
}

/// The words of an operator with a parenthesis behind it.
fn opened_words(
    scope: Scope,
    op: &[u8],
    x: Option<Operand>,
    left: usize,
) -> Result<Words, AllocError>
    ensures { IfOk result (λ ws. ws ≡ said op.now left ∷ said (codes "(") left
        ∷ optional_words scope.entry.members.now (option_map operand x.entry)) }
{
    let mut words = Vec::new(scope.alloc);
    words.push(scope.said(op, left)?)?;
    words.push(scope.said(b"(", left)?)?;
    if let Some(x) = x {
        words.push(scope.operand(x)?)?;
    }
    Ok(Words::of(words))
}

/// The words of an operation.
fn operation_words(
    scope: Scope,
    m: Mnemonic,
    op: &[u8],
    b: &Behind,
    left: usize,
) -> Result<Words, AllocError>
    ensures { IfOk result (λ ws. ws ≡ operation_words scope.entry.members.now m op.now (behind b.now) left) }
{
    match b {
        Behind::Nothing => {
            let mut words = Vec::new(scope.alloc);
            words.push(lone_word(scope.alloc, m, op, left)?)?;
            Ok(Words::of(words))
        }
        Behind::Given(x) => {
            let word = scope.operand(*x)?;
            two_words(scope, op, word, left)
        }
        Behind::Target(t) => {
            let target = Word {
                sort: Sort::Label,
                text: Text::capitals(scope.alloc, t.text)?,
                left: t.left,
            };
            two_words(scope, op, target, left)
        }
        Behind::Opened(x) => opened_words(scope, op, *x, left),
        Behind::Called(c) => call_words(scope, op, c, left),
    }
}

// ---- lines

/// The front of the labels of the call in the k-th line.
fn call_name(alloc: Global, k: usize) -> Result<Text, AllocError>
    ensures { IfOk result (λ t. t ≡ call_name k) }
{
    let name = format!(in alloc; "C{k}")?;
    Text::copied(alloc, name.as_str().as_bytes())
}

fn plain_operation(scope: Scope, o: &Operation) -> Result<Body, AllocError>
    ensures { IfOk result (λ b. b ≡ plain_operation (scope_text scope.entry) (operation o.now)) }
{
    let left = o.operator.left;
    let op = written_at(scope.text, left);
    let mut lines = Vec::new(scope.alloc);
    lines.push(Line {
        label: None,
        words: operation_words(scope, o.operator.mnemonic, op, &o.behind, left)?,
        left,
    })?;
    Ok(Body::lines(scope.alloc, lines))
}

/// A call, of an own block or of a standard one.
fn called_by(scope: Scope, name: &[u8], c: &Call, o: &Operation) -> Result<Body, AllocError>
    ensures { IfOk result (λ b. b
        ≡ called_by (scope_text scope.entry) name.now (call c.now) (operation o.now)) }
{
    let instance = Text::capitals(scope.alloc, c.instance.text)?;
    match scope.block_of(instance.bytes()) {
        Some(block) => called(
            scope,
            block,
            name,
            o.operator.mnemonic.modifier,
            c,
            o.operator.left,
        ),
        None => plain_operation(scope, o),
    }
}

/// A call, or an operation as it stands.
fn operated(scope: Scope, name: &[u8], o: &Operation) -> Result<Body, AllocError>
    ensures { IfOk result (λ b. b ≡ operated (scope_text scope.entry) name.now (operation o.now)) }
{
    match &o.behind {
        Behind::Called(c) => called_by(scope, name, c, o),
        Behind::Nothing | Behind::Given(_) | Behind::Target(_) | Behind::Opened(_) => {
            plain_operation(scope, o)
        }
    }
}

/// An own function, or a choice by operators.
fn function_by(scope: Scope, name: &[u8], t: Lexeme, others: &[Operand]) -> Result<Body, AllocError>
    ensures { IfOk result (λ b. b ≡ stepped (scope_text scope.entry) name.now
        (Function (token t.entry) (map operand others.now))) }
{
    let word = Text::capitals(scope.alloc, t.text)?;
    match unit_named(scope.above, word.bytes()) {
        Some(f) => applied(scope, f, name, others, t.left),
        None => match Choice::named(word.bytes()) {
            Some(choice) => choice.made(scope, name, others, t.left),
            None => Ok(Body::new(scope.alloc)),
        },
    }
}

fn stepped(scope: Scope, name: &[u8], step: &Step) -> Result<Body, AllocError>
    ensures { IfOk result (λ b. b ≡ stepped (scope_text scope.entry) name.now (step_text step.now)) }
{
    match step {
        Step::Operation(o) => operated(scope, name, o),
        Step::Function(t, others) => function_by(scope, name, *t, others.as_slice()),
    }
}

fn optional_step(scope: Scope, name: &[u8], step: &Option<Step>) -> Result<Body, AllocError>
    ensures { IfOk result (λ b. b
        ≡ optional_step (scope_text scope.entry) name.now (option_map step_text step.now)) }
{
    match step {
        Some(step) => stepped(scope, name, step),
        None => Ok(Body::new(scope.alloc)),
    }
}

/// Whether a line stands first that has no label.
fn is_unlabelled(lines: &[Line]) -> bool
    ensures { result ≡ is_unlabelled lines.now }
{
    match lines {
        [line, ..] => line.label.is_none(),
        [] => false,
    }
}

/// A label stands before the first of the lines, which has none.
fn first_labelled(word: Word, lines: Vec<Line>) -> Result<Vec<Line>, AllocError>
    requires { is_unlabelled lines.items ≡ true }
    ensures { IfOk result (λ v. v.items ≡ labelled_lines word lines.items) }
{
    let mut found = lines;
    let line = found.remove(0);
    found.insert(0, line.labelled(word))?;
    Ok(found)
}

/// A label stands by itself before the lines, of which the first has one.
fn label_before(alloc: Global, word: Word, lines: Vec<Line>) -> Result<Vec<Line>, AllocError>
    requires { is_unlabelled lines.items ≡ false }
    ensures { IfOk result (λ v. v.items ≡ labelled_lines word lines.items) }
{
    let mut found = lines;
    let left = word.left;
    found.insert(
        0,
        Line {
            label: Some(word),
            words: Words::of(Vec::new(alloc)),
            left,
        },
    )?;
    Ok(found)
}

/// A label stands before the first of the lines, if that has none, else by itself.
fn labelled_lines(alloc: Global, word: Word, lines: Vec<Line>) -> Result<Vec<Line>, AllocError>
    ensures { IfOk result (λ v. v.items ≡ labelled_lines word lines.items) }
{
    if is_unlabelled(lines.as_slice()) {
        first_labelled(word, lines)
    } else {
        label_before(alloc, word, lines)
    }
}

fn with_label(alloc: Global, label: Option<Lexeme>, body: Body) -> Result<Body, AllocError>
    ensures { IfOk result (λ b. b ≡ with_label (option_map token label.entry) body) }
{
    let Some(t) = label else {
        return Ok(body);
    };
    let word = Word {
        sort: Sort::Label,
        text: Text::capitals(alloc, t.text)?,
        left: t.left,
    };
    let (shared, lines, depth) = body.into_parts();
    Ok(Body::of(shared, labelled_lines(alloc, word, lines)?, depth))
}

/// What the k-th line comes to.
pub fn line_body(scope: Scope, k: usize, line: &UnitLine) -> Result<Body, AllocError>
    ensures { IfOk result (λ b. b ≡ line_body (scope_text scope.entry) k (line_text line.now)) }
{
    let name = call_name(scope.alloc, k)?;
    let body = optional_step(scope, name.bytes(), &line.step)?;
    with_label(scope.alloc, line.label, body)
}
