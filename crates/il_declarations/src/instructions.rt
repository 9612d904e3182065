//! Instructions: labels, operators with their letters, operands by name, location, value or field, arguments of calls.

ghost use Rattle.std.specs.Prelude.{◌≡◌, ◌<◌, [], map, option_map, Some};
ghost use Rattle.il_reader.specs.Tokens.{token};
ghost use Rattle.il_reader.specs.Grammar.{Named, Field, Called, operand, argument, call, behind, operation, line};
ghost use Rattle.il_model.specs.Words.{split_last};
ghost use Rattle.il_declarations.specs.Resolution.{opens, with_opening};
ghost use Rattle.il_declarations.specs.Declaring.{operation_words};
ghost use Rattle.il_declarations.specs.Walk.{Gives, constant, operand_of, field_named, optional_operand_of, behind_of};
ghost use Rattle.il_declarations.specs.Walk.{argument_of, pushed_argument, behind_arguments, instruction_of, room};
ghost use Rattle.il_declarations.specs.Walk.{label_of};
ghost use Rattle.il_declarations.specs.Walk.{instruct_labelled, instruct_plain, instruct, each};

use crate::coded::Coded;
use crate::declared::Declared;
use crate::fault::{DeclKind, Failure, FaultAt};
use crate::variables::{capital_name, refused};
use il_model::{
    Argument, Arguments, Dialect, Instr, Literal, Modifier, Name, Op, Operand, is_reserved,
    split_last,
};
use il_reader::{Behind, Call, Lexeme, Line, Operation};
use std::alloc::Global;

fn constant(t: Lexeme, given: Option<Literal>) -> Result<Operand, Failure>
    ensures { Gives (λ x. x) result (constant (token t.entry) given) }
{
    match given {
        Some(Literal::Bare(z)) => Ok(Operand::Bare(z)),
        Some(Literal::Typed(v)) => Ok(Operand::Literal(v)),
        None => Err(refused(DeclKind::UnknownName, t)),
    }
}

/// The field of an instance, by the names of both.
fn field_under(
    alloc: Global,
    known: &Declared,
    t: Lexeme,
    instance: &[u8],
    field: &[u8],
) -> Result<Operand, Failure>
    ensures { Gives (λ x. x) result (field_named known.now (token t.entry) (Some (instance.now, field.now))) }
{
    let name = Name::of(Vec::from_slice(alloc, instance)?);
    if known.is_instance(&name) {
        Ok(Operand::Field(name, Name::of(Vec::from_slice(alloc, field)?)))
    } else {
        Err(refused(DeclKind::UnknownName, t))
    }
}

/// The field of an instance, by its name with dots: the field stands behind the last one.
fn dotted_field(alloc: Global, known: &Declared, name: &Name, t: Lexeme) -> Result<Operand, Failure>
    ensures { Gives (λ x. x) result (field_named known.now (token t.entry) (split_last name.now)) }
{
    match split_last(name.bytes()) {
        Some((instance, field)) => field_under(alloc, known, t, instance, field),
        None => Err(refused(DeclKind::UnknownName, t)),
    }
}

fn variable(
    dialect: Dialect,
    alloc: Global,
    known: &Declared,
    t: Lexeme,
) -> Result<Operand, Failure>
    ensures { Gives (λ x. x) result (operand_of dialect known.now (Named (token t.entry))) }
{
    let name = capital_name(alloc, t.text)?;
    if known.is_variable(&name) {
        Ok(Operand::Variable(name))
    } else {
        dotted_field(alloc, known, &name, t)
    }
}

fn field_of(
    dialect: Dialect,
    alloc: Global,
    known: &Declared,
    t: Lexeme,
    field: Lexeme,
) -> Result<Operand, Failure>
    ensures { Gives (λ x. x) result (operand_of dialect known.now (Field (token t.entry) (token field.entry))) }
{
    let name = capital_name(alloc, t.text)?;
    if known.is_instance(&name) {
        Ok(Operand::Field(name, capital_name(alloc, field.text)?))
    } else {
        Err(refused(DeclKind::UnknownName, t))
    }
}

fn given_operand(
    dialect: Dialect,
    alloc: Global,
    known: &Declared,
    written: il_reader::Operand,
) -> Result<Operand, Failure>
    ensures { Gives (λ x. x) result (operand_of dialect known.now (operand written.entry)) }
{
    match written {
        il_reader::Operand::Constant(t) => constant(t, dialect.literal(t.text)),
        il_reader::Operand::Direct(t) => match dialect.location(t.text) {
            Some(loc) => Ok(Operand::Direct(loc)),
            None => Err(refused(DeclKind::BadLocation, t)),
        },
        il_reader::Operand::Named(t) => variable(dialect, alloc, known, t),
        il_reader::Operand::Field(t, f) => field_of(dialect, alloc, known, t, f),
    }
}

fn optional_operand(
    dialect: Dialect,
    alloc: Global,
    known: &Declared,
    written: Option<il_reader::Operand>,
) -> Result<Operand, Failure>
    ensures { Gives (λ x. x) result (optional_operand_of dialect known.now (option_map operand written.entry)) }
{
    match written {
        Some(x) => given_operand(dialect, alloc, known, x),
        None => Ok(Operand::Absent),
    }
}

fn called_instance(
    dialect: Dialect,
    alloc: Global,
    known: &Declared,
    written: &Call,
) -> Result<Operand, Failure>
    ensures { Gives (λ x. x) result (behind_of dialect known.now (Called (call written.now))) }
{
    let instance = capital_name(alloc, written.instance.text)?;
    if known.is_instance(&instance) {
        Ok(Operand::Instance(instance))
    } else {
        Err(refused(DeclKind::UnknownName, written.instance))
    }
}

fn operand_behind(
    dialect: Dialect,
    alloc: Global,
    known: &Declared,
    written: &Behind,
) -> Result<Operand, Failure>
    ensures { Gives (λ x. x) result (behind_of dialect known.now (behind written.now)) }
{
    match written {
        Behind::Nothing => Ok(Operand::Absent),
        Behind::Given(x) => given_operand(dialect, alloc, known, *x),
        Behind::Target(t) => Ok(Operand::Label(capital_name(alloc, t.text)?)),
        Behind::Opened(x) => optional_operand(dialect, alloc, known, *x),
        Behind::Called(call) => called_instance(dialect, alloc, known, call),
    }
}

#[tactic(auto, unfolding(crate::specs::Walk::argument_of))]
fn given_argument(
    dialect: Dialect,
    alloc: Global,
    known: &Declared,
    written: il_reader::Argument,
) -> Result<Argument, Failure>
    ensures { Gives (λ x. x) result (argument_of dialect known.now (argument written.entry)) }
{
    let operand = given_operand(dialect, alloc, known, written.operand)?;
    Ok(Argument {
        field: capital_name(alloc, written.field.text)?,
        side: written.side,
        operand,
    })
}

fn push_argument(
    dialect: Dialect,
    alloc: Global,
    known: &Declared,
    found: &mut Vec<Argument>,
    written: il_reader::Argument,
) -> Result<(), Failure>
    ensures { Gives (λ u. found.new.items) result
        (pushed_argument dialect known.now found.old.items (argument written.entry)) }
{
    let one = given_argument(dialect, alloc, known, written)?;
    found.push(one)?;
    Ok(())
}

fn given_arguments(
    dialect: Dialect,
    alloc: Global,
    known: &Declared,
    given: &[il_reader::Argument],
) -> Result<Vec<Argument>, Failure>
    ensures { Gives (λ v. v.items) result (each (pushed_argument dialect known.now) [] (map argument given.now)) }
{
    let mut found = Vec::new(alloc);
    for written in given {
        push_argument(dialect, alloc, known, &mut found, *written)?;
    }
    Ok(found)
}

fn arguments_behind(
    dialect: Dialect,
    alloc: Global,
    known: &Declared,
    written: &Behind,
) -> Result<Arguments<Argument>, Failure>
    ensures { Gives (λ v. v) result (behind_arguments dialect known.now (behind written.now)) }
{
    let given = match written {
        Behind::Called(call) => given_arguments(dialect, alloc, known, call.arguments())?,
        _ => Vec::new(alloc),
    };
    Ok(Arguments::of(given))
}

fn opens(written: &Behind) -> bool
    ensures { result ≡ opens (behind written.now) }
{
    matches!(written, Behind::Opened(_))
}

fn with_opening(opens: bool, m: Modifier) -> Modifier
    ensures { result ≡ with_opening opens m }
{
    Modifier {
        negated: m.negated,
        conditional: m.conditional,
        opens,
    }
}

#[tactic(auto, unfolding(crate::specs::Walk::instruction_of))]
fn instruction(
    dialect: Dialect,
    alloc: Global,
    known: &Declared,
    label: Option<Name>,
    written: &Operation,
) -> Result<Instr, Failure>
    ensures { Gives (λ x. x) result (instruction_of dialect known.now label (Some (operation written.now))) }
{
    let operand = operand_behind(dialect, alloc, known, &written.behind)?;
    let arguments = arguments_behind(dialect, alloc, known, &written.behind)?;
    let mnemonic = written.operator.mnemonic;
    Ok(Instr {
        label,
        op: mnemonic.op,
        modifier: with_opening(opens(&written.behind), mnemonic.modifier),
        operand,
        arguments,
    })
}

#[tactic(auto, unfolding(crate::specs::Walk::instruction_of))]
fn labelled(
    dialect: Dialect,
    alloc: Global,
    known: &Declared,
    label: Name,
    written: Option<&Operation>,
) -> Result<Instr, Failure>
    ensures { Gives (λ x. x) result
        (instruction_of dialect known.now (Some label) (option_map (λ o. operation o.now) written.entry)) }
{
    match written {
        Some(o) => instruction(dialect, alloc, known, Some(label), o),
        None => Ok(Instr {
            label: Some(label),
            op: Op::Empty,
            modifier: Modifier {
                negated: false,
                conditional: false,
                opens: false,
            },
            operand: Operand::Absent,
            arguments: Arguments::of(Vec::new(alloc)),
        }),
    }
}

/// How many words the instruction of an operation has.
fn operation_words(written: &Operation) -> usize
    ensures value { result ≡ operation_words (Some (operation written.now)) }
    ensures some { 0 < result }
{
    match &written.behind {
        Behind::Called(call) => 1 + call.arguments().len(),
        _ => 1,
    }
}

/// The same; that of a label alone has one.
fn words_of(written: Option<&Operation>) -> usize
    ensures value { result ≡ operation_words (option_map (λ o. operation o.now) written.entry) }
    ensures some { 0 < result }
{
    match written {
        Some(o) => operation_words(o),
        None => 1,
    }
}

fn has_room(dialect: Dialect, code: &Coded, words: usize, left: usize) -> Result<(), Failure>
    requires { 0 < words }
    ensures { Gives (λ u. u) result (room dialect code.now words left) }
{
    if code.has_no_room_for(dialect, words) {
        Err(Failure::Refused(FaultAt {
            kind: DeclKind::TooMany,
            left,
        }))
    } else {
        Ok(())
    }
}

fn lawful_label(alloc: Global, t: Lexeme) -> Result<Name, Failure>
    ensures { Gives (λ n. n) result (label_of (token t.entry)) }
{
    let name = capital_name(alloc, t.text)?;
    if is_reserved(name.bytes()) {
        Err(refused(DeclKind::ReservedName, t))
    } else {
        Ok(name)
    }
}

#[tactic(auto, unfolding(crate::specs::Walk::instruct_labelled))]
fn push_labelled(
    dialect: Dialect,
    alloc: Global,
    known: &Declared,
    code: &mut Coded,
    t: Lexeme,
    written: Option<&Operation>,
) -> Result<(), Failure>
    ensures { Gives (λ u. code.new) result
        (instruct_labelled dialect known.now code.old (token t.entry)
        (option_map (λ o. operation o.now) written.entry)) }
{
    let label = lawful_label(alloc, t)?;
    has_room(dialect, code, words_of(written), t.left)?;
    code.push(labelled(dialect, alloc, known, label, written)?)?;
    Ok(())
}

#[tactic(auto, unfolding(crate::specs::Walk::instruct_plain))]
fn push_plain(
    dialect: Dialect,
    alloc: Global,
    known: &Declared,
    code: &mut Coded,
    written: &Operation,
) -> Result<(), Failure>
    ensures { Gives (λ u. code.new) result
        (instruct_plain dialect known.now code.old (operation written.now)) }
{
    has_room(
        dialect,
        code,
        operation_words(written),
        written.operator.left,
    )?;
    code.push(instruction(dialect, alloc, known, None, written)?)?;
    Ok(())
}

fn push_line(
    dialect: Dialect,
    alloc: Global,
    known: &Declared,
    code: &mut Coded,
    written: &Line,
) -> Result<(), Failure>
    ensures { Gives (λ u. code.new) result (instruct dialect known.now code.old (line written.now)) }
{
    match written {
        Line::Labelled(t, o) => push_labelled(dialect, alloc, known, code, *t, o.as_ref()),
        Line::Plain(o) => push_plain(dialect, alloc, known, code, o),
    }
}

/// The instructions of the lines.
pub fn instructions(
    dialect: Dialect,
    alloc: Global,
    known: &Declared,
    lines: &[Line],
) -> Result<Vec<Instr>, Failure>
    ensures { Gives (λ v. v.items) result (each (instruct dialect known.now) [] (map line lines.now)) }
{
    let mut code = Coded::new(alloc);
    for written in lines {
        push_line(dialect, alloc, known, &mut code, written)?;
    }
    Ok(code.into_vec())
}
