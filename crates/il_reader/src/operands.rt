//! Operands: literals, direct addresses, variables and fields of instances (IEC 61131-3:2003, B.2.2 and 2.5.2.1).

ghost use Rattle.std.specs.Prelude.{◌≡◌, option_map};
ghost use Rattle.il_reader.specs.Tokens.{token};
ghost use Rattle.il_reader.specs.Reading.{Takes};
ghost use Rattle.il_reader.specs.Grammar.{operand, is_truth, is_variable, is_constant};
ghost use Rattle.il_reader.specs.Walk.{variable_at, constant_at, field_at, inner_field_at, named_by, lone_at};
ghost use Rattle.il_reader.specs.Walk.{operand_at, inner_operand_at};

use crate::contents::Operand;
use crate::fault::Failure;
use crate::lexeme::{Lexeme, Sign, next};
use crate::reading::{expected, is, past_breaks, refused};
use il_model::{Dialect, is_spelled};

fn truth(t: Lexeme) -> bool
    ensures { result ≡ is_truth (token t.entry) }
{
    is_spelled(b"TRUE", t.text) || is_spelled(b"FALSE", t.text)
}

fn variable(t: Lexeme) -> bool
    ensures { result ≡ is_variable (token t.entry) }
{
    is(Sign::Name, t) && !truth(t)
}

#[tactic(auto, unfolding(crate::specs::Grammar::is_constant))]
fn constant(t: Lexeme) -> bool
    ensures { result ≡ is_constant (token t.entry) }
{
    if is(Sign::Name, t) {
        truth(t)
    } else {
        is(Sign::Literal, t)
    }
}

#[tactic(auto, unfolding(crate::specs::Walk::variable_at))]
fn variable_read(dialect: Dialect, bytes: &[u8]) -> Result<(Lexeme<'_>, &[u8]), Failure>
    ensures { Takes dialect token variable_at bytes.now result }
{
    let (t, rest) = next(dialect, bytes);
    if variable(t) {
        Ok((t, rest))
    } else {
        Err(refused(t))
    }
}

/// A literal, TRUE or FALSE.
#[tactic(auto, unfolding(crate::specs::Walk::constant_at, crate::specs::Grammar::is_constant))]
pub fn constant_read(dialect: Dialect, bytes: &[u8]) -> Result<(Lexeme<'_>, &[u8]), Failure>
    ensures { Takes dialect token constant_at bytes.now result }
{
    let (t, rest) = next(dialect, bytes);
    if constant(t) {
        Ok((t, rest))
    } else {
        Err(refused(t))
    }
}

#[tactic(auto, unfolding(crate::specs::Walk::field_at))]
fn field_read(dialect: Dialect, bytes: &[u8]) -> Result<(Option<Lexeme<'_>>, &[u8]), Failure>
    ensures { Takes dialect (option_map token) field_at bytes.now result }
{
    let (t, _) = next(dialect, bytes);
    if is(Sign::Dot, t) {
        let (_, rest) = expected(dialect, Sign::Dot, bytes)?;
        let (field, rest) = expected(dialect, Sign::Name, rest)?;
        Ok((Some(field), rest))
    } else {
        Ok((None, bytes))
    }
}

#[tactic(auto, unfolding(crate::specs::Walk::inner_field_at))]
fn inner_field_read(dialect: Dialect, bytes: &[u8]) -> Result<(Option<Lexeme<'_>>, &[u8]), Failure>
    ensures { Takes dialect (option_map token) inner_field_at bytes.now result }
{
    let (t, _) = next(dialect, past_breaks(dialect, bytes));
    if is(Sign::Dot, t) {
        let (_, rest) = expected(dialect, Sign::Dot, past_breaks(dialect, bytes))?;
        let (field, rest) = expected(dialect, Sign::Name, past_breaks(dialect, rest))?;
        Ok((Some(field), rest))
    } else {
        Ok((None, bytes))
    }
}

fn named<'a>(t: Lexeme<'a>, field: Option<Lexeme<'a>>) -> Operand<'a>
    ensures { operand result ≡ named_by (token t.entry) (option_map token field.entry) }
{
    match field {
        None => Operand::Named(t),
        Some(field) => Operand::Field(t, field),
    }
}

#[tactic(auto, unfolding(crate::specs::Walk::lone_at))]
fn lone_read(dialect: Dialect, bytes: &[u8]) -> Result<(Operand<'_>, &[u8]), Failure>
    ensures { Takes dialect operand lone_at bytes.now result }
{
    let (t, _) = next(dialect, bytes);
    if is(Sign::Address, t) {
        let (t, rest) = expected(dialect, Sign::Address, bytes)?;
        Ok((Operand::Direct(t), rest))
    } else {
        let (t, rest) = constant_read(dialect, bytes)?;
        Ok((Operand::Constant(t), rest))
    }
}

/// An operand on a line.
#[tactic(auto, unfolding(crate::specs::Walk::operand_at))]
pub fn operand_read(dialect: Dialect, bytes: &[u8]) -> Result<(Operand<'_>, &[u8]), Failure>
    ensures { Takes dialect operand operand_at bytes.now result }
{
    let (t, _) = next(dialect, bytes);
    if variable(t) {
        let (t, rest) = variable_read(dialect, bytes)?;
        let (field, rest) = field_read(dialect, rest)?;
        Ok((named(t, field), rest))
    } else {
        lone_read(dialect, bytes)
    }
}

/// An operand between the parentheses of a call, where line ends are white space.
#[tactic(auto, unfolding(crate::specs::Walk::inner_operand_at))]
pub fn inner_operand_read(dialect: Dialect, bytes: &[u8]) -> Result<(Operand<'_>, &[u8]), Failure>
    ensures { Takes dialect operand inner_operand_at bytes.now result }
{
    let (t, _) = next(dialect, bytes);
    if variable(t) {
        let (t, rest) = variable_read(dialect, bytes)?;
        let (field, rest) = inner_field_read(dialect, rest)?;
        Ok((named(t, field), rest))
    } else {
        lone_read(dialect, bytes)
    }
}
