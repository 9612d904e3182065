//! Operators with what stands behind them (IEC 61131-3:2003, B.2.1 and B.2.2).

ghost use Rattle.std.specs.Prelude.{◌≡◌, option_map};
ghost use Rattle.il_reader.specs.Tokens.{tokens_of, token};
ghost use Rattle.il_reader.specs.Reading.{Takes};
ghost use Rattle.il_reader.specs.Grammar.{operand, behind, operation, form_of, operator_from, operator_of};
ghost use Rattle.il_reader.specs.Grammar.{is_line_stop};
ghost use Rattle.il_reader.specs.Walk.{operator_at, optional_operand_at, nested_at, either_at, behind_at, operation_at};
ghost use Rattle.il_reader.specs.Walk.{optional_operation_at};

use crate::calls::call_read;
use crate::contents::{Behind, Operand, Operation, Operator};
use crate::fault::Failure;
use crate::lexeme::{Lexeme, Sign, next};
use crate::operands::operand_read;
use crate::reading::{expected, is, is_end, refused};
use il_model::{Dialect, Mnemonic, Modifier, Op};
use std::alloc::Global;

/// What may stand behind an operator: an operand, nothing, a label, an instance that is called, or an operand or a
/// parenthesis.
#[derive(Clone, Copy, PartialEq, Eq)]
pub enum Form {
    Operand,
    Nothing,
    Label,
    Call,
    Either,
}

fn follows(op: Op) -> Form
    ensures { result ≡ form_of op }
{
    match op {
        Op::Ld | Op::St | Op::S | Op::R | Op::Shift(_) => Form::Operand,
        Op::Jmp => Form::Label,
        Op::Cal => Form::Call,
        Op::Not | Op::Ret | Op::Close | Op::Empty => Form::Nothing,
        Op::IntToDint | Op::DintToInt | Op::DintToLint | Op::LintToDint => Form::Nothing,
        Op::Apply(_) => Form::Nothing,
        _ => Form::Either,
    }
}

fn operator_with(left: usize, mnemonic: Option<Mnemonic>) -> Option<Operator>
    ensures { result ≡ operator_from left mnemonic }
{
    match mnemonic {
        Some(mnemonic) => Some(Operator { mnemonic, left }),
        None => None,
    }
}

#[tactic(auto, unfolding(crate::specs::Grammar::operator_of))]
fn operator(dialect: Dialect, t: Lexeme) -> Option<Operator>
    ensures { result ≡ operator_of dialect (token t.entry) }
{
    if is(Sign::Name, t) || is(Sign::Ampersand, t) {
        operator_with(t.left, dialect.operator(t.text))
    } else if is(Sign::Close, t) {
        let modifier = Modifier {
            negated: false,
            conditional: false,
            opens: false,
        };
        let mnemonic = Mnemonic {
            op: Op::Close,
            modifier,
        };
        Some(Operator {
            mnemonic,
            left: t.left,
        })
    } else {
        None
    }
}

#[tactic(auto, unfolding(crate::specs::Walk::operator_at, crate::specs::Grammar::operator_of))]
fn operator_read(dialect: Dialect, bytes: &[u8]) -> Result<(Operator, &[u8]), Failure>
    ensures { Takes dialect (λ x. x) (operator_at dialect) bytes.now result }
{
    let (t, rest) = next(dialect, bytes);
    match operator(dialect, t) {
        Some(found) => Ok((found, rest)),
        None => Err(refused(t)),
    }
}

/// Whether an instruction line ends here.
pub fn at_line_stop(dialect: Dialect, bytes: &[u8]) -> bool
    ensures { result ≡ is_line_stop (tokens_of dialect bytes.now) }
{
    let (t, _) = next(dialect, bytes);
    is(Sign::Break, t) || is_end(t)
}

#[tactic(auto, unfolding(crate::specs::Walk::optional_operand_at))]
fn optional_operand(dialect: Dialect, bytes: &[u8]) -> Result<(Option<Operand<'_>>, &[u8]), Failure>
    ensures { Takes dialect (option_map operand) optional_operand_at bytes.now result }
{
    if at_line_stop(dialect, bytes) {
        Ok((None, bytes))
    } else {
        let (x, rest) = operand_read(dialect, bytes)?;
        Ok((Some(x), rest))
    }
}

#[tactic(auto, unfolding(crate::specs::Walk::nested_at))]
fn nested(dialect: Dialect, bytes: &[u8]) -> Result<(Option<Operand<'_>>, &[u8]), Failure>
    ensures { Takes dialect (option_map operand) nested_at bytes.now result }
{
    let (_, rest) = expected(dialect, Sign::Open, bytes)?;
    optional_operand(dialect, rest)
}

#[tactic(auto, unfolding(crate::specs::Walk::either_at))]
fn either(dialect: Dialect, bytes: &[u8]) -> Result<(Behind<'_>, &[u8]), Failure>
    ensures { Takes dialect behind either_at bytes.now result }
{
    let (t, _) = next(dialect, bytes);
    if is(Sign::Open, t) {
        let (x, rest) = nested(dialect, bytes)?;
        Ok((Behind::Opened(x), rest))
    } else {
        let (x, rest) = operand_read(dialect, bytes)?;
        Ok((Behind::Given(x), rest))
    }
}

#[tactic(auto, unfolding(crate::specs::Walk::behind_at))]
fn behind_read(
    dialect: Dialect,
    alloc: Global,
    form: Form,
    bytes: &[u8],
) -> Result<(Behind<'_>, &[u8]), Failure>
    ensures { Takes dialect behind (behind_at form) bytes.now result }
{
    match form {
        Form::Operand => {
            let (x, rest) = operand_read(dialect, bytes)?;
            Ok((Behind::Given(x), rest))
        }
        Form::Nothing => Ok((Behind::Nothing, bytes)),
        Form::Label => {
            let (t, rest) = expected(dialect, Sign::Name, bytes)?;
            Ok((Behind::Target(t), rest))
        }
        Form::Either => either(dialect, bytes),
        Form::Call => {
            let (x, rest) = call_read(dialect, alloc, bytes)?;
            Ok((Behind::Called(x), rest))
        }
    }
}

/// An operator with what stands behind it.
#[tactic(auto, unfolding(crate::specs::Walk::operation_at))]
pub fn operation_read(
    dialect: Dialect,
    alloc: Global,
    bytes: &[u8],
) -> Result<(Operation<'_>, &[u8]), Failure>
    ensures { Takes dialect operation (operation_at dialect) bytes.now result }
{
    let (operator, rest) = operator_read(dialect, bytes)?;
    let (behind, rest) = behind_read(dialect, alloc, follows(operator.mnemonic.op), rest)?;
    Ok((Operation { operator, behind }, rest))
}

/// An operation, where the line doesn't end.
#[tactic(auto, unfolding(crate::specs::Walk::optional_operation_at))]
pub fn optional_operation(
    dialect: Dialect,
    alloc: Global,
    bytes: &[u8],
) -> Result<(Option<Operation<'_>>, &[u8]), Failure>
    ensures { Takes dialect (option_map operation) (optional_operation_at dialect) bytes.now result }
{
    if at_line_stop(dialect, bytes) {
        Ok((None, bytes))
    } else {
        let (x, rest) = operation_read(dialect, alloc, bytes)?;
        Ok((Some(x), rest))
    }
}
