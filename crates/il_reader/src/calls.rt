//! Calls of instances (IEC 61131-3:2003, 3.2.3: CAL with a list of inputs and outputs).

ghost use Rattle.std.specs.Prelude.{◌≡◌, map, option_map};
ghost use Rattle.il_reader.specs.Tokens.{tokens_of};
ghost use Rattle.il_reader.specs.Reading.{Takes};
ghost use Rattle.il_reader.specs.Grammar.{ArgumentText, argument, call, ends_arguments};
ghost use Rattle.il_reader.specs.Walk.{side_at, argument_at, next_argument_at, inside_at, arguments_at, call_at};

use crate::contents::{Argument, Call};
use crate::fault::Failure;
use crate::lexeme::{Sign, next};
use crate::lists::{Listed, many};
use crate::operands::inner_operand_read;
use crate::reading::{expected, is, past_breaks};
use il_model::{Dialect, Side};
use std::alloc::Global;

#[tactic(auto, unfolding(crate::specs::Walk::side_at))]
fn side_read(dialect: Dialect, bytes: &[u8]) -> Result<(Side, &[u8]), Failure>
    ensures { Takes dialect (λ x. x) side_at bytes.now result }
{
    let (t, _) = next(dialect, bytes);
    if is(Sign::Arrow, t) {
        let (_, rest) = expected(dialect, Sign::Arrow, bytes)?;
        Ok((Side::Output, rest))
    } else {
        let (_, rest) = expected(dialect, Sign::Assign, bytes)?;
        Ok((Side::Input, rest))
    }
}

#[tactic(auto, unfolding(crate::specs::Walk::argument_at))]
fn argument_read(dialect: Dialect, bytes: &[u8]) -> Result<(Argument<'_>, &[u8]), Failure>
    ensures { Takes dialect argument argument_at bytes.now result }
{
    let (field, rest) = expected(dialect, Sign::Name, past_breaks(dialect, bytes))?;
    let (side, rest) = side_read(dialect, past_breaks(dialect, rest))?;
    let (operand, rest) = inner_operand_read(dialect, past_breaks(dialect, rest))?;
    Ok((
        Argument {
            field,
            side,
            operand,
        },
        rest,
    ))
}

#[tactic(auto, unfolding(crate::specs::Walk::next_argument_at))]
fn next_argument(dialect: Dialect, bytes: &[u8]) -> Result<(Argument<'_>, &[u8]), Failure>
    ensures { Takes dialect argument next_argument_at bytes.now result }
{
    let (_, rest) = expected(dialect, Sign::Comma, past_breaks(dialect, bytes))?;
    argument_read(dialect, rest)
}

struct MoreArguments;

impl<'a> Listed<'a> for MoreArguments {
    type Item = Argument<'a>;

    ghost Said = { ArgumentText };

    ghost said = { argument };

    ghost ends = { λ dialect. ends_arguments };

    ghost item_at = { λ dialect. next_argument_at };

    #[tactic(auto, unfolding(crate::specs::Grammar::ends_arguments))]
    fn stops(dialect: Dialect, bytes: &[u8]) -> bool
        ensures { result ≡ ends_arguments (tokens_of dialect bytes.now) }
    {
        let (t, _) = next(dialect, past_breaks(dialect, bytes));
        !is(Sign::Comma, t)
    }

    fn item(
        dialect: Dialect,
        _alloc: Global,
        bytes: &'a [u8],
    ) -> Result<(Argument<'a>, &'a [u8]), Failure> {
        next_argument(dialect, bytes)
    }
}

#[tactic(auto, unfolding(crate::specs::Walk::inside_at))]
fn inside(
    dialect: Dialect,
    alloc: Global,
    bytes: &[u8],
) -> Result<(Vec<Argument<'_>>, &[u8]), Failure>
    ensures { Takes dialect (λ xs. map argument xs.items) inside_at bytes.now result }
{
    let (t, _) = next(dialect, past_breaks(dialect, bytes));
    if is(Sign::Close, t) {
        Ok((Vec::new(alloc), bytes))
    } else {
        let (head, rest) = argument_read(dialect, bytes)?;
        let (mut found, rest) = many::<MoreArguments>(dialect, alloc, rest)?;
        found.insert(0, head)?;
        Ok((found, rest))
    }
}

#[tactic(auto, unfolding(crate::specs::Walk::arguments_at))]
fn arguments_read(
    dialect: Dialect,
    alloc: Global,
    bytes: &[u8],
) -> Result<(Option<Vec<Argument<'_>>>, &[u8]), Failure>
    ensures { Takes dialect (option_map (λ xs. map argument xs.items)) arguments_at bytes.now result }
{
    let (t, _) = next(dialect, bytes);
    if is(Sign::Open, t) {
        let (_, rest) = expected(dialect, Sign::Open, bytes)?;
        let (found, rest) = inside(dialect, alloc, rest)?;
        let (_, rest) = expected(dialect, Sign::Close, past_breaks(dialect, rest))?;
        Ok((Some(found), rest))
    } else {
        Ok((None, bytes))
    }
}

/// An instance and what it is called with.
#[tactic(auto, unfolding(crate::specs::Walk::call_at))]
pub fn call_read(
    dialect: Dialect,
    alloc: Global,
    bytes: &[u8],
) -> Result<(Call<'_>, &[u8]), Failure>
    ensures { Takes dialect call call_at bytes.now result }
{
    let (instance, rest) = expected(dialect, Sign::Name, bytes)?;
    let (written, rest) = arguments_read(dialect, alloc, rest)?;
    Ok((Call { instance, written }, rest))
}
