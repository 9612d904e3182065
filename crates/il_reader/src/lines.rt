//! Instruction lines (IEC 61131-3:2003, B.2.1).

ghost use Rattle.std.specs.Prelude.{◌≡◌};
ghost use Rattle.il_reader.specs.Tokens.{tokens_of};
ghost use Rattle.il_reader.specs.Reading.{Takes};
ghost use Rattle.il_reader.specs.Grammar.{LineText, line, is_label, ends_lines, ends_named};
ghost use Rattle.il_reader.specs.Walk.{labelled_at, plain_at, either_line_at, line_at};

use crate::contents::Line;
use crate::fault::Failure;
use crate::lexeme::{Sign, next};
use crate::lists::Listed;
use crate::operations::{at_line_stop, operation_read, optional_operation};
use crate::reading::{expected, is, is_end, is_word, past_breaks, refused};
use il_model::Dialect;
use std::alloc::Global;

#[tactic(auto, unfolding(crate::specs::Grammar::is_label))]
fn at_label(dialect: Dialect, bytes: &[u8]) -> bool
    ensures { result ≡ is_label dialect (tokens_of dialect bytes.now) }
{
    let (t, rest) = next(dialect, bytes);
    if is(Sign::Name, t) {
        let (u, _) = next(dialect, rest);
        is(Sign::Colon, u) || dialect.operator(t.text).is_none()
    } else {
        false
    }
}

#[tactic(auto, unfolding(crate::specs::Walk::labelled_at))]
fn labelled(dialect: Dialect, alloc: Global, bytes: &[u8]) -> Result<(Line<'_>, &[u8]), Failure>
    ensures { Takes dialect line (labelled_at dialect) bytes.now result }
{
    let (label, rest) = expected(dialect, Sign::Name, bytes)?;
    let (_, rest) = expected(dialect, Sign::Colon, rest)?;
    let (x, rest) = optional_operation(dialect, alloc, rest)?;
    Ok((Line::Labelled(label, x), rest))
}

#[tactic(auto, unfolding(crate::specs::Walk::plain_at))]
fn plain(dialect: Dialect, alloc: Global, bytes: &[u8]) -> Result<(Line<'_>, &[u8]), Failure>
    ensures { Takes dialect line (plain_at dialect) bytes.now result }
{
    let (x, rest) = operation_read(dialect, alloc, bytes)?;
    Ok((Line::Plain(x), rest))
}

#[tactic(auto, unfolding(crate::specs::Walk::either_line_at))]
fn either_line(dialect: Dialect, alloc: Global, bytes: &[u8]) -> Result<(Line<'_>, &[u8]), Failure>
    ensures { Takes dialect line (either_line_at dialect) bytes.now result }
{
    if at_label(dialect, bytes) {
        labelled(dialect, alloc, bytes)
    } else {
        plain(dialect, alloc, bytes)
    }
}

#[tactic(auto, unfolding(crate::specs::Walk::line_at))]
fn line_read(dialect: Dialect, alloc: Global, bytes: &[u8]) -> Result<(Line<'_>, &[u8]), Failure>
    ensures { Takes dialect line (line_at dialect) bytes.now result }
{
    let (x, rest) = either_line(dialect, alloc, past_breaks(dialect, bytes))?;
    if at_line_stop(dialect, rest) {
        Ok((x, rest))
    } else {
        Err(refused(next(dialect, rest).0))
    }
}

/// The lines up to the end of the text.
pub struct Lines;

impl<'a> Listed<'a> for Lines {
    type Item = Line<'a>;

    ghost Said = { LineText };

    ghost said = { line };

    ghost ends = { λ dialect. ends_lines };

    ghost item_at = { line_at };

    #[tactic(auto, unfolding(crate::specs::Grammar::ends_lines))]
    fn stops(dialect: Dialect, bytes: &[u8]) -> bool
        ensures { result ≡ ends_lines (tokens_of dialect bytes.now) }
    {
        let (t, _) = next(dialect, past_breaks(dialect, bytes));
        is_end(t)
    }

    fn item(
        dialect: Dialect,
        alloc: Global,
        bytes: &'a [u8],
    ) -> Result<(Line<'a>, &'a [u8]), Failure> {
        line_read(dialect, alloc, bytes)
    }
}

/// The lines up to END_PROGRAM.
pub struct NamedLines;

impl<'a> Listed<'a> for NamedLines {
    type Item = Line<'a>;

    ghost Said = { LineText };

    ghost said = { line };

    ghost ends = { λ dialect. ends_named };

    ghost item_at = { line_at };

    #[tactic(auto, unfolding(crate::specs::Grammar::ends_named))]
    fn stops(dialect: Dialect, bytes: &[u8]) -> bool
        ensures { result ≡ ends_named (tokens_of dialect bytes.now) }
    {
        let (t, _) = next(dialect, past_breaks(dialect, bytes));
        is_word(b"END_PROGRAM", t)
    }

    fn item(
        dialect: Dialect,
        alloc: Global,
        bytes: &'a [u8],
    ) -> Result<(Line<'a>, &'a [u8]), Failure> {
        line_read(dialect, alloc, bytes)
    }
}
