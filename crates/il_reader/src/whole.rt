//! Programs (IEC 61131-3:2003, B.1.5.3): with a name and END_PROGRAM, or without.

ghost use Rattle.std.specs.Prelude.{◌≡◌, Ok, IfOk};
ghost use Rattle.il_reader.specs.Tokens.{tokens_of};
ghost use Rattle.il_reader.specs.Reading.{Gives, Takes, Passes};
ghost use Rattle.il_reader.specs.Spelling.{Says};
ghost use Rattle.il_reader.specs.Grammar.{program_text, begins_program, ProgramText};
ghost use Rattle.il_reader.specs.Walk.{end_at, finish_at, named_at, bare_at, program_at, text_of};

use crate::blocks::Blocks;
use crate::contents::Contents;
use crate::fault::Failure;
use crate::lexeme::{Sign, next};
use crate::lines::{Lines, NamedLines};
use crate::lists::many;
use crate::reading::{expected, is, is_end, is_word, past_breaks, past_keyword, refused};
use il_model::Dialect;
use std::alloc::Global;

#[tactic(auto, unfolding(crate::specs::Grammar::begins_program))]
fn at_program(dialect: Dialect, bytes: &[u8]) -> bool
    ensures { result ≡ begins_program (tokens_of dialect bytes.now) }
{
    let (t, _) = next(dialect, past_breaks(dialect, bytes));
    is_word(b"PROGRAM", t)
}

#[tactic(auto, unfolding(crate::specs::Walk::end_at))]
fn ended(dialect: Dialect, bytes: &[u8]) -> Result<&[u8], Failure>
    ensures { Passes dialect end_at bytes.now result }
{
    let (t, _) = next(dialect, bytes);
    if is_end(t) {
        Ok(bytes)
    } else {
        Err(refused(t))
    }
}

#[tactic(auto, unfolding(crate::specs::Walk::finish_at))]
fn finished(dialect: Dialect, bytes: &[u8]) -> Result<&[u8], Failure>
    ensures { Passes dialect finish_at bytes.now result }
{
    let behind = past_keyword(dialect, b"END_PROGRAM", past_breaks(dialect, bytes))?;
    ended(dialect, past_breaks(dialect, behind))
}

#[tactic(auto, unfolding(crate::specs::Walk::named_at))]
fn named(dialect: Dialect, alloc: Global, bytes: &[u8]) -> Result<(Contents<'_>, &[u8]), Failure>
    ensures { Takes dialect program_text (named_at dialect) bytes.now result }
{
    let rest = past_keyword(dialect, b"PROGRAM", past_breaks(dialect, bytes))?;
    let (name, rest) = expected(dialect, Sign::Name, rest)?;
    let (blocks, rest) = many::<Blocks>(dialect, alloc, rest)?;
    let (lines, rest) = many::<NamedLines>(dialect, alloc, rest)?;
    let rest = finished(dialect, rest)?;
    Ok((
        Contents {
            name: Some(name),
            blocks,
            lines,
        },
        rest,
    ))
}

#[tactic(auto, unfolding(crate::specs::Walk::bare_at))]
fn bare(dialect: Dialect, alloc: Global, bytes: &[u8]) -> Result<(Contents<'_>, &[u8]), Failure>
    ensures { Takes dialect program_text (bare_at dialect) bytes.now result }
{
    let (blocks, rest) = many::<Blocks>(dialect, alloc, bytes)?;
    let (lines, rest) = many::<Lines>(dialect, alloc, rest)?;
    let rest = ended(dialect, past_breaks(dialect, rest))?;
    Ok((
        Contents {
            name: None,
            blocks,
            lines,
        },
        rest,
    ))
}

#[tactic(auto, unfolding(crate::specs::Walk::program_at))]
fn program(dialect: Dialect, alloc: Global, bytes: &[u8]) -> Result<(Contents<'_>, &[u8]), Failure>
    ensures { Takes dialect program_text (program_at dialect) bytes.now result }
{
    if at_program(dialect, bytes) {
        named(dialect, alloc, bytes)
    } else {
        bare(dialect, alloc, bytes)
    }
}

#[tactic(auto, unfolding(crate::specs::Walk::text_of))]
fn all(dialect: Dialect, alloc: Global, bytes: &[u8]) -> Result<Contents<'_>, Failure>
    ensures { Gives program_text result (text_of dialect bytes.now) }
{
    let (contents, _) = program(dialect, alloc, bytes)?;
    Ok(contents)
}

/// What a text says, from its first token to its last.
pub fn whole(dialect: Dialect, alloc: Global, bytes: &[u8]) -> Result<Contents<'_>, Failure>
    ensures found { IfOk result (λ c. Says dialect bytes.now (program_text c)) }
    ensures only { (p : ProgramText) → Says dialect bytes.now p → text_of dialect bytes.now ≡ Ok p }
    ensures exact { Gives program_text result (text_of dialect bytes.now) }
{
    all(dialect, alloc, bytes)
}
