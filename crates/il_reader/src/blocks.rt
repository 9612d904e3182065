//! Blocks of declarations (IEC 61131-3:2003, B.1.4.3 and 2.4.3).

ghost use Rattle.std.specs.Prelude.{◌≡◌, option_map};
ghost use Rattle.il_reader.specs.Tokens.{Token, tokens_of, token};
ghost use Rattle.il_reader.specs.Reading.{Takes};
ghost use Rattle.il_reader.specs.Grammar.{DeclarationText, BlockText, names_of, declaration, declarations, block_text};
ghost use Rattle.il_reader.specs.Grammar.{ends_names, ends_block, ends_blocks, reads_as_qualifier};
ghost use Rattle.il_reader.specs.Walk.{name_at, names_at, initial_at, declaration_at, either_qualifier_at, qualifier_at};
ghost use Rattle.il_reader.specs.Walk.{declared_at, block_at};

use crate::contents::{Block, Declaration, Names, Qualifier};
use crate::dialect::{begins_block, block_word};
use crate::fault::Failure;
use crate::lexeme::{Lexeme, Sign, next};
use crate::lists::{Listed, many};
use crate::operands::constant_read;
use crate::reading::{expected, is, is_word, past_breaks, past_keyword};
use il_model::Dialect;
use std::alloc::Global;

#[tactic(auto, unfolding(crate::specs::Walk::name_at))]
fn name_read(dialect: Dialect, bytes: &[u8]) -> Result<(Lexeme<'_>, &[u8]), Failure>
    ensures { Takes dialect token name_at bytes.now result }
{
    let (_, rest) = expected(dialect, Sign::Comma, past_breaks(dialect, bytes))?;
    expected(dialect, Sign::Name, past_breaks(dialect, rest))
}

struct MoreNames;

impl<'a> Listed<'a> for MoreNames {
    type Item = Lexeme<'a>;

    ghost Said = { Token };

    ghost said = { λ t. token t };

    ghost ends = { λ dialect. ends_names };

    ghost item_at = { λ dialect. name_at };

    #[tactic(auto, unfolding(crate::specs::Grammar::ends_names))]
    fn stops(dialect: Dialect, bytes: &[u8]) -> bool
        ensures { result ≡ ends_names (tokens_of dialect bytes.now) }
    {
        let (t, _) = next(dialect, past_breaks(dialect, bytes));
        !is(Sign::Comma, t)
    }

    fn item(
        dialect: Dialect,
        _alloc: Global,
        bytes: &'a [u8],
    ) -> Result<(Lexeme<'a>, &'a [u8]), Failure> {
        name_read(dialect, bytes)
    }
}

#[tactic(auto, unfolding(crate::specs::Walk::names_at))]
fn names(dialect: Dialect, alloc: Global, bytes: &[u8]) -> Result<(Names<'_>, &[u8]), Failure>
    ensures { Takes dialect names_of names_at bytes.now result }
{
    let (t, _) = next(dialect, bytes);
    if is_word(b"AT", t) {
        let rest = past_keyword(dialect, b"AT", bytes)?;
        let (address, rest) = expected(dialect, Sign::Address, past_breaks(dialect, rest))?;
        Ok((Names::Located(address), rest))
    } else {
        let (more, rest) = many::<MoreNames>(dialect, alloc, bytes)?;
        Ok((Names::More(more), rest))
    }
}

#[tactic(auto, unfolding(crate::specs::Walk::initial_at))]
fn initial(dialect: Dialect, bytes: &[u8]) -> Result<(Option<Lexeme<'_>>, &[u8]), Failure>
    ensures { Takes dialect (option_map token) initial_at bytes.now result }
{
    let (t, _) = next(dialect, bytes);
    if is(Sign::Assign, t) {
        let (_, rest) = expected(dialect, Sign::Assign, bytes)?;
        let (value, rest) = constant_read(dialect, past_breaks(dialect, rest))?;
        Ok((Some(value), rest))
    } else {
        Ok((None, bytes))
    }
}

#[tactic(auto, unfolding(crate::specs::Walk::declaration_at))]
fn declared(
    dialect: Dialect,
    alloc: Global,
    bytes: &[u8],
) -> Result<(Declaration<'_>, &[u8]), Failure>
    ensures { Takes dialect declaration declaration_at bytes.now result }
{
    let (name, rest) = expected(dialect, Sign::Name, past_breaks(dialect, bytes))?;
    let (names, rest) = names(dialect, alloc, past_breaks(dialect, rest))?;
    let (_, rest) = expected(dialect, Sign::Colon, past_breaks(dialect, rest))?;
    let (ty, rest) = expected(dialect, Sign::Name, past_breaks(dialect, rest))?;
    let (initial, rest) = initial(dialect, past_breaks(dialect, rest))?;
    let (_, rest) = expected(dialect, Sign::Semicolon, past_breaks(dialect, rest))?;
    Ok((
        Declaration {
            name,
            names,
            ty,
            initial,
        },
        rest,
    ))
}

struct Declarations;

impl<'a> Listed<'a> for Declarations {
    type Item = Declaration<'a>;

    ghost Said = { DeclarationText };

    ghost said = { declaration };

    ghost ends = { λ dialect. ends_block };

    ghost item_at = { λ dialect. declaration_at };

    #[tactic(auto, unfolding(crate::specs::Grammar::ends_block))]
    fn stops(dialect: Dialect, bytes: &[u8]) -> bool
        ensures { result ≡ ends_block (tokens_of dialect bytes.now) }
    {
        let (t, _) = next(dialect, past_breaks(dialect, bytes));
        is_word(b"END_VAR", t)
    }

    fn item(
        dialect: Dialect,
        alloc: Global,
        bytes: &'a [u8],
    ) -> Result<(Declaration<'a>, &'a [u8]), Failure> {
        declared(dialect, alloc, bytes)
    }
}

/// Whether a qualifier stands next; one may in an extended text alone.
fn reads_as_qualifier(dialect: Dialect, bytes: &[u8]) -> bool
    ensures { result ≡ reads_as_qualifier dialect (tokens_of dialect bytes.now) }
{
    let (t, _) = next(dialect, bytes);
    match dialect {
        Dialect::Plain => false,
        Dialect::Extended => is_word(b"RETAIN", t) || is_word(b"NON_RETAIN", t),
    }
}

#[tactic(auto, unfolding(crate::specs::Walk::either_qualifier_at))]
fn either_qualifier(dialect: Dialect, bytes: &[u8]) -> Result<(Qualifier, &[u8]), Failure>
    ensures { Takes dialect (λ q. q) either_qualifier_at bytes.now result }
{
    let (t, _) = next(dialect, bytes);
    if is_word(b"RETAIN", t) {
        let rest = past_keyword(dialect, b"RETAIN", bytes)?;
        Ok((Qualifier::Retain, rest))
    } else {
        let rest = past_keyword(dialect, b"NON_RETAIN", bytes)?;
        Ok((Qualifier::NonRetain, rest))
    }
}

/// RETAIN or NON_RETAIN, where it stands next.
#[tactic(auto, unfolding(crate::specs::Walk::qualifier_at))]
pub fn qualifier_read(dialect: Dialect, bytes: &[u8]) -> Result<(Option<Qualifier>, &[u8]), Failure>
    ensures { Takes dialect (λ q. q) (qualifier_at dialect) bytes.now result }
{
    if !reads_as_qualifier(dialect, bytes) {
        Ok((None, bytes))
    } else {
        let (qualifier, rest) = either_qualifier(dialect, bytes)?;
        Ok((Some(qualifier), rest))
    }
}

/// The declarations up to END_VAR, and what stands behind it.
#[tactic(auto, unfolding(crate::specs::Walk::declared_at))]
pub fn declarations_read(
    dialect: Dialect,
    alloc: Global,
    bytes: &[u8],
) -> Result<(Vec<Declaration<'_>>, &[u8]), Failure>
    ensures { Takes dialect (λ xs. declarations xs.items) declared_at bytes.now result }
{
    let (found, rest) = many::<Declarations>(dialect, alloc, bytes)?;
    let rest = past_keyword(dialect, b"END_VAR", past_breaks(dialect, rest))?;
    Ok((found, rest))
}

#[tactic(auto, unfolding(crate::specs::Walk::block_at))]
fn block(dialect: Dialect, alloc: Global, bytes: &[u8]) -> Result<(Block<'_>, &[u8]), Failure>
    ensures { Takes dialect block_text (block_at dialect) bytes.now result }
{
    let rest = past_keyword(dialect, block_word(dialect), past_breaks(dialect, bytes))?;
    let (qualifier, rest) = qualifier_read(dialect, past_breaks(dialect, rest))?;
    let (declarations, rest) = declarations_read(dialect, alloc, rest)?;
    Ok((
        Block {
            qualifier,
            declarations,
        },
        rest,
    ))
}

/// The blocks of declarations of a program.
pub struct Blocks;

impl<'a> Listed<'a> for Blocks {
    type Item = Block<'a>;

    ghost Said = { BlockText };

    ghost said = { block_text };

    ghost ends = { ends_blocks };

    ghost item_at = { block_at };

    #[tactic(auto, unfolding(crate::specs::Grammar::ends_blocks))]
    fn stops(dialect: Dialect, bytes: &[u8]) -> bool
        ensures { result ≡ ends_blocks dialect (tokens_of dialect bytes.now) }
    {
        !begins_block(dialect, bytes)
    }

    fn item(
        dialect: Dialect,
        alloc: Global,
        bytes: &'a [u8],
    ) -> Result<(Block<'a>, &'a [u8]), Failure> {
        block(dialect, alloc, bytes)
    }
}
