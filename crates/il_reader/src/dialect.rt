//! The dialect of a text, and where its blocks of declarations begin.

ghost use Rattle.std.specs.Prelude.{◌≡◌};
ghost use Rattle.il_reader.specs.Tokens.{tokens_of};
ghost use Rattle.il_reader.specs.Front.{next_is, skip_breaks};
ghost use Rattle.il_reader.specs.declared.lexeme.Sign.TheVariants as signs;
ghost use Rattle.il_reader.specs.Grammar.{begins_block, block_word, dialect_of};

use crate::lexeme::{Sign, next};
use crate::reading::{is, is_word, past_breaks};
use il_model::Dialect;

fn is_colon(dialect: Dialect, bytes: &[u8]) -> bool
    ensures { result ≡ next_is signs.Colon (tokens_of dialect bytes.now) }
{
    let (t, _) = next(dialect, bytes);
    is(Sign::Colon, t)
}

/// Whether a block begins behind any line ends, as those of the first dialect do; the tokens are those of the second.
fn begins(blocks: Dialect, dialect: Dialect, bytes: &[u8]) -> bool
    ensures { result ≡ begins_block blocks (skip_breaks (tokens_of dialect bytes.now)) }
{
    let (t, rest) = next(dialect, past_breaks(dialect, bytes));
    match blocks {
        Dialect::Plain => is_word(b"VAR", t),
        Dialect::Extended => is_word(b"VAR_GLOBAL", t) && !is_colon(dialect, rest),
    }
}

/// Whether a block of declarations begins behind any line ends: by VAR, or in an extended text by VAR_GLOBAL, which is a
/// label where a colon follows.
pub fn begins_block(dialect: Dialect, bytes: &[u8]) -> bool
    ensures { result ≡ begins_block dialect (skip_breaks (tokens_of dialect bytes.now)) }
{
    begins(dialect, dialect, bytes)
}

/// The dialect of a text: an extended one begins with VAR_GLOBAL, which no colon follows.
#[tactic(auto, unfolding(crate::specs::Grammar::begins_extended))]
pub fn dialect_of(bytes: &[u8]) -> Dialect
    ensures { result ≡ dialect_of bytes.now }
{
    if begins(Dialect::Extended, Dialect::Plain, bytes) {
        Dialect::Extended
    } else {
        Dialect::Plain
    }
}

/// The word that opens a block of declarations.
pub fn block_word(dialect: Dialect) -> &'static [u8]
    ensures { result.now ≡ block_word dialect }
{
    match dialect {
        Dialect::Plain => b"VAR",
        Dialect::Extended => b"VAR_GLOBAL",
    }
}
