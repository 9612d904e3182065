//! Reading one token after the other.

ghost use Rattle.std.specs.Prelude.{◌≡◌};
ghost use Rattle.il_reader.specs.Tokens.{tokens_of, token};
ghost use Rattle.il_reader.specs.Front.{fault_at, is_sign, is_end, is_word_token, skip_breaks};
ghost use Rattle.il_reader.specs.Reading.{Takes, Passes, expect, keyword};

use crate::fault::{Failure, FaultAt, FaultKind};
use crate::lexeme::{Class, Lexeme, Sign, next};
use il_model::{Dialect, is_spelled};

/// Whether a token is this sign.
pub fn is(sign: Sign, t: Lexeme) -> bool
    ensures { result ≡ is_sign sign (token t.entry) }
{
    t.class == Class::Sign(sign)
}

/// Whether a token is the end of the text.
pub fn is_end(t: Lexeme) -> bool
    ensures { result ≡ is_end (token t.entry) }
{
    t.class == Class::End
}

/// The fault at a token that no case allows there: its own where it is broken, else that it stands there.
pub fn refused(t: Lexeme) -> Failure
    ensures { result ≡ Failure.Refused (fault_at (token t.entry)) }
{
    let kind = match t.class {
        Class::Broken(kind) => kind,
        _ => FaultKind::Misplaced,
    };
    Failure::Refused(FaultAt { kind, left: t.left })
}

/// This sign, and what stands after it.
#[tactic(auto, unfolding(crate::specs::Reading::expect))]
pub fn expected(dialect: Dialect, sign: Sign, bytes: &[u8]) -> Result<(Lexeme<'_>, &[u8]), Failure>
    ensures { Takes dialect token (expect sign) bytes.now result }
{
    let (t, rest) = next(dialect, bytes);
    if is(sign, t) {
        Ok((t, rest))
    } else {
        Err(refused(t))
    }
}

/// What stands after the line ends at the front.
#[tactic(auto, unfolding(crate::specs::Front::skip_breaks))]
pub fn past_breaks(dialect: Dialect, bytes: &[u8]) -> &[u8]
    ensures { tokens_of dialect result.now ≡ skip_breaks (tokens_of dialect bytes.now) }
{
    let mut rest = bytes;
    loop {
        let (t, after) = next(dialect, rest);
        if !is(Sign::Break, t) {
            return rest;
        }
        rest = after;
    }
}

/// Whether a token is a word, which is given in capital letters.
pub fn is_word(word: &[u8], t: Lexeme) -> bool
    ensures { result ≡ is_word_token word.now (token t.entry) }
{
    is(Sign::Name, t) && is_spelled(word, t.text)
}

/// What stands after a keyword.
#[tactic(auto, unfolding(crate::specs::Reading::keyword))]
pub fn past_keyword<'a>(dialect: Dialect, word: &[u8], bytes: &'a [u8]) -> Result<&'a [u8], Failure>
    ensures { Passes dialect (keyword word.now) bytes.entry.now result }
{
    let (t, rest) = next(dialect, bytes);
    if is_word(word, t) {
        Ok(rest)
    } else {
        Err(refused(t))
    }
}
