//! Dialects: the words, the literals and the locations of a text.

ghost use Rattle.std.specs.Prelude.{◌≡◌};
ghost use Rattle.il_model.specs.Words.{plain, extended_mnemonic_of};
ghost use Rattle.il_values.specs.Functions.{function_named};
ghost use Rattle.il_model.specs.Dialects.{applied, or_function, operator_in, literal_in, location_in, newest};

use crate::codes::Version;
use crate::literal::Literal;
use crate::location::{extended_location, location};
use crate::program::Loc;
use crate::words::{Mnemonic, extended_mnemonic_from, mnemonic_from};
use crate::written::{extended_literal, literal};
use il_values::{Function, Modifier, Op, function_from};

/// What may stand in a text: the words and literals of every text, or those and REAL, bit strings, MIN, MAX, shifts, the
/// functions and double words.
#[derive(Clone, Copy, Debug, PartialEq, Eq)]
pub enum Dialect {
    Plain,
    Extended,
}

fn plain() -> Modifier
    ensures { result ≡ plain }
{
    Modifier {
        negated: false,
        conditional: false,
        opens: false,
    }
}

fn applied(function: Option<Function>) -> Option<Mnemonic>
    ensures { result ≡ applied function }
{
    match function {
        Some(function) => Some(Mnemonic {
            op: Op::Apply(function),
            modifier: plain(),
        }),
        None => None,
    }
}

fn extended_operator(text: &[u8]) -> Option<Mnemonic>
    ensures { result ≡ or_function text.now (extended_mnemonic_of text.now) }
{
    match extended_mnemonic_from(text) {
        None => applied(function_from(text)),
        found => found,
    }
}

impl Dialect {
    /// The operator that a word is in a text of this dialect, without regard to case.
    pub fn operator(self, text: &[u8]) -> Option<Mnemonic>
        ensures { result ≡ operator_in self text.now }
    {
        let found = mnemonic_from(text);
        match (self, found) {
            (Dialect::Extended, None) => extended_operator(text),
            _ => found,
        }
    }

    /// The last version whose images have what a text of this dialect may say.
    pub fn newest(self) -> Version
        ensures { result ≡ newest self }
    {
        match self {
            Dialect::Plain => Version::Two,
            Dialect::Extended => Version::Three,
        }
    }

    /// The literal that a text is in a text of this dialect.
    pub fn literal(self, text: &[u8]) -> Option<Literal>
        ensures { result ≡ literal_in self text.now }
    {
        match self {
            Dialect::Plain => literal(text),
            Dialect::Extended => extended_literal(text),
        }
    }

    /// The location that a text with a % in front is in a text of this dialect; a double word is DINT.
    pub fn location(self, text: &[u8]) -> Option<Loc>
        ensures { result ≡ location_in self text.now }
    {
        match self {
            Dialect::Plain => location(text),
            Dialect::Extended => extended_location(text),
        }
    }
}
