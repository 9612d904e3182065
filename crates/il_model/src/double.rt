//! Words as bit strings, and double words: two words that are one value of 32 bits, the high one first.

ghost use Rattle.std.specs.Prelude.{◌≡◌, ◌<◌, ◌^◌, IfSome};
ghost use Rattle.il_model.specs.Doubles.{double_type, pattern_of_words, value_of_pattern, double_value};
ghost use Rattle.il_model.specs.Doubles.{double_pattern, high_word, low_word};
ghost use Rattle.il_model.specs.Doubles.{word_value};
ghost use Rattle.il_model.specs.Locations.{double_as, word_as, seen_as};

use crate::program::{Area, DoubleType, Loc};
use il_real::Real;
use il_values::{Ty, Value};

fn pattern_of_words(high: i16, low: i16) -> u32
    ensures { result ≡ pattern_of_words high low }
{
    u32::from(high.cast_unsigned()) * 65536 + u32::from(low.cast_unsigned())
}

/// The WORD that a word is.
pub fn word_value(word: i16) -> Value
    ensures { result ≡ word_value word }
{
    Value::Word(word.cast_unsigned())
}

/// The words of a pattern, the high one first.
pub fn words_of(pattern: u32) -> (i16, i16)
    ensures high { result.0 ≡ high_word pattern }
    ensures low { result.1 ≡ low_word pattern }
{
    let high = (pattern / 65536) as u16;
    let low = (pattern % 65536) as u16;
    (high.cast_signed(), low.cast_signed())
}

impl DoubleType {
    /// The type as one of all types.
    pub fn ty(self) -> Ty
        ensures { result ≡ double_type self }
    {
        match self {
            DoubleType::Dint => Ty::Dint,
            DoubleType::Time => Ty::Time,
            DoubleType::Real => Ty::Real,
            DoubleType::Dword => Ty::Dword,
        }
    }

    fn value_of(self, pattern: u32) -> Value
        ensures { result ≡ value_of_pattern self pattern }
    {
        match self {
            DoubleType::Dint => Value::Dint(pattern.cast_signed()),
            DoubleType::Time => Value::Time(pattern.cast_signed()),
            DoubleType::Real => match Real::of_pattern(pattern) {
                Some(number) => Value::Real(number),
                None => Value::Real(Real::zero()),
            },
            DoubleType::Dword => Value::Dword(pattern),
        }
    }

    /// The value that two words are. A pattern that is no REAL (an infinity, no number, -0) is read as 0.0.
    pub fn value(self, high: i16, low: i16) -> Value
        ensures { result ≡ double_value self high low }
    {
        self.value_of(pattern_of_words(high, low))
    }

    /// The pattern of a value of the type, whose words are that value again; None for a value of another type.
    pub fn pattern(self, value: Value) -> Option<u32>
        ensures pattern { result ≡ double_pattern self value }
        ensures small { IfSome result (λ n. n < 2 ^ 32) }
        ensures read_again { IfSome result (λ n. double_value self (high_word n) (low_word n) ≡ value) }
    {
        match (self, value) {
            (DoubleType::Dint, Value::Dint(z)) => Some(z.cast_unsigned()),
            (DoubleType::Time, Value::Time(z)) => Some(z.cast_unsigned()),
            (DoubleType::Real, Value::Real(number)) => Some(number.pattern),
            (DoubleType::Dword, Value::Dword(bits)) => Some(bits),
            _ => None,
        }
    }
}

/// The type, if a double word may have it, in place of the one that it had.
fn double_as(ty: Ty, own: DoubleType) -> DoubleType
    ensures { result ≡ double_as ty own }
{
    match ty {
        Ty::Dint => DoubleType::Dint,
        Ty::Time => DoubleType::Time,
        Ty::Real => DoubleType::Real,
        Ty::Dword => DoubleType::Dword,
        Ty::Bool | Ty::Int | Ty::Lint | Ty::Word => own,
    }
}

/// A word as that of a variable of this type: a WORD is its pattern.
fn word_as(ty: Ty, area: Area, n: u16) -> Loc
    ensures { result ≡ word_as ty area n }
{
    match ty {
        Ty::Word => Loc::Pattern(area, n),
        _ => Loc::Word(area, n),
    }
}

/// A location as that of a variable of this type: a double word is DINT, TIME, REAL or DWORD, a word INT or WORD; any
/// other is as it was.
pub fn seen_as(ty: Ty, loc: Loc) -> Loc
    ensures { result ≡ seen_as ty loc }
{
    match loc {
        Loc::Double(area, n, own) => Loc::Double(area, n, double_as(ty, own)),
        Loc::Word(area, n) => word_as(ty, area, n),
        Loc::Bit(_, _) | Loc::Pattern(_, _) => loc,
    }
}
