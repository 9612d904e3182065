//! Literals of REAL as they are written.

ghost use Rattle.std.specs.Prelude.{◌≡◌, ◌<◌};
ghost use Rattle.il_real.specs.Literals.{has_more, is_unsigned_real, unsigned_real, pattern_behind, patterned};
ghost use Rattle.il_real.specs.Literals.{real_literal};

use crate::real::Real;
use fast_float::Numeral;

/// Whether digits stand behind the point, or an exponent where there is no point.
fn has_more(numeral: &Numeral) -> bool
    ensures { result ≡ has_more numeral.now }
{
    if numeral.has_point() {
        0 < numeral.fraction().len()
    } else {
        0 < numeral.exponent().len()
    }
}

fn is_unsigned_real(text: &[u8], numeral: &Numeral) -> bool
    ensures { result ≡ is_unsigned_real text.now numeral.now }
{
    numeral.len() == text.len() && 0 < numeral.whole().len() && has_more(numeral)
}

/// A literal behind its sign.
fn unsigned_real(negative: bool, text: &[u8]) -> Option<Real>
    ensures { result ≡ unsigned_real negative text.now }
{
    let numeral = Numeral::scan(text);
    if is_unsigned_real(text, &numeral) {
        Real::of(numeral.to_float(negative))
    } else {
        None
    }
}

/// The number that decimal digits write behind one, where 32 bits hold it.
#[tactic(auto, unfolding(crate::specs::Literals::pattern_behind))]
fn pattern_behind(n: u32, text: &[u8]) -> Option<u32>
    ensures { result ≡ pattern_behind n text.now }
{
    let [b, others @ ..] = text else {
        return Some(n);
    };
    if *b < b'0' || *b > b'9' {
        return None;
    }
    let next = u64::from(n) * 10 + u64::from(*b - b'0');
    if next < 0x1_0000_0000 {
        pattern_behind(next as u32, others)
    } else {
        None
    }
}

/// A value by its pattern.
fn patterned(text: &[u8]) -> Option<Real>
    ensures { result ≡ patterned text.now }
{
    if text.is_empty() {
        return None;
    }
    Real::of_pattern(pattern_behind(0, text)?)
}

/// The value nearest to the number that a literal writes: digits, a point and digits, or an exponent, or both, behind
/// a sign or none (IEC 61131-3:2003, B.1.2.1, which asks for the point; no underscores here). Or the value by its
/// pattern, behind P, as a text may be that is written here. None where a text is no such literal, or its value isn't
/// finite.
#[tactic(auto, unfolding(crate::specs::Literals::real_literal))]
pub fn real_from(text: &[u8]) -> Option<Real>
    ensures { result ≡ real_literal text.now }
{
    match text {
        [b'-', others @ ..] => unsigned_real(true, others),
        [b'+', others @ ..] => unsigned_real(false, others),
        [b'P', others @ ..] => patterned(others),
        _ => unsigned_real(false, text),
    }
}
