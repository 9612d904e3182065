//! Values of REAL as text.

ghost use Rattle.std.specs.Prelude.{◌≡◌, ◌≤◌, ◌<◌, ◌+◌, ◌++◌, Some, length, decimal, replicate, IsAscii};
ghost use Rattle.arrayvec.specs.ArrayString.{array_string_len};
ghost use Rattle.il_real.specs.declared.real.Real.{Real};
ghost use Rattle.il_real.specs.Literals.{real_literal};
ghost use Rattle.std.specs.Float.{is_sign_negative};
ghost use Rattle.il_real.specs.Reals.{number};
ghost use Rattle.il_real.specs.Texts.{more_digits, exponent_text, behind_text, inside_text, before_text, far_text};
ghost use Rattle.il_real.specs.Texts.{digits_text, decimal_text, minus_text, plain_text, is_found, pattern_text, real_text};

use crate::decimal::{Decimal, short_decimal};
use crate::literal::real_from;
use crate::real::Real;
use arrayvec::ArrayString;
use itoa::Buffer;

/// The text of a value.
pub type RealText = ArrayString<96>;

fn zeros(n: usize) -> &'static str
    requires { n ≤ 9 }
    ensures value { result.now ≡ replicate n 48 }
    ensures len { length result.now ≡ n }
{
    match n {
        0 => "",
        1 => "0",
        2 => "00",
        3 => "000",
        4 => "0000",
        5 => "00000",
        6 => "000000",
        7 => "0000000",
        8 => "00000000",
        9 => "000000000",
        _ => unreachable!(),
    }
}

/// What stands behind the first digit.
#[tactic(auto, using(crate::proofs::Texts::ascii_boundary))]
fn more_digits(digits: &str) -> &str
    requires ascii { IsAscii digits.now }
    requires few { length digits.now ≤ 40 }
    ensures value { result.now ≡ more_digits digits.now }
    ensures few { length result.now ≤ 40 }
{
    if 1 < digits.len() { &digits[1..] } else { "0" }
}

/// The exponent of a place.
fn put_exponent(out: &mut RealText, place: usize)
    requires { array_string_len out.old ≤ 50 }
    ensures { out.new.bytes ≡ out.old.bytes ++ exponent_text place }
{
    let mut buffer = Buffer::new();
    if place < 53 {
        out.push_str("E-");
        out.push_str(buffer.format(53 - place));
    } else {
        out.push_str("E");
        out.push_str(buffer.format(place - 53));
    }
}

fn put_behind(out: &mut RealText, digits: &str, place: usize)
    requires room { array_string_len out.old ≤ 1 }
    requires few { length digits.now ≤ 40 }
    requires place { 53 ≤ place }
    requires short { length digits.now + place < 63 }
    ensures { out.new.bytes ≡ out.old.bytes ++ behind_text digits.now place }
{
    out.push_str(digits);
    out.push_str(zeros(place - 53));
    out.push_str(".0");
}

#[tactic(auto, using(crate::proofs::Texts::ascii_boundary))]
fn put_inside(out: &mut RealText, digits: &str, place: usize)
    requires room { array_string_len out.old ≤ 1 }
    requires ascii { IsAscii digits.now }
    requires few { length digits.now ≤ 40 }
    requires place { place < 53 }
    requires long { 53 < length digits.now + place }
    ensures { out.new.bytes ≡ out.old.bytes ++ inside_text digits.now place }
{
    let point = digits.len() + place - 53;
    out.push_str(&digits[..point]);
    out.push_str(".");
    out.push_str(&digits[point..]);
}

fn put_before(out: &mut RealText, digits: &str, place: usize)
    requires room { array_string_len out.old ≤ 1 }
    requires few { length digits.now ≤ 40 }
    requires short { length digits.now + place ≤ 53 }
    requires long { 49 < length digits.now + place }
    ensures { out.new.bytes ≡ out.old.bytes ++ before_text digits.now place }
{
    out.push_str("0.");
    out.push_str(zeros(53 - (digits.len() + place)));
    out.push_str(digits);
}

#[tactic(auto, using(crate::proofs::Texts::ascii_boundary))]
fn put_far(out: &mut RealText, digits: &str, place: usize)
    requires room { array_string_len out.old ≤ 1 }
    requires ascii { IsAscii digits.now }
    requires few { length digits.now ≤ 40 }
    requires place { place ≤ 255 }
    ensures { out.new.bytes ≡ out.old.bytes ++ far_text digits.now place }
{
    out.push_str(&digits[..digits.len().min(1)]);
    out.push_str(".");
    out.push_str(more_digits(digits));
    put_exponent(out, (digits.len() + place).saturating_sub(1));
}

/// Digits whose last has a place.
#[tactic(auto, unfolding(crate::specs::Texts::digits_text))]
fn put_digits(out: &mut RealText, digits: &str, place: usize)
    requires room { array_string_len out.old ≤ 1 }
    requires ascii { IsAscii digits.now }
    requires few { length digits.now ≤ 40 }
    requires place { place ≤ 255 }
    ensures { out.new.bytes ≡ out.old.bytes ++ digits_text digits.now place }
{
    let before = digits.len() + place;
    if place < 53 {
        if 53 < before {
            put_inside(out, digits, place)
        } else if 49 < before {
            put_before(out, digits, place)
        } else {
            put_far(out, digits, place)
        }
    } else if before < 63 {
        put_behind(out, digits, place)
    } else {
        put_far(out, digits, place)
    }
}

fn put_decimal(out: &mut RealText, d: Decimal)
    requires { array_string_len out.old ≤ 1 }
    ensures { out.new.bytes ≡ out.old.bytes ++ decimal_text d }
{
    let mut buffer = Buffer::new();
    put_digits(out, buffer.format(d.digits), usize::from(d.place))
}

fn put_minus(out: &mut RealText, negative: bool)
    requires { array_string_len out.old ≤ 0 }
    ensures bytes { out.new.bytes ≡ out.old.bytes ++ minus_text negative }
    ensures len { array_string_len out.new ≤ 1 }
{
    if negative {
        out.push_str("-");
    }
}

fn is_negative(real: Real) -> bool
    ensures { result ≡ is_sign_negative (number real) }
{
    real.number().is_sign_negative()
}

fn plain_text(real: Real) -> RealText
    ensures { result.bytes ≡ plain_text real }
{
    let mut out = RealText::new();
    if real.pattern == 0 {
        out.push_str("0.0");
    } else {
        put_minus(&mut out, is_negative(real));
        put_decimal(&mut out, short_decimal(real));
    }
    out
}

fn is_found(real: Real, read: Option<Real>) -> bool
    ensures { result ≡ is_found real read }
{
    match read {
        Some(x) => x.pattern == real.pattern,
        None => false,
    }
}

fn pattern_text(real: Real) -> RealText
    ensures { result.bytes ≡ pattern_text real }
{
    let mut out = RealText::new();
    let mut buffer = Buffer::new();
    out.push_str("P");
    out.push_str(buffer.format(real.pattern));
    out
}

impl Real {
    /// The text of a value, which is read back as it: `0.1`, `-12.0`, `1.0E20`.
    pub fn text(self) -> RealText
        ensures { result.bytes ≡ real_text self }
    {
        let plain = plain_text(self);
        if is_found(self, real_from(plain.as_str().as_bytes())) {
            plain
        } else {
            pattern_text(self)
        }
    }
}

/// The text of a value is read back as it.
pub fn a_text_is_read_back()
    ensures { (r : Real) → real_literal (real_text r) ≡ Some r }
{}
