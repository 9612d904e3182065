//! The decimal of a number above 0.

ghost use Rattle.std.specs.Prelude.{◌≡◌, ◌≤◌, ◌<◌};
ghost use Rattle.std.specs.Float.{float_with_sign};
ghost use lib.Ieee.{eq};
ghost use Rattle.il_real.specs.Reals.{number};
ghost use Rattle.il_real.specs.Decimals.{decimal_number, place_of, digits_at, first_digits, rounded, shorter_or};
ghost use Rattle.il_real.specs.Decimals.{shortened, short_decimal};

use crate::real::Real;

/// More digits than any value gets.
const MOST_DIGITS: u64 = 10_000_000_000_000;

/// A decimal: digits that count the power of ten of a place; the place of ones is 53.
#[derive(Clone, Copy, PartialEq, Eq)]
pub struct Decimal {
    pub digits: u64,
    pub place: u8,
}

/// Whether a number is the one nearest to a decimal.
fn is_nearest(d: Decimal, x: f32) -> bool
    ensures { result ≡ eq (decimal_number d) x }
{
    let nearest: f32 = fast_float::from_parts(false, d.digits, i64::from(d.place) - 53);
    nearest == x
}

/// A place so low that the digits down to it tell a value.
fn place_of(pattern: u32) -> u8
    ensures value { result ≡ place_of pattern }
    ensures fits { result < 88 }
{
    (4 + pattern / 0x80_0000 % 0x100 * 1_233 / 4_096) as u8
}

/// How often a number has the power of ten of a place, to the nearest whole number.
fn digits_at(x: f64, place: u8) -> u64
    ensures { result ≡ digits_at x place }
{
    let tens: f64 = fast_float::from_parts(false, 1, 53 - i64::from(place));
    std::num::saturating_f64_to_u64((x * tens).round_ties_even())
}

fn first_digits(x: f64, place: u8) -> Decimal
    ensures value { result ≡ first_digits x place }
    ensures few { result.digits ≤ MOST_DIGITS }
    ensures place { result.place ≡ place }
{
    let digits = digits_at(x, place);
    if digits < MOST_DIGITS {
        Decimal { digits, place }
    } else {
        Decimal {
            digits: MOST_DIGITS,
            place,
        }
    }
}

/// A decimal with n digits fewer, where a unit is the n-th power of ten: the nearest, of two the even one.
fn rounded(d: Decimal, unit: u64, n: u8) -> Decimal
    requires few { d.digits ≤ MOST_DIGITS }
    requires place { d.place < 88 }
    requires some { 2 ≤ unit }
    requires unit { unit ≤ MOST_DIGITS }
    requires n { n ≤ 12 }
    ensures { result ≡ rounded d unit n }
{
    Decimal {
        digits: (d.digits + (unit / 2 - 1) + d.digits / unit % 2) / unit,
        place: d.place + n,
    }
}

/// The shorter of two decimals, if a number is nearest to it.
fn shorter_or(x: f32, shorter: Decimal, d: Decimal) -> Decimal
    ensures { result ≡ shorter_or x shorter d }
{
    if is_nearest(shorter, x) { shorter } else { d }
}

/// A decimal with up to twelve digits fewer, as many as leave it the number.
#[tactic(auto, unfolding(crate::specs::Decimals::shortened))]
fn shortened(d: Decimal, x: f32) -> Decimal
    requires few { d.digits ≤ MOST_DIGITS }
    requires place { d.place < 88 }
    ensures { result ≡ shortened d x }
{
    let shorter = shorter_or(x, rounded(d, 1_000, 3), d);
    let shorter = shorter_or(x, rounded(d, 10_000, 4), shorter);
    let shorter = shorter_or(x, rounded(d, 100_000, 5), shorter);
    let shorter = shorter_or(x, rounded(d, 1_000_000, 6), shorter);
    let shorter = shorter_or(x, rounded(d, 10_000_000, 7), shorter);
    let shorter = shorter_or(x, rounded(d, 100_000_000, 8), shorter);
    let shorter = shorter_or(x, rounded(d, 1_000_000_000, 9), shorter);
    let shorter = shorter_or(x, rounded(d, 10_000_000_000, 10), shorter);
    let shorter = shorter_or(x, rounded(d, 100_000_000_000, 11), shorter);
    shorter_or(x, rounded(d, 1_000_000_000_000, 12), shorter)
}

/// The decimal of fewest digits that a value without its sign is nearest to.
pub fn short_decimal(real: Real) -> Decimal
    ensures { result ≡ short_decimal real }
{
    let x = real.number().abs();
    shortened(first_digits(f64::from(x), place_of(real.pattern)), x)
}
