//! Durations (IEC 61131-3:2003, B.1.2.3.1), in milliseconds.

ghost use Rattle.std.specs.Prelude.{◌≡◌, ◌≤◌, ◌<◌, ◌*◌, ◌^◌, length, option_map, IfSome};
ghost use Rattle.il_model.specs.Literals.{held_integer, digits_len, is_digit_byte, is_unit_byte, unit_len, unit_of};
ghost use Rattle.il_model.specs.Literals.{digit_list, whole_part, fraction_of, part_text, at_unit, decimals_unit};
ghost use Rattle.il_model.specs.Literals.{at_decimals, begins_dot, behind_number, part_by, past_join, duration_by};

use crate::literal::{digit, integer};
use il_values::{capital, is_spelled};

/// A unit of time: how high it ranks, from milliseconds (0) to days (4), and how many milliseconds it has.
#[derive(Clone, Copy, PartialEq, Eq)]
pub struct TimeUnit {
    pub rank: u8,
    pub milliseconds: u32,
}

/// A number of a unit: the rank of the unit, whether it has decimals, its milliseconds, and what stands behind it.
#[derive(Clone, Copy)]
pub struct TimePart<'a> {
    pub rank: u8,
    pub broken: bool,
    pub milliseconds: u128,
    pub rest: &'a [u8],
}

fn is_digit(b: u8) -> bool
    ensures { result ≡ is_digit_byte b }
{
    (b'0' <= b && b <= b'9') || b == b'_'
}

fn is_letter(b: u8) -> bool
    ensures { result ≡ is_unit_byte b }
{
    b'A' <= capital(b) && capital(b) <= b'Z'
}

fn digits(bytes: &[u8]) -> usize
    ensures value { result ≡ digits_len bytes.now }
    ensures fits { result ≤ length bytes.now }
{
    bytes.iter().take_while(|b| is_digit(**b)).count()
}

fn letters(bytes: &[u8]) -> usize
    ensures value { result ≡ unit_len bytes.now }
    ensures fits { result ≤ length bytes.now }
{
    bytes.iter().take_while(|b| is_letter(**b)).count()
}

fn unit(rank: u8, milliseconds: u32) -> Option<TimeUnit>
    ensures { result ≡ Some (record { rank = rank; milliseconds = milliseconds }) }
{
    Some(TimeUnit { rank, milliseconds })
}

fn unit_from(word: &[u8]) -> Option<TimeUnit>
    ensures value { result ≡ unit_of word.now }
    ensures small { IfSome result (λ u. u.milliseconds ≤ 86400000) }
{
    if is_spelled(b"D", word) {
        unit(4, 86_400_000)
    } else if is_spelled(b"H", word) {
        unit(3, 3_600_000)
    } else if is_spelled(b"M", word) {
        unit(2, 60_000)
    } else if is_spelled(b"S", word) {
        unit(1, 1000)
    } else if is_spelled(b"MS", word) {
        unit(0, 1)
    } else {
        None
    }
}

/// The milliseconds that decimals of a unit are, where they are whole: from the last decimal to the first, each ten of
/// one place have to be whole in the next.
fn whole(unit: u32, decimals: &[u8]) -> Option<u64>
    requires { unit ≤ 86400000 }
    ensures value { result ≡ whole_part unit (digit_list decimals.now) }
    ensures small { IfSome result (λ ms. ms ≤ 11 * 86400000) }
{
    let mut ms = 0u64;
    let mut k = decimals.len();
    while k > 0 {
        k -= 1;
        if decimals[k] != b'_' {
            let sum = u64::from(digit(decimals[k])) * u64::from(unit) + ms;
            if sum % 10 != 0 {
                return None;
            }
            ms = sum / 10;
        }
    }
    Some(ms)
}

fn fraction(unit: u32, decimals: &[u8]) -> Option<u64>
    requires { unit ≤ 86400000 }
    ensures value { result ≡ fraction_of unit decimals.now }
    ensures small { IfSome result (λ ms. ms ≤ 11 * 86400000) }
{
    integer(10, decimals)?;
    whole(unit, decimals)
}

#[tactic(auto, using(crate::proofs::Decimals::small_product))]
fn at_unit(n: u64, bytes: &[u8]) -> Option<TimePart<'_>>
    ensures value { option_map part_text result ≡ at_unit n bytes.now }
    ensures small { IfSome result (λ p. p.milliseconds ≤ 2 ^ 91) }
{
    let (word, rest) = bytes.split_at(letters(bytes));
    let unit = unit_from(word)?;
    Some(TimePart {
        rank: unit.rank,
        broken: false,
        milliseconds: u128::from(n) * u128::from(unit.milliseconds),
        rest,
    })
}

#[tactic(auto, using(crate::proofs::Decimals::small_product))]
fn decimals_unit<'a>(n: u64, decimals: &[u8], bytes: &'a [u8]) -> Option<TimePart<'a>>
    ensures value { option_map part_text result ≡ decimals_unit n decimals.now bytes.now }
    ensures small { IfSome result (λ p. p.milliseconds ≤ 2 ^ 91) }
{
    let (word, rest) = bytes.split_at(letters(bytes));
    let unit = unit_from(word)?;
    let part = fraction(unit.milliseconds, decimals)?;
    Some(TimePart {
        rank: unit.rank,
        broken: true,
        milliseconds: u128::from(n) * u128::from(unit.milliseconds) + u128::from(part),
        rest,
    })
}

fn at_decimals(n: u64, bytes: &[u8]) -> Option<TimePart<'_>>
    ensures value { option_map part_text result ≡ at_decimals n bytes.now }
    ensures small { IfSome result (λ p. p.milliseconds ≤ 2 ^ 91) }
{
    let (decimals, others) = bytes.split_at(digits(bytes));
    decimals_unit(n, decimals, others)
}

fn behind_number(bytes: &[u8], n: u64) -> Option<TimePart<'_>>
    ensures value { option_map part_text result ≡ behind_number bytes.now n }
    ensures small { IfSome result (λ p. p.milliseconds ≤ 2 ^ 91) }
{
    match bytes {
        [b'.', others @ ..] => at_decimals(n, others),
        _ => at_unit(n, bytes),
    }
}

#[tactic(auto, unfolding(crate::specs::Literals::part_by))]
fn part(bytes: &[u8]) -> Option<TimePart<'_>>
    ensures value { option_map part_text result ≡ part_by held_integer bytes.now }
    ensures small { IfSome result (λ p. p.milliseconds ≤ 2 ^ 91) }
{
    let (number, others) = bytes.split_at(digits(bytes));
    behind_number(others, integer(10, number)?)
}

fn past_join(bytes: &[u8]) -> &[u8]
    ensures { result.now ≡ past_join bytes.now }
{
    match bytes {
        [b'_', others @ ..] => others,
        _ => bytes,
    }
}

/// The milliseconds of a duration without a sign: parts of falling units, of which the last may have decimals.
pub fn duration(bytes: &[u8]) -> Option<u128>
    ensures value { result ≡ duration_by held_integer bytes.now }
    ensures small { IfSome result (λ n. n < 2 ^ 127) }
{
    let mut rest = bytes;
    let mut limit = 5u8;
    let mut total = 0u128;
    for _ in 0..5u8 {
        let part = part(rest)?;
        if part.rank >= limit {
            return None;
        }
        total += part.milliseconds;
        if part.rest.is_empty() {
            return Some(total);
        }
        if part.broken {
            return None;
        }
        limit = part.rank;
        rest = past_join(part.rest);
    }
    None
}
