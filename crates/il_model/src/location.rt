//! Locations as they are written (IEC 61131-3:2003, 2.4.1.1).

ghost use Rattle.std.specs.Prelude.{◌≡◌};
ghost use Rattle.std.specs.List.{prefix_len};
ghost use Rattle.il_model.specs.Locations.{is_no_dot, dot_at, bit_of, word_of, letter_area, bit_at, word_at, place_at};
ghost use Rattle.il_model.specs.Locations.{location_of, double_of, double_at, double_location_of};
ghost use Rattle.il_model.specs.Locations.{begins_double, extended_location_of};

use crate::limits::WORDS;
use crate::literal::integer;
use crate::program::{Area, DoubleType, Loc};
use il_values::capital;

fn bit(area: Area, byte: Option<u64>, bit: Option<u64>) -> Option<Loc>
    ensures { result ≡ bit_of area byte bit }
{
    match (byte, bit) {
        (Some(b), Some(n)) if b < 64 && n < 8 => Some(Loc::Bit(area, (8 * b + n) as u16)),
        _ => None,
    }
}

fn area(letter: u8) -> Option<Area>
    ensures { result ≡ letter_area letter }
{
    match capital(letter) {
        b'I' => Some(Area::Input),
        b'Q' => Some(Area::Output),
        b'M' => Some(Area::Memory),
        _ => None,
    }
}

/// How many bytes stand before the first dot: all of them where there is none.
pub fn dot(bytes: &[u8]) -> usize
    ensures { result ≡ dot_at bytes.now }
{
    bytes.iter().take_while(|b| **b != b'.').count()
}

#[tactic(auto, unfolding(crate::specs::Locations::bit_at), using(crate::proofs::LocationLaws::bit_capped, crate::proofs::LocationLaws::no_bit))]
fn numbered(area: Area, bytes: &[u8]) -> Option<Loc>
    ensures { result ≡ bit_at area bytes.now }
{
    let before = dot(bytes);
    if before < bytes.len() {
        bit(
            area,
            integer(10, &bytes[..before]),
            integer(10, &bytes[before + 1..]),
        )
    } else {
        None
    }
}

fn word(area: Area, number: Option<u64>) -> Option<Loc>
    ensures { result ≡ word_of area number }
{
    match number {
        Some(k) if (k as usize) < WORDS => Some(Loc::Word(area, k as u16)),
        _ => None,
    }
}

#[tactic(auto, unfolding(crate::specs::Locations::word_at), using(crate::proofs::LocationLaws::word_capped))]
fn numbered_word(area: Area, bytes: &[u8]) -> Option<Loc>
    ensures { result ≡ word_at area bytes.now }
{
    word(area, integer(10, bytes))
}

fn place(area: Area, bytes: &[u8]) -> Option<Loc>
    ensures { result ≡ place_at area bytes.now }
{
    match bytes {
        [] => None,
        [b, others @ ..] => match capital(*b) {
            b'X' => numbered(area, others),
            b'W' => numbered_word(area, others),
            _ => numbered(area, bytes),
        },
    }
}

/// The location that a text with a % in front is, or None where it is none.
pub fn location(text: &[u8]) -> Option<Loc>
    ensures { result ≡ location_of text.now }
{
    match text {
        [_, letter, others @ ..] => place(area(*letter)?, others),
        _ => None,
    }
}

/// Whether a double word begins at the word with this number: at each even one.
pub fn begins_double(n: u64) -> bool
    ensures { result ≡ begins_double n }
{
    n < WORDS as u64 && n % 2 == 0
}

/// A double word, which is DINT by itself.
#[tactic(auto, using(crate::proofs::LocationLaws::double_fits))]
fn double_word(area: Area, number: Option<u64>) -> Option<Loc>
    ensures { result ≡ double_of area number }
{
    match number {
        Some(k) if begins_double(k) => Some(Loc::Double(area, k as u16, DoubleType::Dint)),
        _ => None,
    }
}

#[tactic(auto, unfolding(crate::specs::Locations::double_at), using(crate::proofs::LocationLaws::double_capped))]
fn numbered_double_word(area: Area, bytes: &[u8]) -> Option<Loc>
    ensures { result ≡ double_at area bytes.now }
{
    double_word(area, integer(10, bytes))
}

/// The double word that a text with a % in front is, as %ID4, or None where it is none.
fn double_location(text: &[u8]) -> Option<Loc>
    ensures { result ≡ double_location_of text.now }
{
    match text {
        [_, letter, sort, others @ ..] if capital(*sort) == b'D' => {
            numbered_double_word(area(*letter)?, others)
        }
        _ => None,
    }
}

/// The location that an extended text with a % in front is, or None where it is none.
pub fn extended_location(text: &[u8]) -> Option<Loc>
    ensures { result ≡ extended_location_of text.now }
{
    match location(text) {
        Some(loc) => Some(loc),
        None => double_location(text),
    }
}
