//! Literals as they are written (IEC 61131-3:2003, B.1.2).

ghost use Rattle.std.specs.Prelude.{◌≡◌, ◌≤◌, ◌<◌, ◌^◌, length, option_map, IfSome};
ghost use Rattle.il_model.specs.Literals.{held_integer, positive, minus, signed_by, is_no_hash, hash_at, based_by};
ghost use Rattle.il_model.specs.Literals.{whole_by, time_by, truth_literal, typed_literal, bare_literal};
ghost use Rattle.il_model.specs.Literals.{prefixed_literal, is_word, literal_by, literal_of, has_point, typed_real};
ghost use Rattle.il_values.specs.declared.value.Ty.TheVariants as types;
ghost use Rattle.il_model.specs.Literals.{integer_of};
ghost use Rattle.il_model.specs.Literals.{extended_prefixed, extended_plain, extended_literal_of};
ghost use Rattle.il_real.specs.Literals.{real_literal};
ghost use Rattle.il_values.specs.Values.{typed_value};

use crate::duration::duration;
use crate::literal::{Literal, integer};
use il_real::real_from;
use il_values::{Ty, Value, is_spelled, make};

fn above(n: Option<u128>) -> Option<i128>
    requires { IfSome n (λ n. n < 2 ^ 127) }
    ensures { result ≡ option_map positive n }
{
    match n {
        Some(n) => Some(n as i128),
        None => None,
    }
}

fn below(n: Option<u128>) -> Option<i128>
    requires { IfSome n (λ n. n < 2 ^ 127) }
    ensures { result ≡ option_map minus n }
{
    match n {
        Some(n) => Some(-(n as i128)),
        None => None,
    }
}

/// The number that digits stand for, wide enough for a sign.
fn wide(base: u8, bytes: &[u8]) -> Option<u128>
    requires low { 2 ≤ base }
    requires high { base ≤ 16 }
    ensures value { result ≡ held_integer base bytes.now }
    ensures small { IfSome result (λ n. n < 2 ^ 127) }
{
    Some(u128::from(integer(base, bytes)?))
}

fn signed(bytes: &[u8]) -> Option<i128>
    ensures { result ≡ signed_by held_integer bytes.now }
{
    match bytes {
        [] => None,
        [b'-', others @ ..] => below(wide(10, others)),
        [b'+', others @ ..] => above(wide(10, others)),
        _ => above(wide(10, bytes)),
    }
}

fn hash(bytes: &[u8]) -> usize
    ensures value { result ≡ hash_at bytes.now }
    ensures fits { result ≤ length bytes.now }
{
    bytes.iter().take_while(|b| **b != b'#').count()
}

fn based(base: &[u8], bytes: &[u8]) -> Option<i128>
    ensures { result ≡ based_by held_integer base.now bytes.now }
{
    if is_spelled(b"2", base) {
        above(wide(2, bytes))
    } else if is_spelled(b"8", base) {
        above(wide(8, bytes))
    } else if is_spelled(b"16", base) {
        above(wide(16, bytes))
    } else {
        None
    }
}

fn whole(bytes: &[u8]) -> Option<i128>
    ensures { result ≡ whole_by held_integer bytes.now }
{
    let hash = hash(bytes);
    if hash < bytes.len() {
        based(&bytes[..hash], &bytes[hash + 1..])
    } else {
        signed(bytes)
    }
}

fn time(bytes: &[u8]) -> Option<i128>
    ensures { result ≡ time_by held_integer bytes.now }
{
    match bytes {
        [] => None,
        [b'-', others @ ..] => below(duration(others)),
        _ => above(duration(bytes)),
    }
}

fn truth(bytes: &[u8]) -> Option<Literal>
    ensures { result ≡ truth_literal bytes.now }
{
    if is_spelled(b"TRUE", bytes) || is_spelled(b"1", bytes) {
        Some(Literal::Typed(Value::Bool(true)))
    } else if is_spelled(b"FALSE", bytes) || is_spelled(b"0", bytes) {
        Some(Literal::Typed(Value::Bool(false)))
    } else {
        None
    }
}

/// The value of a type with a number, which may lie past 64 bits, if it fits.
fn make_wide(ty: Ty, z: i128) -> Option<Value>
    ensures { result ≡ typed_value ty z }
{
    if -9223372036854775808 <= z && z < 9223372036854775808 {
        make(ty, z as i64)
    } else {
        None
    }
}

fn typed_literal(ty: Ty, z: Option<i128>) -> Option<Literal>
    ensures { result ≡ typed_literal ty z }
{
    Some(Literal::Typed(make_wide(ty, z?)?))
}

fn bare_literal(z: i128) -> Option<Literal>
    ensures { result ≡ bare_literal z }
{
    if -2147483648 <= z && z < 2147483648 {
        Some(Literal::Bare(z as i32))
    } else {
        None
    }
}

fn prefixed_literal(word: &[u8], bytes: &[u8]) -> Option<Literal>
    ensures { result ≡ prefixed_literal held_integer word.now bytes.now }
{
    if is_spelled(b"BOOL", word) {
        truth(bytes)
    } else if is_spelled(b"INT", word) {
        typed_literal(Ty::Int, whole(bytes))
    } else if is_spelled(b"DINT", word) {
        typed_literal(Ty::Dint, whole(bytes))
    } else if is_spelled(b"LINT", word) {
        typed_literal(Ty::Lint, whole(bytes))
    } else if is_spelled(b"T", word) || is_spelled(b"TIME", word) {
        typed_literal(Ty::Time, time(bytes))
    } else {
        bare_literal(based(word, bytes)?)
    }
}

fn is_truth(bytes: &[u8]) -> bool
    ensures { result ≡ is_word bytes.now }
{
    is_spelled(b"TRUE", bytes) || is_spelled(b"FALSE", bytes)
}

fn judged(bytes: &[u8]) -> Option<Literal>
    ensures { result ≡ literal_by held_integer bytes.now }
{
    let hash = hash(bytes);
    if hash < bytes.len() {
        prefixed_literal(&bytes[..hash], &bytes[hash + 1..])
    } else if is_truth(bytes) {
        truth(bytes)
    } else {
        bare_literal(signed(bytes)?)
    }
}

/// The literal that a text is: a number with or without a base or a type, TRUE, FALSE, or a duration, in the range of
/// its type (IEC 61131-3:2003, B.1.2; a bare number has 32 bits). Without regard to case. None where it is none.
pub fn literal(bytes: &[u8]) -> Option<Literal>
    ensures { result ≡ literal_of bytes.now }
{
    judged(bytes)
}

/// A REAL that a text is.
fn real(bytes: &[u8]) -> Option<Literal>
    ensures { result ≡ typed_real (real_literal bytes.now) }
{
    Some(Literal::Typed(Value::Real(real_from(bytes)?)))
}

fn has_point(bytes: &[u8]) -> bool
    ensures { result ≡ has_point bytes.now }
{
    bytes.iter().any(|b| *b == b'.')
}

/// A WORD that a text is, without its type.
fn word_literal(bytes: &[u8]) -> Option<Literal>
    ensures { result ≡ typed_literal types.Word (whole_by integer_of bytes.now) }
{
    typed_literal(Ty::Word, whole(bytes))
}

/// A DWORD that a text is, without its type.
fn double_word_literal(bytes: &[u8]) -> Option<Literal>
    ensures { result ≡ typed_literal types.Dword (whole_by integer_of bytes.now) }
{
    typed_literal(Ty::Dword, whole(bytes))
}

fn extended_prefixed(word: &[u8], rest: &[u8], bytes: &[u8]) -> Option<Literal>
    ensures { result ≡ extended_prefixed word.now rest.now bytes.now }
{
    if is_spelled(b"REAL", word) {
        real(rest)
    } else if is_spelled(b"WORD", word) {
        word_literal(rest)
    } else if is_spelled(b"DWORD", word) {
        double_word_literal(rest)
    } else {
        literal(bytes)
    }
}

fn extended_plain(bytes: &[u8]) -> Option<Literal>
    ensures { result ≡ extended_plain bytes.now }
{
    if has_point(bytes) {
        real(bytes)
    } else {
        literal(bytes)
    }
}

/// The literal that a text is in an extended text: a REAL, which has a point, with `REAL#` before it or not, a bit string
/// behind `WORD#` or `DWORD#`, or one of every text. None where it is none.
pub fn extended_literal(bytes: &[u8]) -> Option<Literal>
    ensures { result ≡ extended_literal_of bytes.now }
{
    let hash = hash(bytes);
    if hash < bytes.len() {
        extended_prefixed(&bytes[..hash], &bytes[hash + 1..], bytes)
    } else {
        extended_plain(bytes)
    }
}
