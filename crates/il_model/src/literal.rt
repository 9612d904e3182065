//! Literals: digits and what they stand for (IEC 61131-3:2003, B.1.2.1).

ghost use Rattle.std.specs.Prelude.{◌≡◌, ◌≤◌, ◌<◌, IfSome};
ghost use Rattle.il_model.specs.Literals.{digit_of, held_integer};

use il_values::Value;

/// A literal: a bare number, which takes the type that its place asks for, or a value.
#[derive(Clone, Copy, Debug, PartialEq, Eq)]
pub enum Literal {
    Bare(i32),
    Typed(Value),
}

/// The value of a digit, 99 for any other byte.
pub fn digit(b: u8) -> u8
    ensures value { result ≡ digit_of b }
    ensures fits { result < 100 }
{
    match b {
        b'0'..=b'9' => b - 48,
        b'A'..=b'Z' => b - 55,
        b'a'..=b'z' => b - 87,
        _ => 99,
    }
}

/// The number that digits stand for, or the greatest `u64` where it is above that, which no literal may have.
#[tactic(auto, unfolding(crate::specs::Literals::are_digits, crate::specs::Literals::value_behind))]
pub fn integer(base: u8, bytes: &[u8]) -> Option<u64>
    requires low { 2 ≤ base }
    requires high { base ≤ 16 }
    ensures value { result ≡ held_integer base bytes.now }
{
    let mut value = 0u64;
    let mut behind = false;
    for b in bytes {
        if *b == b'_' {
            if !behind {
                return None;
            }
            behind = false;
        } else {
            let d = digit(*b);
            if d >= base {
                return None;
            }
            value = value
                .saturating_mul(u64::from(base))
                .saturating_add(u64::from(d));
            behind = true;
        }
    }
    if behind { Some(value) } else { None }
}
