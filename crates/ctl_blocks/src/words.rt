//! The four words that a block's state is saved as: its truths, two numbers, a moment, and 0.

ghost use Rattle.std.specs.Prelude.{◌≡◌, ◌<◌, ◌≤◌, ◌^◌, length};
ghost use Rattle.ctl_blocks.specs.Words.{bit, bits_number, joined_halves, saved_words, has_bit, high_of, low_of};
ghost use Rattle.ctl_blocks.specs.Words.{int_or_zero};

/// How many values half a word has.
const HALF: u64 = 0x1_0000_0000;

fn bit(truth: bool) -> u64
    ensures { result ≡ bit truth }
{
    u64::from(truth)
}

/// The number with these bits, the lowest first.
#[tactic(auto, using(crate::proofs::SavedWords::small_bits))]
fn bits_number(truths: &[bool]) -> u64
    requires { length truths.now ≤ 5 }
    ensures { result ≡ bits_number truths.now }
{
    match truths {
        [first, rest @ ..] => bit(*first) + 2 * bits_number(rest),
        [] => 0,
    }
}

fn joined_halves(high: i32, low: i32) -> u64
    ensures { result ≡ joined_halves high low }
{
    u64::from(high.cast_unsigned()) * HALF + u64::from(low.cast_unsigned())
}

/// The words of a state with these truths in the order of the kind's table, its preset (PV, or PT in ms), its current
/// value (CV, or ET in ms) and the moment at which it began to run. What a kind doesn't have is 0.
pub fn saved_words(truths: &[bool], preset: i32, current: i32, start: u64) -> [u64; 4]
    requires { length truths.now ≤ 5 }
    ensures { result ≡ saved_words truths.now preset current start }
{
    [
        bits_number(truths),
        joined_halves(preset, current),
        start,
        0,
    ]
}

/// Whether the bit of that weight is set.
pub fn has_bit(number: u64, weight: u64) -> bool
    requires { 0 < weight }
    ensures { result ≡ has_bit number weight }
{
    number / weight % 2 == 1
}

/// The number in the high half of a word.
pub fn high_half(number: u64) -> i32
    ensures { result ≡ high_of number }
{
    ((number / HALF) as u32).cast_signed()
}

/// The number in the low half of a word.
pub fn low_half(number: u64) -> i32
    ensures { result ≡ low_of number }
{
    ((number % HALF) as u32).cast_signed()
}

/// The number, or 0 where INT hasn't it.
pub fn int_or_zero(z: i32) -> i16
    ensures { result ≡ int_or_zero z }
{
    i16::try_from(z).unwrap_or(0)
}
