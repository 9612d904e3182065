//! Conversions between values of REAL and whole numbers.

ghost use Rattle.std.specs.Prelude.{◌≡◌};
ghost use Rattle.il_real.specs.Reals.{real_of_whole, nearest_whole, whole_part};
ghost use Rattle.il_real.specs.Numbers.{is_in_64_bits, whole_in_64_bits};

use crate::real::Real;

fn is_in_64_bits(x: f32) -> bool
    ensures { result ≡ is_in_64_bits x }
{
    -9223372036854775808.0 <= x && x < 9223372036854775808.0
}

/// The whole number that a number is; None where 64 bits don't hold it.
fn whole_in_64_bits(x: f32) -> Option<i64>
    ensures { result ≡ whole_in_64_bits x }
{
    if is_in_64_bits(x) {
        Some(std::num::saturating_f32_to_i64(x))
    } else {
        None
    }
}

impl Real {
    /// The value nearest to a whole number, of two the even one; there always is one.
    pub fn of_whole(z: i64) -> Option<Real>
        ensures { result ≡ real_of_whole z }
    {
        Real::of(std::num::nearest_i64_to_f32(z))
    }

    /// The whole number nearest to a value, of two the even one (IEC 61131-3:2003, 2.5.1.5.1); None where 64 bits don't
    /// hold it.
    pub fn nearest_whole(self) -> Option<i64>
        ensures { result ≡ nearest_whole self }
    {
        whole_in_64_bits(self.number().round_ties_even())
    }

    /// The whole number next to a value towards 0; None where 64 bits don't hold it.
    pub fn whole_part(self) -> Option<i64>
        ensures { result ≡ whole_part self }
    {
        whole_in_64_bits(self.number().trunc())
    }
}
