//! A value of REAL, kept by its pattern.

ghost use Rattle.std.specs.Prelude.{IsTrue};
ghost use Rattle.il_real.specs.Numbers.{is_pattern};

/// A value of REAL: a finite number of IEEE 754's binary32, and not -0. It is kept by its pattern (IEEE 754-2019, 3.4),
/// so equal values are equal bits.
#[derive(Clone, Copy, Debug, PartialEq, Eq)]
pub struct Real {
    pub pattern: u32,
    pub ghost lawful: { IsTrue (is_pattern pattern) },
}

impl Real {
    ghost use Rattle.std.specs.Prelude.{◌≡◌};
    ghost use Rattle.il_real.specs.Reals.{number, with_pattern, real_of, zero_real};

    /// 0.0.
    pub fn zero() -> Real
        ensures { result ≡ zero_real }
    {
        Real { pattern: 0 }
    }

    /// The value with a pattern; None where that is an infinity, no number, or -0.
    #[tactic(auto, using(crate::proofs::Values::no_number, crate::proofs::Values::no_value, crate::proofs::Values::pattern_of))]
    pub fn of_pattern(pattern: u32) -> Option<Real>
        ensures { result ≡ with_pattern pattern }
    {
        if pattern % 0x8000_0000 > 0x7f80_0000 {
            return None;
        }
        let x = f32::from_bits(pattern);
        if !x.is_finite() || (x == 0.0 && x.is_sign_negative()) {
            None
        } else {
            Some(Real { pattern })
        }
    }

    /// The value that a number is, 0.0 for -0; None where it isn't finite.
    pub fn of(x: f32) -> Option<Real>
        ensures { result ≡ real_of x }
    {
        if !x.is_finite() {
            None
        } else if x == 0.0 {
            Some(Real { pattern: 0 })
        } else {
            Some(Real {
                pattern: x.to_bits(),
            })
        }
    }

    /// The number.
    pub fn number(self) -> f32
        ensures { result ≡ number self }
    {
        f32::from_bits(self.pattern)
    }
}
