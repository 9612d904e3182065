//! Operators on values of REAL.

ghost use Rattle.std.specs.Prelude.{◌≡◌};
ghost use Rattle.il_real.specs.Reals.{sum, difference, product, quotient, root, magnitude, is_below, is_at_most};
ghost use Rattle.il_real.specs.Reals.{is_equal};

use crate::real::Real;

impl Real {
    /// The sum, rounded; None where it isn't finite.
    pub fn plus(self, other: Real) -> Option<Real>
        ensures { result ≡ sum self other }
    {
        Real::of(self.number() + other.number())
    }

    /// The difference, rounded; None where it isn't finite.
    pub fn minus(self, other: Real) -> Option<Real>
        ensures { result ≡ difference self other }
    {
        Real::of(self.number() - other.number())
    }

    /// The product, rounded; None where it isn't finite.
    pub fn times(self, other: Real) -> Option<Real>
        ensures { result ≡ product self other }
    {
        Real::of(self.number() * other.number())
    }

    /// The quotient, rounded; None where it isn't finite, as by 0.0.
    pub fn over(self, other: Real) -> Option<Real>
        ensures { result ≡ quotient self other }
    {
        Real::of(self.number() / other.number())
    }

    /// The square root, rounded; None for a value below 0.
    pub fn root(self) -> Option<Real>
        ensures { result ≡ root self }
    {
        Real::of(self.number().sqrt())
    }

    /// The value without its sign; there always is one.
    pub fn magnitude(self) -> Option<Real>
        ensures { result ≡ magnitude self }
    {
        Real::of(self.number().abs())
    }

    /// Whether a value is below another.
    pub fn is_below(self, other: Real) -> bool
        ensures { result ≡ is_below self other }
    {
        self.number() < other.number()
    }

    /// Whether a value is at most another.
    pub fn is_at_most(self, other: Real) -> bool
        ensures { result ≡ is_at_most self other }
    {
        self.number() <= other.number()
    }

    /// Whether two values are equal.
    pub fn is(self, other: Real) -> bool
        ensures { result ≡ is_equal self other }
    {
        self.number() == other.number()
    }
}
