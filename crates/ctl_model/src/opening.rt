//! What an opening parenthesis keeps.

ghost use Rattle.std.specs.Prelude.{◌≡◌};

use il_model::{Deferred, Op, Value};

/// What is kept of an operator until its parenthesis closes, and the first value of what stands inside, if there is one
/// on the same line. The letter N is kept with the operator: it negates what the parentheses give.
#[inline(always)]
pub fn opened(op: Op, negated: bool, cr: Value, first: Option<Value>) -> (Deferred, Option<Value>)
    ensures kept { result.0 ≡ record { op = op; negated = negated; cr = cr } }
    ensures first { result.1 ≡ first }
{
    (Deferred { op, negated, cr }, first)
}
