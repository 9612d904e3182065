//! What is promised of what was kept.

ghost use Rattle.vr_kept.specs.Inputs.{ReadBack};

use vr_wire::any_pieces;

/// No two events have one spelling; and of records of some events, and whatever stands behind those, these events are
/// read first, in order.
pub fn what_was_taken_up_is_read()
    ensures { ReadBack }
{
    any_pieces();
}
