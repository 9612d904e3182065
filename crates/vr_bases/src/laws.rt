//! What is promised of every base.

ghost use Rattle.vr_bases.specs.Spelling.{OneBase};

use vr_kept::what_was_taken_up_is_read;

/// No bytes are the base of two replicas with other marks, or with another log.
pub fn a_base_is_of_one()
    ensures { OneBase }
{
    what_was_taken_up_is_read();
}
