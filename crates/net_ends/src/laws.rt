//! What comes out of a connection.

ghost use Rattle.vr_wire.specs.Streams.{OnlyFramed};

use vr_wire::only_framed_are_found;

/// Where a connection gives one end a prefix of the bytes that were written at the other, what that end hands out is a
/// prefix of the messages that were put there, in order.
pub fn only_sent_is_given()
    ensures { OnlyFramed }
{
    only_framed_are_found();
}
