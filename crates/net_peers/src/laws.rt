//! What comes out of a connection between machines.

ghost use Rattle.net_peers.specs.Passing.{OnlySent};

use net_ends::only_sent_is_given;
use net_records::know_records;

/// The law that a connection gives a prefix of the messages that were put at its other end since the hello, in order,
/// and no fault, where one end has read a prefix of what the other wrote.
pub fn only_sent_is_given_in_records()
    ensures { OnlySent }
{
    know_records();
    only_sent_is_given();
}
