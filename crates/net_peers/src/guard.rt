//! What a party of a machine proves by that its machine is one of the group.

ghost use Rattle.std.specs.Prelude.{◌≡◌};
ghost use Rattle.net_peers.specs.Proved.{machine_of};

use crate::machine::FIRST_CONSOLE;
use net_keys::Keys;
use vr_model::Party;

/// The keys of a group, as one of its machines has them.
#[derive(Clone, Copy)]
pub(crate) struct Guard {
    pub(crate) keys: Keys,
    /// The number of the machine.
    pub(crate) own: u8,
}

/// The number of a party's machine.
pub(crate) fn machine_of(party: Party) -> u8
    ensures { result ≡ machine_of party }
{
    match party {
        Party::Replica(number) => number,
        Party::Client(client) => client.number % FIRST_CONSOLE,
    }
}
