//! What a client may do, by the port that he has come to and by where he comes from.

ghost use Rattle.std.specs.Prelude.{◌≡◌};
ghost use Rattle.modbus_server.specs.Access.{access_of, is_unknown, ReadersStageNothing};

use modbus_replies::Access;
use net_addresses::Clients;
use std::net::IpAddr;

/// Whether there's a list of those who only read, and it can't tell whether a client is on it: he has reset his connection,
/// so nobody knows where he came from, and what he left in it may be a write; or he has come by IPv6, as which a socket of
/// both shows addresses of IPv4, too.
fn is_unknown(clients: &Clients, peer: Option<IpAddr>) -> bool
    ensures { result ≡ is_unknown clients.now.readers peer }
{
    match (&clients.readers, peer) {
        (Some(_), None | Some(IpAddr::V6(_))) => true,
        _ => false,
    }
}

/// What a client may do who has come from there to a port at which clients may do this.
pub(crate) fn access_of(port: Access, clients: &Clients, peer: Option<IpAddr>) -> Access
    ensures { result ≡ access_of port clients.now peer }
{
    match port {
        Access::ReadsAlone => Access::ReadsAlone,
        Access::ReadsAndWrites if clients.reads_alone(peer) => Access::ReadsAlone,
        Access::ReadsAndWrites if is_unknown(clients, peer) => Access::ReadsAlone,
        Access::ReadsAndWrites => Access::ReadsAndWrites,
    }
}

/// That whatever `serve_session` does with who may only read, the staged inputs are as they were.
pub fn readers_stage_nothing()
    ensures { ReadersStageNothing }
{}
