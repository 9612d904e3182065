//! The links of a machine's own parties in one epoch.

ghost use Rattle.std.specs.Prelude.{◌≡◌, IfOk};
ghost use Rattle.plc_member.specs.Keeping.{IsToldBy, hello_of};

use net_hello::Epoch;
use net_keys::Keys;
use net_peers::{Exchange, Machine, PeerLink, Pulse, machine_links};
use plc_epochs::Greeting;
use plc_group::{Group, Machine as Place};
use plc_host::{Failed, Host, ServiceRuntime};
use plc_store::Header;
use std::alloc::{AllocError, Global};
use std::net::{Net, SocketAddr, TcpListener, TcpStream};
use std::sync::Arc;
use std::time::Duration;

/// In milliseconds, the longest that a receive waits.
const LONGEST_WAIT: u64 = 5;

/// The links of a machine's own parties, and what they share.
#[derive(Drop)]
pub(crate) struct Linked<R>
where
    R: ServiceRuntime + Net<Listener = TcpListener, Stream = TcpStream>,
{
    pub(crate) exchange: Arc<Exchange>,
    pub(crate) replica: PeerLink<R>,
    pub(crate) driver: PeerLink<R>,
    pub(crate) console: Option<PeerLink<R>>,
}

/// Where the replica of each machine listens.
pub(crate) fn addresses(alloc: Global, machines: &[Place]) -> Result<Vec<SocketAddr>, AllocError> {
    let mut addresses = Vec::with_capacity(alloc, machines.len())?;
    for machine in machines {
        addresses.push(machine.replica)?;
    }
    Ok(addresses)
}

/// Where a machine listens for an operator's console, if it has one.
pub(crate) fn console_of(group: &Group, number: u8) -> Option<SocketAddr> {
    group.machines.get(usize::from(number))?.console
}

/// Whether a machine has an operator's console, at a port or a socket of its own.
fn has_console(group: &Group, number: u8) -> bool {
    group.console_sockets.is_some() || console_of(group, number).is_some()
}

/// The epoch in which a machine says hello. No epoch has number 0: so nobody accepts who waits for one, and each tells
/// its own.
pub(crate) fn hello_of(greeting: Greeting) -> Epoch
    ensures { result ≡ hello_of greeting }
{
    match greeting {
        Greeting::Hello(epoch) => epoch,
        Greeting::Waits | Greeting::Silence => Epoch {
            number: 0,
            image: [0; 32],
        },
    }
}

/// What a machine knows of its group, which was started so often in this epoch.
pub(crate) fn machine_of(
    alloc: Global,
    group: &Group,
    header: &Header,
    epoch: Epoch,
    starts: u64,
    keys: Option<Keys>,
) -> Result<Machine, AllocError>
    ensures { IfOk result (IsToldBy header.now epoch starts) }
{
    Ok(Machine {
        identity: header.identity,
        epoch,
        starts,
        fresh: group.times.fresh,
        store: header.store,
        seen: header.seen,
        number: header.machine,
        replicas: addresses(alloc, group.machines.as_slice())?,
        has_console: has_console(group, header.machine),
        keys,
        pulse: Pulse::of(group.times.patience, group.times.resend),
    })
}

/// The links of a machine, whose replica listens here.
pub(crate) fn links_of<R>(
    host: Host<R>,
    machine: &Machine,
    listener: TcpListener,
) -> Result<Linked<R>, Failed>
where
    R: ServiceRuntime + Net<Listener = TcpListener, Stream = TcpStream>,
{
    let wait = Duration::from_millis(LONGEST_WAIT);
    let (exchange, mut links) = machine_links(host.rt, host.alloc, machine, listener, wait)?;
    let console = if machine.has_console {
        links.pop()
    } else {
        None
    };
    let (Some(driver), Some(replica)) = (links.pop(), links.pop()) else {
        return Err(Failed::Connection);
    };
    Ok(Linked {
        exchange,
        replica,
        driver,
        console,
    })
}
