//! The links of the parties of one machine.

use crate::course::Pulse;
use crate::exchange::Exchange;
use crate::guard::Guard;
use crate::link::{LISTENER, PeerLink, WAKER};
use crate::notice::Told;
use crate::peer::Peer;
use crate::strangers::Strangers;
use mio::net::TcpListener as Listener;
use mio::{Events, Interest, Poll, Token, Waker};
use net_hello::{Epoch, Hello, Known};
use net_keys::Keys;
use std::alloc::Global;
use std::io;
use std::io::ErrorKind;
use std::net::{Net, SocketAddr, TcpListener, TcpStream};
use std::random::RandomSource;
use std::sync::{Arc, Wait};
use std::time::{Clock, Duration, Instant};
use vr_model::{ClientNumber, MOST_REPLICAS, Party};

/// The number of machine 0's console among the clients: those below are the machines' drivers.
pub const FIRST_CONSOLE: u8 = 8;

/// How many events are told at once, at most.
pub(crate) const EVENTS: usize = 64;

/// What a machine knows of its group.
#[derive(Drop)]
pub struct Machine {
    /// Of the group, by `group_identity`.
    pub identity: [u8; 32],
    pub epoch: Epoch,
    /// How often this machine was started in the epoch.
    pub starts: u64,
    /// For so many milliseconds it shows outputs, as all machines of its group do.
    pub fresh: u32,
    /// The number of its store, which was drawn when that was formatted; never 0.
    pub store: u64,
    /// Those of the other machines' stores that were seen in the epoch, by the machines' numbers; 0 where none was.
    pub seen: [u64; MOST_REPLICAS],
    /// This one.
    pub number: u8,
    /// Where the replica of each machine listens, by their numbers.
    pub replicas: Vec<SocketAddr>,
    pub has_console: bool,
    /// By which its group's machines prove that they are of it, if it has any.
    pub keys: Option<Keys>,
    /// How often its parties say that they are there, and how soon another one is missed.
    pub pulse: Pulse,
}

/// The client of this number; `InvalidInput` where there is none.
fn client(number: u8) -> io::Result<Party> {
    match ClientNumber::new(number) {
        Some(client) => Ok(Party::Client(client)),
        None => Err(io::Error::from(ErrorKind::InvalidInput)),
    }
}

/// The console of a machine.
fn console(machine: u8) -> io::Result<Party> {
    client(FIRST_CONSOLE.saturating_add(machine))
}

/// The parties of a machine: its replica, its driver, and its console if it has one.
fn parties_of(alloc: Global, machine: &Machine) -> io::Result<Vec<Party>> {
    let mut parties = Vec::new(alloc);
    parties.push(Party::Replica(machine.number))?;
    parties.push(client(machine.number)?)?;
    if machine.has_console {
        parties.push(console(machine.number)?)?;
    }
    Ok(parties)
}

/// A party of the machine of this number, as what was seen of that machine tells; where it's dialled, if it's this end
/// that dials.
fn peer_of(machine: &Machine, number: u8, party: Party, address: Option<SocketAddr>) -> Peer {
    let store = machine.seen.get(usize::from(number)).copied();
    Peer::new(party, address, machine.pulse, store.unwrap_or(0))
}

/// Whom a replica is connected with: each replica of another machine, of which it dials those below it, and the
/// consoles of the other machines, which dial it.
fn peers_of_replica(alloc: Global, machine: &Machine) -> io::Result<Vec<Peer>> {
    let mut peers = Vec::new(alloc);
    let mut number = 0u8;
    for address in machine.replicas.iter() {
        if number != machine.number {
            let dialled = if number < machine.number {
                Some(*address)
            } else {
                None
            };
            let replica = Party::Replica(number);
            peers.push(peer_of(machine, number, replica, dialled))?;
            peers.push(peer_of(machine, number, console(number)?, None))?;
        }
        number = number.saturating_add(1);
    }
    Ok(peers)
}

/// Whom a console is connected with: the replica of each other machine, which it dials.
fn peers_of_console(alloc: Global, machine: &Machine) -> io::Result<Vec<Peer>> {
    let mut peers = Vec::new(alloc);
    let mut number = 0u8;
    for address in machine.replicas.iter() {
        if number != machine.number {
            let party = Party::Replica(number);
            peers.push(peer_of(machine, number, party, Some(*address)))?;
        }
        number = number.saturating_add(1);
    }
    Ok(peers)
}

/// Whom a party of a machine is connected with: a driver with nobody, since it drives only where its own machine's
/// replica leads.
fn peers_of(alloc: Global, machine: &Machine, party: Party) -> io::Result<Vec<Peer>> {
    match party {
        Party::Replica(_) => peers_of_replica(alloc, machine),
        Party::Client(client) if client.number < FIRST_CONSOLE => Ok(Vec::new(alloc)),
        Party::Client(_) => peers_of_console(alloc, machine),
    }
}

/// What a party of a machine says first, to one of which it knows nothing.
fn own_of(machine: &Machine, party: Party) -> Hello {
    Hello {
        identity: machine.identity,
        epoch: machine.epoch,
        party,
        starts: machine.starts,
        fresh: machine.fresh,
        store: machine.store,
        known: Known::nothing(),
    }
}

/// What a machine's parties prove by that it's one of the group.
fn guard_of(machine: &Machine) -> Option<Guard> {
    let keys = machine.keys?;
    Some(Guard {
        keys,
        own: machine.number,
    })
}

/// The place of a party in an exchange, and what tells it of what happens.
#[derive(Drop)]
struct Seat {
    exchange: Arc<Exchange>,
    place: usize,
    poll: Poll,
}

/// The link of a party of a machine, with no connection yet.
fn link_of<R>(
    rt: R,
    alloc: Global,
    machine: &Machine,
    seat: Seat,
    party: Party,
    wait: Duration,
) -> io::Result<PeerLink<R>>
where
    R: Wait + Clock + RandomSource + Net<Listener = TcpListener, Stream = TcpStream> + Copy + Drop,
{
    let Seat {
        exchange,
        place,
        poll,
    } = seat;
    Ok(PeerLink {
        rt,
        alloc,
        exchange,
        place,
        party,
        own: own_of(machine, party),
        guard: guard_of(machine),
        unmet: Vec::new(alloc),
        started: Instant::now(&rt)?,
        listener: None,
        poll,
        events: Events::with_capacity(alloc, EVENTS)?,
        peers: peers_of(alloc, machine, party)?,
        strangers: Strangers::new(alloc, guard_of(machine))?,
        told: Told::new(alloc),
        next: 0,
        source: None,
        arrived: Vec::new(alloc),
        unseen: 0,
        wait,
        tended: None,
        frameless: 0,
    })
}

/// The links of the parties of a machine, and what they share: its replica's, which listens, its driver's, and its
/// console's if it has one. A receive waits for so long at most. `InvalidInput` where the group hasn't this machine, or
/// more than eight; otherwise it fails where the system has no poll or no clock for it, or memory runs out. Then the
/// listener is closed.
pub fn machine_links<R>(
    rt: R,
    alloc: Global,
    machine: &Machine,
    listener: TcpListener,
    wait: Duration,
) -> io::Result<(Arc<Exchange>, Vec<PeerLink<R>>)>
where
    R: Wait + Clock + RandomSource + Net<Listener = TcpListener, Stream = TcpStream> + Copy + Drop,
{
    let count = machine.replicas.len();
    if count > usize::from(FIRST_CONSOLE) || usize::from(machine.number) >= count {
        return Err(io::Error::from(ErrorKind::InvalidInput));
    }
    let parties = parties_of(alloc, machine)?;
    let mut exchange = Exchange::new(alloc);
    let mut polls = Vec::new(alloc);
    for party in parties.iter() {
        let poll = Poll::new(&rt)?;
        exchange.add(alloc, *party, Waker::new(poll.registry(), Token(WAKER))?)?;
        polls.push(poll)?;
    }
    let exchange = Arc::new(alloc, exchange)?;
    let mut links = Vec::new(alloc);
    for (place, poll) in polls.into_iter().enumerate() {
        let exchange = Arc::try_clone(&exchange)?;
        let seat = Seat {
            exchange,
            place,
            poll,
        };
        if let Some(party) = parties.get(place) {
            links.push(link_of(rt, alloc, machine, seat, *party, wait)?)?;
        }
    }
    if let Some(link) = links.get_mut(0) {
        link.listen(listener)?;
    }
    Ok((exchange, links))
}
