//! The links of a group, each connected to each.

use crate::hub::Hub;
use crate::tcp_link::{TcpLink, WAKER};
use mio::{Poll, Token, Waker};
use std::alloc::Global;
use std::io;
use std::io::ErrorKind;
use std::net::{Net, TcpListener, TcpStream};
use std::sync::{Arc, Wait};
use std::time::Duration;
use vr_ports::party_at;

/// The links of a group, those of the replicas by their numbers and then those of the clients by theirs, each connected
/// to each other: a connection for each pair, at a port of 127.0.0.1 that the system picks, where nothing listens
/// afterwards. A receive waits for so long. `InvalidInput` where there are more than sixteen clients.
pub fn links<R>(
    rt: R,
    alloc: Global,
    replicas: u8,
    clients: u8,
    wait: Duration,
) -> io::Result<Vec<TcpLink<R>>>
where
    R: Wait + Net<Listener = TcpListener, Stream = TcpStream> + Copy + Drop,
{
    let parties = usize::from(replicas) + usize::from(clients);
    let mut hub = Hub::new(alloc, parties);
    let mut polls = Vec::new(alloc);
    for place in 0..u16::from(replicas) + u16::from(clients) {
        let Some(party) = party_at(replicas, place) else {
            return Err(io::Error::from(ErrorKind::InvalidInput));
        };
        let poll = Poll::new(&rt)?;
        hub.add(alloc, party, Waker::new(poll.registry(), Token(WAKER))?)?;
        polls.push(poll)?;
    }
    let hub = Arc::new(alloc, hub)?;
    let mut links = Vec::new(alloc);
    for (place, poll) in polls.into_iter().enumerate() {
        links.push(TcpLink::new(rt, alloc, Arc::try_clone(&hub)?, place, poll, wait)?)?;
    }
    connect_all(links)
}

/// Connects each of these links to those before it.
fn connect_all<R>(mut links: Vec<TcpLink<R>>) -> io::Result<Vec<TcpLink<R>>>
where
    R: Wait + Net<Listener = TcpListener, Stream = TcpStream> + Copy + Drop,
{
    for (place, link) in links.iter_mut().enumerate() {
        link.connect_below(place)?;
    }
    for link in links.iter_mut() {
        let _ = link.obey();
    }
    Ok(links)
}
