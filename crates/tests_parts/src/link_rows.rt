//! Links over TCP: what comes, in which order, also once a connection is over, and who else may come; links over
//! channels: how much may wait.

use net_links::{links, pair};
use std::io;
use std::io::{Read, Write};
use std::net::{Net, Shutdown, SocketAddr, TcpListener, TcpStream};
use std::process::Abort;
use std::sync::{Arc, Mutex, Wait};
use std::test::Fail;
use std::time::Duration;
use vr_model::{Body, Message, Party};
use vr_ports::{Cutter, Input, Link, Relink};
use vr_threads::{ChannelLink, Switchboard};

/// A machine's network. It keeps a second handle of each connection that is made, so that a test can end it.
#[derive(Clone, Copy)]
struct Watched<'a, R> {
    rt: R,
    made: &'a Mutex<Vec<TcpStream>>,
}

impl<R: Wait> Wait for Watched<'_, R> {}

impl<R: Wait + Net<Listener = TcpListener, Stream = TcpStream>> Net for Watched<'_, R> {
    type Stream = TcpStream;

    type Listener = TcpListener;

    fn bind(&self, addr: SocketAddr) -> io::Result<TcpListener> {
        self.rt.bind(addr)
    }

    fn connect(&self, addr: SocketAddr) -> io::Result<TcpStream> {
        let stream = self.rt.connect(addr)?;
        self.made.lock(&self.rt).push(stream.try_clone()?)?;
        Ok(stream)
    }
}

/// Ends each of these connections, and keeps none of them. How many there were.
fn end_all<R: Wait>(rt: &R, made: &Mutex<Vec<TcpStream>>) -> io::Result<usize> {
    let mut made = made.lock(rt);
    for stream in made.iter() {
        stream.shutdown(Shutdown::Both)?;
    }
    let count = made.len();
    made.clear();
    Ok(count)
}

/// A COMMIT to replica 0.
fn commit(from: u8, number: u64) -> Message {
    Message {
        from: Party::Replica(from),
        to: Party::Replica(0),
        body: Body::Commit {
            view: 0,
            commit_number: number,
        },
    }
}

/// The number of a COMMIT that came; 0 where nothing came.
fn number_of(input: &Input) -> Option<u64> {
    match input {
        Input::Nothing => Some(0),
        Input::Message(message) => match &message.body {
            Body::Commit { commit_number, .. } => Some(*commit_number),
            _ => None,
        },
        Input::Closed => None,
    }
}

/// So many COMMITs come of a hundred: no frame names the sender of one.
const COME: u64 = 99;

/// Replica 1 sends a hundred.
fn send_all<L: Link>(second: &mut L) {
    for number in 1..=COME + 1 {
        second.send(commit(if number == 7 { 200 } else { 1 }, number));
    }
}

/// How many of them come, in their order; none where something else does.
fn count_of<L: Link>(first: &mut L) -> u64 {
    let (mut last, mut count) = (0u64, 0u64);
    for _ in 0..2 * COME {
        if count == COME {
            break;
        }
        let input = first.recv();
        let number = number_of(&input);
        drop(input);
        match number {
            Some(0) => {}
            Some(number) if number > last => {
                last = number;
                count = count.saturating_add(1);
            }
            _ => return 0,
        }
    }
    count
}

/// Has both ends see that their connection is over, behind which the second makes another one.
fn see<L: Link>(first: &mut L, second: &mut L) {
    for _ in 0..3u32 {
        let _ = (first.recv(), second.recv());
    }
}

/// How many come over each of three connections, which are ended one after the other while no link is cut; none where
/// another number of connections was made.
fn counted<R: Wait, L: Link>(
    rt: &R,
    made: &Mutex<Vec<TcpStream>>,
    first: &mut L,
    second: &mut L,
) -> io::Result<[u64; 3]> {
    let mut counts = [0u64; 3];
    for count in counts.iter_mut() {
        send_all(second);
        *count = count_of(first);
        if end_all(rt, made)? != 1 {
            return Ok([0; 3]);
        }
        see(first, second);
    }
    Ok(counts)
}

/// All come in order, but for those without a frame, which are counted; and a connection that is over is made anew.
#[test]
fn messages_come_in_order_over_each_connection(rt: HostRuntime) -> Result<(), Fail> {
    let made = Mutex::new(Vec::new(rt.alloc()));
    let watched = Watched { rt, made: &made };
    let mut links = links(watched, rt.alloc(), 2, 0, Duration::from_millis(50))?;
    let mut second = links.pop().ok_or("no link")?;
    let mut first = links.pop().ok_or("no link")?;
    assert_eq!(rt; counted(&rt, &made, &mut first, &mut second)?, [COME; 3]);
    assert_eq!(rt; second.frameless(), 3);
    Ok(())
}

/// Whether a link is closed within some receives.
fn is_closed<L: Link>(link: &mut L) -> bool {
    for _ in 0..10u32 {
        if matches!(link.recv(), Input::Closed) {
            return true;
        }
    }
    false
}

/// A link that is cut is closed, and so is the other one, since there's no third. It's made anew, with its connections.
#[test]
fn a_link_is_cut_and_made_anew(rt: HostRuntime) -> Result<(), Fail> {
    let mut links = links(rt, rt.alloc(), 2, 0, Duration::from_millis(50))?;
    let mut second = links.pop().ok_or("no link")?;
    let mut first = links.pop().ok_or("no link")?;
    first.cutter()?.cut();
    assert!(rt; is_closed(&mut first) && is_closed(&mut second));
    assert!(rt; first.renew().is_ok());
    assert!(rt; !matches!(second.recv(), Input::Closed));
    send_all(&mut second);
    assert_eq!(rt; count_of(&mut first), COME);
    Ok(())
}

/// How many of five thousand messages wait for a party that takes none meanwhile.
fn waiting<L: Link>(busy: &mut L, stalled: &mut L) -> u64 {
    for number in 1..=5000u64 {
        busy.send(commit(1, number));
    }
    for count in 0..5000u64 {
        let input = stalled.recv();
        let number = number_of(&input);
        drop(input);
        if number == Some(0) {
            return count;
        }
    }
    5000
}

/// Over channels.
#[test]
fn what_waits_for_a_party_is_bounded(rt: HostRuntime) -> Result<(), Fail> {
    let (alloc, wait) = (rt.alloc(), Duration::from_millis(5));
    let board = Arc::new(alloc, Switchboard::new(alloc, 2, 0)?)?;
    let same = Arc::try_clone(&board)?;
    let mut busy = ChannelLink::new(rt, alloc, same, Party::Replica(1), wait)?;
    let mut stalled = ChannelLink::new(rt, alloc, board, Party::Replica(0), wait)?;
    assert_eq!(rt; waiting(&mut busy, &mut stalled), 1024);
    Ok(())
}

#[test]
fn a_stranger_that_was_faster_is_refused(rt: HostRuntime) -> Result<(), Fail> {
    let listener = TcpListener::bind(&rt, ("127.0.0.1", 0))?;
    let mut stranger = TcpStream::connect(&rt, listener.local_addr()?)?;
    stranger.write_all(b"!")?;
    let (mut near, mut far) = pair(&rt, &listener)?;
    near.write_all(b"a")?;
    let mut byte = [0u8; 1];
    far.read_exact(&mut byte)?;
    let ended = !matches!(stranger.read(&mut [0u8; 1]), Ok(1));
    assert_eq!(rt; (byte, ended), (*b"a", true));
    Ok(())
}
