//! A connection whose other end has said no hello yet.

ghost use Rattle.std.specs.Prelude.{◌≡◌, ◌≤◌, length};
ghost use Rattle.net_peers.specs.Heard.{begins_visit, denies, greeted_by, heard_in, visited_by};

use mio::net::TcpStream as Wire;
use net_hello::{Epoch, HELLO, Hello, HelloFault};
use std::alloc::Global;
use std::io::{ErrorKind, Read, Write};
use vr_model::Party;

/// So many bytes has a visit.
pub const VISIT: usize = 153;

/// The first bytes of a visit: `PLC-CS`, and the version.
const VISIT_FRONT: [u8; 8] = [0x50, 0x4C, 0x43, 0x2D, 0x43, 0x53, 0, 2];

/// How far a greeting has come.
#[derive(Clone, Copy)]
pub(crate) enum Greeted {
    /// More is to come.
    Waits,
    Said(Hello),
    /// It's no hello, but a visit, of these bytes.
    Visits([u8; VISIT]),
    Faulty(HelloFault),
    /// The connection ended or failed.
    Over,
}

/// Whether a visit begins so.
fn begins_visit(bytes: &[u8]) -> bool
    ensures { result ≡ begins_visit bytes.now }
{
    bytes.starts_with(&VISIT_FRONT)
}

/// These bytes as an array.
fn array_of(bytes: &[u8]) -> [u8; VISIT]
    requires { length bytes.now ≡ 153 }
    ensures { result ≡ bytes.now }
{
    match <[u8; VISIT]>::try_from(bytes) {
        Ok(array) => array,
        Err(_) => unreachable!(),
    }
}

/// The visit that these bytes begin, once it's whole.
fn visited_by(bytes: &[u8]) -> Greeted
    ensures { result ≡ visited_by bytes.now }
{
    if bytes.len() == VISIT {
        Greeted::Visits(array_of(bytes))
    } else {
        Greeted::Waits
    }
}

/// What is said in these bytes so far.
fn greeted_by(bytes: &[u8]) -> Greeted
    ensures { result ≡ greeted_by bytes.now }
{
    if begins_visit(bytes) {
        return visited_by(bytes);
    }
    match Hello::read(bytes) {
        Ok(Some(hello)) => Greeted::Said(hello),
        Ok(None) => Greeted::Waits,
        Err(fault) => Greeted::Faulty(fault),
    }
}

/// Whether who says this hello is in one's own epoch, and has seen another store of one's own machine there.
fn denies(own: &Hello, hello: &Hello) -> bool
    ensures { result ≡ denies own.now hello.now }
{
    own.epoch.number == hello.epoch.number
        && own.epoch.image == hello.epoch.image
        && hello.known.store != 0
        && hello.known.store != own.store
}

/// The number of the replica of one's own group that says this hello, and the epoch in which it does; `None` where
/// another group or a client says it, or one that has seen another store of one's own machine in that epoch: nothing is
/// begun by its hello.
pub(crate) fn heard_in(own: &Hello, hello: &Hello) -> Option<(u8, Epoch)>
    ensures { result ≡ heard_in own.now hello.now }
{
    if own.identity != hello.identity || denies(own, hello) {
        return None;
    }
    match hello.party {
        Party::Replica(number) => Some((number, hello.epoch)),
        Party::Client(_) => None,
    }
}

/// A connection, and what came of the other end's hello or visit.
#[derive(Drop)]
pub(crate) struct Greeting {
    pub(crate) wire: Wire,
    bytes: [u8; VISIT],
    count: usize,
    ghost fits: { count ≤ 153 },
}

/// Says this hello at once: a new connection takes so few bytes. False where it doesn't, or memory runs out.
pub(crate) fn greet(alloc: Global, wire: &mut Wire, hello: &Hello) -> bool {
    let Ok(bytes) = hello.spell(alloc) else {
        return false;
    };
    match wire.write(bytes.as_slice()) {
        Ok(count) => count == bytes.len(),
        Err(_) => false,
    }
}

impl Greeting {
    /// Nothing came yet.
    pub(crate) fn new(wire: Wire) -> Greeting {
        Greeting {
            wire,
            bytes: [0; VISIT],
            count: 0,
        }
    }

    /// Whether it's a visit, as far as it came.
    fn is_visit(&self) -> bool {
        begins_visit(&self.bytes[..self.count])
    }

    /// So many bytes are read at most: what comes behind a hello isn't.
    fn end(&self) -> usize
        ensures { result ≤ 153 }
    {
        if self.is_visit() { VISIT } else { HELLO }
    }

    /// Reads what is there, once. False where the connection is over.
    fn fill(&mut self) -> bool {
        let end = self.end();
        if self.count >= end {
            return true;
        }
        match self.wire.read(&mut self.bytes[self.count..end]) {
            Ok(0) => false,
            Ok(count) => {
                self.count += count;
                true
            }
            Err(error) => matches!(error.kind(), ErrorKind::WouldBlock | ErrorKind::Interrupted),
        }
    }

    /// Reads what is there, and tells what was said. A visit is read in two pieces: it's longer than a hello.
    pub(crate) fn hear(&mut self) -> Greeted {
        if !self.fill() || (self.is_visit() && !self.fill()) {
            return Greeted::Over;
        }
        greeted_by(&self.bytes[..self.count])
    }
}
