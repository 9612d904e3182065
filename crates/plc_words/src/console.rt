//! A console that is to be asked, and where a program is, as words name them.

use std::net::SocketAddr;

/// Where a console is.
#[derive(Clone, Copy, Debug, PartialEq, Eq)]
pub enum Place<'a> {
    /// At this address and port.
    Address(SocketAddr),
    /// At the socket of this path, on this machine.
    Socket(&'a str),
}

/// A console that is to be asked.
#[derive(Clone, Copy, Debug, PartialEq, Eq)]
pub struct AskedConsole<'a> {
    pub place: Place<'a>,
    /// In seconds, from 1: so long an answer is waited for.
    pub timeout: u32,
    /// The file whose first line it's told first, if it asks for a key.
    pub key: Option<&'a str>,
}

/// Where a program is.
#[derive(Clone, Copy, Debug, PartialEq, Eq)]
pub enum Origin<'a> {
    /// In the controller whose console is at this address and port.
    Console(SocketAddr),
    /// At this path: the directory of a store, the socket of a console, or the file of a text.
    Path(&'a str),
}

/// How a console is asked for a program.
#[derive(Clone, Copy, Debug, PartialEq, Eq)]
pub struct Fetching<'a> {
    /// In seconds, from 1: so long an answer is waited for.
    pub timeout: u32,
    /// The file whose first line it's told first, if it asks for a key.
    pub key: Option<&'a str>,
}

/// Where a word says that a console is: a port of 127.0.0.1, an address with a port, or a path with a `/`.
pub(crate) fn place_of(word: &str) -> Option<Place<'_>> {
    if word.contains('/') {
        return Some(Place::Socket(word));
    }
    let address = match word.parse::<u16>() {
        Ok(port) => SocketAddr::from(([127, 0, 0, 1], port)),
        Err(_) => word.parse::<SocketAddr>().ok()?,
    };
    if address.port() == 0 {
        return None;
    }
    Some(Place::Address(address))
}

/// Where a word says that a program is: at a port of 127.0.0.1, at an address with a port, or at a path.
pub(crate) fn origin_of(word: &str) -> Origin<'_> {
    match place_of(word) {
        Some(Place::Address(address)) => Origin::Console(address),
        _ => Origin::Path(word),
    }
}
