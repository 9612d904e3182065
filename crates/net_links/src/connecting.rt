//! A connection of this machine.

use std::io;
use std::io::ErrorKind;
use std::net::{Net, TcpListener, TcpStream};

/// How many connections of others may come in while one is made.
const STRANGERS: u32 = 1000;

/// Both ends of a new connection to this listener: the one that was made, and the one that was accepted. Connections of
/// others that came before it are closed.
pub fn pair<R: Net<Listener = TcpListener, Stream = TcpStream>>(
    rt: &R,
    listener: &TcpListener,
) -> io::Result<(TcpStream, TcpStream)> {
    let near = TcpStream::connect(rt, listener.local_addr()?)?;
    let address = near.local_addr()?;
    for _ in 0..STRANGERS {
        let (far, from) = listener.accept()?;
        if from == address {
            return Ok((near, far));
        }
    }
    Err(io::Error::from(ErrorKind::ConnectionRefused))
}
