//! A connection, over TCP or over a socket of this machine, and who has it.

ghost use Rattle.std.specs.Prelude.{◌≤◌, length, IfOk};

use std::alloc::{AllocError, Global};
use std::io;
use std::io::{Read, Write};
use std::net::{IpAddr, Shutdown, TcpStream};
use std::os::unix::net::UnixStream;
use std::sync::Arc;
use std::sync::atomic::{AtomicBool, Ordering};
use std::time::Duration;

/// What a connection's bytes go over.
#[derive(Drop)]
pub(crate) enum Wire {
    Tcp(TcpStream),
    Unix(UnixStream),
}

impl Wire {
    /// Replies are sent at once.
    pub(crate) fn hasten(&self) -> io::Result<()> {
        match self {
            Wire::Tcp(stream) => stream.set_nodelay(true),
            Wire::Unix(_) => Ok(()),
        }
    }

    /// The address that it comes from, where it comes over TCP.
    pub(crate) fn peer(&self) -> Option<IpAddr> {
        match self {
            Wire::Tcp(stream) => Some(stream.peer_addr().ok()?.ip()),
            Wire::Unix(_) => None,
        }
    }

    /// Another handle of the same connection.
    fn again(&self) -> io::Result<Wire> {
        match self {
            Wire::Tcp(stream) => Ok(Wire::Tcp(stream.try_clone()?)),
            Wire::Unix(stream) => Ok(Wire::Unix(stream.try_clone()?)),
        }
    }

    fn shutdown(&self, how: Shutdown) {
        let _ = match self {
            Wire::Tcp(stream) => stream.shutdown(how),
            Wire::Unix(stream) => stream.shutdown(how),
        };
    }

    /// A read waits at most for so long.
    pub(crate) fn limit_reads(&self, limit: Duration) -> io::Result<()> {
        match self {
            Wire::Tcp(stream) => stream.set_read_timeout(Some(limit)),
            Wire::Unix(stream) => stream.set_read_timeout(Some(limit)),
        }
    }

    /// Reads bytes into the front of `buf`, and answers how many.
    pub(crate) fn read(&self, buf: &mut [u8]) -> io::Result<usize>
        ensures { IfOk result (λ count. count ≤ length buf.new) }
    {
        match self {
            Wire::Tcp(stream) => read_of(stream, buf),
            Wire::Unix(stream) => read_of(stream, buf),
        }
    }

    /// Writes bytes from the front of `buf`, and answers how many.
    pub(crate) fn write(&self, buf: &[u8]) -> io::Result<usize>
        ensures { IfOk result (λ count. count ≤ length buf.now) }
    {
        match self {
            Wire::Tcp(stream) => write_to(stream, buf),
            Wire::Unix(stream) => write_to(stream, buf),
        }
    }

    /// A write waits at most for so long.
    pub(crate) fn limit_writes(&self, limit: Duration) -> io::Result<()> {
        match self {
            Wire::Tcp(stream) => stream.set_write_timeout(Some(limit)),
            Wire::Unix(stream) => stream.set_write_timeout(Some(limit)),
        }
    }
}

/// Reads of this stream.
fn read_of<S: Read + Drop>(stream: S, buf: &mut [u8]) -> io::Result<usize>
    ensures { IfOk result (λ count. count ≤ length buf.new) }
{
    let mut stream = stream;
    stream.read(buf)
}

/// Writes to this stream.
fn write_to<S: Write + Drop>(stream: S, buf: &[u8]) -> io::Result<usize>
    ensures { IfOk result (λ count. count ≤ length buf.now) }
{
    let mut stream = stream;
    stream.write(buf)
}

/// Who has a connection: another thread can have it give way, or end it.
#[derive(Drop)]
pub struct Guest {
    pub(crate) wire: Wire,
    pub(crate) gives_way: Arc<AtomicBool>,
}

impl Guest {
    /// Who has come by this connection.
    pub(crate) fn new(alloc: Global, wire: Wire) -> Result<Guest, AllocError> {
        Ok(Guest {
            wire,
            gives_way: Arc::new(alloc, AtomicBool::new(false))?,
        })
    }

    /// The same one.
    pub(crate) fn again(&self) -> io::Result<Guest> {
        Ok(Guest {
            wire: self.wire.again()?,
            gives_way: Arc::try_clone(&self.gives_way)?,
        })
    }

    /// Has the connection give way: its session reads what came by now, and then the end.
    pub fn dismiss(&self) {
        self.gives_way.store(true, Ordering::SeqCst);
        self.wire.shutdown(Shutdown::Read);
    }

    /// Ends the reads and writes of the connection.
    pub(crate) fn cut(&self) {
        self.wire.shutdown(Shutdown::Both);
    }
}
