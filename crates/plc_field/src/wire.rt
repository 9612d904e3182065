//! A connection as a socket: units that come in, and units that go out.

use field_cycle::LinkFault;
use mio::net::TcpStream;
use mio::{Interest, Registry, Token};
use modbus_wire::{Adu, Session, SessionFault};
use std::alloc::Global;
use std::io;
use std::io::{ErrorKind, Read, Write};
use std::net::{Net, SocketAddr};

/// So many bytes are read at once.
const PIECE: usize = 512;

/// The most bytes of a unit behind its header (MODBUS Application Protocol V1.1b3, 4.1).
const LONGEST: usize = 253;

/// A connection that is made, or being made.
#[derive(Drop)]
pub(crate) struct Wire {
    stream: TcpStream,
    session: Session,
    /// What waits to be written.
    bytes: Vec<u8>,
    is_open: bool,
}

/// Reads until there is no more for now, or to the end, where it's known to be there, and adds the units that are
/// whole. The fault where nothing comes any more.
fn read_units<R: Read>(
    reader: &mut R,
    session: &mut Session,
    units: &mut Vec<Adu>,
    is_ending: bool,
) -> Result<(), LinkFault> {
    let mut piece = [0; PIECE];
    for _ in 0..u64::MAX {
        match reader.read(&mut piece) {
            Ok(0) => return Err(LinkFault::Closed),
            Ok(count) => {
                feed(session, &piece[..count], units)?;
                // What comes behind a piece that is shorter is told by a further event.
                if count < PIECE && !is_ending {
                    return Ok(());
                }
            }
            Err(error) if error.kind() == ErrorKind::Interrupted => {}
            Err(error) if error.kind() == ErrorKind::WouldBlock => return Ok(()),
            Err(_) => return Err(LinkFault::Closed),
        }
    }
    Ok(())
}

fn feed(session: &mut Session, piece: &[u8], units: &mut Vec<Adu>) -> Result<(), LinkFault> {
    match session.feed(piece, units) {
        Ok(()) => Ok(()),
        Err(SessionFault::Header(fault)) => Err(LinkFault::Header(fault)),
        Err(SessionFault::Memory) => Err(LinkFault::Memory),
    }
}

/// Writes what the writer takes of these bytes, and keeps the others.
fn write_bytes<W: Write>(writer: &mut W, bytes: &mut Vec<u8>) -> Result<(), LinkFault> {
    for _ in 0..u64::MAX {
        if bytes.is_empty() {
            return Ok(());
        }
        match writer.write(bytes.as_slice()) {
            Ok(0) => return Err(LinkFault::Closed),
            Ok(count) => {
                bytes.drain(..count);
            }
            Err(error) if error.kind() == ErrorKind::Interrupted => {}
            Err(error) if error.kind() == ErrorKind::WouldBlock => return Ok(()),
            Err(_) => return Err(LinkFault::Closed),
        }
    }
    Ok(())
}

impl Wire {
    /// Begins to connect. `registry` reports it by this token.
    pub(crate) fn connect<R: Net>(
        rt: &R,
        alloc: Global,
        registry: &Registry,
        token: Token,
        address: SocketAddr,
    ) -> io::Result<Wire> {
        let mut stream = TcpStream::connect(rt, address)?;
        registry.register(&mut stream, token, Interest::READABLE | Interest::WRITABLE)?;
        Ok(Wire {
            stream,
            session: Session::new(),
            bytes: Vec::new(alloc),
            is_open: false,
        })
    }

    /// Whether it's connected just now.
    pub(crate) fn opens(&mut self) -> Result<bool, LinkFault> {
        if self.is_open {
            return Ok(false);
        }
        match self.stream.take_error() {
            Ok(None) => {}
            _ => return Err(LinkFault::Closed),
        }
        self.is_open = self.stream.peer_addr().is_ok();
        if self.is_open {
            // It's slower without, and works.
            let _ = self.stream.set_nodelay(true);
        }
        Ok(self.is_open)
    }

    /// Writes what waits, and reads what came, to the end, where it's known to be there.
    pub(crate) fn attend(
        &mut self,
        units: &mut Vec<Adu>,
        is_ending: bool,
    ) -> Result<(), LinkFault> {
        if !self.is_open {
            return Ok(());
        }
        write_bytes(&mut self.stream, &mut self.bytes)?;
        read_units(&mut self.stream, &mut self.session, units, is_ending)
    }

    /// Sends a unit. One that is too long for a frame isn't sent: no request is.
    pub(crate) fn send(&mut self, unit: &Adu) -> Result<(), LinkFault> {
        if unit.pdu.len() > LONGEST {
            return Err(LinkFault::Length);
        }
        if unit.write_to(&mut self.bytes).is_err() {
            return Err(LinkFault::Memory);
        }
        write_bytes(&mut self.stream, &mut self.bytes)
    }
}
