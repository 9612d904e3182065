//! The port of a machine for Modbus clients, which is open only while the machine shows outputs.

ghost use Rattle.std.specs.Prelude.{◌≡◌, IfOk, false, true};
ghost use Rattle.plc_member.specs.Watching.{is_open, turn_of_port};

use io_image::Naming;
use modbus_server::{OpenServer, Seats};
use plc_host::{Failed, ServiceRuntime};
use plc_listener::Door;
use std::io;
use std::net::{Net, SocketAddr, TcpListener, TcpStream};

/// What serves clients: seats that are taken by none, or a server at an open port.
enum Serving<C, O> {
    Closed(C),
    Open(O),
}

/// What became of a port by a look at it.
#[derive(Clone, Copy, Debug, PartialEq, Eq)]
pub(crate) enum Turn {
    Same,
    Opened,
    Closed,
    /// It's to be open, and its address isn't to be had.
    Refused,
}

/// Where clients come in: to read and to write, and to read alone, if there's such a port.
#[derive(Clone, Copy)]
pub(crate) struct Addresses {
    pub(crate) modbus: SocketAddr,
    pub(crate) reading: Option<SocketAddr>,
}

impl Addresses {
    /// The doors at them, if both are to be had.
    fn doors<R: Net<Listener = TcpListener, Stream = TcpStream>>(
        self,
        rt: &R,
    ) -> io::Result<(Door, Option<Door>)> {
        let reading = match self.reading {
            Some(address) => Some(Door::at(rt, address)?),
            None => None,
        };
        Ok((Door::at(rt, self.modbus)?, reading))
    }
}

/// The port of a machine. It can't be let go of but by `close`, which joins its threads.
pub(crate) struct Port<R: ServiceRuntime, J: Naming> {
    rt: R,
    addresses: Addresses,
    serving: Serving<Seats<R, J>, OpenServer<R, J>>,
}

impl<R, J> Port<R, J>
where
    R: ServiceRuntime + Net<Listener = TcpListener, Stream = TcpStream>,
    J: Naming + Send + Sync + 'static,
{
    /// It's closed. Clients are served by these seats while it's open.
    pub(crate) fn new(rt: R, addresses: Addresses, seats: Seats<R, J>) -> Port<R, J>
        ensures { is_open result.serving ≡ false }
    {
        Port {
            rt,
            addresses,
            serving: Serving::Closed(seats),
        }
    }

    /// Whether clients are let in.
    pub(crate) fn is_open(&self) -> bool
        ensures { result ≡ is_open self.now.serving }
    {
        match &self.serving {
            Serving::Open(_) => true,
            Serving::Closed(_) => false,
        }
    }

    /// Opens it, or closes it with each of its sessions, by whether it's to be open. Where it fails it's closed.
    pub(crate) fn tended(self, is_wanted: bool) -> Result<(Port<R, J>, Turn), Failed>
        ensures closed { IfOk result (λ r. is_wanted ≡ false → is_open r.0.serving ≡ false) }
        ensures turn { IfOk result (λ r.
            r.1 ≡ turn_of_port (is_open self.serving) (is_open r.0.serving) is_wanted) }
    {
        let Port {
            rt,
            addresses,
            serving,
        } = self;
        let (serving, turn) = match serving {
            Serving::Closed(seats) if is_wanted => opened(&rt, addresses, seats)?,
            Serving::Open(server) if !is_wanted => {
                (Serving::Closed(server.suspend()), Turn::Closed)
            }
            serving => (serving, Turn::Same),
        };
        let port = Port {
            rt,
            addresses,
            serving,
        };
        Ok((port, turn))
    }

    /// Closes it, with each of its sessions.
    pub(crate) fn close(self) {
        let Port {
            rt: _rt,
            addresses: _addresses,
            serving,
        } = self;
        match serving {
            Serving::Closed(seats) => drop(seats),
            Serving::Open(server) => {
                server.close();
            }
        }
    }
}

/// Lets clients in at these addresses, if they are to be had.
fn opened<R, J>(
    rt: &R,
    addresses: Addresses,
    seats: Seats<R, J>,
) -> Result<(Serving<Seats<R, J>, OpenServer<R, J>>, Turn), Failed>
where
    R: ServiceRuntime + Net<Listener = TcpListener, Stream = TcpStream>,
    J: Naming + Send + Sync + 'static,
    ensures { IfOk result (λ r. r.1 ≡ turn_of_port false (is_open r.0) true) }
{
    match addresses.doors(rt) {
        Ok((door, reading)) => Ok((Serving::Open(seats.open_both(door, reading)?), Turn::Opened)),
        Err(_) => Ok((Serving::Closed(seats), Turn::Refused)),
    }
}
