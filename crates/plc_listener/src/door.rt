//! Where connections come in.

use crate::wire::Wire;
use plc_host::{Host, ServiceRuntime};
use std::alloc::{AllocError, Global};
use std::fs::{DirBuilder, Permissions};
use std::io::ErrorKind;
use std::net::{Net, Shutdown, SocketAddr, TcpListener, TcpStream};
use std::os::fd::OwnedFd;
use std::os::unix::fs::{DirBuilderExt, FileTypeExt, PermissionsExt};
use std::os::unix::net::{UnixListener, UnixStream};
use std::rt::Files;
use std::sync::atomic::{AtomicBool, Ordering};
use std::sync::{Mutex, Wait};
use std::time::{Clock, Duration};
use std::{fs, io, thread};

/// In milliseconds, after a connection that could not be taken, as where no file descriptor is left.
const PAUSE: u64 = 10;

/// In seconds: the longest pause between two tries to have what is wanted.
const LONGEST_PAUSE: u64 = 60;

/// In milliseconds: within a pause it's looked so often whether the door was shut.
const LOOK: u64 = 50;

/// So many looks are a second.
const LOOKS: u64 = 20;

/// A runtime by which any thread may have doors. A thread isn't lent a runtime's files, so what makes a socket at a path
/// is here by itself.
pub trait DoorRuntime: ServiceRuntime + Net<Listener = TcpListener, Stream = TcpStream> {
    /// A socket at this path, as `Door::at_path` says.
    fn own_socket(&self, alloc: Global, path: &str) -> io::Result<UnixListener>;
}

impl<R: ServiceRuntime + Net<Listener = TcpListener, Stream = TcpStream> + Files> DoorRuntime
    for R {
    fn own_socket(&self, alloc: Global, path: &str) -> io::Result<UnixListener> {
        own_socket(self, alloc, path)
    }
}

/// What connections wait at until they are taken.
#[derive(Drop)]
pub(crate) enum Bound {
    Port(TcpListener),
    Socket(UnixListener),
}

impl Bound {
    /// The next connection.
    fn accept(&self) -> io::Result<Wire> {
        match self {
            Bound::Port(listener) => Ok(Wire::Tcp(listener.accept()?.0)),
            Bound::Socket(listener) => Ok(Wire::Unix(listener.accept()?.0)),
        }
    }

    /// Its socket, as what can be shut down.
    fn socket(&self) -> io::Result<TcpStream> {
        let socket = match self {
            Bound::Port(listener) => OwnedFd::from(listener.try_clone()?),
            Bound::Socket(listener) => OwnedFd::from(listener.try_clone()?),
        };
        Ok(TcpStream::from(socket))
    }

    /// The port's number; 0 where it has none.
    fn port(&self) -> io::Result<u16> {
        match self {
            Bound::Port(listener) => Ok(listener.local_addr()?.port()),
            Bound::Socket(_) => Ok(0),
        }
    }
}

/// Where connections are to come in.
#[derive(Drop)]
enum Wanted {
    /// At this address of this machine.
    Address(SocketAddr),
    /// At a socket of this path.
    Path(String),
}

impl Wanted {
    /// What connections wait at there, if it's to be had now.
    fn bound<R: DoorRuntime>(&self, host: &Host<R>) -> io::Result<Bound> {
        let Host { rt, alloc } = host;
        match self {
            Wanted::Address(address) => Ok(Bound::Port(TcpListener::bind(rt, *address)?)),
            Wanted::Path(path) => Ok(Bound::Socket(rt.own_socket(*alloc, path.as_str())?)),
        }
    }
}

/// A port of this machine, or a socket at a path, at which connections come in; another thread can end its accept.
#[derive(Drop)]
pub struct Door {
    /// None where it wasn't had from the start.
    bound: Option<Bound>,
    /// What is wanted then.
    wanted: Option<Wanted>,
    /// The socket of what is bound, as what can be shut down.
    socket: Mutex<Option<TcpStream>>,
    is_shut: AtomicBool,
}

impl Door {
    /// Connections to this port of 127.0.0.1 are kept from now on, until they are taken. Port 0 is any that is free.
    pub fn open<R: Net<Listener = TcpListener, Stream = TcpStream>>(
        rt: &R,
        port: u16,
    ) -> io::Result<Door> {
        Door::at(rt, SocketAddr::from(([127, 0, 0, 1], port)))
    }

    /// Connections to this address are kept from now on, until they are taken. Port 0 is any that is free.
    pub fn at<R: Net<Listener = TcpListener, Stream = TcpStream>>(
        rt: &R,
        address: SocketAddr,
    ) -> io::Result<Door> {
        Door::of(Bound::Port(TcpListener::bind(rt, address)?))
    }

    /// Connections to a socket at this path are kept from now on, which its owner alone can reach: it's made in a
    /// directory of mode 0700, gets mode 0600, and is then moved to its path. A socket that was left there, and at which
    /// nobody listens any more, gives way to it. The path has 1 to 100 bytes. Refused with `AddrInUse` where somebody
    /// listens there, and with `AlreadyExists` where there's something else than a socket.
    pub fn at_path<R: Files + Net>(rt: &R, alloc: Global, path: &str) -> io::Result<Door> {
        Door::of(Bound::Socket(own_socket(rt, alloc, path)?))
    }

    /// Connections to this address are kept from now on, if it's free. If it isn't, it's had later: a listener tries it
    /// again until it's free (`Listener::open_when_free`).
    pub fn wanted<R: DoorRuntime>(host: &Host<R>, address: SocketAddr) -> Door {
        Door::now_or_later(host, Wanted::Address(address))
    }

    /// The same at a socket of this path, if it can be made now, and else once it can be.
    pub fn wanted_at_path<R: DoorRuntime>(host: &Host<R>, path: &str) -> Result<Door, AllocError> {
        let path = String::from_str(host.alloc, path)?;
        Ok(Door::now_or_later(host, Wanted::Path(path)))
    }

    /// Of what is wanted, now or later.
    fn now_or_later<R: DoorRuntime>(host: &Host<R>, wanted: Wanted) -> Door {
        if let Ok(door) = Door::now(host, &wanted) {
            return door;
        }
        Door {
            bound: None,
            wanted: Some(wanted),
            socket: Mutex::new(None),
            is_shut: AtomicBool::new(false),
        }
    }

    /// Of what is wanted, if it's to be had now.
    fn now<R: DoorRuntime>(host: &Host<R>, wanted: &Wanted) -> io::Result<Door> {
        Door::of(wanted.bound(host)?)
    }

    /// Of what is bound.
    fn of(bound: Bound) -> io::Result<Door> {
        let socket = bound.socket()?;
        Ok(Door {
            bound: Some(bound),
            wanted: None,
            socket: Mutex::new(Some(socket)),
            is_shut: AtomicBool::new(false),
        })
    }

    /// The port's number: that which is wanted, where it isn't had yet, and 0 at a path.
    pub fn port(&self) -> io::Result<u16> {
        match (&self.bound, &self.wanted) {
            (Some(bound), _) => bound.port(),
            (None, Some(Wanted::Address(address))) => Ok(address.port()),
            (None, _) => Ok(0),
        }
    }

    /// Whether it's a socket at a path, which has no port.
    pub fn is_at_path(&self) -> bool {
        match (&self.bound, &self.wanted) {
            (Some(Bound::Socket(_)), _) | (None, Some(Wanted::Path(_))) => true,
            _ => false,
        }
    }

    /// What is bound from the start.
    pub(crate) fn bound(&self) -> Option<&Bound> {
        self.bound.as_ref()
    }

    /// What connections wait at that is wanted, if it's to be had now.
    pub(crate) fn bind<R: DoorRuntime>(&self, host: &Host<R>) -> Option<Bound> {
        let bound = self.wanted.as_ref()?.bound(host).ok()?;
        let socket = bound.socket().ok()?;
        *self.socket.lock(&host.rt) = Some(socket);
        Some(bound)
    }

    /// The same as soon as it's to be had, or nothing once the door is shut. It's tried after one second, then after
    /// two more, then after four, and so on up to each minute.
    pub(crate) fn bind_when_free<R: DoorRuntime>(&self, host: &Host<R>) -> Option<Bound> {
        let mut pause = 1;
        for _ in 0..u64::MAX {
            if !self.pause(&host.rt, pause) {
                return None;
            }
            let bound = self.bind(host);
            if bound.is_some() {
                return bound;
            }
            pause = LONGEST_PAUSE.min(pause.saturating_mul(2));
        }
        None
    }

    /// Pauses for so many seconds, 60 at most: whether the door is still not shut.
    fn pause<R: Clock>(&self, rt: &R, seconds: u64) -> bool {
        for _ in 0..LOOKS * seconds.min(LONGEST_PAUSE) {
            if self.is_shut.load(Ordering::SeqCst) {
                return false;
            }
            thread::sleep(rt, Duration::from_millis(LOOK));
        }
        true
    }

    /// The next connection, or none once the door is shut.
    pub(crate) fn next<R: Clock>(&self, rt: &R, bound: &Bound) -> Option<Wire> {
        for _ in 0..u64::MAX {
            if self.is_shut.load(Ordering::SeqCst) {
                return None;
            }
            let taken = bound.accept();
            if self.is_shut.load(Ordering::SeqCst) {
                return None;
            }
            match taken {
                Ok(wire) => return Some(wire),
                Err(_) => thread::sleep(rt, Duration::from_millis(PAUSE)),
            }
        }
        None
    }

    /// Ends an accept that is under way, and each later one: Linux ends those of a listener that is shut down.
    pub(crate) fn shut<R: Wait>(&self, rt: &R) {
        self.is_shut.store(true, Ordering::SeqCst);
        if let Some(socket) = &*self.socket.lock(rt) {
            let _ = socket.shutdown(Shutdown::Both);
        }
    }
}

/// Whether somebody listens at a socket of this path. A fault where there's something else, or it can't be told.
fn is_served<R: Files + Net>(rt: &R, path: &str) -> io::Result<bool> {
    match fs::symlink_metadata(rt, path) {
        Ok(there) if there.file_type().is_socket() => {}
        Ok(_) => return Err(io::Error::from(ErrorKind::AlreadyExists)),
        Err(error) if error.kind() == ErrorKind::NotFound => return Ok(false),
        Err(error) => return Err(error),
    }
    match UnixStream::connect(rt, path) {
        Ok(_) => Ok(true),
        Err(error) if error.kind() == ErrorKind::ConnectionRefused => Ok(false),
        Err(error) => Err(error),
    }
}

/// A socket at this path, as `Door::at_path` says.
fn own_socket<R: Files + Net>(rt: &R, alloc: Global, path: &str) -> io::Result<UnixListener> {
    if is_served(rt, path)? {
        return Err(io::Error::from(ErrorKind::AddrInUse));
    }
    let directory = format!(in alloc; "{path}.new")?;
    let place = format!(in alloc; "{path}.new/s")?;
    let _ = fs::remove_file(rt, place.as_str());
    let _ = fs::remove_dir(rt, directory.as_str());
    DirBuilder::new()
        .mode(0o700)
        .create(rt, directory.as_str())?;
    let made = moved_socket(rt, place.as_str(), path);
    let _ = fs::remove_dir(rt, directory.as_str());
    made
}

/// A socket that is made at this place, and moved to its path once its owner alone can reach it.
fn moved_socket<R: Files + Net>(rt: &R, place: &str, path: &str) -> io::Result<UnixListener> {
    let listener = UnixListener::bind(rt, place)?;
    fs::set_permissions(rt, place, Permissions::from_mode(0o600))?;
    fs::rename(rt, place, path)?;
    Ok(listener)
}
