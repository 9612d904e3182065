//! A connection whose client is held to a limit of time.

use crate::wire::Guest;
use std::io;
use std::io::{ErrorKind, Read, Write};
use std::net::IpAddr;
use std::sync::atomic::{AtomicBool, AtomicU64, Ordering};
use std::time::{Clock, Duration, Instant};

/// A connection. All that comes of it between two writes has to come within its limit, and all that is written between
/// two reads has to be taken within it: so a client that sends a request piece by piece has no more time than one that
/// is silent. Its reader and its writer share the time. Once it gives way to another connection it reads nothing more.
#[derive(Drop)]
pub struct Connection<'a, R: Clock + Drop> {
    rt: R,
    guest: &'a Guest,
    limit: Duration,
    begun: Instant,
    /// In milliseconds since it began: when its client's turn, or the server's, began.
    turned: AtomicU64,
    /// Whether the last call was a write.
    is_writing: AtomicBool,
}

impl<'a, R: Clock + Drop> Connection<'a, R> {
    /// Nothing was read or written yet.
    pub(crate) fn new(rt: R, guest: &'a Guest, limit: Duration) -> io::Result<Connection<'a, R>> {
        let begun = Instant::now(&rt)?;
        Ok(Connection {
            rt,
            guest,
            limit,
            begun,
            turned: AtomicU64::new(0),
            is_writing: AtomicBool::new(false),
        })
    }

    /// Whether another connection has taken its place.
    pub fn has_given_way(&self) -> bool {
        self.guest.gives_way.load(Ordering::SeqCst)
    }

    /// The address that its client comes from: none at a socket of this machine, or once the client is gone.
    pub fn peer(&self) -> Option<IpAddr> {
        self.guest.wire.peer()
    }

    /// Who has it, for a thread that may have it give way.
    pub fn guest(&self) -> io::Result<Guest> {
        self.guest.again()
    }

    /// How much of the limit is left for this call. The time begins anew where the last call was of the other kind.
    fn left(&self, is_write: bool) -> io::Result<Duration> {
        let lasted = Instant::now(&self.rt)?.saturating_duration_since(self.begun);
        if self.is_writing.swap(is_write, Ordering::SeqCst) != is_write {
            self.turned.store(whole_millis(lasted), Ordering::SeqCst);
        }
        let turned = Duration::from_millis(self.turned.load(Ordering::SeqCst));
        let left = self.limit.saturating_sub(lasted.saturating_sub(turned));
        if left.is_zero() {
            return Err(io::Error::from(ErrorKind::TimedOut));
        }
        Ok(left)
    }
}

/// So many milliseconds, or the greatest number.
fn whole_millis(time: Duration) -> u64 {
    u64::try_from(time.as_millis()).unwrap_or(u64::MAX)
}

impl<R: Clock + Drop> Read for &Connection<'_, R> {
    fn read(&mut self, buf: &mut [u8]) -> io::Result<usize> {
        if self.has_given_way() {
            return Ok(0);
        }
        let left = self.left(false)?;
        self.guest.wire.limit_reads(left)?;
        self.guest.wire.read(buf)
    }
}

impl<R: Clock + Drop> Write for &Connection<'_, R> {
    fn write(&mut self, buf: &[u8]) -> io::Result<usize> {
        let left = self.left(true)?;
        self.guest.wire.limit_writes(left)?;
        self.guest.wire.write(buf)
    }

    fn flush(&mut self) -> io::Result<()> {
        Ok(())
    }
}
