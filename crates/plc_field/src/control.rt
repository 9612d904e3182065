//! The socket by which a running field is asked to stop.

use crate::run::FieldError;
use mio::net::{UnixListener, UnixStream};
use mio::{Interest, Registry, Token};
use std::fs::Files;
use std::io::{ErrorKind, Read, Write};
use std::net::Net;
use std::{fs, io};

/// What is said to a running field.
pub(crate) const STOP: &[u8] = b"stop\n";

/// What it answers once it has stopped.
pub(crate) const STOPPED: &[u8] = b"stopped\n";

/// A file's socket, and who asked last.
#[derive(Drop)]
pub(crate) struct Control {
    listener: UnixListener,
    asker: Option<UnixStream>,
    /// The token of whoever asks.
    token: Token,
}

/// Opens the socket at a path. One that nobody serves any more is replaced.
pub(crate) fn bind<R: Files + Net>(rt: &R, path: &str) -> Result<UnixListener, FieldError> {
    if let Ok(listener) = UnixListener::bind(rt, path) {
        return Ok(listener);
    }
    if UnixStream::connect(rt, path).is_ok() {
        return Err(FieldError::Taken);
    }
    let _ = fs::remove_file(rt, path);
    match UnixListener::bind(rt, path) {
        Ok(listener) => Ok(listener),
        Err(_) => Err(FieldError::Control),
    }
}

/// Whether `stop` was said.
fn says_stop<R: Read>(reader: &mut R) -> io::Result<bool> {
    let mut piece = [0; 64];
    let count = reader.read(&mut piece)?;
    Ok(piece[..count].starts_with(STOP))
}

impl Control {
    /// By this socket. Two tokens from `first` on are its.
    pub(crate) fn open(
        mut listener: UnixListener,
        registry: &Registry,
        first: usize,
    ) -> Result<Control, FieldError> {
        if registry
            .register(&mut listener, Token(first), Interest::READABLE)
            .is_err()
        {
            return Err(FieldError::Control);
        }
        Ok(Control {
            listener,
            asker: None,
            token: Token(first.saturating_add(1)),
        })
    }

    /// Takes who wants to ask; the one before is let go.
    pub(crate) fn accept(&mut self, registry: &Registry) {
        for _ in 0..u64::MAX {
            let Ok((mut stream, _)) = self.listener.accept() else {
                return;
            };
            let registered = registry.register(&mut stream, self.token, Interest::READABLE);
            self.asker = match registered {
                Ok(()) => Some(stream),
                Err(_) => None,
            };
        }
    }

    /// Whether it's asked to stop. Who says something else is let go.
    pub(crate) fn is_asked(&mut self) -> bool {
        let Some(asker) = &mut self.asker else {
            return false;
        };
        match says_stop(asker) {
            Ok(true) => true,
            Err(error) if error.kind() == ErrorKind::WouldBlock => false,
            _ => {
                self.asker = None;
                false
            }
        }
    }

    /// Tells who asked that it has stopped.
    pub(crate) fn answer(&mut self) {
        if let Some(asker) = &mut self.asker {
            // Who doesn't listen misses it.
            let _ = asker.write(STOPPED);
        }
    }
}
