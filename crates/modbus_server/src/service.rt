//! The service: a port for Modbus clients, each with a session of its own.

use crate::seats::{Seat, Seats, Shown};
use io_image::{Naming, Stage};
use net_addresses::Clients;
use plc_host::{Failed, Host, ServiceRuntime, Traffic};
use plc_listener::{Door, OpenListener};
use std::alloc::AllocError;
use std::sync::Arc;
use std::time::Duration;

/// A server that lets no client in yet.
#[derive(Drop)]
pub struct Server<R: ServiceRuntime, J: Naming> {
    door: Door,
    /// Where clients only read, if there's such a door.
    reading_door: Option<Door>,
    seats: Seats<R, J>,
}

impl<R: ServiceRuntime, J: Naming + Send + Sync + 'static> Server<R, J> {
    /// So many clients at this door are served at once as there are readers of the outputs. No input is staged
    /// yet. A session ends whose client has no whole request, or doesn't take its replies, for as long as `idle`.
    /// `traffic` counts the sessions, and the requests that were answered.
    pub fn new(
        host: Host<R>,
        door: Door,
        shown: Shown<R, J>,
        idle: Duration,
        traffic: Arc<Traffic>,
    ) -> Result<Server<R, J>, Failed> {
        let seats = Seats::new(host, shown, idle, traffic)?;
        Ok(Server {
            door,
            reading_door: None,
            seats,
        })
    }

    /// The same, for these clients alone.
    pub fn for_clients(self, clients: Clients) -> Result<Server<R, J>, AllocError> {
        Ok(Server {
            seats: self.seats.for_clients(clients)?,
            door: self.door,
            reading_door: self.reading_door,
        })
    }

    /// The same, with this door for reading alone: so many clients are served there at once as there are readers here.
    pub fn with_reading_door(
        self,
        door: Door,
        shown: Shown<R, J>,
    ) -> Result<Server<R, J>, AllocError> {
        Ok(Server {
            seats: self.seats.with_reading_port(shown)?,
            door: self.door,
            reading_door: Some(door),
        })
    }

    /// Lets clients in from now on.
    pub fn open(self) -> Result<OpenServer<R, J>, Failed> {
        let Server {
            door,
            reading_door,
            seats,
        } = self;
        seats.open_both(door, reading_door)
    }
}

/// What clients who only read are served with: seats that none takes, or those at an open port.
pub(crate) enum Reading<R: ServiceRuntime, J: Naming> {
    Closed(Vec<Seat<R, J>>),
    Open(OpenListener<R, Seat<R, J>>),
}

impl<R: ServiceRuntime, J: Naming> Reading<R, J> {
    /// Ends each session, and lets none in any more.
    pub(crate) fn close(self) -> Vec<Seat<R, J>> {
        match self {
            Reading::Closed(seats) => seats,
            Reading::Open(listener) => listener.close(),
        }
    }

    /// The port's number, if it's open.
    fn port(&self) -> Option<u16> {
        match self {
            Reading::Closed(_) => None,
            Reading::Open(listener) => Some(listener.port()),
        }
    }
}

/// A server that clients are served by. It can't be let go of but by `close` or `suspend`, which join its threads.
pub struct OpenServer<R: ServiceRuntime, J: Naming> {
    pub(crate) host: Host<R>,
    pub(crate) listener: OpenListener<R, Seat<R, J>>,
    pub(crate) reading: Reading<R, J>,
    pub(crate) clients: Arc<Clients>,
    pub(crate) stage: Arc<Stage>,
    pub(crate) traffic: Arc<Traffic>,
    pub(crate) idle: Duration,
}

impl<R: ServiceRuntime, J: Naming> OpenServer<R, J> {
    /// The port's number.
    pub fn port(&self) -> u16 {
        self.listener.port()
    }

    /// The number of the port for reading alone, if there is one.
    pub fn reading_port(&self) -> Option<u16> {
        self.reading.port()
    }

    /// The inputs that the sessions stage.
    pub fn stage(&self) -> &Stage {
        &self.stage
    }

    /// The same, for a thread of its own.
    pub fn shared_stage(&self) -> Result<Arc<Stage>, AllocError> {
        Arc::try_clone(&self.stage)
    }

    /// Lets no client in any more, and ends each session and the threads. What served them may do so at another door;
    /// the staged inputs stay.
    pub fn suspend(self) -> Seats<R, J> {
        let OpenServer {
            host,
            listener,
            reading,
            clients,
            stage,
            traffic,
            idle,
        } = self;
        Seats {
            host,
            seats: listener.close(),
            reading: reading.close(),
            clients,
            stage,
            traffic,
            idle,
        }
    }

    /// Lets no client in any more, and ends each session and the threads. How many connections were given a session,
    /// and how many writes got a ticket.
    pub fn close(self) -> (u64, u64) {
        self.suspend().counts()
    }
}
