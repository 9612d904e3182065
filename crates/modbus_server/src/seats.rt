//! What clients are served with, whether a port is open or not.

use crate::outputs::Outputs;
use crate::rights::access_of;
use crate::serve::serve_session;
use crate::service::{OpenServer, Reading};
use io_image::{Naming, ReleasedReader, Stage, StageBook, Staging, Stamp};
use io_model::Counted;
use modbus_replies::Access;
use net_addresses::Clients;
use plc_host::{Failed, Host, ServiceRuntime, Traffic};
use plc_listener::{Connection, Door, Listener, OpenListener, Session, WhenFull};
use std::alloc::{AllocError, Global};
use std::sync::{Arc, Wait};
use std::time::{Clock, Duration};

/// The outputs of a controller, as its clients are shown them.
#[derive(Drop)]
pub struct Shown<R: Clock + Drop, J: Naming> {
    /// One for each client that is served at once.
    pub readers: Vec<ReleasedReader<J>>,
    /// When they were released last.
    pub stamp: Arc<Stamp<R>>,
    /// In milliseconds: those aren't shown that were released longer ago, or never; without it they always are.
    pub limit: Option<u32>,
}

/// What one client at a time is served with: where its writes go, and what it reads.
#[derive(Drop)]
pub(crate) struct Seat<R: Clock + Drop, J: Naming> {
    stage: Arc<Stage>,
    outputs: Outputs<J, Arc<Stamp<R>>>,
    traffic: Arc<Traffic>,
    /// What may be done at its port.
    port: Access,
    /// Who may only read, wherever.
    clients: Arc<Clients>,
}

impl<R: Wait + Clock + Copy + Drop, J: Naming> Session<R> for Seat<R, J> {
    fn serve(&mut self, host: &Host<R>, connection: &Connection<'_, R>) {
        self.traffic.begin_session();
        self.outputs.access = access_of(self.port, &self.clients, connection.peer());
        let _ = serve_session(
            host,
            &self.traffic,
            &mut Counted::new(connection),
            &mut Counted::new(connection),
            &mut self.stage.handle(&host.rt),
            &mut self.outputs,
        );
        self.traffic.end_session();
    }
}

/// What the seats of a port have in common.
#[derive(Drop)]
struct AtPort {
    stage: Arc<Stage>,
    traffic: Arc<Traffic>,
    port: Access,
    clients: Arc<Clients>,
}

/// A seat for each of the readers.
fn seats_of<R: Clock + Drop, J: Naming>(
    alloc: Global,
    at: &AtPort,
    shown: Shown<R, J>,
) -> Result<Vec<Seat<R, J>>, AllocError> {
    let Shown {
        readers,
        stamp,
        limit,
    } = shown;
    let mut seats = Vec::new(alloc);
    for released in readers {
        seats.push(Seat {
            stage: Arc::try_clone(&at.stage)?,
            outputs: Outputs {
                released,
                ages: Arc::try_clone(&stamp)?,
                limit,
                access: at.port,
            },
            traffic: Arc::try_clone(&at.traffic)?,
            port: at.port,
            clients: Arc::try_clone(&at.clients)?,
        })?;
    }
    Ok(seats)
}

/// The same seats, for these clients.
fn for_clients<R: Clock + Drop, J: Naming>(
    alloc: Global,
    seats: Vec<Seat<R, J>>,
    clients: &Arc<Clients>,
) -> Result<Vec<Seat<R, J>>, AllocError> {
    let mut kept = Vec::new(alloc);
    for seat in seats {
        kept.push(Seat {
            clients: Arc::try_clone(clients)?,
            ..seat
        })?;
    }
    Ok(kept)
}

/// What clients are served with, at a port that opens and closes: a seat for each that is served at once, and the
/// inputs that they stage, which stay while no port is open.
#[derive(Drop)]
pub struct Seats<R: ServiceRuntime, J: Naming> {
    pub(crate) host: Host<R>,
    pub(crate) seats: Vec<Seat<R, J>>,
    /// Those at the port for reading alone, if there is one.
    pub(crate) reading: Vec<Seat<R, J>>,
    /// Who may come to either port.
    pub(crate) clients: Arc<Clients>,
    pub(crate) stage: Arc<Stage>,
    pub(crate) traffic: Arc<Traffic>,
    /// A session ends whose client has no whole request for so long, or doesn't take its replies.
    pub(crate) idle: Duration,
}

impl<R: ServiceRuntime, J: Naming> Seats<R, J> {
    /// So many clients are served at once as there are readers of the outputs. No input is staged yet. A session ends
    /// whose client has no whole request, or doesn't take its replies, for as long as `idle`. `traffic` counts the
    /// sessions, and the requests that were answered.
    pub fn new(
        host: Host<R>,
        shown: Shown<R, J>,
        idle: Duration,
        traffic: Arc<Traffic>,
    ) -> Result<Seats<R, J>, Failed> {
        let alloc = host.alloc;
        let at = AtPort {
            stage: Arc::new(alloc, Stage::new(StageBook::new(alloc)))?,
            traffic,
            port: Access::ReadsAndWrites,
            clients: Arc::new(alloc, Clients::all())?,
        };
        let seats = seats_of(alloc, &at, shown)?;
        let AtPort {
            stage,
            traffic,
            clients,
            ..
        } = at;
        Ok(Seats {
            host,
            seats,
            reading: Vec::new(alloc),
            clients,
            stage,
            traffic,
            idle,
        })
    }

    /// The same, for these clients alone.
    pub fn for_clients(self, clients: Clients) -> Result<Seats<R, J>, AllocError> {
        let alloc = self.host.alloc;
        let clients = Arc::new(alloc, clients)?;
        Ok(Seats {
            seats: for_clients(alloc, self.seats, &clients)?,
            reading: for_clients(alloc, self.reading, &clients)?,
            clients,
            ..self
        })
    }

    /// The same, with a port for reading alone: so many clients are served there at once as there are readers here.
    pub fn with_reading_port(self, shown: Shown<R, J>) -> Result<Seats<R, J>, AllocError> {
        let at = AtPort {
            stage: Arc::try_clone(&self.stage)?,
            traffic: Arc::try_clone(&self.traffic)?,
            port: Access::ReadsAlone,
            clients: Arc::try_clone(&self.clients)?,
        };
        let reading = seats_of(self.host.alloc, &at, shown)?;
        Ok(Seats { reading, ..self })
    }

    /// The inputs that the sessions stage, for a thread of its own.
    pub fn shared_stage(&self) -> Result<Arc<Stage>, AllocError> {
        Arc::try_clone(&self.stage)
    }

    /// How many connections were given a session, and how many writes got a ticket.
    pub(crate) fn counts(&self) -> (u64, u64) {
        // Tickets are numbered from 0.
        let writes = self.stage.handle(&self.host.rt).sample().next;
        (self.traffic.sessions(), writes)
    }
}

/// Lets these clients in at a door, to these seats.
fn opened<R: ServiceRuntime, J: Naming + Send + Sync + 'static>(
    host: Host<R>,
    door: Door,
    seats: Vec<Seat<R, J>>,
    idle: Duration,
    clients: &Arc<Clients>,
) -> Result<OpenListener<R, Seat<R, J>>, Failed> {
    let listener = Listener::new(host, door, seats, idle, WhenFull::Closes)?;
    listener.for_clients(Arc::try_clone(clients)?).open()
}

/// The same at a door for reading alone, if there is one.
fn opened_for_reading<R: ServiceRuntime, J: Naming + Send + Sync + 'static>(
    host: Host<R>,
    door: Option<Door>,
    seats: Vec<Seat<R, J>>,
    idle: Duration,
    clients: &Arc<Clients>,
) -> Result<Reading<R, J>, Failed> {
    match door {
        Some(door) => Ok(Reading::Open(opened(host, door, seats, idle, clients)?)),
        None => Ok(Reading::Closed(seats)),
    }
}

impl<R: ServiceRuntime, J: Naming + Send + Sync + 'static> Seats<R, J> {
    /// Lets clients in at this door from now on.
    pub fn open(self, door: Door) -> Result<OpenServer<R, J>, Failed> {
        self.open_both(door, None)
    }

    /// Lets clients in at this door from now on, and those who only read at the other one, if there is one.
    pub fn open_both(
        self,
        door: Door,
        reading_door: Option<Door>,
    ) -> Result<OpenServer<R, J>, Failed> {
        let Seats {
            host,
            seats,
            reading,
            clients,
            stage,
            traffic,
            idle,
        } = self;
        let reading = opened_for_reading(host, reading_door, reading, idle, &clients)?;
        match opened(host, door, seats, idle, &clients) {
            Ok(listener) => Ok(OpenServer {
                host,
                listener,
                reading,
                clients,
                stage,
                traffic,
                idle,
            }),
            Err(failed) => {
                reading.close();
                Err(failed)
            }
        }
    }
}
