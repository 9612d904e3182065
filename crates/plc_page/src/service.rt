//! The service: a port for browsers and whatever else asks, each connection with a session of its own.

ghost use Rattle.std.specs.Prelude.{◌≡◌, IfOk, IfSome};
ghost use Rattle.il_model.specs.Snapshots.{SavedController};
ghost use Rattle.plc_page.specs.Answers.{AreSeen};
ghost use Rattle.plc_page.specs.Sources.{IsLimited};
ghost use Rattle.plc_values.specs.Seen.{IsToldOf};
ghost use Rattle.plc_values.specs.Values.{values_text};

use crate::answer::{Show, Site, Verdict, respond, verdict_of};
use crate::source::{Source, Taken};
use bytes::Bytes;
use http::Request;
use http_server::{Config, Response, Service, serve};
use http1::Limits;
use il_model::Snapshot;
use io_image::Naming;
use plc_host::{Failed, Host, ServiceRuntime};
use plc_listener::{Connection, Door, DoorRuntime, Listener, OpenListener, Session, WhenFull};
use plc_sight::SnapshotBoard;
use plc_status::{DoorNotice, Doorway, Journal, Notice};
use plc_values::values;
use std::alloc::{AllocError, Global};
use std::hash::RandomState;
use std::sync::{Arc, Mutex, Wait};
use std::time::{Clock, Duration};

/// So many connections are served at once.
const SESSIONS: usize = 16;

/// In seconds: a connection is closed that has no whole request, or doesn't take its answer, for so long.
const IDLE: u64 = 30;

/// The head of a request has at most so many bytes. None has a body.
const LONGEST_HEAD: usize = 8192;

/// While more bytes than this wait to be sent, no request is read.
const MOST_PENDING: usize = 65536;

/// So often a snapshot of the controller is looked for, each 5 ms, where its values are asked for.
const TRIES: u32 = 400;

/// The limits of a connection.
pub fn limits() -> Config
    ensures { IsLimited result }
{
    Config {
        limits: Limits {
            max_head_len: LONGEST_HEAD,
            max_extensions_len: LONGEST_HEAD,
            max_trailers_len: LONGEST_HEAD,
        },
        max_body_len: 0,
        max_pending: MOST_PENDING,
        read_size: LONGEST_HEAD,
    }
}

/// What one connection at a time is served with.
#[derive(Drop)]
struct Seat<J: Naming> {
    site: Arc<Site>,
    program: Arc<Vec<u8>>,
    source: Arc<Mutex<Source<J>>>,
    /// Where a replica leaves what it has for those who want to see it.
    sight: Arc<SnapshotBoard>,
    keys: RandomState,
    /// What notes whether the page's port is had, at one of the seats.
    doorkeeper: Option<Doorkeeper>,
}

/// What notes whether the page's port is had.
#[derive(Drop)]
struct Doorkeeper {
    port: u16,
    journal: Journal,
}

impl Doorkeeper {
    /// Notes it.
    fn note(&mut self, is_had: bool) {
        let doorway = Doorway::PagePort(self.port);
        self.journal
            .put(Notice::Door(DoorNotice { doorway, is_had }));
    }
}

impl<J: Naming> Seat<J> {
    /// One more like this, which notes nothing.
    fn another(&self) -> Result<Seat<J>, AllocError> {
        Ok(Seat {
            site: Arc::try_clone(&self.site)?,
            program: Arc::try_clone(&self.program)?,
            source: Arc::try_clone(&self.source)?,
            sight: Arc::try_clone(&self.sight)?,
            keys: self.keys,
            doorkeeper: None,
        })
    }
}

/// As many seats like this as connections are served at once. It is the last one, and the first one has the doorkeeper.
fn seats<J: Naming>(
    alloc: Global,
    last: Seat<J>,
    doorkeeper: Doorkeeper,
) -> Result<Vec<Seat<J>>, AllocError> {
    let mut seats = Vec::with_capacity(alloc, SESSIONS)?;
    seats.push(Seat {
        doorkeeper: Some(doorkeeper),
        ..last.another()?
    })?;
    for _ in 2..SESSIONS {
        seats.push(last.another()?)?;
    }
    seats.push(last)?;
    Ok(seats)
}

/// What is shown to whoever comes.
#[derive(Drop)]
pub(crate) struct Content<J: Naming> {
    pub(crate) site: Site,
    /// The text of the program that was served at first.
    pub(crate) program: Vec<u8>,
    pub(crate) source: Source<J>,
    /// Of the tables of the fields of requests.
    pub(crate) keys: RandomState,
}

/// What answers the requests of a connection.
#[derive(Drop)]
struct Answering<'a, R: Copy, J: Naming> {
    host: &'a Host<R>,
    site: &'a Site,
    /// The text of the program that was served at first.
    program: &'a [u8],
    source: &'a Mutex<Source<J>>,
    sight: &'a SnapshotBoard,
}

/// All that a controller has, by a snapshot of it, if there is one.
fn told(alloc: Global, snapshot: Option<Snapshot>) -> Option<Vec<u8>>
    ensures { IfSome result (λ v. (s : SavedController) × IsToldOf s values_text v.items) }
{
    values(alloc, snapshot?)
}

/// The same: null where there's none.
fn told_or_null(alloc: Global, snapshot: Option<Snapshot>) -> Result<Vec<u8>, AllocError>
    ensures { IfOk result (λ v. AreSeen v.items) }
{
    match told(alloc, snapshot) {
        Some(text) => Ok(text),
        None => Vec::from_slice(alloc, b"null\n"),
    }
}

impl<R: Wait + Clock + Copy, J: Naming> Answering<'_, R, J> {
    /// All that the controller has, where this asks for it.
    fn seen(&self, request: &Request<Bytes>) -> Result<Vec<u8>, AllocError>
        ensures { IfOk result (λ v. AreSeen v.items) }
    {
        let Host { rt, alloc } = self.host;
        match verdict_of(self.site, request) {
            Verdict::Shows(Show::Values) => told_or_null(*alloc, self.sight.get(rt, TRIES)),
            _ => Ok(Vec::new(*alloc)),
        }
    }
}

impl<R: Wait + Clock + Copy, J: Naming> Service for Answering<'_, R, J> {
    ghost use Rattle.std.specs.Prelude.{◌≡◌, ℕ, List};
    ghost use Rattle.http.specs.Request.{head_of};
    ghost use Rattle.plc_figures.specs.declared.reading.Reading.{Reading};
    ghost use Rattle.plc_page.specs.Answers.{AreSeen, IsAnswered};

    ghost answers = { λ old request response new. (new.site ≡ old.site)
        × ((reading : Reading) × (program : List ℕ) × (seen : List ℕ) × AreSeen seen
        × IsAnswered old.site.now (head_of request) reading program seen response) };

    fn call(
        &mut self,
        request: &Request<Bytes>,
        response: &mut Response,
    ) -> Result<(), AllocError> {
        let seen = self.seen(request)?;
        let Taken {
            reading,
            is_in_force,
        } = self.source.lock(&self.host.rt).read(self.host)?;
        let program = if is_in_force { self.program } else { &[] };
        let alloc = self.host.alloc;
        let seen = seen.as_slice();
        respond(alloc, self.site, request, &reading, program, seen, response)?;
        Ok(())
    }
}

impl<R: Wait + Clock + Copy + Drop, J: Naming> Session<R> for Seat<J> {
    fn serve(&mut self, host: &Host<R>, connection: &Connection<'_, R>) {
        let mut answering = Answering {
            host,
            site: &self.site,
            program: self.program.as_slice(),
            source: &self.source,
            sight: &self.sight,
        };
        let (mut reader, mut writer) = (connection, connection);
        let mut served = http_server::Connection::new(host.alloc, self.keys, limits());
        let _ = serve(&mut served, &mut answering, &mut reader, &mut writer);
    }

    fn hear_of_door(&mut self, is_had: bool) {
        if let Some(doorkeeper) = &mut self.doorkeeper {
            doorkeeper.note(is_had);
        }
    }
}

/// A page that nobody is shown yet.
#[derive(Drop)]
pub struct Page<R: ServiceRuntime, J: Naming> {
    listener: Listener<R, Seat<J>>,
}

impl<R: ServiceRuntime, J: Naming + Send + Sync + 'static> Page<R, J> {
    /// So many connections at this door are served at once as there are seats, each closed after 30 s without a
    /// request. Whether its port is had is noted in this journal, where it isn't at once.
    pub(crate) fn of(
        host: Host<R>,
        door: Door,
        content: Content<J>,
        journal: Journal,
    ) -> Result<Page<R, J>, Failed> {
        let Content {
            site,
            program,
            source,
            keys,
        } = content;
        let sight = Arc::try_clone(&source.sight)?;
        let last = Seat {
            site: Arc::new(host.alloc, site)?,
            program: Arc::new(host.alloc, program)?,
            source: Arc::new(host.alloc, Mutex::new(source))?,
            sight,
            keys,
            doorkeeper: None,
        };
        let port = door.port()?;
        let seats = seats(host.alloc, last, Doorkeeper { port, journal })?;
        let idle = Duration::from_secs(IDLE);
        Ok(Page {
            listener: Listener::new(host, door, seats, idle, WhenFull::Closes)?,
        })
    }
}

impl<R: DoorRuntime, J: Naming + Send + Sync + 'static> Page<R, J> {
    /// Shows it as soon as its port is had; that it isn't at once is noted, and then that it is.
    pub fn open(self) -> Result<OpenPage<R, J>, Failed> {
        Ok(OpenPage {
            listener: self.listener.open_when_free()?,
        })
    }
}

/// A page that is shown. It can't be let go of but by `close`, which joins its threads.
pub struct OpenPage<R: ServiceRuntime, J: Naming> {
    listener: OpenListener<R, Seat<J>>,
}

impl<R: ServiceRuntime, J: Naming> OpenPage<R, J> {
    /// The port, of 127.0.0.1.
    pub fn port(&self) -> u16 {
        self.listener.port()
    }

    /// Shows it no more, and ends each connection and the threads.
    pub fn close(self) {
        let OpenPage { listener } = self;
        listener.close();
    }
}
