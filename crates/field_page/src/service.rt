//! The service: a port for browsers and whatever else asks, each connection with a session of its own.

use crate::answer::respond;
use crate::reading::{Reading, reading_of};
use crate::site::FieldSite;
use bytes::Bytes;
use field_cycle::Cycle;
use http::Request;
use http_server::{Response, Service, serve};
use plc_host::{Failed, Host, ServiceRuntime};
use plc_listener::{Connection, Door, Listener, OpenListener, Session, WhenFull};
use plc_page::{Notices, Site, limits};
use std::alloc::{AllocError, Global};
use std::hash::RandomState;
use std::net::{Net, SocketAddr, TcpListener, TcpStream};
use std::sync::{Arc, Mutex, Wait};
use std::time::{Clock, Duration};

/// So many connections are served at once.
const SESSIONS: usize = 16;

/// In seconds: a connection is closed that has no whole request, or doesn't take its answer, for so long.
const IDLE: u64 = 30;

/// Where a page is, and what it shows beside the field.
#[derive(Drop)]
pub struct PageAt {
    pub address: SocketAddr,
    /// Of the program that serves it.
    pub version: &'static str,
    /// The lines that were told.
    pub notices: Arc<Notices>,
    /// Of the tables of the fields of requests.
    pub keys: RandomState,
}

/// What one connection at a time is served with.
#[derive(Drop)]
struct Seat<R: Copy + Drop> {
    host: Host<R>,
    site: Arc<FieldSite>,
    reading: Arc<Mutex<Reading>>,
    notices: Arc<Notices>,
    keys: RandomState,
}

impl<R: Copy + Drop> Seat<R> {
    /// One more like this.
    fn another(&self) -> Result<Seat<R>, AllocError> {
        Ok(Seat {
            host: self.host,
            site: Arc::try_clone(&self.site)?,
            reading: Arc::try_clone(&self.reading)?,
            notices: Arc::try_clone(&self.notices)?,
            keys: self.keys,
        })
    }
}

/// As many seats like this as connections are served at once.
fn seats<R: Copy + Drop>(alloc: Global, first: Seat<R>) -> Result<Vec<Seat<R>>, AllocError> {
    let mut seats = Vec::with_capacity(alloc, SESSIONS)?;
    for _ in 1..SESSIONS {
        seats.push(first.another()?)?;
    }
    seats.push(first)?;
    Ok(seats)
}

/// What answers the requests of a connection.
#[derive(Drop)]
struct Answering<'a, R: Copy> {
    host: &'a Host<R>,
    site: &'a FieldSite,
    reading: &'a Mutex<Reading>,
    notices: &'a Notices,
}

impl<R: Wait + Clock + Copy> Service for Answering<'_, R> {
    ghost use Rattle.std.specs.Prelude.{◌≡◌, List};
    ghost use Rattle.http.specs.Request.{head_of};
    ghost use Rattle.plc_figures.specs.declared.reading.Told.{Told};
    ghost use Rattle.field_page.specs.Answers.{IsAnswered};
    ghost use Rattle.field_page.specs.declared.reading.Reading.{Reading};

    ghost answers = { λ old request response new. (new.site ≡ old.site)
        × ((reading : Reading) × (told : List Told)
        × IsAnswered old.site.now (head_of request) reading told response) };

    fn call(
        &mut self,
        request: &Request<Bytes>,
        response: &mut Response,
    ) -> Result<(), AllocError> {
        let Host { rt, alloc } = *self.host;
        let told = self.notices.last(&rt)?;
        let reading = self.reading.lock(&rt);
        respond(
            alloc,
            self.site,
            request,
            &reading,
            told.as_slice(),
            response,
        )?;
        Ok(())
    }
}

impl<R: Wait + Clock + Copy + Drop> Session<R> for Seat<R> {
    fn serve(&mut self, host: &Host<R>, connection: &Connection<'_, R>) {
        let mut answering = Answering {
            host: &self.host,
            site: &self.site,
            reading: &self.reading,
            notices: &self.notices,
        };
        let (mut reader, mut writer) = (connection, connection);
        let mut served = http_server::Connection::new(host.alloc, self.keys, limits());
        let _ = serve(&mut served, &mut answering, &mut reader, &mut writer);
    }
}

/// A page of a field that nobody is shown yet.
#[derive(Drop)]
pub struct FieldPage<R: ServiceRuntime> {
    listener: Listener<R, Seat<R>>,
    reading: Arc<Mutex<Reading>>,
}

/// The door at an address, if its port is to be had.
fn door_at<R: Net<Listener = TcpListener, Stream = TcpStream>>(
    rt: &R,
    address: SocketAddr,
) -> Result<Door, Failed> {
    match Door::at(rt, address) {
        Ok(door) => Ok(door),
        Err(error) => Err(Failed::from(error).known_as(Failed::Port(address.port()))),
    }
}

impl<R: ServiceRuntime + Net<Listener = TcpListener, Stream = TcpStream>> FieldPage<R> {
    /// The page of a field, whose port is had from now on: what goes where, a line each, and what its cycle has now.
    pub fn new(
        host: Host<R>,
        at: PageAt,
        table: Vec<u8>,
        cycle: &Cycle,
    ) -> Result<FieldPage<R>, Failed> {
        let PageAt {
            address,
            version,
            notices,
            keys,
        } = at;
        let alloc = host.alloc;
        let door = door_at(&host.rt, address)?;
        let site = FieldSite {
            hosts: Site::at(alloc, address, version)?.hosts,
            version: Vec::from_slice(alloc, version.as_bytes())?,
            table,
        };
        let reading = Arc::new(alloc, Mutex::new(reading_of(alloc, cycle)?))?;
        let first = Seat {
            host,
            site: Arc::new(alloc, site)?,
            reading: Arc::try_clone(&reading)?,
            notices,
            keys,
        };
        let idle = Duration::from_secs(IDLE);
        let seats = seats(alloc, first)?;
        Ok(FieldPage {
            listener: Listener::new(host, door, seats, idle, WhenFull::Closes)?,
            reading,
        })
    }
}

impl<R: ServiceRuntime> FieldPage<R> {
    /// Shows it from now on.
    pub fn open(self) -> Result<OpenFieldPage<R>, Failed> {
        Ok(OpenFieldPage {
            listener: self.listener.open()?,
            reading: self.reading,
        })
    }
}

/// A page of a field that is shown. It can't be let go of but by `close`, which joins its threads.
pub struct OpenFieldPage<R: ServiceRuntime> {
    listener: OpenListener<R, Seat<R>>,
    reading: Arc<Mutex<Reading>>,
}

impl<R: ServiceRuntime> OpenFieldPage<R> {
    /// What the cycle has now is shown, unless what is shown is being read just now, or memory is wanting: then what
    /// was shown before is, until the next call. It never waits.
    pub fn show(&self, host: &Host<R>, cycle: &Cycle) {
        let Ok(reading) = reading_of(host.alloc, cycle) else {
            return;
        };
        if let Some(mut shown) = self.reading.try_lock() {
            *shown = reading;
        }
    }

    /// Shows it no more, and ends each connection and the threads.
    pub fn close(self) {
        let OpenFieldPage {
            listener,
            reading: _reading,
        } = self;
        listener.close();
    }
}
