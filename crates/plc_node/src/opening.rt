//! What takes connections: the sessions of Modbus clients, and an operator's console if one is asked for.

ghost use Rattle.std.specs.Prelude.{◌≡◌, [], IfOk, Some};
ghost use Rattle.plc_status.specs.Journal.{IsJournalOf};
ghost use Rattle.plc_status.specs.Notices.{IsServingTold};

use crate::showing::{ToShow, close_page, opened_page};
use il_loader::Image;
use io_image::{
    MarkingPen, Naming, NewList, Pen, ReleasedReader, ReleasedWriter, SharedPen, Stage, Stamp,
    released,
};
use io_model::CountedWrite;
use modbus_server::{OpenServer, Server, Shown};
use plc_console::{Console, Desk, DeskClient, Entrance, OpenConsole};
use plc_driver::{Directory, Driver, Ended};
use plc_host::{Failed, Host, ServiceRuntime, Traffic};
use plc_listener::{Door, DoorRuntime};
use plc_page::{OpenPage, Page, Showing};
use plc_settings::{ConsoleAt, ModbusClients, Operators, Settings};
use plc_sight::SnapshotBoard;
use plc_status::{Counts, Journal, Printer, StatusReader, StatusWriter, tell_port};
use std::alloc::{AllocError, Global};
use std::net::{Net, SocketAddr, TcpListener, TcpStream};
use std::rt::Files;
use std::sync::Arc;
use std::sync::atomic::AtomicBool;
use std::time::{Duration, Instant};
use vr_model::ClientNumber;
use vr_ports::Relink;

/// So many sessions are served at once.
const SESSIONS: usize = 16;

/// The console's number among the clients of the group. The stores are new, so it never started before.
const CONSOLE: DeskClient = DeskClient {
    number: ClientNumber { number: 1 },
    starts: 0,
};

/// What is kept of clients and of an operator: what counts their requests, where commands are noted, and what shows of
/// the controller.
#[derive(Drop)]
pub(crate) struct Kept {
    pub(crate) traffic: Arc<Traffic>,
    pub(crate) console: Journal,
    pub(crate) status: StatusReader,
    pub(crate) shown: ToShow,
    pub(crate) operators: Operators,
    pub(crate) clients: ModbusClients,
    /// Where a replica leaves snapshots of the controller for those who want one.
    pub(crate) sight: Arc<SnapshotBoard>,
}

/// Where it's noted what an operator does at the console, and what becomes of the page.
#[derive(Drop)]
pub(crate) struct Notes {
    pub(crate) console: Journal,
    pub(crate) page: Journal,
}

impl Kept {
    /// What is kept of a controller that began then, by what shows of it, and where a replica is to leave snapshots of
    /// it. It fails only where memory runs out.
    pub(crate) fn of(
        alloc: Global,
        status: &StatusWriter,
        notes: Notes,
        showing: Option<Showing>,
        begun: Instant,
    ) -> Result<(Kept, Arc<SnapshotBoard>), AllocError> {
        let Notes { console, page } = notes;
        let sight = Arc::new(alloc, SnapshotBoard::new())?;
        let shown = ToShow {
            status: status.reader()?,
            begun,
            has_changed: Arc::new(alloc, AtomicBool::new(false))?,
            journal: page,
            showing,
            sight: Arc::try_clone(&sight)?,
        };
        let kept = Kept {
            traffic: status.traffic()?,
            console,
            status: status.reader()?,
            shown,
            operators: Operators::by_port(),
            clients: ModbusClients::all(),
            sight: Arc::try_clone(&sight)?,
        };
        Ok((kept, sight))
    }

    /// The same, with operators who come so, and these Modbus clients.
    pub(crate) fn with(self, operators: Operators, clients: ModbusClients) -> Kept {
        Kept {
            operators,
            clients,
            ..self
        }
    }
}

/// What outputs are released to: it marks when.
pub(crate) type Releases<J, R> = ReleasedWriter<J, MarkingPen<SharedPen<J, R>, R>>;

/// What takes no connection yet.
#[derive(Drop)]
pub(crate) struct Ready<R: ServiceRuntime, L: Relink + Drop, J: Naming> {
    server: Server<R, J>,
    console: Option<Console<R, L>>,
    page: Option<Page<R, J>>,
}

/// What takes connections. It can't be let go of but by `close`, which joins its threads.
pub(crate) struct Open<R: ServiceRuntime, L: Relink + Drop, J: Naming> {
    server: OpenServer<R, J>,
    console: Option<OpenConsole<R, L>>,
    page: Option<OpenPage<R, J>>,
    /// The inputs that the sessions stage.
    stage: Arc<Stage>,
}

impl<R, L, J> Ready<R, L, J>
where
    R: DoorRuntime + Files,
    L: Relink + Send + Drop + 'static,
    J: Naming + Send + Sync + 'static,
{
    /// Listens at the ports that the settings name, with a place for each session. A console takes the last of these
    /// links. `kept` has what is kept of clients and of an operator. Beside it what the outputs are released to.
    pub(crate) fn new(
        host: Host<R>,
        list: NewList,
        settings: &Settings,
        image: &Image,
        links: &mut Vec<L>,
        kept: Kept,
    ) -> Result<(Ready<R, L, J>, Releases<J, R>), Failed>
        requires { list ≡ J.book }
        ensures { IfOk result (λ r. r.1 ≡ []) }
    {
        let Host { rt, alloc } = host;
        let Kept {
            traffic,
            console: journal,
            status,
            shown,
            operators,
            clients,
            sight,
        } = kept;
        let idle = Duration::from_secs(u64::from(settings.idle));
        let operator = Operator {
            journal,
            status,
            changed: Arc::try_clone(&shown.has_changed)?,
            operators,
            sight,
        };
        let console = operator.console(host, settings, image, links)?;
        let doors = Doors::of(&rt, settings, &clients)?;
        let Ok((writer, mut readers)) = released::<J, R>(list, alloc, rt, doors.readers()) else {
            return Err(Failed::Memory);
        };
        let Some(reader) = readers.pop() else {
            return Err(Failed::Memory);
        };
        let page = shown.page(host, settings, image, reader)?;
        let stamp = Arc::new(alloc, Stamp::new(rt)?)?;
        let writer = writer.marked(Arc::try_clone(&stamp)?);
        let outputs = Shown {
            readers,
            stamp,
            limit: settings.stale,
        };
        let server = doors.server(host, outputs, idle, traffic)?;
        let server = server.for_clients(clients.clients)?;
        let ready = Ready {
            server,
            console,
            page,
        };
        Ok((ready, writer))
    }

    /// Takes connections, if each replica has its file in the directory: one whose file could not be made is down. The
    /// console is opened first, and closed where the sessions can't be.
    pub(crate) fn open(
        self,
        host: Host<R>,
        directory: Directory<'_>,
    ) -> Result<Open<R, L, J>, Failed> {
        directory.check_full(host.rt, host.alloc)?;
        let Ready {
            server,
            console,
            page,
        } = self;
        let console = match console {
            Some(console) => Some(console.open()?),
            None => None,
        };
        let page = match opened_page(page) {
            Ok(page) => page,
            Err(failed) => {
                close_console(console);
                return Err(failed);
            }
        };
        match opened(server) {
            Ok((server, stage)) => Ok(Open {
                server,
                console,
                page,
                stage,
            }),
            Err(failed) => {
                close_page(page);
                close_console(console);
                Err(failed)
            }
        }
    }
}

/// The doors for Modbus clients.
#[derive(Drop)]
struct Doors {
    door: Door,
    /// Where everybody only reads, if there's such a port.
    reading: Option<Door>,
}

impl Doors {
    /// At the ports of this machine that are named.
    fn of<R: Net<Listener = TcpListener, Stream = TcpStream>>(
        rt: &R,
        settings: &Settings,
        clients: &ModbusClients,
    ) -> Result<Doors, Failed> {
        Ok(Doors {
            door: door_at(rt, settings.port)?,
            reading: match clients.reading {
                Some(port) => Some(door_at(rt, port)?),
                None => None,
            },
        })
    }

    /// How many read the outputs: a page, and each session at either port.
    fn readers(&self) -> usize {
        match self.reading {
            Some(_) => 2 * SESSIONS + 1,
            None => SESSIONS + 1,
        }
    }

    /// A server at them, to which these outputs are shown.
    fn server<R, J>(
        self,
        host: Host<R>,
        mut outputs: Shown<R, J>,
        idle: Duration,
        traffic: Arc<Traffic>,
    ) -> Result<Server<R, J>, Failed>
    where
        R: ServiceRuntime,
        J: Naming + Send + Sync + 'static,
    {
        let Doors { door, reading } = self;
        let Some(reading) = reading else {
            return Ok(Server::new(host, door, outputs, idle, traffic)?);
        };
        let again = Shown {
            readers: first_of(host.alloc, &mut outputs.readers)?,
            stamp: Arc::try_clone(&outputs.stamp)?,
            limit: outputs.limit,
        };
        let server = Server::new(host, door, outputs, idle, traffic)?;
        Ok(server.with_reading_door(reading, again)?)
    }
}

/// As many of these readers as there are sessions at a port: the others stay.
fn first_of<J: Naming>(
    alloc: Global,
    readers: &mut Vec<ReleasedReader<J>>,
) -> Result<Vec<ReleasedReader<J>>, AllocError> {
    let mut taken = Vec::with_capacity(alloc, SESSIONS)?;
    for _ in 0..SESSIONS {
        if let Some(reader) = readers.pop() {
            taken.push(reader)?;
        }
    }
    Ok(taken)
}

/// What a console works with, beside its link to the group, and how operators come to it.
#[derive(Drop)]
struct Operator {
    journal: Journal,
    status: StatusReader,
    /// Set once another program may be in force.
    changed: Arc<AtomicBool>,
    operators: Operators,
    /// Where a replica leaves snapshots of the controller.
    sight: Arc<SnapshotBoard>,
}

impl Operator {
    /// The console, if one is asked for, which takes no connection yet. It takes the last of these links.
    fn console<R, L>(
        self,
        host: Host<R>,
        settings: &Settings,
        image: &Image,
        links: &mut Vec<L>,
    ) -> Result<Option<Console<R, L>>, Failed>
    where
        R: DoorRuntime + Files,
        L: Relink + Send + Drop + 'static,
    {
        let Operator {
            journal,
            status,
            changed,
            operators,
            sight,
        } = self;
        let Some(at) = settings.console else {
            return Ok(None);
        };
        let Some(link) = links.pop() else {
            return Err(Failed::Device);
        };
        let entrance = entrance(host, at, operators, settings.idle)?;
        let period = Duration::from_millis(u64::from(settings.period));
        let desk = Desk::new(host, settings.config, CONSOLE, link, period, journal);
        let desk = desk.telling_changes(changed).seeing(sight);
        Ok(Some(Console::new(host, entrance, desk, image, status)?))
    }
}

/// How operators come in, of whom each is let go after so many seconds without a word. Where it isn't to be had now, it's
/// had later.
fn entrance<R: DoorRuntime>(
    host: Host<R>,
    at: ConsoleAt,
    operators: Operators,
    idle: u32,
) -> Result<Entrance, Failed> {
    let Operators { path, key } = operators;
    let door = match (at, path) {
        (ConsoleAt::Port(port), _) => Door::wanted(&host, own(port)),
        (ConsoleAt::Socket, Some(path)) => Door::wanted_at_path(&host, path.as_str())?,
        (ConsoleAt::Socket, None) => return Err(Failed::Socket),
    };
    Ok(Entrance {
        door,
        idle: Duration::from_secs(u64::from(idle)),
        key,
    })
}

/// A port of this machine.
fn own(port: u16) -> SocketAddr {
    SocketAddr::from(([127, 0, 0, 1], port))
}

/// The door at a port of this machine.
fn door_at<R: Net<Listener = TcpListener, Stream = TcpStream>>(
    rt: &R,
    port: u16,
) -> Result<Door, Failed> {
    match Door::open(rt, port) {
        Ok(door) => Ok(door),
        Err(error) => Err(Failed::from(error).known_as(Failed::Port(port))),
    }
}

/// Opens the sessions. Beside them the inputs that they stage.
fn opened<R, J>(server: Server<R, J>) -> Result<(OpenServer<R, J>, Arc<Stage>), Failed>
where
    R: DoorRuntime + Files,
    J: Naming + Send + Sync + 'static,
{
    let server = server.open()?;
    match server.shared_stage() {
        Ok(stage) => Ok((server, stage)),
        Err(_) => {
            server.close();
            Err(Failed::Memory)
        }
    }
}

/// Ends a console, if there is one.
fn close_console<R: ServiceRuntime, L: Relink + Send + Drop + 'static>(
    console: Option<OpenConsole<R, L>>,
) {
    if let Some(console) = console {
        console.close();
    }
}

impl<R, L, J> Open<R, L, J>
where
    R: ServiceRuntime,
    L: Relink + Send + Drop + 'static,
    J: Naming + Send + Sync + 'static,
{
    /// Tells the port, has the group scan while connections are served, until as many scans are released as are asked
    /// for, and ends each session, each replica and the threads. Where a replica's thread isn't at its end after a
    /// while, that's told, and a device failed.
    pub(crate) fn attend<P: Pen<J> + Send + Drop + 'static, E: CountedWrite>(
        self,
        rt: &R,
        driver: Driver<R, L, J, P>,
        mut printer: Printer,
        err: &mut E,
    ) -> Result<Counts, Failed>
        requires { IsJournalOf driver.drive.journal printer.driver }
        ensures scans { IfOk result (λ counts. driver.drive.scans ≡ Some counts.scans) }
        ensures told { IsServingTold E.CountedWrite err.old err.new }
    {
        let Open {
            server,
            console,
            page,
            stage,
        } = self;
        tell_port(err, server.port());
        let driven = driver.run(rt, stage, &mut printer, err);
        let (sessions, writes) = server.close();
        close_page(page);
        close_console(console);
        let Ended {
            mut journal,
            counts,
        } = driven.end(rt);
        printer.finish(&mut journal, err);
        let counts = counts?;
        Ok(Counts {
            crashes: counts.crashes,
            scans: counts.scans,
            sessions,
            writes,
        })
    }
}
