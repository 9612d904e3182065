//! What is open at a machine beside its port: an operator's console and a page, where its group's file names them.

use crate::both::both;
use crate::links::console_of;
use crate::serving::{MachineRuntime, millis};
use crate::starting::Running;
use io_image::{Naming, ReleasedReader};
use net_peers::{FIRST_CONSOLE, PeerLink};
use plc_console::{Console, Desk, DeskClient, Entrance, OpenConsole, Others};
use plc_group::Group;
use plc_host::{Failed, Host, ServiceRuntime};
use plc_listener::{Door, DoorRuntime};
use plc_machine::client_starts;
use plc_page::{OpenPage, Page, Published, Showing, Whose};
use plc_status::{Journal, StatusReader, StatusWriter};
use std::alloc::{AllocError, Global};
use std::net::{Net, SocketAddr, TcpListener, TcpStream};
use std::sync::Arc;
use std::sync::atomic::AtomicBool;
use std::time::Duration;
use vr_model::ClientNumber;

/// What a console tells and notes.
#[derive(Drop)]
struct ToServe {
    /// Where what an operator does is noted.
    journal: Journal,
    /// What shows of the machine.
    status: StatusReader,
}

/// What a page tells, and what is published of its machine.
#[derive(Drop)]
struct ToShow<J: Naming> {
    /// Where it's noted what becomes of the page.
    journal: Journal,
    status: StatusReader,
    released: ReleasedReader<J>,
}

/// What a console and a page of a machine are made of, beside what is published of the machine.
#[derive(Drop)]
pub(crate) struct Beside {
    /// Where what an operator does at the console is noted.
    pub(crate) console: Journal,
    /// Where it's noted what becomes of the page.
    pub(crate) page: Journal,
    /// What the page shows beside what is published, if one is wanted.
    pub(crate) showing: Option<Showing>,
}

/// What a desk is told, and whose client it is.
#[derive(Drop)]
struct Told {
    client: DeskClient,
    others: Others,
    has_changed: Arc<AtomicBool>,
    has_no_majority: Arc<AtomicBool>,
}

/// Two readers of what shows of a machine.
fn readers_of(status: &StatusWriter) -> Result<(StatusReader, StatusReader), AllocError> {
    both(status.reader()?, status.reader())
}

/// What is not open yet.
#[derive(Drop)]
pub(crate) struct Services<R, J>
where
    R: ServiceRuntime + Net<Listener = TcpListener, Stream = TcpStream>,
    J: Naming,
{
    pub(crate) console: Option<Console<R, PeerLink<R>>>,
    pub(crate) page: Option<Page<R, J>>,
}

/// What is open. It can't be let go of but by `close`, which joins its threads.
pub(crate) struct OpenServices<R, J>
where
    R: ServiceRuntime + Net<Listener = TcpListener, Stream = TcpStream>,
    J: Naming,
{
    console: Option<OpenConsole<R, PeerLink<R>>>,
    page: Option<OpenPage<R, J>>,
}

/// Where it's asked what shows of it, if that's shown.
fn status_of(group: &Group, number: u8) -> Option<SocketAddr> {
    group.machines.get(usize::from(number))?.status
}

/// What the console of a group's machine asks for first, if anything.
fn key_of(alloc: Global, group: &Group) -> Result<Option<Vec<u8>>, AllocError> {
    match &group.console_key {
        Some(key) => Ok(Some(Vec::from_slice(alloc, key.as_bytes())?)),
        None => Ok(None),
    }
}

/// The door at the socket of a machine's console in this directory.
fn socket_in<R: DoorRuntime>(
    host: Host<R>,
    directory: &str,
    number: u8,
) -> Result<Door, AllocError> {
    let path = format!(in host.alloc; "{directory}/console-{number}")?;
    Door::wanted_at_path(&host, path.as_str())
}

/// The door of a machine's console, if it has one: a socket, or an address. Where it isn't to be had now, it's had later.
fn console_door<R: DoorRuntime>(
    host: Host<R>,
    group: &Group,
    number: u8,
) -> Result<Option<Door>, AllocError> {
    if let Some(directory) = &group.console_sockets {
        return Ok(Some(socket_in(host, directory.as_str(), number)?));
    }
    match console_of(group, number) {
        Some(address) => Ok(Some(Door::wanted(&host, address))),
        None => Ok(None),
    }
}

/// The client that the console of a machine is, which was started so often.
fn desk_client(number: u8, starts: u64) -> Result<DeskClient, Failed> {
    match (
        ClientNumber::new(FIRST_CONSOLE.saturating_add(number)),
        client_starts(starts),
    ) {
        (Some(number), Some(starts)) => Ok(DeskClient { number, starts }),
        _ => Err(Failed::Store(number)),
    }
}

impl<R: MachineRuntime> Running<R> {
    /// What its console's desk is told.
    fn told(&self, group: &Group) -> Result<Told, Failed> {
        let number = self.around.number();
        let client = desk_client(number, self.around.origin.starts)?;
        let others = Others {
            board: Arc::try_clone(&self.boards.snapshots)?,
            budget: group.budget,
            replica: number,
        };
        Ok(Told {
            client,
            others,
            has_changed: Arc::try_clone(&self.boards.has_changed)?,
            has_no_majority: Arc::try_clone(&self.boards.signals.has_no_majority)?,
        })
    }

    /// What submits the commands of its console, by this link. They are noted in this journal.
    fn desk(
        &self,
        host: Host<R>,
        group: &Group,
        link: PeerLink<R>,
        journal: Journal,
    ) -> Result<Desk<R, PeerLink<R>>, Failed> {
        let ((link, journal), told) = both((link, journal), self.told(group))?;
        let Told {
            client,
            others,
            has_changed,
            has_no_majority,
        } = told;
        let period = millis(group.period);
        let desk = Desk::new(host, group.config, client, link, period, journal);
        let desk = desk.among(others).telling_changes(has_changed);
        Ok(desk.minding(has_no_majority))
    }

    /// The operator's console behind this door, which takes no connection yet.
    fn console_behind(
        &self,
        host: Host<R>,
        group: &Group,
        door: Door,
        link: PeerLink<R>,
        beside: ToServe,
    ) -> Result<Console<R, PeerLink<R>>, Failed> {
        let key = key_of(host.alloc, group);
        let ((door, link, beside), key) = both((door, link, beside), key)?;
        let ToServe { journal, status } = beside;
        let idle = Duration::from_secs(u64::from(group.times.idle));
        let entrance = Entrance { door, idle, key };
        let desk = self.desk(host, group, link, journal);
        let ((entrance, status), desk) = both((entrance, status), desk)?;
        Console::new(host, entrance, desk, &self.around.origin.image, status)
    }

    /// The operator's console, if the machine has one, which takes no connection yet.
    fn console(
        &mut self,
        host: Host<R>,
        group: &Group,
        beside: ToServe,
    ) -> Result<Option<Console<R, PeerLink<R>>>, Failed> {
        let Some(link) = self.around.console.take() else {
            drop(beside);
            return Ok(None);
        };
        let door = console_door(host, group, self.around.number());
        let ((link, beside), door) = both((link, beside), door)?;
        let Some(door) = door else {
            drop((link, beside));
            return Ok(None);
        };
        Ok(Some(self.console_behind(host, group, door, link, beside)?))
    }

    /// The page that shows the machine, if it has one, which nobody is shown yet. It shows this beside what is
    /// published, if one is wanted.
    fn page<J: Naming + Send + Sync + 'static>(
        &self,
        host: Host<R>,
        group: &Group,
        shown: ToShow<J>,
        showing: Option<Showing>,
    ) -> Result<Option<Page<R, J>>, Failed> {
        let number = self.around.number();
        let (Some(address), Some(showing)) = (status_of(group, number), showing) else {
            drop(shown);
            return Ok(None);
        };
        let has_changed = Arc::try_clone(&self.boards.has_changed);
        let ((shown, showing), has_changed) = both((shown, showing), has_changed)?;
        let sight = Arc::try_clone(&self.boards.snapshots);
        let ((shown, showing, has_changed), sight) = both((shown, showing, has_changed), sight)?;
        let ToShow {
            journal,
            status,
            released,
        } = shown;
        let published = Published {
            whose: Whose::Machine(number),
            period: group.period,
            status,
            released,
            begun: self.around.keeper.begun,
            has_changed,
            sight,
            journal,
        };
        let image = &self.around.origin.image;
        Ok(Some(Page::new(host, address, image, showing, published)?))
    }

    /// What the machine has beside its port, which isn't open yet. What shows of it is read of `status`, its outputs of
    /// `released`.
    pub(crate) fn services<J: Naming + Send + Sync + 'static>(
        &mut self,
        host: Host<R>,
        group: &Group,
        status: &StatusWriter,
        released: ReleasedReader<J>,
        beside: Beside,
    ) -> Result<Services<R, J>, Failed> {
        let readers = readers_of(status);
        let ((released, beside), (status, shown)) = both((released, beside), readers)?;
        let Beside {
            console,
            page,
            showing,
        } = beside;
        let to_serve = ToServe {
            journal: console,
            status,
        };
        let to_show = ToShow {
            journal: page,
            status: shown,
            released,
        };
        let console = self.console(host, group, to_serve);
        let ((to_show, showing), console) = both((to_show, showing), console)?;
        let (console, page) = both(console, self.page(host, group, to_show, showing))?;
        Ok(Services { console, page })
    }
}

/// Takes connections at a console, if there is one.
fn opened_console<R>(
    console: Option<Console<R, PeerLink<R>>>,
) -> Result<Option<OpenConsole<R, PeerLink<R>>>, Failed>
where
    R: MachineRuntime,
{
    match console {
        Some(console) => Ok(Some(console.open()?)),
        None => Ok(None),
    }
}

/// Shows a page, if there is one.
fn opened_page<R, J>(page: Option<Page<R, J>>) -> Result<Option<OpenPage<R, J>>, Failed>
where
    R: DoorRuntime,
    J: Naming + Send + Sync + 'static,
{
    match page {
        Some(page) => Ok(Some(page.open()?)),
        None => Ok(None),
    }
}

/// Ends a console, if there is one.
fn close_console<R>(console: Option<OpenConsole<R, PeerLink<R>>>)
where
    R: ServiceRuntime + Net<Listener = TcpListener, Stream = TcpStream>,
{
    if let Some(console) = console {
        console.close();
    }
}

impl<R, J> Services<R, J>
where
    R: MachineRuntime,
    J: Naming + Send + Sync + 'static,
{
    /// Takes connections at both, as soon as their doors are to be had. The console is opened first, and closed where the
    /// page can't be shown.
    pub(crate) fn open(self) -> Result<OpenServices<R, J>, Failed> {
        let Services { console, page } = self;
        let (page, console) = both(page, opened_console(console))?;
        match opened_page(page) {
            Ok(page) => Ok(OpenServices { console, page }),
            Err(failed) => {
                close_console(console);
                Err(failed)
            }
        }
    }
}

impl<R, J> OpenServices<R, J>
where
    R: ServiceRuntime + Net<Listener = TcpListener, Stream = TcpStream>,
    J: Naming,
{
    /// Takes none any more, and ends each connection and the threads.
    pub(crate) fn close(self) {
        let OpenServices { console, page } = self;
        if let Some(page) = page {
            page.close();
        }
        close_console(console);
    }
}
