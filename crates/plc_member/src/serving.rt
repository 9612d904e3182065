//! A machine from the start of its replica to its end.

ghost use Rattle.std.specs.Prelude.{◌≡◌};

use crate::begun::{Begun, Surroundings};
use crate::both::both;
use crate::drive::{Drive, Parting};
use crate::ended::{Ended, Left};
use crate::keeper::Keeper;
use crate::port::{Addresses, Port};
use crate::program::Marks;
use crate::publisher::Publisher;
use crate::receiving::Receives;
use crate::services::Beside;
use crate::starting::{Running, started};
use crate::stop::Stop;
use crate::teller::{Submitted, Teller, ToTell};
use crate::tracer::Tracer;
use io_image::{Naming, NewList, Pen, ReleasedReader, SharedPen, Stage, Stamp, released};
use io_model::CountedWrite;
use modbus_server::{Seats, Shown};
use net_peers::PeerLink;
use plc_group::{Group, Machine};
use plc_host::{Failed, Host};
use plc_listener::DoorRuntime;
use plc_machine::{MachineDriver, Pace, client_starts};
use plc_node_core::{Node, Role, ScanClient};
use plc_page::Showing;
use plc_status::{Journal, Journals, Notice, Printer, StatusWriter};
use std::alloc::{AllocError, Global};
use std::rt::Files;
use std::sync::Arc;
use std::thread;
use std::thread::JoinHandle;
use std::time::Duration;
use vr_model::ClientNumber;
use vr_threads::Starts;

/// So many sessions of Modbus clients are served at once.
const SESSIONS: usize = 16;

/// A runtime that the process of a machine runs on.
pub trait MachineRuntime: DoorRuntime + Files {}

impl<R: DoorRuntime + Files> MachineRuntime for R {}

/// A time of so many milliseconds.
pub(crate) fn millis(time: u32) -> Duration {
    Duration::from_millis(u64::from(time))
}

/// What the outputs are released to, and what clients are shown them by.
#[derive(Drop)]
struct Outputs<R: MachineRuntime, J: Naming, P: Pen<J> + Drop> {
    publisher: Publisher<R, J, P>,
    seats: Seats<R, J>,
    /// For a page.
    reader: ReleasedReader<J>,
}

/// How many read the outputs of a machine: a page, and each session at a port for Modbus clients.
fn readers_of(group: &Group) -> usize {
    if group.machines.iter().any(has_reading_port) {
        2 * SESSIONS + 1
    } else {
        SESSIONS + 1
    }
}

fn has_reading_port(machine: &Machine) -> bool {
    machine.modbus_read.is_some()
}

/// The outputs, as those clients are shown them who have these readers: for as long as they are fresh.
fn shown_to<J: Naming, R: MachineRuntime>(
    group: &Group,
    readers: Vec<ReleasedReader<J>>,
    stamp: &Arc<Stamp<R>>,
) -> Result<Shown<R, J>, AllocError> {
    Ok(Shown {
        readers,
        stamp: Arc::try_clone(stamp)?,
        // Ages are whole milliseconds, rounded down: so none that is shown is older than `fresh`.
        limit: Some(group.times.fresh.saturating_sub(1)),
    })
}

/// As many of these readers as there are sessions at a port: the others stay.
fn first_of<J: Naming>(
    alloc: Global,
    readers: &mut Vec<ReleasedReader<J>>,
) -> Result<Vec<ReleasedReader<J>>, AllocError> {
    let mut taken = Vec::with_capacity(alloc, SESSIONS)?;
    for _ in 0..SESSIONS {
        if let Some(reader) = readers.pop() {
            taken.push(reader)?;
        }
    }
    Ok(taken)
}

/// What clients are served with, one for each of these readers.
fn seats_of<J, R>(
    host: Host<R>,
    group: &Group,
    mut readers: Vec<ReleasedReader<J>>,
    stamp: &Arc<Stamp<R>>,
    status: &StatusWriter,
) -> Result<Seats<R, J>, Failed>
where
    J: Naming + Send + Sync + 'static,
    R: MachineRuntime,
{
    let alloc = host.alloc;
    let at_port = first_of(alloc, &mut readers)?;
    let idle = Duration::from_secs(u64::from(group.times.idle));
    let shown = shown_to(group, at_port, stamp)?;
    let seats = Seats::new(host, shown, idle, status.traffic()?)?;
    let seats = seats.for_clients(group.clients.again(alloc)?)?;
    Ok(seats.with_reading_port(shown_to(group, readers, stamp)?)?)
}

/// The last of these readers, and the others.
fn last_of<T: Drop>(mut readers: Vec<T>) -> Result<(T, Vec<T>), Failed> {
    match readers.pop() {
        Some(reader) => Ok((reader, readers)),
        None => Err(Failed::Memory),
    }
}

/// What the outputs of a machine are released to.
fn outputs_of<J, R>(
    host: Host<R>,
    list: NewList,
    group: &Group,
    status: &StatusWriter,
) -> Result<Outputs<R, J, SharedPen<J, R>>, Failed>
where
    J: Naming + Send + Sync + 'static,
    R: MachineRuntime,
    requires { list ≡ J.book }
{
    let Host { rt, alloc } = host;
    let stamp = Arc::new(alloc, Stamp::new(rt)?)?;
    let Ok((writer, readers)) = released::<J, R>(list, alloc, rt, readers_of(group)) else {
        return Err(Failed::Memory);
    };
    let (writer, (reader, readers)) = both(writer, last_of(readers))?;
    let seats = seats_of(host, group, readers, &stamp, status);
    let ((writer, reader), seats) = both((writer, reader), seats)?;
    Ok(Outputs {
        publisher: Publisher { writer, stamp },
        seats,
        reader,
    })
}

/// What a machine shows, and what its outputs are released to.
fn shown_by<J, R>(
    host: Host<R>,
    list: NewList,
    group: &Group,
) -> Result<(StatusWriter, Outputs<R, J, SharedPen<J, R>>), Failed>
where
    J: Naming + Send + Sync + 'static,
    R: MachineRuntime,
    requires { list ≡ J.book }
{
    let status = StatusWriter::new(host.alloc)?;
    let outputs = outputs_of::<J, R>(host, list, group, &status);
    both(status, outputs)
}

/// The driver of a machine that was started so often, which stands by.
fn driver_of(group: &Group, number: u8, starts: u64) -> Result<MachineDriver, Failed> {
    let (Some(client), Some(starts)) = (ClientNumber::new(number), client_starts(starts)) else {
        return Err(Failed::Store(number));
    };
    let pace = Pace {
        period: millis(group.period),
        fresh: millis(group.times.fresh),
    };
    Ok(MachineDriver::new(&group.config, client, starts, pace))
}

impl<R, S, M> Begun<R, S, M>
where
    R: MachineRuntime,
    S: Starts + Send + Drop + 'static,
    M: Marks + Send + Drop + 'static,
{
    /// Serves the machine until something fails, it's asked to stop, or it leaves its epoch. Then nothing of it is
    /// left: port and sessions are closed, and its replica's thread has ended, unless that hangs behind a stop or a
    /// failure. `err` has a line for each change; `showing` is what its page shows beside what is published, if one is
    /// wanted.
    pub fn serve<J, E: CountedWrite>(
        self,
        host: Host<R>,
        list: NewList,
        group: &Group,
        showing: Option<Showing>,
        err: &mut E,
    ) -> Ended
    where
        J: Naming + Send + Sync + 'static,
        requires { list ≡ J.book }
    {
        match self.run::<J, E>(host, list, group, showing, err) {
            Ok(ended) => ended,
            Err(failed) => Ended::Failed(failed),
        }
    }

    /// Notes that the program was changed in its epoch before it started.
    fn note_change(&self, journal: &mut Journal) {
        if self.around.origin.is_marked {
            journal.put(Notice::ProgramChanged(self.around.epoch.number));
        }
    }

    /// Runs it until it ends. An error is something that isn't to be had at its start.
    fn run<J, E: CountedWrite>(
        self,
        host: Host<R>,
        list: NewList,
        group: &Group,
        showing: Option<Showing>,
        err: &mut E,
    ) -> Result<Ended, Failed>
    where
        J: Naming + Send + Sync + 'static,
        requires { list ≡ J.book }
    {
        let ((begun, showing), journals) = both((self, showing), Journals::new(host.alloc))?;
        let Journals {
            driver: journal,
            console,
            page,
            printer,
        } = journals;
        let beside = Beside {
            console,
            page,
            showing,
        };
        let served = begun.served::<J>(host, list, group, journal);
        let ((beside, mut printer), served) = both((beside, printer), served)?;
        let ended = served.run(host, group, beside, &mut printer, err);
        drop(printer);
        ended
    }

    /// It, once its replica runs. What changes is noted in this journal.
    fn served<J>(
        self,
        host: Host<R>,
        list: NewList,
        group: &Group,
        mut journal: Journal,
    ) -> Result<Served<R, J, SharedPen<J, R>>, Failed>
    where
        J: Naming + Send + Sync + 'static,
        requires { list ≡ J.book }
    {
        self.note_change(&mut journal);
        let shown = shown_by::<J, R>(host, list, group);
        let ((begun, journal), (status, outputs)) = both((self, journal), shown)?;
        let Outputs {
            publisher,
            seats,
            reader,
        } = outputs;
        let parts = (publisher, journal, status);
        let running = started(host, group, begun);
        let ((parts, seats, released), running) = both((parts, seats, reader), running)?;
        let (publisher, journal, status) = parts;
        let parts = Parts {
            running,
            publisher,
            journal,
            status,
        };
        Ok(Served {
            parts,
            seats,
            released,
        })
    }
}

/// What the driver of a machine is made of, whose replica runs.
#[derive(Drop)]
struct Parts<R: MachineRuntime, J: Naming, P: Pen<J> + Drop> {
    running: Running<R>,
    publisher: Publisher<R, J, P>,
    /// Where what changes is noted.
    journal: Journal,
    status: StatusWriter,
}

/// What the driver of a machine does its work by, apart from what it looks at and publishes to.
#[derive(Drop)]
struct Hands<R: MachineRuntime> {
    node: Node,
    link: PeerLink<R>,
    teller: Teller,
    tracer: Tracer,
    keeper: Keeper<R>,
    /// What ends it.
    stop: Stop,
}

impl<R: MachineRuntime> Surroundings<R> {
    /// What a driver does its work by that asks for a scan once a period, notes what changes in this journal, and shows
    /// this status.
    fn into_hands(
        self,
        period: Duration,
        driver: MachineDriver,
        journal: Journal,
        status: StatusWriter,
    ) -> Hands<R> {
        let number = self.number();
        let epoch = self.epoch.number;
        let Surroundings {
            exchange,
            driver: link,
            keeper,
            stop,
            trace,
            ..
        } = self;
        let told = ToTell {
            number,
            epoch,
            others: keeper.terms.f.saturating_mul(2),
            exchange,
        };
        Hands {
            node: Node::new(Role::new(ScanClient::new(number, period, driver))),
            link,
            teller: Teller::new(told, journal, status),
            tracer: Tracer {
                number,
                epoch,
                trace,
            },
            keeper,
            stop,
        }
    }
}

impl<R: MachineRuntime, J: Naming, P: Pen<J> + Drop> Parts<R, J, P> {
    /// The driver, which stands by and samples this stage, and the thread of the replica. Its times have the beginning
    /// that all times of the machine's life have.
    fn into_drive(
        self,
        host: Host<R>,
        period: Duration,
        driver: MachineDriver,
        stage: Arc<Stage>,
    ) -> (Drive<R, J, P>, JoinHandle<()>)
        ensures { result.0.begun ≡ self.running.around.keeper.begun }
    {
        let Parts {
            running,
            publisher,
            journal,
            status,
        } = self;
        let Running {
            around,
            boards,
            replica,
            thread,
        } = running;
        let begun = around.keeper.begun;
        let number = around.number();
        let hands = around.into_hands(period, driver, journal, status);
        let drive = Drive {
            host,
            begun,
            number,
            node: hands.node,
            link: hands.link,
            replica,
            keeper: hands.keeper,
            board: boards.scans,
            saves: boards.saves,
            stage,
            publisher,
            teller: hands.teller,
            tracer: hands.tracer,
            submitted: Submitted::at_the_start(begun),
            kept: None,
            receives: Receives::new(),
            signals: boards.signals,
            stop: hands.stop,
        };
        (drive, thread)
    }
}

/// A machine whose replica runs, and what its clients are served with.
#[derive(Drop)]
struct Served<R: MachineRuntime, J: Naming, P: Pen<J> + Drop> {
    parts: Parts<R, J, P>,
    seats: Seats<R, J>,
    /// The outputs, for a page.
    released: ReleasedReader<J>,
}

/// What a machine's driver works with beside its parts.
#[derive(Drop)]
struct Means {
    addresses: Addresses,
    stage: Arc<Stage>,
    driver: MachineDriver,
}

impl<R: MachineRuntime, J: Naming, P: Pen<J> + Drop> Parts<R, J, P> {
    /// What its driver works with, where these seats are open.
    fn means(&self, group: &Group, seats: &Seats<R, J>) -> Result<Means, Failed> {
        let around = &self.running.around;
        let (number, starts) = (around.number(), around.origin.starts);
        let Some(place) = group.machines.get(usize::from(number)) else {
            return Err(Failed::Connection);
        };
        let stage = seats.shared_stage()?;
        Ok(Means {
            addresses: Addresses {
                modbus: place.modbus,
                reading: place.modbus_read,
            },
            stage,
            driver: driver_of(group, number, starts)?,
        })
    }

    /// The work of its driver, and the thread of its replica. Clients take these seats.
    fn into_work(
        self,
        host: Host<R>,
        group: &Group,
        seats: Seats<R, J>,
    ) -> Result<(Work<R, J, P>, JoinHandle<()>), Failed> {
        let means = self.means(group, &seats);
        let ((parts, seats), means) = both((self, seats), means)?;
        let Means {
            addresses,
            stage,
            driver,
        } = means;
        let (drive, thread) = parts.into_drive(host, millis(group.period), driver, stage);
        let work = Work {
            drive,
            addresses,
            seats,
        };
        Ok((work, thread))
    }
}

/// How a machine ended the work of whose driver ended so, and whose replica has this thread. Whoever leaves an epoch says
/// nothing in a later one before its replica, its links and its listener are gone.
fn ended_by<R: MachineRuntime>(rt: &R, parting: Parting, thread: JoinHandle<()>) -> Ended {
    match parting {
        Parting::Stopped => Ended::Stopped,
        Parting::Failed(failed) => Ended::Failed(failed),
        Parting::Leaves(kept) => Ended::Leaves(Left::begun(rt, thread, kept)),
    }
}

impl<R, J, P> Served<R, J, P>
where
    R: MachineRuntime,
    J: Naming + Send + Sync + 'static,
    P: Pen<J> + Send + Drop + 'static,
{
    /// Serves it, with this beside its port, and prints what is noted meanwhile, until it ends.
    fn run<E: CountedWrite>(
        self,
        host: Host<R>,
        group: &Group,
        beside: Beside,
        printer: &mut Printer,
        err: &mut E,
    ) -> Result<Ended, Failed> {
        let Served {
            parts: mut own,
            seats,
            released,
        } = self;
        let parts = &mut own;
        let services = parts
            .running
            .services(host, group, &parts.status, released, beside);
        let ((parts, seats), services) = both((own, seats), services)?;
        let (services, (work, thread)) = both(services, parts.into_work(host, group, seats))?;
        let ((work, thread), services) = both((work, thread), services.open())?;
        let parting = work.done(host.rt, printer, err);
        services.close();
        let (thread, parting) = both(thread, parting)?;
        Ok(ended_by(&host.rt, parting, thread))
    }
}

/// The work of a machine's driver: its port, and what clients are served with there.
#[derive(Drop)]
struct Work<R: MachineRuntime, J: Naming, P: Pen<J> + Drop> {
    drive: Drive<R, J, P>,
    addresses: Addresses,
    seats: Seats<R, J>,
}

impl<R, J, P> Work<R, J, P>
where
    R: MachineRuntime,
    J: Naming + Send + Sync + 'static,
    P: Pen<J> + Send + Drop + 'static,
{
    /// Has it done in a thread of its own, and prints what is noted meanwhile, until it ends.
    fn done<E: CountedWrite>(
        self,
        rt: R,
        printer: &mut Printer,
        err: &mut E,
    ) -> Result<Parting, Failed> {
        let Work {
            drive,
            addresses,
            seats,
        } = self;
        let work = move || drive.run(Port::new(rt, addresses, seats));
        let Ok(thread) = thread::spawn(&rt, work) else {
            return Err(Failed::Thread);
        };
        printer.attend(&rt, err);
        Ok(thread.join(&rt))
    }
}
