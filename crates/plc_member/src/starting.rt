//! How the replica of a machine that has begun its epoch is started, in a thread of its own.

ghost use Rattle.std.specs.Prelude.{◌≡◌, IfOk};
ghost use Rattle.plc_member.specs.Marking.{found_mark};

use crate::begun::{Begun, ReplicaFiles, Surroundings};
use crate::both::both;
use crate::giving_up::GivingTimer;
use crate::held_link::HeldLink;
use crate::life::Origin;
use crate::neighbours::Machines;
use crate::program::{Mark, Marking, Marks, ProgramWatch};
use crate::scans::{ScanBoard, ScanGate};
use crate::serving::{MachineRuntime, millis};
use crate::signals::Signals;
use net_peers::PeerLink;
use plc_console::SnapshotBoard;
use plc_group::Group;
use plc_host::{Failed, Host};
use std::alloc::{AllocError, Global};
use std::sync::Arc;
use std::sync::atomic::AtomicBool;
use std::thread::JoinHandle;
use vr_threads::{ClusterConfig, ClusterError, GroupTimer, OwnReplica, Saves, Seat, Starts};

/// Where the thread of a replica leaves what the others of its machine look at.
#[derive(Drop)]
pub(crate) struct Boards {
    /// The last scan of its log.
    pub(crate) scans: Arc<ScanBoard>,
    /// A snapshot of its controller, for a console that wants one.
    pub(crate) snapshots: Arc<SnapshotBoard>,
    /// That another program may be in force than the one with which the epoch began.
    pub(crate) has_changed: Arc<AtomicBool>,
    /// What its driver shows the others.
    pub(crate) signals: Signals,
    /// How what it keeps in its directory goes.
    pub(crate) saves: Arc<Saves>,
}

/// What the mark of a store says as a life of its machine begins: a change that it tells may have been refused since.
fn found(is_marked: bool) -> Mark
    ensures { result ≡ found_mark is_marked }
{
    if is_marked { Mark::Seen } else { Mark::Absent }
}

impl Boards {
    /// Nothing was left there by a replica that keeps things so.
    fn new(alloc: Global, saves: &Arc<Saves>) -> Result<Boards, AllocError> {
        Ok(Boards {
            scans: Arc::new(alloc, ScanBoard::new())?,
            snapshots: Arc::new(alloc, SnapshotBoard::new())?,
            has_changed: Arc::new(alloc, AtomicBool::new(false))?,
            signals: Signals::new(alloc)?,
            saves: Arc::try_clone(saves)?,
        })
    }

    /// What keeps a change of the program, by what marks the store, with these surroundings.
    fn marking<R: MachineRuntime, M: Marks + Drop>(
        &self,
        host: Host<R>,
        around: &Surroundings<R>,
        marks: M,
    ) -> Result<Marking<M>, AllocError> {
        Ok(Marking {
            has_changed: Arc::try_clone(&self.has_changed)?,
            marks,
            mark: found(around.origin.is_marked),
            image: Vec::new(host.alloc),
            hold: Arc::try_clone(&around.keeper.terms.hold)?,
            saves: Arc::try_clone(&self.saves)?,
            exchange: Arc::try_clone(&around.exchange)?,
        })
    }

    /// What leaves there what a replica comes to that was not started, with these surroundings. Its times have the
    /// beginning that all times of the machine's life have.
    fn gate<R: MachineRuntime, M: Marks + Drop>(
        &self,
        host: Host<R>,
        around: &Surroundings<R>,
        marks: M,
    ) -> Result<ScanGate<R, M>, AllocError>
        ensures { IfOk result (λ gate. gate.begun ≡ around.now.keeper.begun) }
    {
        let scans = Arc::try_clone(&self.scans)?;
        let snapshots = Arc::try_clone(&self.snapshots)?;
        let marking = self.marking(host, around, marks)?;
        let program = ProgramWatch::new(host.alloc, &around.origin.image, marking)?;
        Ok(ScanGate::new(host, around.keeper.begun, scans, snapshots, program))
    }
}

/// The replica of a machine, which runs.
#[derive(Drop)]
pub(crate) struct Running<R: MachineRuntime> {
    pub(crate) around: Surroundings<R>,
    pub(crate) boards: Boards,
    pub(crate) replica: OwnReplica<HeldLink<R>>,
    /// Of the replica. It ends once the link is cut and `replica` is let go of.
    pub(crate) thread: JoinHandle<()>,
}

/// Why no replica runs.
fn failed_by(error: ClusterError) -> Failed {
    match error {
        ClusterError::Memory => Failed::Memory,
        ClusterError::Thread => Failed::Thread,
    }
}

/// What says when the replica of a machine is late.
type MachineTimer<R> = GivingTimer<GroupTimer<R, Machines>>;

/// What says when a replica with these surroundings is late, or is to give its view up.
fn timer_of<R: MachineRuntime>(
    rt: R,
    group: &Group,
    around: &Surroundings<R>,
    signals: &Signals,
) -> Result<MachineTimer<R>, AllocError> {
    let machines = Machines {
        exchange: Arc::try_clone(&around.exchange)?,
    };
    let (patience, resend) = (millis(group.times.patience), millis(group.times.resend));
    let number = around.number();
    let timer = GroupTimer::new(rt, group.config, number, patience, resend, machines);
    Ok(GivingTimer::new(timer, Arc::try_clone(&signals.given_up)?))
}

/// How the replicas of a group run.
fn config_of(group: &Group) -> ClusterConfig {
    ClusterConfig {
        group: group.config,
        budget: group.budget,
        turns: u64::MAX,
    }
}

/// What the replica of a machine works with.
type MachineSeat<R, S, M> = Seat<HeldLink<R>, S, MachineTimer<R>, ScanGate<R, M>>;

/// What a replica with these surroundings works with, by its link, which can be held, its files, and the boards.
fn seat_of<R, S, M>(
    host: Host<R>,
    group: &Group,
    around: &Surroundings<R>,
    boards: &Boards,
    link: PeerLink<R>,
    files: ReplicaFiles<S, M>,
) -> Result<MachineSeat<R, S, M>, AllocError>
where
    R: MachineRuntime,
    S: Starts + Drop,
    M: Marks + Drop,
{
    let hold = Arc::try_clone(&around.keeper.terms.hold);
    let ((link, files), hold) = both((link, files), hold)?;
    let link = HeldLink { link, hold };
    let timer = timer_of(host.rt, group, around, &boards.signals);
    let ((link, files), timer) = both((link, files), timer)?;
    let ReplicaFiles {
        store,
        marks,
        saves,
    } = files;
    drop(saves);
    let gate = boards.gate(host, around, marks);
    let ((link, store, timer), gate) = both((link, store, timer), gate)?;
    Ok(Seat {
        link,
        store,
        timer,
        gate,
    })
}

/// Starts the replica of a life that began so, in a thread of its own.
fn replica_of<R, S, M>(
    host: Host<R>,
    group: &Group,
    origin: &Origin,
    seat: MachineSeat<R, S, M>,
) -> Result<(OwnReplica<HeldLink<R>>, JoinHandle<()>), Failed>
where
    R: MachineRuntime,
    S: Starts + Send + Drop + 'static,
    M: Marks + Send + Drop + 'static,
{
    let Host { rt, alloc } = host;
    let number = origin.header.machine;
    match OwnReplica::start(&rt, alloc, config_of(group), number, &origin.image, seat) {
        Ok(started) => Ok(started),
        Err(error) => Err(failed_by(error)),
    }
}

/// Starts the replica of a machine that has begun its epoch.
pub(crate) fn started<R, S, M>(
    host: Host<R>,
    group: &Group,
    begun: Begun<R, S, M>,
) -> Result<Running<R>, Failed>
where
    R: MachineRuntime,
    S: Starts + Send + Drop + 'static,
    M: Marks + Send + Drop + 'static,
{
    let boards = Boards::new(host.alloc, &begun.files.saves);
    let (begun, boards) = both(begun, boards)?;
    let Begun {
        around,
        link,
        files,
    } = begun;
    let seat = seat_of(host, group, &around, &boards, link, files);
    let ((around, boards), seat) = both((around, boards), seat)?;
    let replica = replica_of(host, group, &around.origin, seat);
    let ((around, boards), (replica, thread)) = both((around, boards), replica)?;
    Ok(Running {
        around,
        boards,
        replica,
        thread,
    })
}
