//! What the thread of a replica leaves for the others of its machine: the last scan of its log for the driver, and a
//! snapshot of its controller for a console that wants one.

ghost use Rattle.std.specs.Prelude.{◌≡◌, IfSome, Some};
ghost use Rattle.il_model.specs.declared.command.Command.{Command as Asked};
ghost use Rattle.vr_model.specs.Membership.{Membership};
ghost use Rattle.vr_model.specs.Replicas as model;
ghost use Rattle.vr_replica.specs.Scans.{last_scan_of};
ghost use Rattle.vr_replica.specs.Standing.{StandsFor};

use crate::looked::{Looked, is_last};
use crate::program::{Marks, ProgramWatch};
use il_model::{Command, InImage};
use plc_console::SnapshotBoard;
use plc_host::Host;
use plc_machine::{LastScan, SeenScan as LastSeen};
use plc_sight::ForceWatch;
use std::sync::{Arc, Mutex, Wait};
use std::time::{Clock, Duration, Instant};
use vr_model::{Request, Standing};
use vr_ports::Gate;
use vr_replica::{Replica, ScanInputs};
use vr_threads::Observer;

/// Where a scan stands in a log, from 0, by whom it was submitted, under which number, and at which moment; and the
/// view in which that was seen.
#[derive(Clone, Copy, Debug, PartialEq, Eq)]
pub(crate) struct Entered {
    pub(crate) place: u64,
    pub(crate) client: u8,
    pub(crate) number: u64,
    pub(crate) moment: u64,
    pub(crate) view: u64,
}

/// The last scan of a log, and where it stands, if that is known.
#[derive(Clone, Copy)]
pub(crate) struct SeenScan {
    pub(crate) scan: LastSeen,
    pub(crate) entered: Option<Entered>,
}

/// Where the thread of a replica leaves the last scan of its log. Whoever holds it holds it for a moment.
#[derive(Drop)]
pub(crate) struct ScanBoard {
    seen: Mutex<Option<SeenScan>>,
}

impl ScanBoard {
    /// No scan was seen.
    pub(crate) fn new() -> ScanBoard {
        ScanBoard {
            seen: Mutex::new(None),
        }
    }

    /// The last scan, if there is one.
    pub(crate) fn read<R: Wait>(&self, rt: &R) -> Option<SeenScan> {
        *self.seen.lock(rt)
    }

    /// This is the last scan from now on.
    fn put<R: Wait>(&self, rt: &R, seen: SeenScan) {
        *self.seen.lock(rt) = Some(seen);
    }
}

/// What a gate knows of the last scan.
#[derive(Clone, Copy, PartialEq, Eq)]
enum Known {
    Nothing,
    /// That of a checkpoint, with its forces laid over the inputs; and the place of the last entry that it stands for.
    Checkpoint(u64),
    /// This one, at this place of the log, from 0.
    At(u64, ScanInputs),
}

/// Leaves the last scan of its replica's log on a board, behind each step that brings another one.
#[derive(Drop)]
pub(crate) struct ScanGate<R: Wait + Clock + Copy + Drop, M> {
    host: Host<R>,
    begun: Instant,
    board: Arc<ScanBoard>,
    /// For those of this machine who look at the controller.
    snapshots: Arc<SnapshotBoard>,
    forces: ForceWatch,
    program: ProgramWatch<M>,
    known: Known,
    looked: Looked,
}

/// Where the last scan stands among the entries that a replica keeps.
fn last_entered(replica: &Replica) -> Option<Entered> {
    let count = replica.op_number();
    for behind in 0..count {
        let place = count - 1 - behind;
        match replica.entry(place)? {
            Request {
                client,
                number,
                command: Command::Scan { moment, .. },
            } => {
                return Some(Entered {
                    place,
                    client: client.number,
                    number: *number,
                    moment: *moment,
                    view: replica.standing().view,
                });
            }
            _ => {}
        }
    }
    None
}

/// The last scan of a replica's log, where it's among the entries that it keeps.
fn last_of(replica: &Replica) -> Option<ScanInputs>
    ensures { (m : Membership) (r : model.ReplicaState Asked) → StandsFor replica.now m r
        → IfSome result (λ scan. last_scan_of r.log ≡ Some scan) }
{
    replica.last_scan()
}

impl<R: Wait + Clock + Copy + Drop, M: Marks + Drop> ScanGate<R, M> {
    /// Of a replica that was not started. Times are told since `begun`.
    pub(crate) fn new(
        host: Host<R>,
        begun: Instant,
        board: Arc<ScanBoard>,
        snapshots: Arc<SnapshotBoard>,
        program: ProgramWatch<M>,
    ) -> ScanGate<R, M>
        ensures { result.begun ≡ begun }
    {
        ScanGate {
            host,
            begun,
            board,
            snapshots,
            forces: ForceWatch::new(),
            program,
            known: Known::Nothing,
            looked: Looked {
                view: 0,
                count: 0,
                committed: 0,
            },
        }
    }

    /// Leaves a snapshot of the controller, where one is wanted, and the number of forces, where the replica takes part.
    fn leave_snapshot(&mut self, replica: &Replica) {
        if !replica.is_normal() {
            return;
        }
        self.forces.look(&self.host, replica, &self.snapshots);
        let Some(wish) = self.snapshots.wish() else {
            return;
        };
        // Where memory runs out, it's tried behind the next step.
        if let Ok(snapshot) = replica.snapshot(self.host.alloc) {
            self.snapshots.put(&self.host.rt, wish, snapshot);
        }
    }

    /// A scan of these inputs and this moment came in just now. Where the time can't be read it's left out.
    fn leave(&self, inputs: InImage, moment: u64, entered: Option<Entered>) {
        if let Ok(now) = Instant::now(&self.host.rt) {
            let came = now.saturating_duration_since(self.begun);
            let last = LastScan { moment, came };
            let scan = LastSeen { last, inputs };
            self.board.put(&self.host.rt, SeenScan { scan, entered });
        }
    }

    /// The last scan stands there.
    fn see(&mut self, entered: Entered, scan: ScanInputs) {
        let known = Known::At(entered.place, scan);
        if self.known != known {
            self.known = known;
            self.leave(scan.inputs, scan.moment, Some(entered));
        }
    }

    /// Whether what is known is still the last scan of a log of which no kept entry is one.
    fn is_known(&self, replica: &Replica) -> bool {
        let stands = self.looked.standing_in(replica.standing().view);
        let is_next_kept = replica.entry(stands).is_some();
        match self.known {
            Known::Nothing => false,
            Known::Checkpoint(place) | Known::At(place, _) => {
                is_last(place, stands, replica.op_number(), is_next_kept)
            }
        }
    }

    /// No entry that the normal replica keeps is a scan: where what is known needn't be the last one any more, or
    /// nothing is, that is known by what the controller has, which is what the checkpoint brought.
    fn see_checkpoint(&mut self, replica: &Replica) {
        let commit = replica.commit();
        if commit == 0 || self.is_known(replica) {
            return;
        }
        self.known = Known::Nothing;
        // Where memory runs out, it's tried behind the next step.
        if let Ok(snapshot) = replica.snapshot(self.host.alloc) {
            self.known = Known::Checkpoint(commit - 1);
            let inputs = InImage {
                cells: snapshot.input,
            };
            self.leave(inputs, snapshot.moment, None);
        }
    }

    /// Looks for the last scan.
    fn see_last(&mut self, replica: &Replica) {
        match (last_entered(replica), last_of(replica)) {
            (Some(entered), Some(scan)) => self.see(entered, scan),
            _ if replica.is_normal() => self.see_checkpoint(replica),
            _ => {}
        }
    }

    /// The log was seen so far.
    fn note_looked(&mut self, replica: &Replica) {
        if replica.is_normal() {
            self.looked = Looked {
                view: replica.standing().view,
                count: replica.op_number(),
                committed: replica.commit(),
            };
        }
    }
}

impl<R: Wait + Clock + Copy + Drop, M: Marks + Drop> Gate for ScanGate<R, M> {
    fn before(&mut self, _call: u64) {}

    fn after(&mut self, _call: u64, _standing: Standing) {}
}

impl<R: Wait + Clock + Copy + Drop, M: Marks + Drop> Observer for ScanGate<R, M> {
    fn observe(&mut self, replica: &Replica) {
        self.see_last(replica);
        self.note_looked(replica);
        self.program.look(&self.host, replica);
        self.leave_snapshot(replica);
    }
}
