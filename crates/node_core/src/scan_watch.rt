//! The last scan of a replica's log, as its thread sees it.

ghost use Rattle.std.specs.Prelude.{◌<◌, ◌≤◌, ◌⊎◌, ◌↔◌, IsTrue};

use il_model::{Command, InImage};
use plc_machine::{LastScan, SeenScan};
use std::alloc::Global;
use std::time::Duration;
use vr_model::{Request, Standing};
use vr_replica::{Replica, ScanInputs};

/// What is known of the last scan.
#[derive(Clone, Copy, PartialEq, Eq)]
enum Known {
    Nothing,
    /// That of a checkpoint; and the place of the last entry that it stands for.
    Checkpoint(u64),
    /// This one, at this place of the log, from 0.
    At(u64, ScanInputs),
}

/// How a replica stood, and how far its log was.
#[derive(Clone, Copy, PartialEq, Eq)]
struct Look {
    standing: Standing,
    count: u64,
    commit: u64,
}

/// Follows the last scan of a replica's log, step by step.
#[derive(Clone, Copy)]
pub(crate) struct ScanWatch {
    known: Known,
    /// In which view the log was seen last that was normal, how many entries it had, and how many were committed.
    view: u64,
    count: u64,
    committed: u64,
    seen: Option<SeenScan>,
    /// At the last look, if there was one.
    look: Option<Look>,
}

/// How a replica stands.
fn look_at(replica: &Replica) -> Look {
    Look {
        standing: replica.standing(),
        count: replica.op_number(),
        commit: replica.commit(),
    }
}

/// The place of the last scan among the entries that a replica keeps.
fn last_place(replica: &Replica) -> Option<u64> {
    let count = replica.op_number();
    for behind in 0..count {
        let place = count - 1 - behind;
        match replica.entry(place)? {
            Request {
                command: Command::Scan { .. },
                ..
            } => return Some(place),
            _ => {}
        }
    }
    None
}

/// Whether the scan at this place, from 0, is the last one of a log of `count` entries of which those that are kept are
/// no scans: `stands` entries were seen and stand, and `is_next_kept` tells whether the log has the one behind them.
fn is_last(place: u64, stands: u64, count: u64, is_next_kept: bool) -> bool
    ensures { IsTrue result ↔ ((place < stands) × (place < count) × ((count ≤ stands) ⊎ IsTrue is_next_kept)) }
{
    place < stands && place < count && (count <= stands || is_next_kept)
}

impl ScanWatch {
    /// Nothing was seen.
    pub(crate) fn new() -> ScanWatch {
        ScanWatch {
            known: Known::Nothing,
            view: 0,
            count: 0,
            committed: 0,
            seen: None,
            look: None,
        }
    }

    /// The last scan, if there is one.
    pub(crate) fn seen(&self) -> Option<SeenScan> {
        self.seen
    }

    /// A scan of these inputs and this moment came in just now.
    fn leave(&mut self, inputs: InImage, moment: u64, now: Duration) {
        let last = LastScan { moment, came: now };
        self.seen = Some(SeenScan { last, inputs });
    }

    /// How many of the entries that were seen stand in the log of a replica that is normal in this view.
    fn standing_in(&self, view: u64) -> u64 {
        if view == self.view {
            self.count
        } else {
            self.committed
        }
    }

    /// Whether what is known is still the last scan of a log of which no kept entry is one.
    fn is_known(&self, replica: &Replica) -> bool {
        let stands = self.standing_in(replica.standing().view);
        let is_next_kept = replica.entry(stands).is_some();
        match self.known {
            Known::Nothing => false,
            Known::Checkpoint(place) | Known::At(place, _) => {
                is_last(place, stands, replica.op_number(), is_next_kept)
            }
        }
    }

    /// No entry that the normal replica keeps is a scan: where what is known needn't be the last one any more, or
    /// nothing is, that is known by what the controller has, which is what the checkpoint brought.
    fn see_checkpoint(&mut self, alloc: Global, replica: &Replica, now: Duration) {
        let commit = replica.commit();
        if commit == 0 || self.is_known(replica) {
            return;
        }
        self.known = Known::Nothing;
        let Ok(snapshot) = replica.snapshot(alloc) else {
            return;
        };
        let (cells, moment) = (snapshot.input, snapshot.moment);
        drop(snapshot);
        self.known = Known::Checkpoint(commit - 1);
        self.leave(InImage { cells }, moment, now);
    }

    /// The last scan stands there.
    fn see(&mut self, place: u64, scan: ScanInputs, now: Duration) {
        let known = Known::At(place, scan);
        if self.known != known {
            self.known = known;
            self.leave(scan.inputs, scan.moment, now);
        }
    }

    /// Whether the last scan is known of a log that was as long at the last look: then it's that one still.
    fn is_as_before(&self, look: Look) -> bool {
        self.look == Some(look) && matches!(self.known, Known::At(_, _))
    }

    /// Looks at the replica behind a step of it.
    pub(crate) fn look(&mut self, alloc: Global, replica: &Replica, now: Duration) {
        let look = look_at(replica);
        if self.is_as_before(look) {
            return;
        }
        self.look = Some(look);
        match (last_place(replica), replica.last_scan()) {
            (Some(place), Some(scan)) => self.see(place, scan, now),
            _ if replica.is_normal() => self.see_checkpoint(alloc, replica, now),
            _ => {}
        }
        if replica.is_normal() {
            self.view = replica.standing().view;
            self.count = replica.op_number();
            self.committed = replica.commit();
        }
    }
}
