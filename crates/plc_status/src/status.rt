//! What shows of a served controller, for whoever watches it.

ghost use Rattle.std.specs.Prelude.{◌≡◌, ◌<◌, List, Option, Some, None, get_or, length, set, IfOk};
ghost use Rattle.plc_status.specs.Published.{machine_words, nothing, status_words, AreOfGroup, IsCounted};
ghost use Rattle.plc_status.specs.Scans.{after_scan, no_scan, IsPlaced};
ghost use Rattle.plc_status.specs.declared.machine.MachineStatus.{MachineStatus as Machine};
ghost use Rattle.plc_status.specs.declared.scans.ScanStatus.{ScanStatus as Scanned};
ghost use Rattle.vr_shown.specs.Showing.{nothing_shown};
ghost use Rattle.vr_shown.specs.declared.shown.Shown.{Shown as Replica};

use crate::machine::{MachineStatus, machine_in, machine_words};
use crate::scans::{BUCKETS, Scan, ScanStatus};
use crate::{machine, scans};
use io_board::{BoardReader, BoardWriter};
use plc_host::{Requests, Traffic};
use std::alloc::{AllocError, Global};
use std::sync::Arc;
use vr_model::MOST_REPLICAS;
use vr_shown::Shown;

/// So many words tell of one replica.
const EACH: usize = vr_shown::WORDS;

/// Where the words begin that tell of the scans.
const SCANS: usize = EACH * MOST_REPLICAS;

/// Where the counts of intervals begin.
const INTERVALS: usize = SCANS + scans::WORDS;

/// So many words a board has.
const WORDS: usize = INTERVALS + BUCKETS;

/// So many words tell of the machine.
const MACHINE: usize = machine::WORDS;

/// What shows of a controller at one moment, and what was counted of its clients by then.
#[derive(Clone, Copy)]
pub struct Status {
    words: [u64; WORDS],
    machine: [u64; MACHINE],
    /// How many connections were given a session.
    pub sessions: u64,
    /// How many of these sessions aren't at their end.
    pub open_sessions: u64,
    /// The requests that were answered.
    pub requests: Requests,
}

impl Status {
    /// What shows of a replica; down and never started where there is none with this number.
    pub fn replica(&self, number: u8) -> Shown
        ensures { (replicas : List Replica) (scans : Scanned) → AreOfGroup replicas
            → self.now.words ≡ status_words replicas scans → result ≡ get_or replicas number nothing_shown }
    {
        let number = usize::from(number);
        if number < MOST_REPLICAS {
            replica_in(&self.words, number)
        } else {
            Shown::nothing()
        }
    }

    /// What shows of the scans.
    pub fn scans(&self) -> ScanStatus
        ensures { (replicas : List Replica) (scans : Scanned) → AreOfGroup replicas → IsPlaced scans
            → self.now.words ≡ status_words replicas scans → result ≡ scans }
    {
        scans_in(&self.words)
    }

    /// What shows of the machine; none where the process is no machine of a group, or has told nothing of it yet.
    pub fn machine(&self) -> Option<MachineStatus>
        ensures { (machine : Option Machine) → IsCounted machine → self.now.machine ≡ machine_words machine
            → result ≡ machine }
    {
        machine_in(self.machine)
    }
}

/// What these words tell of a replica.
fn replica_in(words: &[u64; WORDS], number: usize) -> Shown
    requires { number < 7 }
    ensures { (replicas : List Replica) (scans : Scanned) → AreOfGroup replicas
        → words.now ≡ status_words replicas scans → result ≡ get_or replicas number nothing_shown }
{
    let at = EACH * number;
    let mut part = [0; EACH];
    part.copy_from_slice(&words[at..at + EACH]);
    Shown::from_words(part)
}

/// What these words tell of the scans.
fn scans_in(words: &[u64; WORDS]) -> ScanStatus
    ensures { (replicas : List Replica) (scans : Scanned) → AreOfGroup replicas → IsPlaced scans
        → words.now ≡ status_words replicas scans → result ≡ scans }
{
    let mut counts = [0; scans::WORDS];
    counts.copy_from_slice(&words[SCANS..INTERVALS]);
    let mut intervals = [0; BUCKETS];
    intervals.copy_from_slice(&words[INTERVALS..]);
    ScanStatus::from_words(counts, intervals)
}

/// Has these words tell this of a replica.
fn put_replica(words: &mut [u64; WORDS], number: usize, shown: Shown)
    requires { number < 7 }
    ensures { (replicas : List Replica) (scans : Scanned) → AreOfGroup replicas
        → words.old ≡ status_words replicas scans → words.new ≡ status_words (set replicas number shown) scans }
{
    let at = EACH * number;
    words[at..at + EACH].copy_from_slice(&shown.words());
}

/// Has these words tell this of the scans.
fn put_scans(words: &mut [u64; WORDS], scans: &ScanStatus)
    ensures { (replicas : List Replica) (before : Scanned) → AreOfGroup replicas
        → words.old ≡ status_words replicas before → words.new ≡ status_words replicas scans.now }
{
    words[SCANS..INTERVALS].copy_from_slice(&scans.words());
    words[INTERVALS..].copy_from_slice(&scans.interval_counts);
}

/// Publishes what shows of a group and of its scans. It waits for nobody.
#[derive(Drop)]
pub struct StatusWriter {
    replicas: [Shown; MOST_REPLICAS],
    scans: ScanStatus,
    words: [u64; WORDS],
    board: BoardWriter<WORDS>,
    /// It changes apart from the rest, and seldom.
    machine: BoardWriter<MACHINE>,
    traffic: Arc<Traffic>,
    // What is published next tells of these.
    ghost spelt: { words ≡ status_words replicas scans },
}

/// Reads what was published last. It waits for nobody.
#[derive(Drop)]
pub struct StatusReader {
    board: BoardReader<WORDS>,
    machine: BoardReader<MACHINE>,
    traffic: Arc<Traffic>,
}

impl StatusWriter {
    /// No replica was started, nothing was scanned, and the process is no machine of a group.
    pub fn new(alloc: Global) -> Result<StatusWriter, AllocError>
        ensures { IfOk result
            (λ writer. (writer.replicas ≡ nothing) × (writer.scans ≡ no_scan) × (writer.board ≡ status_words nothing no_scan)
            × (writer.machine ≡ machine_words None)) }
    {
        let words = [0; WORDS];
        Ok(StatusWriter {
            replicas: [Shown::nothing(); MOST_REPLICAS],
            scans: ScanStatus::none(),
            words,
            board: BoardWriter::new(alloc, words)?,
            machine: BoardWriter::new(alloc, machine_words(None))?,
            traffic: Arc::new(alloc, Traffic::new())?,
        })
    }

    /// What counts the sessions and the requests of clients.
    pub fn traffic(&self) -> Result<Arc<Traffic>, AllocError> {
        Arc::try_clone(&self.traffic)
    }

    /// A reader, for any thread.
    pub fn reader(&self) -> Result<StatusReader, AllocError>
        ensures { IfOk result (λ reader. (reader.board ≡ self.now.board) × (reader.machine ≡ self.now.machine)) }
    {
        Ok(StatusReader {
            board: self.board.reader()?,
            machine: self.machine.reader()?,
            traffic: self.traffic()?,
        })
    }

    /// What shows of a replica is this, from the next publish on. Of one that no group has nothing shows.
    pub fn set_replica(&mut self, number: u8, shown: Shown)
        ensures replicas { self.new.replicas ≡ set self.old.replicas number shown }
        ensures same { (self.new.scans ≡ self.old.scans) × (self.new.board ≡ self.old.board)
            × (self.new.machine ≡ self.old.machine) }
    {
        let number = usize::from(number);
        if number < MOST_REPLICAS {
            self.replicas[number] = shown;
            put_replica(&mut self.words, number, shown);
        }
    }

    /// Counts a scan, which shows from the next publish on.
    pub fn scanned(&mut self, scan: Scan)
        ensures scans { self.new.scans ≡ after_scan self.old.scans scan }
        ensures same { (self.new.replicas ≡ self.old.replicas) × (self.new.board ≡ self.old.board)
            × (self.new.machine ≡ self.old.machine) }
    {
        self.scans.scanned(scan);
        put_scans(&mut self.words, &self.scans);
    }

    /// What was set and counted is read from now on.
    pub fn publish(&mut self)
        ensures published { self.new.board ≡ status_words self.old.replicas self.old.scans }
        ensures same { (self.new.replicas ≡ self.old.replicas) × (self.new.scans ≡ self.old.scans)
            × (self.new.machine ≡ self.old.machine) }
    {
        self.board.publish(self.words);
    }

    /// This is read of the machine from now on.
    pub fn set_machine(&mut self, machine: MachineStatus)
        ensures published { self.new.machine ≡ machine_words (Some machine) }
        ensures same { (self.new.replicas ≡ self.old.replicas) × (self.new.scans ≡ self.old.scans)
            × (self.new.board ≡ self.old.board) }
    {
        self.machine.publish(machine_words(Some(machine)));
    }
}

impl StatusReader {
    /// What shows of the controller now: what was published last. Where publishes crossed each try, it's what this
    /// reader read before.
    pub fn read(&mut self) -> Status
        ensures words { result.words ≡ self.new.board }
        ensures machine { result.machine ≡ self.new.machine }
    {
        Status {
            words: self.board.read(),
            machine: self.machine.read(),
            sessions: self.traffic.sessions(),
            open_sessions: self.traffic.open_sessions(),
            requests: self.traffic.requests(),
        }
    }
}
