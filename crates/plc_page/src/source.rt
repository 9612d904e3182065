//! Where what shows is read.

ghost use Rattle.std.specs.Prelude.{◌≡◌, ◌≤◌, ◌+◌, IfOk, get_or, map, pos, vec_len};
ghost use Rattle.plc_page.specs.Sources.{halt_of, point_at, replica_of, shown, shows_outputs, value_at};
ghost use Rattle.plc_page.specs.Sources.{AreOfStatus, IsOfClients, IsOfScans};

use crate::notices::Notices;
use crate::outputs::Named;
use crate::process::ProcessFiles;
use crate::whose::Whose;
use il_model::{Cells, Loc, Value, word_value};
use io_image::{Naming, ReleasedReader};
use plc_figures::{Clients, Halt, Machine, Point, Reading, Replica, Scans};
use plc_host::Host;
use plc_sight::SnapshotBoard;
use plc_status::{ScanStatus, Status, StatusReader};
use std::alloc::{AllocError, Global};
use std::ops::Range;
use std::sync::atomic::{AtomicBool, Ordering};
use std::sync::{Arc, Wait};
use std::time::{Clock, Duration, Instant};
use vr_shown::Shown;

/// What shows is read from these. None of them is waited for by whoever scans.
#[derive(Drop)]
pub(crate) struct Source<J: Naming> {
    pub(crate) status: StatusReader,
    pub(crate) released: ReleasedReader<J>,
    pub(crate) outputs: Vec<Named>,
    pub(crate) whose: Whose,
    /// From when the moments of the scans count.
    pub(crate) begun: Instant,
    /// So long ago the last release began at most, where nothing is wrong.
    pub(crate) longest_age: Duration,
    /// The program may be another one than that whose outputs these are.
    pub(crate) has_changed: Arc<AtomicBool>,
    /// Where a replica leaves what it has for those who want to see it.
    pub(crate) sight: Arc<SnapshotBoard>,
    pub(crate) notices: Arc<Notices>,
    pub(crate) process: Option<ProcessFiles>,
}

/// What shows at one moment, and whether the program is the one that was served at first.
#[derive(Drop)]
pub(crate) struct Taken {
    pub(crate) reading: Reading,
    pub(crate) is_in_force: bool,
}

/// The word of that number among these cells.
fn word_at(cells: &Cells, number: usize) -> i16
    ensures { result ≡ get_or cells.now.words number (pos 0) }
{
    match cells.words.get(number) {
        Some(word) => *word,
        None => 0,
    }
}

/// What there is at a place among these cells.
fn value_at(cells: &Cells, place: Loc) -> Value
    ensures { result ≡ value_at cells.now place }
{
    match place {
        Loc::Bit(_, number) => match cells.bits.get(usize::from(number)) {
            Some(bit) => Value::Bool(*bit),
            None => Value::Bool(false),
        },
        Loc::Word(_, number) => Value::Int(word_at(cells, usize::from(number))),
        Loc::Pattern(_, number) => word_value(word_at(cells, usize::from(number))),
        Loc::Double(_, number, ty) => {
            let high = word_at(cells, usize::from(number));
            let low = word_at(cells, usize::from(number) + 1);
            ty.value(high, low)
        }
    }
}

/// A name with what there is at its place.
fn point(alloc: Global, named: &Named, cells: &Cells) -> Result<Point, AllocError>
    ensures { IfOk result (λ point. shown point ≡ point_at cells.now named.now) }
{
    Ok(Point {
        name: Vec::from_slice(alloc, named.name.as_slice())?,
        place: named.place,
        value: value_at(cells, named.place),
    })
}

/// Each name with what there is at its place, in their order.
fn points(alloc: Global, names: &[Named], cells: &Cells) -> Result<Vec<Point>, AllocError>
    ensures { IfOk result (λ points. map shown points.items ≡ map (point_at cells.now) names.now) }
{
    let mut points = Vec::with_capacity(alloc, names.len())?;
    for named in names {
        points.push(point(alloc, named, cells)?)?;
    }
    Ok(points)
}

/// By what a scan was held or stopped, if it was.
fn halt_of(halt: Option<plc_status::Halt>) -> Option<Halt>
    ensures { result ≡ halt_of halt }
{
    match halt? {
        plc_status::Halt::Held(position) => Some(Halt::Held(position)),
        plc_status::Halt::Stopped(stop, position) => Some(Halt::Stopped(stop, position)),
    }
}

/// The scans, by how long ago the last release began.
fn scans_of(scans: &ScanStatus, age: Option<Duration>, longest_age: Duration) -> Scans
    ensures { IsOfScans scans.now result }
{
    Scans {
        scans: scans.scans,
        late: scans.late,
        releases: scans.releases,
        interval: scans.interval,
        interval_sum: scans.interval_sum,
        interval_counts: scans.interval_counts,
        age: age.map(microseconds),
        is_fresh: age.is_some_and(|age| age <= longest_age),
        halt: halt_of(scans.halt),
    }
}

/// A time in whole microseconds.
fn microseconds(time: Duration) -> u64 {
    u64::try_from(time.as_micros()).unwrap_or(u64::MAX)
}

/// What shows of the replica with this number.
fn replica_of(number: u8, shown: Shown) -> Replica
    ensures { result ≡ replica_of number shown }
{
    Replica {
        number,
        standing: shown.standing,
        starts: shown.starts,
        has_failed: shown.has_failed,
    }
}

/// What shows of each of the replicas from this number on, up to that one, in their order.
fn replicas_of(
    alloc: Global,
    status: &Status,
    first: u8,
    end: u8,
) -> Result<Vec<Replica>, AllocError>
    requires { first ≤ end }
    ensures { IfOk result (λ replicas. (first + vec_len replicas ≡ end) × AreOfStatus status.now first replicas.items) }
{
    let mut replicas = Vec::with_capacity(alloc, usize::from(end - first))?;
    for number in first..end {
        replicas.push(replica_of(number, status.replica(number)))?;
    }
    Ok(replicas)
}

/// What clients did, as it's counted.
fn clients_of(status: &Status) -> Clients
    ensures { IsOfClients status.now result }
{
    Clients {
        sessions: status.sessions,
        open_sessions: status.open_sessions,
        functions: status.requests.functions,
        exceptions: status.requests.exceptions,
    }
}

/// Whether outputs that were released here are those of the controller: of a machine that stands by they aren't.
fn shows_outputs(machine: Option<Machine>) -> bool
    ensures { result ≡ shows_outputs machine }
{
    match machine {
        Some(machine) => machine.is_driving,
        None => true,
    }
}

impl<J: Naming> Source<J> {
    /// How long ago the scan began that released outputs last, if there was one.
    fn age<R: Clock>(&self, rt: &R, scans: &ScanStatus) -> Option<Duration> {
        if scans.releases == 0 {
            return None;
        }
        let now = Instant::now(rt).ok()?;
        let lasted = now.saturating_duration_since(self.begun);
        Some(lasted.saturating_sub(Duration::from_micros(scans.released_at)))
    }

    /// What shows now.
    pub(crate) fn read<R: Clock + Wait + Copy>(
        &mut self,
        host: &Host<R>,
    ) -> Result<Taken, AllocError> {
        let Host { rt, alloc } = *host;
        let status = self.status.read();
        let scans = status.scans();
        let image = self.released.read().image;
        // Behind the image: a program that isn't the first one has released nothing before it's set.
        let is_in_force = !self.has_changed.load(Ordering::SeqCst);
        let machine = self.whose.machine(status.machine());
        let outputs = if is_in_force && shows_outputs(machine) {
            points(alloc, self.outputs.as_slice(), &image.cells)?
        } else {
            Vec::new(alloc)
        };
        let process = match &mut self.process {
            Some(files) => files.read(),
            None => None,
        };
        let Range { start, end } = self.whose.replicas();
        let reading = Reading {
            machine,
            replicas: replicas_of(alloc, &status, start, end)?,
            scans: scans_of(&scans, self.age(&rt, &scans), self.longest_age),
            clients: clients_of(&status),
            process,
            forces: self.sight.forces(),
            inputs: Vec::new(alloc),
            outputs,
            notices: self.notices.last(&rt)?,
        };
        Ok(Taken {
            reading,
            is_in_force,
        })
    }
}
