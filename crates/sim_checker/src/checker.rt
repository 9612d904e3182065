//! What has to hold of a run: one history in each epoch, released outputs by the table, inputs and moments that never
//! fall, and reads that never go back. The first thing that's wrong is kept.

ghost use Rattle.std.specs.Prelude.{◌≡◌};
ghost use Rattle.sim_checker.specs.Verdicts.{first_of};

use crate::history::{History, moment_of};
use crate::verdicts::{Point, Submitted, Wrong, is_before};
use il_loader::Image;
use il_model::{Budget, OutImage};
use io_image::Release;
use net_hello::Epoch;
use std::alloc::{AllocError, Global};
use std::mem;
use vr_model::{Body, Message, Request, Standing, Status};
use vr_replica::Replica;

/// An entry of a log that its replica had not executed.
#[derive(Drop)]
struct Shadow {
    place: u64,
    request: Request,
}

/// How a replica stood, and how far its log was.
#[derive(Clone, Copy, PartialEq, Eq)]
struct Look {
    standing: Standing,
    entries: u64,
    commit: u64,
}

/// What was seen of a machine's replica.
#[derive(Drop)]
struct Watched {
    /// At the last look, if there was one.
    look: Option<Look>,
    /// So many entries of it were checked.
    seen: u64,
    /// Those that it had not executed at the last look: a checkpoint may stand for them at the next one.
    shadows: Vec<Shadow>,
}

/// Checks a run.
#[derive(Drop)]
pub struct Checker {
    alloc: Global,
    image: Image,
    budget: Budget,
    counter: Option<u16>,
    /// Of the last epochs.
    histories: Vec<History>,
    /// By machine.
    watched: Vec<Watched>,
    /// The last place that was read.
    read: Option<Point>,
    pub wrong: Option<Wrong>,
    pub entries: u64,
    pub scans: u64,
    /// The greatest number of an epoch.
    pub epoch: u64,
}

/// So many histories are kept, of the last epochs: none is looked at that is older.
const MOST: usize = 16;

/// How a replica stands.
fn look_at(replica: &Replica) -> Look {
    Look {
        standing: replica.standing(),
        entries: replica.op_number(),
        commit: replica.commit(),
    }
}

/// The entries of a replica that it has not executed.
fn shadows_of(alloc: Global, replica: &Replica) -> Result<Vec<Shadow>, AllocError> {
    let mut shadows = Vec::new(alloc);
    for place in replica.commit()..replica.op_number() {
        if let Some(request) = replica.entry(place) {
            let request = request.copy(alloc)?;
            shadows.push(Shadow { place, request })?;
        }
    }
    Ok(shadows)
}

/// The first thing that is wrong, where something may have been before.
fn first_of(before: Option<Wrong>, wrong: Option<Wrong>) -> Option<Wrong>
    ensures { result ≡ first_of before wrong }
{
    match before {
        Some(_) => before,
        None => wrong,
    }
}

/// Of so many machines nothing was seen.
fn unwatched(alloc: Global, size: u8) -> Result<Vec<Watched>, AllocError> {
    let mut watched = Vec::new(alloc);
    for _ in 0..size {
        watched.push(Watched {
            look: None,
            seen: 0,
            shadows: Vec::new(alloc),
        })?;
    }
    Ok(watched)
}

impl Checker {
    /// Of so many machines that run this program. Clients count their writes in two words of the inputs, of which
    /// `counter` is the first: without it, it isn't checked that inputs never fall.
    pub fn new(
        alloc: Global,
        image: &Image,
        budget: Budget,
        size: u8,
        counter: Option<u16>,
    ) -> Result<Checker, AllocError> {
        let watched = unwatched(alloc, size)?;
        Ok(Checker {
            alloc,
            image: image.copy(alloc)?,
            budget,
            counter,
            histories: Vec::new(alloc),
            watched,
            read: None,
            wrong: None,
            entries: 0,
            scans: 0,
            epoch: 0,
        })
    }

    /// This is wrong. What was before stays.
    pub fn note(&mut self, wrong: Wrong) {
        self.wrong = first_of(self.wrong, Some(wrong));
    }

    /// The place of an epoch's history, if it has begun.
    fn place_of(&self, epoch: &Epoch) -> Option<usize> {
        for (place, history) in self.histories.iter().enumerate() {
            if history.epoch == *epoch {
                return Some(place);
            }
        }
        None
    }

    /// The place of an epoch's history, which begins where there is none.
    fn history_of(&mut self, epoch: &Epoch) -> Result<usize, AllocError> {
        match self.place_of(epoch) {
            Some(place) => Ok(place),
            None => self.begin_history(epoch),
        }
    }

    /// An epoch's history begins: its place.
    fn begin_history(&mut self, epoch: &Epoch) -> Result<usize, AllocError> {
        let (image, counter) = (&self.image, self.counter);
        let history = History::new(self.alloc, *epoch, image, self.budget, counter)?;
        self.histories.push(history)?;
        self.epoch = self.epoch.max(epoch.number);
        if self.histories.len() > MOST {
            drop(self.histories.remove(0));
        }
        Ok(self.histories.len() - 1)
    }

    /// A machine submits this now, in microseconds: moments go no faster than time.
    pub fn submitted(
        &mut self,
        epoch: &Epoch,
        message: &Message,
        now: u64,
    ) -> Result<(), AllocError> {
        let Body::Request(request) = &message.body else {
            return Ok(());
        };
        let Some(moment) = moment_of(&request.command) else {
            return Ok(());
        };
        let place = self.history_of(epoch)?;
        if let Some(history) = self.histories.get_mut(place) {
            let wrong = history.submitted(Submitted { at: now, moment });
            self.wrong = first_of(self.wrong, wrong);
        }
        Ok(())
    }

    /// Looks at what the replica of a machine has executed, behind a step of it.
    pub fn look(
        &mut self,
        machine: u8,
        epoch: &Epoch,
        replica: &Replica,
    ) -> Result<(), AllocError> {
        if replica.standing().status == Status::Down {
            self.forget(machine);
            return Ok(());
        }
        let look = look_at(replica);
        if self.is_seen(machine, look) {
            return Ok(());
        }
        let commit = look.commit;
        let (seen, shadows) = self.take_watched(machine, commit);
        if seen < commit {
            let at = self.history_of(epoch)?;
            for place in seen..commit {
                self.compare(at, place, replica.entry(place), &shadows)?;
            }
        }
        let shadows = shadows_of(self.alloc, replica)?;
        if let Some(watched) = self.watched.get_mut(usize::from(machine)) {
            watched.look = Some(look);
            watched.seen = commit;
            watched.shadows = shadows;
        }
        Ok(())
    }

    /// Whether a replica stood so at the last look, with as long a log: then that is the same.
    fn is_seen(&self, machine: u8, look: Look) -> bool {
        match self.watched.get(usize::from(machine)) {
            Some(watched) => watched.look == Some(look),
            None => false,
        }
    }

    /// How many entries of a replica were checked, of which it has executed so many now, and those that it hadn't.
    fn take_watched(&mut self, machine: u8, commit: u64) -> (u64, Vec<Shadow>) {
        let none = Vec::new(self.alloc);
        match self.watched.get_mut(usize::from(machine)) {
            Some(watched) => {
                let shadows = mem::replace(&mut watched.shadows, none);
                (watched.seen.min(commit), shadows)
            }
            None => (commit, none),
        }
    }

    /// Compares an entry that a replica executed with the history, where it still keeps it. A checkpoint stands for one
    /// that it doesn't: that was seen before it was executed.
    fn compare(
        &mut self,
        at: usize,
        place: u64,
        entry: Option<&Request>,
        shadows: &Vec<Shadow>,
    ) -> Result<(), AllocError> {
        let Some(history) = self.histories.get_mut(at) else {
            return Ok(());
        };
        let have = history.len();
        let request = match entry {
            Some(request) => {
                if place < have && !history.has(place, request) {
                    self.note(Wrong::TwoHistories);
                }
                Some(request)
            }
            None => shadow_at(shadows, place),
        };
        if place < have {
            return Ok(());
        }
        match request {
            Some(request) if place == have => self.extend(at, request),
            _ => {
                self.note(Wrong::Unseen);
                Ok(())
            }
        }
    }

    /// This is the next entry of a history.
    fn extend(&mut self, at: usize, request: &Request) -> Result<(), AllocError> {
        let Some(history) = self.histories.get_mut(at) else {
            return Ok(());
        };
        let wrong = history.add(self.alloc, request)?;
        self.wrong = first_of(self.wrong, wrong);
        self.entries = self.entries.saturating_add(1);
        if moment_of(&request.command).is_some() {
            self.scans = self.scans.saturating_add(1);
        }
        Ok(())
    }

    /// The replica of a machine is gone, or new.
    pub fn forget(&mut self, machine: u8) {
        if let Some(watched) = self.watched.get_mut(usize::from(machine)) {
            watched.look = None;
            watched.seen = 0;
        }
    }

    /// Where a release stands that this client asked for.
    pub fn released(
        &mut self,
        epoch: &Epoch,
        client: u8,
        release: &Release,
    ) -> Result<Point, AllocError> {
        let at = self.history_of(epoch)?;
        let place = match self.histories.get(at) {
            Some(history) => history.released(client, release.number, &release.image),
            None => None,
        };
        if place.is_none() {
            self.note(Wrong::OtherOutput);
        }
        Ok(Point {
            epoch: epoch.number,
            place: place.unwrap_or(0),
        })
    }

    /// A client read this release.
    pub fn read(&mut self, point: Point) {
        match self.read {
            Some(most) if is_before(point, most) => self.note(Wrong::ReadWentBack),
            _ => self.read = Some(point),
        }
    }
}

/// The entry at a place, among these.
fn shadow_at(shadows: &Vec<Shadow>, place: u64) -> Option<&Request> {
    for shadow in shadows {
        if shadow.place == place {
            return Some(&shadow.request);
        }
    }
    None
}
