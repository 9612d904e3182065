//! A console's room: sessions of several clients at once, of which one at a time has the desk.

use crate::front::{TellsWithoutDesk, answer_without_desk};
use crate::key::{first_line, is_key};
use crate::others::tries;
use crate::service::Workplace;
use crate::session::SessionEnd;
use crate::telling::status_line;
use il_loader::Image;
use il_model::Snapshot;
use io_model::{Counted, write_all};
use plc_host::Host;
use plc_json::Question;
use plc_listener::{Connection, Guest, Session};
use plc_sight::SnapshotBoard;
use plc_status::{DoorNotice, Doorway, Notice, StatusReader};
use plc_values::{values, watched};
use std::alloc::{AllocError, Global};
use std::ops::Range;
use std::sync::atomic::{AtomicBool, Ordering};
use std::sync::{Arc, Mutex, Wait};
use std::thread;
use std::time::{Clock, Duration};
use vr_ports::Link;

/// In milliseconds: so long whoever tells a wrong key waits for the answer.
const PENANCE: u64 = 1000;

/// So often it's looked whether the desk is free: its session may wait for an answer.
const TRIES: u32 = 2000;

/// In milliseconds, from one look to the next.
const PAUSE: u64 = 5;

/// What is told of a controller of which no replica leaves a snapshot just now.
const NO_VALUES: &[u8] = b"plc: no values\n";

/// How a session ends, by what its client is told last.
#[derive(Clone, Copy, PartialEq, Eq)]
pub(crate) enum Parting {
    /// Nothing: he has gone, or nothing can be told.
    Quiet,
    /// He didn't tell the key.
    NoKey,
    /// He sent lines that no operator sends.
    Dismissed,
    /// Another one took his place.
    TakenOver,
    /// The desk is another one's, whose command waits.
    Busy,
    /// The controller isn't known: its machine's replica takes no part just now.
    Unknown,
    /// His command was given up, since there's no majority.
    NoMajority,
}

impl Parting {
    /// What the client is told.
    fn text(self) -> &'static [u8] {
        match self {
            Parting::Quiet => b"",
            Parting::NoKey => b"plc: key\n",
            Parting::Dismissed => b"plc: session ends\n",
            Parting::TakenOver => b"plc: taken over\n",
            Parting::Busy => b"plc: another command waits\n",
            Parting::Unknown => b"plc: replica not normal\n",
            Parting::NoMajority => b"plc: no majority\n",
        }
    }
}

/// What shows of the controller, for whoever asks how it is.
#[derive(Drop)]
pub(crate) struct Shown {
    pub(crate) status: Mutex<StatusReader>,
    /// The replicas of which it's told.
    pub(crate) replicas: Range<u8>,
    /// Where one of them leaves a snapshot of the controller, if one does.
    pub(crate) sight: Option<Arc<SnapshotBoard>>,
}

impl Shown {
    /// The line that tells how the controller is.
    pub(crate) fn line<R: Wait>(&self, rt: &R, alloc: Global) -> Result<Vec<u8>, AllocError> {
        let status = self.status.lock(rt).read();
        let replicas = self.replicas.start..self.replicas.end;
        Ok(status_line(alloc, &status, replicas)?.into_bytes())
    }

    /// A snapshot of the controller that is newer than this call, if it's to be had.
    fn snapshot<R: Wait + Clock>(&self, rt: &R) -> Option<Snapshot> {
        match &self.sight {
            Some(sight) => sight.get(rt, tries(self.takes_part(rt))),
            None => None,
        }
    }

    /// The line that tells what the controller has: all of it, or what these names are.
    fn seen<R: Wait + Clock + Copy>(
        &self,
        host: &Host<R>,
        names: Option<&[String]>,
    ) -> Result<Vec<u8>, AllocError> {
        let Some(snapshot) = self.snapshot(&host.rt) else {
            return Vec::from_slice(host.alloc, NO_VALUES);
        };
        let text = match names {
            Some(names) => watched(host.alloc, snapshot, names),
            None => values(host.alloc, snapshot),
        };
        match text {
            Some(text) => Ok(text),
            None => Vec::from_slice(host.alloc, NO_VALUES),
        }
    }

    /// The line that answers a question for which no desk is needed; none where one is.
    pub(crate) fn answer<R: Wait + Clock + Copy>(
        &self,
        host: &Host<R>,
        question: &Question,
    ) -> Result<Option<Vec<u8>>, AllocError> {
        let line = match question {
            Question::Status => self.line(&host.rt, host.alloc)?,
            Question::Values => self.seen(host, None)?,
            Question::Watch(names) => self.seen(host, Some(names.as_slice()))?,
            _ => return Ok(None),
        };
        Ok(Some(line))
    }

    /// Whether the first of the replicas takes part.
    pub(crate) fn takes_part<R: Wait>(&self, rt: &R) -> bool {
        let status = self.status.lock(rt).read();
        status.replica(self.replicas.start).is_normal()
    }
}

/// What tells a session how the controller is, and what it has.
#[derive(Drop)]
struct Teller<'a, R: Copy> {
    host: Host<R>,
    shown: &'a Shown,
}

impl<R: Wait + Clock + Copy> TellsWithoutDesk for Teller<'_, R> {
    fn answer(&mut self, question: &Question) -> Result<Option<Vec<u8>>, AllocError> {
        self.shown.answer(&self.host, question)
    }
}

/// The desk, and who has it.
#[derive(Drop)]
pub(crate) struct Room<R: Copy + Drop, L: Drop> {
    /// None while a session has it.
    pub(crate) workplace: Mutex<Option<Workplace<R, L>>>,
    /// The client whose session has it.
    pub(crate) holder: Mutex<Option<Guest>>,
    pub(crate) shown: Arc<Shown>,
    /// The word that a client tells first, if one is asked for.
    pub(crate) key: Option<Vec<u8>>,
    /// A client was refused while the desk was another one's, and that isn't noted yet.
    pub(crate) has_refused: AtomicBool,
}

impl<R: Wait + Clock + Copy + Drop, L: Link + Drop> Room<R, L> {
    /// Has the client tell the key first, if one is asked for: whether he did.
    fn is_admitted(&self, host: &Host<R>, connection: &Connection<'_, R>) -> bool {
        let Some(key) = &self.key else {
            return true;
        };
        match first_line(host.alloc, &mut Counted::new(connection)) {
            Some(line) if is_key(key.as_slice(), line.as_slice()) => {
                write_all(&mut Counted::new(connection), b"done\n").is_ok()
            }
            _ => {
                thread::sleep(&host.rt, Duration::from_millis(PENANCE));
                false
            }
        }
    }

    /// Has whoever has the desk give way.
    fn dismiss(&self, rt: &R) {
        if let Some(holder) = &*self.holder.lock(rt) {
            holder.dismiss();
        }
    }

    /// The desk for this client, who takes it over: none where it isn't free after a while, since a command waits.
    fn enter(&self, rt: &R, guest: Guest) -> Option<Workplace<R, L>> {
        self.dismiss(rt);
        for _ in 0..TRIES {
            let workplace = self.workplace.lock(rt).take();
            if workplace.is_some() {
                *self.holder.lock(rt) = Some(guest);
                return workplace;
            }
            thread::sleep(rt, Duration::from_millis(PAUSE));
        }
        None
    }

    /// Notes this, unless a session has the desk.
    fn note(&self, rt: &R, notice: Notice) {
        if let Some(workplace) = &mut *self.workplace.lock(rt) {
            workplace.note(notice);
        }
    }

    /// Notes that a client was refused; where another one has the desk, once he leaves it.
    fn note_refusal(&self, rt: &R) {
        match &mut *self.workplace.lock(rt) {
            Some(workplace) => workplace.note(Notice::ConsoleRefused),
            None => self.has_refused.store(true, Ordering::SeqCst),
        }
    }

    /// The desk is free again.
    fn leave(&self, rt: &R, workplace: Workplace<R, L>) {
        let mut workplace = workplace;
        if self.has_refused.swap(false, Ordering::SeqCst) {
            workplace.note(Notice::ConsoleRefused);
        }
        *self.holder.lock(rt) = None;
        *self.workplace.lock(rt) = Some(workplace);
    }

    /// Has a session at the desk, which begins by these lines.
    fn work(&self, host: &Host<R>, connection: &Connection<'_, R>, lines: &[u8]) -> Parting {
        let Ok(guest) = connection.guest() else {
            return Parting::Quiet;
        };
        let Some(mut workplace) = self.enter(&host.rt, guest) else {
            return Parting::Busy;
        };
        let parting = workplace.serve(host, connection, lines);
        self.leave(&host.rt, workplace);
        parting
    }
}

/// What one client at a time is served with.
#[derive(Drop)]
pub(crate) struct Seat<R: Copy + Drop, L: Drop> {
    pub(crate) room: Arc<Room<R, L>>,
    /// By its program it's told what is a command.
    pub(crate) image: Image,
    pub(crate) host: Host<R>,
    /// Where its client came in.
    pub(crate) doorway: Doorway,
}

impl<R: Wait + Clock + Copy + Drop, L: Link + Drop> Seat<R, L> {
    /// Serves a client: without the desk for as long as he only asks how the controller is.
    fn attend(&self, host: &Host<R>, connection: &Connection<'_, R>) -> Parting {
        let room = &self.room;
        if !room.is_admitted(host, connection) {
            room.note_refusal(&host.rt);
            return Parting::NoKey;
        }
        let mut teller = Teller {
            host: *host,
            shown: &room.shown,
        };
        let lines = answer_without_desk(
            host,
            &self.image,
            &mut Counted::new(connection),
            &mut Counted::new(connection),
            &mut teller,
        );
        match lines {
            Ok(lines) => room.work(host, connection, lines.as_slice()),
            Err(SessionEnd::Dismissed) => {
                room.note_refusal(&host.rt);
                Parting::Dismissed
            }
            Err(_) => Parting::Quiet,
        }
    }
}

impl<R: Wait + Clock + Copy + Drop, L: Link + Drop> Session<R> for Seat<R, L> {
    fn serve(&mut self, host: &Host<R>, connection: &Connection<'_, R>) {
        let parting = self.attend(host, connection);
        let parting = match parting {
            Parting::Quiet if connection.has_given_way() => Parting::TakenOver,
            parting => parting,
        };
        let _ = write_all(&mut Counted::new(connection), parting.text());
    }

    fn hear_of_door(&mut self, is_had: bool) {
        let notice = Notice::Door(DoorNotice {
            doorway: self.doorway,
            is_had,
        });
        self.room.note(&self.host.rt, notice);
    }
}
