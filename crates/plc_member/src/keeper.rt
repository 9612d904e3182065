//! What a machine does about the epochs of its group, as its life goes on: it's told what came and when, says what is
//! to be said, and tells when its life is to end.

ghost use Rattle.std.specs.Prelude.{◌≡◌, IfSome, IsTrue, bytes_eq};
ghost use Rattle.plc_member.specs.Keeping.{end_notice, leaving_by, program_of, staying_by};

use crate::held_link::Hold;
use crate::prober::Prober;
use crate::speaker::Speaker;
use net_hello::Epoch;
use net_peers::{Exchange, Machine};
use plc_epochs::{ColdStart, Kept, Moment, RECENT, Told, Visit};
use plc_host::{Host, ServiceRuntime};
use plc_host_core::{EpochAction, EpochKeeper, EpochNotice, LifeEnd, Question};
use plc_status::{GroupNotice, Notice};
use std::net::{Net, SocketAddr, TcpListener, TcpStream};
use std::sync::Arc;
use std::time::Instant;
use std::{io, mem};
use vr_model::MOST_REPLICAS;

/// In milliseconds: so often it looks at what came.
const POLL: Moment = 50;

/// How a life is to end: what the store is to have, and what is told of it.
#[derive(Clone, Copy)]
pub(crate) struct Leaving {
    pub(crate) kept: Kept,
    pub(crate) notice: Option<Notice>,
}

/// What becomes of a machine that has begun no epoch.
#[derive(Clone, Copy)]
pub(crate) enum Waited {
    /// Its store is to have that it begins this epoch.
    Begins(Epoch),
    Leaves(Leaving),
}

/// How far a replica is that is to thaw.
#[derive(Clone, Copy, PartialEq, Eq)]
pub(crate) enum Thaw {
    No,
    /// It's to crash, and to recover under another nonce.
    Wanted,
    /// That was ordered of its thread.
    Ordered,
}

/// What a machine does about the epochs of its group.
#[derive(Drop)]
pub(crate) struct Keeper<R>
where
    R: ServiceRuntime + Net<Listener = TcpListener, Stream = TcpStream>,
{
    pub(crate) host: Host<R>,
    /// Since when its moments are told: its life began then.
    pub(crate) begun: Instant,
    /// What decides what it does.
    pub(crate) epochs: EpochKeeper,
    pub(crate) terms: Terms,
    pub(crate) speaker: Speaker<R>,
    /// When a RECOVERY of each other came last.
    pub(crate) recoveries: Told,
    pub(crate) thaw: Thaw,
    /// When it looked last.
    pub(crate) looked: Option<Moment>,
    pub(crate) prober: Prober,
    /// What is to be told, the earliest first.
    pub(crate) untold: Vec<Notice>,
    /// What was told last of each other machine that is in another epoch.
    stayed: [Option<Notice>; MOST_REPLICAS],
    /// It was told that a machine which it asked is marked.
    has_heard_marked: bool,
}

/// What a machine keeps to, and what it hears by.
#[derive(Drop)]
pub(crate) struct Terms {
    /// More than half of the group's machines are one more than this.
    pub(crate) f: u8,
    /// Whether a cold start may come of it by itself.
    pub(crate) is_automatic: bool,
    pub(crate) hold: Arc<Hold>,
    pub(crate) exchange: Arc<Exchange>,
}

/// Whether so much time has passed since then, if that was at all.
fn is_past(then: Option<Moment>, now: Moment, pause: Moment) -> bool {
    match then {
        Some(then) => now.saturating_sub(then) >= pause,
        None => true,
    }
}

/// What is told of a life that is over for this, and whose store is to have this: the machine was normal in an epoch
/// before, if in any, and heard this of another.
fn end_notice(why: LifeEnd, kept: Kept, heard: Heard) -> Option<Notice>
    ensures { result ≡ end_notice why kept heard }
{
    match (why, kept) {
        (LifeEnd::EpochEnded, Kept::Entered(epoch)) => {
            Some(Notice::ColdStart(heard.f, epoch.number))
        }
        (LifeEnd::LaterHeard, Kept::Entered(epoch)) => Some(Notice::EpochHeard {
            epoch: epoch.number,
            machine: heard.from,
            normal_in: heard.normal_in,
        }),
        // The next life tells that it waits, as each one that begins so.
        _ => None,
    }
}

/// How a life ends by what is to be done about epochs, if it does.
pub(crate) fn leaving_by(action: EpochAction, heard: Heard) -> Option<Leaving>
    ensures { result ≡ leaving_by action heard }
{
    match action {
        EpochAction::Leaves(why, kept) => Some(Leaving {
            kept,
            notice: end_notice(why, kept, heard),
        }),
        _ => None,
    }
}

/// The first bytes of the sum of an epoch's image.
fn program_of(epoch: &Epoch) -> [u8; 8]
    ensures { result ≡ program_of epoch.now }
{
    let mut program = [0; 8];
    program.copy_from_slice(&epoch.image[..8]);
    program
}

/// What is told where a machine stays where it is, though this one is in another epoch.
fn staying_by(action: EpochAction, from: u8) -> Option<Notice>
    ensures { result ≡ staying_by action from }
{
    match action {
        EpochAction::Tells(EpochNotice::Refused(epoch)) => {
            Some(Notice::Group(GroupNotice::EpochRefused {
                epoch: epoch.number,
                machine: from,
                program: program_of(&epoch),
            }))
        }
        EpochAction::Tells(EpochNotice::FarAbove(epoch)) => {
            Some(Notice::Group(GroupNotice::EpochFarAbove {
                epoch: epoch.number,
                machine: from,
            }))
        }
        EpochAction::Tells(EpochNotice::OtherProgram(epoch)) => {
            Some(Notice::OtherProgram(epoch.number))
        }
        _ => None,
    }
}

/// What was said to a machine of the group of this identity, if these bytes are that.
fn visit_in(frame: &[u8], identity: &[u8; 32]) -> Option<Visit>
    ensures { IfSome result (λ visit. IsTrue (bytes_eq visit.identity identity.now)) }
{
    let visit = Visit::read(frame)?;
    let said = visit.identity;
    if &said == identity { Some(visit) } else { None }
}

/// Whether a word is of the machine that has proved that it says it, where there's a key.
fn is_by(visit: &Visit, by: Option<u8>) -> bool {
    match by {
        Some(machine) => machine == visit.from,
        None => true,
    }
}

/// Whether a machine is among these, by bits.
pub(crate) fn is_among(machines: u8, machine: u8) -> bool {
    machine < 8 && machines >> machine & 1 == 1
}

/// What is told of a machine that isn't at its address, if one is missed there.
fn notice_of_missed(missed: Option<u8>, addresses: &[SocketAddr]) -> Option<Notice> {
    let machine = missed?;
    let address = *addresses.get(usize::from(machine))?;
    Some(Notice::Group(GroupNotice::NotAt(machine, address)))
}

/// What a notice of a life's end names beside it.
#[derive(Clone, Copy)]
pub(crate) struct Heard {
    /// More than half of the group's machines are one more than this.
    f: u8,
    /// The machine by whose words it ends.
    from: u8,
    /// The epoch in which the machine was normal before, if in any.
    normal_in: Option<u64>,
}

impl<R> Keeper<R>
where
    R: ServiceRuntime + Net<Listener = TcpListener, Stream = TcpStream>,
{
    /// Of this machine of its group, whose life begins now. The clock is read.
    pub(crate) fn new(
        host: Host<R>,
        cold_start: ColdStart,
        machine: Machine,
        terms: Terms,
    ) -> io::Result<Keeper<R>> {
        let Machine {
            identity,
            number,
            replicas,
            keys,
            ..
        } = machine;
        let speaker = Speaker {
            rt: host.rt,
            alloc: host.alloc,
            identity,
            number,
            keys,
            addresses: replicas,
        };
        Ok(Keeper {
            host,
            begun: Instant::now(&host.rt)?,
            epochs: EpochKeeper::new(cold_start),
            terms,
            speaker,
            recoveries: [None; MOST_REPLICAS],
            thaw: Thaw::No,
            looked: None,
            prober: Prober::new(),
            untold: Vec::new(host.alloc),
            stayed: [None; MOST_REPLICAS],
            has_heard_marked: false,
        })
    }

    /// In milliseconds since its life began. A clock that fails stands at 0: then nothing is due.
    pub(crate) fn now(&self) -> Moment {
        let now = Instant::now(&self.host.rt).unwrap_or(self.begun);
        let since = now.saturating_duration_since(self.begun);
        u64::try_from(since.as_millis()).unwrap_or(u64::MAX)
    }

    /// The time, where it's time to look at what came.
    pub(crate) fn due(&mut self) -> Option<Moment> {
        let now = self.now();
        if !is_past(self.looked, now, POLL) {
            return None;
        }
        self.looked = Some(now);
        Some(now)
    }

    /// The epoch in which its replica takes part, if it does.
    fn normal_in(&self) -> Option<u64> {
        let cold_start = self.epochs.cold_start();
        if cold_start.recovers() {
            return None;
        }
        Some(cold_start.speaks_in()?.number)
    }

    /// What a notice names where its life ends by this machine's words.
    pub(crate) fn heard_from(&self, from: u8) -> Heard {
        Heard {
            f: self.terms.f,
            from,
            normal_in: self.normal_in(),
        }
    }

    /// Hears the hellos that came, until one ends its life.
    pub(crate) fn hear_hellos(&mut self, now: Moment) -> Option<Leaving> {
        for (from, epoch) in self.terms.exchange.hellos(&self.host.rt, self.host.alloc) {
            let heard = self.heard_from(from);
            let action = self.epochs.hear(from, &epoch, now);
            if let Some(leaving) = leaving_by(action, heard) {
                return Some(leaving);
            }
            self.stay(action, from);
        }
        None
    }

    /// Tells why it stays where it is, where that's to be told and wasn't told of this machine last: hellos come
    /// several times a second.
    fn stay(&mut self, action: EpochAction, from: u8) {
        let Some(told) = self.stayed.get_mut(usize::from(from)) else {
            return;
        };
        let notice = staying_by(action, from);
        if notice.is_some() && *told != notice {
            *told = notice;
            self.tell(notice);
        }
    }

    /// This is to be told, if anything is. What there is no memory for is lost.
    fn tell(&mut self, notice: Option<Notice>) {
        if let Some(notice) = notice {
            let _ = self.untold.push(notice);
        }
    }

    /// What is to be told, the earliest first. It's told then.
    pub(crate) fn take_untold(&mut self) -> Vec<Notice> {
        mem::replace(&mut self.untold, Vec::new(self.host.alloc))
    }

    /// Tries whether other machines are at their addresses.
    pub(crate) fn probe(&mut self, now: Moment) {
        let connected = self.terms.exchange.reached();
        let Keeper {
            host,
            speaker,
            prober,
            ..
        } = self;
        let missed = prober.look(&host.rt, speaker.addresses.as_slice(), connected, now);
        let notice = notice_of_missed(missed, self.speaker.addresses.as_slice());
        self.tell(notice);
    }

    /// Looks at what came, of a machine that has begun no epoch: it says nothing but hello, and what is said to it is
    /// lost.
    pub(crate) fn wait(&mut self) -> Option<Waited> {
        let now = self.due()?;
        self.probe(now);
        let _ = self.words();
        if let Some(leaving) = self.hear_hellos(now) {
            return Some(Waited::Leaves(leaving));
        }
        match self.epochs.look(now) {
            EpochAction::Keeps(Kept::Begun(epoch)) => Some(Waited::Begins(epoch)),
            _ => None,
        }
    }

    /// What was said to it by machines of its group. What there is no memory for is lost.
    pub(crate) fn words(&self) -> Vec<Visit> {
        let mut words = Vec::new(self.host.alloc);
        for visited in self.terms.exchange.visits(&self.host.rt, self.host.alloc) {
            match visit_in(visited.bytes.as_slice(), &self.speaker.identity) {
                Some(visit) if is_by(&visit, visited.by) => {
                    let _ = words.push(visit);
                }
                _ => {}
            }
        }
        words
    }

    /// Notes which machines are near, over connections of this epoch.
    pub(crate) fn note_signs(&mut self, epoch: &Epoch, now: Moment) {
        let near = self.terms.exchange.near();
        for number in 0..MOST_REPLICAS as u8 {
            if is_among(near, number) {
                let _ = self.epochs.hear_sign(number, epoch, now);
            }
        }
    }

    /// Tells once that a machine which it asked is marked: a cold start takes a person.
    pub(crate) fn hear_marked(&mut self, epoch: &Epoch) {
        if !self.has_heard_marked {
            self.has_heard_marked = true;
            self.tell(Some(Notice::ProgramChanged(epoch.number)));
        }
    }

    /// Notes whose RECOVERY came.
    pub(crate) fn note_recoveries(&mut self, epoch: &Epoch, now: Moment) {
        let came = self.terms.hold.recoveries();
        for number in 0..self.recoveries.len() {
            if came >> number & 1 == 1 {
                self.recoveries[number] = Some(now);
                let _ = self.epochs.hear_recovery(number as u8, epoch, now);
            }
        }
    }

    /// Whether RECOVERY of so many others came just now that it may ask.
    pub(crate) fn others_recover(&self, now: Moment) -> bool {
        let recent = |came: &&Option<Moment>| match came {
            Some(came) => now.saturating_sub(*came) <= RECENT,
            None => false,
        };
        usize::from(self.terms.f) <= self.recoveries.iter().filter(recent).count()
    }

    /// Says again what it asks, where it's time to.
    pub(crate) fn ask(&mut self, now: Moment) {
        if let Some(Question { epoch, word }) = self.epochs.take_question(now) {
            let connected = self.terms.exchange.reached();
            self.speaker.say_to_all(connected, epoch, word);
        }
    }
}
