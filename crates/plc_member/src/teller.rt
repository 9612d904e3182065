//! What a machine tells its operator: what its journal notes, and what its status shows.

ghost use Rattle.std.specs.Prelude.{◌≡◌, not};
ghost use Rattle.plc_member.specs.Watching.{IsNoted, notice_of_port};
ghost use Rattle.plc_member.specs.Hearing.{by_hand_notice, is_missing, lacking_after, majority_notice};
ghost use Rattle.plc_status.specs.Scans.{IsHaltNoted};

use crate::by_hand::by_hand_notice;
use crate::majority::Majority;
use crate::port::Turn;
use crate::watch::{Watch, note, told_of};
use net_peers::Exchange;
use plc_host::{Host, ServiceRuntime};
use plc_status::{Halt, Journal, MachineStatus, Notice, Scan, StatusWriter, note_halt};
use std::sync::Arc;
use std::time::{Duration, Instant};
use vr_shown::Shown;

/// When a scan was submitted.
#[derive(Clone, Copy)]
pub(crate) struct Submitted {
    pub(crate) at: Instant,
    /// The same since the machine began.
    pub(crate) since: Duration,
    /// It came a period late or more.
    pub(crate) is_late: bool,
}

impl Submitted {
    /// Of a machine that began then, and has submitted nothing.
    pub(crate) fn at_the_start(begun: Instant) -> Submitted {
        Submitted {
            at: begun,
            since: Duration::from_millis(0),
            is_late: false,
        }
    }
}

/// Whom a teller tells of.
#[derive(Drop)]
pub(crate) struct ToTell {
    /// Of its machine.
    pub(crate) number: u8,
    /// In which that takes part.
    pub(crate) epoch: u64,
    /// So many other machines its group has.
    pub(crate) others: u8,
    /// What the links of the machine's own parties tell.
    pub(crate) exchange: Arc<Exchange>,
}

/// What a machine tells its operator.
#[derive(Drop)]
pub(crate) struct Teller {
    /// Of its machine.
    number: u8,
    /// What the links of the machine's own parties tell.
    exchange: Arc<Exchange>,
    watch: Watch,
    majority: Majority,
    journal: Journal,
    status: StatusWriter,
    /// What shows of the machine.
    machine: MachineStatus,
    /// By what the last scan was held or stopped, if it was.
    halt: Option<Halt>,
    /// The view in which it was told that the port isn't to be had.
    refused_in: Option<u64>,
    /// It was told that the trace can't be written.
    is_untraced: bool,
    /// It was told that the machine waits for its operator.
    is_told_by_hand: bool,
}

/// A time in whole microseconds.
fn microseconds(time: Duration) -> u64 {
    u64::try_from(time.as_micros()).unwrap_or(u64::MAX)
}

/// How many replicas these bits stand for.
fn count_of(replicas: u8) -> u8 {
    u8::try_from(replicas.count_ones()).unwrap_or(u8::MAX)
}

/// What is told of a port that took this turn in this view, where it was told before that it isn't to be had in that
/// one.
fn notice_of_port(turn: Turn, view: u64, refused_in: Option<u64>) -> Option<Notice>
    ensures { result ≡ notice_of_port turn view refused_in }
{
    match turn {
        Turn::Same => None,
        Turn::Opened => Some(Notice::Driving(view)),
        Turn::Closed => Some(Notice::Stale(view)),
        Turn::Refused if refused_in == Some(view) => None,
        Turn::Refused => Some(Notice::NoPort(view)),
    }
}

impl Teller {
    /// Of this machine, which stands by. Nothing was told.
    pub(crate) fn new(told: ToTell, journal: Journal, mut status: StatusWriter) -> Teller {
        let ToTell {
            number,
            epoch,
            others,
            exchange,
        } = told;
        let machine = MachineStatus {
            epoch,
            is_driving: false,
            heard: 0,
            others,
            has_majority: true,
            forged: 0,
        };
        status.set_machine(machine);
        Teller {
            number,
            exchange,
            watch: Watch::new(),
            majority: Majority::new(),
            journal,
            status,
            machine,
            halt: None,
            refused_in: None,
            is_untraced: false,
            is_told_by_hand: false,
        }
    }

    /// Follows what the machine's own replica shows.
    pub(crate) fn look(&mut self, shown: Shown, now: Duration) {
        self.status.set_replica(self.number, shown);
        self.status.publish();
        self.watch.look(shown, now, &mut self.journal);
        if shown.has_failed {
            self.journal.put(Notice::Store(self.number));
        }
        let heard = count_of(self.exchange.near());
        self.look_around(heard, now);
    }

    /// So many other machines are heard now: notes whether a majority is, where that changed, and shows it.
    fn look_around(&mut self, heard: u8, now: Duration)
        ensures missing { self.new.majority.is_missing
            ≡ is_missing (lacking_after self.old.majority.lacking heard self.old.machine.others now) now }
        ensures told { IsNoted (majority_notice self.old.majority.is_missing self.new.majority.is_missing heard
            self.old.machine.others) self.old.journal self.new.journal }
    {
        let notice = self.majority.look(heard, self.machine.others, now);
        note(notice, &mut self.journal);
        self.show_hearing(heard);
    }

    /// Whether the machine hears no majority for a while.
    pub(crate) fn has_no_majority(&self) -> bool
        ensures { result ≡ self.now.majority.is_missing }
    {
        self.majority.is_missing()
    }

    /// Shows that so many other machines are heard, and whether a majority is.
    fn show_hearing(&mut self, heard: u8)
        ensures shown { (self.new.machine.heard ≡ heard)
            × (self.new.machine.has_majority ≡ not self.old.majority.is_missing) }
        ensures same { (self.new.journal ≡ self.old.journal) × (self.new.majority ≡ self.old.majority) }
    {
        let has_majority = !self.majority.is_missing();
        if self.machine.heard != heard || self.machine.has_majority != has_majority {
            self.machine.heard = heard;
            self.machine.has_majority = has_majority;
            self.status.set_machine(self.machine);
        }
    }

    /// Notes once that the machine waits for its operator, where that is so.
    pub(crate) fn note_by_hand(&mut self, waits: bool)
        ensures { IsNoted (by_hand_notice self.old.is_told_by_hand waits self.old.machine.others)
            self.old.journal self.new.journal }
    {
        let notice = by_hand_notice(self.is_told_by_hand, waits, self.machine.others);
        note(notice, &mut self.journal);
        self.is_told_by_hand = self.is_told_by_hand || waits;
    }

    /// Shows whether the machine drives.
    pub(crate) fn show_course(&mut self, is_driving: bool)
        ensures { self.new.machine.is_driving ≡ is_driving }
    {
        if self.machine.is_driving != is_driving {
            self.machine.is_driving = is_driving;
            self.status.set_machine(self.machine);
        }
    }

    /// Notes what changed of the connections, and counts those that ended by what was forged or damaged.
    pub(crate) fn note_links<R: ServiceRuntime>(&mut self, host: &Host<R>) {
        for notice in self.exchange.notices(&host.rt, host.alloc) {
            let told = told_of(notice);
            self.count_forged(told);
            note(told, &mut self.journal);
        }
    }

    /// Counts a connection with a machine, if that's what ended by what was forged or damaged.
    fn count_forged(&mut self, told: Option<Notice>) {
        if let Some(Notice::MachineForged(_)) = told {
            self.machine.forged = self.machine.forged.saturating_add(1);
            self.status.set_machine(self.machine);
        }
    }

    /// Notes this.
    pub(crate) fn note(&mut self, notice: Notice) {
        self.journal.put(notice);
    }

    /// Notes once that the trace can't be written, where that is so.
    pub(crate) fn note_trace(&mut self, has_failed: bool) {
        if has_failed && !self.is_untraced {
            self.is_untraced = true;
            self.journal.put(Notice::NoTrace);
        }
    }

    /// Notes what became of the port of a machine that leads this view.
    pub(crate) fn note_port(&mut self, turn: Turn, view: u64)
        ensures { IsNoted (notice_of_port turn view self.old.refused_in) self.old.journal self.new.journal }
    {
        note(
            notice_of_port(turn, view, self.refused_in),
            &mut self.journal,
        );
        if turn == Turn::Refused {
            self.refused_in = Some(view);
        }
    }

    /// Notes that the machine doesn't lead any more.
    pub(crate) fn note_standing_by(&mut self, view: u64) {
        self.journal.put(Notice::StandingBy(view));
    }

    /// Counts a scan that was answered, and notes where it was held or stopped, or goes on.
    pub(crate) fn count(&mut self, submitted: Submitted, halt: Option<Halt>, is_released: bool)
        ensures noted { IsHaltNoted self.old.halt halt self.old.journal self.new.journal }
        ensures halt { self.new.halt ≡ halt }
    {
        note_halt(self.halt, halt, &mut self.journal);
        self.halt = halt;
        self.status.scanned(Scan {
            at: microseconds(submitted.since),
            is_late: submitted.is_late,
            is_released,
            halt,
        });
    }

    /// Notes nothing more.
    pub(crate) fn end(&mut self) {
        self.journal.end();
    }
}
