//! A machine that has begun no epoch: its links are up, and it has no replica.

ghost use Rattle.std.specs.Prelude.{◌≡◌, is_some, nat_lt};
ghost use Rattle.plc_member.specs.Keeping.{is_wait_told, waited_for};

use crate::keeper::{Keeper, Leaving, Waited};
use crate::life::Life;
use crate::serving::MachineRuntime;
use crate::stop::Stop;
use crate::watch::{note, told_of};
use io_model::CountedWrite;
use net_hello::Epoch;
use plc_epochs::{Kept, Moment, OthersHeard};
use plc_host::{Failed, Host};
use plc_status::{GroupNotice, Journal, Journals, Notice, Printer};
use std::alloc::{AllocError, Global};
use vr_ports::{Input, Link};

/// In milliseconds: for so long it waits for others before that is told.
const LONG: Moment = 3_000;

/// In milliseconds: so often it's told again.
const AGAIN: Moment = 60_000;

/// What becomes of a machine that waits to begin an epoch.
#[derive(Clone, Copy)]
pub(crate) enum Gone {
    /// It was asked to stop.
    Stopped,
    /// Its store is to have that it begins this epoch.
    Begins(Epoch),
    /// Its life ends, and its store is to have this.
    Leaves(Kept),
    Failed(Failed),
}

/// Where a machine waits to begin an epoch: what it tells there, and what ends it.
#[derive(Drop)]
struct Antechamber {
    journal: Journal,
    /// What ends it.
    stop: Stop,
    /// When it was told last that it waits for others.
    told: Option<Moment>,
}

/// What the machine of this number waits for that may take a person, by what its store keeps and the sum of its image.
fn waited_for(kept: Kept, program: &[u8; 32], number: u8) -> Option<Notice>
    ensures { result ≡ waited_for kept program.now number }
{
    match kept {
        Kept::Above(epoch) => Some(Notice::WaitsAfter(number, epoch.number)),
        Kept::Entered(epoch) => {
            let image = epoch.image;
            if &image == program {
                None
            } else {
                Some(Notice::OtherProgram(epoch.number))
            }
        }
        _ => None,
    }
}

/// Whether it's told now that a machine waits for others, since its life began, where that was told then, if it was.
fn is_wait_told(told: Option<Moment>, now: Moment) -> bool
    ensures { result ≡ is_wait_told told now }
{
    match told {
        Some(then) => now.saturating_sub(then) >= AGAIN,
        None => now >= LONG,
    }
}

/// What is told of a machine that waits for others, of which there are so many: nothing where it heard all that it
/// wants.
fn notice_of_wait(waits: OthersHeard, others: u8) -> Option<Notice>
    ensures { is_some result ≡ nat_lt waits.heard waits.wanted }
{
    if waits.heard >= waits.wanted {
        return None;
    }
    Some(Notice::Group(GroupNotice::Waits {
        heard: u8::try_from(waits.heard).unwrap_or(u8::MAX),
        machines: others,
        wanted: u8::try_from(waits.wanted).unwrap_or(u8::MAX),
    }))
}

/// Waits until a life comes to its epoch's begin, or ends before that: what becomes of its machine, which `stop` ends.
/// `err` has a line for each change meanwhile.
pub(crate) fn waited<R: MachineRuntime, E: CountedWrite>(
    alloc: Global,
    life: &mut Life<R>,
    stop: Stop,
    err: &mut E,
) -> Result<Gone, AllocError> {
    let Journals {
        driver: journal,
        console: _console,
        page: _page,
        mut printer,
    } = Journals::new(alloc)?;
    let mut antechamber = Antechamber {
        journal,
        stop,
        told: None,
    };
    antechamber.note_origin(life);
    let gone = antechamber.go_on(life, &mut printer, err);
    printer.print(err);
    Ok(gone)
}

/// Receives once by the link of a replica that isn't there, so that what comes is lost: whether the link has closed.
fn has_closed<L: Link>(link: &mut L) -> bool {
    match link.recv() {
        Input::Closed => true,
        input => {
            drop(input);
            false
        }
    }
}

impl Antechamber {
    /// Turn by turn, until its machine may begin an epoch, or its life ends otherwise. What is noted meanwhile is
    /// printed to `err` by this printer of its journal.
    fn go_on<R: MachineRuntime, E: CountedWrite>(
        &mut self,
        life: &mut Life<R>,
        printer: &mut Printer,
        err: &mut E,
    ) -> Gone {
        let rt = life.keeper.host.rt;
        for _ in rt.forever() {
            printer.print(err);
            if self.stop.is_asked() {
                return Gone::Stopped;
            }
            if has_closed(&mut life.linked.replica) {
                return Gone::Failed(Failed::Connection);
            }
            let waited = life.keeper.wait();
            self.note_changes(life);
            match waited {
                Some(Waited::Begins(epoch)) => return Gone::Begins(epoch),
                Some(Waited::Leaves(leaving)) => return self.leave(leaving),
                None => self.note_long(&life.keeper),
            }
        }
        unreachable!()
    }

    /// Notes what changed of the connections, and what its keeper tells.
    fn note_changes<R: MachineRuntime>(&mut self, life: &mut Life<R>) {
        let Host { rt, alloc } = life.keeper.host;
        for notice in life.linked.exchange.notices(&rt, alloc) {
            note(told_of(notice), &mut self.journal);
        }
        for notice in life.keeper.take_untold() {
            self.journal.put(notice);
        }
    }

    /// The life ends so.
    fn leave(&mut self, leaving: Leaving) -> Gone {
        note(leaving.notice, &mut self.journal);
        Gone::Leaves(leaving.kept)
    }

    /// Notes what its machine waits for that may take a person: an epoch above one that others are in, or a store with
    /// the program of its epoch.
    fn note_origin<R: MachineRuntime>(&mut self, life: &Life<R>) {
        let kept = life.keeper.epochs.cold_start().kept();
        let number = life.keeper.speaker.number;
        let program = life.origin.header.program;
        note(waited_for(kept, &program, number), &mut self.journal);
    }

    /// Notes that its machine waits for others, where it has done so for long, and then each minute.
    fn note_long<R: MachineRuntime>(&mut self, keeper: &Keeper<R>) {
        let now = keeper.now();
        if !is_wait_told(self.told, now) {
            return;
        }
        let is_first = self.told.is_none();
        self.told = Some(now);
        let cold_start = keeper.epochs.cold_start();
        let Some(waits) = cold_start.waits_for() else {
            return;
        };
        let notice = notice_of_wait(waits, keeper.terms.f.saturating_mul(2));
        if let (true, Some(_), Kept::Entered(epoch)) = (is_first, notice, cold_start.kept()) {
            self.journal.put(Notice::WaitsForOthers(epoch.number));
        }
        note(notice, &mut self.journal);
    }
}
