//! Whether the program in force is still the one with which the epoch began.

ghost use Rattle.std.specs.Prelude.{◌≡◌, ◌⊎◌, true, None, IfSome, OnOk};
ghost use Rattle.il_model.specs.declared.command.Command.{Command as Asked};
ghost use Rattle.vr_model.specs.Membership.{Membership};
ghost use Rattle.vr_model.specs.Replicas as model;
ghost use Rattle.vr_replica.specs.Standing.{StandsFor};
ghost use Rattle.plc_member.specs.Marking.{is_marked, is_to_settle, mark_by, IsDone};

use crate::beginning::Beginning;
use crate::held_link::{DeadLink, Hold};
use crate::sights::Sights;
use il_loader::Image;
use il_model::Command;
use net_peers::Exchange;
use plc_host::Host;
use plc_store::{ChangeMark, DiskFault};
use std::alloc::{AllocError, Global};
use std::fs::File;
use std::rt::Files;
use std::sync::atomic::{AtomicBool, Ordering};
use std::sync::{Arc, Wait};
use std::time::Clock;
use vr_model::{Request, Status};
use vr_replica::Replica;
use vr_threads::{Pauses, Saves};

/// What the entries of a log tell of the program.
#[derive(Clone, Copy)]
enum Told<'a> {
    /// None of them changes it.
    Same,
    /// The last of them that changes it, or will, brings this image.
    Changed(&'a [u8]),
    /// The first of them aren't kept, and none of the others changes it.
    NotKept,
}

/// What the mark of a store says of its epoch.
#[derive(Clone, Copy, Debug, PartialEq, Eq)]
pub(crate) enum Mark {
    /// There is none, since no change is known.
    Absent,
    /// A change was seen, and whether it's made isn't known.
    Seen,
    /// Another program is in force.
    Made,
}

/// What the replica of a machine has its directory keep. Each call is on disk before it's answered, and fails only
/// where that can't be written. An implementation tells what is kept, or tells nothing where only the disk has it.
pub trait Marks {
    ghost use Rattle.std.specs.Prelude.{◌≡◌, true, Option, Some, None, IfSome, OnOk};
    ghost use Rattle.plc_member.specs.Shelf.{Shelf};

    ghost told: { Self → Option Shelf };

    /// Its program was changed to this image, or may be.
    fn mark(&mut self, image: &[u8]) -> Result<(), DiskFault>
        ensures { OnOk result (IfSome (told self.new) (λ shelf. shelf.mark ≡ Some image.now)) };

    /// It wasn't changed after all.
    fn unmark(&mut self) -> Result<(), DiskFault>
        ensures { OnOk result (IfSome (told self.new) (λ shelf. shelf.mark ≡ None)) };

    /// It has counted a start in its epoch.
    fn count(&mut self) -> Result<(), DiskFault>
        ensures { OnOk result (IfSome (told self.new) (λ shelf. shelf.is_counted ≡ true)) };

    /// The store of this number was seen of another machine in its epoch.
    fn see(&mut self, machine: u8, store: u64) -> Result<(), DiskFault>;
}

/// The files by which a directory keeps that.
#[derive(Drop)]
pub struct Marker<R: Files + Drop> {
    pub(crate) change: ChangeMark<R>,
    pub(crate) beginning: Beginning<R>,
    pub(crate) sights: Sights<R>,
}

impl<R: Files<File = File> + Alloc<A = Global> + Copy + Drop> Marks for Marker<R> {
    ghost told = { λ _. None };

    fn mark(&mut self, image: &[u8]) -> Result<(), DiskFault> {
        self.change.mark(image)
    }

    fn unmark(&mut self) -> Result<(), DiskFault> {
        self.change.unmark()
    }

    fn count(&mut self) -> Result<(), DiskFault> {
        self.beginning.end()
    }

    fn see(&mut self, machine: u8, store: u64) -> Result<(), DiskFault> {
        self.sights.see(machine, store)
    }
}

/// What is to be kept.
#[derive(Clone, Copy, Debug, PartialEq, Eq)]
pub(crate) enum Deed {
    /// That the program was changed, with the image.
    Marks,
    /// That it wasn't.
    Unmarks,
    /// That a start was counted.
    Counts,
}

/// What a change of the program is kept by, so that no cold start brings back the program before it by itself.
#[derive(Drop)]
pub(crate) struct Marking<M> {
    /// That another program may be in force, for others of the machine.
    pub(crate) has_changed: Arc<AtomicBool>,
    pub(crate) marks: M,
    pub(crate) mark: Mark,
    /// The image that the mark has, where that's known.
    pub(crate) image: Vec<u8>,
    /// Ends the replica's link where something isn't kept to the end.
    pub(crate) hold: Arc<Hold>,
    /// How that goes.
    pub(crate) saves: Arc<Saves>,
    /// It tells which stores of other machines were seen.
    pub(crate) exchange: Arc<Exchange>,
}

/// Whether it's to be found out if a change that was seen is made, where none of the entries that may be new brings
/// one: by a replica that takes part, whose program is the one in force then.
fn is_to_settle(mark: Mark, is_normal: bool) -> bool
    ensures { result ≡ is_to_settle mark is_normal }
{
    mark == Mark::Seen && is_normal
}

/// What the mark is to say, by whether the program in force is the one with which the epoch began: a change that was
/// refused leaves no mark.
fn mark_by(is_first: bool) -> Mark
    ensures { result ≡ mark_by is_first }
{
    if is_first { Mark::Absent } else { Mark::Made }
}

/// Whether a store has the mark of a change to this image, by what its mark says and the image that it has, as far as
/// that's known.
fn is_marked(mark: Mark, own: &[u8], image: &[u8]) -> bool
    ensures { result ≡ is_marked mark own.now image.now }
{
    match mark {
        Mark::Absent => false,
        Mark::Seen | Mark::Made => own == image,
    }
}

impl<M: Marks + Drop> Marking<M> {
    /// Has this kept once, with this image.
    fn done(&mut self, deed: Deed, image: &[u8]) -> Result<(), DiskFault>
        ensures { OnOk result (IfSome (M.told self.new.marks) (IsDone deed image.now)) }
    {
        match deed {
            Deed::Marks => self.marks.mark(image),
            Deed::Unmarks => self.marks.unmark(),
            Deed::Counts => self.marks.count(),
        }
    }

    /// Has this kept, with this image: it's tried again until that's done, or the machine's life ends. The thread is the
    /// replica's own, so nothing is sent meanwhile; and behind an end that came first the link sends nothing any more.
    fn keep<R: Clock>(&mut self, rt: &R, deed: Deed, image: &[u8]) -> Result<(), DeadLink>
        ensures { OnOk result (IfSome (M.told self.new.marks) (IsDone deed image.now)) }
    {
        let mut pauses = Pauses::new();
        for _ in 0..u64::MAX {
            let done = self.done(deed, image);
            self.saves.note(done.is_err());
            if done.is_ok() {
                return Ok(());
            }
            if !self.saves.wait(rt, &mut pauses) {
                break;
            }
        }
        Err(self.hold.end())
    }

    /// A change to this image is in the log of the machine's own replica, and no message that was sent tells of it yet.
    /// The store is marked, on disk, before any does: so f+1 stores are marked before the change is committed, and of
    /// each f+1 machines that lost their memory one doesn't begin anew by itself with the program before.
    fn change<R: Clock + Copy>(&mut self, host: &Host<R>, image: &[u8]) -> Result<(), DeadLink>
        ensures { OnOk result ((is_marked self.old.mark self.old.image.items image.now ≡ true)
            ⊎ IfSome (M.told self.new.marks) (IsDone Deed.Marks image.now)) }
    {
        self.has_changed.store(true, Ordering::SeqCst);
        if is_marked(self.mark, self.image.as_slice(), image) {
            return Ok(());
        }
        self.keep(&host.rt, Deed::Marks, image)?;
        self.mark = Mark::Seen;
        // Where memory is wanting it's marked once more.
        if let Ok(image) = Vec::from_slice(host.alloc, image) {
            self.image = image;
        }
        Ok(())
    }

    /// The program in force is known: whether it's the one with which the epoch began, and its image.
    fn settle<R: Clock + Copy>(
        &mut self,
        host: &Host<R>,
        is_first: bool,
        image: &[u8],
    ) -> Result<(), DeadLink> {
        if is_first {
            self.keep(&host.rt, Deed::Unmarks, image)?;
            self.has_changed.store(false, Ordering::SeqCst);
        } else {
            self.change(host, image)?;
        }
        self.mark = mark_by(is_first);
        Ok(())
    }

    /// The replica has counted a start, and has said nothing yet. From now on it isn't new in its epoch.
    fn count<R: Clock>(&mut self, rt: &R) -> Result<(), DeadLink>
        ensures { OnOk result (IfSome (M.told self.new.marks) (λ shelf. shelf.is_counted ≡ true)) }
    {
        self.keep(rt, Deed::Counts, &[])
    }

    /// Keeps which stores of other machines were seen for the first time. What can't be written is kept for this life
    /// alone: in another one that store is seen anew.
    fn see<R: Clock + Wait + Copy>(&mut self, host: &Host<R>) {
        for (machine, store) in self.exchange.stores(&host.rt, host.alloc) {
            let _ = self.marks.see(machine, store);
        }
    }
}

/// Tells that another program may be in force, before any of its outputs can be released, and marks the store: a change
/// is an entry of the log of each replica that leads, before it's carried out. A mark goes again where the change was
/// refused.
#[derive(Drop)]
pub(crate) struct ProgramWatch<M> {
    /// The image with which the epoch began.
    image: Vec<u8>,
    marking: Marking<M>,
    /// Whether the replica has counted a start.
    is_counted: bool,
    /// So many entries were looked at that won't be others.
    seen: u64,
}

/// What the entries of a replica's log tell that stand behind so many.
fn told_behind(replica: &Replica, seen: u64) -> Told<'_> {
    let count = replica.op_number();
    for behind in 0..count.saturating_sub(seen) {
        match replica.entry(count - 1 - behind) {
            None => return Told::NotKept,
            Some(
                Request {
                    command: Command::Change(image),
                    ..
                },
            ) => return Told::Changed(image.as_slice()),
            Some(_) => {}
        }
    }
    Told::Same
}

impl<M: Marks + Drop> ProgramWatch<M> {
    /// Of a replica that was not started, in an epoch that began with this program.
    pub(crate) fn new(
        alloc: Global,
        image: &Image,
        marking: Marking<M>,
    ) -> Result<ProgramWatch<M>, AllocError> {
        Ok(ProgramWatch {
            image: Vec::from_slice(alloc, image.bytes())?,
            marking,
            is_counted: false,
            seen: 0,
        })
    }

    /// Looks at whether the replica has counted a start: it's up then.
    fn count<R: Clock>(&mut self, rt: &R, replica: &Replica) {
        if !self.is_counted && replica.standing().status != Status::Down {
            self.is_counted = true;
            // Where that isn't kept the link is dead, and nothing more is said.
            let _ = self.marking.count(rt);
        }
    }

    /// Finds out which program the entries brought that the replica executed: whether memory was there for that.
    fn settle<R: Clock + Copy>(&mut self, host: &Host<R>, replica: &Replica) -> bool {
        let Ok(snapshot) = replica.snapshot(host.alloc) else {
            return false;
        };
        let image = snapshot.image.as_slice();
        let is_first = image == self.image.as_slice();
        let _ = self.marking.settle(host, is_first, image);
        true
    }

    /// Looks at the replica, and at the entries of its log that may be new: of those that it was shown, those that
    /// aren't committed may be others then.
    pub(crate) fn look<R: Clock + Wait + Copy>(&mut self, host: &Host<R>, replica: &Replica)
        ensures { (m : Membership) (r : model.ReplicaState Asked) → StandsFor replica.now m r
            → self.new.seen ≡ r.commit_number }
    {
        self.count(&host.rt, replica);
        self.marking.see(host);
        match told_behind(replica, self.seen) {
            Told::Changed(image) => {
                let _ = self.marking.change(host, image);
            }
            Told::NotKept => self.see_checkpoint(host, replica),
            Told::Same => self.see_same(host, replica),
        }
        self.seen = replica.commit();
    }

    /// The entries before those that are kept may have brought another program. Where memory is wanting that's taken to
    /// be so, and it's not known which one.
    fn see_checkpoint<R: Clock + Copy>(&mut self, host: &Host<R>, replica: &Replica) {
        if !self.settle(host, replica) {
            let _ = self.marking.change(host, &[]);
        }
    }

    /// No entry that may be new brings another program. Where memory is wanting it's tried behind the next step.
    fn see_same<R: Clock + Copy>(&mut self, host: &Host<R>, replica: &Replica) {
        if is_to_settle(self.marking.mark, replica.is_normal()) {
            let _ = self.settle(host, replica);
        }
    }
}
