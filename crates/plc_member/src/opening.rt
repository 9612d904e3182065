//! A machine as its directory has it, and how each life of it begins and ends there.

ghost use Rattle.std.specs.Prelude.{◌≡◌, IfOk};
ghost use Rattle.plc_member.specs.Keeping.{way_of};

use crate::antechamber::{Gone, waited};
use crate::beginning::Beginning;
use crate::begun::{Begun, ReplicaFiles};
use crate::both::both;
use crate::ended::{Ended, Left};
use crate::life::{Life, Origin, life_of};
use crate::program::Marker;
use crate::serving::MachineRuntime;
use crate::sights::Sights;
use crate::stop::Stop;
use crate::storing::{Entry, Written, put};
use crate::unserved::Unserved;
use il_loader::load;
use io_model::CountedWrite;
use net_hello::Epoch;
use net_keys::Keys;
use plc_epochs::Kept;
use plc_group::Group;
use plc_host::{Failed, Host};
use plc_machine::wanted;
use plc_status::{Journals, Notice};
use plc_store::{
    ChangeMark, FileDirectory, Opened, Refusal, Start, Store, StoreDirectory, is_changed, open,
    stored_in,
};
use std::alloc::{AllocError, Global};
use std::fs::File;
use std::rt::Files;
use std::sync::Arc;
use vr_replica::ViewStore;
use vr_threads::{FileStore, JudgedStarts, NumberedStarts, PatientStore, Saves};

/// The store of a machine's replica: its saves are tried again, each start behind the first one of a life is counted in
/// memory, and its next start was judged before.
pub type MachineStore<R> = JudgedStarts<NumberedStarts<PatientStore<FileStore<R>, R>>>;

/// A machine of a group that is to be served, from the directory of its store, which no other process has.
#[derive(Drop)]
pub struct Member<R: Files + Drop> {
    directory: FileDirectory<R>,
    path: String,
    beginning: Beginning<R>,
    /// By which it proves that it's of its group, if that has any.
    keys: Option<Keys>,
    /// What ends it.
    stop: Stop,
}

/// What comes of a life that begins.
enum Entered<R: MachineRuntime, S: Drop, M: Drop> {
    /// Its machine has begun its epoch, and is to be served in it.
    Begun(Begun<R, S, M>),
    /// It ended before that, and another one begins.
    Left,
    /// It was asked to stop.
    Stopped,
}

/// What comes of a life whose links are up.
#[derive(Clone, Copy)]
enum Outcome {
    /// Its machine has begun its epoch, and its replica starts there for the first time, or again.
    Starts { is_first: bool },
    /// It ends before that, and its store is to have this.
    Leaves(Kept),
    /// It was asked to stop.
    Stopped,
}

/// How a life goes on whose links are up.
#[derive(Clone, Copy, Debug, PartialEq, Eq)]
pub(crate) enum Way {
    /// Its replica is started as one that has said nothing in its epoch.
    StartsAsNew,
    /// Its replica is started, and has said something in its epoch, so that it recovers.
    StartsAgain,
    /// It waits until its epoch may be begun.
    Waits,
}

/// How a life goes on whose store keeps this of epochs, and was judged to start so.
fn way_of(kept: Kept, start: Start) -> Way
    ensures { result ≡ way_of kept start }
{
    match kept {
        Kept::Begun(_) => match start {
            Start::First => Way::StartsAsNew,
            Start::Again | Start::Waits => Way::StartsAgain,
        },
        Kept::Nothing | Kept::Above(_) | Kept::Entered(_) => Way::Waits,
    }
}

/// Tells that the replica of this number hangs.
fn tell_hanging<E: CountedWrite>(alloc: Global, number: u8, err: &mut E) -> Result<(), AllocError> {
    let Journals {
        mut driver,
        console: _console,
        page: _page,
        mut printer,
    } = Journals::new(alloc)?;
    driver.put(Notice::Hangs(number));
    printer.print(err);
    Ok(())
}

/// How many starts there are with this one, by the store of a replica's view.
fn starts_in<R: Files + Copy + Drop>(host: Host<R>, path: &str, number: u8) -> Result<u64, Failed> {
    let mut store = FileStore::new(host.rt, host.alloc, path, number)?;
    match store.load() {
        Ok(stored) => Ok(stored.starts.saturating_add(1)),
        Err(_) => Err(Failed::Store(number)),
    }
}

impl<R: MachineRuntime + Files<File = File> + Alloc<A = Global>> Member<R> {
    /// The machine whose store this directory has. It's locked for as long as this lives.
    pub fn open(host: Host<R>, path: &str) -> Result<Member<R>, Unserved> {
        Ok(Member {
            directory: FileDirectory::take(host.rt, host.alloc, path)?,
            path: String::from_str(host.alloc, path)?,
            beginning: Beginning::new(host.rt, host.alloc, path)?,
            keys: None,
            stop: Stop::new(host.alloc)?,
        })
    }

    /// The same, which proves by these keys that it's of its group.
    pub fn keyed(mut self, keys: Option<Keys>) -> Member<R> {
        self.keys = keys;
        self
    }

    /// What ends its serving.
    pub fn stop(&self) -> Result<Stop, AllocError> {
        self.stop.another()
    }
}

impl<R: MachineRuntime + Files<File = File> + Alloc<A = Global>> Member<R>
where
    R::Dir: Send + Sync + 'static,
{
    /// The next life of the machine, behind one that ended so, if there was one: once it has begun an epoch, in which
    /// it's to be served. From its store on it goes on with its epoch, or waits for others until that may be begun.
    /// None where it was asked to stop. `err` has a line for each change meanwhile. A store that is refused stays as
    /// it is.
    pub fn next_life<E: CountedWrite>(
        &mut self,
        host: Host<R>,
        group: &Group,
        ended: Option<Ended>,
        err: &mut E,
    ) -> Result<Option<Begun<R, MachineStore<R>, Marker<R>>>, Unserved> {
        if !self.goes_on(host, ended, err)? {
            return Ok(None);
        }
        let rt = host.rt;
        for _ in rt.forever() {
            match self.enter(host, group, err)? {
                Entered::Begun(begun) => return Ok(Some(begun)),
                Entered::Left => {}
                Entered::Stopped => return Ok(None),
            }
        }
        unreachable!()
    }

    /// Whether another life begins behind one that ended so, if there was one. Its store has what it's to have by then.
    fn goes_on<E: CountedWrite>(
        &self,
        host: Host<R>,
        ended: Option<Ended>,
        err: &mut E,
    ) -> Result<bool, Unserved> {
        match ended {
            None => Ok(true),
            Some(Ended::Stopped) => Ok(false),
            Some(Ended::Failed(failed)) => Err(Unserved::Failed(failed)),
            Some(Ended::Leaves(left)) => {
                self.keep(host, Entry::Left(left), err)?;
                Ok(true)
            }
        }
    }

    /// Has its store have this of epochs. A disk that hangs is told, and isn't waited for. It's looked at once more before
    /// the next life.
    fn keep<E: CountedWrite>(
        &self,
        host: Host<R>,
        entry: Entry,
        err: &mut E,
    ) -> Result<(), Unserved> {
        let number = stored_in(host.alloc, &self.directory)?.header.machine;
        match put(host, self.path.as_str(), entry)? {
            Written::Done => Ok(()),
            Written::Hangs => {
                tell_hanging(host.alloc, number, err)?;
                Err(Unserved::Failed(Failed::Store(number)))
            }
        }
    }

    /// Begins a life of the machine.
    fn enter<E: CountedWrite>(
        &mut self,
        host: Host<R>,
        group: &Group,
        err: &mut E,
    ) -> Result<Entered<R, MachineStore<R>, Marker<R>>, Unserved> {
        let mut life = self.life(host, group)?;
        let outcome = self.outcome(host, &mut life, err);
        let (life, outcome) = both(life, outcome)?;
        match outcome {
            Outcome::Starts { is_first } => Ok(Entered::Begun(self.begun(host, life, is_first)?)),
            Outcome::Leaves(kept) => {
                self.keep(host, Entry::Left(Left::unbegun(life, kept)), err)?;
                Ok(Entered::Left)
            }
            Outcome::Stopped => {
                drop(life);
                Ok(Entered::Stopped)
            }
        }
    }

    /// The life that begins from its store now, whose links are up.
    fn life(&mut self, host: Host<R>, group: &Group) -> Result<Life<R>, Unserved> {
        let origin = self.origin(host, group)?;
        let Some(place) = group.machines.get(usize::from(origin.header.machine)) else {
            return Err(Unserved::Refused(Refusal::OtherMachine));
        };
        Ok(life_of(host, group, origin, place.replica, self.keys)?)
    }

    /// What comes of a life whose links are up, by what its store kept as it began.
    fn outcome<E: CountedWrite>(
        &self,
        host: Host<R>,
        life: &mut Life<R>,
        err: &mut E,
    ) -> Result<Outcome, Unserved> {
        match way_of(life.origin.header.kept, life.origin.start) {
            Way::StartsAsNew => Ok(Outcome::Starts { is_first: true }),
            Way::StartsAgain => Ok(Outcome::Starts { is_first: false }),
            Way::Waits => self.wait(host, life, err),
        }
    }

    /// Its store, and how it starts from it.
    fn opened(&mut self, host: Host<R>, group: &Group) -> Result<Opened, Refusal> {
        self.directory.look_again()?;
        match open(host.alloc, &self.directory, &wanted(group)) {
            Err(Refusal::ViewGone) => self.opened_beginning(host),
            opened => opened,
        }
    }

    /// What a life begins with.
    fn origin(&mut self, host: Host<R>, group: &Group) -> Result<Origin, Unserved> {
        let Opened { store, start } = self.opened(host, group)?;
        let Store { header, image } = store;
        let starts = match start {
            Start::Again => starts_in(host, self.path.as_str(), header.machine)?,
            Start::First | Start::Waits => 1,
        };
        Ok(Origin {
            header,
            start,
            image: load(host.alloc, image.as_slice())?,
            starts,
            is_marked: is_changed(&header.kept, self.directory.mark()),
        })
    }

    /// A store that has its epoch as begun, and no view of its replica, where the machine stopped as it began the
    /// epoch: its replica, which has said nothing there, starts as new.
    fn opened_beginning(&self, host: Host<R>) -> Result<Opened, Refusal> {
        let store = stored_in(host.alloc, &self.directory)?;
        match store.header.kept {
            Kept::Begun(epoch) if self.beginning.is_of(&epoch) => Ok(Opened {
                store,
                start: Start::First,
            }),
            _ => Err(Refusal::ViewGone),
        }
    }

    /// Waits until its epoch may be begun, and begins it; or ends before that. `err` has a line for each change
    /// meanwhile.
    fn wait<E: CountedWrite>(
        &self,
        host: Host<R>,
        life: &mut Life<R>,
        err: &mut E,
    ) -> Result<Outcome, Unserved> {
        let stop = self.stop.another()?;
        match waited(host.alloc, life, stop, err)? {
            Gone::Stopped => Ok(Outcome::Stopped),
            Gone::Failed(failed) => Err(Unserved::Failed(failed)),
            Gone::Leaves(kept) => Ok(Outcome::Leaves(kept)),
            Gone::Begins(epoch) => {
                // Its store has that before its replica says a word.
                self.keep(host, Entry::Begins(epoch), err)?;
                let _ = life.keeper.epochs.stored(&Kept::Begun(epoch));
                Ok(Outcome::Starts { is_first: true })
            }
        }
    }

    /// The machine that has begun its epoch in this life, for the first time or not, and whose replica is not started.
    fn begun(
        &self,
        host: Host<R>,
        life: Life<R>,
        is_first: bool,
    ) -> Result<Begun<R, MachineStore<R>, Marker<R>>, Unserved> {
        let means = self.means(host, &life, is_first);
        let (life, (epoch, files, stop)) = both(life, means)?;
        Ok(life.begun(epoch, files, stop))
    }

    /// The epoch that the machine has begun in this life, the files of its replica, and what ends it.
    fn means(
        &self,
        host: Host<R>,
        life: &Life<R>,
        is_first: bool,
    ) -> Result<(Epoch, ReplicaFiles<MachineStore<R>, Marker<R>>, Stop), Unserved> {
        let number = life.origin.header.machine;
        let Some(epoch) = life.keeper.epochs.cold_start().speaks_in() else {
            return Err(Unserved::Failed(Failed::Store(number)));
        };
        let stop = self.stop.another()?;
        let files = self.files(host, number, &epoch, is_first)?;
        Ok((epoch, files, stop))
    }

    /// The files of its replica of this number, which starts in this epoch for the first time, or not, as that was
    /// judged: whatever its directory has by now.
    fn files(
        &self,
        host: Host<R>,
        number: u8,
        epoch: &Epoch,
        is_first: bool,
    ) -> Result<ReplicaFiles<MachineStore<R>, Marker<R>>, AllocError>
        ensures judged { IfOk result (λ files. files.store.is_first ≡ is_first) }
    {
        let saves = Arc::new(host.alloc, Saves::new())?;
        let file = FileStore::new(host.rt, host.alloc, self.path.as_str(), number)?;
        let store = PatientStore::new(host.rt, file, Arc::try_clone(&saves)?);
        Ok(ReplicaFiles {
            store: JudgedStarts::new(NumberedStarts::new(store), is_first),
            marks: self.marker(host, epoch)?,
            saves,
        })
    }

    /// What its replica has the directory keep in this epoch.
    fn marker(&self, host: Host<R>, epoch: &Epoch) -> Result<Marker<R>, AllocError> {
        let path = self.path.as_str();
        let change = ChangeMark::new(host.rt, host.alloc, path, epoch)?;
        let beginning = Beginning::new(host.rt, host.alloc, path)?;
        let sights = Sights::new(host.rt, host.alloc, path)?;
        Ok(Marker {
            change,
            beginning,
            sights,
        })
    }
}
