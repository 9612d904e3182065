//! What a machine's store is to have of epochs, which a thread of its own writes: a disk that hangs isn't waited for.

ghost use Rattle.std.specs.Prelude.{◌≡◌};
ghost use Rattle.plc_member.specs.Keeping.{kept_by};

use crate::beginning::Beginning;
use crate::ended::Left;
use crate::serving::MachineRuntime;
use crate::unserved::Unserved;
use net_hello::Epoch;
use plc_epochs::Kept;
use plc_host::{Failed, Host};
use plc_store::{FileDirectory, Refusal, draw, keep};
use std::alloc::{AllocError, Global};
use std::fs::File;
use std::random::RandomSource;
use std::rt::Files;
use std::sync::Arc;
use std::sync::atomic::{AtomicBool, Ordering};
use std::thread;
use std::time::{Clock, Duration};

/// In milliseconds: for so long a write may take.
const LONGEST: u64 = 10_000;

/// In milliseconds: so often it's looked whether it's done.
const LOOK: u64 = 1;

/// What the store of a machine is to have of epochs.
#[derive(Drop)]
pub(crate) enum Entry {
    /// What a life left behind.
    Left(Left),
    /// That it begins this epoch, in which its replica hasn't said a word.
    Begins(Epoch),
}

impl Entry {
    /// What the store is to say.
    pub(crate) fn kept(&self) -> Kept
        ensures { result ≡ kept_by self.now }
    {
        match self {
            Entry::Left(left) => left.kept(),
            Entry::Begins(epoch) => Kept::Begun(*epoch),
        }
    }
}

/// What came of a write.
#[derive(Clone, Copy, Debug, PartialEq, Eq)]
pub(crate) enum Written {
    /// It's on disk.
    Done,
    /// It takes too long: its thread is left.
    Hangs,
}

/// Writes it. In another epoch the store is known by a number that is drawn now, which no copy of the store from before
/// has: whoever has seen this one there refuses that.
fn write<R>(host: Host<R>, path: &str, entry: &Entry) -> Result<(), Refusal>
where
    R: Files<File = File> + RandomSource + Alloc<A = Global> + Copy + Drop,
{
    let Host { rt, alloc } = host;
    let mut directory = FileDirectory::look(rt, alloc, path)?;
    if let Entry::Begins(epoch) = entry {
        // Before the views go: so a machine that stops between that and its replica's first start can be told from one
        // that has lost its view.
        Beginning::new(rt, alloc, path)?.put(epoch)?;
    }
    let _ = keep(alloc, &mut directory, &entry.kept(), draw(&rt)?)?;
    Ok(())
}

/// What isn't so yet.
fn flag(alloc: Global) -> Result<Arc<AtomicBool>, AllocError> {
    Ok(Arc::new(alloc, AtomicBool::new(false))?)
}

/// Whether this comes to be so in time.
fn comes_soon<R: Clock>(rt: &R, flag: &AtomicBool) -> bool {
    for _ in 0..LONGEST / LOOK {
        if flag.load(Ordering::SeqCst) {
            return true;
        }
        thread::sleep(rt, Duration::from_millis(LOOK));
    }
    false
}

/// Has the store in this directory have that, unless its disk hangs. It's another thread that looks at the directory, so
/// whoever has taken it looks at it once more behind this.
pub(crate) fn put<R>(host: Host<R>, path: &str, entry: Entry) -> Result<Written, Unserved>
where
    R: MachineRuntime + Files<File = File> + Alloc<A = Global>,
    R::Dir: Send + Sync + 'static,
{
    let is_done = flag(host.alloc)?;
    let seen = Arc::try_clone(&is_done)?;
    let own = String::from_str(host.alloc, path)?;
    let work = move || {
        let written = write(host, own.as_str(), &entry);
        is_done.store(true, Ordering::SeqCst);
        written
    };
    let Ok(writer) = thread::spawn(&host.rt, work) else {
        return Err(Unserved::Failed(Failed::Thread));
    };
    if !comes_soon(&host.rt, &seen) {
        return Ok(Written::Hangs);
    }
    writer.join(&host.rt)?;
    Ok(Written::Done)
}
