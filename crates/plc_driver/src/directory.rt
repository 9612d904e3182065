//! The directories of a group's stores, which one start at a time has.

ghost use Rattle.std.specs.Prelude.{◌≡◌, IfOk, vec_len};
ghost use Rattle.vr_model.specs.Groups.{group_size};

use plc_host::Failed;
use std::alloc::{AllocError, Global};
use std::fs::{File, TryLockError};
use std::io::ErrorKind;
use std::os::unix::fs::MetadataExt;
use std::rt::Files;
use std::{fs, io};
use vr_model::Config;
use vr_threads::FileStore;

/// The bit of a mode by which all may write.
const OTHERS_WRITE: u32 = 0o002;

/// Where a group of replicas has its stores: in one directory, or each in its own, in their order.
#[derive(Clone, Copy)]
pub struct Directory<'a> {
    pub paths: &'a [String],
    pub config: Config,
}

/// A file of a directory, by the lock on which one start has it. The system unlocks it where the process ends.
#[derive(Drop)]
struct Lock {
    path: String,
    file: File,
}

/// Directories that one start has. They are let go of by `leave`, or where the process ends.
pub struct Taken {
    locks: Vec<Lock>,
}

impl Directory<'_> {
    /// Makes each directory that isn't there, and takes it: of two starts at once one has it. None, and nothing was
    /// changed, where another start has one, the file of a replica is there, one is somebody else's, or all may write to
    /// it.
    pub fn take<R: Files<File = File> + Copy + Drop>(
        self,
        rt: R,
        alloc: Global,
    ) -> Result<Option<Taken>, Failed> {
        let mut taken = Taken {
            locks: Vec::new(alloc),
        };
        match self.take_each(rt, alloc, &mut taken) {
            Ok(true) => Ok(Some(taken)),
            unfit => {
                taken.leave(&rt);
                unfit?;
                Ok(None)
            }
        }
    }

    /// Takes each directory. Whether all were to be had, and hold no file of a replica. A device that fails there is
    /// the store of the replica whose directory it is.
    fn take_each<R: Files<File = File> + Copy + Drop>(
        self,
        rt: R,
        alloc: Global,
        taken: &mut Taken,
    ) -> Result<bool, Failed> {
        let mut replica = 0u8;
        for path in self.paths {
            match taken.add(&rt, alloc, path.as_str()) {
                Ok(true) => replica = replica.saturating_add(1),
                Ok(false) => return Ok(false),
                Err(failed) => return Err(failed.known_as(Failed::Store(replica))),
            }
        }
        self.is_empty(rt, alloc)
    }

    /// The store of a replica, which is not opened yet.
    fn store<R: Files + Drop>(
        self,
        rt: R,
        alloc: Global,
        replica: u8,
    ) -> Result<FileStore<R>, AllocError> {
        let path = match self.paths.get(usize::from(replica)) {
            Some(own) => own.as_str(),
            None => self.shared(),
        };
        FileStore::new(rt, alloc, path, replica)
    }

    /// The directory of each replica that has none of its own.
    fn shared(&self) -> &str {
        match self.paths.first() {
            Some(first) => first.as_str(),
            None => ".",
        }
    }

    /// The stores of the group: none is opened yet.
    pub fn stores<R: Files + Copy + Drop>(
        self,
        rt: R,
        alloc: Global,
    ) -> Result<Vec<FileStore<R>>, AllocError>
        ensures { IfOk result (λ v. vec_len v ≡ group_size self.entry.config.f) }
    {
        let mut stores = Vec::new(alloc);
        for replica in 0..self.config.group_size() {
            stores.push(self.store(rt, alloc, replica)?)?;
        }
        Ok(stores)
    }

    /// Looks whether each replica of the group has its file there: of the first one that hasn't, the store isn't to be
    /// had.
    pub fn check_full<R: Files + Copy + Drop>(self, rt: R, alloc: Global) -> Result<(), Failed> {
        for replica in 0..self.config.group_size() {
            if !self.has_file(rt, alloc, replica)? {
                return Err(Failed::Store(replica));
            }
        }
        Ok(())
    }

    /// Whether no replica of the group has a file there.
    fn is_empty<R: Files + Copy + Drop>(self, rt: R, alloc: Global) -> Result<bool, Failed> {
        for replica in 0..self.config.group_size() {
            if self.has_file(rt, alloc, replica)? {
                return Ok(false);
            }
        }
        Ok(true)
    }

    /// Whether a replica has its file there.
    fn has_file<R: Files + Copy + Drop>(
        self,
        rt: R,
        alloc: Global,
        replica: u8,
    ) -> Result<bool, Failed> {
        let store = self.store(rt, alloc, replica)?;
        match fs::exists(&rt, store.path()) {
            Ok(is_there) => Ok(is_there),
            Err(error) => Err(Failed::from(error).known_as(Failed::Store(replica))),
        }
    }

    /// Takes away the files of a group that never served, as far as they can be.
    pub fn clear<R: Files + Copy + Drop>(self, rt: R, alloc: Global) {
        for replica in 0..self.config.group_size() {
            if let Ok(store) = self.store(rt, alloc, replica) {
                store.remove();
            }
        }
    }
}

impl Lock {
    /// Makes the file of a directory, which is made where it isn't there, and locks it. None where another start has it.
    fn of<R: Files<File = File>>(
        rt: &R,
        alloc: Global,
        directory: &str,
    ) -> Result<Option<Lock>, Failed> {
        fs::create_dir_all(rt, directory)?;
        let path = format!(in alloc; "{directory}/lock")?;
        match File::create_new(rt, path.as_str()) {
            Ok(file) => Ok(Lock { path, file }.held(rt)?),
            Err(error) if error.kind() == ErrorKind::AlreadyExists => Ok(Lock::behind(rt, path)?),
            Err(error) => Err(Failed::from(error)),
        }
    }

    /// The same where the file is there already: it's made anew, so that it's one's own, if a start left it that was
    /// killed.
    fn behind<R: Files<File = File>>(rt: &R, path: String) -> io::Result<Option<Lock>> {
        if !fs::symlink_metadata(rt, path.as_str())?.is_file() {
            return Ok(None);
        }
        let file = File::open(rt, path.as_str())?;
        let Some(Lock { path, file: left }) = (Lock { path, file }).held(rt)? else {
            return Ok(None);
        };
        fs::remove_file(rt, path.as_str())?;
        let file = match File::create_new(rt, path.as_str()) {
            Ok(file) => file,
            Err(error) if error.kind() == ErrorKind::AlreadyExists => return Ok(None),
            Err(error) => return Err(error),
        };
        let held = Lock { path, file }.held(rt);
        // Until now no other start could take what was left.
        drop(left);
        held
    }

    /// Locks the file, if no other start has it locked, or has put another one in its place.
    fn held<R: Files<File = File>>(self, rt: &R) -> io::Result<Option<Lock>> {
        match self.file.try_lock() {
            Ok(()) => {}
            Err(TryLockError::WouldBlock) => return Ok(None),
            Err(TryLockError::Error(error)) => return Err(error),
        }
        let own = self.file.metadata()?;
        match fs::metadata(rt, self.path.as_str()) {
            Ok(there) if there.ino() == own.ino() && there.dev() == own.dev() => Ok(Some(self)),
            Ok(_) => Ok(None),
            Err(error) if error.kind() == ErrorKind::NotFound => Ok(None),
            Err(error) => Err(error),
        }
    }

    /// Whether the directory is of the user who made the file in it, and not open to all: others could put a link in the
    /// place of a file there, and have another file written.
    fn is_own<R: Files<File = File>>(&self, rt: &R, directory: &str) -> io::Result<bool> {
        let directory = fs::metadata(rt, directory)?;
        let lock = self.file.metadata()?;
        Ok(directory.uid() == lock.uid() && directory.mode() & OTHERS_WRITE == 0)
    }
}

impl Taken {
    /// Takes one directory more: whether it was to be had.
    fn add<R: Files<File = File>>(
        &mut self,
        rt: &R,
        alloc: Global,
        directory: &str,
    ) -> Result<bool, Failed> {
        let Some(lock) = Lock::of(rt, alloc, directory)? else {
            return Ok(false);
        };
        let is_own = lock.is_own(rt, directory);
        self.locks.push(lock)?;
        Ok(is_own?)
    }

    /// Takes the files away, and unlocks them.
    pub fn leave<R: Files>(self, rt: &R) {
        let Taken { locks } = self;
        for Lock { path, file } in locks {
            let _ = fs::remove_file(rt, path.as_str());
            drop(file);
        }
    }
}
