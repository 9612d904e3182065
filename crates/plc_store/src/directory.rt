//! The directory of a machine's store.

use crate::files::{WholeFile, flush, remove};
use crate::judging::Refusal;
use crate::marking::MARK;
use std::alloc::{AllocError, Global};
use std::fs::{File, OpenFile, TryLockError};
use std::io::ErrorKind;
use std::os::unix::fs::MetadataExt;
use std::rt::Files;
use std::{fs, io};
use vr_model::MOST_REPLICAS;

/// The bit of a mode by which all may write.
const OTHERS_WRITE: u32 = 0o002;

/// Why a store can't be read or written, as far as the system says it.
#[derive(Clone, Copy, Debug, PartialEq, Eq)]
pub enum DiskFault {
    /// Its directory, or a file there, may not be read or written.
    Rights,
    /// The disk is full.
    Space,
    /// The directory, or a file there, is gone.
    Missing,
    /// Something else failed.
    Other,
}

impl From<io::Error> for DiskFault {
    fn from(error: io::Error) -> DiskFault {
        match error.kind() {
            ErrorKind::PermissionDenied | ErrorKind::ReadOnlyFilesystem => DiskFault::Rights,
            ErrorKind::StorageFull | ErrorKind::QuotaExceeded => DiskFault::Space,
            ErrorKind::NotFound => DiskFault::Missing,
            _ => DiskFault::Other,
        }
    }
}

/// Where the store of one machine is kept, beside the views of its replica and the mark of a change.
pub trait StoreDirectory {
    ghost use Rattle.std.specs.Prelude.{◌≡◌, ◌⊎◌, ℕ, List, [], Option, None, Some, OnErr, OnOk, option_map};

    // The bytes of the store, if there is one.
    ghost group: { Self → Option (List ℕ) };

    // The numbers of the replicas that have kept a view there.
    ghost views: { Self → List ℕ };

    // The bytes of the mark, if there is one.
    ghost mark: { Self → Option (List ℕ) };

    /// The bytes of the store, if there is one.
    fn group(&self) -> Option<&[u8]>
        ensures { option_map (λ bytes. bytes.now) result ≡ group self.now };

    /// The numbers of the replicas that have kept a view there.
    fn views(&self) -> &[u8]
        ensures { result.now ≡ views self.now };

    /// The bytes of the mark, if there is one.
    fn mark(&self) -> Option<&[u8]>
        ensures { option_map (λ bytes. bytes.now) result ≡ mark self.now };

    /// Puts these bytes in the store's place. Where that fails the store is as it was, or these bytes.
    fn put(&mut self, bytes: Vec<u8>) -> Result<(), DiskFault>
        ensures done { OnOk result (group self.new ≡ Some bytes.items) }
        ensures failed { OnErr result ((group self.new ≡ group self.old) ⊎ (group self.new ≡ Some bytes.items)) }
        ensures views { views self.new ≡ views self.old }
        ensures mark { mark self.new ≡ mark self.old };

    /// Takes the views away, and the mark. Where that fails some of them may be left.
    fn forget_views(&mut self) -> Result<(), DiskFault>
        ensures views { OnOk result (views self.new ≡ []) }
        ensures mark { OnOk result (mark self.new ≡ None) }
        ensures group { group self.new ≡ group self.old };
}

/// A directory of the machine's disk, which one process at a time takes. A store is its file `group`, and a view the
/// file of a `FileStore`; the mark is its file `changed`.
#[derive(Drop)]
pub struct FileDirectory<R: Files + Drop> {
    rt: R,
    path: String,
    store: WholeFile,
    changed: WholeFile,
    /// Open, and locked until it's closed; none where the directory is only looked at.
    lock: Option<File>,
    group: Option<Vec<u8>>,
    views: Vec<u8>,
    mark: Option<Vec<u8>>,
}

impl<R: Files<File = File> + Alloc<A = Global> + Drop> FileDirectory<R> {
    /// Makes the directory, where it isn't there, and takes it. `Taken` is answered where another process has it,
    /// `Open` where all may write to it.
    pub fn make(rt: R, alloc: Global, path: &str) -> Result<FileDirectory<R>, Refusal> {
        fs::create_dir_all(&rt, path)?;
        FileDirectory::take(rt, alloc, path)
    }

    /// Takes the directory. `NoStore` is answered where it isn't there, `Taken` where another process has it, `Open`
    /// where all may write to it.
    pub fn take(rt: R, alloc: Global, path: &str) -> Result<FileDirectory<R>, Refusal> {
        let lock = fs::open(&rt, path)?;
        if fs::metadata(&rt, path)?.mode() & OTHERS_WRITE != 0 {
            return Err(Refusal::Open);
        }
        match lock.try_lock() {
            Ok(()) => {}
            Err(TryLockError::WouldBlock) => return Err(Refusal::Taken),
            Err(TryLockError::Error(error)) => return Err(Refusal::from(error)),
        }
        let mut directory = FileDirectory::look(rt, alloc, path)?;
        directory.lock = Some(lock);
        Ok(directory)
    }

    /// Looks at the directory, whoever has it. `NoStore` is answered where it isn't there.
    pub fn look(rt: R, alloc: Global, path: &str) -> Result<FileDirectory<R>, Refusal> {
        let store = WholeFile::new(alloc, path, "group")?;
        let changed = WholeFile::new(alloc, path, MARK)?;
        Ok(FileDirectory {
            group: store.read(&rt)?,
            views: views_in(&rt, alloc, path)?,
            mark: changed.read(&rt)?,
            path: String::from_str(alloc, path)?,
            store,
            changed,
            lock: None,
            rt,
        })
    }

    /// Looks at it once more: a replica has kept its view there since, or a change was marked.
    pub fn look_again(&mut self) -> Result<(), Refusal> {
        self.group = self.store.read(&self.rt)?;
        self.views = views_in(&self.rt, self.rt.alloc(), self.path.as_str())?;
        self.mark = self.changed.read(&self.rt)?;
        Ok(())
    }

    /// Takes the views away, and the mark, and flushes that.
    fn clear_views(&self) -> io::Result<()> {
        let path = self.path.as_str();
        for replica in 0..MOST_REPLICAS as u8 {
            let file = format!(in self.rt.alloc(); "{path}/replica-{replica}")?;
            remove(&self.rt, file.as_str())?;
        }
        self.changed.remove(&self.rt)?;
        flush(&self.rt, path)
    }
}

/// The numbers of the replicas that have kept a view in a directory.
fn views_in<R: Files>(rt: &R, alloc: Global, path: &str) -> io::Result<Vec<u8>> {
    let mut views = Vec::new(alloc);
    for replica in 0..MOST_REPLICAS as u8 {
        let file = format!(in alloc; "{path}/replica-{replica}")?;
        if fs::exists(rt, file.as_str())? {
            views.push(replica)?;
        }
    }
    Ok(views)
}

impl<R: Files<File = File> + Alloc<A = Global> + Drop> StoreDirectory for FileDirectory<R> {
    ghost use Rattle.std.specs.Prelude.{option_map};

    ghost group = { λ d. option_map (λ bytes. bytes.items) d.group };

    ghost views = { λ d. d.views.items };

    ghost mark = { λ d. option_map (λ bytes. bytes.items) d.mark };

    fn group(&self) -> Option<&[u8]> {
        match &self.group {
            Some(bytes) => Some(bytes.as_slice()),
            None => None,
        }
    }

    fn views(&self) -> &[u8] {
        self.views.as_slice()
    }

    fn mark(&self) -> Option<&[u8]> {
        match &self.mark {
            Some(bytes) => Some(bytes.as_slice()),
            None => None,
        }
    }

    fn put(&mut self, bytes: Vec<u8>) -> Result<(), DiskFault> {
        self.store.put(&self.rt, bytes.as_slice())?;
        self.group = Some(bytes);
        Ok(())
    }

    fn forget_views(&mut self) -> Result<(), DiskFault> {
        self.clear_views()?;
        self.views.clear();
        self.mark = None;
        Ok(())
    }
}
