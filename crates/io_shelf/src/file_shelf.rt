//! A file of the machine's disk.

ghost use Rattle.std.specs.Prelude.{◌≡◌, ◌≤◌, IfOk, OnErr, OnOk};
ghost use Rattle.io_model.specs.Streams.{Failed};
ghost use Rattle.io_shelf.specs.Held.{IsOneOf};
ghost use Rattle.io_shelf.specs.Shelves.{NoMore, OldOrNew, Only, content_of};

use crate::held::{Held, copied};
use crate::shelf::{Shelf, ShelfFault};
use std::alloc::{AllocError, Global};
use std::fs::{File, OpenFile};
use std::io::{ErrorKind, Write};
use std::os::unix::fs::{MetadataExt, fchown};
use std::rt::Files;
use std::{fs, io, mem};

/// A file of a directory of the machine's disk. Its bytes are written beside it, flushed, and put in its place; which
/// files the directory has is flushed behind that. It keeps in memory what it read or put there last, and refuses to
/// read another content: then somebody else has changed the file.
#[derive(Drop)]
pub struct FileShelf<R: Files + Drop> {
    rt: R,
    directory: String,
    path: String,
    beside: String,
    held: Held,
    failures: u64,
}

/// Takes a file away, if it's there.
fn remove_at<R: Files>(rt: &R, path: &str) -> io::Result<()> {
    match fs::remove_file(rt, path) {
        Err(error) if error.kind() != ErrorKind::NotFound => Err(error),
        _ => Ok(()),
    }
}

/// Gives a file that is to stand at a path the owner and the rights of the one that stands there, as far as that's
/// allowed.
fn keep_owner<R: Files>(rt: &R, path: &str, file: &File) {
    if let Ok(there) = fs::metadata(rt, path) {
        let _ = fchown(file, Some(there.uid()), Some(there.gid()));
        let _ = file.set_permissions(there.permissions());
    }
}

impl<R: Files<File = File> + Alloc<A = Global> + Drop> FileShelf<R> {
    /// The file of this name in a directory, not read yet.
    pub fn new(rt: R, directory: &str, name: &str) -> Result<FileShelf<R>, AllocError> {
        let alloc = rt.alloc();
        Ok(FileShelf {
            directory: String::from_str(alloc, directory)?,
            path: format!(in alloc; "{directory}/{name}")?,
            beside: format!(in alloc; "{directory}/{name}.new")?,
            held: Held::Unknown,
            failures: 0,
            rt,
        })
    }

    /// Writes these bytes beside the file, with its owner and its rights, and flushes them. What stands there goes
    /// first: a link that was put there leads to another file, which stays as it is.
    fn write_beside(&self, bytes: &[u8]) -> io::Result<()> {
        remove_at(&self.rt, self.beside.as_str())?;
        let mut file = File::create_new(&self.rt, self.beside.as_str())?;
        keep_owner(&self.rt, self.path.as_str(), &file);
        file.write_all(bytes)?;
        file.sync_all()
    }

    /// Flushes which files the directory has.
    fn flush(&self) -> io::Result<()> {
        fs::open(&self.rt, self.directory.as_str())?.sync_all()
    }

    /// Puts these bytes in the file's place.
    fn put(&self, bytes: &[u8]) -> io::Result<()> {
        self.write_beside(bytes)?;
        fs::rename(&self.rt, self.beside.as_str(), self.path.as_str())?;
        self.flush()
    }

    /// Takes the file away.
    fn take_away(&self) -> io::Result<()> {
        remove_at(&self.rt, self.path.as_str())?;
        self.flush()
    }

    /// What the file has. Where it isn't known what that is, the directory is flushed first: so that a power cut
    /// leaves what was read.
    fn load(&self) -> Result<Option<Vec<u8>>, ShelfFault> {
        if !self.held.is_settled() {
            self.flush()?;
        }
        match fs::read(&self.rt, self.path.as_str()) {
            Ok(bytes) => Ok(Some(bytes)),
            Err(error) if error.kind() == ErrorKind::NotFound => Ok(None),
            Err(error) => Err(ShelfFault::from(error)),
        }
    }

    /// Counts a failure.
    fn fail(&mut self, fault: ShelfFault) -> ShelfFault
        ensures device { Failed self.old.failures self.new.failures }
        ensures counts { self.old.failures ≤ self.new.failures }
        ensures held { self.new.held ≡ self.old.held }
    {
        self.failures = self.failures.saturating_add(1);
        fault
    }

    /// Notes what was found in the file: if that may be there, it's what it has from then on.
    fn settle(&mut self, found: Option<Vec<u8>>) -> Result<Option<Vec<u8>>, ShelfFault>
        ensures same { IfOk result (λ told. told ≡ found) }
        ensures found { OnOk result (IsOneOf self.old.held (content_of found)) }
        ensures settled { OnOk result (Only (content_of found) (IsOneOf self.new.held)) }
        ensures no_more { NoMore (IsOneOf self.old.held) (IsOneOf self.new.held) }
        ensures device { OnErr result (Failed self.old.failures self.new.failures) }
        ensures counts { self.old.failures ≤ self.new.failures }
    {
        if !self.held.has(&found) {
            return Err(self.fail(ShelfFault::Changed));
        }
        let Ok(copy) = copied(self.rt.alloc(), &found) else {
            return Err(self.fail(ShelfFault::Memory));
        };
        self.held = Held::One(copy);
        Ok(found)
    }

    /// Changes the file to this. Behind a change that failed it's read first.
    fn change(&mut self, new: Option<Vec<u8>>) -> Result<(), ShelfFault>
        ensures settled { OnOk result (Only (content_of new) (IsOneOf self.new.held)) }
        ensures old_or_new { OldOrNew (content_of new) (IsOneOf self.old.held) (IsOneOf self.new.held) }
        ensures failed { OnErr result (NoMore (IsOneOf self.new.held) (IsOneOf self.old.held)) }
        ensures device { OnErr result (Failed self.old.failures self.new.failures) }
        ensures counts { self.old.failures ≤ self.new.failures }
    {
        if self.held.is_unread() {
            return Err(self.fail(ShelfFault::Unread));
        }
        let changed = match &new {
            Some(bytes) => self.put(bytes.as_slice()),
            None => self.take_away(),
        };
        match changed {
            Ok(()) => {
                self.held = Held::One(new);
                Ok(())
            }
            Err(error) => {
                self.held = mem::replace(&mut self.held, Held::Unknown).or(new);
                Err(self.fail(ShelfFault::from(error)))
            }
        }
    }
}

impl<R: Files<File = File> + Alloc<A = Global> + Drop> Shelf for FileShelf<R> {
    ghost use Rattle.std.specs.Prelude.{false, ⊤};
    ghost use Rattle.io_shelf.specs.Held.{IsOneOf, one_of, untold};

    // A disk tells no moments.
    ghost tells = { false };

    ghost may_leave = { λ s c. IsOneOf s.held c };

    ghost moment = { λ s. 0 };

    ghost left_since = { λ s t c. ⊤ };

    ghost faults = { λ s. s.failures };

    ghost leaves_some = { λ s. one_of s.held };

    ghost counts_now = { λ s t c le now. tt };

    ghost only_now = { λ s c tells left. untold tells };

    fn read(&mut self) -> Result<Option<Vec<u8>>, ShelfFault> {
        match self.load() {
            Ok(found) => self.settle(found),
            Err(fault) => Err(self.fail(fault)),
        }
    }

    fn replace(&mut self, bytes: &[u8]) -> Result<(), ShelfFault> {
        match bytes.to_vec(self.rt.alloc()) {
            Ok(copy) => self.change(Some(copy)),
            Err(_) => Err(self.fail(ShelfFault::Memory)),
        }
    }

    fn remove(&mut self) -> Result<(), ShelfFault> {
        self.change(None)
    }
}
