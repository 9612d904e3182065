//! Files of a store's directory, each put there whole.

use std::alloc::{AllocError, Global};
use std::fs::{File, OpenFile};
use std::io::{ErrorKind, Write};
use std::os::unix::fs::{MetadataExt, fchown};
use std::rt::Files;
use std::{fs, io};

/// A file of a directory. Its bytes are written beside it, flushed, and put in its place: so it has those before or
/// these, whenever the machine stops.
#[derive(Drop)]
pub struct WholeFile {
    directory: String,
    path: String,
    beside: String,
}

impl WholeFile {
    /// The file of this name in a directory.
    pub fn new(alloc: Global, directory: &str, name: &str) -> Result<WholeFile, AllocError> {
        Ok(WholeFile {
            directory: String::from_str(alloc, directory)?,
            path: format!(in alloc; "{directory}/{name}")?,
            beside: format!(in alloc; "{directory}/{name}.new")?,
        })
    }

    /// Its bytes, if it's there.
    pub(crate) fn read<R: Files + Alloc<A = Global>>(&self, rt: &R) -> io::Result<Option<Vec<u8>>> {
        match fs::read(rt, self.path.as_str()) {
            Ok(bytes) => Ok(Some(bytes)),
            Err(error) if error.kind() == ErrorKind::NotFound => Ok(None),
            Err(error) => Err(error),
        }
    }

    /// Puts these bytes in its place, with the owner and the rights of what was there. What stands beside it goes first: a
    /// link that was put there leads to another file, which stays as it is.
    pub fn put<R: Files<File = File>>(&self, rt: &R, bytes: &[u8]) -> io::Result<()> {
        remove(rt, self.beside.as_str())?;
        {
            let mut file = File::create_new(rt, self.beside.as_str())?;
            keep_owner(rt, self.path.as_str(), &file);
            file.write_all(bytes)?;
            file.sync_all()?;
        }
        fs::rename(rt, self.beside.as_str(), self.path.as_str())?;
        self.flush_directory(rt)
    }

    /// Flushes which files its directory has.
    pub(crate) fn flush_directory<R: Files<File = File>>(&self, rt: &R) -> io::Result<()> {
        flush(rt, self.directory.as_str())
    }

    /// Takes it away, if it's there. The directory isn't flushed.
    pub(crate) fn remove<R: Files>(&self, rt: &R) -> io::Result<()> {
        remove(rt, self.path.as_str())
    }
}

/// Gives a file that is to stand at a path the owner and the rights of the one that stands there, as far as that's
/// allowed.
fn keep_owner<R: Files>(rt: &R, path: &str, file: &File) {
    if let Ok(there) = fs::metadata(rt, path) {
        let _ = fchown(file, Some(there.uid()), Some(there.gid()));
        let _ = file.set_permissions(there.permissions());
    }
}

/// Takes a file away, if it's there.
pub(crate) fn remove<R: Files>(rt: &R, path: &str) -> io::Result<()> {
    match fs::remove_file(rt, path) {
        Err(error) if error.kind() != ErrorKind::NotFound => Err(error),
        _ => Ok(()),
    }
}

/// Flushes which files a directory has.
pub(crate) fn flush<R: Files<File = File>>(rt: &R, directory: &str) -> io::Result<()> {
    fs::open(rt, directory)?.sync_all()
}
