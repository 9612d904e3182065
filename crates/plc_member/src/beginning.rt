//! The file that stands in a machine's directory from when it begins an epoch until its replica has counted its first
//! start there.

use net_hello::Epoch;
use plc_store::DiskFault;
use std::alloc::{AllocError, Global};
use std::fs::{File, OpenFile};
use std::io::{ErrorKind, Write};
use std::rt::Files;
use std::{fs, io};

/// So many bytes has the file.
const LENGTH: usize = 40;

/// The file of a machine that begins an epoch. Where its store has the epoch as begun, the view of its replica isn't
/// there and this file is, the machine stopped in between: so it has said nothing in the epoch, and its replica may
/// start there as new. Without the file that view is lost.
#[derive(Drop)]
pub struct Beginning<R: Files + Drop> {
    rt: R,
    directory: String,
    path: String,
    beside: String,
}

/// What the file of this epoch has: its number, and the sum of its image.
fn bytes_of(epoch: &Epoch) -> [u8; LENGTH] {
    let mut bytes = [0u8; LENGTH];
    bytes[..8].copy_from_slice(epoch.number.to_be_bytes().as_slice());
    bytes[8..].copy_from_slice(epoch.image.as_slice());
    bytes
}

/// Takes a file away, if it's there.
fn remove<R: Files>(rt: &R, path: &str) -> io::Result<()> {
    match fs::remove_file(rt, path) {
        Err(error) if error.kind() != ErrorKind::NotFound => Err(error),
        _ => Ok(()),
    }
}

impl<R: Files<File = File> + Drop> Beginning<R> {
    /// That of this directory.
    pub(crate) fn new(rt: R, alloc: Global, directory: &str) -> Result<Beginning<R>, AllocError> {
        Ok(Beginning {
            rt,
            directory: String::from_str(alloc, directory)?,
            path: format!(in alloc; "{directory}/begins")?,
            beside: format!(in alloc; "{directory}/begins.new")?,
        })
    }

    /// Writes it beside, flushes it, and puts it in its place.
    fn write(&self, epoch: &Epoch) -> io::Result<()> {
        remove(&self.rt, self.beside.as_str())?;
        {
            let mut file = File::create_new(&self.rt, self.beside.as_str())?;
            file.write_all(bytes_of(epoch).as_slice())?;
            file.sync_all()?;
        }
        fs::rename(&self.rt, self.beside.as_str(), self.path.as_str())?;
        self.flush()
    }

    fn flush(&self) -> io::Result<()> {
        fs::open(&self.rt, self.directory.as_str())?.sync_all()
    }

    /// It begins this epoch: the file is on disk before it's answered.
    pub(crate) fn put(&self, epoch: &Epoch) -> Result<(), DiskFault> {
        self.write(epoch).map_err(DiskFault::from)
    }

    /// Its replica has counted a start: the file is away before it's answered.
    pub(crate) fn end(&self) -> Result<(), DiskFault> {
        remove(&self.rt, self.path.as_str())?;
        self.flush()?;
        Ok(())
    }
}

impl<R: Files<File = File> + Alloc<A = Global> + Drop> Beginning<R> {
    /// Whether it begins this epoch, and its replica has counted no start there.
    pub(crate) fn is_of(&self, epoch: &Epoch) -> bool {
        match fs::read(&self.rt, self.path.as_str()) {
            Ok(bytes) => bytes.as_slice() == bytes_of(epoch).as_slice(),
            Err(_) => false,
        }
    }
}
