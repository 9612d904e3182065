//! Two files on a disk.

ghost use Rattle.std.specs.Prelude.{[], ◌∷◌, true, OnOk};
ghost use Rattle.vr_ports.specs.Parties.{Grows};
ghost use Rattle.vr_disk.specs.Disks.{Flushed, Wrote};

use crate::writing::Writing;
use std::alloc::{AllocError, Global};
use std::io;
use thiserror::Error;
use vr_journal::File;

/// A read, a write or a flush failed, or memory ran out.
#[derive(Clone, Copy, Debug, PartialEq, Eq, Error)]
#[error("the files of a journal can't be read or written")]
pub struct DiskFault;

impl From<io::Error> for DiskFault {
    fn from(_error: io::Error) -> DiskFault {
        DiskFault
    }
}

impl From<AllocError> for DiskFault {
    fn from(_error: AllocError) -> DiskFault {
        DiskFault
    }
}

/// The two files of a journal. They tell what was done with them, or tell nothing.
pub trait Disk {
    ghost use Rattle.std.specs.Prelude.{[], ◌∷◌, List, Option, is_ok};
    ghost use Rattle.vr_ports.specs.Parties.{Grows};
    ghost use Rattle.vr_disk.specs.Disks.{DiskDeed, Flushed, Read, Wrote, read_as};

    // What was done with them so far, if they tell.
    ghost deeds: { Self → Option (List DiskDeed) };

    /// All bytes of a file; none of one that isn't there yet.
    fn read(&mut self, alloc: Global, file: File) -> Result<Vec<u8>, DiskFault>
        ensures { Grows (deeds self.old) (deeds self.new) (Read file (read_as result) ∷ []) };

    /// Writes these bytes over what a file has, from a place on. Where it fails any part of them may stand there.
    fn write(&mut self, file: File, at: usize, bytes: &[u8]) -> Result<(), DiskFault>
        ensures { Grows (deeds self.old) (deeds self.new) (Wrote file at bytes.now (is_ok result) ∷ []) };

    /// Flushes a file: once that's done no power cut takes away what was written to it before.
    fn flush(&mut self, file: File) -> Result<(), DiskFault>
        ensures { Grows (deeds self.old) (deeds self.new) (Flushed file (is_ok result) ∷ []) };
}

/// Writes what is to be written, and flushes it. Where it fails its replica is to be let go: it goes on from what
/// stands in the files.
#[tactic(auto, using(crate::proofs::Performing::performed))]
pub fn perform<D: Disk>(disk: &mut D, writing: &Writing) -> Result<(), DiskFault>
    ensures { OnOk result (Grows (D.deeds disk.old) (D.deeds disk.new)
        (Wrote writing.now.file writing.now.at writing.now.bytes.items true ∷ Flushed writing.now.file true ∷ [])) }
{
    disk.write(writing.file, writing.at, writing.bytes.as_slice())?;
    disk.flush(writing.file)
}
