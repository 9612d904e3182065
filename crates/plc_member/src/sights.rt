//! Which stores of other machines a machine's own store has seen, for whichever thread sees one.

use plc_store::{DiskFault, FileDirectory, Refusal, see};
use std::alloc::{AllocError, Global};
use std::fs::File;
use std::rt::Files;

/// Where a machine's store is kept, which it may be written to beside whoever has the directory, since nobody else
/// writes it while a replica runs there.
#[derive(Drop)]
pub(crate) struct Sights<R: Files + Drop> {
    rt: R,
    alloc: Global,
    path: String,
}

/// Why a store can't be written.
fn fault_of(refusal: Refusal) -> DiskFault {
    match refusal {
        Refusal::Device(fault) => fault,
        _ => DiskFault::Other,
    }
}

impl<R: Files<File = File> + Alloc<A = Global> + Copy + Drop> Sights<R> {
    /// Of the store in this directory.
    pub(crate) fn new(rt: R, alloc: Global, path: &str) -> Result<Sights<R>, AllocError> {
        Ok(Sights {
            rt,
            alloc,
            path: String::from_str(alloc, path)?,
        })
    }

    /// Has the store say that this one was seen of a machine: it's on disk before it's answered.
    fn put(&self, machine: u8, store: u64) -> Result<(), Refusal> {
        let mut directory = FileDirectory::look(self.rt, self.alloc, self.path.as_str())?;
        let _ = see(self.alloc, &mut directory, machine, store)?;
        Ok(())
    }

    /// The same, where that can't be written with the fault of the disk.
    pub(crate) fn see(&self, machine: u8, store: u64) -> Result<(), DiskFault> {
        self.put(machine, store).map_err(fault_of)
    }
}
