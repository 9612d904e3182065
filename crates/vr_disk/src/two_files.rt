//! The files of a journal, by std.

use crate::disk::{Disk, DiskFault};
use std::alloc::{AllocError, Global};
use std::fs;
use std::fs::OpenFile;
use std::io::{Read, Seek, SeekFrom, Write};
use std::rt::Files;
use vr_journal::File;

/// So long both files are made: as long as a file gets before it's left, and a base's length. They're written over, so
/// a flush needs no new length.
const MADE: usize = 131_072;

/// So many bytes are made at once.
const PIECE: usize = 4096;

/// The two files of a machine's journal in a directory that is there: `journal-I-0` and `journal-I-1`.
#[derive(Drop)]
pub struct TwoFiles<R: Files + Drop> {
    first: R::File,
    second: R::File,
}

/// Opens a file, to read it and to write it over; one that isn't there is made, of zeros. It's flushed by then.
fn opened<R: Files>(rt: &R, path: &str) -> Result<R::File, DiskFault> {
    let mut file = fs::File::options()
        .read(true)
        .write(true)
        .create(true)
        .open(rt, path)?;
    if file.seek(SeekFrom::End(0))? == 0 {
        for _ in 0..MADE / PIECE {
            file.write_all([0u8; PIECE].as_slice())?;
        }
        file.sync_all()?;
    }
    Ok(file)
}

impl<R: Files + Drop> TwoFiles<R> {
    /// The files of the machine with this number, in this directory, which is flushed too where they're new.
    pub fn open(
        rt: &R,
        alloc: Global,
        directory: &str,
        machine: u8,
    ) -> Result<TwoFiles<R>, DiskFault> {
        let first = path_of(alloc, directory, machine, 0)?;
        let second = path_of(alloc, directory, machine, 1)?;
        let files = TwoFiles {
            first: opened(rt, first.as_str())?,
            second: opened(rt, second.as_str())?,
        };
        fs::open(rt, directory)?.sync_all()?;
        Ok(files)
    }

    fn file(&mut self, file: File) -> &mut R::File {
        match file {
            File::First => &mut self.first,
            File::Second => &mut self.second,
        }
    }
}

fn path_of(alloc: Global, directory: &str, machine: u8, number: u8) -> Result<String, AllocError> {
    format!(in alloc; "{directory}/journal-{machine}-{number}")
}

impl<R: Files + Drop> Disk for TwoFiles<R> {
    ghost use Rattle.std.specs.Prelude.{None};

    ghost deeds = { λ d. None };

    fn read(&mut self, alloc: Global, file: File) -> Result<Vec<u8>, DiskFault> {
        let file = self.file(file);
        file.seek(SeekFrom::Start(0))?;
        let mut bytes = Vec::new(alloc);
        file.read_to_end(&mut bytes)?;
        Ok(bytes)
    }

    fn write(&mut self, file: File, at: usize, bytes: &[u8]) -> Result<(), DiskFault> {
        let file = self.file(file);
        file.seek(SeekFrom::Start(at as u64))?;
        file.write_all(bytes)?;
        Ok(())
    }

    fn flush(&mut self, file: File) -> Result<(), DiskFault> {
        self.file(file).sync_data()?;
        Ok(())
    }
}
