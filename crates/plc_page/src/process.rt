//! What this process takes, as Linux tells it in /proc.

use plc_figures::Process;
use std::fs::File;
use std::io::{Read, Seek, SeekFrom};
use std::rt::Files;
use std::{io, str};

/// More than what is read of a file has.
const MOST: usize = 4096;

/// In microseconds: the unit in which Linux tells times of processes.
const TICK: u64 = 10_000;

/// The files that tell what this process takes.
#[derive(Drop)]
pub struct ProcessFiles {
    /// /proc/self/status
    status: File,
    /// /proc/self/stat
    stat: File,
}

impl ProcessFiles {
    /// Those of Linux.
    pub fn open<R: Files<File = File>>(rt: &R) -> io::Result<ProcessFiles> {
        Ok(ProcessFiles {
            status: File::open(rt, "/proc/self/status")?,
            stat: File::open(rt, "/proc/self/stat")?,
        })
    }

    /// What they tell now, if they do.
    pub(crate) fn read(&mut self) -> Option<Process> {
        let mut text = [0; MOST];
        let resident = resident_in(beginning_of(&mut self.status, &mut text)?)?;
        let processor = processor_in(beginning_of(&mut self.stat, &mut text)?)?;
        Some(Process {
            resident,
            processor,
        })
    }
}

/// What one read of a file gives, from its beginning.
fn beginning_of<'a>(file: &mut File, text: &'a mut [u8; MOST]) -> Option<&'a str> {
    file.seek(SeekFrom::Start(0)).ok()?;
    let count = file.read(text).ok()?;
    str::from_utf8(text.get(..count)?).ok()
}

/// The bytes that are resident, by the text of /proc/self/status.
fn resident_in(text: &str) -> Option<u64> {
    let kilobytes = text
        .lines()
        .find_map(|line| line.strip_prefix("VmRSS:"))?
        .trim()
        .strip_suffix(" kB")?;
    kilobytes.parse::<u64>().ok()?.checked_mul(1024)
}

/// The time on processors in microseconds, by the text of /proc/self/stat: the 14th and the 15th word, counted behind
/// the name, which has parentheses.
fn processor_in(text: &str) -> Option<u64> {
    let (_, behind) = text.rsplit_once(')')?;
    let mut words = behind.split_whitespace().skip(11);
    let user = words.next()?.parse::<u64>().ok()?;
    let system = words.next()?.parse::<u64>().ok()?;
    user.checked_add(system)?.checked_mul(TICK)
}
