//! What is reported of a served controller.

ghost use Rattle.std.specs.Prelude.{◌≡◌, [], IfOk, OnOk};
ghost use Rattle.std.specs.Io.KnownBytes.{Appends};
ghost use Rattle.std.specs.String.{string_bytes};
ghost use Rattle.plc_status.specs.Notices.{report_line};

use io_file::NewFile;
use io_model::{CountedWrite, DeviceFault, write_all};
use plc_host::Failed;
use std::alloc::{AllocError, Global};
use std::io;
use std::io::Write;
use std::rt::Files;

/// The file of a report: it's made, or emptied if it's there, at its first write, even if that is of no byte. Where
/// none is wanted, what is written is lost.
#[derive(Drop)]
pub struct ReportFile<'a, R: Files> {
    file: Option<NewFile<'a, R>>,
}

impl<'a, R: Files> ReportFile<'a, R> {
    /// The file at this path, if one is wanted.
    pub fn at(rt: &'a R, path: Option<&'a str>) -> ReportFile<'a, R> {
        ReportFile {
            file: match path {
                Some(path) => Some(NewFile::at(rt, path)),
                None => None,
            },
        }
    }
}

impl<R: Files> Write for ReportFile<'_, R> {
    fn write(&mut self, bytes: &[u8]) -> io::Result<usize> {
        match &mut self.file {
            Some(file) => file.write(bytes),
            None => Ok(bytes.len()),
        }
    }

    fn flush(&mut self) -> io::Result<()> {
        match &mut self.file {
            Some(file) => file.flush(),
            None => Ok(()),
        }
    }
}

/// What came to pass while a controller was served.
#[derive(Clone, Copy)]
pub struct Counts {
    /// How often a replica crashed because that was asked for.
    pub crashes: u64,
    /// How many scans were released.
    pub scans: u32,
    /// How many connections were given a session.
    pub sessions: u64,
    /// How many writes got a ticket.
    pub writes: u64,
}

/// The line that tells them.
fn line_of(alloc: Global, counts: Counts) -> Result<String, AllocError>
    ensures { IfOk result (λ line. string_bytes line
        ≡ report_line counts.crashes counts.scans counts.sessions counts.writes) }
{
    let Counts {
        crashes,
        scans,
        sessions,
        writes,
    } = counts;
    format!(in alloc;
        "{{\"crashes\":{crashes},\"scans\":{scans},\"sessions\":{sessions},\"writes\":{writes}}}\n"
    )
}

/// Writes no byte: a file that can't be written is told so before anything is started.
pub fn open_report<F: CountedWrite>(report: &mut F) -> Result<(), DeviceFault>
    ensures { OnOk result (Appends (F.held report.old) (F.held report.new) []) }
{
    report.write(&[])?;
    Ok(())
}

/// Writes the line.
pub fn put_report<F: CountedWrite>(
    alloc: Global,
    counts: Counts,
    report: &mut F,
) -> Result<(), Failed>
    ensures { OnOk result (Appends (F.held report.old) (F.held report.new)
        (report_line counts.crashes counts.scans counts.sessions counts.writes)) }
{
    let line = line_of(alloc, counts)?;
    Ok(write_all(report, line.as_str().as_bytes())?)
}
