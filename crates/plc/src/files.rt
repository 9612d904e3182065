//! Files that a call reads: what they hold, how it's told what is wrong with one, and whether two paths are one file.

use il_text::{Fault, put, put_numbered, tell};
use io_model::{CountedWrite, DeviceFault};
use plc_json::{Listed, Misfit, misfit_in};
use std::fs;
use std::io::Read;
use std::os::unix::fs::MetadataExt;

/// The bits of a mode by which others than owner and group may do something.
const OTHERS: u32 = 0o007;

/// The word for standard input or standard output, where a file's path may stand.
pub(crate) const STREAM: &str = "-";

/// What a file holds.
pub(crate) fn file(rt: &HostRuntime, path: &str) -> Result<Vec<u8>, Fault> {
    Ok(fs::read(rt, path)?)
}

/// What a file holds, or standard input.
pub(crate) fn text_at(rt: &HostRuntime, path: &str) -> Result<Vec<u8>, Fault> {
    if path != STREAM {
        return file(rt, path);
    }
    let mut text = Vec::new(rt.alloc());
    rt.stdin().read_to_end(&mut text)?;
    Ok(text)
}

/// Tells why files are refused before anything is read, and answers the status.
pub(crate) fn refuse<E: CountedWrite>(err: &mut E, line: &[u8]) -> u8 {
    let _ = put(err, line);
    Fault::Commands.status()
}

/// Tells a path behind a text.
pub(crate) fn put_path<E: CountedWrite>(text: &[u8], path: &str, err: &mut E) {
    if put(err, text).is_ok() && put(err, path.as_bytes()).is_ok() {
        let _ = put(err, b"\n");
    }
}

/// Tells a device that failed by its path, and answers the status.
pub(crate) fn tell_path<E: CountedWrite>(text: &[u8], path: &str, err: &mut E) -> u8 {
    put_path(text, path, err);
    Fault::Device.status()
}

/// Tells that a file can't be read, and answers the status.
pub(crate) fn tell_unread<E: CountedWrite>(path: &str, err: &mut E) -> u8 {
    tell_path(b"plc: device read ", path, err)
}

/// Tells that a file can't be written, and answers the status.
pub(crate) fn tell_unwritten<E: CountedWrite>(path: &str, err: &mut E) -> u8 {
    tell_path(b"plc: device write ", path, err)
}

/// Tells where a text stops being a list of these, if that can be found.
pub(crate) fn tell_misfit<E: CountedWrite>(
    rt: &HostRuntime,
    listed: Listed,
    text: &[u8],
    err: &mut E,
) {
    let _ = match misfit_in(rt.alloc(), listed, text) {
        Some(Misfit::NoJson { line, column }) => put_place(err, line, column),
        Some(Misfit::NoList) => put(err, b"no list\n"),
        Some(Misfit::Item(number)) => put_item(err, listed, number),
        None => Ok(()),
    };
}

fn put_place<E: CountedWrite>(err: &mut E, line: usize, column: usize) -> Result<(), DeviceFault> {
    put_numbered(err, b"no JSON at ", line)?;
    put_numbered(err, b":", column)?;
    put(err, b"\n")
}

/// Commands count from 1, events from 0.
fn put_item<E: CountedWrite>(
    err: &mut E,
    listed: Listed,
    number: usize,
) -> Result<(), DeviceFault> {
    match listed {
        Listed::Events => put_numbered(err, b"no event ", number)?,
        Listed::Commands | Listed::Asked => {
            put_numbered(err, b"no command ", number.saturating_add(1))?;
        }
    }
    put(err, b"\n")
}

/// Tells a fault that came where a file was read, and answers the status.
pub(crate) fn tell_of<E: CountedWrite>(path: &str, fault: Fault, err: &mut E) -> u8 {
    match fault {
        Fault::Device => tell_unread(path, err),
        fault => tell(fault, err),
    }
}

/// Whether two paths lead to one file that is there.
pub(crate) fn are_same(rt: &HostRuntime, one: &str, other: &str) -> bool {
    match (fs::metadata(rt, one), fs::metadata(rt, other)) {
        (Ok(one), Ok(other)) => one.dev() == other.dev() && one.ino() == other.ino(),
        _ => false,
    }
}

/// The directory in which a path lies.
pub(crate) fn directory_of(path: &str) -> &str {
    match path.rsplit_once('/') {
        Some(("", _)) => "/",
        Some((directory, _)) => directory,
        None => ".",
    }
}

/// The last name of a path.
pub(crate) fn name_of(path: &str) -> &str {
    match path.rsplit_once('/') {
        Some((_, name)) => name,
        None => path,
    }
}

/// Whether others than its owner and its group have any right to a file. Not where it can't be looked at.
pub(crate) fn is_open_to_all(rt: &HostRuntime, path: &str) -> bool {
    match fs::metadata(rt, path) {
        Ok(there) => there.mode() & OTHERS != 0,
        Err(_) => false,
    }
}

/// Whether a path lies in one of these directories.
pub(crate) fn is_among(rt: &HostRuntime, path: &str, directories: &[&str]) -> bool {
    let own = directory_of(path);
    directories.iter().any(|directory| own == *directory || are_same(rt, own, directory))
}
