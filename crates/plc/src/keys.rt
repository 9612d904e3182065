//! The key by which the machines of a group know each other.

use crate::files::{is_open_to_all, refuse, tell_unread, tell_unwritten};
use crate::random::key_bytes;
use il_text::{Fault, put, put_numbered};
use io_model::CountedWrite;
use net_keys::{Key, KeyFault, Keys};
use plc_group::Group;
use std::fs::{self, File, OpenOptions};
use std::io::{self, ErrorKind, Write};
use std::os::unix::fs::OpenOptionsExt;

/// Tells what is wrong with the file of a key, and answers the status.
fn tell_key<E: CountedWrite>(fault: KeyFault, err: &mut E) -> u8 {
    let _ = match fault {
        KeyFault::Lines => put(
            err,
            b"plc: group key refused: one line of 64 hexadecimal digits, or two\n",
        ),
        KeyFault::Twice => put(err, b"plc: group key refused: both lines are one key\n"),
        KeyFault::Digit { line, behind } => put_numbered(
            err,
            b"plc: group key refused: no hexadecimal digit at ",
            line,
        )
        .and_then(|_| put_numbered(err, b":", behind.saturating_add(1)))
        .and_then(|_| put(err, b"\n")),
    };
    Fault::Commands.status()
}

/// The keys of a file, which others may not read; or the status, where they aren't to be had, which is told.
fn keys_at<E: CountedWrite>(rt: &HostRuntime, path: &str, err: &mut E) -> Result<Keys, u8> {
    if is_open_to_all(rt, path) {
        return Err(refuse(err, b"plc: group key open to all\n"));
    }
    let Ok(text) = fs::read(rt, path) else {
        return Err(tell_unread(path, err));
    };
    match Keys::read(text.as_slice()) {
        Ok(keys) => Ok(keys),
        Err(fault) => Err(tell_key(fault, err)),
    }
}

/// The keys of a group, if it has any; or the status, where they aren't to be had, which is told. That it has none is
/// told, too.
pub(crate) fn keys_of<E: CountedWrite>(
    rt: &HostRuntime,
    group: &Group,
    err: &mut E,
) -> Result<Option<Keys>, u8> {
    match &group.key_file {
        Some(path) => Ok(Some(keys_at(rt, path.as_str(), err)?)),
        None => {
            let _ = put(
                err,
                b"no key: whoever reaches a replica's address may speak for a machine\n",
            );
            Ok(None)
        }
    }
}

/// Only its owner may read and write it.
const OWN: u32 = 0o600;

/// Writes the line of a key.
fn write_key(file: &mut File, key: &Key) -> io::Result<()> {
    file.write_all(&key.spell())?;
    file.write_all(b"\n")?;
    file.sync_all()
}

/// Puts a key into a new file. Where that fails no new file is left.
fn put_key(rt: &HostRuntime, path: &str, key: &Key) -> io::Result<()> {
    let mut options = OpenOptions::new();
    options.write(true).create_new(true).mode(OWN);
    let mut file = options.open(rt, path)?;
    let written = write_key(&mut file, key);
    if written.is_err() {
        let _ = fs::remove_file(rt, path);
    }
    written
}

/// Draws a key for the machines of a group into a file: the status.
pub(crate) fn new_key<E: CountedWrite>(rt: &HostRuntime, path: &str, err: &mut E) -> u8 {
    let key = match key_bytes(rt, err) {
        Ok(bytes) => Key::new(bytes),
        Err(status) => return status,
    };
    match put_key(rt, path, &key) {
        Ok(()) => 0,
        Err(error) if error.kind() == ErrorKind::AlreadyExists => refuse(
            err,
            b"plc: group key there\n",
        ),
        Err(_) => tell_unwritten(path, err),
    }
}
