//! A new group: its identity is drawn into its file.

use crate::files::{directory_of, file, name_of, refuse, tell_of, tell_unwritten};
use crate::random::group_identity;
use il_text::{Fault, tell};
use io_model::CountedWrite;
use plc_group::{lacks_identity, read_group, tell_group_fault, with_identity};
use plc_store::WholeFile;
use std::io;

/// Draws the identity of the group of a file, which has none, and puts it there: the status.
pub(crate) fn new_group<E: CountedWrite>(rt: &HostRuntime, path: &str, err: &mut E) -> u8 {
    let bytes = match file(rt, path) {
        Ok(bytes) => bytes,
        Err(fault) => return tell_of(path, fault, err),
    };
    name_unnamed(rt, path, bytes.as_slice(), err)
}

/// Draws the identity of the group of a file that has these bytes, if it has none: the status.
fn name_unnamed<E: CountedWrite>(rt: &HostRuntime, path: &str, bytes: &[u8], err: &mut E) -> u8 {
    let fault = match read_group(rt.alloc(), bytes) {
        Ok(_group) => return refuse(err, b"plc: group identity there\n"),
        Err(fault) => fault,
    };
    if lacks_identity(&fault) {
        name_group(rt, path, bytes, err)
    } else {
        tell_group_fault(&fault, err)
    }
}

/// Puts an identity into the file of a group that has these bytes: the status.
fn name_group<E: CountedWrite>(rt: &HostRuntime, path: &str, bytes: &[u8], err: &mut E) -> u8 {
    let identity = match group_identity(rt, err) {
        Ok(identity) => identity,
        Err(status) => return status,
    };
    let Ok(named) = with_identity(rt.alloc(), bytes, &identity) else {
        return tell(Fault::Memory, err);
    };
    let fault = match read_group(rt.alloc(), named.as_slice()) {
        Ok(_group) => return put_named(rt, path, named.as_slice(), err),
        Err(fault) => fault,
    };
    tell_group_fault(&fault, err)
}

/// Puts the file of a group, with its identity, in the place of the one without: the status.
fn put_named<E: CountedWrite>(rt: &HostRuntime, path: &str, named: &[u8], err: &mut E) -> u8 {
    match replace(rt, path, named) {
        Ok(()) => 0,
        Err(_) => tell_unwritten(path, err),
    }
}

/// Puts these bytes in the place of a file.
fn replace(rt: &HostRuntime, path: &str, bytes: &[u8]) -> io::Result<()> {
    WholeFile::new(rt.alloc(), directory_of(path), name_of(path))?.put(rt, bytes)
}
