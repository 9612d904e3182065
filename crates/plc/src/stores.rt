//! Stores of the machines of a group: made once, and shown.

ghost use Rattle.std.specs.Prelude.{IsTrue};
ghost use Rattle.plc_store.specs.Judging.{is_unbegun};

use crate::calls::{flushed, list_image};
use crate::files::{file, is_open_to_all, refuse, tell_of};
use il_text::{Fault, image_bytes, put, put_numbered, tell};
use io_model::{Counted, CountedWrite};
use plc_group::{Group, exposed_lines, read_group, tell_group_fault};
use plc_host::Failed;
use plc_machine::{NotMade, new_store, waiting_store};
use plc_serve::tell_failed;
use plc_store::{
    FileDirectory, Refusal, Store, cause_text, changed_in, draw, show_directory, stored_in,
    tell_refusal,
};
use std::io::Write;

/// The machine whose store is to be made, and where.
#[derive(Clone, Copy)]
pub(crate) struct Formatted<'a> {
    pub(crate) machine: u8,
    /// Whether its disk was lost, so that it waits for an epoch.
    pub(crate) waits: bool,
    pub(crate) directory: &'a str,
}

/// Makes the store of a machine of a group: the status.
pub(crate) fn format<E: CountedWrite>(
    rt: &HostRuntime,
    source: &str,
    group: &str,
    asked: &Formatted,
    err: &mut E,
) -> u8 {
    let image = match image_at(rt, source) {
        Ok(image) => image,
        Err(fault) => return tell_of(source, fault, err),
    };
    match group_at(rt, group, err) {
        Ok(group) => format_of(rt, asked, &group, image, err),
        Err(status) => status,
    }
}

/// The group of a file; or the status where there is none, which is told.
pub(crate) fn group_at<E: CountedWrite>(
    rt: &HostRuntime,
    path: &str,
    err: &mut E,
) -> Result<Group, u8> {
    let bytes = match file(rt, path) {
        Ok(bytes) => bytes,
        Err(fault) => return Err(tell_of(path, fault, err)),
    };
    match read_group(rt.alloc(), bytes.as_slice()) {
        Ok(group) if group.console_key.is_some() && is_open_to_all(rt, path) => {
            Err(refuse(err, b"plc: group console_key open to all\n"))
        }
        Ok(group) => Ok(group),
        Err(fault) => Err(tell_group_fault(&fault, err)),
    }
}

/// The image of the program of a file.
pub(crate) fn image_at(rt: &HostRuntime, source: &str) -> Result<Vec<u8>, Fault> {
    image_bytes(rt.alloc(), file(rt, source)?.as_slice())
}

/// Makes the store of a machine of a group, which begins with this image: the status.
fn format_of<E: CountedWrite>(
    rt: &HostRuntime,
    asked: &Formatted,
    group: &Group,
    image: Vec<u8>,
    err: &mut E,
) -> u8 {
    let number = match draw(rt) {
        Ok(number) => number,
        Err(refusal) => return tell_refusal(refusal, err),
    };
    let made = if asked.waits {
        waiting_store(group, asked.machine, image, number)
    } else {
        new_store(group, asked.machine, image, number)
    };
    match made {
        Ok(store) => match format_in(rt, asked.directory, &store) {
            Ok(()) => tell_exposed(rt, group, err),
            Err(refusal) => tell_at(asked.directory, refusal, err),
        },
        Err(NotMade::NoMachine) => tell_no_machine(asked.machine, err),
        Err(NotMade::TooLong) => tell_refusal(Refusal::TooLong, err),
    }
}

/// Makes this store, which has begun no epoch, in a directory.
fn format_in(rt: &HostRuntime, directory: &str, store: &Store) -> Result<(), Refusal>
    requires { IsTrue (is_unbegun store.now.header.kept) }
{
    let mut directory = FileDirectory::make(*rt, rt.alloc(), directory)?;
    plc_store::format(rt.alloc(), &mut directory, store)
}

/// Tells that a group has no such machine, and answers the status.
fn tell_no_machine<E: CountedWrite>(machine: u8, err: &mut E) -> u8 {
    if put_numbered(err, b"plc: group machine ", usize::from(machine)).is_ok() {
        let _ = put(err, b" missing\n");
    }
    Fault::Commands.status()
}

/// Tells which addresses of a group anybody on their network can write to, and answers the status.
pub(crate) fn tell_exposed<E: CountedWrite>(rt: &HostRuntime, group: &Group, err: &mut E) -> u8 {
    match exposed_lines(rt.alloc(), group) {
        Ok(lines) => {
            let _ = put(err, lines.as_str().as_bytes());
            0
        }
        Err(_) => tell(Fault::Memory, err),
    }
}

/// Prints what the store of a directory has: the status.
pub(crate) fn show<W: Write, E: CountedWrite>(
    rt: &HostRuntime,
    directory: &str,
    out: &mut W,
    err: &mut E,
) -> u8 {
    print_lines(shown(rt, directory), directory, out, err)
}

/// Prints the listing of the program of a directory's store, or of the one to which that was changed: the status.
pub(crate) fn listing<W: Write, E: CountedWrite>(
    rt: &HostRuntime,
    directory: &str,
    is_changed: bool,
    out: &mut W,
    err: &mut E,
) -> u8 {
    match image_in(rt, directory, is_changed) {
        Ok(image) => list_image(rt, image.as_slice(), out, err),
        Err(refusal) => tell_at(directory, refusal, err),
    }
}

/// The image of a directory's store, or the one to which that was changed.
fn image_in(rt: &HostRuntime, directory: &str, is_changed: bool) -> Result<Vec<u8>, Refusal> {
    let directory = FileDirectory::look(*rt, rt.alloc(), directory)?;
    if is_changed {
        changed_in(rt.alloc(), &directory)
    } else {
        Ok(stored_in(rt.alloc(), &directory)?.image)
    }
}

/// The image of the program in force of a directory's store: the one to which it was changed in its epoch, if it was.
pub(crate) fn image_in_force(rt: &HostRuntime, directory: &str) -> Result<Vec<u8>, Refusal> {
    let directory = FileDirectory::look(*rt, rt.alloc(), directory)?;
    match changed_in(rt.alloc(), &directory) {
        Err(Refusal::NotChanged) => Ok(stored_in(rt.alloc(), &directory)?.image),
        found => found,
    }
}

/// Prints what came of a store: the status.
pub(crate) fn print_lines<W: Write, E: CountedWrite>(
    lines: Result<String, Refusal>,
    directory: &str,
    out: &mut W,
    err: &mut E,
) -> u8 {
    let lines = match lines {
        Ok(lines) => lines,
        Err(refusal) => return tell_at(directory, refusal, err),
    };
    let mut counted = Counted::new(&mut *out);
    match put(&mut counted, lines.as_str().as_bytes()) {
        Ok(()) => flushed(0, out, err),
        Err(_) => tell_failed(Failed::Output, err),
    }
}

/// Tells why a store was refused, and answers the status. A disk that failed is told by the path of the directory, and
/// by why it did, where that's known.
pub(crate) fn tell_at<E: CountedWrite>(directory: &str, refusal: Refusal, err: &mut E) -> u8 {
    match refusal {
        Refusal::Device(fault) => {
            if put(err, b"plc: device store ").is_ok() && put(err, directory.as_bytes()).is_ok() {
                let _ = put(err, cause_text(fault).as_bytes());
                let _ = put(err, b"\n");
            }
            Fault::Device.status()
        }
        refusal => tell_refusal(refusal, err),
    }
}

/// The lines of a directory's store.
fn shown(rt: &HostRuntime, directory: &str) -> Result<String, Refusal> {
    let directory = FileDirectory::look(*rt, rt.alloc(), directory)?;
    show_directory(rt.alloc(), &directory)
}
