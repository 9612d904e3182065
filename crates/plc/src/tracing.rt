//! The trace of a machine, in its file.

use crate::files::{are_same, is_among, refuse};
use io_model::{Counted, CountedWrite};
use plc_group::Group;
use plc_host::{Failed, Host};
use plc_member::{Begun, Ended, MachineRuntime, MachineStore, Marker, Member, Unserved};
use plc_trace::OpenTraceWriter;
use std::alloc::Global;
use std::fs::File;
use std::io::Read;
use std::rt::Files;
use std::{fs, io};

/// A trace begins with the line of a start.
const BEGINNING: &[u8; 8] = b"machine ";

/// Standard output and standard error, as what can be looked at.
const STREAMS: [&str; 2] = ["/dev/stdout", "/dev/stderr"];

/// Whether a file is empty, or begins as a trace does.
fn begins_as_trace<R: Files<File = File>>(rt: &R, path: &str) -> io::Result<bool> {
    let mut head = [0; 8];
    let count = File::open(rt, path)?.read(&mut head)?;
    Ok(head[..count] == BEGINNING[..count])
}

/// Whether lines of a trace may be written at a path: where nothing is there, or a file of bytes that isn't reached by a
/// link, and has nothing or a trace. What is there isn't opened if it's no file of bytes: whoever opened a pipe would wait.
fn is_for_traces<R: Files<File = File>>(rt: &R, path: &str) -> bool {
    match fs::symlink_metadata(rt, path) {
        Ok(there) => there.is_file() && begins_as_trace(rt, path).unwrap_or(false),
        Err(_) => true,
    }
}

/// Whether a trace would be written over the file of the group, into the store, or over what is printed.
fn is_misplaced(rt: &HostRuntime, group: &str, directory: &str, path: &str) -> bool {
    are_same(rt, group, path)
        || is_among(rt, path, &[directory])
        || STREAMS.iter().any(|stream| are_same(rt, stream, path))
}

/// Refuses a trace that isn't to be written at a path; the status, if it's refused, which is told.
pub(crate) fn judge_trace<E: CountedWrite>(
    rt: &HostRuntime,
    group: &str,
    directory: &str,
    path: &str,
    err: &mut E,
) -> Result<(), u8> {
    if is_misplaced(rt, group, directory, path) {
        return Err(refuse(
            err,
            b"plc: the trace lies over the group, a store or the output\n",
        ));
    }
    if !is_for_traces(rt, path) {
        return Err(refuse(
            err,
            b"plc: the trace is a link, a pipe, or a file of something else\n",
        ));
    }
    Ok(())
}

/// A life of a machine that is to be served, and what writes its trace, if one is wanted.
pub(crate) struct Life<R: MachineRuntime + Files<File = File>> {
    pub(crate) begun: Begun<R, MachineStore<R>, Marker<R>>,
    pub(crate) writer: Option<OpenTraceWriter>,
}

/// The next life of a machine, behind one that ended so, if there was one; its trace goes to the end of the file at
/// this path, if one is named. A file that isn't to be had is told by the machine.
pub(crate) fn next_life<R, E>(
    member: &mut Member<R>,
    host: Host<R>,
    group: &Group,
    trace: &Option<String>,
    ended: Option<Ended>,
    err: &mut E,
) -> Result<Option<Life<R>>, Unserved>
where
    R: MachineRuntime + Files<File = File> + Alloc<A = Global>,
    R::Dir: Send + Sync + 'static,
    E: CountedWrite,
    R::Dir: Send + Sync + 'static,
{
    let Some(begun) = member.next_life(host, group, ended, err)? else {
        return Ok(None);
    };
    match trace {
        Some(path) => Ok(Some(traced(host, begun, path.as_str())?)),
        None => Ok(Some(Life {
            begun,
            writer: None,
        })),
    }
}

/// A life with its trace.
fn traced<R>(
    host: Host<R>,
    begun: Begun<R, MachineStore<R>, Marker<R>>,
    path: &str,
) -> Result<Life<R>, Failed>
where
    R: MachineRuntime + Files<File = File>,
{
    let (trace, writer) = plc_trace::traced(host.alloc)?;
    let started = begun.started();
    let begun = begun.traced(trace);
    let writer = match opened(&host.rt, path) {
        Some(file) => Some(writer.open(host, started, Counted::new(file))?),
        None => {
            writer.give_up();
            None
        }
    };
    Ok(Life { begun, writer })
}

/// The file of a trace, to write behind what it has, if it's to be had.
fn opened<R: Files<File = File>>(rt: &R, path: &str) -> Option<File> {
    if !is_for_traces(rt, path) {
        return None;
    }
    File::options()
        .append(true)
        .create(true)
        .open(rt, path)
        .ok()
}

/// Writes what is left of a trace, if there is one.
pub(crate) fn close<R: MachineRuntime>(rt: &R, writer: Option<OpenTraceWriter>) {
    if let Some(writer) = writer {
        writer.close(rt);
    }
}
