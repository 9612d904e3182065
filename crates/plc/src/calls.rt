//! The calls that read files, print what comes of them on standard output, and end.

use crate::files::{are_same, file, refuse, tell_misfit, tell_of, tell_unwritten};
use il_model::Budget;
use il_places::Asked;
use il_text::{Fault, put, tell};
use io_file::NewFile;
use io_model::{Counted, CountedWrite};
use plc_host::Failed;
use plc_json::Listed;
use plc_serve::tell_failed;
use plc_tool::{Group, first_fault};
use std::io::Write;

/// The lines of a file that is no list of commands, and of one that is no schedule.
const COMMANDS: &[u8] = b"plc: commands\n";

const SCHEDULE: &[u8] = b"plc: schedule\n";

/// The status of what was written, once it is flushed.
pub(crate) fn flushed<W: Write, E: CountedWrite>(status: u8, out: &mut W, err: &mut E) -> u8 {
    match out.flush() {
        Err(error) if status == 0 => {
            tell_failed(Failed::from(error).known_as(Failed::Output), err)
        }
        _ => status,
    }
}

/// The status of a call that ended so: what it told is passed on, unless the output failed, which is told instead.
pub(crate) fn ended<W: Write, E: CountedWrite>(
    status: u8,
    failures: u64,
    told: &[u8],
    out: &mut W,
    err: &mut E,
) -> u8 {
    if failures > 0 {
        return tell_failed(Failed::Output, err);
    }
    if status != 0 && told.is_empty() {
        return tell(Fault::Memory, err);
    }
    let _ = put(err, told);
    flushed(status, out, err)
}

/// Writes the image of a source to a file that isn't the source, and prints how many words it has: the status.
pub(crate) fn asm<W: Write, E: CountedWrite>(
    rt: &HostRuntime,
    source: &str,
    image: &str,
    out: &mut W,
    err: &mut E,
) -> u8 {
    if are_same(rt, source, image) {
        return refuse(err, b"plc: the image is the source\n");
    }
    match file(rt, source) {
        Ok(text) => assemble(rt, text.as_slice(), image, out, err),
        Err(fault) => tell_of(source, fault, err),
    }
}

fn assemble<W: Write, E: CountedWrite>(
    rt: &HostRuntime,
    text: &[u8],
    path: &str,
    out: &mut W,
    err: &mut E,
) -> u8 {
    let mut image = Counted::new(NewFile::at(rt, path));
    let mut counted = Counted::new(&mut *out);
    let mut told = Vec::new(rt.alloc());
    let status = plc_tool::asm(
        rt.alloc(),
        text,
        &mut image,
        &mut counted,
        &mut Counted::new(&mut told),
    );
    if image.faults() > 0 {
        return tell_unwritten(path, err);
    }
    let failures = counted.faults();
    ended(status, failures, told.as_slice(), out, err)
}

/// Prints the listing of an image: the status.
pub(crate) fn list<W: Write, E: CountedWrite>(
    rt: &HostRuntime,
    path: &str,
    out: &mut W,
    err: &mut E,
) -> u8 {
    match file(rt, path) {
        Ok(image) => list_image(rt, image.as_slice(), out, err),
        Err(fault) => tell_of(path, fault, err),
    }
}

/// Prints the listing of an image of these bytes: the status.
pub(crate) fn list_image<W: Write, E: CountedWrite>(
    rt: &HostRuntime,
    image: &[u8],
    out: &mut W,
    err: &mut E,
) -> u8 {
    let mut counted = Counted::new(&mut *out);
    let mut told = Vec::new(rt.alloc());
    let status = plc_tool::list(
        rt.alloc(),
        image,
        &mut counted,
        &mut Counted::new(&mut told),
    );
    let failures = counted.faults();
    ended(status, failures, told.as_slice(), out, err)
}

/// Prints the names of a source: the status.
pub(crate) fn names<W: Write, E: CountedWrite>(
    rt: &HostRuntime,
    path: &str,
    out: &mut W,
    err: &mut E,
) -> u8 {
    let source = match file(rt, path) {
        Ok(source) => source,
        Err(fault) => return tell_of(path, fault, err),
    };
    let mut counted = Counted::new(&mut *out);
    let mut told = Vec::new(rt.alloc());
    let status = plc_symbols::names(
        rt.alloc(),
        source.as_slice(),
        &mut counted,
        &mut Counted::new(&mut told),
    );
    let failures = counted.faults();
    ended(status, failures, told.as_slice(), out, err)
}

/// Prints where the instructions of a source that are asked for stand: the status.
pub(crate) fn locate<W: Write, E: CountedWrite>(
    rt: &HostRuntime,
    path: &str,
    asked: Asked,
    out: &mut W,
    err: &mut E,
) -> u8 {
    let source = match file(rt, path) {
        Ok(source) => source,
        Err(fault) => return tell_of(path, fault, err),
    };
    let mut counted = Counted::new(&mut *out);
    let mut told = Vec::new(rt.alloc());
    let status = il_places::locate(
        rt.alloc(),
        source.as_slice(),
        asked,
        &mut counted,
        &mut Counted::new(&mut told),
    );
    let failures = counted.faults();
    ended(status, failures, told.as_slice(), out, err)
}

/// Runs a source over the commands of a file, each scan within the budget, and prints their answers: the status.
pub(crate) fn run<W: Write, E: CountedWrite>(
    rt: &HostRuntime,
    source: &str,
    commands: &str,
    budget: Budget,
    out: &mut W,
    err: &mut E,
) -> u8 {
    let text = match file(rt, source) {
        Ok(text) => text,
        Err(fault) => return tell_of(source, fault, err),
    };
    let commands = match file(rt, commands) {
        Ok(commands) => commands,
        Err(fault) => {
            return tell_of(
                commands,
                first_fault(rt.alloc(), text.as_slice(), fault),
                err,
            );
        }
    };
    let mut counted = Counted::new(&mut *out);
    let mut told = Vec::new(rt.alloc());
    let status = plc_tool::run(
        rt.alloc(),
        text.as_slice(),
        commands.as_slice(),
        budget,
        &mut counted,
        &mut Counted::new(&mut told),
    );
    let failures = counted.faults();
    if told.as_slice() == COMMANDS {
        tell_misfit(rt, Listed::Commands, commands.as_slice(), err);
    }
    ended(status, failures, told.as_slice(), out, err)
}

/// Runs the schedule of a file over a group of replicas of a source, and prints the report: the status.
pub(crate) fn sim<W: Write, E: CountedWrite>(
    rt: &HostRuntime,
    source: &str,
    schedule: &str,
    group: &Group,
    out: &mut W,
    err: &mut E,
) -> u8 {
    let text = match file(rt, source) {
        Ok(text) => text,
        Err(fault) => return tell_of(source, fault, err),
    };
    let schedule = match file(rt, schedule) {
        Ok(schedule) => schedule,
        Err(fault) => {
            return tell_of(
                schedule,
                first_fault(rt.alloc(), text.as_slice(), fault),
                err,
            );
        }
    };
    let mut counted = Counted::new(&mut *out);
    let mut told = Vec::new(rt.alloc());
    let status = plc_tool::sim(
        rt.alloc(),
        text.as_slice(),
        schedule.as_slice(),
        group,
        &mut counted,
        &mut Counted::new(&mut told),
    );
    let failures = counted.faults();
    if told.as_slice() == SCHEDULE {
        tell_misfit(rt, Listed::Events, schedule.as_slice(), err);
    }
    ended(status, failures, told.as_slice(), out, err)
}
