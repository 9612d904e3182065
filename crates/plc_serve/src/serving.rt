//! The controller from its text to its end.

ghost use Rattle.std.specs.Prelude.{◌≡◌, [], ◌≤◌, IfErr, IfNone, IfOk, IfSome, IsSomeAnd, OnOk, Some};
ghost use Rattle.std.specs.Io.KnownBytes.{Appends};
ghost use Rattle.il_text.specs.Telling.{IsTold};
ghost use Rattle.il_text.specs.Meaning.{IsGoodText, IsTypedProgramOfText};
ghost use Rattle.plc_status.specs.Notices.{IsAtMostServingTold, IsServingTold, IsReported, report_line};
ghost use Rattle.plc_serve.specs.Serving.{status_by, IsRefusal, IsToldAtLast, IsWhyRefused, scans_line};

use crate::failing::{Unserved, ended};
use crate::service::{Loaded, Service};
use il_text::Fault;
use io_image::{Naming, NewList};
use io_model::CountedWrite;
use plc_driver::Directory;
use plc_host::{Failed, Host};
use plc_listener::DoorRuntime;
use plc_node::Node;
use plc_status::{Counts, open_report, put_report};
use std::alloc::Global;
use std::fs::File;
use std::io;
use std::io::Write;
use std::rt::Files;
use vr_threads::Starts;

/// Judges the text, then the directories, and serves the controller until it has released as many scans as are asked for:
/// the status. What it serves is the controller of the text's program, by replicas that each keep a file of
/// their directory. Once it takes connections, `err` has the line that tells where, and then a line for each change of a
/// replica, for a hold and for a stop. At the end `report` has its line, and `out` then the line that tells how many
/// scans there were, or `err` that of the fault.
pub fn serve<J, R, S, F: CountedWrite, W: Write, E: CountedWrite>(
    host: Host<R>,
    list: NewList,
    service: Service<S>,
    report: &mut F,
    out: &mut W,
    err: &mut E,
) -> u8
where
    J: Naming + Send + Sync + 'static,
    R: DoorRuntime + Files<File = File>,
    S: Starts + Send + Drop + 'static,
    requires list { list ≡ J.book }
    ensures status { result ≤ 2 }
    ensures served { result ≡ 0 → IsSomeAnd service.settings.scans
        (λ scans. Appends (W.contents out.old) (W.contents out.new) (scans_line scans)) }
    ensures reported { result ≡ 0 → IsSomeAnd service.settings.scans
        (λ scans. IsReported F.CountedWrite scans report.old report.new) }
    ensures good { result ≡ 0 → IsGoodText service.source.items }
    // On `err` there is the line of a port, then those of what changed, and nothing else.
    ensures told { result ≡ 0 → IsServingTold E.CountedWrite err.old err.new }
    // `out` and `report` are as they were.
    ensures refused { result ≡ 1 → IsTold E.CountedWrite (IsWhyRefused service.source.items) result err.old err.new
        × ((out.new ≡ out.old) × (report.new ≡ report.old)) }
    // Before it these lines were told, or nothing.
    ensures failed { result ≡ 2 → IsToldAtLast E.CountedWrite err.old err.new }
{
    ended(
        served::<J, R, S, F, W, E>(host, list, service, report, out, err),
        err,
    )
}

fn served<J, R, S, F: CountedWrite, W: Write, E: CountedWrite>(
    host: Host<R>,
    list: NewList,
    service: Service<S>,
    report: &mut F,
    out: &mut W,
    err: &mut E,
) -> Result<(), Unserved>
where
    J: Naming + Send + Sync + 'static,
    R: DoorRuntime + Files<File = File>,
    S: Starts + Send + Drop + 'static,
    requires list { list ≡ J.book }
    ensures served { OnOk result (IsSomeAnd service.settings.scans
        (λ scans. Appends (W.contents out.old) (W.contents out.new) (scans_line scans))) }
    ensures reported { OnOk result (IsSomeAnd service.settings.scans
        (λ scans. IsReported F.CountedWrite scans report.old report.new)) }
    ensures good { OnOk result (IsGoodText service.source.items) }
    ensures told { OnOk result (IsServingTold E.CountedWrite err.old err.new) }
    ensures at_most { IsAtMostServingTold E.CountedWrite err.old err.new }
    ensures refused { IfErr result
        (λ e. status_by e ≡ 1 → IsRefusal service.source.items e × (err.new ≡ err.old)
        × ((out.new ≡ out.old) × (report.new ≡ report.old))) }
{
    let loaded = match Loaded::of(host.alloc, service) {
        Ok(loaded) => loaded,
        Err(fault) => return Err(Unserved::Refused(fault)),
    };
    match controlled::<J, R, S, F, E>(host, list, loaded, report, err) {
        Ok(Some(scans)) => put_scans(scans, out).map_err(unwritten),
        Ok(None) => Err(Unserved::Refused(Fault::Store)),
        Err(failed) => Err(Unserved::Failed(failed)),
    }
}

/// Why the output wasn't written.
fn unwritten(error: io::Error) -> Unserved
    ensures { status_by result ≡ 2 }
{
    Unserved::Failed(Failed::from(error).known_as(Failed::Output))
}

/// Writes the line that tells how many scans there were.
fn put_scans<W: Write>(scans: u32, out: &mut W) -> io::Result<()>
    ensures { OnOk result (Appends (W.contents out.old) (W.contents out.new) (scans_line scans)) }
{
    writeln!(out, "scans {scans}")?;
    out.flush()
}

/// Takes the directories, serves the controller of the text's program from them, and writes the report: how many scans
/// there were. None where one was used, or another start has it.
fn controlled<J, R, S, F: CountedWrite, E: CountedWrite>(
    host: Host<R>,
    list: NewList,
    loaded: Loaded<S>,
    report: &mut F,
    err: &mut E,
) -> Result<Option<u32>, Failed>
where
    J: Naming + Send + Sync + 'static,
    R: DoorRuntime + Files<File = File>,
    S: Starts + Send + Drop + 'static,
    requires list { list ≡ J.book }
    requires program { IsTypedProgramOfText loaded.source.items loaded.image }
    ensures done { IfOk result (λ done. IfSome done (λ scans. (loaded.settings.scans ≡ Some scans)
        × IsServingTold E.CountedWrite err.old err.new × IsReported F.CountedWrite scans report.old report.new)) }
    ensures used { IfOk result (λ done. IfNone done ((err.new ≡ err.old) × (report.new ≡ report.old))) }
    ensures at_most { IsAtMostServingTold E.CountedWrite err.old err.new }
{
    let Host { rt, alloc } = host;
    let Loaded {
        directories,
        image,
        stores,
        settings,
        status,
        showing,
        operators,
        clients,
        ..
    } = loaded;
    let directory = Directory {
        paths: directories.as_slice(),
        config: settings.config,
    };
    let Some(taken) = directory.take(rt, alloc)? else {
        return Ok(None);
    };
    let node = Node {
        image,
        directory,
        stores,
        settings,
        status,
        showing,
        operators,
        clients,
    };
    let done = reported::<J, R, S, F, E>(host, list, node, report, err);
    taken.leave(&rt);
    Ok(Some(done?))
}

/// Serves the controller and writes the report: how many scans there were. A report that can't be written is missed
/// before anything is started.
fn reported<J, R, S, F: CountedWrite, E: CountedWrite>(
    host: Host<R>,
    list: NewList,
    node: Node<'_, S>,
    report: &mut F,
    err: &mut E,
) -> Result<u32, Failed>
where
    J: Naming + Send + Sync + 'static,
    R: DoorRuntime + Files<File = File>,
    S: Starts + Send + Drop + 'static,
    requires list { list ≡ J.book }
    ensures scans { IfOk result (λ scans. node.entry.settings.scans ≡ Some scans) }
    ensures told { OnOk result (IsServingTold E.CountedWrite err.old err.new) }
    ensures at_most { IsAtMostServingTold E.CountedWrite err.old err.new }
    ensures reported { IfOk result (λ scans. IsReported F.CountedWrite scans report.old report.new) }
{
    opened(report)?;
    let counts = node.run::<J, R, E>(host, list, err)?;
    written(host.alloc, counts, report)?;
    Ok(counts.scans)
}

/// Writes no byte of a report: one that can't be written is missed.
fn opened<F: CountedWrite>(report: &mut F) -> Result<(), Failed>
    ensures { OnOk result (Appends (F.held report.old) (F.held report.new) []) }
{
    match open_report(report) {
        Ok(()) => Ok(()),
        Err(_) => Err(Failed::Report),
    }
}

/// Writes the line of a report.
fn written<F: CountedWrite>(alloc: Global, counts: Counts, report: &mut F) -> Result<(), Failed>
    ensures { OnOk result (Appends (F.held report.old) (F.held report.new)
        (report_line counts.crashes counts.scans counts.sessions counts.writes)) }
{
    match put_report(alloc, counts, report) {
        Ok(()) => Ok(()),
        Err(failed) => Err(failed.known_as(Failed::Report)),
    }
}
