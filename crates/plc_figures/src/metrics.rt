//! Figures for Prometheus, in its text format (version 0.0.4 of the exposition formats).

ghost use Rattle.std.specs.Prelude.{◌≡◌, ◌<◌, OnOk};
ghost use Rattle.plc_figures.specs.Metrics.{force_metrics};
ghost use Rattle.plc_figures.specs.Metrics.{counter_text, family_text, gauge_text};
ghost use Rattle.plc_figures.specs.Metrics.{replica_sample, sample, seconds_sample};
ghost use Rattle.plc_figures.specs.Metrics.{age_metrics, held_number, known_age};
ghost use Rattle.plc_figures.specs.Metrics.{scan_counts, scan_metrics, stopped_number};
ghost use Rattle.plc_figures.specs.Metrics.{bucket_line, bucket_lines, bucket_text, interval_metrics, totals_text};
ghost use Rattle.plc_figures.specs.Metrics.{failed_line, failed_lines};
ghost use Rattle.plc_figures.specs.Metrics.{group_metrics, normal_line, normal_lines, starts_line, starts_lines};
ghost use Rattle.plc_figures.specs.Metrics.{hearing_metrics, known_machine, machine_metrics};
ghost use Rattle.plc_figures.specs.Metrics.{exception_line, exception_lines, function_line, function_lines};
ghost use Rattle.plc_figures.specs.Metrics.{request_metrics, session_metrics};
ghost use Rattle.plc_figures.specs.Metrics.{build_metrics, client_metrics, metrics_text};
ghost use Rattle.plc_figures.specs.Metrics.{known_process, process_metrics};
ghost use Rattle.plc_figures.specs.Readings.{flag_number, greatest_view, sum_of};
ghost use Rattle.plc_figures.specs.Texts.{IsAdded};

use crate::names::put_function;
use crate::reading::{
    BOUNDS, BUCKETS, Clients, EXCEPTIONS, Halt, Machine, PLACES, Process, Reading, Replica, Scans,
};
use crate::text::{put, put_number, put_seconds, put_small_number};
use std::alloc::AllocError;

/// Begins the figures of one name: what they are, and of which type.
pub fn put_family(
    out: &mut Vec<u8>,
    name: &[u8],
    kind: &[u8],
    help: &[u8],
) -> Result<(), AllocError>
    ensures { OnOk result (IsAdded out.old.items (family_text name.now kind.now help.now) out.new.items) }
{
    put(out, b"# HELP ")?;
    put(out, name)?;
    put(out, b" ")?;
    put(out, help)?;
    put(out, b"\n# TYPE ")?;
    put(out, name)?;
    put(out, b" ")?;
    put(out, kind)?;
    put(out, b"\n")?;
    Ok(())
}

/// A figure without a label.
fn put_sample(out: &mut Vec<u8>, name: &[u8], value: u64) -> Result<(), AllocError>
    ensures { OnOk result (IsAdded out.old.items (sample name.now value) out.new.items) }
{
    put(out, name)?;
    put(out, b" ")?;
    put_number(out, value)?;
    put(out, b"\n")?;
    Ok(())
}

/// A time without a label, in seconds.
fn put_time(out: &mut Vec<u8>, name: &[u8], microseconds: u64) -> Result<(), AllocError>
    ensures { OnOk result (IsAdded out.old.items (seconds_sample name.now microseconds) out.new.items) }
{
    put(out, name)?;
    put(out, b" ")?;
    put_seconds(out, microseconds)?;
    put(out, b"\n")?;
    Ok(())
}

/// A figure of the replica with this number.
fn put_of_replica(out: &mut Vec<u8>, name: &[u8], number: u8, value: u64) -> Result<(), AllocError>
    ensures { OnOk result (IsAdded out.old.items (replica_sample name.now number value) out.new.items) }
{
    put(out, name)?;
    put(out, b"{replica=\"")?;
    put_small_number(out, number)?;
    put(out, b"\"} ")?;
    put_number(out, value)?;
    put(out, b"\n")?;
    Ok(())
}

/// A count that never falls.
pub fn put_counter(
    out: &mut Vec<u8>,
    name: &[u8],
    help: &[u8],
    value: u64,
) -> Result<(), AllocError>
    ensures { OnOk result (IsAdded out.old.items (counter_text name.now help.now value) out.new.items) }
{
    put_family(out, name, b"counter", help)?;
    put_sample(out, name, value)?;
    Ok(())
}

/// A figure that may rise and fall.
fn put_gauge(out: &mut Vec<u8>, name: &[u8], help: &[u8], value: u64) -> Result<(), AllocError>
    ensures { OnOk result (IsAdded out.old.items (gauge_text name.now help.now value) out.new.items) }
{
    put_family(out, name, b"gauge", help)?;
    put_sample(out, name, value)?;
    Ok(())
}

/// How long ago the scan began that released outputs last.
fn put_known_age(out: &mut Vec<u8>, age: u64) -> Result<(), AllocError>
    ensures { OnOk result (IsAdded out.old.items (known_age age) out.new.items) }
{
    put_family(
        out,
        b"plc_release_age_seconds",
        b"gauge",
        b"Time since the beginning of the scan that released outputs last.",
    )?;
    put_time(out, b"plc_release_age_seconds", age)?;
    Ok(())
}

/// The same, if there was one.
fn put_age(out: &mut Vec<u8>, age: Option<u64>) -> Result<(), AllocError>
    ensures { OnOk result (IsAdded out.old.items (age_metrics age) out.new.items) }
{
    match age {
        None => Ok(()),
        Some(age) => put_known_age(out, age),
    }
}

/// Whether a scan was held: 1 or 0.
fn held_number(halt: Option<Halt>) -> u64
    ensures { result ≡ held_number halt }
{
    match halt {
        Some(Halt::Held(_)) => 1,
        _ => 0,
    }
}

/// Whether a scan stopped: 1 or 0.
fn stopped_number(halt: Option<Halt>) -> u64
    ensures { result ≡ stopped_number halt }
{
    match halt {
        Some(Halt::Stopped(_, _)) => 1,
        _ => 0,
    }
}

/// How many are counted at these places together.
pub fn sum_of(counts: &[u64]) -> u64
    ensures { result ≡ sum_of counts.now }
{
    counts
        .iter()
        .fold(0, |total: u64, count| total.saturating_add(*count))
}

/// The bucket of intervals up to this bound: so many up to it.
fn put_bucket_line(out: &mut Vec<u8>, bound: u64, count: u64) -> Result<(), AllocError>
    ensures { OnOk result (IsAdded out.old.items (bucket_line bound count) out.new.items) }
{
    put(out, b"plc_scan_interval_seconds_bucket{le=\"")?;
    put_seconds(out, bound)?;
    put(out, b"\"} ")?;
    put_number(out, count)?;
    put(out, b"\n")?;
    Ok(())
}

/// The bucket at this place, which has this bound, with those before it.
fn put_bucket(
    out: &mut Vec<u8>,
    counts: &[u64; BUCKETS],
    bucket: usize,
    bound: u64,
) -> Result<(), AllocError>
    requires { bucket < 13 }
    ensures { OnOk result (IsAdded out.old.items (bucket_text counts.now (bucket, bound)) out.new.items) }
{
    put_bucket_line(out, bound, sum_of(&counts[..bucket + 1]))
}

/// The buckets that have a bound.
fn put_buckets(out: &mut Vec<u8>, counts: &[u64; BUCKETS]) -> Result<(), AllocError>
    ensures { OnOk result (IsAdded out.old.items (bucket_lines counts.now) out.new.items) }
{
    for (bucket, bound) in BOUNDS.iter().enumerate() {
        put_bucket(out, counts, bucket, *bound)?;
    }
    Ok(())
}

/// All intervals together, and how many there were.
fn put_totals(out: &mut Vec<u8>, together: u64, count: u64) -> Result<(), AllocError>
    ensures { OnOk result (IsAdded out.old.items (totals_text together count) out.new.items) }
{
    put(out, b"plc_scan_interval_seconds_bucket{le=\"+Inf\"} ")?;
    put_number(out, count)?;
    put(out, b"\n")?;
    put_time(out, b"plc_scan_interval_seconds_sum", together)?;
    put_sample(out, b"plc_scan_interval_seconds_count", count)?;
    Ok(())
}

/// The intervals from each scan to the next.
fn put_intervals(out: &mut Vec<u8>, scans: &Scans) -> Result<(), AllocError>
    ensures { OnOk result (IsAdded out.old.items (interval_metrics scans.now) out.new.items) }
{
    put_family(
        out,
        b"plc_scan_interval_seconds",
        b"histogram",
        b"Time from the beginning of one scan to that of the next.",
    )?;
    put_buckets(out, &scans.interval_counts)?;
    let count = sum_of(&scans.interval_counts);
    put_totals(out, scans.interval_sum, count)?;
    Ok(())
}

/// How many scans there were.
fn put_scan_counts(out: &mut Vec<u8>, scans: &Scans) -> Result<(), AllocError>
    ensures { OnOk result (IsAdded out.old.items (scan_counts scans.now) out.new.items) }
{
    put_counter(
        out,
        b"plc_scans_total",
        b"Scans that were answered.",
        scans.scans,
    )?;
    put_counter(
        out,
        b"plc_scan_late_total",
        b"Scans that began a period late or more.",
        scans.late,
    )?;
    put_counter(
        out,
        b"plc_releases_total",
        b"Scans that released outputs.",
        scans.releases,
    )?;
    Ok(())
}

/// The figures of the scans.
fn put_scans(out: &mut Vec<u8>, scans: &Scans) -> Result<(), AllocError>
    ensures { OnOk result (IsAdded out.old.items (scan_metrics scans.now) out.new.items) }
{
    put_scan_counts(out, scans)?;
    put_intervals(out, scans)?;
    put_age(out, scans.age)?;
    put_gauge(
        out,
        b"plc_held",
        b"Whether the last scan was held at a breakpoint.",
        held_number(scans.halt),
    )?;
    put_gauge(
        out,
        b"plc_stopped",
        b"Whether the last scan stopped at a fault.",
        stopped_number(scans.halt),
    )?;
    Ok(())
}

/// 1 where it's so, else 0.
fn flag(is_so: bool) -> u64
    ensures { result ≡ flag_number is_so }
{
    if is_so { 1 } else { 0 }
}

/// Whether a replica is normal.
fn put_normal_one(out: &mut Vec<u8>, shown: &Replica) -> Result<(), AllocError>
    ensures { OnOk result (IsAdded out.old.items (normal_line shown.now) out.new.items) }
{
    put_of_replica(
        out,
        b"plc_replica_normal",
        shown.number,
        flag(shown.is_normal()),
    )
}

/// Whether each replica is normal.
fn put_normal(out: &mut Vec<u8>, replicas: &[Replica]) -> Result<(), AllocError>
    ensures { OnOk result (IsAdded out.old.items (normal_lines replicas.now) out.new.items) }
{
    for shown in replicas {
        put_normal_one(out, shown)?;
    }
    Ok(())
}

/// How often a replica was started.
fn put_starts_one(out: &mut Vec<u8>, shown: &Replica) -> Result<(), AllocError>
    ensures { OnOk result (IsAdded out.old.items (starts_line shown.now) out.new.items) }
{
    put_of_replica(out, b"plc_replica_starts_total", shown.number, shown.starts)
}

/// How often each replica was started.
fn put_starts(out: &mut Vec<u8>, replicas: &[Replica]) -> Result<(), AllocError>
    ensures { OnOk result (IsAdded out.old.items (starts_lines replicas.now) out.new.items) }
{
    for shown in replicas {
        put_starts_one(out, shown)?;
    }
    Ok(())
}

/// Whether a replica's store failed.
fn put_failed_one(out: &mut Vec<u8>, shown: &Replica) -> Result<(), AllocError>
    ensures { OnOk result (IsAdded out.old.items (failed_line shown.now) out.new.items) }
{
    put_of_replica(
        out,
        b"plc_replica_store_failed",
        shown.number,
        flag(shown.has_failed),
    )
}

/// Whether each replica's store failed.
fn put_failed(out: &mut Vec<u8>, replicas: &[Replica]) -> Result<(), AllocError>
    ensures { OnOk result (IsAdded out.old.items (failed_lines replicas.now) out.new.items) }
{
    for shown in replicas {
        put_failed_one(out, shown)?;
    }
    Ok(())
}

/// The greatest view that shows.
pub(crate) fn greatest_view(replicas: &[Replica]) -> u64
    ensures { result ≡ greatest_view replicas.now }
{
    replicas
        .iter()
        .fold(0, |view, shown| view.max(shown.standing.view))
}

/// The figures of the replicas.
fn put_group(out: &mut Vec<u8>, replicas: &[Replica]) -> Result<(), AllocError>
    ensures { OnOk result (IsAdded out.old.items (group_metrics replicas.now) out.new.items) }
{
    put_family(
        out,
        b"plc_replica_normal",
        b"gauge",
        b"Whether the replica is normal.",
    )?;
    put_normal(out, replicas)?;
    put_family(
        out,
        b"plc_replica_starts_total",
        b"counter",
        b"Starts of the replica from its store.",
    )?;
    put_starts(out, replicas)?;
    put_family(
        out,
        b"plc_replica_store_failed",
        b"gauge",
        b"Whether the replica's store failed since it was started last.",
    )?;
    put_failed(out, replicas)?;
    put_gauge(
        out,
        b"plc_view",
        b"The greatest view of a replica.",
        greatest_view(replicas),
    )?;
    Ok(())
}

/// How many other machines a machine hears, and whether they're a majority with it.
fn put_hearing(out: &mut Vec<u8>, machine: Machine) -> Result<(), AllocError>
    ensures { OnOk result (IsAdded out.old.items (hearing_metrics machine) out.new.items) }
{
    put_gauge(
        out,
        b"plc_machines_connected",
        b"Other machines of the group that this machine hears.",
        u64::from(machine.heard),
    )?;
    put_gauge(
        out,
        b"plc_majority",
        b"Whether this machine hears enough others for a majority with it.",
        flag(machine.has_majority),
    )?;
    Ok(())
}

/// Whether a machine drives, its epoch, what it hears, and what was forged.
fn put_known_machine(out: &mut Vec<u8>, machine: Machine) -> Result<(), AllocError>
    ensures { OnOk result (IsAdded out.old.items (known_machine machine) out.new.items) }
{
    put_gauge(
        out,
        b"plc_driving",
        b"Whether this machine drives: its scans are the group's, and it shows outputs.",
        flag(machine.is_driving),
    )?;
    put_gauge(out, b"plc_epoch", b"The epoch of the group.", machine.epoch)?;
    put_hearing(out, machine)?;
    put_counter(
        out,
        b"plc_records_forged_total",
        b"Records of other machines that were forged or damaged: each ended its connection.",
        machine.forged,
    )?;
    Ok(())
}

/// The same, if it's of a machine.
fn put_machine(out: &mut Vec<u8>, machine: Option<Machine>) -> Result<(), AllocError>
    ensures { OnOk result (IsAdded out.old.items (machine_metrics machine) out.new.items) }
{
    match machine {
        None => Ok(()),
        Some(machine) => put_known_machine(out, machine),
    }
}

/// How many requests were answered of the function whose count has this place.
fn put_function_line(out: &mut Vec<u8>, place: usize, count: u64) -> Result<(), AllocError>
    ensures { OnOk result (IsAdded out.old.items (function_line (place, count)) out.new.items) }
{
    put(out, b"plc_modbus_requests_total{function=\"")?;
    put_function(out, place)?;
    put(out, b"\"} ")?;
    put_number(out, count)?;
    put(out, b"\n")?;
    Ok(())
}

/// How many requests were answered, by their functions.
fn put_functions(out: &mut Vec<u8>, counts: &[u64; PLACES]) -> Result<(), AllocError>
    ensures { OnOk result (IsAdded out.old.items (function_lines counts.now) out.new.items) }
{
    for (place, count) in counts.iter().enumerate() {
        put_function_line(out, place, *count)?;
    }
    Ok(())
}

/// How many requests were answered by the exception whose count has this place.
fn put_exception_line(out: &mut Vec<u8>, place: usize, count: u64) -> Result<(), AllocError>
    requires { place < 4 }
    ensures { OnOk result (IsAdded out.old.items (exception_line (place, count)) out.new.items) }
{
    put(out, b"plc_modbus_exceptions_total{code=\"")?;
    put_number(out, place as u64 + 1)?;
    put(out, b"\"} ")?;
    put_number(out, count)?;
    put(out, b"\n")?;
    Ok(())
}

/// How many requests were answered by an exception, by their codes.
fn put_exceptions(out: &mut Vec<u8>, counts: &[u64; EXCEPTIONS]) -> Result<(), AllocError>
    ensures { OnOk result (IsAdded out.old.items (exception_lines counts.now) out.new.items) }
{
    for (place, count) in counts.iter().enumerate() {
        put_exception_line(out, place, *count)?;
    }
    Ok(())
}

/// The sessions of Modbus clients.
fn put_sessions(out: &mut Vec<u8>, clients: &Clients) -> Result<(), AllocError>
    ensures { OnOk result (IsAdded out.old.items (session_metrics clients.now) out.new.items) }
{
    put_counter(
        out,
        b"plc_sessions_total",
        b"Connections of Modbus clients that were given a session.",
        clients.sessions,
    )?;
    put_gauge(
        out,
        b"plc_sessions",
        b"Sessions of Modbus clients that are open.",
        clients.open_sessions,
    )?;
    Ok(())
}

/// The requests of Modbus clients.
fn put_requests(out: &mut Vec<u8>, clients: &Clients) -> Result<(), AllocError>
    ensures { OnOk result (IsAdded out.old.items (request_metrics clients.now) out.new.items) }
{
    put_family(
        out,
        b"plc_modbus_requests_total",
        b"counter",
        b"Requests of Modbus clients that were answered.",
    )?;
    put_functions(out, &clients.functions)?;
    put_family(
        out,
        b"plc_modbus_exceptions_total",
        b"counter",
        b"Requests of Modbus clients that were answered by an exception.",
    )?;
    put_exceptions(out, &clients.exceptions)?;
    Ok(())
}

/// The figures of Modbus clients.
fn put_clients(out: &mut Vec<u8>, clients: &Clients) -> Result<(), AllocError>
    ensures { OnOk result (IsAdded out.old.items (client_metrics clients.now) out.new.items) }
{
    put_sessions(out, clients)?;
    put_requests(out, clients)?;
    Ok(())
}

/// What this process takes.
fn put_known_process(out: &mut Vec<u8>, process: Process) -> Result<(), AllocError>
    ensures { OnOk result (IsAdded out.old.items (known_process process) out.new.items) }
{
    put_gauge(
        out,
        b"process_resident_memory_bytes",
        b"Memory of the process.",
        process.resident,
    )?;
    put_family(
        out,
        b"process_cpu_seconds_total",
        b"counter",
        b"Processor time of the process.",
    )?;
    put_time(out, b"process_cpu_seconds_total", process.processor)?;
    Ok(())
}

/// The same, where it's known.
fn put_process(out: &mut Vec<u8>, process: Option<Process>) -> Result<(), AllocError>
    ensures { OnOk result (IsAdded out.old.items (process_metrics process) out.new.items) }
{
    match process {
        None => Ok(()),
        Some(process) => put_known_process(out, process),
    }
}

/// Which program it is.
pub fn put_build(out: &mut Vec<u8>, version: &[u8]) -> Result<(), AllocError>
    ensures { OnOk result (IsAdded out.old.items (build_metrics version.now) out.new.items) }
{
    put_family(
        out,
        b"plc_build_info",
        b"gauge",
        b"The version of the program.",
    )?;
    put(out, b"plc_build_info{version=\"")?;
    put(out, version)?;
    put(out, b"\"} 1\n")?;
    Ok(())
}

/// How many inputs and outputs are forced.
fn put_forces(out: &mut Vec<u8>, forces: u64) -> Result<(), AllocError>
    ensures { OnOk result (IsAdded out.old.items (force_metrics forces) out.new.items) }
{
    put_gauge(
        out,
        b"plc_forces",
        b"Inputs and outputs that are forced.",
        forces,
    )
}

/// Adds all figures of what shows, by the version of the program.
pub fn put_metrics(out: &mut Vec<u8>, version: &[u8], reading: &Reading) -> Result<(), AllocError>
    ensures { OnOk result (IsAdded out.old.items (metrics_text version.now reading.now) out.new.items) }
{
    put_build(out, version)?;
    put_scans(out, &reading.scans)?;
    put_forces(out, reading.forces)?;
    put_group(out, reading.replicas.as_slice())?;
    put_machine(out, reading.machine)?;
    put_clients(out, &reading.clients)?;
    put_process(out, reading.process)?;
    Ok(())
}
