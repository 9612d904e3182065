//! What shows of a controller as one JSON object.

ghost use Rattle.std.specs.Prelude.{◌<◌, OnOk};
ghost use Rattle.plc_figures.specs.State.{age_json, clients_json, halt_json, known_process, process_json, why_json};
ghost use Rattle.plc_figures.specs.State.{exception_json, exceptions_json, function_json, functions_json};
ghost use Rattle.plc_figures.specs.State.{known_machine, machine_json};
ghost use Rattle.plc_figures.specs.State.{lists_text, notices_json, point_json, points_json, told_json, value_json};
ghost use Rattle.plc_figures.specs.State.{replica_json, replicas_json, scans_json, state_text};
ghost use Rattle.plc_figures.specs.Texts.{IsAdded};

use crate::json::{put_comma, put_flag, put_string};
use crate::metrics::{greatest_view, sum_of};
use crate::names::{phase_name, put_function, put_place, stop_name};
use crate::reading::{
    Clients, EXCEPTIONS, Halt, Machine, PLACES, Point, Process, Reading, Replica, Scans, Told,
};
use crate::text::{put, put_number, put_seconds, put_small_number, put_value};
use il_model::Value;
use std::alloc::AllocError;

/// A replica, which stands at this place.
fn put_replica(out: &mut Vec<u8>, place: usize, shown: &Replica) -> Result<(), AllocError>
    ensures { OnOk result (IsAdded out.old.items (replica_json (place, shown.now)) out.new.items) }
{
    put_comma(out, place)?;
    put(out, b"{\"replica\":")?;
    put_small_number(out, shown.number)?;
    put(out, b",\"status\":\"")?;
    put(out, phase_name(shown.standing.status))?;
    put(out, b"\",\"view\":")?;
    put_number(out, shown.standing.view)?;
    put(out, b",\"primary\":")?;
    put_flag(out, shown.standing.is_primary)?;
    put(out, b",\"starts\":")?;
    put_number(out, shown.starts)?;
    put(out, b",\"failed\":")?;
    put_flag(out, shown.has_failed)?;
    put(out, b"}")?;
    Ok(())
}

/// All replicas.
fn put_replicas(out: &mut Vec<u8>, replicas: &[Replica]) -> Result<(), AllocError>
    ensures { OnOk result (IsAdded out.old.items (replicas_json replicas.now) out.new.items) }
{
    for (place, shown) in replicas.iter().enumerate() {
        put_replica(out, place, shown)?;
    }
    Ok(())
}

/// Why a scan was held or stopped, and where.
fn put_why(out: &mut Vec<u8>, why: &[u8], position: u64) -> Result<(), AllocError>
    ensures { OnOk result (IsAdded out.old.items (why_json why.now position) out.new.items) }
{
    put(out, b"{\"why\":\"")?;
    put(out, why)?;
    put(out, b"\",\"position\":")?;
    put_number(out, position)?;
    put(out, b"}")?;
    Ok(())
}

/// By what the last scan was held or stopped: null where it wasn't.
fn put_halt(out: &mut Vec<u8>, halt: Option<Halt>) -> Result<(), AllocError>
    ensures { OnOk result (IsAdded out.old.items (halt_json halt) out.new.items) }
{
    match halt {
        None => put(out, b"null"),
        Some(Halt::Held(position)) => put_why(out, b"held", u64::from(position)),
        Some(Halt::Stopped(stop, position)) => {
            put_why(out, stop_name(stop), u64::from(position))
        }
    }
}

/// A time in seconds: null where there's none.
fn put_age(out: &mut Vec<u8>, age: Option<u64>) -> Result<(), AllocError>
    ensures { OnOk result (IsAdded out.old.items (age_json age) out.new.items) }
{
    match age {
        None => put(out, b"null"),
        Some(age) => put_seconds(out, age),
    }
}

/// The scans.
fn put_scans(out: &mut Vec<u8>, scans: &Scans) -> Result<(), AllocError>
    ensures { OnOk result (IsAdded out.old.items (scans_json scans.now) out.new.items) }
{
    put(out, b"{\"count\":")?;
    put_number(out, scans.scans)?;
    put(out, b",\"late\":")?;
    put_number(out, scans.late)?;
    put(out, b",\"releases\":")?;
    put_number(out, scans.releases)?;
    put(out, b",\"interval\":")?;
    put_seconds(out, scans.interval)?;
    put(out, b",\"age\":")?;
    put_age(out, scans.age)?;
    put(out, b",\"fresh\":")?;
    put_flag(out, scans.is_fresh)?;
    put(out, b",\"halt\":")?;
    put_halt(out, scans.halt)?;
    put(out, b"}")?;
    Ok(())
}

/// A machine.
fn put_known_machine(out: &mut Vec<u8>, machine: Machine) -> Result<(), AllocError>
    ensures { OnOk result (IsAdded out.old.items (known_machine machine) out.new.items) }
{
    put(out, b"{\"number\":")?;
    put_small_number(out, machine.number)?;
    put(out, b",\"epoch\":")?;
    put_number(out, machine.epoch)?;
    put(out, b",\"driving\":")?;
    put_flag(out, machine.is_driving)?;
    put(out, b",\"heard\":")?;
    put_small_number(out, machine.heard)?;
    put(out, b",\"others\":")?;
    put_small_number(out, machine.others)?;
    put(out, b",\"majority\":")?;
    put_flag(out, machine.has_majority)?;
    put(out, b"}")?;
    Ok(())
}

/// The same: null where it's of none.
fn put_machine(out: &mut Vec<u8>, machine: Option<Machine>) -> Result<(), AllocError>
    ensures { OnOk result (IsAdded out.old.items (machine_json machine) out.new.items) }
{
    match machine {
        None => put(out, b"null"),
        Some(machine) => put_known_machine(out, machine),
    }
}

/// How many requests were answered of the function whose count has this place.
fn put_function_count(out: &mut Vec<u8>, place: usize, count: u64) -> Result<(), AllocError>
    ensures { OnOk result (IsAdded out.old.items (function_json (place, count)) out.new.items) }
{
    put_comma(out, place)?;
    put(out, b"\"")?;
    put_function(out, place)?;
    put(out, b"\":")?;
    put_number(out, count)?;
    Ok(())
}

/// How many requests were answered, by their functions.
fn put_functions(out: &mut Vec<u8>, counts: &[u64; PLACES]) -> Result<(), AllocError>
    ensures { OnOk result (IsAdded out.old.items (functions_json counts.now) out.new.items) }
{
    for (place, count) in counts.iter().enumerate() {
        put_function_count(out, place, *count)?;
    }
    Ok(())
}

/// How many requests were answered by the exception whose count has this place.
fn put_exception_count(out: &mut Vec<u8>, place: usize, count: u64) -> Result<(), AllocError>
    requires { place < 4 }
    ensures { OnOk result (IsAdded out.old.items (exception_json (place, count)) out.new.items) }
{
    put_comma(out, place)?;
    put(out, b"\"")?;
    put_number(out, place as u64 + 1)?;
    put(out, b"\":")?;
    put_number(out, count)?;
    Ok(())
}

/// How many requests were answered by an exception, by their codes.
fn put_exceptions(out: &mut Vec<u8>, counts: &[u64; EXCEPTIONS]) -> Result<(), AllocError>
    ensures { OnOk result (IsAdded out.old.items (exceptions_json counts.now) out.new.items) }
{
    for (place, count) in counts.iter().enumerate() {
        put_exception_count(out, place, *count)?;
    }
    Ok(())
}

/// What Modbus clients did.
fn put_clients(out: &mut Vec<u8>, clients: &Clients) -> Result<(), AllocError>
    ensures { OnOk result (IsAdded out.old.items (clients_json clients.now) out.new.items) }
{
    put(out, b"{\"sessions\":")?;
    put_number(out, clients.sessions)?;
    put(out, b",\"open\":")?;
    put_number(out, clients.open_sessions)?;
    put(out, b",\"requests\":")?;
    put_number(out, sum_of(&clients.functions))?;
    put(out, b",\"functions\":{")?;
    put_functions(out, &clients.functions)?;
    put(out, b"},\"exceptions\":{")?;
    put_exceptions(out, &clients.exceptions)?;
    put(out, b"}}")?;
    Ok(())
}

/// What this process takes.
fn put_known_process(out: &mut Vec<u8>, process: Process) -> Result<(), AllocError>
    ensures { OnOk result (IsAdded out.old.items (known_process process) out.new.items) }
{
    put(out, b"{\"memory\":")?;
    put_number(out, process.resident)?;
    put(out, b",\"processor\":")?;
    put_seconds(out, process.processor)?;
    put(out, b"}")?;
    Ok(())
}

/// The same: null where it isn't known.
fn put_process(out: &mut Vec<u8>, process: Option<Process>) -> Result<(), AllocError>
    ensures { OnOk result (IsAdded out.old.items (process_json process) out.new.items) }
{
    match process {
        None => put(out, b"null"),
        Some(process) => put_known_process(out, process),
    }
}

/// Adds a value: 0 and 1 for a bit, a whole number, or the text of a REAL or of a bit string.
pub fn put_value_json(out: &mut Vec<u8>, value: Value) -> Result<(), AllocError>
    ensures { OnOk result (IsAdded out.old.items (value_json value) out.new.items) }
{
    match value {
        Value::Real(_) | Value::Word(_) | Value::Dword(_) => {
            put(out, b"\"")?;
            put_value(out, value)?;
            put(out, b"\"")?;
            Ok(())
        }
        _ => put_value(out, value),
    }
}

/// An input or an output.
fn put_point(out: &mut Vec<u8>, number: usize, point: &Point) -> Result<(), AllocError>
    ensures { OnOk result (IsAdded out.old.items (point_json (number, point.now)) out.new.items) }
{
    put_comma(out, number)?;
    put(out, b"{\"name\":")?;
    put_string(out, point.name.as_slice())?;
    put(out, b",\"place\":\"")?;
    put_place(out, point.place)?;
    put(out, b"\",\"value\":")?;
    put_value_json(out, point.value)?;
    put(out, b"}")?;
    Ok(())
}

/// Inputs, or outputs.
fn put_points(out: &mut Vec<u8>, points: &[Point]) -> Result<(), AllocError>
    ensures { OnOk result (IsAdded out.old.items (points_json points.now) out.new.items) }
{
    for (number, point) in points.iter().enumerate() {
        put_point(out, number, point)?;
    }
    Ok(())
}

/// A line that was printed, and when.
fn put_told(out: &mut Vec<u8>, number: usize, told: &Told) -> Result<(), AllocError>
    ensures { OnOk result (IsAdded out.old.items (told_json (number, told.now)) out.new.items) }
{
    put_comma(out, number)?;
    put(out, b"{\"at\":")?;
    put_seconds(out, told.at)?;
    put(out, b",\"line\":")?;
    put_string(out, told.line.as_slice())?;
    put(out, b"}")?;
    Ok(())
}

/// The last notices.
pub fn put_notices(out: &mut Vec<u8>, notices: &[Told]) -> Result<(), AllocError>
    ensures { OnOk result (IsAdded out.old.items (notices_json notices.now) out.new.items) }
{
    for (number, told) in notices.iter().enumerate() {
        put_told(out, number, told)?;
    }
    Ok(())
}

/// How many are forced, the inputs, the outputs and the notices, and the end.
fn put_lists(out: &mut Vec<u8>, reading: &Reading) -> Result<(), AllocError>
    ensures { OnOk result (IsAdded out.old.items (lists_text reading.now) out.new.items) }
{
    put(out, b",\"forces\":")?;
    put_number(out, reading.forces)?;
    put(out, b",\"inputs\":[")?;
    put_points(out, reading.inputs.as_slice())?;
    put(out, b"],\"outputs\":[")?;
    put_points(out, reading.outputs.as_slice())?;
    put(out, b"],\"notices\":[")?;
    put_notices(out, reading.notices.as_slice())?;
    put(out, b"]}\n")?;
    Ok(())
}

/// Adds what shows as one JSON object, by the version of the program.
pub fn put_state(out: &mut Vec<u8>, version: &[u8], reading: &Reading) -> Result<(), AllocError>
    ensures { OnOk result (IsAdded out.old.items (state_text version.now reading.now) out.new.items) }
{
    put(out, b"{\"version\":")?;
    put_string(out, version)?;
    put(out, b",\"view\":")?;
    put_number(out, greatest_view(reading.replicas.as_slice()))?;
    put(out, b",\"machine\":")?;
    put_machine(out, reading.machine)?;
    put(out, b",\"replicas\":[")?;
    put_replicas(out, reading.replicas.as_slice())?;
    put(out, b"],\"scans\":")?;
    put_scans(out, &reading.scans)?;
    put(out, b",\"clients\":")?;
    put_clients(out, &reading.clients)?;
    put(out, b",\"process\":")?;
    put_process(out, reading.process)?;
    put_lists(out, reading)?;
    Ok(())
}
