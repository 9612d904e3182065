//! The lines that answer questions.

use il_model::{Area, ForcedSlot, Loc, Snapshot, Stop, Value};
use plc_status::{Halt, Status};
use sha2::{Digest, Sha256};
use std::alloc::{AllocError, Global};
use std::ops::Range;

/// The letter of an area.
fn letter(area: Area) -> &'static str {
    match area {
        Area::Input => "I",
        Area::Output => "Q",
        Area::Memory => "M",
    }
}

/// A location, as `%IX0.3` or `%QW7`; no double word is forced.
fn location_text(alloc: Global, location: Loc) -> Result<String, AllocError> {
    match location {
        Loc::Bit(area, number) => {
            let (letter, byte, bit) = (letter(area), number / 8, number % 8);
            format!(in alloc; "%{letter}X{byte}.{bit}")
        }
        Loc::Word(area, number) | Loc::Pattern(area, number) => {
            let letter = letter(area);
            format!(in alloc; "%{letter}W{number}")
        }
        Loc::Double(area, number, _) => {
            let letter = letter(area);
            format!(in alloc; "%{letter}D{number}")
        }
    }
}

/// A value that is forced: TRUE and FALSE of a bit, the number of a word.
fn value_text(alloc: Global, value: Value) -> Result<String, AllocError> {
    match value {
        Value::Bool(true) => String::from_str(alloc, "TRUE"),
        Value::Bool(false) => String::from_str(alloc, "FALSE"),
        Value::Int(number) => format!(in alloc; "{number}"),
        Value::Dint(number) => format!(in alloc; "{number}"),
        Value::Lint(number) => format!(in alloc; "{number}"),
        Value::Time(milliseconds) => format!(in alloc; "{milliseconds}"),
        Value::Real(number) => {
            let text = number.text();
            String::from_str(alloc, text.as_str())
        }
        Value::Word(bits) => format!(in alloc; "16#{bits:04X}"),
        Value::Dword(bits) => format!(in alloc; "16#{bits:08X}"),
    }
}

/// What lies over one location, behind a blank.
fn forced_text(alloc: Global, forced: &ForcedSlot) -> Result<String, AllocError> {
    let Some(location) = Loc::of_code(forced.slot.0) else {
        return Ok(String::new(alloc));
    };
    let location = location_text(alloc, location)?;
    let value = value_text(alloc, forced.value)?;
    format!(in alloc; " {location}={value}")
}

/// What is forced, as `forces %IX0.3=TRUE %QW7=-5`: inputs before outputs, bits before words.
pub(crate) fn forces_line(alloc: Global, snapshot: &Snapshot) -> Result<String, AllocError> {
    let mut line = String::from_str(alloc, "forces")?;
    for forced in &snapshot.forces {
        line.push_str(forced_text(alloc, forced)?.as_str())?;
    }
    line.push('\n')?;
    Ok(line)
}

/// Where breakpoints are set, as `breaks 2 7`: instructions, counted from 0.
pub(crate) fn breaks_line(alloc: Global, snapshot: &Snapshot) -> Result<String, AllocError> {
    let mut line = String::from_str(alloc, "breaks")?;
    for position in &snapshot.breaks {
        line.push_str(format!(in alloc; " {position}")?.as_str())?;
    }
    line.push('\n')?;
    Ok(line)
}

/// How many bytes the image of the program in force has, and the SHA-256 of them, as `sha256sum` prints it of the file
/// that `plc asm` writes.
pub(crate) fn program_line(alloc: Global, snapshot: &Snapshot) -> Result<String, AllocError> {
    let image = snapshot.image.as_slice();
    let mut hasher = Sha256::new();
    hasher.update(image);
    let sum = hasher.finalize();
    let sum = hex::encode(alloc, &sum)?;
    let size = image.len();
    format!(in alloc; "program {size} bytes {sum}\n")
}

/// How many of these replicas are normal.
fn normal_count(status: &Status, replicas: Range<u8>) -> u8 {
    let mut count = 0u8;
    for number in replicas {
        if status.replica(number).is_normal() {
            count = count.saturating_add(1);
        }
    }
    count
}

/// By what the last scan was held or stopped, behind a blank, if it was.
fn halt_text(alloc: Global, halt: Option<Halt>) -> Result<String, AllocError> {
    match halt {
        None => Ok(String::new(alloc)),
        Some(Halt::Held(position)) => format!(in alloc; " held {position}"),
        Some(Halt::Stopped(stop, position)) => {
            let stop = match stop {
                Stop::Overflow => "overflow",
                Stop::ZeroDivisor => "zerodivisor",
                Stop::Budget => "budget",
            };
            format!(in alloc; " stopped {stop} {position}")
        }
    }
}

/// How many scans were answered, how many of these replicas are normal, and what the last scan was held or stopped by, as
/// `status scans 120 normal 3 of 3 held 5`.
pub(crate) fn status_line(
    alloc: Global,
    status: &Status,
    replicas: Range<u8>,
) -> Result<String, AllocError> {
    let shown = status.scans();
    let count = replicas.end.saturating_sub(replicas.start);
    let (scans, normal) = (shown.scans, normal_count(status, replicas));
    let halt = halt_text(alloc, shown.halt)?;
    format!(in alloc; "status scans {scans} normal {normal} of {count}{halt}\n")
}
