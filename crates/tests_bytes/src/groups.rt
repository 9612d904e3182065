//! Groups: their sizes, the primaries of views, and which log a view begins with.

use crate::notation::{number_of, told, unreadable};
use il_model::Command;
use std::alloc::{AllocError, Global};
use std::io;
use vr_log_choice::choose;
use vr_model::{ClientNumber, Config, DoViewChange, Log, Request};

/// How many replicas a group of this `f` has, and which of them is the primary of a view, as `1 7`; `none` where there
/// is no such group.
fn group(alloc: Global, text: &str) -> io::Result<String> {
    let (f, view) = numbers(text).ok_or(unreadable())?;
    match Config::new(f, 64) {
        Some(config) => Ok(size_and_primary(alloc, &config, view)?),
        None => told(alloc, "none"),
    }
}

fn size_and_primary(alloc: Global, config: &Config, view: u64) -> Result<String, AllocError> {
    let (size, primary) = (config.group_size(), config.primary(view));
    format!(in alloc; "{size} R{primary}")
}

/// `f` and a view.
fn numbers(text: &str) -> Option<(u8, u64)> {
    let (f, view) = text.split_once(' ')?;
    Some((f.parse::<u8>().ok()?, view.parse::<u64>().ok()?))
}

/// So many requests.
fn log(alloc: Global, length: u64) -> io::Result<Log> {
    let client = ClientNumber::new(0).ok_or(unreadable())?;
    let mut entries = Vec::new(alloc);
    for number in 0..length {
        entries.push(Request {
            client,
            number,
            command: Command::Step,
        })?;
    }
    Ok(Log::of(entries))
}

/// The number of a replica, its last normal view, and the length of its log, as `R1 normal=2 log=3`.
fn member(text: &str) -> Option<(u8, u64, u64)> {
    let (name, rest) = text.split_once(' ')?;
    let normal = number_of(rest, "normal=")?;
    let length = number_of(rest, "log=")?;
    Some((replica(name)?, normal, length))
}

/// The number of a replica, as `R1`.
fn replica(name: &str) -> Option<u8> {
    name.strip_prefix('R')?.parse::<u8>().ok()
}

/// What a replica tells of its log.
fn told_log(alloc: Global, text: &str) -> io::Result<DoViewChange> {
    let (replica, last_normal_view, length) = member(text).ok_or(unreadable())?;
    Ok(DoViewChange {
        replica,
        last_normal_view,
        commit_number: 0,
        log: log(alloc, length)?,
    })
}

/// What each of these replicas tells.
fn members(alloc: Global, text: &str) -> io::Result<Vec<DoViewChange>> {
    let mut members = Vec::new(alloc);
    for member in text.split(", ") {
        members.push(told_log(alloc, member)?)?;
    }
    Ok(members)
}

/// Which of these replicas' logs a view begins with: its place among them.
fn choice(alloc: Global, text: &str) -> io::Result<String> {
    let members = members(alloc, text)?;
    if members.is_empty() {
        return Err(unreadable());
    }
    Ok(format!(in alloc; "{}", choose(&members))?)
}

/// What comes out of a cell in a table of this title.
pub fn table(alloc: Global, title: &str, cell: &str) -> io::Result<String> {
    match title {
        "group" => group(alloc, cell),
        "choice of a log" => choice(alloc, cell),
        _ => Err(unreadable()),
    }
}
