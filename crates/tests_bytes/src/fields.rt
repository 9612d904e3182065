//! Fields: cycles that are told what happens.

use crate::notation::{bytes_of, front, lines_of, put_made, told_bytes, unreadable};
use field_cycle::{Action, Change, Cycle, LinkFault, Moment, Who};
use field_map::FieldMap;
use modbus_wire::{Adu, Session};
use std::alloc::{AllocError, Global};
use std::io;

/// Actions of one moment, at most.
const ACTIONS: u32 = 1000;

/// A PDU has at most so many bytes (V1.1b3, section 4.1).
const MOST_BYTES: usize = 253;

fn named(alloc: Global, who: Who) -> Result<String, AllocError> {
    match who {
        Who::Controller => String::from_str(alloc, "controller"),
        Who::Device(number) => format!(in alloc; "{number}"),
    }
}

fn who_of(word: &str) -> Option<Who> {
    match word {
        "controller" => Some(Who::Controller),
        _ => Some(Who::Device(word.parse::<usize>().ok()?)),
    }
}

fn hexadecimal(alloc: Global, unit: &Adu) -> io::Result<String> {
    let mut bytes = Vec::new(alloc);
    if unit.pdu.len() > MOST_BYTES {
        return Err(unreadable());
    }
    unit.write_to(&mut bytes)?;
    told_bytes(alloc, bytes.as_slice())
}

fn told_change(alloc: Global, who: &String, change: Change) -> Result<String, AllocError> {
    match change {
        Change::Found => format!(in alloc; " {who} found"),
        Change::Back => format!(in alloc; " {who} back"),
        Change::Lost(fault) => format!(in alloc; " {who} lost {fault}"),
    }
}

fn told_send(alloc: Global, who: &String, unit: &Adu) -> io::Result<String> {
    let bytes = hexadecimal(alloc, unit)?;
    Ok(format!(in alloc; " send {who} {bytes}")?)
}

fn told_action(alloc: Global, action: &Action) -> io::Result<String> {
    let (Action::Connect(who, _)
    | Action::Send(who, _)
    | Action::Close(who)
    | Action::Tell(who, _)) = action;
    told_of(alloc, &named(alloc, *who)?, action)
}

/// What is done to whoever is named so.
fn told_of(alloc: Global, who: &String, action: &Action) -> io::Result<String> {
    match action {
        Action::Connect(_, address) => Ok(format!(in alloc; " connect {who} {address}")?),
        Action::Send(_, unit) => told_send(alloc, who, unit),
        Action::Close(_) => Ok(format!(in alloc; " close {who}")?),
        Action::Tell(_, change) => Ok(told_change(alloc, who, *change)?),
    }
}

/// The units of bytes.
fn units_of(alloc: Global, words: &str) -> io::Result<Vec<Adu>> {
    let mut units = Vec::new(alloc);
    match Session::new().feed(bytes_of(alloc, words)?.as_slice(), &mut units) {
        Ok(()) => Ok(units),
        Err(_) => Err(unreadable()),
    }
}

/// Tells a cycle that units came. What is put where the connection is to be closed.
fn came(
    alloc: Global,
    cycle: &mut Cycle,
    who: Who,
    bytes: &str,
    now: Moment,
) -> io::Result<&'static str> {
    for unit in units_of(alloc, bytes)?.iter() {
        if !cycle.came(who, unit, now) {
            return Ok(" refused");
        }
    }
    Ok("")
}

/// Tells a cycle what happened: `opened WHO`, `came WHO BYTES` or `closed WHO`; `stop`; or nothing. What is put where
/// a connection is to be closed.
fn happens(alloc: Global, cycle: &mut Cycle, event: &str, now: Moment) -> io::Result<&'static str> {
    if event.is_empty() {
        return Ok("");
    }
    if event == "stop" {
        cycle.stop();
        return Ok("");
    }
    let (verb, rest) = front(event, " ");
    let (name, bytes) = front(rest, " ");
    let who = who_of(name).ok_or(unreadable())?;
    if verb == "came" {
        return came(alloc, cycle, who, bytes, now);
    }
    tell_link(cycle, verb, who, now)
}

/// Tells a cycle that a connection was made or lost.
fn tell_link(cycle: &mut Cycle, verb: &str, who: Who, now: Moment) -> io::Result<&'static str> {
    match verb {
        "opened" => cycle.opened(who),
        "closed" => cycle.failed(who, LinkFault::Closed, now),
        _ => return Err(unreadable()),
    }
    Ok("")
}

fn put_action(alloc: Global, action: &Action, out: &mut String) -> io::Result<()> {
    Ok(out.push_str(told_action(alloc, action)?.as_str())?)
}

/// Puts what is to be done at a moment.
fn put_actions(alloc: Global, cycle: &mut Cycle, now: Moment, out: &mut String) -> io::Result<()> {
    for _ in 0..ACTIONS {
        match cycle.act(now) {
            Some(action) => put_action(alloc, &action, out)?,
            None => return Ok(()),
        }
    }
    Ok(())
}

/// Puts a line again, with what is to be done behind its colon.
fn put_line(alloc: Global, cycle: &mut Cycle, line: &str, out: &mut String) -> io::Result<()> {
    let happened = front(line, ":").0;
    let (now, event) = timed(happened)?;
    let ended = happens(alloc, cycle, event, now)?;
    put_made(out, format!(in alloc; "{happened}:{ended}"))?;
    put_actions(alloc, cycle, now, out)?;
    Ok(out.push('\n')?)
}

/// A moment, and what happened then.
fn timed(happened: &str) -> io::Result<(Moment, &str)> {
    let (moment, event) = front(happened, " ");
    Ok((moment.parse::<Moment>().ok().ok_or(unreadable())?, event))
}

/// What a cycle of a field does: a line is a moment, what happened, and behind the colon what is to be done.
pub fn run(alloc: Global, text: &str, body: &str) -> io::Result<String> {
    let map = FieldMap::read(alloc, text).ok().ok_or(unreadable())?;
    tell_all(alloc, &mut Cycle::new(alloc, map)?, body)
}

fn tell_all(alloc: Global, cycle: &mut Cycle, body: &str) -> io::Result<String> {
    let mut out = String::new(alloc);
    for line in lines_of(alloc, body)? {
        put_line(alloc, cycle, line, &mut out)?;
    }
    Ok(out)
}
