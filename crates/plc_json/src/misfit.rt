//! Where a text stops being a list of commands, of what a console is asked, or of events.

use crate::command::{JsonFault, command};
use crate::event::event;
use crate::question::asked_by;
use serde_json::Value as Json;
use std::alloc::Global;

/// What a list is of.
#[derive(Clone, Copy, Debug, PartialEq, Eq)]
pub enum Listed {
    Commands,
    /// Commands and questions, which a console is asked.
    Asked,
    Events,
}

/// Where a text stops being a list.
#[derive(Clone, Copy, Debug, PartialEq, Eq)]
pub enum Misfit {
    /// It's no JSON (RFC 8259) there: line and column count from 1.
    NoJson { line: usize, column: usize },
    /// Its value is no array.
    NoList,
    /// This item of the array, counted from 0, is none of those that it should be.
    Item(usize),
}

/// Where a text stops being a list of these, if it does, and memory lasts to find it.
pub fn misfit_in(alloc: Global, listed: Listed, text: &[u8]) -> Option<Misfit> {
    let json = match Json::from_slice(alloc, text) {
        Ok(json) => json,
        Err(error) if error.is_memory() => return None,
        Err(error) => return Some(Misfit::NoJson {
            line: error.line(),
            column: error.column(),
        }),
    };
    match json.as_array() {
        Some(items) => first_none(alloc, listed, items.as_slice()),
        None => Some(Misfit::NoList),
    }
}

/// The first item that is none of these.
fn first_none(alloc: Global, listed: Listed, items: &[Json]) -> Option<Misfit> {
    for (number, item) in items.iter().enumerate() {
        if is_none(alloc, listed, item) {
            return Some(Misfit::Item(number));
        }
    }
    None
}

/// Whether a value is none of these.
fn is_none(alloc: Global, listed: Listed, json: &Json) -> bool {
    let fault = match listed {
        Listed::Commands => command(alloc, json).err(),
        Listed::Asked => asked_by(alloc, json).err(),
        Listed::Events => event(alloc, json).err(),
    };
    fault == Some(JsonFault::Shape)
}
