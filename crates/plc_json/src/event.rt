//! The events of a schedule.

ghost use Rattle.std.specs.Prelude.{◌≡◌, Some, None, IfOk, IfErr, map};
ghost use Rattle.serde_json.specs.View.{view};
ghost use Rattle.plc_json.specs.Commands.{number_at, all_of};
ghost use Rattle.plc_json.specs.Events.{HasSchedule, HasNoSchedule, event_of, event_by, submit_event, scheduled};
ghost use Rattle.plc_json.specs.Events.{numbered_event, keyed_event, restart_event, keeps_new, store_fail_event};
ghost use Rattle.plc_json.specs.declared.command.JsonFault.TheVariants.{Shape};

use crate::command::{JsonFault, NamedCommand, command, only_member};
use serde_json::Value as Json;
use std::alloc::Global;

/// An event as a schedule has it: clients, replicas and messages go by their numbers, slots by their names.
#[derive(Drop)]
pub enum NamedEvent {
    Submit { client: u64, command: NamedCommand },
    Retry { client: u64 },
    ClientRestart { client: u64 },
    Deliver { message: u64 },
    Timeout { replica: u64 },
    Resend { replica: u64 },
    Crash { replica: u64 },
    Restart { replica: u64, nonce: u64 },
    /// The next save of the replica fails.
    StoreFail { replica: u64, keeps_new: bool },
}

/// The events of a text, in its order.
///
/// Every event is judged before any is given, as `commands` judges commands; numbers of clients, replicas, messages and
/// nonces are those of 64 bits. `Shape` is the answer where the text is no JSON (RFC 8259), or no array of events of
/// the shapes that this crate gives.
/// `Memory` comes where memory ran out.
pub fn schedule(alloc: Global, text: &[u8]) -> Result<Vec<NamedEvent>, JsonFault>
    ensures found { IfOk result (λ v. HasSchedule text.now v.items) }
    ensures refused { IfErr result (λ e. e ≡ Shape → HasNoSchedule text.now) }
{
    let json = Json::from_slice(alloc, text)?;
    let items = json.as_array().ok_or(JsonFault::Shape)?;
    each_event(alloc, items.as_slice())
}

fn each_event(alloc: Global, items: &[Json]) -> Result<Vec<NamedEvent>, JsonFault>
    ensures found { IfOk result (λ v. all_of event_of (map view items.now) ≡ Some (map scheduled v.items)) }
    ensures refused { IfErr result (λ e. e ≡ Shape → all_of event_of (map view items.now) ≡ None) }
{
    let mut events = Vec::new(alloc);
    for json in items {
        let next = event(alloc, json)?;
        events.push(next)?;
    }
    Ok(events)
}

/// One event: an object with one member, whose key is the event's name.
pub(crate) fn event(alloc: Global, json: &Json) -> Result<NamedEvent, JsonFault>
    ensures found { IfOk result (λ e. event_of (view json.now) ≡ Some (scheduled e)) }
    ensures refused { IfErr result (λ e. e ≡ Shape → event_of (view json.now) ≡ None) }
{
    let members = json.as_object().ok_or(JsonFault::Shape)?;
    let (key, argument) = only_member(members).ok_or(JsonFault::Shape)?;
    event_by(alloc, key, argument)
}

fn event_by(alloc: Global, key: &str, argument: &Json) -> Result<NamedEvent, JsonFault>
    ensures found { IfOk result (λ e. event_by (key.now, view argument.now) ≡ Some (scheduled e)) }
    ensures refused { IfErr result (λ e. e ≡ Shape → event_by (key.now, view argument.now) ≡ None) }
{
    match key {
        "submit" => submit(alloc, argument),
        _ => Ok(keyed(key, argument).ok_or(JsonFault::Shape)?),
    }
}

/// An event without a command.
fn keyed(key: &str, argument: &Json) -> Option<NamedEvent>
    ensures { result ≡ keyed_event key.now (view argument.now) }
{
    match key {
        "restart" => restart(argument),
        "storefail" => store_fail(argument),
        _ => numbered(key, number(argument)?),
    }
}

/// An event that has a number alone.
fn numbered(key: &str, number: u64) -> Option<NamedEvent>
    ensures { result ≡ numbered_event key.now number }
{
    match key {
        "retry" => Some(NamedEvent::Retry { client: number }),
        "clientrestart" => Some(NamedEvent::ClientRestart { client: number }),
        "deliver" => Some(NamedEvent::Deliver { message: number }),
        "timeout" => Some(NamedEvent::Timeout { replica: number }),
        "resend" => Some(NamedEvent::Resend { replica: number }),
        "crash" => Some(NamedEvent::Crash { replica: number }),
        _ => None,
    }
}

fn submit(alloc: Global, argument: &Json) -> Result<NamedEvent, JsonFault>
    ensures found { IfOk result (λ e. submit_event (view argument.now) ≡ Some (scheduled e)) }
    ensures refused { IfErr result (λ e. e ≡ Shape → submit_event (view argument.now) ≡ None) }
{
    let [client, asked] = argument.as_array().ok_or(JsonFault::Shape)?.as_slice() else {
        return Err(JsonFault::Shape);
    };
    let client = number(client).ok_or(JsonFault::Shape)?;
    let command = command(alloc, asked)?;
    Ok(NamedEvent::Submit { client, command })
}

fn restart(argument: &Json) -> Option<NamedEvent>
    ensures { result ≡ restart_event (view argument.now) }
{
    let [replica, nonce] = argument.as_array()?.as_slice() else {
        return None;
    };
    Some(NamedEvent::Restart {
        replica: number(replica)?,
        nonce: number(nonce)?,
    })
}

fn store_fail(argument: &Json) -> Option<NamedEvent>
    ensures { result ≡ store_fail_event (view argument.now) }
{
    let [replica, kept] = argument.as_array()?.as_slice() else {
        return None;
    };
    Some(NamedEvent::StoreFail {
        replica: number(replica)?,
        keeps_new: keeps_new(kept.as_str()?)?,
    })
}

/// Whether a store that fails keeps the new view.
fn keeps_new(word: &str) -> Option<bool>
    ensures { result ≡ keeps_new word.now }
{
    match word {
        "old" => Some(false),
        "new" => Some(true),
        _ => None,
    }
}

fn number(json: &Json) -> Option<u64>
    ensures { result ≡ number_at (view json.now) }
{
    json.as_u64()
}
