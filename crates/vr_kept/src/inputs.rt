//! Inputs as what records say.

ghost use Rattle.std.specs.Prelude.{◌≡◌, ◌∷◌, ◌⊎◌, [], Err, IfOk, MatchOption, OnOk, map};
ghost use Rattle.vr_journal.specs.Records.{Fits};
ghost use Rattle.vr_kept.specs.Inputs.{AreOf, AreOfNone, IsKept, IsOf, IsOfNone, input_bytes, input_record};
ghost use Rattle.vr_kept.specs.declared.fault.KeepFault.TheVariants.{NotKept};

use crate::fault::KeepFault;
use crate::message::message_of;
use std::alloc::{AllocError, Global};
use vr_model::{Event, Message};
use vr_wire::{WireError, write};

/// What stands before the frame of a message.
const MESSAGE: u8 = 0;

/// What is said of a timeout.
const TIMEOUT: u8 = 1;

/// What is said of a resend.
const RESEND: u8 = 2;

/// What a record says of a message.
fn spell_message(alloc: Global, message: &Message) -> Result<Vec<u8>, KeepFault>
    ensures ok { IfOk result (λ bytes. bytes.items ≡ input_bytes (Event.Message message.now)) }
    ensures kept { OnOk result (IsKept (Event.Message message.now)) }
    ensures none { result ≡ Err NotKept → IsKept (Event.Message message.now) → ⊥ }
{
    match write(alloc, message) {
        Ok(frame) => {
            let mut bytes = Vec::new(alloc);
            bytes.push(MESSAGE)?;
            bytes.extend_from_slice(frame.as_slice())?;
            Ok(bytes)
        }
        Err(WireError::Fault(_)) => Err(KeepFault::NotKept),
        Err(WireError::Memory) => Err(KeepFault::Memory),
    }
}

/// A record of one byte.
fn spell_tag(alloc: Global, tag: u8) -> Result<Vec<u8>, KeepFault>
    ensures ok { IfOk result (λ bytes. bytes.items ≡ tag ∷ []) }
    ensures err { result ≡ Err NotKept → ⊥ }
{
    let mut bytes = Vec::new(alloc);
    bytes.push(tag)?;
    Ok(bytes)
}

/// What a record says of an event. `NotKept` is answered where that has none: a restart, or a message without a frame.
pub fn spell(alloc: Global, event: &Event) -> Result<Vec<u8>, KeepFault>
    ensures ok { IfOk result (λ bytes. bytes.items ≡ input_bytes event.now) }
    ensures kept { OnOk result (IsKept event.now) }
    ensures none { result ≡ Err NotKept → IsKept event.now → ⊥ }
    ensures fits { OnOk result (Fits (input_record event.now)) }
{
    match event {
        Event::Message(message) => spell_message(alloc, message),
        Event::Timeout => spell_tag(alloc, TIMEOUT),
        Event::Resend => spell_tag(alloc, RESEND),
        Event::Restart(_) => Err(KeepFault::NotKept),
    }
}

/// The event that is told by one byte alone, if one is.
fn told_by(tag: u8) -> Option<Event>
    ensures { MatchOption result (tag ≡ 0 ⊎ IsOfNone (tag ∷ [])) (λ event. IsOf (tag ∷ []) event) }
{
    match tag {
        TIMEOUT => Some(Event::Timeout),
        RESEND => Some(Event::Resend),
        _ => None,
    }
}

/// The event of which a record says this; none where no event is spelled so. It fails only where memory runs out.
pub fn read_input(alloc: Global, bytes: &[u8]) -> Result<Option<Event>, AllocError>
    ensures { IfOk result (λ event. MatchOption event (IsOfNone bytes.now) (λ event. IsOf bytes.now event)) }
{
    let [tag, rest @ ..] = bytes else {
        return Ok(None);
    };
    if *tag == MESSAGE {
        return match message_of(alloc, rest)? {
            Some(message) => Ok(Some(Event::Message(message))),
            None => Ok(None),
        };
    }
    if !rest.is_empty() {
        return Ok(None);
    }
    Ok(told_by(*tag))
}

/// The events of which some records say these, in order; none where one of them is no event's. It fails only where
/// memory runs out.
pub fn read_inputs(alloc: Global, records: &[Vec<u8>]) -> Result<Option<Vec<Event>>, AllocError>
    ensures { IfOk result
        (λ events. MatchOption events (AreOfNone (map (λ v. v.items) records.now))
        (λ events. AreOf (map (λ v. v.items) records.now) events.items)) }
{
    let mut events = Vec::new(alloc);
    for record in records {
        match read_input(alloc, record.as_slice())? {
            Some(event) => events.push(event)?,
            None => return Ok(None),
        }
    }
    Ok(Some(events))
}
