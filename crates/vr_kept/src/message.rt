//! One message in a record.

ghost use Rattle.std.specs.Prelude.{◌≡◌, ◌↔◌, IfOk, IsTrue, MatchOption, Some};
ghost use Rattle.vr_kept.specs.Inputs.{IsFrame, IsNoFrame};

use std::alloc::{AllocError, Global};
use vr_model::Message;
use vr_wire::{Feed, WireError, any_pieces, write};

/// Whether these bytes are the frame of this message.
fn is_frame_of(alloc: Global, message: &Message, bytes: &[u8]) -> Result<bool, AllocError>
    ensures { IfOk result (λ same. IsTrue same ↔ IsFrame bytes.now message.now) }
{
    match write(alloc, message) {
        Ok(frame) => Ok(frame.as_slice() == bytes),
        Err(WireError::Fault(_)) => Ok(false),
        Err(WireError::Memory) => Err(AllocError),
    }
}

/// The last of the messages that a feed finds in these bytes, if it finds one and no fault.
fn last_in(alloc: Global, bytes: &[u8]) -> Result<Option<Message>, AllocError>
    ensures { IfOk result (λ found. (m : Message) → IsFrame bytes.now m → found ≡ Some m) }
{
    any_pieces();
    let mut messages = Vec::new(alloc);
    match Feed::new(alloc).feed(alloc, bytes, &mut messages) {
        Ok(()) => Ok(messages.pop()),
        Err(WireError::Fault(_)) => Ok(None),
        Err(WireError::Memory) => Err(AllocError),
    }
}

/// The message whose frame these bytes are, if they are one's.
pub(crate) fn message_of(alloc: Global, bytes: &[u8]) -> Result<Option<Message>, AllocError>
    ensures { IfOk result
        (λ message. MatchOption message (IsNoFrame bytes.now) (λ message. IsFrame bytes.now message)) }
{
    let Some(message) = last_in(alloc, bytes)? else {
        return Ok(None);
    };
    if is_frame_of(alloc, &message, bytes)? {
        Ok(Some(message))
    } else {
        Ok(None)
    }
}
