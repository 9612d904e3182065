//! What stands in front of a stream.

ghost use Rattle.std.specs.Prelude.{◌≡◌, ◌+◌, ◌≤◌, length};
ghost use Rattle.vr_wire.specs.Frames.{told_length};
ghost use Rattle.vr_wire.specs.MessageReading.{front_by, front_of};
ghost use Rattle.vr_wire.specs.Streams.{ReadsFront, Shows};

use crate::fault::{ReadError, WireError, WireFault};
use crate::message::whole_message;
use crate::numbers::u32_at;
use byteorder::{BigEndian, ByteOrder};
use std::alloc::Global;
use vr_model::Message;

/// How long a body may be.
pub(crate) const BODY_LIMIT: usize = 67108864;

/// How long the frame is whose first four bytes are there.
pub(crate) fn told_size(bytes: &[u8]) -> usize
    requires { 4 ≤ length bytes.now }
    ensures { result ≡ 4 + told_length bytes.now }
{
    let (front, _) = bytes.split_at(4);
    4 + BigEndian::read_u32(front) as usize
}

/// The message in a body of that length, and what is behind it.
fn front_by(
    alloc: Global,
    length: usize,
    bytes: &[u8],
) -> Result<Option<(Message, &[u8])>, WireError>
    ensures { ReadsFront (λ x. x.0) (λ x. x.1.now) result (front_by length bytes.now) }
{
    if length == 0 {
        return Err(WireError::Fault(WireFault::BadFrame));
    }
    if length > BODY_LIMIT {
        return Err(WireError::Fault(WireFault::TooLarge));
    }
    if bytes.len() < length {
        return Ok(None);
    }
    let (body, rest) = bytes.split_at(length);
    match whole_message(alloc, body) {
        Ok(message) => Ok(Some((message, rest))),
        Err(ReadError::Malformed) => Err(WireError::Fault(WireFault::BadFrame)),
        Err(ReadError::Memory) => Err(WireError::Memory),
    }
}

#[tactic(auto, unfolding(crate::specs::MessageReading::front_of))]
fn read_front(alloc: Global, bytes: &[u8]) -> Result<Option<(Message, &[u8])>, WireError>
    ensures { ReadsFront (λ x. x.0) (λ x. x.1.now) result (front_of bytes.now) }
{
    match u32_at(bytes) {
        Ok((length, rest)) => front_by(alloc, length as usize, rest),
        Err(ReadError::Malformed) => Ok(None),
        Err(ReadError::Memory) => Err(WireError::Memory),
    }
}

/// The message whose frame stands in front, and what is behind it; none where less than a frame is there.
pub(crate) fn front_of(alloc: Global, bytes: &[u8]) -> Result<Option<(Message, &[u8])>, WireError>
    ensures { Shows (λ x. x.0) (λ x. x.1.now) result bytes.now }
{
    read_front(alloc, bytes)
}
