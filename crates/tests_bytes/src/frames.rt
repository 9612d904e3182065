//! Frames between replicas: streams that are cut or replaced, and the messages of frames.
ghost use Rattle.std.specs.Prelude.{◌≤◌, ◌<◌, length};

use crate::notation::{bytes_of, otherwise, unreadable};
use std::alloc::{AllocError, Global};
use std::io;
use vr_model::Message;
use vr_wire::{Feed, WireError, WireFault, write};

/// The longest body of a frame.
const LONGEST: u32 = 67_108_864;

/// The frame of a message.
pub fn frame_of(alloc: Global, message: &Message) -> io::Result<Vec<u8>> {
    match write(alloc, message) {
        Ok(frame) => Ok(frame),
        Err(_) => Err(unreadable()),
    }
}

/// The message of a frame, which is handed in as a row writes it.
pub fn message_of(alloc: Global, text: &str) -> io::Result<Message> {
    let frame = bytes_of(alloc, text)?;
    let mut out = Vec::new(alloc);
    let _fed = Feed::new(alloc).feed(alloc, frame.as_slice(), &mut out);
    let message = out.pop();
    drop(out);
    message.ok_or(unreadable())
}

/// The messages of a stream, and the fault behind them.
type Fed = (Vec<Message>, Option<WireFault>);

/// How many messages a stream has, and the fault behind them.
type Seen = (usize, Option<WireFault>);

/// What a new feed gives for a stream that comes in two pieces, and for nothing more.
fn fed(alloc: Global, stream: &[u8], cut: usize) -> Result<Fed, AllocError>
    requires { cut ≤ length stream.now }
{
    let mut out = Vec::new(alloc);
    match fault_of(alloc, stream.split_at(cut), &mut out) {
        Ok(fault) => Ok((out, fault)),
        Err(error) => {
            drop(out);
            Err(error)
        }
    }
}

/// The fault of two pieces, behind which nothing more comes.
fn fault_of(
    alloc: Global,
    (front, behind): (&[u8], &[u8]),
    out: &mut Vec<Message>,
) -> Result<Option<WireFault>, AllocError> {
    let mut feed = Feed::new(alloc);
    let _first = feed.feed(alloc, front, out);
    let _second = feed.feed(alloc, behind, out);
    match feed.feed(alloc, b"", out) {
        Ok(()) => Ok(None),
        Err(WireError::Fault(fault)) => Ok(Some(fault)),
        Err(WireError::Memory) => Err(AllocError),
    }
}

fn seen(alloc: Global, stream: &[u8], cut: usize) -> Result<Seen, AllocError>
    requires { cut ≤ length stream.now }
{
    let (messages, fault) = fed(alloc, stream, cut)?;
    let count = messages.len();
    drop(messages);
    Ok((count, fault))
}

/// What stands behind the frames of these messages; none where a stream doesn't begin with them.
fn behind<'a>(alloc: Global, stream: &'a [u8], messages: &[Message]) -> Option<&'a [u8]> {
    let mut rest = stream;
    for message in messages {
        rest = rest.strip_prefix(write(alloc, message).ok()?.as_slice())?;
    }
    Some(rest)
}

/// Whether a rest is what is said of it: longer than a frame may be, whole and no frame, or none of these yet.
fn is_judged(rest: &[u8], fault: Option<WireFault>) -> bool {
    if rest.len() < 4 {
        return fault.is_none();
    }
    let length = u32::from_be_bytes([rest[0], rest[1], rest[2], rest[3]]);
    let is_whole = length as usize <= rest.len() - 4;
    match fault {
        Some(WireFault::TooLarge) => length > LONGEST,
        Some(WireFault::BadFrame) => is_whole,
        None => !is_whole && length <= LONGEST,
    }
}

/// Whether just what a stream has is read of it: messages whose frames begin it, and behind them a fault or a rest that
/// waits.
fn is_read_as_framed(alloc: Global, stream: &[u8]) -> Result<bool, AllocError> {
    let (messages, fault) = fed(alloc, stream, stream.len() / 2)?;
    let rest = behind(alloc, stream, messages.as_slice());
    let is_so = rest.is_some_and(|rest| is_judged(rest, fault));
    drop(messages);
    Ok(is_so)
}

/// A stream whose byte at a place is `FF`.
pub fn replaced_at(alloc: Global, stream: &[u8], place: usize) -> Result<Vec<u8>, AllocError>
    requires { place < length stream.now }
{
    let mut replaced = Vec::from_slice(alloc, stream)?;
    replaced[place] = 0xff;
    Ok(replaced)
}

/// The same of the beginning of a stream up to a place, and of it with the byte there replaced by `FF`.
fn is_read_when_spoilt_at(alloc: Global, stream: &[u8], place: usize) -> Result<bool, AllocError>
    requires { place < length stream.now }
{
    let replaced = replaced_at(alloc, stream, place)?;
    Ok(
        is_read_as_framed(alloc, &stream[..place])?
            && is_read_as_framed(alloc, replaced.as_slice())?,
    )
}

fn is_read_when_spoilt(alloc: Global, stream: &[u8]) -> Result<bool, AllocError> {
    for place in 0..stream.len() {
        if !is_read_when_spoilt_at(alloc, stream, place)? {
            return Ok(false);
        }
    }
    Ok(true)
}

fn told_seen(alloc: Global, seen: Seen) -> Result<String, AllocError> {
    let (count, fault) = seen;
    match fault {
        None => format!(in alloc; "{count}"),
        Some(WireFault::BadFrame) => format!(in alloc; "{count} bad frame"),
        Some(WireFault::TooLarge) => format!(in alloc; "{count} too large"),
    }
}

/// What is seen of a stream, wherever it is cut; none where that depends on the cut.
fn seen_at_each_cut(alloc: Global, stream: &[u8]) -> Result<Option<Seen>, AllocError> {
    let whole = seen(alloc, stream, stream.len())?;
    for cut in 0..stream.len() {
        if seen(alloc, stream, cut)? != whole {
            return Ok(None);
        }
    }
    Ok(Some(whole))
}

/// How many messages a stream has, and the fault behind them.
fn stream(alloc: Global, text: &str) -> io::Result<String> {
    let stream = bytes_of(alloc, text)?;
    match soundly_seen(alloc, stream.as_slice())? {
        Some(seen) => Ok(told_seen(alloc, seen)?),
        None => Err(otherwise()),
    }
}

/// How many messages a long stream has, and the fault behind them; it's cut in its middle alone.
fn long_stream(alloc: Global, text: &str) -> io::Result<String> {
    let stream = bytes_of(alloc, text)?;
    if !is_read_as_framed(alloc, stream.as_slice())? {
        return Err(otherwise());
    }
    Ok(told_seen(alloc, seen(alloc, stream.as_slice(), 0)?)?)
}

/// What is seen of a stream that is read as it should be, wherever it's cut or spoilt.
fn soundly_seen(alloc: Global, stream: &[u8]) -> Result<Option<Seen>, AllocError> {
    if is_read_as_framed(alloc, stream)? && is_read_when_spoilt(alloc, stream)? {
        seen_at_each_cut(alloc, stream)
    } else {
        Ok(None)
    }
}

/// `m` a message, `.` none yet, `B` a bad frame, `L` too large.
fn letter(seen: Seen) -> char {
    match seen {
        (1, None) => 'm',
        (0, None) => '.',
        (0, Some(WireFault::BadFrame)) => 'B',
        (0, Some(WireFault::TooLarge)) => 'L',
        _ => '?',
    }
}

/// The letter for the frame whose byte at a place is `FF`.
fn letter_at(alloc: Global, frame: &[u8], place: usize) -> Result<char, AllocError>
    requires { place < length frame.now }
{
    let replaced = replaced_at(alloc, frame, place)?;
    Ok(letter(seen(alloc, replaced.as_slice(), 0)?))
}

/// A letter for each byte of a frame: what is seen of it where that byte is replaced by `FF`.
fn replaced(alloc: Global, text: &str) -> io::Result<String> {
    let frame = bytes_of(alloc, text)?;
    let frame = frame.as_slice();
    let mut letters = String::new(alloc);
    for place in 0..frame.len() {
        letters.push(letter_at(alloc, frame, place)?)?;
    }
    Ok(letters)
}

/// What comes out of a cell in a table of this title.
pub fn table(alloc: Global, title: &str, cell: &str) -> io::Result<String> {
    match title {
        "stream of frames" => stream(alloc, cell),
        "long stream of frames" => long_stream(alloc, cell),
        "byte replaced" => replaced(alloc, cell),
        _ => Err(unreadable()),
    }
}
