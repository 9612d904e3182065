//! The messages of a stream of frames, in whatever pieces it comes.

ghost use Rattle.std.specs.Prelude.{◌≡◌, ◌-◌, ◌++◌, [], List, length, take, drop, IfOk, OnErr, Err};
ghost use Rattle.io_model.specs.Streams.{Rest, IsOneStream, Took, ending_of};
ghost use Rattle.vr_model.specs.Logs.{IsPrefix};
ghost use Rattle.vr_wire.specs.Frames.{IsShort};
ghost use Rattle.vr_wire.specs.Streams.{frames, Fills, Feeding, OnlyFramed};

use crate::fault::{WireError, WireFault};
use crate::front::{front_of, told_size};
use std::alloc::{AllocError, Global};
use std::marker::Model;
use vr_model::Message;

/// Adds the messages whose frames stand in front. What is behind them, and the fault that it begins with, if it does.
fn frames_of<'a>(
    alloc: Global,
    bytes: &'a [u8],
    out: &mut Vec<Message>,
) -> Result<(&'a [u8], Option<WireFault>), AllocError>
    ensures ok { IfOk result
        (λ x. Took frames (Rest []) bytes.now (ending_of x.0.now x.1) out.old.items out.new.items) }
    ensures grown { IsPrefix out.old.items out.new.items }
{
    let mut rest = bytes;
    'frames: loop {
        match front_of(alloc, rest) {
            Ok(Some((message, behind))) => {
                out.push(message)?;
                rest = behind;
            }
            Ok(None) => return Ok((rest, None)),
            Err(WireError::Fault(fault)) => return Ok((rest, Some(fault))),
            Err(WireError::Memory) => return Err(AllocError),
        }
    }
}

/// Moves bytes from the front of a piece to what is held, until so many are held. What is left of the piece.
fn fill<'a>(held: &mut Vec<u8>, size: usize, piece: &'a [u8]) -> Result<&'a [u8], AllocError>
    ensures held { IfOk result
        (λ rest. held.new.items ≡ held.old.items ++ take (size - length held.old.items) piece.now) }
    ensures rest { IfOk result (λ rest. rest.now ≡ drop (size - length held.old.items) piece.now) }
    ensures err { OnErr result (held.new.items ≡ held.old.items) }
    ensures grown { IsPrefix held.old.items held.new.items }
{
    let wanted = size.saturating_sub(held.len()).min(piece.len());
    let (front, rest) = piece.split_at(wanted);
    held.extend_from_slice(front)?;
    Ok(rest)
}

/// Moves bytes from the front of a piece to what is held, until that is a frame. What is left of the piece.
fn fill_frame<'a>(held: &mut Vec<u8>, piece: &'a [u8]) -> Result<&'a [u8], AllocError>
    requires { IsShort held.old.items }
    ensures ok { IfOk result (λ rest. Fills held.old.items piece.now held.new.items rest.now) }
    ensures grown { IsPrefix held.old.items held.new.items }
{
    let rest = fill(held, 4, piece)?;
    if held.len() < 4 {
        return Ok(rest);
    }
    let size = told_size(held.as_slice());
    fill(held, size, rest)
}

/// Goes on with the frame that is held: where the piece ends it, its message is added, and those behind it.
fn go_on(
    alloc: Global,
    held: &mut Vec<u8>,
    piece: &[u8],
    out: &mut Vec<Message>,
) -> Result<Option<WireFault>, AllocError>
    requires { IsShort held.old.items }
    ensures ok { IfOk result
        (λ fault. Took frames (Rest held.old.items) piece.now
        (ending_of held.new.items fault) out.old.items out.new.items) }
    ensures err { OnErr result (IsPrefix held.old.items held.new.items × IsPrefix out.old.items out.new.items) }
{
    let rest = fill_frame(held, piece)?;
    match front_of(alloc, held.as_slice()) {
        Ok(Some((message, _))) => {
            out.push(message)?;
            let (tail, fault) = frames_of(alloc, rest, out)?;
            *held = Vec::from_slice(alloc, tail)?;
            Ok(fault)
        }
        Ok(None) => Ok(None),
        Err(WireError::Fault(fault)) => Ok(Some(fault)),
        Err(WireError::Memory) => Err(AllocError),
    }
}

/// Adds the messages of a piece, and keeps what is less than a frame.
fn taken(
    alloc: Global,
    held: &mut Vec<u8>,
    piece: &[u8],
    out: &mut Vec<Message>,
) -> Result<Option<WireFault>, AllocError>
    requires { IsShort held.old.items }
    ensures ok { IfOk result
        (λ fault. Took frames (Rest held.old.items) piece.now
        (ending_of held.new.items fault) out.old.items out.new.items) }
    ensures err { OnErr result (IsPrefix held.old.items held.new.items × IsPrefix out.old.items out.new.items) }
{
    if !held.is_empty() {
        return go_on(alloc, held, piece, out);
    }
    let (rest, fault) = frames_of(alloc, piece, out)?;
    held.extend_from_slice(rest)?;
    Ok(fault)
}

/// What came of a stream and is no whole frame yet, or the fault that it met.
#[derive(Drop)]
pub struct Feed {
    held: Vec<u8>,
    fault: Option<WireFault>,
}

impl Model for Feed {
    ghost use Rattle.vr_wire.specs.declared.fault.WireFault.{WireFault};
    ghost use Rattle.io_model.specs.Streams.{Ending, ending_of};
    ghost use Rattle.vr_wire.specs.Frames.{IsShort};

    ghost Value = { Ending WireFault };

    ghost view = { λ f. ending_of f.held.items f.fault };

    ghost invariant = { λ f. IsShort f.held.items };
}

impl Feed {
    /// The feed of a stream of which nothing came yet.
    pub fn new(alloc: Global) -> Feed
        ensures { result ≡ Rest [] }
    {
        Feed {
            held: Vec::new(alloc),
            fault: None,
        }
    }

    /// Takes the next piece of the stream, and adds each message that is whole now. A fault of the stream is answered
    /// for good. Want of memory changes nothing: the same piece may be fed again.
    ///
    /// A frame that lies in the piece is read there. Bytes of a frame that is cut are copied once, to what is held.
    #[tactic(auto, using(crate::proofs::Pieces::taken_away))]
    pub fn feed(
        &mut self,
        alloc: Global,
        piece: &[u8],
        out: &mut Vec<Message>,
    ) -> Result<(), WireError>
        ensures fed { Feeding result self.old piece.now self.new out.old.items out.new.items }
        ensures memory { result ≡ Err WireError.Memory → (self.new ≡ self.old) × (out.new.items ≡ out.old.items) }
    {
        if let Some(fault) = self.fault {
            return Err(WireError::Fault(fault));
        }
        let (held, found) = (self.held.len(), out.len());
        match taken(alloc, &mut self.held, piece, out) {
            Ok(None) => Ok(()),
            Ok(Some(fault)) => {
                self.held = Vec::new(alloc);
                self.fault = Some(fault);
                Err(WireError::Fault(fault))
            }
            Err(_) => {
                self.held.truncate(held);
                out.truncate(found);
                Err(WireError::Memory)
            }
        }
    }
}

/// The law that a stream of frames has its messages and its ending in whatever pieces it comes, and no others; that
/// what was framed is found; and that no frame is a prefix of another.
pub fn any_pieces()
    ensures { IsOneStream frames }
{}

/// The law that of a prefix of the frames of messages only a prefix of those messages is found, and no fault.
pub fn only_framed_are_found()
    ensures { OnlyFramed }
{}
