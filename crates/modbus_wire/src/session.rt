//! The application data units of a stream, in whatever pieces it comes.
ghost use Rattle.std.specs.Prelude.{◌≡◌, ◌≤◌, ◌++◌, [], List, IfOk, OnErr, length};
ghost use Rattle.io_model.specs.Streams.{Rest, IsOneStream, ending_of, Took};
ghost use Rattle.modbus_wire.specs.Frames.{Adu as Unit, IsPartial, adus, Feeding};

use crate::adu::{Adu, adu_of};
use crate::header::{Header, HeaderFault, header_of};
use arrayvec::ArrayVec;
use std::alloc::AllocError;
use std::marker::Model;
use thiserror::Error;

/// Why a piece of the stream was not taken.
#[derive(Clone, Copy, Debug, PartialEq, Eq, Error)]
pub enum SessionFault {
    #[error("{0}")]
    Header(HeaderFault),
    #[error("out of memory")]
    Memory,
}

/// No unit is longer.
type Held = ArrayVec<u8, 260>;

fn held_of(bytes: &[u8]) -> Held
    requires { length bytes.now ≤ 260 }
    ensures { result.items ≡ bytes.now }
{
    match Held::try_from(bytes) {
        Ok(held) => held,
        Err(_) => unreachable!(),
    }
}

/// Takes the bytes of a piece and adds each unit that is whole, up to the first fault.
fn take_units(
    held: &mut Held,
    piece: &[u8],
    out: &mut Vec<Adu>,
) -> Result<Option<HeaderFault>, AllocError>
    requires { IsPartial held.old.items }
    ensures ok { IfOk result
        (λ fault. Took adus (Rest held.old.items) piece.now
        (ending_of held.new.items fault) out.old.items out.new.items) }
    ensures err { OnErr result ((more : List Unit) × (out.new.items ≡ out.old.items ++ more)) }
{
    for byte in piece {
        held.push(*byte);
        match header_of(held.as_slice()) {
            Header::Short => {}
            Header::Size(size) => {
                if held.len() == size {
                    out.push(adu_of(held.as_slice()))?;
                    held.clear();
                }
            }
            Header::Bad(fault) => return Ok(Some(fault)),
        }
    }
    Ok(None)
}

/// What came of a stream and is no whole unit yet, or the fault that it met.
#[derive(Drop)]
pub struct Session {
    held: Held,
    fault: Option<HeaderFault>,
}

impl Model for Session {
    ghost use Rattle.io_model.specs.Streams.{Ending, ending_of};
    ghost use Rattle.modbus_wire.specs.declared.header.HeaderFault.{HeaderFault};
    ghost use Rattle.modbus_wire.specs.Frames.{IsKept};

    ghost Value = { Ending HeaderFault };

    ghost view = { λ s. ending_of s.held.items s.fault };

    ghost invariant = { λ s. IsKept s.fault s.held.items };
}

impl Session {
    /// Of a stream of which nothing came yet.
    pub fn new() -> Session
        ensures { result ≡ Rest [] }
    {
        Session {
            held: Held::new(),
            fault: None,
        }
    }

    /// Takes the next piece of the stream, and adds each unit that is whole now. A fault of the stream is answered for
    /// good. Want of memory changes nothing: the same piece may be fed again.
    pub fn feed(&mut self, piece: &[u8], out: &mut Vec<Adu>) -> Result<(), SessionFault>
        ensures { Feeding result self.old piece.now self.new out.old.items out.new.items }
    {
        if let Some(fault) = self.fault {
            return Err(SessionFault::Header(fault));
        }
        let before = out.len();
        let mut held = held_of(self.held.as_slice());
        match take_units(&mut held, piece, out) {
            Ok(None) => {
                self.held = held;
                Ok(())
            }
            Ok(Some(fault)) => {
                self.fault = Some(fault);
                Err(SessionFault::Header(fault))
            }
            Err(_) => {
                out.truncate(before);
                Err(SessionFault::Memory)
            }
        }
    }
}

/// That a stream has its units and its ending in whatever pieces it comes, and no others.
pub fn know_any_pieces()
    ensures { IsOneStream adus }
{}
