//! Commands of the controller, and their answers.

use crate::cells::{InImage, OutImage};
use crate::image_bytes::ImageBytes;
use crate::slot::Slot;
use il_values::{Stop, Value};
use std::alloc::{AllocError, Global};

/// A command. A position counts instructions from 0.
#[derive(Debug, PartialEq, Eq, Drop)]
pub enum Command {
    /// Runs the program once on these inputs.
    Scan {
        inputs: InImage,
        /// In milliseconds.
        moment: u64,
    },
    /// Holds each later scan before the instruction at this position.
    SetBreak(u16),
    ClearBreak(u16),
    /// Performs one instruction of the held scan.
    Step,
    /// Goes on with the held scan.
    Continue,
    /// Lays a value over a bit or a word of `%I` or `%Q`, until it's unforced.
    Force(Slot, Value),
    Unforce(Slot),
    ReadVar(Slot),
    /// Reads the current result of the held or stopped scan.
    ReadCr,
    /// Starts cold again; forces, breakpoints, the moment and the count of scans stay.
    Reset,
    /// Starts warm (IEC 61131-3:2003, 2.4.2): as `Reset`, but retained variables keep their values, and retained
    /// instances their inputs and states.
    Warm,
    /// Goes on with another program: the one whose image these bytes are, if they are one.
    Change(ImageBytes),
}

/// Why a command is refused.
#[derive(Clone, Copy, Debug, PartialEq, Eq)]
pub enum Refusal {
    /// No scan is held (for `ReadCr`: held or stopped).
    NotHeld,
    /// The position is past the last instruction.
    BadPosition,
    /// There is no such slot, or it cannot be forced.
    BadSlot,
    /// The value is not of the slot's type.
    BadType,
    /// There is no current result.
    NoResult,
    /// The bytes are no image.
    BadImage,
    /// A scan is held or stopped.
    NotIdle,
}

/// The answer to a command.
#[derive(Clone, Copy, Debug, PartialEq, Eq)]
pub enum Answer {
    /// The scan is done: the count of scans, and what it releases.
    Outputs {
        count: u64,
        image: OutImage,
    },
    /// The scan is held before the instruction at this position.
    Held(u16),
    /// The scan stopped at the instruction at this position, and releases the safe image.
    Stopped {
        stop: Stop,
        position: u16,
        image: OutImage,
    },
    Value(Value),
    Done,
    Refused(Refusal),
}

impl Command {
    ghost use Rattle.std.specs.Prelude.{◌≡◌, IfOk};
    ghost use Rattle.il_model.specs.Answers.{is_change};

    /// Whether it changes the program.
    pub fn is_change(&self) -> bool
        ensures { result ≡ is_change self.now }
    {
        match self {
            Command::Change(_) => true,
            _ => false,
        }
    }

    /// An equal one; it fails only where memory runs out.
    pub fn copy(&self, alloc: Global) -> Result<Command, AllocError>
        ensures { IfOk result (λ c. c ≡ self.now) }
    {
        Ok(match self {
            Command::Scan { inputs, moment } => Command::Scan {
                inputs: *inputs,
                moment: *moment,
            },
            Command::SetBreak(position) => Command::SetBreak(*position),
            Command::ClearBreak(position) => Command::ClearBreak(*position),
            Command::Step => Command::Step,
            Command::Continue => Command::Continue,
            Command::Force(slot, v) => Command::Force(*slot, *v),
            Command::Unforce(slot) => Command::Unforce(*slot),
            Command::ReadVar(slot) => Command::ReadVar(*slot),
            Command::ReadCr => Command::ReadCr,
            Command::Reset => Command::Reset,
            Command::Warm => Command::Warm,
            Command::Change(bytes) => Command::Change(bytes.copy(alloc)?),
        })
    }
}

impl Refusal {
    ghost use Rattle.std.specs.Prelude.{◌≡◌};
    ghost use Rattle.il_model.specs.Answers.{refusal_number};

    /// The number by which frames and printed lines name it, from 1.
    pub fn number(self) -> u8
        ensures { result ≡ refusal_number self }
    {
        match self {
            Refusal::NotHeld => 1,
            Refusal::BadPosition => 2,
            Refusal::BadSlot => 3,
            Refusal::BadType => 4,
            Refusal::NoResult => 5,
            Refusal::BadImage => 6,
            Refusal::NotIdle => 7,
        }
    }
}

impl Answer {
    ghost use Rattle.std.specs.Prelude.{◌≡◌};
    ghost use Rattle.il_model.specs.Answers.{released_image};

    /// The image that the answer releases: a scan's that was done, or the safe one of a scan that stopped.
    pub fn image(&self) -> Option<OutImage>
        ensures { result ≡ released_image self.now }
    {
        match *self {
            Answer::Outputs { image, .. } | Answer::Stopped { image, .. } => Some(image),
            Answer::Held(_) | Answer::Value(_) | Answer::Done | Answer::Refused(_) => None,
        }
    }
}
