//! What an operator did at the console.

ghost use Rattle.std.specs.Prelude.{◌≡◌, codes};
ghost use Rattle.il_text.specs.Telling.{Sends};
ghost use Rattle.plc_status.specs.Notices.{deed_line, deed_of, numbered_line};

use crate::notice::put_line_of;
use il_model::{Command, Slot};
use il_text::put;
use io_model::{CountedWrite, DeviceFault};

/// A command that changes something, without its values.
#[derive(Clone, Copy, PartialEq, Eq)]
pub enum Deed {
    /// Scans are held there from now on.
    Break(u16),
    /// They aren't any more.
    Clear(u16),
    /// One instruction of a held scan was performed.
    Step,
    /// A held scan went on.
    Continue,
    /// A value lies over this location.
    Force(Slot),
    /// None does any more.
    Unforce(Slot),
    /// The controller starts cold again.
    Reset,
    /// It starts warm.
    Warm,
    /// It goes on with another program.
    Change,
}

impl Deed {
    /// What a command does, unless it's a scan or only reads.
    pub fn of(command: &Command) -> Option<Deed>
        ensures { result ≡ deed_of command.now }
    {
        match command {
            Command::SetBreak(position) => Some(Deed::Break(*position)),
            Command::ClearBreak(position) => Some(Deed::Clear(*position)),
            Command::Step => Some(Deed::Step),
            Command::Continue => Some(Deed::Continue),
            Command::Force(slot, _) => Some(Deed::Force(*slot)),
            Command::Unforce(slot) => Some(Deed::Unforce(*slot)),
            Command::Reset => Some(Deed::Reset),
            Command::Warm => Some(Deed::Warm),
            Command::Change(_) => Some(Deed::Change),
            Command::Scan { .. } | Command::ReadVar(_) | Command::ReadCr => None,
        }
    }
}

/// What is told of a command with a number.
fn put_numbered_deed<E: CountedWrite>(
    err: &mut E,
    word: &[u8],
    number: u16,
) -> Result<(), DeviceFault>
    ensures { Sends E.CountedWrite (numbered_line word.now number (codes "\n")) err.old err.new result }
{
    put_line_of(err, word, usize::from(number), b"\n")
}

/// Writes the line that tells of a command: its word, and the position or the number of the slot, if it has one.
pub(crate) fn put_deed<E: CountedWrite>(err: &mut E, deed: Deed) -> Result<(), DeviceFault>
    ensures { Sends E.CountedWrite (deed_line deed) err.old err.new result }
{
    match deed {
        Deed::Break(position) => put_numbered_deed(err, b"console break ", position),
        Deed::Clear(position) => put_numbered_deed(err, b"console clear ", position),
        Deed::Step => put(err, b"console step\n"),
        Deed::Continue => put(err, b"console continue\n"),
        Deed::Force(slot) => put_numbered_deed(err, b"console force ", slot.0),
        Deed::Unforce(slot) => put_numbered_deed(err, b"console unforce ", slot.0),
        Deed::Reset => put(err, b"console reset\n"),
        Deed::Warm => put(err, b"console warm\n"),
        Deed::Change => put(err, b"console change\n"),
    }
}
