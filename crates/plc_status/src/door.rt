//! What is told of where a console and a page are found.

ghost use Rattle.std.specs.Prelude.{codes};
ghost use Rattle.il_text.specs.Telling.{Sends};
ghost use Rattle.plc_status.specs.Notices.{door_line, numbered_line};

use crate::notice::put_line_of;
use il_text::put;
use io_model::{CountedWrite, DeviceFault};

/// Where a console or a page is found.
#[derive(Clone, Copy, PartialEq, Eq)]
pub enum Doorway {
    /// A console, at this port.
    ConsolePort(u16),
    /// A console, at a socket with a path.
    ConsoleSocket,
    /// A page, at this port.
    PagePort(u16),
}

/// What is told of a port or a socket that wasn't to be had at once.
#[derive(Clone, Copy, PartialEq, Eq)]
pub struct DoorNotice {
    pub doorway: Doorway,
    /// It's had now; else it isn't to be had, and is tried again.
    pub is_had: bool,
}

/// What is told of a port.
fn put_port<E: CountedWrite>(err: &mut E, what: &[u8], port: u16) -> Result<(), DeviceFault>
    ensures { Sends E.CountedWrite (numbered_line what.now port (codes "\n")) err.old err.new result }
{
    put_line_of(err, what, usize::from(port), b"\n")
}

/// Writes the line that tells it.
pub(crate) fn put_door<E: CountedWrite>(err: &mut E, notice: DoorNotice) -> Result<(), DeviceFault>
    ensures { Sends E.CountedWrite (door_line notice.doorway notice.is_had) err.old err.new result }
{
    match (notice.doorway, notice.is_had) {
        (Doorway::ConsolePort(port), false) => put_port(err, b"no console port ", port),
        (Doorway::ConsolePort(port), true) => put_port(err, b"console port ", port),
        (Doorway::ConsoleSocket, false) => put(err, b"no console socket\n"),
        (Doorway::ConsoleSocket, true) => put(err, b"console socket\n"),
        (Doorway::PagePort(port), false) => put_port(err, b"no page port ", port),
        (Doorway::PagePort(port), true) => put_port(err, b"page port ", port),
    }
}
