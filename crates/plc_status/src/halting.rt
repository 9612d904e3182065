//! By what a scan was held or stopped, and how that is noted.

ghost use Rattle.std.specs.Prelude.{◌≡◌, List};
ghost use Rattle.il_model.specs.declared.command.Command.{Command as Asked};
ghost use Rattle.vr_model.specs.Logs.{Request as Entry};
ghost use Rattle.vr_model.specs.StandsFor.{body_with};
ghost use Rattle.plc_status.specs.Scans.{IsHaltNoted, halt_by, halted};

use crate::journal::Journal;
use crate::notice::Notice;
use crate::scans::Halt;
use il_model::Answer;
use vr_model::{Body, Message};

/// By what the scan was held or stopped whose answer the message brings, if it was.
pub fn halt_in(message: &Message) -> Option<Halt>
    ensures { (log : List (Entry Asked)) → result ≡ halt_by (body_with log message.now.body) }
{
    match message.body {
        Body::Reply {
            answer: Answer::Held(position),
            ..
        } => Some(Halt::Held(position)),
        Body::Reply {
            answer: Answer::Stopped { stop, position, .. },
            ..
        } => Some(Halt::Stopped(stop, position)),
        _ => None,
    }
}

/// What is noted of a scan that was held or stopped by this, or goes on.
fn halted(halt: Option<Halt>) -> Notice
    ensures { result ≡ halted halt }
{
    match halt {
        Some(halt) => halt.notice(),
        None => Notice::GoesOn,
    }
}

/// Notes by what a scan was held or stopped, unless the one before it was so; or that it wasn't, where that one was.
pub fn note_halt(before: Option<Halt>, halt: Option<Halt>, journal: &mut Journal)
    ensures { IsHaltNoted before halt journal.old journal.new }
{
    if before != halt {
        journal.put(halted(halt));
    }
}
