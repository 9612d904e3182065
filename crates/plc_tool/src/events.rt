//! The events of a schedule: names give way to their slots.

ghost use Rattle.std.specs.Prelude.{◌≡◌, IfOk, IfErr};
ghost use Rattle.plc_tool.specs.Simulated.{command_known, event_known, AreKnown, IsWhyUnknown};

use ctl_debugger::slot;
use il_loader::Image;
use il_model::Command;
use il_text::Fault;
use plc_json::{NamedCommand, NamedEvent};
use std::alloc::{AllocError, Global};
use vr_schedules::{Kept, WorldEvent};

/// The command that a named one is, or `None` where its name is no slot's.
fn command_known(
    alloc: Global,
    image: &Image,
    named: &NamedCommand,
) -> Result<Option<Command>, AllocError>
    ensures { IfOk result (λ c. c ≡ command_known image.now named.now) }
{
    match named {
        NamedCommand::Plain(command) => Ok(Some(command.copy(alloc)?)),
        NamedCommand::Force { name, value } => {
            Ok(slot(image, name.as_bytes()).map(|slot| Command::Force(slot, *value)))
        }
        NamedCommand::Unforce { name } => {
            Ok(slot(image, name.as_bytes()).map(|slot| Command::Unforce(slot)))
        }
        NamedCommand::Read { name } => {
            Ok(slot(image, name.as_bytes()).map(|slot| Command::ReadVar(slot)))
        }
    }
}

/// The event that a named one is, or `None` where a name in it is no slot's.
fn event_known(
    alloc: Global,
    image: &Image,
    named: &NamedEvent,
) -> Result<Option<WorldEvent>, AllocError>
    ensures { IfOk result (λ e. e ≡ event_known image.now named.now) }
{
    Ok(Some(match named {
        NamedEvent::Submit { client, command } => {
            let Some(command) = command_known(alloc, image, command)? else {
                return Ok(None);
            };
            WorldEvent::Submit {
                client: *client,
                command,
            }
        }
        NamedEvent::Retry { client } => WorldEvent::Retry { client: *client },
        NamedEvent::ClientRestart { client } => WorldEvent::ClientRestart { client: *client },
        NamedEvent::Deliver { message } => WorldEvent::Deliver { message: *message },
        NamedEvent::Timeout { replica } => WorldEvent::Timeout { replica: *replica },
        NamedEvent::Resend { replica } => WorldEvent::Resend { replica: *replica },
        NamedEvent::Crash { replica } => WorldEvent::Crash { replica: *replica },
        NamedEvent::Restart { replica, nonce } => WorldEvent::Restart {
            replica: *replica,
            nonce: *nonce,
        },
        NamedEvent::StoreFail { replica, keeps_new } => WorldEvent::StoreFail {
            replica: *replica,
            kept: if *keeps_new { Kept::New } else { Kept::Old },
        },
    }))
}

/// The events that named ones are, the names in them looked up in the program.
pub fn all_known(
    alloc: Global,
    image: &Image,
    named: &[NamedEvent],
) -> Result<Vec<WorldEvent>, Fault>
    ensures known { IfOk result (λ events. AreKnown image.now named.now events.items) }
    ensures unknown { IfErr result (IsWhyUnknown image.now named.now) }
{
    let mut events = Vec::new(alloc);
    for asked in named {
        let Some(event) = event_known(alloc, image, asked)? else {
            return Err(Fault::Schedule);
        };
        events.push(event)?;
    }
    Ok(events)
}
