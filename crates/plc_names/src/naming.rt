//! What named commands mean to the controller of a program.

ghost use Rattle.std.specs.Prelude.{◌≡◌, None, IfOk, OnErr};
ghost use Rattle.ctl_model.specs.Slots.{slot_of};
ghost use Rattle.ctl_debugger.specs.Outcome.{outcome};
ghost use Rattle.plc_names.specs.Named.{IsNoSlot, slot_meant, meant, answers_by};

use ctl_debugger::{Controller, prepare, slot};
use il_loader::Image;
use il_model::{Answer, Command, Slot};
use plc_json::NamedCommand;
use std::alloc::{AllocError, Global};

/// What a name that is no slot's stands for: a slot that no program has, so that the controller itself refuses it.
const NO_SLOT: Slot = Slot(0xFFFF);

fn slot_meant(image: &Image, name: &str) -> Slot
    ensures meant { result ≡ slot_meant image.now name.now }
    ensures unknown { slot_of image.now name.now ≡ None → IsNoSlot result }
{
    slot(image, name.as_bytes()).unwrap_or(NO_SLOT)
}

/// What a named command is to a controller of this program.
pub fn meant(image: &Image, named: NamedCommand) -> Command
    ensures { result ≡ meant image.now named }
{
    match named {
        NamedCommand::Plain(command) => command,
        NamedCommand::Force { name, value } => {
            Command::Force(slot_meant(image, name.as_str()), value)
        }
        NamedCommand::Unforce { name } => Command::Unforce(slot_meant(image, name.as_str())),
        NamedCommand::Read { name } => Command::ReadVar(slot_meant(image, name.as_str())),
    }
}

/// Answers a command that has no name.
fn answer_plain(
    alloc: Global,
    controller: &mut Controller,
    command: &Command,
) -> Result<Answer, AllocError>
    ensures answered { IfOk result (λ a. (a, controller.new) ≡ outcome controller.old command.now) }
    ensures unchanged { OnErr result (controller.new ≡ controller.old) }
{
    if command.is_change() {
        let ready = prepare(alloc, command)?;
        Ok(controller.apply_ready(ready))
    } else {
        Ok(controller.apply(command))
    }
}

/// Answers a named command; its name is looked up in the program in force. Where memory runs out nothing was done.
pub fn answer(
    alloc: Global,
    controller: &mut Controller,
    named: &NamedCommand,
) -> Result<Answer, AllocError>
    ensures answered { IfOk result
        (λ a. (a, controller.new) ≡ outcome controller.old (meant controller.old.program named.now)) }
    ensures unchanged { OnErr result (controller.new ≡ controller.old) }
{
    match named {
        NamedCommand::Plain(command) => answer_plain(alloc, controller, command),
        NamedCommand::Force { name, value } => {
            let slot = slot_meant(controller.image(), name);
            Ok(controller.apply(&Command::Force(slot, *value)))
        }
        NamedCommand::Unforce { name } => {
            let slot = slot_meant(controller.image(), name);
            Ok(controller.apply(&Command::Unforce(slot)))
        }
        NamedCommand::Read { name } => {
            let slot = slot_meant(controller.image(), name);
            Ok(controller.apply(&Command::ReadVar(slot)))
        }
    }
}

/// The answers of a controller to commands, one after another; each name is looked up at its command's turn.
pub fn answers_of(
    alloc: Global,
    controller: &mut Controller,
    commands: &[NamedCommand],
) -> Result<Vec<Answer>, AllocError>
    ensures { IfOk result (λ v. v.items ≡ answers_by controller.old commands.now) }
{
    let mut answers = Vec::new(alloc);
    for named in commands {
        let next = answer(alloc, controller, named)?;
        answers.push(next)?;
    }
    Ok(answers)
}
