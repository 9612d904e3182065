//! The answers of a text to commands.

ghost use Rattle.std.specs.Prelude.{IfOk, IfErr};
ghost use Rattle.il_text.specs.Meaning.{IsTextFault, OrMemory};
ghost use Rattle.plc_tool.specs.Calls.{IsAnswered};

use ctl_debugger::Controller;
use il_loader::know_reading;
use il_model::{Answer, Budget};
use il_text::{Fault, image};
use plc_json::NamedCommand;
use plc_names::answers_of;
use std::alloc::Global;

/// The answers of a text to commands, each scan within the budget; or the first fault.
pub fn answers(
    alloc: Global,
    text: &[u8],
    budget: Budget,
    commands: &[NamedCommand],
) -> Result<Vec<Answer>, Fault>
    // What is answered is what the definitions give for the text's program.
    ensures found { IfOk result (λ v. IsAnswered text.now budget.instructions commands.now v.items) }
    // What is told is the text's first fault, or that memory ran out.
    ensures refused { IfErr result (OrMemory (IsTextFault text.now)) }
{
    let image = image(alloc, text)?;
    image.know_lawful();
    know_reading();
    let mut controller = Controller::new(alloc, image, budget)?;
    Ok(answers_of(alloc, &mut controller, commands)?)
}
