//! The answers of a text to commands, each written as it comes.

ghost use Rattle.std.specs.Prelude.{◌≡◌, ◌≤◌, ◌⊎◌, IfErr, IfOk, OnOk};
ghost use Rattle.std.specs.List.{list_any};
ghost use Rattle.il_places.specs.Located.{placed_lines};
ghost use Rattle.il_text.specs.Meaning.{IsTextFault, OrMemory};
ghost use Rattle.plc_names.specs.Named.{answers_by};
ghost use Rattle.il_text.specs.Telling.{Puts, IsWhyStopped};
ghost use Rattle.plc_tool.specs.Calls.{changes, AreToldPlaces, IsRun, IsRunCutShort};

use ctl_debugger::Controller;
use il_loader::know_reading;
use il_model::Budget;
use il_places::{Places, known_places, put_answer};
use il_text::{Fault, image};
use io_model::CountedWrite;
use plc_json::NamedCommand;
use plc_names::answer;
use std::alloc::Global;

/// Whether another program goes on by a command.
fn changes(named: &NamedCommand) -> bool
    ensures { result ≡ changes named.now }
{
    match named {
        NamedCommand::Plain(command) => command.is_change(),
        NamedCommand::Force { .. } | NamedCommand::Unforce { .. } | NamedCommand::Read { .. } => {
            false
        }
    }
}

/// Whether another program goes on by one of the commands.
fn any_changes(commands: &[NamedCommand]) -> bool
    ensures { result ≡ list_any changes commands.now }
{
    commands.iter().any(|named| changes(named))
}

/// The places that are told beside the answers of a text's program to these commands.
fn told_places<'t>(
    alloc: Global,
    text: &'t [u8],
    commands: &[NamedCommand],
) -> Result<Places<'t>, Fault>
    ensures found { IfOk result (AreToldPlaces text.entry.now commands.now) }
    ensures memory { IfErr result (λ e. e ≡ Fault.Memory) }
{
    match known_places(alloc, text, any_changes(commands)) {
        Some(places) => Ok(places),
        None => Err(Fault::Memory),
    }
}

/// Applies commands to a controller, one after another; each name is looked up at its command's turn, and the line of
/// each answer, with the place of its position where that is known, is written before the next command.
fn put_answers<W: CountedWrite>(
    alloc: Global,
    controller: &mut Controller,
    commands: &[NamedCommand],
    places: &Places,
    out: &mut W,
) -> Result<(), Fault>
    ensures { Puts W.CountedWrite (placed_lines places.now (answers_by controller.old commands.now))
        out.old out.new result }
{
    for named in commands {
        let answer = answer(alloc, controller, named)?;
        put_answer(alloc, &answer, places, out)?;
    }
    Ok(())
}

/// Writes the answers of a text to commands, a line each, each scan within the budget. Of a text that is refused it
/// tells the first fault and writes nothing. Where the writer fails or memory runs out, a prefix of the lines went
/// out.
pub fn put_run<W: CountedWrite>(
    alloc: Global,
    text: &[u8],
    budget: Budget,
    commands: &[NamedCommand],
    out: &mut W,
) -> Result<(), Fault>
    ensures ok { OnOk result (IsRun text.now budget.instructions commands.now (W.held out.old) (W.held out.new)) }
    ensures err { IfErr result (λ e. (IsWhyStopped e (W.faults out.old) (W.faults out.new)
        × IsRunCutShort W.CountedWrite text.now budget.instructions commands.now out.old out.new)
        ⊎ (OrMemory (IsTextFault text.now) e × (out.new ≡ out.old))) }
    ensures counts { W.faults out.old ≤ W.faults out.new }
{
    let image = image(alloc, text)?;
    image.know_lawful();
    know_reading();
    let places = told_places(alloc, text, commands)?;
    let mut controller = Controller::new(alloc, image, budget)?;
    put_answers(alloc, &mut controller, commands, &places, out)
}
