//! The controller in a program of one's own: a motor starter, scanned five times. A table stands for its field inputs,
//! and a printed line for its contactor. It uses the crates from the reader to the debugger, and no crate uses it.
#![tactic(auto)]

use ctl_debugger::Controller;
use il_model::{Budget, Command, InImage};
use std::alloc::Global;
use std::process::ExitCode;

const STARTER: &[u8] = b"VAR
  START   AT %IX0.0 : BOOL;  (* start button *)
  STOP_OK AT %IX0.1 : BOOL;  (* stop button, TRUE while not pressed *)
  RUN     AT %QX0.0 : BOOL;  (* contactor of the motor *)
END_VAR
LD  START
OR  RUN
AND STOP_OK
ST  RUN
";

/// The moments of the scans in ms, with START and STOP_OK.
const FIELD: [(u64, bool, bool); 5] = [
    (0, false, true),
    (100, true, true),
    (200, false, true),
    (300, false, false),
    (400, false, true),
];

/// The controller of a text, cold; none where the text is refused or memory runs out.
fn controller(alloc: Global, text: &[u8]) -> Option<Controller> {
    let source = il_reader::read(alloc, text).ok()?;
    let program = il_declarations::resolve(alloc, source).ok()?;
    let bytes = il_assembler::assemble(alloc, &program).ok()?;
    let image = il_loader::load(alloc, bytes.as_slice()).ok()?;
    Controller::new(alloc, image, Budget::new(10_000)?).ok()
}

fn inputs_of(start: bool, stop_ok: bool) -> InImage {
    let mut inputs = InImage::clear();
    inputs.cells.bits[0] = start;
    inputs.cells.bits[1] = stop_ok;
    inputs
}

fn main(rt: HostRuntime) -> ExitCode {
    let Some(mut controller) = controller(rt.alloc(), STARTER) else {
        return ExitCode::from(1);
    };
    for (moment, start, stop_ok) in FIELD {
        let inputs = inputs_of(start, stop_ok);
        let answer = controller.apply(&Command::Scan { inputs, moment });
        // A stopped scan releases the safe image; a held one releases nothing, and the last outputs stay.
        if let Some(outputs) = answer.image() {
            let run = outputs.cells.bits[0];
            let _ = println!(rt; "{moment} ms: RUN {run}");
        }
    }
    ExitCode::SUCCESS
}
