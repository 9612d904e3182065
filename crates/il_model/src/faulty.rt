//! Where in an instruction its first fault stands.

ghost use Rattle.std.specs.Prelude.{◌≡◌, ◌<◌, ◌^◌, []};
ghost use Rattle.il_model.specs.Faulty.{faulty_argument, faulty_in, faulty_word};

use crate::arguments::argument_fault;
use crate::check::{Types, label_row, source_row};
use crate::indexed::IndexedProgram;
use crate::{Argument, BlockKind, Instr};

/// How many arguments there are before the first that has a fault.
fn faulty_argument(
    program: &IndexedProgram,
    kind: Option<BlockKind>,
    arguments: &[Argument],
) -> usize
    ensures place { result ≡ faulty_argument program.now kind [] arguments.now }
    ensures small { result < 2 ^ 63 }
{
    for i in 0..arguments.len() {
        if argument_fault(program, false, kind, &arguments[..i], &arguments[i]).is_some() {
            return i;
        }
    }
    arguments.len()
}

/// The number of an instruction's first faulty word, where it is arrived at with these types.
fn faulty_in(program: &IndexedProgram, n: usize, types: &Types, line: &Instr) -> usize
    ensures { result ≡ faulty_in program.now n types.now line.now }
{
    let depth = types.depth();
    let label = label_row(program, n, depth, &line.label);
    let row = source_row(
        program.program(),
        types.cr(),
        types.top(),
        depth,
        line,
        program.source_of(&line.operand),
    );
    if label.is_ok() && row.is_ok() {
        let kind = program.called_kind(&line.operand);
        1 + faulty_argument(program, kind, line.arguments.as_slice())
    } else {
        0
    }
}

/// The number of the word in which the first fault of a program stands, among those of the instruction that has it: 0
/// for the instruction's own, then those of its arguments. Behind the last instruction it is 0.
pub fn faulty_word(program: &IndexedProgram, n: usize) -> usize
    ensures { result ≡ faulty_word program.now n }
{
    let mut types = Types::start(program.program());
    let code = program.code();
    for k in 0..code.len() {
        if k == n {
            return faulty_in(program, n, &types, &code[k]);
        }
        if types.pass(program, k, &code[k]).is_err() {
            return 0;
        }
    }
    0
}
