//! The first fault of typing, at the word where it stands.

ghost use Rattle.std.specs.Prelude.{◌≡◌, ◌<◌, ◌^◌, IfOk};
ghost use Rattle.il_model.specs.Marks.{word_count, words_in, address_of};
ghost use Rattle.il_model.specs.Checking.{judgement_of};
ghost use Rattle.il_loader.specs.Judging.{at_word};

use il_model::{IndexedProgram, Instr, Program, TypeFault, check_types, faulty_word};
use std::alloc::{AllocError, Global};

/// How many words an instruction has: its own, and one for each argument.
fn word_count(line: &Instr) -> usize
    ensures { result ≡ word_count line.now }
{
    1 + line.arguments.as_slice().len()
}

/// How many words there are before an instruction.
fn address_of(code: &[Instr], n: usize) -> usize
    requires { words_in code.now < 2 ^ 63 }
    ensures { result ≡ address_of code.now n }
{
    let mut address = 0;
    let mut left = n;
    let mut rest = code;
    while let [line, others @ ..] = rest {
        if left == 0 {
            return address;
        }
        address += word_count(line);
        left -= 1;
        rest = others;
    }
    address
}

/// A fault of typing, told by the number of the word where it stands in place of the instruction's.
fn at_word(
    program: &IndexedProgram,
    typed: Result<(), (TypeFault, usize)>,
) -> Result<(), (TypeFault, usize)>
    requires { words_in program.now.code < 2 ^ 63 }
    ensures { result ≡ at_word program.now typed }
{
    match typed {
        Ok(()) => Ok(()),
        Err((fault, n)) => Err((
            fault,
            address_of(program.code(), n) + faulty_word(program, n),
        )),
    }
}

/// Whether a program is typed, or its first fault with the number of the word where that stands.
pub fn typed(alloc: Global, program: &Program) -> Result<Result<(), (TypeFault, usize)>, AllocError>
    requires { words_in program.now.code < 2 ^ 63 }
    ensures { IfOk result (λ r. r ≡ at_word program.now (judgement_of program.now)) }
{
    let indexed = IndexedProgram::new(alloc, program)?;
    Ok(at_word(&indexed, check_types(&indexed)))
}
