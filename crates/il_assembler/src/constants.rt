//! The constants of a program.

ghost use Rattle.std.specs.Prelude.{◌≡◌, IfOk, [], length};
ghost use Rattle.il_model.specs.Constants.{same_value, joined_constants};
ghost use Rattle.il_assembler.specs.Walk.{constants_in, literals_in, all_literals};

use il_model::{Constants, Instr, Value, argument_literal};
use std::alloc::{AllocError, Global};

/// The constants with a literal behind them, where there is one and it is new.
fn joined(found: Constants, literal: Option<Value>) -> Result<Constants, AllocError>
    ensures { IfOk result (λ c. c ≡ joined_constants same_value found literal) }
{
    let Some(v) = literal else {
        return Ok(found);
    };
    if found.place(v).is_some() {
        return Ok(found);
    }
    found.with(v)
}

/// The constants with the literals of an instruction behind them: its operand's, then its arguments'.
fn with_line(
    found: Constants,
    line: &Instr,
    literal: Option<Value>,
) -> Result<Constants, AllocError>
    ensures { IfOk result (λ c. c ≡ constants_in found (literals_in line.now literal)) }
{
    let mut found = joined(found, literal)?;
    for argument in line.arguments.as_slice() {
        found = joined(found, argument_literal(argument))?;
    }
    Ok(found)
}

/// The constants of a program, in the order of their first use; the literals are those of the instructions' own
/// operands.
pub fn constants_of(
    alloc: Global,
    code: &[Instr],
    literals: &[Option<Value>],
) -> Result<Constants, AllocError>
    requires { length literals.now ≡ length code.now }
    ensures { IfOk result (λ c. c ≡ constants_in [] (all_literals code.now literals.now)) }
{
    let mut found = Constants::new(alloc);
    for n in 0..code.len() {
        found = with_line(found, &code[n], literals[n])?;
    }
    Ok(found)
}
