//! The law that a call is a call: what a text of units means by its expansion is what it means by its calls. There is
//! no code here: each function's clause states a law, and its empty body is proved to meet it.
//!
//! A law is used by naming it in a function whose clause rests on it; nothing in the repository does, since nothing
//! builds on these:
//!
//! ```rust
//! laws_calls::a_call_is_a_call::<State>();
//! ```
//!
//! `specs/Calls` says what calls do, with no expansion: a call of a block stores the inputs that are given, runs the
//! body of the block from its first line to its end or a return, and fetches the outputs that are asked for; a function
//! begins with its first values, and its result is the current result. A variable x of the instance i is i.x, so each
//! instance has a record of its own (`laws_units`: no two share a name); a VAR_IN_OUT is what the call gives.
//! `specs/Lines` says what the lines of an expansion do, one after the other, with its labels and jumps.
//!
//! Proved: the two come to the same ends from the same states, whatever the machine does at the other operators
//! (`specs/Machines`); and where a program's instructions are the lines of an expansion (`specs/Controller`), the
//! controller's scan comes to what the calls come to. `proofs/WorkedCalls` has two programs worked out: a motor's block
//! that is called for two instances, and a meter's with a function, a VAR_IN_OUT and a return. That the program of a
//! text of units has the lines of its expansion for instructions is `laws_meaning`'s.
//!
//! Tests (nothing rests on them alone): `units.rows` of `tests_rows` runs such programs, and `tools/try/units` holds
//! four more against an evaluator that calls.
#![tactic(auto)]

ghost use Rattle.laws_calls.specs.Laws.{ACallIsACall, AFaultlessUnitIsPlain};
ghost use Rattle.laws_calls.specs.Controller.{RunsAsItsLines, ScansAsItsCalls};

/// What the laws ask of a unit holds where `il_units` finds no fault in it beside those above it, none of its labels is
/// the word RET or CAL, and it has fewer lines than 2^64.
pub fn a_faultless_unit_is_plain()
    ensures { AFaultlessUnitIsPlain }
{}

/// A call is a call: the program of a text of units, run by its calls, and its expansion, run line by line, come to
/// the same ends: done with the same values, or stopped for the same reason with the same values, and the one comes to
/// an end exactly if the other does. It holds of every machine, whatever its states are. The labels of the units have
/// no dot and are none of the words RET and CAL, and each unit has fewer lines than 2^64.
pub fn a_call_is_a_call<S>()
    ensures { ACallIsACall S }
{}

/// A typed program whose instructions are some lines, each read as an instruction in some way that may look at the type
/// of the current result, runs as they do: where the lines come to an end within the budget, the controller's scan
/// comes to that end; and where the scan comes to an end that isn't its budget's, the lines come to it.
pub fn a_scan_runs_as_its_lines()
    ensures { RunsAsItsLines }
{}

/// A typed program whose instructions are the lines of an expansion does as the calls of the text: where these come to
/// an end, the controller's scan comes to that end, unless its budget is used up before; and where the scan comes to an
/// end that isn't its budget's, the calls come to it.
pub fn a_scan_does_as_its_calls()
    ensures { ScansAsItsCalls }
{}
