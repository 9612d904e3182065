//! The law that a text of units means its calls. There is no code here: each function's clause states a law, and its
//! empty body is proved to meet it.
//!
//! A law is used by naming it in a function whose clause rests on it; nothing in the repository does, since nothing
//! builds on these:
//!
//! ```rust
//! laws_meaning::a_text_of_units_means_its_calls();
//! ```
//!
//! Proved (`specs/Laws`): where a text of units has a typed program (`il_text`), the controller's scan of that program
//! comes to what the calls of the text come to, by the definition of calls that expands nothing (`laws_calls`). What
//! the controller does at the words of an operation is what it does at the instruction that these words are, their
//! names as they are declared and their bare numbers of the type that their place asks for (`specs/Instructions`). So
//! nobody has to believe the lines of an expansion. It joins crates that don't know of one another: the text is read as
//! these lines (`laws_reading`), they are the program's instructions, one by one, no label of a unit is the word RET or
//! CAL, and the lines do what the calls do (`laws_calls`).
//!
//! What an expansion declares is in no law here: i.x for each variable x of an instance i, the variables of functions,
//! their types, first values and whether they are retained are as `il_units` defines them (`specs/Flats`). And of a run
//! that comes to no end only this is said, that neither does.
//!
//! Tests (nothing rests on them alone): `units.rows` of `tests_rows` runs such programs, and `tools/try/units` holds
//! four more against an evaluator that calls.
#![tactic(auto)]

ghost use Rattle.laws_meaning.specs.Laws.{SaysItsInstructions, MeansItsCalls};

/// Of each unit of a text, where its expansion is read as a text that declares a program with a typed program: the
/// instructions of the typed program are the lines of the expansion, one by one.
pub fn a_program_says_its_lines()
    ensures { SaysItsInstructions }
{}

/// A text of units that has a typed program means its calls: from each state that a scan begins with, where the calls
/// of the text come to an end, the controller's scan comes to that end, unless its budget is used up before; and where
/// the scan comes to an end that isn't its budget's, the calls come to it.
pub fn a_text_of_units_means_its_calls()
    ensures { MeansItsCalls }
{}
