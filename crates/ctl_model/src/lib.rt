//! What a program does: the state of a run, one instruction, one scan, one command of a controller after another, what
//! a change of the program carries over, and what slots and names of slots stand for. Definitions with the plain types
//! that they speak of, and seven laws: a typed program is never stuck, a run comes to exactly one end, by which each
//! command that runs a scan is answered, breakpoints change nothing but where a scan is held, a change carries over by
//! names, a warm start keeps what is retained, and a snapshot tells its instances. It uses il_model, where programs and
//! their types are defined, and ctl_blocks, where the blocks' equations are.
//!
//! A law is used by naming it in a function whose clause rests on it. Of code there is what an opening parenthesis keeps:
//!
//! ```rust
//! ctl_model::ends_the_same();
//! let (kept, first) = opened(Op::And, true, cr, Some(operand)); // ANDN( with an operand: N stays with the operator
//! ```
//!
//! Proved: the seven laws, for every program, state, budget and list of commands. Worked sessions are computed from the
//! table of commands as proofs in `ctl_debugger` (`proofs/WorkedRows`), so that the definitions themselves were seen to
//! give what was wanted.
//!
//! An N that negates the first operand of a parenthesis alone is refused here (`negates_first_operand_only`). No test is
//! needed.
#![tactic(auto)]

ghost use Rattle.std.specs.Prelude.{◌≡◌, ℕ, Bool, List};
ghost use Rattle.il_model.specs.declared.cells.InImage.{InImage};
ghost use Rattle.il_model.specs.declared.command.Command.{Command};
ghost use Rattle.il_model.specs.Program.{Program};
ghost use Rattle.il_model.specs.Typing.{IsTyped};
ghost use Rattle.ctl_model.specs.Commands.{Control, command_outcome};
ghost use Rattle.ctl_model.specs.Runs.{Onward, EndsTheSame, Runs, RunsOver, IsOnlyEnd, AnswersRun, HasWholeInputs};
ghost use Rattle.ctl_model.specs.Scan.{run_from, run_from_break};
ghost use Rattle.ctl_model.specs.State.{State, BlockInstance, cold};
ghost use Rattle.ctl_model.specs.Step.{step};
ghost use Rattle.il_model.specs.Fits.{IsProgram};
ghost use Rattle.ctl_model.specs.Suits.{HasValues, Suits, IsSafe};
ghost use Rattle.ctl_model.specs.Changes.{carried_state, CarriesOver};
ghost use Rattle.ctl_model.specs.Warm.{warm, StartsWarm, RetainsNothing};
ghost use Rattle.ctl_model.specs.Snapshots.{AreKnown};

use ctl_blocks::words_tell_a_block;

mod forces;
mod opening;
mod phase;

pub use forces::{Forces, Mask};
pub use opening::opened;
pub use phase::{Phase, ScanOut};

/// A typed program is never stuck: in a state that suits it each step finds the values, the current result, the
/// deferred operator, the instance and the fields that it needs, and leaves a state that suits it.
pub fn a_typed_program_is_never_stuck()
    ensures { (Q : Program) (now : ℕ) (s : State) → IsTyped Q → Suits Q s → IsSafe Q (step Q now s) }
{}

/// A run of a typed program comes to exactly one end (`Runs`): that which is found by counting its budget down. The
/// same over the instruction that a scan is held at.
pub fn a_run_has_one_end()
    ensures runs { (Q : Program) (now : ℕ) (breaks : List Bool) (budget performed : ℕ) (s : State) → IsTyped Q → Suits Q s
        → IsOnlyEnd (Runs Q now breaks budget performed s) (run_from Q now breaks budget performed s) }
    ensures over { (Q : Program) (now : ℕ) (breaks : List Bool) (budget performed : ℕ) (s : State) → IsTyped Q → Suits Q s
        → IsOnlyEnd (RunsOver Q now breaks budget performed s) (run_from_break Q now breaks budget performed s) }
{}

/// A command that runs a scan on is answered, in the table of commands, by the one end of that run.
pub fn commands_answer_their_runs()
    ensures { (Q : Program) (budget : ℕ) (s : Control) (c : Command) → IsTyped Q → Suits Q s.cycle.state → HasWholeInputs c
        → AnswersRun Q budget s c (command_outcome Q budget s c) }
{}

/// Breakpoints change nothing but where a scan is held: one with any breakpoints, carried on by Step and Continue alone
/// until it ends, has the answer, and leaves the state, that it has and leaves without breakpoints, the breakpoints
/// aside.
pub fn ends_the_same()
    ensures { (Q : Program) (budget : ℕ) (s : Control) (inputs : InImage) (moment : ℕ) (gs : List Onward)
        → EndsTheSame Q budget s inputs moment gs }
{}

/// A change of the program carries over by names: a variable without a location before and after, of equal name and
/// type, keeps its value; an instance of equal name and kind its inputs and its state; all others are as when cold, and
/// the areas stay. What it leaves suits the new program.
pub fn a_change_carries_over()
    ensures carries { (Q : Program) (s : State) (R : Program) → IsProgram Q → HasValues Q s
        → CarriesOver Q s R (carried_state Q s R) }
    ensures suits { (Q : Program) (s : State) (R : Program) → IsProgram R → HasValues Q s → Suits R (carried_state Q s R) }
{}

/// A warm start: a retained variable keeps its value, its own or the one at its location, a retained instance its
/// inputs and its state; all others are as when cold, and so are the cells where no variable lies. What it leaves suits
/// the program. Where nothing is retained it is a cold start.
pub fn a_warm_start_keeps_what_is_retained()
    ensures keeps { (Q : Program) (s : State) → IsProgram Q → HasValues Q s → StartsWarm Q s (warm Q s) }
    ensures suits { (Q : Program) (s : State) → IsProgram Q → HasValues Q s → Suits Q (warm Q s) }
    ensures nothing { (Q : Program) (s : State) → RetainsNothing Q → HasValues Q s → warm Q s ≡ cold Q }
{}

/// Instances are known by what a snapshot has of them.
pub fn snapshots_tell_instances()
    ensures { (xs ys : List BlockInstance) → AreKnown xs ys }
{
    words_tell_a_block();
}
