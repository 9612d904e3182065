//! The laws of what an operator sees. There is no code here: the function's clauses state the laws, and its empty body is
//! proved to meet them.
//!
//! A law is used by naming it in a function whose clause rests on it; nothing in the repository does, since nothing
//! builds on this one:
//!
//! ```rust
//! laws_values::what_is_seen_was_released();
//! ```
//!
//! Proved: the outputs that an operator sees of a controller are %Q with the forces over it, as a scan lays them over
//! at its end, and all 0 of one that is stopped; so behind a scan that ended or stopped they are those that it released
//! (`specs/Released`). It joins plc_values, which takes forces from a snapshot one by one, with the definition of scans.
//!
//! Behind a force, and while a scan is held, they are those that would be released now.
#![tactic(auto)]

ghost use Rattle.il_model.specs.declared.command.Command.{Command};
ghost use Rattle.ctl_debugger.specs.Owned.{Owned};
ghost use Rattle.laws_values.specs.Released.{SeesForces, SeesWhatWasReleased};

/// What is seen of the outputs of a controller has the forces over it, and behind a command that was answered with
/// outputs it's these.
pub fn what_is_seen_was_released()
    ensures forces { (o : Owned) → SeesForces o }
    ensures released { (o : Owned) (command : Command) → SeesWhatWasReleased o command }
{}
