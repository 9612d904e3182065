//! What clients of a running group are answered, and readers of its outputs shown: one history, in the words in which
//! `plc sim` has it. There is no code here, as in `laws_threads`: each function's clause states a law, and its empty
//! body is proved to meet it.
//!
//! ```rust
//! laws_answers::served_machines_see_one_history::<R>(); // for whoever's clause rests on it
//! ```
//!
//! `laws_threads` leads from what threads, processes and clients did by themselves to one run of the group. Here it's
//! said of the clients alone: what they did is a schedule of vr_world, with an event for each of their steps, and there
//! are lists of a trace of it, with all answers that they heard as its releases, such that `IsOneHistory` holds of each
//! trace that has them (a `Vec` has fewer than 2^63 items: of longer lists there is none). No rule, no message and no
//! replica is in that sentence; the answers are those of one controller of the program, as the table of commands has
//! them.
//!
//! Proved:
//!
//! - Of moves that are one run (`one_run_is_seen_as_one_history`); of what threads or machines and clients did, as it
//!   was, over starts that failed, kills and starts of clients (`threads_see_one_history`, `machines_see_one_history`);
//!   and of the stores that run (`served_threads_see_one_history`, `served_machines_see_one_history`).
//! - Outputs that a driver's client releases of what it hears were released by an answer that it heard
//!   (`published_outputs_were_released`). What a reader is shown of such releases are outputs that the one controller
//!   releases at a place of the list, which had come to that place (`readers_are_shown_answers`); and what it's shown
//!   later stands no earlier (`later_outputs_stand_later`). Before the first release it's shown the safe outputs.
//!
//! `proofs/Worked` has a history of three steps worked out.
//!
//! Presupposed is what `laws_threads` presupposes. That a driver publishes just what its client releases is a clause
//! of each message (`take` of plc_driver and of plc_member); that it does nothing else is their code.
//!
//! Only tested: nothing.
#![tactic(auto)]

ghost use Rattle.std.specs.Prelude.{◌≡◌, ◌<◌, ◌≤◌, ℕ, false, List, [], ◌∷◌, ◌++◌, length, slice_get, Some, None};
ghost use Rattle.std.specs.List.{AllByRecursion};
ghost use mathlib.Core.List.{IsPrefix};
ghost use Rattle.il_model.specs.declared.command.Command.{Command};
ghost use Rattle.il_model.specs.declared.command.Answer.{Answer};
ghost use Rattle.il_model.specs.Program.{Program};
ghost use Rattle.ctl_debugger.specs.Owned.{cold_owned};
ghost use Rattle.ctl_debugger.specs.Outcome.{answers_with};
ghost use Rattle.vr_model.specs.Messages.{Message};
ghost use Rattle.vr_model.specs.Steps.{Hears};
ghost use Rattle.vr_model.specs.World.{ClientState};
ghost use Rattle.vr_core.specs.StandsFor.{group_of};
ghost use Rattle.vr_schedules.specs.declared.event.WorldEvent.{WorldEvent};
ghost use Rattle.vr_schedules.specs.declared.trace.Trace.{Trace};
ghost use Rattle.vr_world.specs.History.{IsOneHistory};
ghost use Rattle.io_image.specs.declared.release.Release.{Release};
ghost use Rattle.io_image.specs.Releases.{IsRising, shown};
ghost use Rattle.io_driver.specs.Driver.{release_by};
ghost use Rattle.laws_threads.specs.CodeMoves.{CodeMove, AreOneRun, clients_in};
ghost use Rattle.laws_threads.specs.OwnMoves.{AreOwnMoves};
ghost use Rattle.laws_threads.specs.MachineMoves.{AreMachineMoves};
ghost use Rattle.laws_threads.specs.Ran.{HaveRan};
ghost use Rattle.laws_answers.specs.Seen.{IsSeenAsOne, IsSeenOverStarts, Lists};
ghost use Rattle.laws_answers.specs.Shown.{WasReleased, ShowsAnswer};

use il_loader::know_reading;
use laws_threads::{
    Judged, Kept, machines_that_ran_are_one_run, one_run_is_one_history,
    threads_that_ran_are_one_run,
};
use std::rt::Files;
use std::time::Clock;
use vr_replica::ViewStore;
use vr_threads::{FileStore, JudgedStarts, NumberedStarts, PatientStore, Starts};

/// What clients did in moves that are one run is one history.
pub fn one_run_is_seen_as_one_history<S>()
    ensures { (f : ℕ) (program : Program) (budget : ℕ) (early late : List (CodeMove S))
        → AreOneRun (group_of f program budget) early late → IsSeenAsOne program budget early }
{
    one_run_is_one_history::<S>();
    know_reading();
}

/// What clients of a group's threads did is one history: where what threads and clients did is as
/// `threads_that_ran_are_one_run` of laws_threads presupposes it.
pub fn threads_see_one_history<S: Kept>()
    ensures { (f : ℕ) (program : Program) (budget : ℕ) (early late : List (CodeMove S))
        → HaveRan (λ i moves. AreOwnMoves S.load_gives S.save_gives S.faults S.begin_gives S.holds
        (group_of f program budget) i None (λ x. false) moves) (group_of f program budget) early late
        → IsSeenOverStarts program budget early }
{
    threads_that_ran_are_one_run::<S>();
    one_run_is_seen_as_one_history::<S>();
}

/// The same of machines, whose starts are judged.
pub fn machines_see_one_history<S: Judged>()
    ensures { (f : ℕ) (program : Program) (budget : ℕ) (early late : List (CodeMove S))
        → HaveRan (λ i moves. AreMachineMoves S.load_gives S.save_gives S.faults S.begin_gives S.holds S.is_first
        (group_of f program budget) i None 0 moves) (group_of f program budget) early late
        → IsSeenOverStarts program budget early }
{
    machines_that_ran_are_one_run::<S>();
    one_run_is_seen_as_one_history::<S>();
}

/// The same of the stores that run in one process: each has a file, and its saves are tried again.
pub fn served_threads_see_one_history<R: Files + Clock + Drop>()
    ensures { (f : ℕ) (program : Program) (budget : ℕ)
        (early late : List (CodeMove (PatientStore (FileStore R R.File R.Dir) R)))
        → HaveRan (λ i moves. AreOwnMoves ⟦<PatientStore<FileStore<R>, R> as ViewStore>⟧.load_gives
        ⟦<PatientStore<FileStore<R>, R> as ViewStore>⟧.save_gives ⟦<PatientStore<FileStore<R>, R> as ViewStore>⟧.faults
        ⟦<PatientStore<FileStore<R>, R> as Starts>⟧.begin_gives ⟦<PatientStore<FileStore<R>, R> as Kept>⟧.holds
        (group_of f program budget) i None (λ x. false) moves) (group_of f program budget) early late
        → IsSeenOverStarts program budget early }
{
    threads_see_one_history::<PatientStore<FileStore<R>, R>>();
}

/// The same of the stores that run in machines: judged, with numbered starts, each in a file, and their saves are tried
/// again.
pub fn served_machines_see_one_history<R: Files + Clock + Drop>()
    ensures { (f : ℕ) (program : Program) (budget : ℕ)
        (early late : List (CodeMove (JudgedStarts (NumberedStarts (PatientStore (FileStore R R.File R.Dir) R)))))
        → HaveRan (λ i moves. AreMachineMoves
        ⟦<JudgedStarts<NumberedStarts<PatientStore<FileStore<R>, R>>> as ViewStore>⟧.load_gives
        ⟦<JudgedStarts<NumberedStarts<PatientStore<FileStore<R>, R>>> as ViewStore>⟧.save_gives
        ⟦<JudgedStarts<NumberedStarts<PatientStore<FileStore<R>, R>>> as ViewStore>⟧.faults
        ⟦<JudgedStarts<NumberedStarts<PatientStore<FileStore<R>, R>>> as Starts>⟧.begin_gives
        ⟦<JudgedStarts<NumberedStarts<PatientStore<FileStore<R>, R>>> as Kept>⟧.holds
        ⟦<JudgedStarts<NumberedStarts<PatientStore<FileStore<R>, R>>> as Judged>⟧.is_first
        (group_of f program budget) i None 0 moves) (group_of f program budget) early late
        → IsSeenOverStarts program budget early }
{
    machines_see_one_history::<JudgedStarts<NumberedStarts<PatientStore<FileStore<R>, R>>>>();
}

/// What a driver's client releases of a message that it hears was released by an answer that it heard: so where each
/// that was published was, each is that is published behind them.
pub fn published_outputs_were_released<S>()
    ensures { (was : List (CodeMove S)) (e c : ℕ) (knows : ClientState Command) (message : Message Command Answer)
        (sends : List (Message Command Answer)) (published : List Release) (release : Release)
        → slice_get (clients_in was) e ≡ Some (c, record { action = Hears message; sends = sends })
        → release_by knows message.body ≡ Some release → AllByRecursion (WasReleased was c) published
        → AllByRecursion (WasReleased was c) (published ++ release ∷ []) }
{}

/// What a reader is shown of outputs that one client released are outputs of an answer to it: the answer at its place
/// in the one list, which had come to that place. The reader has seen a part of what was published, and not nothing.
pub fn readers_are_shown_answers<S>()
    ensures { (program : Program) (budget : ℕ) (was : List (CodeMove S)) (sees : IsSeenOverStarts program budget was)
        (trace : Trace) (c : ℕ) (published seen : List Release)
        → Lists trace sees.one.order sees.one.lengths sees.one.releases
        → AllByRecursion (WasReleased was c) published → IsPrefix seen published → 0 < length seen
        → ShowsAnswer (answers_with sees.one.reading (cold_owned program budget)) trace c (shown seen) }
{}

/// What a reader is shown later stands no earlier in the one list.
pub fn later_outputs_stand_later()
    ensures { (answers : List Command → List Answer) (schedule : List WorldEvent) (trace : Trace) (c : ℕ)
        (seen later : List Release) (early : ShowsAnswer answers trace c (shown seen))
        (late : ShowsAnswer answers trace c (shown later)) → IsOneHistory answers schedule trace
        → IsPrefix seen later → IsRising later → early.stands.place ≤ late.stands.place }
{}
