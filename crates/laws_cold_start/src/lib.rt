//! The law behind a cold start: when the history of a group has ended. There is no code here, as in `laws_history`:
//! each function's clause states a law about the runs that `vr_model` defines, and its body is proved to meet it. Each
//! law is for every f, every type of commands and of answers, and every list of events, each done, or lost for want of
//! memory.
//!
//! ```rust
//! use il_model::{Answer, Command};
//!
//! laws_cold_start::nothing_new_is_committed::<Command, Answer>();
//! ```
//!
//! Say that f+1 replicas recover or are down at one moment, and that from then on none of them that recovers under the
//! nonce of that moment is handed a RECOVERYRESPONSE to it (`specs/ColdStarts`). They may crash, restart under other
//! nonces and be answered those; all else may happen, too. Proved: none of them takes part again
//! (`frozen_replicas_take_no_part`), and a request that was in no log up to that moment is never committed
//! (`nothing_new_is_committed`). Worked schedules show that f are too few, and that an answer which was under way may
//! not be handed over (`worked_cold_starts`).
//!
//! No test is needed here. Of machines, epochs and times the laws say nothing: that the steps of `plc_epochs` come to
//! such a moment is a theorem of `laws_epoch_ends`.
#![tactic(auto)]

ghost use Rattle.std.specs.Prelude.{ℕ, List, Bool};
ghost use Rattle.vr_model.specs.Logs.{Request};
ghost use Rattle.vr_model.specs.World.{Event, Completion};
ghost use Rattle.laws_cold_start.specs.ColdStarts.{AreFrozen, TakeNoPart, IsInNoLog, IsNeverCommitted};
ghost use Rattle.laws_cold_start.specs.WorkedColdStarts.{WorkedColdStarts};

/// None of f+1 replicas that recover or are down at one moment, and are handed no answer to the nonce of that moment,
/// takes part behind it: each is recovering or down. It may crash, restart under other nonces and be answered those.
pub fn frozen_replicas_take_no_part<C, A>()
    ensures { (f : ℕ) (answer : List C → A) (early late : List (Event C × Completion)) (who : ℕ → Bool)
        (nonces : ℕ → ℕ) → AreFrozen f answer early late who nonces → TakeNoPart f answer early late who }
{}

/// And a request that stood in no replica's log up to that moment is never committed behind it, though the others may
/// go on: it comes into the committed list of no later moment, and no replica executes it.
pub fn nothing_new_is_committed<C, A>()
    ensures { (f : ℕ) (answer : List C → A) (early late : List (Event C × Completion)) (who : ℕ → Bool)
        (nonces : ℕ → ℕ) (m : Request C) → AreFrozen f answer early late who nonces → IsInNoLog f answer early m
        → IsNeverCommitted f answer early late m }
{
    laws_history::one_history::<C, A>();
}

/// What the definitions compute for worked schedules of three replicas, whatever the commands: two whose memory is lost
/// and a third that goes on alone; one that is too few; and an answer that is handed over.
pub fn worked_cold_starts<C, A>()
    ensures { (answer : List C → A) (a b : C) → WorkedColdStarts answer a b }
{}
