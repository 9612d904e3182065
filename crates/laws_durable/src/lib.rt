//! A group whose machines are durable is one run over all power cuts, and one whose machines don't crash has no end by
//! evidence. There is no code here, as in `laws_threads`: each function's clause states a law, and its empty body is
//! proved to meet it.
//!
//! ```rust
//! laws_durable::durable_machines_are_one_run::<C, A>(); // for whoever's clause rests on it
//! ```
//!
//! A durable machine takes inputs up and holds what they send; flushes them, and hands that out; puts what it is in
//! place of its base; and behind a power cut its next process resumes from what it reads of its store. What else
//! becomes of a machine shows as an observation: so all that a plain one does, and that one lost its store. Durable
//! machines and plain ones stand in one group in any mixture.
//!
//! Proved, for each f, all commands and answers, and all such moves in one order in which each message that is taken
//! left its sender before:
//!
//! - They show as observed moves that are one run of the group, with one history (`durable_machines_are_one_run`). What
//!   is settled of each machine, and what its store makes of it, is what is known of its replica in the run; a machine
//!   that resumes is just that: its power cut was a pause.
//! - Where f+1 machines never crash, as one doesn't whose power is cut and that resumes, at no moment do f+1 replicas
//!   recover or are down: so the moment at which a cold start by evidence ends a history never comes
//!   (`steady_machines_have_no_end`).
//!
//! What is trusted of a disk is a premise by name, `ReadsBack`: what was flushed is read back, whole and in order, and
//! of what was written and not flushed some part. No test is needed here. That the code of a machine does these deeds
//! is no theorem of this crate, and no machine of the product is durable yet.
#![tactic(auto)]

ghost use Rattle.std.specs.Prelude.{◌≡◌, ◌++◌, ℕ, Bool, List};
ghost use Rattle.vr_model.specs.Groups.{IsQuorum};
ghost use Rattle.laws_durable.specs.DurableMoves.{AreDurableMoves, AreOneRun, DurableMove};
ghost use Rattle.laws_durable.specs.NeverCrashing.{HasNoEnd, NoneCrashes};

/// The deeds of machines, durable or plain, and the steps of clients, in any one order in which each message that is
/// taken left its sender before to its taker, are one run of the group, with one history, over any number of power
/// cuts.
pub fn durable_machines_are_one_run<C, A>()
    ensures { (f : ℕ) (answer : List C → A) (early late : List (DurableMove C A))
        → AreDurableMoves f answer (early ++ late) → AreOneRun f answer early late }
{
    laws_threads::observed_moves_are_one_run::<C, A>();
}

/// Where f+1 of the machines never crash, whatever power cuts there are behind which they resume, the one run has no
/// moment at which f+1 replicas recover or are down: so none at which the group's history has ended by evidence.
pub fn steady_machines_have_no_end<C, A>()
    ensures { (f : ℕ) (answer : List C → A) (early late : List (DurableMove C A)) (steady : ℕ → Bool)
        → AreDurableMoves f answer (early ++ late) → IsQuorum f steady → NoneCrashes f steady early
        → HasNoEnd f answer early late }
{
    durable_machines_are_one_run::<C, A>();
    laws_history::moves_are_lists::<C, A>();
    laws_history::interleave::<C, A>();
}
