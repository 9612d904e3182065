//! The laws of replication. There is no code here: each function's clause states a law about the rules, the world and
//! the runs that `vr_model` defines, and its empty body is proved to meet it. Each law is for every f, every type of
//! commands and of answers, every answer function, and every list of events, each done, or lost for want of memory.
//!
//! A law is used by naming it in a function whose clause rests on it, as `vr_schedules` does:
//!
//! ```rust
//! use il_model::{Answer, Command};
//!
//! laws_history::one_history::<Command, Answer>();
//! ```
//!
//! Proved: one list of commands that only grows and that every replica executes a prefix of (`one_history`), the
//! report that tells it (`report_explains`), and that replicas which run each by itself are such a run (`interleave`,
//! `running_replicas_agree`). Worked schedules are computed from the same definitions, and rules that are wrong by one
//! change are shown to break the law (`wrong_rules_show`).
//!
//! No test is needed here. The laws say nothing of progress: that anything is ever committed, answered or delivered.
#![tactic(auto)]

ghost use Rattle.std.specs.Prelude.{ℕ, List, [], ◌++◌};
ghost use Rattle.vr_model.specs.World.{Event, Completion};
ghost use Rattle.vr_model.specs.Agreement.{OneHistory, PromisesKept, RulesKeepExecuted, NewStatesHandLogsOn};
ghost use Rattle.vr_model.specs.Agreement.{CommitsWhatItHad};
ghost use Rattle.vr_model.specs.Report.{Explains};
ghost use Rattle.laws_history.specs.Schedules.{WorkedSchedules};
ghost use Rattle.laws_history.specs.WorkedOrder.{WorkedOrder};
ghost use Rattle.laws_history.specs.WrongRules.{WrongRulesShow};
ghost use Rattle.vr_model.specs.Steps.{Step, ClientStep, first_local_state, first_client};
ghost use Rattle.vr_model.specs.Stores.{Observation, AreObservations, AreTold, first_known_state};
ghost use Rattle.vr_model.specs.Interleaving.{Move, EachByItself, InOneOrder, IsRun, RunAsOne, AreMoves, AreLists};

/// One history. The committed list only grows and is never revised; what any replica has executed is a prefix of it,
/// and some replica has executed it. No pair of client and number stands in it twice, a client's numbers rise in it,
/// and it has only requests that were submitted by then. Every reply and every release has the answer of the commands
/// up to its request's place. And what f+1 replicas accepted of a view's log, or could yet accept because they have not
/// left that view, is a prefix of the first log of every later view that was started.
pub fn one_history<C, A>()
    ensures { (f : ℕ) (answer : List C → A) (early late : List (Event C × Completion))
        → OneHistory f answer early late }
{}

/// In every run a replica keeps what it has said, over crashes too: who sent a DOVIEWCHANGE of a later view takes part
/// in this one no more, and its store keeps a later one; who is normal in a view holds all that it ever acknowledged
/// there.
pub fn promises_are_kept<C, A>()
    ensures { (f : ℕ) (answer : List C → A) (events : List (Event C × Completion)) → PromisesKept f answer events }
{}

/// In every run the log that a rule makes of a message that was sent begins with all that its replica has executed.
pub fn rules_keep_executed<C, A>()
    ensures { (f : ℕ) (answer : List C → A) (events : List (Event C × Completion)) → RulesKeepExecuted f answer events }
{}

/// In every run a NEWSTATE that carries the end of a log, one that a replica had when it was normal in its view, leaves
/// its receiver as it was or with that whole log.
pub fn new_states_hand_logs_on<C, A>()
    ensures { (f : ℕ) (answer : List C → A) (events : List (Event C × Completion))
        → NewStatesHandLogsOn f answer events }
{}

/// In every run what an event adds to the committed list stood before in the log of the replica that commits it.
pub fn commits_what_it_had<C, A>()
    ensures { (f : ℕ) (answer : List C → A) (events : List (Event C × Completion)) → CommitsWhatItHad f answer events }
{}

/// The report of a list of events explains its run: the committed list after each event, the answers that were
/// released, and that no request was committed before it was submitted.
pub fn report_explains<C, A>()
    ensures { (f : ℕ) (answer : List C → A) (events : List (Event C × Completion)) → Explains f answer events }
{}

/// Replicas that run each by itself, restarts, crashes and failed saves among their steps, and clients, in any one
/// order that keeps each list and in which each message taken was sent earlier to its taker, are a run of the world
/// once a store fail is put before each failed save.
pub fn interleave<C, A>()
    ensures { (f : ℕ) (answer : List C → A) (steps : ℕ → List (Step C A)) (client_steps : ℕ → List (ClientStep C A))
        (moves : List (Move C A))
        → EachByItself f answer steps client_steps → InOneOrder steps client_steps moves
        → IsRun f answer steps client_steps moves }
{}

/// So the one history is that of the running replicas, at each moment of the order.
pub fn running_replicas_agree<C, A>()
    ensures { (f : ℕ) (answer : List C → A) (steps : ℕ → List (Step C A)) (client_steps : ℕ → List (ClientStep C A))
        (early late : List (Move C A))
        → EachByItself f answer steps client_steps → InOneOrder steps client_steps (early ++ late)
        → RunAsOne f answer early late }
{}

/// What a replica's own thread sees of its list, where of its store only the loads tell what it kept, is what shows of
/// a list that is right by itself.
pub fn stores_are_told<C, A>()
    ensures { (f i : ℕ) (answer : List C → A) (observations : List (Observation C A))
        → AreObservations f i answer first_known_state observations → AreTold f i answer observations }
{}

/// Moves of which each is right from where its replica or client stands by then, and takes what was sent before, are
/// lists that are right by themselves, in one order.
pub fn moves_are_lists<C, A>()
    ensures { (f : ℕ) (answer : List C → A) (moves : List (Move C A))
        → AreMoves f answer (λ i. first_local_state) (λ c. first_client) [] moves → AreLists f answer moves }
{}

/// What the definitions compute for worked schedules of three replicas, whatever the commands: the normal case, a gap,
/// a view change, a recovery, failed saves, events without a step, the choice of a log, and a recovery at the stored
/// view.
pub fn worked_schedules<C, A>()
    ensures { (answer : List C → A) (a b : C) → WorkedSchedules answer a b }
{}

/// An order of three replicas' lists and a client's, with a save that fails, a restart and a step that is lost: it
/// meets what `interleave` presupposes, and this is its run.
pub fn worked_order<C, A>()
    ensures { (answer : List C → A) (a : C) → WorkedOrder answer a }
{}

/// Rules that are wrong by one change, each with a schedule whose report shows it: answering before a majority, running
/// a repeated request again, a STARTVIEW that cuts a normal log, the longest log, and recovering without a stored view.
pub fn wrong_rules_show<C, A>()
    ensures { (answer : List C → A) (a b c : C) → WrongRulesShow answer a b c }
{}
