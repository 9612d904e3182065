//! The road from threads to one history. There is no code here, as in `laws_history`: each function's clause states a
//! law, and its empty body is proved to meet it.
//!
//! ```rust
//! laws_threads::served_threads_are_one_run::<R>(); // for whoever's clause rests on it
//! ```
//!
//! Proved, for each group and each store of which it's said what it may hold (`Kept`; a `FileStore` is one, and a store
//! whose saves are tried again holds no more than the one inside):
//!
//! - What `serve` does is moves of its replica's own list (`serving_is_own_moves`), also where its process is killed
//!   within some step (`killed_serving_is_own_moves`); and so is a whole start of a thread (`working_is_own_moves`).
//!   Such lists join, one start after another (`own_moves_join`).
//! - The lists of all replicas and of all clients, each right by itself, in any one order in which each message that is
//!   taken was handed out before to its taker, are moves that are right along it (`lists_are_moves`).
//! - Such moves are one run of the group as `laws_history` has it, with one history: each replica that runs stands for
//!   the record that its list leads to, and the messages stand for those of that run (`threads_are_one_run`). What a
//!   step presupposes of a message, the run so far gives (`next_moves_may_presuppose`, `step_is_observed`).
//! - The processes of machines, each by itself, are one such run: from stores that were formatted once, judged before
//!   each start, with starts that rise (`machines_are_one_run`). What a file counts rises with each start and never
//!   falls, and a store that was opened anew goes on from it (`counts_rise`).
//! - Both hold of the stores that run: in one process a file whose saves are tried again
//!   (`served_threads_are_one_run`), in a machine such a one whose starts are numbered and judged
//!   (`served_machines_are_one_run`). Numbers of starts rise as counts do (`numbers_rise`). A store that was just
//!   opened starts as one that knew what its file had (`opened_stores_start_knowing`, `opened_stores_start_as_left`).
//!   Where the process was killed, its file has what it had before the call or behind it (`killed_files_hold_either`).
//! - Lists as they were. Moves that handed nothing out may be left out, as those of a start that failed
//!   (`silent_moves_may_be_left_out`). A client may start again and again, in one process or in several, with any count
//!   above the one before and whichever view it takes for the group's (`clients_start_by_rule`). So what threads or
//!   machines and clients did comes to one run (`threads_that_ran_are_one_run`, `machines_that_ran_are_one_run`), and
//!   what clients did in one run is one history (`one_run_is_one_history`).
//!
//! Premises that are left to the links, to disks and to people: there is one order in which a link hands out only what
//! was handed out before, to that party; a replica's first start comes once, and finds a store that holds no view; each
//! later one finds what the one before was left with, and has a nonce that no other start of that replica had, where
//! starts at which nothing was handed out don't count; a process that was killed within a call left what that call might
//! have left; all start with one program and one budget. None of it speaks of one process: each replica may run in its
//! own. Of a machine it's enough that nobody copies its store or brings an old one back: `plc format` makes it once,
//! plc_store judges no later start as the first one (`a_start_is_new_once`; plc_member does, by code, where nothing was
//! said before it), a `JudgedStarts` lets none be that, and a `FileStore` counts on.
//!
//! Only tested: nothing.
#![tactic(auto)]

ghost use Rattle.std.specs.Prelude.{◌≡◌, ◌<◌, ℕ, Bool, false, List, Option, Some, None, [], ◌∷◌, ◌++◌};
ghost use Rattle.il_model.specs.declared.command.Command.{Command};
ghost use Rattle.il_model.specs.declared.command.Answer.{Answer};
ghost use Rattle.vr_model.specs.declared.event.Event.{Event};
ghost use Rattle.vr_model.specs.declared.event.Stored.{Stored};
ghost use Rattle.vr_model.specs.declared.message.Message.{Message};
ghost use Rattle.vr_model.specs.Membership.{Group, Membership, member};
ghost use Rattle.vr_model.specs.Steps.{Input, first_client};
ghost use Rattle.vr_model.specs.Stores.{KnownState};
ghost use Rattle.vr_replica.specs.declared.state.Replica.{Replica};
ghost use Rattle.vr_replica.specs.Standing.{StandsFor};
ghost use Rattle.vr_replica.specs.Stepped.{StepResult, KeepsExecuted};
ghost use Rattle.vr_threads.specs.declared.file_store.FileStore.{FileStore};
ghost use Rattle.vr_threads.specs.declared.file_store.Held.{Held};
ghost use Rattle.vr_threads.specs.declared.file_store.Held.TheVariants.{Unknown, One};
ghost use Rattle.vr_threads.specs.declared.judged_starts.JudgedStarts.{JudgedStarts};
ghost use Rattle.vr_threads.specs.declared.numbered_starts.NumberedStarts.{NumberedStarts};
ghost use Rattle.vr_threads.specs.declared.patient_store.PatientStore.{PatientStore};
ghost use Rattle.vr_threads.specs.Keeping.{CountsStart, Loads, MayHold, Saves, started};
ghost use Rattle.vr_threads.specs.Numbering.{count_in, number_of, HasNumber};
ghost use Rattle.vr_threads.specs.Working.{StartsWith, Worked};
ghost use Rattle.vr_ports.specs.declared.link.Input.{Input as Taken};
ghost use Rattle.vr_ports.specs.declared.timer.Tick.{Tick};
ghost use Rattle.vr_serving.specs.Serving.{StepsTo, Scene, Turn, Did, event_of, scene, sends_in};
ghost use Rattle.laws_clients.specs.ClientHistory.{IsHistoryOf};
ghost use Rattle.laws_threads.specs.ObservedMoves.{ObservedMove, AreFromTheFirst, IsOneRun, MayPresuppose, Means};
ghost use Rattle.laws_threads.specs.ObservedMoves.{FitsIn, observation_of, IsShownAs};
ghost use Rattle.laws_threads.specs.CodeMoves.{CodeMove, Seat, IsUnused, StartsAsLeft, AreFromTheStart, AreOneRun, clients_in};
ghost use Rattle.laws_threads.specs.OwnMoves.{OwnMove, AreOwnMoves, EachInOneOrder, IsServed, IsServedUntil};
ghost use Rattle.laws_threads.specs.OwnMoves.{IsWorkedOff};
ghost use Rattle.laws_threads.specs.OwnMoves.{AllTakeHanded, own_steps, seat_after, given_after};
ghost use Rattle.laws_threads.specs.ClientStarts.{AreStepsOverStarts, WithClientsByRule};
ghost use Rattle.laws_threads.specs.OpenedStores.{IsFileLeft, IsLater, IsJudgedLater, IsOneOrOther};
ghost use Rattle.laws_threads.specs.Ran.{HaveRan, RanAsOne};
ghost use Rattle.laws_threads.specs.SilentMoves.{IsWithoutSilent, ShowsTheSame};
ghost use Rattle.laws_threads.specs.KeptViews.{HoldsNoOther, StartsKnowing};
ghost use Rattle.laws_threads.specs.MachineMoves.{AreMachineMoves, MachineStartsAsLeft, MachinesInOneOrder};
ghost use Rattle.laws_threads.specs.MachineMoves.{HoldsAtLeast, HoldsJust};

use il_model::{Answer, Command};
use std::rt::Files;
use std::time::Clock;
use vr_replica::ViewStore;
use vr_threads::{FileStore, JudgedStarts, NumberedStarts, PatientStore, Starts};

/// A store of which it is said what views it may hold.
pub trait Kept: Starts {
    ghost use Rattle.std.specs.Prelude.{ℕ, Bool};
    ghost use Rattle.laws_threads.specs.KeptViews.{KeepsViews};

    // It holds no other view than these.
    ghost holds: { Self → (ℕ → Bool) → Type 0 };

    /// The law of what it may hold. There is nothing to do.
    fn know_kept()
        ensures { KeepsViews Self.load_gives Self.save_gives Self.begin_gives Self.holds };
}

impl<R: Files + Drop> Kept for FileStore<R> {
    ghost holds = { λ s k. HoldsNoOther s.held k };

    fn know_kept() {}
}

/// A store whose saves are tried again holds no more than one that tries once.
impl<T: Kept, R: Clock> Kept for PatientStore<T, R> {
    ghost holds = { λ s k. T.holds s.store k };

    fn know_kept() {
        T::know_kept();
    }
}

/// A store whose starts are numbered holds what the store inside does, by those that it counts and those that it
/// doesn't.
impl<T: Kept> Kept for NumberedStarts<T> {
    ghost holds = { λ s k. T.holds s.store k };

    fn know_kept() {
        T::know_kept();
    }
}

impl<T: Kept> Kept for JudgedStarts<T> {
    ghost holds = { λ s k. T.holds s.store k };

    fn know_kept() {
        T::know_kept();
    }
}

/// A store of which is known, before it counts a start, whether that is the first.
pub trait Judged: Kept {
    ghost use Rattle.std.specs.Prelude.{Bool};
    ghost use Rattle.laws_threads.specs.MachineMoves.{CountsAsJudged};

    // Whether its next start was judged to be its first.
    ghost is_first: { Self → Bool };

    /// The law of what it counts. There is nothing to do.
    fn know_judged()
        ensures { CountsAsJudged Self.begin_gives is_first };
}

impl<S: Kept> Judged for JudgedStarts<S> {
    ghost is_first = { λ s. s.is_first };

    fn know_judged() {}
}

/// Moves as the threads of a group see them, each right from what is known of its replica by then, and each message
/// taken one that was sent before to its taker, are one run of the group, with one history.
pub fn observed_moves_are_one_run<C, A>()
    ensures { (f : ℕ) (answer : List C → A) (early late : List (ObservedMove C A))
        → AreFromTheFirst f answer (early ++ late) → IsOneRun f answer early late }
{
    laws_history::moves_are_lists::<C, A>();
    laws_history::running_replicas_agree::<C, A>();
}

/// After any such moves a replica may presuppose of a message that was sent what its rules need of it.
pub fn next_moves_may_presuppose<C, A>()
    ensures { (f : ℕ) (answer : List C → A) (moves : List (ObservedMove C A))
        → AreFromTheFirst f answer moves → MayPresuppose f answer moves }
{
    laws_history::moves_are_lists::<C, A>();
    laws_history::interleave::<C, A>();
    laws_history::rules_keep_executed::<C, A>();
    laws_history::new_states_hand_logs_on::<C, A>();
}

/// One step of a replica, from its contract, is one observation of what it took up: done, lost for want of memory, or a
/// save that failed, by its result. What its rule needs holds where the replica is known to be.
pub fn step_is_observed<S: ViewStore>()
    ensures { (q r : Replica) (s t : S) (e : Event) (result : StepResult) (m : Membership) (known : KnownState Command)
        (input : Input Command Answer)
        → StepsTo S.load_gives S.save_gives S.faults q s e r t result → StandsFor q m known.replica → Means m e input
        → KeepsExecuted m known.replica input → FitsIn m known.replica e input
        → IsShownAs m known (observation_of m known.replica input result) r (sends_in result) }
{}

/// The starts and steps of a group's replicas, and the steps of its clients, in any one order in which each message
/// that is taken was handed out before to its taker, are one run of the group, with one history. Each replica may start
/// again and again, from a store that holds what it was left with, each time with a nonce that it never had.
pub fn threads_are_one_run<S: Kept>()
    ensures { (group : Group) (early late : List (CodeMove S))
        → AreFromTheStart S.load_gives S.save_gives S.faults S.begin_gives S.holds group (early ++ late)
        → AreOneRun group early late }
{
    S::know_kept();
    observed_moves_are_one_run::<Command, Answer>();
    next_moves_may_presuppose::<Command, Answer>();
}

/// The same of the stores that run in one process: each has a file, and its saves are tried again.
pub fn served_threads_are_one_run<R: Files + Clock + Drop>()
    ensures { (group : Group) (early late : List (CodeMove (PatientStore (FileStore R R.File R.Dir) R)))
        → AreFromTheStart ⟦<PatientStore<FileStore<R>, R> as ViewStore>⟧.load_gives
        ⟦<PatientStore<FileStore<R>, R> as ViewStore>⟧.save_gives ⟦<PatientStore<FileStore<R>, R> as ViewStore>⟧.faults
        ⟦<PatientStore<FileStore<R>, R> as Starts>⟧.begin_gives ⟦<PatientStore<FileStore<R>, R> as Kept>⟧.holds
        group (early ++ late)
        → AreOneRun group early late }
{
    threads_are_one_run::<PatientStore<FileStore<R>, R>>();
}

/// What a thread serves, from its clause, is moves of its replica's own list: a step for each event of its turns.
pub fn serving_is_own_moves<S: Kept>()
    ensures { (turns : List Turn) (a b : Scene S) (did : Did S.load_gives S.save_gives S.faults turns a b)
        (group : Group) (i : ℕ) (given : ℕ → Bool)
        → IsServed S.load_gives S.save_gives S.faults S.begin_gives S.holds group i given turns a b did.sends }
{}

/// What a thread serves whose process is killed within some step, where the call would have returned: moves of its
/// replica's own list for the turns before, and its death within that step. So each moment of a serving is one that the
/// laws speak of.
pub fn killed_serving_is_own_moves<S: Kept>()
    ensures { (turns later : List Turn) (last : Turn) (event : Event) (a b : Scene S)
        (did : Did S.load_gives S.save_gives S.faults (turns ++ last ∷ later) a b) → event_of last ≡ Some event
        → (group : Group) (i : ℕ) (given : ℕ → Bool)
        → IsServedUntil S.load_gives S.save_gives S.faults S.begin_gives S.holds group i given turns event a did.sends }
{}

/// What one start of a thread did, from its clause, is moves of its replica's own list: the start, the step by which it
/// came up, if it had to, and a step for each event of its turns. The start found what was left, with a nonce that was
/// never given.
pub fn working_is_own_moves<S: Kept>()
    ensures { (turns : ℕ) (ticks ticks_after : Option (List Tick)) (inputs inputs_after : Option (List Taken))
        (sent sent_after : Option (List Message)) (found left : S) (group : Group) (i : ℕ)
        (did : Worked S.load_gives S.save_gives S.faults S.begin_gives (member group i) turns (scene ticks inputs sent)
        found (scene ticks_after inputs_after sent_after) left) (seat : Option (Seat S)) (given : ℕ → Bool)
        → StartsAsLeft S.load_gives S.save_gives S.faults S.begin_gives S.holds group i seat did.begun did.comes
        did.nonce did.starts
        → IsUnused given did.nonce
        → IsWorkedOff S.load_gives S.save_gives S.faults S.begin_gives S.holds group i seat given sent sent_after did.end
        left }
{}

/// Lists of moves of a replica, one behind the other, are one list: those of one start, and then those of the next.
pub fn own_moves_join<S: Kept>()
    ensures { (group : Group) (i : ℕ) (seat : Option (Seat S)) (given : ℕ → Bool) (early late : List (OwnMove S))
        → AreOwnMoves S.load_gives S.save_gives S.faults S.begin_gives S.holds group i seat given early
        → AreOwnMoves S.load_gives S.save_gives S.faults S.begin_gives S.holds group i
        (seat_after seat early) (given_after given early) late
        → AreOwnMoves S.load_gives S.save_gives S.faults S.begin_gives S.holds group i seat given (early ++ late) }
{}

/// Lists of replicas and of clients that are right by themselves, in one order in which each message that is taken was
/// handed out before to its taker, are moves that are right along it.
pub fn lists_are_moves<S: Kept>()
    ensures { (group : Group) (moves : List (CodeMove S))
        → EachInOneOrder S.load_gives S.save_gives S.faults S.begin_gives S.holds group moves
        → AreFromTheStart S.load_gives S.save_gives S.faults S.begin_gives S.holds group moves }
{}

/// What a client did over its starts, in one process or in several, is by the rules in a list that differs little: in it
/// each request goes to every replica, so that it's there wherever it went, and a client that starts takes each start up
/// to the one that it counts. The moves of the replicas are the same, and clients submit and hear the same.
pub fn clients_start_by_rule<S>()
    ensures { (group : Group) (early late : List (CodeMove S))
        → ((c : ℕ) → AreStepsOverStarts group.f c group.answer first_client (own_steps c (early ++ late)))
        → AllTakeHanded group [] (early ++ late) → WithClientsByRule group early late }
{}

/// Moves of replicas that handed nothing out may be left out of a list: what is handed out is the same without them, and
/// clients do the same. So a start that failed doesn't count, nor one that was over before anything was handed out.
pub fn silent_moves_may_be_left_out<S>()
    ensures { (group : Group) (moves kept : List (CodeMove S)) → IsWithoutSilent moves kept
        → ShowsTheSame group moves kept }
{}

/// The processes of a group's machines, each by itself, are one run of the group, with one history: where each
/// machine's first start finds a store that holds no view, each later one was judged to be a later one, finds what the
/// one before left and counts more starts than any before it; and each message that is taken was handed out before, to
/// its taker.
pub fn machines_are_one_run<S: Judged>()
    ensures { (group : Group) (early late : List (CodeMove S))
        → MachinesInOneOrder S.load_gives S.save_gives S.faults S.begin_gives S.holds S.is_first group (early ++ late)
        → AreOneRun group early late }
{
    S::know_judged();
    lists_are_moves::<S>();
    threads_are_one_run::<S>();
}

/// What the clients did in moves that are one run is one history: one list of requests that only grows, with each answer
/// that was heard at its place (`specs/ClientHistory` of laws_clients, which has no rule and no replica in it).
pub fn one_run_is_one_history<S>()
    ensures { (group : Group) (early late : List (CodeMove S)) → AreOneRun group early late
        → IsHistoryOf group.answer (clients_in early) }
{
    laws_clients::clients_see_one_history::<Command, Answer>();
}

/// What threads and clients did, as it was, comes to one run of the group with one history: where each message that was
/// taken was handed out before, to its taker; each client kept to its rule over all its starts; and each replica's list,
/// without moves that handed nothing out, is right by itself. A process may be killed at any moment.
pub fn threads_that_ran_are_one_run<S: Kept>()
    ensures { (group : Group) (early late : List (CodeMove S))
        → HaveRan (λ i moves. AreOwnMoves S.load_gives S.save_gives S.faults S.begin_gives S.holds group i None
        (λ x. false) moves) group early late
        → RanAsOne group early late }
{
    lists_are_moves::<S>();
    threads_are_one_run::<S>();
    one_run_is_one_history::<S>();
}

/// The same of machines, whose starts are judged.
pub fn machines_that_ran_are_one_run<S: Judged>()
    ensures { (group : Group) (early late : List (CodeMove S))
        → HaveRan (λ i moves. AreMachineMoves S.load_gives S.save_gives S.faults S.begin_gives S.holds S.is_first group
        i None 0 moves) group early late
        → RanAsOne group early late }
{
    machines_are_one_run::<S>();
    one_run_is_one_history::<S>();
}

/// The same of the stores that run in machines: judged, with numbered starts, each in a file, and their saves are tried
/// again.
pub fn served_machines_are_one_run<R: Files + Clock + Drop>()
    ensures { (group : Group)
        (early late : List (CodeMove (JudgedStarts (NumberedStarts (PatientStore (FileStore R R.File R.Dir) R)))))
        → MachinesInOneOrder
        ⟦<JudgedStarts<NumberedStarts<PatientStore<FileStore<R>, R>>> as ViewStore>⟧.load_gives
        ⟦<JudgedStarts<NumberedStarts<PatientStore<FileStore<R>, R>>> as ViewStore>⟧.save_gives
        ⟦<JudgedStarts<NumberedStarts<PatientStore<FileStore<R>, R>>> as ViewStore>⟧.faults
        ⟦<JudgedStarts<NumberedStarts<PatientStore<FileStore<R>, R>>> as Starts>⟧.begin_gives
        ⟦<JudgedStarts<NumberedStarts<PatientStore<FileStore<R>, R>>> as Kept>⟧.holds
        ⟦<JudgedStarts<NumberedStarts<PatientStore<FileStore<R>, R>>> as Judged>⟧.is_first group (early ++ late)
        → AreOneRun group early late }
{
    machines_are_one_run::<JudgedStarts<NumberedStarts<PatientStore<FileStore<R>, R>>>>();
}

/// A store that was just opened doesn't know what its file has. But where its start found a value that the store before
/// may hold (`had`; that of a file that was never there is nothing), it's also the start of one that knew as much as
/// that store did, and holds no views but those. So among moves the one that knew stands for the one that was opened.
pub fn opened_stores_start_knowing<R: Files + Clock + Drop>()
    ensures threads { (had : Held) (was stored : Stored) (found left : PatientStore (FileStore R R.File R.Dir) R)
        → MayHold had was
        → ⟦<PatientStore<FileStore<R>, R> as Starts>⟧.begin_gives found (Some stored) left
        → left.store.held ≡ One (started was)
        → StartsKnowing ⟦<PatientStore<FileStore<R>, R> as Starts>⟧.begin_gives
        ⟦<PatientStore<FileStore<R>, R> as Kept>⟧.holds had stored left }
    ensures machines { (had : Held) (was stored : Stored)
        (found left : JudgedStarts (NumberedStarts (PatientStore (FileStore R R.File R.Dir) R))) → MayHold had was
        → found.store.started ≡ 0
        → ⟦<JudgedStarts<NumberedStarts<PatientStore<FileStore<R>, R>>> as Starts>⟧.begin_gives found (Some stored) left
        → left.store.store.store.held ≡ One (started was)
        → (same : StartsKnowing
        ⟦<JudgedStarts<NumberedStarts<PatientStore<FileStore<R>, R>>> as Starts>⟧.begin_gives
        ⟦<JudgedStarts<NumberedStarts<PatientStore<FileStore<R>, R>>> as Kept>⟧.holds had stored left)
        × (same.knowing.is_first ≡ found.is_first) }
{}

/// So the start of a store that was just opened is one that finds what was left, where its file had a value that the
/// store before may hold, and the start counted on from that.
pub fn opened_stores_start_as_left<R: Files + Clock + Drop>()
    ensures threads { (group : Group) (i : ℕ) (seat : Option (Seat (PatientStore (FileStore R R.File R.Dir) R))) (had : Held)
        (was stored : Stored) (found left : PatientStore (FileStore R R.File R.Dir) R) (replica : Replica)
        (nonce : Option ℕ) → IsFileLeft ⟦<PatientStore<FileStore<R>, R> as Kept>⟧.holds seat had → MayHold had was
        → ⟦<PatientStore<FileStore<R>, R> as Starts>⟧.begin_gives found (Some stored) left
        → left.store.held ≡ One (started was) → StartsWith (member group i) stored replica nonce → IsLater seat stored
        → StartsAsLeft ⟦<PatientStore<FileStore<R>, R> as ViewStore>⟧.load_gives
        ⟦<PatientStore<FileStore<R>, R> as ViewStore>⟧.save_gives ⟦<PatientStore<FileStore<R>, R> as ViewStore>⟧.faults
        ⟦<PatientStore<FileStore<R>, R> as Starts>⟧.begin_gives ⟦<PatientStore<FileStore<R>, R> as Kept>⟧.holds
        group i seat left replica nonce (Some stored.starts) }
    ensures machines { (group : Group) (i : ℕ)
        (seat : Option (Seat (JudgedStarts (NumberedStarts (PatientStore (FileStore R R.File R.Dir) R))))) (had : Held)
        (was stored : Stored) (found left : JudgedStarts (NumberedStarts (PatientStore (FileStore R R.File R.Dir) R)))
        (replica : Replica) (nonce : Option ℕ)
        → IsFileLeft ⟦<JudgedStarts<NumberedStarts<PatientStore<FileStore<R>, R>>> as Kept>⟧.holds seat had
        → MayHold had was → found.store.started ≡ 0
        → ⟦<JudgedStarts<NumberedStarts<PatientStore<FileStore<R>, R>>> as Starts>⟧.begin_gives found (Some stored) left
        → left.store.store.store.held ≡ One (started was) → StartsWith (member group i) stored replica nonce
        → IsJudgedLater seat found.is_first
        → MachineStartsAsLeft ⟦<JudgedStarts<NumberedStarts<PatientStore<FileStore<R>, R>>> as ViewStore>⟧.load_gives
        ⟦<JudgedStarts<NumberedStarts<PatientStore<FileStore<R>, R>>> as ViewStore>⟧.save_gives
        ⟦<JudgedStarts<NumberedStarts<PatientStore<FileStore<R>, R>>> as ViewStore>⟧.faults
        ⟦<JudgedStarts<NumberedStarts<PatientStore<FileStore<R>, R>>> as Starts>⟧.begin_gives
        ⟦<JudgedStarts<NumberedStarts<PatientStore<FileStore<R>, R>>> as Kept>⟧.holds
        ⟦<JudgedStarts<NumberedStarts<PatientStore<FileStore<R>, R>>> as Judged>⟧.is_first group i seat left replica nonce
        (Some stored.starts) }
{
    opened_stores_start_knowing::<R>();
}

/// What the file of a store has where its process was killed within a call is what it had before or what it would have
/// had behind the call: so it holds no view but those, and counts no fewer starts.
pub fn killed_files_hold_either()
    ensures views { (before behind left : Held) (k : ℕ → Bool) → IsOneOrOther before behind left
        → HoldsNoOther before k → HoldsNoOther behind k → HoldsNoOther left k }
    ensures counts { (before behind left : Held) (counted : ℕ) → IsOneOrOther before behind left
        → HoldsAtLeast before counted → HoldsAtLeast behind counted → HoldsAtLeast left counted }
{}

/// The numbers of starts rise within a process, and from each process to a later one, by which more were counted; and
/// each tells how many were. What a process has counted its file keeps, whatever is loaded and saved: so each of its
/// starts has a number of that count.
pub fn numbers_rise()
    ensures within { (count before later : ℕ) → HasNumber count before → before < later
        → number_of count before < number_of count later }
    ensures between { (count before later : ℕ) → HasNumber count before → count < later
        → number_of count before < number_of later 0 }
    ensures tells { (count before : ℕ) → HasNumber count before → count_in (number_of count before) ≡ count }
    ensures counts { (h t : Held) (stored : Stored) → CountsStart h (Some stored) t → HoldsJust t stored.starts }
    ensures loads { (h t : Held) (count : ℕ) (found : Stored) → HoldsJust h count → Loads h (Some found) t
        → (found.starts ≡ count) × HoldsJust t count }
    ensures fails { (h t : Held) (count : ℕ) → HoldsJust h count → Loads h None t → HoldsJust t count }
    ensures saves { (h t : Held) (count view : ℕ) (made : Bool) → HoldsJust h count → Saves h view made t
        → HoldsJust t count }
{}

/// What the file of a store holds counts no fewer starts behind a load, a save or a start that failed, and more behind
/// each start. And a store that was opened anew starts as the one before would, where it finds what that may hold.
pub fn counts_rise()
    ensures loads { (h t : Held) (counted : ℕ) (found : Option Stored) → HoldsAtLeast h counted → Loads h found t
        → HoldsAtLeast t counted }
    ensures saves { (h t : Held) (counted view : ℕ) (made : Bool) → HoldsAtLeast h counted → Saves h view made t
        → HoldsAtLeast t counted }
    ensures starts { (h t : Held) (counted : ℕ) (stored : Stored) → HoldsAtLeast h counted
        → CountsStart h (Some stored) t → (counted < stored.starts) × HoldsAtLeast t stored.starts }
    ensures fails { (h t : Held) (counted : ℕ) → HoldsAtLeast h counted → CountsStart h None t
        → HoldsAtLeast t counted }
    ensures reopens { (left after : Held) (found stored : Stored) → MayHold left found
        → CountsStart Unknown (Some stored) after → stored ≡ started found → CountsStart left (Some stored) after }
{}
