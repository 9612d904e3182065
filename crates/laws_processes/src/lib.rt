//! From what a process did to the lists that `laws_threads` takes, wherever it was killed. There is no code here: each
//! function's clause states a law, and its empty body is proved to meet it.
//!
//! ```rust
//! laws_processes::killed_starts_go_on::<S>(); // for whoever's clause rests on it
//! ```
//!
//! A process runs one thread for its replica, which starts it from its store, has it come up and serves it (`Worked` of
//! vr_threads). No contract says anything of a call that doesn't return, and a killed process returns from none. But the
//! invariant of the loop of `serve` holds before each turn, whether the loop ends or not: it's what the turns so far
//! came to. So a kill is a moment between two turns, or one within the step of the next, which would have come to
//! something.
//!
//! Proved, for each kind of store of which it's said what it may hold:
//!
//! - What a start did to its end are steps that go on behind it (`worked_starts_go_on`). Where its process was killed
//!   within the step by which it came up, or within one of a later turn, they are the steps before, and a death
//!   (`killed_starts_go_on`).
//! - So it is at each moment between two turns, and from there into the next step (`starts_go_on_at_any_moment`).
//! - A start with such steps behind it is moves of a replica's own list, and of a machine's (`starts_are_moves`); lists
//!   of a machine join, one process behind the other (`machine_moves_join`), as those of threads do in `laws_threads`.
//! - Where a start failed, or its process was killed while its store counted it, the file holds what the start before
//!   left, and no less is counted: so it's no move, and the next start finds what was left
//!   (`failed_starts_leave_the_file`). That is so of the first start, too. A save that is tried again leaves, behind
//!   each try, no view but those that the file had and the one that is saved (`tried_saves_leave_old_or_new`).
//! - Each call of a `GroupClient` is a step of its client over all its starts: also its making, in whichever process,
//!   with a count that no start before had (`client_calls_are_steps`).
//!
//! Presupposed is that a disk keeps what was flushed, and that a write which is cut off leaves the old file or the new
//! one (`IsOneOrOther` of laws_threads). That a thread does one start after another on one store is code.
//!
//! Only tested: nothing.
#![tactic(auto)]

ghost use Rattle.std.specs.Prelude.{◌≡◌, ◌<◌, ◌^◌, ℕ, Bool, List, [], ◌∷◌, ◌++◌, map, Option, Some, true};
ghost use Rattle.il_model.specs.declared.command.Command.{Command};
ghost use Rattle.il_model.specs.declared.command.Answer.{Answer};
ghost use Rattle.vr_model.specs.declared.event.Event.{Event};
ghost use Rattle.vr_model.specs.declared.event.Stored.{Stored};
ghost use Rattle.vr_model.specs.declared.message.Message.{Message};
ghost use Rattle.vr_model.specs.Groups.{client_count};
ghost use Rattle.vr_model.specs.Logs.{Request};
ghost use Rattle.vr_model.specs.Membership.{Group, member};
ghost use Rattle.vr_model.specs.StandsFor.{message_with};
ghost use Rattle.vr_model.specs.Steps.{Submits, Retries, StartsAgain, Hears, MayClient};
ghost use Rattle.vr_model.specs.World.{ClientState};
ghost use Rattle.vr_replica.specs.declared.state.Replica.{Replica};
ghost use Rattle.vr_replica.specs.Stepped.{StepResult};
ghost use Rattle.vr_ports.specs.Parties.{Grows};
ghost use Rattle.vr_ports.specs.declared.link.Input.{Input as Taken};
ghost use Rattle.vr_ports.specs.declared.timer.Tick.{Tick};
ghost use Rattle.vr_serving.specs.Serving.{Did, Scene, StepsTo, Turn, event_of, scene};
ghost use Rattle.vr_threads.specs.declared.file_store.Held.{Held};
ghost use Rattle.vr_threads.specs.Keeping.{CountsStart, Loads, Saves};
ghost use Rattle.vr_threads.specs.Trying.{SavesBehind};
ghost use Rattle.vr_threads.specs.Working.{ComesUp, HasStarted, Worked};
ghost use Rattle.vr_client.specs.Client.{Client, new_client, SendsAt, BecomesAt, SubmitsCommand};
ghost use Rattle.laws_threads.specs.CodeMoves.{Seat, IsUnused, StartsAsLeft, runs};
ghost use Rattle.laws_threads.specs.OwnMoves.{OwnMove, Started, AreOwnMoves, seat_after};
ghost use Rattle.laws_threads.specs.MachineMoves.{AreMachineMoves, MachineStartsAsLeft, Rises, HoldsAtLeast};
ghost use Rattle.laws_threads.specs.KeptViews.{HoldsNoOther};
ghost use Rattle.laws_threads.specs.OpenedStores.{IsFileLeft, IsOneOrOther};
ghost use Rattle.laws_threads.specs.ClientStarts.{ComesTo};
ghost use Rattle.laws_processes.specs.Going.{GoesOn, GoesInto, GoesToTheEnd, GoesUntil, GoesUntilUp};
ghost use Rattle.laws_processes.specs.Going.{counted_after};

use laws_threads::{Judged, Kept};

/// What one start of a thread did, from its clause, until it was served no more: steps that go on behind the start,
/// and hand out what its link was handed.
pub fn worked_starts_go_on<S: Kept>()
    ensures { (turns : ℕ) (ticks ticks_after : Option (List Tick)) (inputs inputs_after : Option (List Taken))
        (sent sent_after : Option (List Message)) (found left : S) (group : Group) (i : ℕ)
        (did : Worked S.load_gives S.save_gives S.faults S.begin_gives (member group i) turns (scene ticks inputs sent)
        found (scene ticks_after inputs_after sent_after) left)
        → GoesToTheEnd S.load_gives S.save_gives S.faults S.holds (runs did.comes did.begun did.nonce) sent sent_after
        did.end left }
{}

/// What it did whose process was killed within the step by which it comes up, or within one of a later turn, where the
/// call would have returned: the steps up to there, and its death.
pub fn killed_starts_go_on<S: Kept>()
    ensures coming_up { (turns : ℕ) (ticks ticks_after : Option (List Tick)) (inputs inputs_after : Option (List Taken))
        (sent sent_after : Option (List Message)) (found left : S) (group : Group) (i nonce : ℕ)
        (did : Worked S.load_gives S.save_gives S.faults S.begin_gives (member group i) turns (scene ticks inputs sent)
        found (scene ticks_after inputs_after sent_after) left) → did.nonce ≡ Some nonce
        → GoesUntilUp S.load_gives S.save_gives S.faults S.holds (runs did.comes did.begun (Some nonce)) nonce did.begun
        did.up.store }
    ensures served { (turns : ℕ) (ticks ticks_after : Option (List Tick)) (inputs inputs_after : Option (List Taken))
        (sent sent_after : Option (List Message)) (found left : S) (group : Group) (i : ℕ)
        (did : Worked S.load_gives S.save_gives S.faults S.begin_gives (member group i) turns (scene ticks inputs sent)
        found (scene ticks_after inputs_after sent_after) left)
        (early later : List Turn) (last : Turn) (event : Event) → did.served.turns ≡ early ++ last ∷ later
        → event_of last ≡ Some event
        → (all : List Message) × Grows sent sent_after all
        × GoesUntil S.load_gives S.save_gives S.faults S.holds (runs did.comes did.begun did.nonce) event all }
{}

/// What it did by a moment between two turns, at which is known what the turns so far came to and no more: steps that go
/// on behind the start, and hand out what its link was handed by then. Where its process is killed within the next step,
/// they are these and its death; where it's killed behind that, these and the step, whatever was sent of it.
pub fn starts_go_on_at_any_moment<S: Kept>()
    ensures between_turns { (ticks : Option (List Tick)) (inputs : Option (List Taken)) (sent : Option (List Message))
        (comes : Replica) (begun : S) (nonce : Option ℕ) (up here : Scene S) (turns : List Turn)
        → ComesUp S.load_gives S.save_gives S.faults nonce (scene ticks inputs sent comes begun) up
        → Did S.load_gives S.save_gives S.faults turns up here
        → GoesToTheEnd S.load_gives S.save_gives S.faults S.holds (runs comes begun nonce) sent here.sent here.replica
        here.store }
    ensures within_the_next { (ticks : Option (List Tick)) (inputs : Option (List Taken)) (sent : Option (List Message))
        (comes : Replica) (begun : S) (nonce : Option ℕ) (up here : Scene S) (turns : List Turn) (last : Turn)
        (event : Event) (becomes : Replica) (would_leave : S) (result : StepResult)
        → ComesUp S.load_gives S.save_gives S.faults nonce (scene ticks inputs sent comes begun) up
        → Did S.load_gives S.save_gives S.faults turns up here → event_of last ≡ Some event
        → StepsTo S.load_gives S.save_gives S.faults here.replica here.store event becomes would_leave result
        → GoesInto S.load_gives S.save_gives S.faults S.holds (runs comes begun nonce) sent here.sent here.store event
        becomes would_leave result }
{}

/// A start that finds what was left, and steps that go on behind it, are moves of its replica's own list, and of its
/// machine's, where it was judged and counts more starts than were counted.
pub fn starts_are_moves<S: Judged>()
    ensures threads { (group : Group) (i : ℕ) (seat : Option (Seat S)) (given : ℕ → Bool) (q : Replica) (found left : S)
        (nonce starts : Option ℕ) (moves : List (OwnMove S))
        → HasStarted S.begin_gives (member group i) found left q nonce starts
        → StartsAsLeft S.load_gives S.save_gives S.faults S.begin_gives S.holds group i seat left q nonce starts
        → IsUnused given nonce → GoesOn S.load_gives S.save_gives S.faults S.holds (runs q left nonce) moves
        → AreOwnMoves S.load_gives S.save_gives S.faults S.begin_gives S.holds group i seat given
        (Started q found left nonce starts ∷ moves) }
    ensures machines { (group : Group) (i : ℕ) (seat : Option (Seat S)) (counted : ℕ) (q : Replica) (found left : S)
        (nonce starts : Option ℕ) (moves : List (OwnMove S))
        → HasStarted S.begin_gives (member group i) found left q nonce starts
        → MachineStartsAsLeft S.load_gives S.save_gives S.faults S.begin_gives S.holds S.is_first group i seat left q
        nonce starts
        → Rises counted starts → GoesOn S.load_gives S.save_gives S.faults S.holds (runs q left nonce) moves
        → AreMachineMoves S.load_gives S.save_gives S.faults S.begin_gives S.holds S.is_first group i seat counted
        (Started q found left nonce starts ∷ moves) }
{}

/// Lists of moves of a machine, one behind the other, are one list: those of one start, and then those of the next, in
/// its process or in another one.
pub fn machine_moves_join<S: Judged>()
    ensures { (group : Group) (i : ℕ) (seat : Option (Seat S)) (counted : ℕ) (early late : List (OwnMove S))
        → AreMachineMoves S.load_gives S.save_gives S.faults S.begin_gives S.holds S.is_first group i seat counted early
        → AreMachineMoves S.load_gives S.save_gives S.faults S.begin_gives S.holds S.is_first group i
        (seat_after seat early) (counted_after counted early) late
        → AreMachineMoves S.load_gives S.save_gives S.faults S.begin_gives S.holds S.is_first group i seat counted
        (early ++ late) }
{}

/// Where a start counts itself in a store's file, comes to that or not, and the process may be killed meanwhile, the
/// file has what was left before that start, too: no other view, and no fewer starts. So where nothing else was done,
/// the next start finds what was left, as it would have done without this one; and so it is before the first.
pub fn failed_starts_leave_the_file<S: Kept>()
    ensures views { (seat : Option (Seat S)) (before behind left : Held) (stored : Option Stored)
        → IsFileLeft S.holds seat before → CountsStart before stored behind → IsOneOrOther before behind left
        → IsFileLeft S.holds seat left }
    ensures counts { (before behind left : Held) (stored : Option Stored) (counted : ℕ) → HoldsAtLeast before counted
        → CountsStart before stored behind → IsOneOrOther before behind left → HoldsAtLeast left counted }
{}

/// A save that is tried again, however often, and behind whichever tries it's looked at, leaves a file with no view but
/// those that it had and the one that is saved; and where it's made, the one that is saved is among those that it may
/// have. So where the process is killed between two tries, the file has no more than before them or behind the last.
pub fn tried_saves_leave_old_or_new()
    ensures tried { (before behind : Held) (tries view : ℕ) (made : Bool) (k : ℕ → Bool)
        → SavesBehind Loads Saves tries before view made behind → HoldsNoOther before k → k view ≡ true
        → HoldsNoOther behind k }
    ensures made { (before behind : Held) (tries view : ℕ) (k : ℕ → Bool)
        → SavesBehind Loads Saves tries before view true behind → HoldsNoOther behind k → k view ≡ true }
{}

/// What a `GroupClient` does, by its clauses, are steps of its client over all its starts.
pub fn client_calls_are_steps()
    ensures begins { (f c starts : ℕ) (answer : List Command → Answer) (knows : ClientState Command) → c < client_count
        → knows.starts < starts → starts < 2 ^ 32
        → ComesTo f c answer knows StartsAgain [] (new_client f c starts).state }
    ensures begins_again { (answer : List Command → Answer) (a b : Client)
        → MayClient a.f a.number answer a.state StartsAgain → BecomesAt a StartsAgain b
        → ComesTo a.f a.number answer a.state StartsAgain [] b.state }
    ensures submits { (answer : List Command → Answer) (a b : Client) (command : Command) (message : Message)
        → SubmitsCommand a command message b
        → ComesTo a.f a.number answer a.state (Submits command) (message_with [] message ∷ []) b.state }
    ensures asks_again { (answer : List Command → Answer) (a : Client) (sends : List Message)
        → MayClient a.f a.number answer a.state Retries → SendsAt a Retries sends
        → ComesTo a.f a.number answer a.state Retries (map (message_with []) sends) a.state }
    ensures hears { (answer : List Command → Answer) (a b : Client) (message : Message) (log : List (Request Command))
        → BecomesAt a (Hears (message_with log message)) b
        → ComesTo a.f a.number answer a.state (Hears (message_with log message)) [] b.state }
{}
