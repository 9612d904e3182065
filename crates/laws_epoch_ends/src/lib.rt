//! When an epoch has ended: laws over the machines of a group and the runs that its epochs are. There is no code here:
//! each function's clause states a law, and its empty body is proved to meet it.
//!
//! ```rust
//! use il_model::{Answer, Command};
//!
//! laws_epoch_ends::nothing_new_comes_once_a_later_epoch_begins::<Command, Answer>();
//! ```
//!
//! `laws_epochs` has what machines do, each by the table of `plc_epochs`, and `laws_cold_start` when the history of a
//! group of replicas has ended. Here both stand in one order (`specs/Acts`): each move of a machine, and each event in
//! the run of each epoch. Proved of any such acts:
//!
//! - Where a machine gives its epoch up by evidence, f+1 machines were frozen in it at one moment before
//!   (`machines_that_give_up_were_frozen`, `specs/Freezing`); it does so only as a word comes
//!   (`only_words_give_an_epoch_up`); and whoever was frozen under a nonce is so whenever it recovers under that one
//!   (`who_was_frozen_stays_so`).
//! - So from that moment on nothing new is committed in the epoch: what stood in no log of it by then never is
//!   (`nothing_new_comes_once_an_epoch_is_given_up`, `specs/Ends`).
//! - And nothing new is committed in an epoch from the moment on at which a machine begins a later one, by evidence or
//!   by hand (`nothing_new_comes_once_a_later_epoch_begins`). What stood in a log by then may still be: an
//!   acknowledgement that was under way comes late.
//! - The run of each epoch is one history (`each_epoch_is_one_history`): so a machine's life over its processes is a
//!   list of runs, each with one history.
//! - Each process that begins an epoch makes its replica there as a new one, whatever was there before. What comes of
//!   that is the one run of the epoch from new replicas: nothing had happened to that replica, since no machine begins
//!   an epoch twice (`processes_of_an_epoch_are_one_run`, `specs/Processes`).
//! - Worked moves of three machines, behind a power cut and by hand, and the acts of the first with their replicas,
//!   meet the definitions (`worked_epochs`, `worked_acts`); so do those of a machine that begins by hand, with what
//!   happens to its new replica then (`worked_processes`).
//!
//! Where disks may be lost, too, and an operator may name an epoch (`specs/LostDisks`, over the events of `laws_epochs`):
//!
//! - Nothing new is committed in an epoch once a machine begins a later one
//!   (`nothing_new_comes_though_disks_are_lost`).
//! - What processes make of an epoch is its one run from new replicas (`processes_are_one_run_though_disks_are_lost`).
//! - Worked deeds, in which a machine begins an epoch and loses its disk, meet both definitions (`worked_losses`).
//!
//! Premises, all of them definitions: those of `laws_epochs`; a machine that says it's frozen, or still is, was heard
//! right, and so was the question that it confirms, while words that ask to freeze may be forged (`specs/TrueMoves`);
//! each start of a process counts more than those before; and replicas go with their machines (`AreHosted`): that of a
//! frozen one recovers under its nonce or is down, and is handed no answer; and who left an epoch has closed its
//! replica. Where disks may be lost that a machine gives an epoch up behind f+1 that were frozen isn't among the laws.
//!
//! Only tested, or argued: that machines keep to these premises, and anything of time.
#![tactic(auto)]

ghost use Rattle.std.specs.Prelude.{◌≡◌, ◌≤◌, ℕ, true, List, [], ◌∷◌, ◌++◌};
ghost use Rattle.net_hello.specs.declared.hello.Epoch.{Epoch};
ghost use Rattle.plc_epochs.specs.declared.kept.Kept.{Kept};
ghost use Rattle.plc_epochs.specs.declared.word.Word.{Word};
ghost use Rattle.plc_epochs.specs.declared.cold_start.ColdStart.{ColdStart};
ghost use Rattle.plc_epochs.specs.declared.cold_start.Step.TheVariants.{Begins, Ends, Starts};
ghost use Rattle.plc_epochs.specs.Epochs.{is_later};
ghost use Rattle.laws_epochs.specs.Machines.{Follows, Move, StoreHas, Takes, Telling, TimeHasPassed, WordCame};
ghost use Rattle.laws_epoch_ends.specs.TrueMoves.{AreTrueMoves, machine_behind};
ghost use Rattle.laws_epoch_ends.specs.Freezing.{IsFrozen, IsFrozenUnder, IsWord, WereFrozen};
ghost use Rattle.laws_epoch_ends.specs.Acts.{Act, Moves, AreHosted, events_in};
ghost use Rattle.vr_model.specs.Agreement.{OneHistory};
ghost use Rattle.laws_epoch_ends.specs.Ends.{EndedBefore, NothingNewIn};
ghost use Rattle.vr_model.specs.World.{start};
ghost use Rattle.vr_model.specs.Views.{world};
ghost use Rattle.laws_epoch_ends.specs.Processes.{AreOfProcesses, IsNew, made_by};
ghost use Rattle.laws_epochs.specs.LostDisks as lost;
ghost use Rattle.laws_epoch_ends.specs.LostDisks as kept;
ghost use Rattle.laws_epoch_ends.specs.LostDisks.{Deed, Does, begins};
ghost use Rattle.laws_epoch_ends.specs.WorkedLosses.{WorkedLosses};
ghost use Rattle.laws_epoch_ends.specs.WorkedEpochs.{WorkedEpochs};
ghost use Rattle.laws_epoch_ends.specs.WorkedActs.{WorkedActs};
ghost use Rattle.laws_epoch_ends.specs.WorkedProcesses.{WorkedProcesses};

/// A machine that was frozen in an epoch under a nonce is so whenever it recovers under that nonce, whatever comes: it
/// may thaw, restart and take part again only under later ones.
pub fn who_was_frozen_stays_so()
    ensures { (f i nonce : ℕ) (stores : ℕ → Kept) (early late : List Move) (epoch : Epoch)
        → AreTrueMoves f stores (early ++ late) → IsFrozen (machine_behind f stores early i) epoch nonce
        → IsFrozenUnder (machine_behind f stores (early ++ late) i) epoch nonce }
{}

/// A machine gives its epoch up by evidence only as a word comes to it.
pub fn only_words_give_an_epoch_up()
    ensures { (telling : Telling) (store : Kept) (a b : ColdStart) (next : Epoch)
        → Follows telling store a (Ends next) b → IsWord telling }
{}

/// Where a machine gives its epoch up by evidence, f+1 machines were frozen in that epoch at one moment before, each
/// under a nonce of its own.
pub fn machines_that_give_up_were_frozen()
    ensures { (f i from now : ℕ) (stores : ℕ → Kept) (early : List Move) (epoch next : Epoch) (word : Word)
        (becomes : ColdStart)
        → AreTrueMoves f stores (early ++ Takes i (WordCame from epoch word now) (Ends next) becomes ∷ [])
        → WereFrozen f stores early epoch }
{
    plc_epochs::no_store_goes_back();
    laws_epochs::machines_know_their_places();
}

/// Where a machine gives its epoch up by evidence, there was a moment before from which on nothing new is committed in
/// it: f+1 of its replicas were out, and are handed no answer from then on.
pub fn nothing_new_comes_once_an_epoch_is_given_up<C, A>()
    ensures { (f : ℕ) (answer : List C → A) (stores : ℕ → Kept) (belongs : ℕ → ℕ → ℕ) (early late : List (Act C))
        (i from now : ℕ) (epoch next : Epoch) (word : Word) (becomes : ColdStart)
        → AreHosted f answer stores belongs epoch
        (early ++ Moves (Takes i (WordCame from epoch word now) (Ends next) becomes) ∷ late)
        → EndedBefore f answer stores i epoch next early
        (Moves (Takes i (WordCame from epoch word now) (Ends next) becomes) ∷ late) }
{
    plc_epochs::no_store_goes_back();
    laws_epochs::machines_know_their_places();
    laws_cold_start::nothing_new_is_committed::<C, A>();
}

/// Once a machine begins an epoch, however it came about, nothing new is committed in any epoch before it.
pub fn nothing_new_comes_once_a_later_epoch_begins<C, A>()
    ensures { (f : ℕ) (answer : List C → A) (stores : ℕ → Kept) (belongs : ℕ → ℕ → ℕ) (early late : List (Act C))
        (i now : ℕ) (next epoch : Epoch) (becomes : ColdStart) → is_later next epoch ≡ true
        → AreHosted f answer stores belongs epoch
        (early ++ Moves (Takes i (TimeHasPassed now) (Begins next) becomes) ∷ late)
        → NothingNewIn f answer epoch early (Moves (Takes i (TimeHasPassed now) (Begins next) becomes) ∷ late) }
{
    laws_epochs::epochs_begin_behind_a_majority();
    laws_cold_start::nothing_new_is_committed::<C, A>();
}

/// The run of each epoch is one history, behind whatever acts: those behind it only go on with its events.
pub fn each_epoch_is_one_history<C, A>()
    ensures goes_on { (epoch : Epoch) (early late : List (Act C)) → events_in epoch (early ++ late)
        ≡ events_in epoch early ++ events_in epoch late }
    ensures one { (f : ℕ) (answer : List C → A) (epoch : Epoch) (early late : List (Act C))
        → OneHistory f answer (events_in epoch early) (events_in epoch late) }
{
    laws_history::one_history::<C, A>();
}

/// Whoever begins an epoch finds its replica there as a new one, to which nothing has happened. So what the processes of
/// all machines make of the epoch, each of which makes a new replica where it begins it, is the one run of its events.
pub fn processes_of_an_epoch_are_one_run<C, A>()
    ensures new { (f : ℕ) (answer : List C → A) (stores : ℕ → Kept) (early late : List (Act C)) (i : ℕ)
        (epoch : Epoch) (becomes : ColdStart)
        → AreOfProcesses f answer epoch stores (early ++ Moves (Takes i StoreHas (Starts epoch) becomes) ∷ late)
        → IsNew (world f answer (events_in epoch early)) i }
    ensures one { (f : ℕ) (answer : List C → A) (stores : ℕ → Kept) (acts : List (Act C)) (epoch : Epoch)
        → AreOfProcesses f answer epoch stores acts
        → made_by f answer epoch start acts ≡ world f answer (events_in epoch acts) }
{
    laws_epochs::no_machine_begins_an_epoch_again();
}

/// Once a machine begins an epoch nothing new is committed in any epoch before it, though any disks may be lost, and an
/// operator may name epochs.
pub fn nothing_new_comes_though_disks_are_lost<C, A>()
    ensures { (f : ℕ) (answer : List C → A) (stores : ℕ → Kept) (early late : List (Deed C)) (i now : ℕ)
        (next epoch : Epoch) (becomes : ColdStart) → is_later next epoch ≡ true
        → kept.AreHosted f answer stores epoch
        (early ++ Does (lost.Moves (Takes i (TimeHasPassed now) (Begins next) becomes)) ∷ late)
        → kept.NothingNewIn f answer stores epoch early
        (Does (lost.Moves (Takes i (TimeHasPassed now) (Begins next) becomes)) ∷ late) }
{
    laws_epochs::majorities_keep_to_what_they_begin();
    laws_cold_start::nothing_new_is_committed::<C, A>();
}

/// Whoever begins an epoch finds its replica there as a new one, though any disks may be lost: so what the processes of
/// all machines make of the epoch is the one run of its events.
pub fn processes_are_one_run_though_disks_are_lost<C, A>()
    ensures new { (f : ℕ) (answer : List C → A) (stores : ℕ → Kept) (early late : List (Deed C)) (i : ℕ)
        (epoch : Epoch) (becomes : ColdStart)
        → kept.AreOfProcesses f answer stores epoch (early ++ begins i epoch becomes ∷ late)
        → IsNew (world f answer (kept.events_in epoch early)) i }
    ensures one { (f : ℕ) (answer : List C → A) (stores : ℕ → Kept) (deeds : List (Deed C)) (epoch : Epoch)
        → kept.AreOfProcesses f answer stores epoch deeds
        → kept.made_by f answer stores epoch start deeds ≡ world f answer (kept.events_in epoch deeds) }
{
    laws_epochs::no_epoch_is_begun_twice_though_disks_are_lost();
}

/// What the definitions compute for worked acts: epoch 1's replicas go with their machines while those are cut off,
/// come up, freeze, give it up and begin epoch 2. So both laws above speak of them.
pub fn worked_acts<C, A>()
    ensures { (low : 1 ≤ 1) (high : 1 ≤ 3) (answer : List C → A) → WorkedActs low high answer }
{}

/// What the definitions compute for worked moves of three machines: the power is cut, two come up and begin the next
/// epoch by themselves; and an operator has two begin it by hand.
pub fn worked_epochs()
    ensures { (low : 1 ≤ 1) (high : 1 ≤ 3) → WorkedEpochs low high }
{}

/// What the definitions compute for worked acts: machine 1 begins epoch 2 by hand, and its new replica times out. So the
/// law of what processes make of an epoch speaks of them.
pub fn worked_processes<C, A>()
    ensures { (low : 1 ≤ 1) (high : 1 ≤ 3) (answer : List C → A) → WorkedProcesses low high answer }
{}

/// What the definitions compute for worked deeds: machine 1 begins epoch 2 by hand, loses its disk, and waits above that
/// epoch. So both laws of lost disks speak of them.
pub fn worked_losses<C, A>()
    ensures { (low : 1 ≤ 1) (high : 1 ≤ 3) (answer : List C → A) → WorkedLosses low high answer }
{}
