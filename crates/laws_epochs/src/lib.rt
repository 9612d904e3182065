//! The epochs of a group of machines: laws over what all of its machines do, each by the table of `plc_epochs`. There
//! is no code here: each function's clause states a law, and its empty body is proved to meet it.
//!
//! ```rust
//! laws_epochs::epochs_begin_behind_a_majority(); // for whoever's clause rests on it
//! ```
//!
//! The machines' moves stand in one order (`specs/Machines`): starts of processes, steps by the table, hellos, writes to
//! stores, ends of processes at any moment, and operators who begin the next epoch by hand. Proved of any such moves:
//!
//! - A machine begins an epoch only behind a majority that has come to it for good: as it begins, f+1 machines have that
//!   epoch in their stores, or a later one, and whatever comes, none of them takes part in an epoch before it again
//!   (`epochs_begin_behind_a_majority`, `specs/Beginnings`).
//! - No machine goes back: once its store has an epoch, or it has said hello in it, its store never has an earlier one
//!   again, and it takes part in none (`machines_never_go_back`).
//! - A machine begins an epoch once, over all its processes (`machines_begin_an_epoch_once`); and whoever has begun it, or
//!   is past it, never begins it again (`no_machine_begins_an_epoch_again`).
//! - A machine whose disk was lost, and which waits above an epoch, takes part in none up to that one, whatever comes
//!   (`who_waits_above_an_epoch_passes_it_by`).
//! - Machines that begin one epoch have one image (`beginners_have_one_image`).
//! - A machine that is marked neither freezes nor asks, whatever it's told (`marked_machines_never_freeze`).
//! - Whoever is up is one of the group, and knows its number (`machines_know_their_places`).
//!
//! Premises: a store is found as it was left, and belongs to one machine alone; no disk is lost; each hello that a
//! machine accepts was said before, by the machine that it names, in the epoch that it names. Of all other words nothing
//! is presupposed: they may be forged. No time is, and no replica: with both, `laws_epoch_ends` has that f+1 machines are
//! frozen at one moment where one of them gives an epoch up by itself.
//!
//! Where disks are lost, too (`specs/LostDisks`), each at any moment, its machine gets a store that waits, and an operator
//! may have a machine begin an epoch that he names, as where f+1 disks are lost:
//!
//! - As a machine begins an epoch, f+1 keep to it for good, though their own disks may be lost later: none of them
//!   takes part in an epoch before it again (`majorities_keep_to_what_they_begin`).
//! - A machine whose disk is lost waits above each epoch that it began (`who_lost_its_disk_waits_above_what_it_began`),
//!   and begins none of them a second time (`no_epoch_is_begun_twice_though_disks_are_lost`).
//!
//! Three premises more: a machine hears no hello that was said before it lost its own disk; as it begins an epoch, each
//! machine by whose hello it does so hasn't lost its disk since (`HellosHold`); and an epoch that an operator names is
//! later than the store's, or, where that knows none, than each in which any machine has said hello (`IsAbove`).
#![tactic(auto)]

ghost use Rattle.std.specs.Prelude.{◌≡◌, ℕ, ◌≤◌, true, Some, List, [], ◌∷◌, ◌++◌, slice_get};
ghost use Rattle.net_hello.specs.declared.hello.Epoch.{Epoch};
ghost use Rattle.plc_epochs.specs.declared.kept.Kept.{Kept};
ghost use Rattle.plc_epochs.specs.declared.cold_start.ColdStart.{ColdStart};
ghost use Rattle.plc_epochs.specs.declared.cold_start.Step.TheVariants.{Begins, Starts};
ghost use Rattle.plc_epochs.specs.Table as table;
ghost use Rattle.laws_epochs.specs.Machines.{Move, Takes, StoreHas, TimeHasPassed, AreMoves, after_moves, at_rest};
ghost use Rattle.laws_epochs.specs.Beginnings.{BeganBefore, HasCome, IsPast, MajorityIsPast, IsUnfrozen, IsPlaced};
ghost use Rattle.laws_epochs.specs.Beginnings.{TakesPartBeyond, WaitsAbove};
ghost use Rattle.laws_epochs.specs.LostDisks.{Event, Moves, AreEvents, KeepsTo, MajorityKeeps, after_events};
ghost use Rattle.laws_epochs.specs.LostDisks.{with_disks};
ghost use Rattle.laws_epochs.specs.WorkedLosses.{WorkedLosses};

/// A machine begins an epoch only once f+1 machines have come to that epoch, and have left all before it for good. So an
/// epoch before has no majority any more, however it was given up, by evidence or by hand, and none comes back to it.
pub fn epochs_begin_behind_a_majority()
    ensures { (f machine now : ℕ) (stores : ℕ → Kept) (early : List Move) (epoch : Epoch) (becomes : ColdStart)
        → AreMoves f (at_rest stores) (early ++ Takes machine (TimeHasPassed now) (Begins epoch) becomes ∷ [])
        → MajorityIsPast f stores early (Takes machine (TimeHasPassed now) (Begins epoch) becomes) epoch }
{
    plc_epochs::no_store_goes_back();
}

/// No machine goes back: where its store has an epoch, or a later one, it has so whatever comes behind, and never takes
/// part in an epoch before it. It's so of each epoch in which it said hello.
pub fn machines_never_go_back()
    ensures goes_on { (f i : ℕ) (stores : ℕ → Kept) (early late : List Move) (epoch : Epoch)
        → AreMoves f (at_rest stores) (early ++ late)
        → HasCome epoch ((after_moves f (at_rest stores) early).at i).store
        → IsPast epoch ((after_moves f (at_rest stores) (early ++ late)).at i) }
    ensures said { (f i place : ℕ) (stores : ℕ → Kept) (moves : List Move) (epoch : Epoch)
        → AreMoves f (at_rest stores) moves
        → slice_get (after_moves f (at_rest stores) moves).hellos place ≡ Some (i, epoch)
        → HasCome epoch ((after_moves f (at_rest stores) moves).at i).store }
{
    plc_epochs::no_store_goes_back();
}

/// A machine begins an epoch once: never again, whatever comes, whether its process ends or goes on. So in the run that
/// an epoch is, each machine has at most one replica that starts as new.
pub fn machines_begin_an_epoch_once()
    ensures { (f i : ℕ) (stores : ℕ → Kept) (early late : List Move) (epoch : Epoch) (first second : ColdStart)
        → AreMoves f (at_rest stores)
        (early ++ (Takes i StoreHas (Starts epoch) first ∷ (late ++ Takes i StoreHas (Starts epoch) second ∷ []))) → ⊥ }
{
    plc_epochs::no_store_goes_back();
}

/// A machine that has begun an epoch, or is past it, whether it was up when these moves came or not, never begins it
/// again. So whatever its replica did in that epoch comes behind its beginning.
pub fn no_machine_begins_an_epoch_again()
    ensures { (f i : ℕ) (stores : ℕ → Kept) (early late : List Move) (epoch : Epoch) (becomes : ColdStart)
        → AreMoves f (at_rest stores) (early ++ (late ++ Takes i StoreHas (Starts epoch) becomes ∷ []))
        → BeganBefore epoch ((after_moves f (at_rest stores) early).at i) → ⊥ }
{
    plc_epochs::no_store_goes_back();
}

/// A machine that waits above an epoch, as one whose disk was lost does, takes part in none up to that one, whatever
/// comes: it restarts, hears epochs, and begins later ones alone.
pub fn who_waits_above_an_epoch_passes_it_by()
    ensures { (f i : ℕ) (stores : ℕ → Kept) (early late : List Move) (epoch : Epoch)
        → AreMoves f (at_rest stores) (early ++ late)
        → WaitsAbove epoch ((after_moves f (at_rest stores) early).at i)
        → TakesPartBeyond epoch ((after_moves f (at_rest stores) (early ++ late)).at i) }
{
    plc_epochs::no_store_goes_back();
}

/// Machines that begin one epoch have one image in force, up to its sum.
pub fn beginners_have_one_image()
    ensures { (now later : ℕ) (epoch : Epoch) (a b c d : ColdStart) → table.Looks now a (Begins epoch) b
        → table.Looks later c (Begins epoch) d → a.image ≡ c.image }
{}

/// A machine that is marked isn't frozen at any moment, whatever it's told. So it's never one of those by whom an epoch is
/// given up, and it gives up none.
pub fn marked_machines_never_freeze()
    ensures { (f i : ℕ) (stores : ℕ → Kept) (moves : List Move) (a : ColdStart) → AreMoves f (at_rest stores) moves
        → ((after_moves f (at_rest stores) moves).at i).runs ≡ Some a → a.place.is_marked ≡ true
        → IsUnfrozen a.phase }
{
    plc_epochs::no_store_goes_back();
}

/// Whoever is up is one of the group's machines, and knows its number and its group.
pub fn machines_know_their_places()
    ensures { (f i : ℕ) (stores : ℕ → Kept) (moves : List Move) (a : ColdStart) → AreMoves f (at_rest stores) moves
        → ((after_moves f (at_rest stores) moves).at i).runs ≡ Some a → IsPlaced f i a }
{
    plc_epochs::no_store_goes_back();
}

/// As a machine begins an epoch, f+1 machines keep to it, whatever disks are lost later, theirs among them: they take
/// part in no epoch before it, and one whose disk is lost waits above it, or above a later one.
pub fn majorities_keep_to_what_they_begin()
    ensures { (f machine now : ℕ) (stores : ℕ → Kept) (early : List Event) (epoch : Epoch) (becomes : ColdStart)
        → AreEvents f (with_disks stores)
        (early ++ Moves (Takes machine (TimeHasPassed now) (Begins epoch) becomes) ∷ [])
        → MajorityKeeps f stores early (Moves (Takes machine (TimeHasPassed now) (Begins epoch) becomes)) epoch }
{
    plc_epochs::no_store_goes_back();
}

/// A machine that has begun an epoch keeps to it, though its disk may be lost: it waits above that epoch, or above a
/// later one, and takes part in none before it.
pub fn who_lost_its_disk_waits_above_what_it_began()
    ensures { (f i : ℕ) (stores : ℕ → Kept) (early late : List Event) (epoch : Epoch) (becomes : ColdStart)
        → AreEvents f (with_disks stores) (early ++ Moves (Takes i StoreHas (Starts epoch) becomes) ∷ late)
        → KeepsTo epoch ((after_events f (with_disks stores)
        (early ++ Moves (Takes i StoreHas (Starts epoch) becomes) ∷ late)).machines.at i) }
{
    plc_epochs::no_store_goes_back();
}

/// No machine begins an epoch twice, though its disk may be lost in between. So in the run that an epoch is, each
/// machine has at most one replica that starts as new.
pub fn no_epoch_is_begun_twice_though_disks_are_lost()
    ensures { (f i : ℕ) (stores : ℕ → Kept) (early late : List Event) (epoch : Epoch) (first second : ColdStart)
        → AreEvents f (with_disks stores) (early ++ (Moves (Takes i StoreHas (Starts epoch) first)
        ∷ (late ++ Moves (Takes i StoreHas (Starts epoch) second) ∷ []))) → ⊥ }
{
    plc_epochs::no_store_goes_back();
}

/// What the definitions compute for worked events: a machine begins an epoch, loses its disk, hears both others, and
/// waits above that epoch. So the three laws above speak of them.
pub fn worked_losses()
    ensures { (low : 1 ≤ 1) (high : 1 ≤ 3) → WorkedLosses low high }
{}
