//! What a client sees that reads outputs at the machines of a group in turn, over its epochs. There is no code here:
//! the function's clause states a law, and its empty body is proved to meet it.
//!
//! ```rust
//! use il_model::{Answer, Command};
//!
//! laws_readers::no_reader_goes_back::<Command, Answer>();
//! ```
//!
//! Proved: behind what some machine showed of an epoch no machine shows anything of an earlier one, however the later
//! one came about (`no_reader_goes_back`), though disks may be lost (`no_reader_goes_back_though_disks_are_lost`). Within
//! an epoch there is one history (`laws_history`, `laws_clients`).
//!
//! Presupposed, in definitions (`specs/Readings`): all moments are of one clock, so the machines' clocks go equally
//! fast and none of them stands still; what is shown is as of a request that stood in no log `fresh` ago; and whatever
//! shows something of an epoch does so `fresh` behind the first that began it. And the premises of `laws_epoch_ends`.
//!
//! Only tested, or argued: that what a machine shows keeps to this (plc_machine has an inequality for it), and that a
//! request stands in no log before it's submitted.
#![tactic(auto)]

ghost use Rattle.std.specs.Prelude.{◌≡◌, ◌≤◌, ℕ, true, List, ◌++◌};
ghost use Rattle.net_hello.specs.declared.hello.Epoch.{Epoch};
ghost use Rattle.plc_epochs.specs.Epochs.{is_later};
ghost use Rattle.plc_epochs.specs.declared.kept.Kept.{Kept};
ghost use Rattle.laws_epoch_ends.specs.Acts.{Act, AreHosted};
ghost use Rattle.laws_epoch_ends.specs.LostDisks.{Deed};
ghost use Rattle.laws_epoch_ends.specs.LostDisks as kept;
ghost use Rattle.laws_readers.specs.Readings.{Timed, acts_of, Shows, ShowsByDeeds};

/// Where some machine showed something of an epoch, none shows anything of an earlier one at that moment or behind it.
pub fn no_reader_goes_back<C, A>()
    ensures { (f : ℕ) (answer : List C → A) (stores : ℕ → Kept) (belongs : ℕ → ℕ → ℕ) (fresh : ℕ)
        (first more : List (Timed (Act C))) (later earlier : Epoch) (now then : ℕ)
        → AreHosted f answer stores belongs earlier (acts_of (first ++ more)) → is_later later earlier ≡ true
        → now ≤ then → Shows f answer fresh first later now → Shows f answer fresh (first ++ more) earlier then → ⊥ }
{
    laws_epoch_ends::nothing_new_comes_once_a_later_epoch_begins::<C, A>();
}

/// It's so though disks may be lost, and an operator may name epochs.
pub fn no_reader_goes_back_though_disks_are_lost<C, A>()
    ensures { (f : ℕ) (answer : List C → A) (stores : ℕ → Kept) (fresh : ℕ) (first more : List (Timed (Deed C)))
        (later earlier : Epoch) (now then : ℕ)
        → kept.AreHosted f answer stores earlier (acts_of (first ++ more)) → is_later later earlier ≡ true
        → now ≤ then → ShowsByDeeds f answer fresh first later now
        → ShowsByDeeds f answer fresh (first ++ more) earlier then → ⊥ }
{
    laws_epoch_ends::nothing_new_comes_though_disks_are_lost::<C, A>();
}
