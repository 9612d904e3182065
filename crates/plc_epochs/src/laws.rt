//! What holds of each step of a machine.

ghost use Rattle.std.specs.Prelude.{◌≡◌, ℕ, true, is_some};
ghost use Rattle.net_hello.specs.declared.hello.Epoch.{Epoch as Numbered};
ghost use Rattle.plc_epochs.specs.GoingOn.{StoreGoesOn, StaysFrozen};
ghost use Rattle.plc_epochs.specs.Table as table;
ghost use Rattle.plc_epochs.specs.declared.cold_start.ColdStart.{ColdStart as Machine};
ghost use Rattle.plc_epochs.specs.declared.cold_start.Phase.TheVariants.{Recovering};
ghost use Rattle.plc_epochs.specs.declared.cold_start.Step.{Step as Taken};
ghost use Rattle.plc_epochs.specs.declared.kept.Kept.{Kept as Has};
ghost use Rattle.plc_epochs.specs.declared.recovery.Recovery.{Recovery as Recovers};
ghost use Rattle.plc_epochs.specs.declared.word.Word.{Word as Said};

/// No step lets the store of a machine go back: it's never to have an epoch before one that it had, and an epoch that
/// was begun is never entered again.
pub fn no_store_goes_back()
    ensures looks { (now : ℕ) (a b : Machine) (step : Taken) → table.Looks now a step b → StoreGoesOn a b }
    ensures stores { (has : Has) (a b : Machine) (step : Taken) → table.Stores has a step b → StoreGoesOn a b }
    ensures hello { (from now : ℕ) (epoch : Numbered) (a b : Machine) (step : Taken)
        → table.HearsHello from epoch now a step b → StoreGoesOn a b }
    ensures sign { (from now : ℕ) (epoch : Numbered) (a b : Machine) (step : Taken)
        → table.HearsSign from epoch now a step b → StoreGoesOn a b }
    ensures recovery { (from now : ℕ) (epoch : Numbered) (a b : Machine) (step : Taken)
        → table.HearsRecovery from epoch now a step b → StoreGoesOn a b }
    ensures word { (from now : ℕ) (epoch : Numbered) (word : Said) (a b : Machine) (step : Taken)
        → table.HearsWord from epoch word now a step b → StoreGoesOn a b }
{}

/// A machine that is frozen stays so, and its replica doesn't recover, until it recovers anew, under a nonce that it
/// never used, or leaves its epoch.
pub fn who_is_frozen_stays_so()
    ensures recovered { (epoch : Numbered) (r : Recovers) → is_some r.frozen ≡ true
        → table.recovered_in (Recovering epoch r) ≡ Recovering epoch r }
    ensures looks { (now : ℕ) (epoch : Numbered) (r : Recovers) (a b : Machine) (step : Taken)
        → a.phase ≡ Recovering epoch r → is_some r.frozen ≡ true → table.Looks now a step b
        → StaysFrozen epoch r.nonce b.phase }
    ensures stores { (has : Has) (epoch : Numbered) (r : Recovers) (a b : Machine) (step : Taken)
        → a.phase ≡ Recovering epoch r → is_some r.frozen ≡ true → table.Stores has a step b
        → StaysFrozen epoch r.nonce b.phase }
    ensures hello { (from now : ℕ) (epoch other : Numbered) (r : Recovers) (a b : Machine) (step : Taken)
        → a.phase ≡ Recovering epoch r → is_some r.frozen ≡ true → table.HearsHello from other now a step b
        → StaysFrozen epoch r.nonce b.phase }
    ensures sign { (from now : ℕ) (epoch other : Numbered) (r : Recovers) (a b : Machine) (step : Taken)
        → a.phase ≡ Recovering epoch r → is_some r.frozen ≡ true → table.HearsSign from other now a step b
        → StaysFrozen epoch r.nonce b.phase }
    ensures recovery { (from now : ℕ) (epoch other : Numbered) (r : Recovers) (a b : Machine) (step : Taken)
        → a.phase ≡ Recovering epoch r → is_some r.frozen ≡ true → table.HearsRecovery from other now a step b
        → StaysFrozen epoch r.nonce b.phase }
    ensures word { (from now : ℕ) (epoch other : Numbered) (word : Said) (r : Recovers) (a b : Machine) (step : Taken)
        → a.phase ≡ Recovering epoch r → is_some r.frozen ≡ true → table.HearsWord from other word now a step b
        → StaysFrozen epoch r.nonce b.phase }
{}

/// No hello, of whatever epoch, changes a machine in whose epoch a majority takes part: itself with f others, or f+1
/// others where it recovers.
pub fn no_hello_ends_a_group()
    ensures { (from now : ℕ) (epoch : Numbered) (a b : Machine) (step : Taken) → table.goes_on a now ≡ true
        → table.HearsHello from epoch now a step b → b ≡ a }
{}
