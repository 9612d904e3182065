//! What a restart comes to in the words of the rules. What serving comes to is said in `laws_threads`.

ghost use Rattle.std.specs.Prelude.{◌≡◌, ℕ, List, ◌++◌, Some, true, false};
ghost use Rattle.il_model.specs.declared.command.Command.{Command};
ghost use Rattle.il_model.specs.declared.command.Answer.{Answer};
ghost use Rattle.vr_model.specs.declared.event.Event.TheVariants as event;
ghost use Rattle.vr_model.specs.declared.event.Stored.{Stored};
ghost use Rattle.vr_model.specs.Membership.{Membership};
ghost use Rattle.vr_model.specs.Replicas.{is_down};
ghost use Rattle.vr_model.specs.Stores.{KnownState, Observation};
ghost use Rattle.vr_replica.specs.declared.state.Replica.{Replica};
ghost use Rattle.vr_replica.specs.Standing.{StandsFor};
ghost use Rattle.vr_replica.specs.Stepped.{StepResult};
ghost use Rattle.vr_serving.specs.Serving.{StepsTo, sends_in};
ghost use Rattle.vr_threads.specs.Observed.{AreRight, known_after, Restarted};

use vr_replica::ViewStore;

/// What a restart did, of a replica that is down, with a nonce that it never used, is an observation or none that goes
/// on from whatever is known of it, where the store loads what it may keep.
pub fn restart_is_observed<S: ViewStore>()
    ensures { (q r : Replica) (s t : S) (nonce : ℕ) (result : StepResult) (m : Membership) (known : KnownState Command)
        → StepsTo S.load_gives S.save_gives S.faults q s (event.Restart nonce) r t result → StandsFor q m known.replica
        → is_down known.replica.status ≡ true → known.used nonce ≡ false
        → ((stored : Stored) → S.load_gives s (Some stored) t → known.may_keep stored.view ≡ true)
        → Restarted m known nonce r (sends_in result) }
{}

/// Observations that go on from where others end join with them to one list. So one replica's lists join, of one
/// serving after another.
#[tactic(auto, using(crate::proofs::Observing::join))]
pub fn observations_join()
    ensures { (m : Membership) (known : KnownState Command) (early late : List (Observation Command Answer))
        → AreRight m known early → AreRight m (known_after m known early) late
        → AreRight m known (early ++ late)
        × (known_after m known (early ++ late) ≡ known_after m (known_after m known early) late) }
{}
