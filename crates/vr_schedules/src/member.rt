//! What a replica of a schedule does.

use crate::store::MemoryStore;
use std::alloc::{AllocError, Global};
use vr_model::{Event, Request, Sends};

/// A replica of a group, over a store in memory.
pub trait Member: Drop {
    ghost use Rattle.std.specs.Prelude.{◌≡◌, ◌<◌, ◌⊎◌, ℕ, List, [], true, false, None, Some, MatchResult, MatchOption};
    ghost use Rattle.std.specs.List.{slice_get};
    ghost use Rattle.il_model.specs.declared.command.Command.{Command};
    ghost use Rattle.il_model.specs.Snapshots.{SavedController};
    ghost use Rattle.il_model.specs.Program.{Program};
    ghost use Rattle.vr_model.specs.Replicas.{ReplicaState, is_down};
    ghost use Rattle.vr_model.specs.World.{down};
    ghost use Rattle.vr_model.specs.StandsFor.{request_of};
    ghost use Rattle.vr_model.specs.Membership.{Membership};
    ghost use Rattle.vr_schedules.specs.Members.{Taken, IsTaken, Does, by_rules, KeepsExecuted, FitsTaken};

    // A controller that began with this program and has this budget is saved as this after these commands.
    ghost IsSavedAs: { Program → ℕ → List Command → SavedController → Type 0 };

    // The member stands for this record of the rules, as this member of its group.
    ghost StandsFor: { Self → Membership → ReplicaState Command → Type 0 };

    /// Takes an event up, and answers what it sends: what its rule gives, where that keeps what was executed and the
    /// checkpoint of a NEWSTATE is of the log that the rule makes of it. It sends nothing where it is down and the
    /// event is no restart, where it is up and the event is a restart, and where its store fails; then it is down. It
    /// fails only where memory ran out and the rule changes it or sends; then it is as it was, and the store may keep
    /// the view that the rule saves.
    fn step(
        &mut self,
        alloc: Global,
        event: Event,
        store: &mut MemoryStore,
    ) -> Result<Sends, AllocError>
        ensures { (m : Membership) (r : ReplicaState Command) (t : Taken) → StandsFor self.old m r
            → IsTaken IsSavedAs m event t → KeepsExecuted m r t → FitsTaken IsSavedAs m r event t → MatchResult result
            (λ sends. Does IsSavedAs m (StandsFor self.new m) r store.old store.new
            (by_rules m store.old.view r t) false sends.items)
            (λ _. Does IsSavedAs m (StandsFor self.new m) r store.old store.new
            (by_rules m store.old.view r t) true []) };

    /// A crash: it is down, and has lost all but its store.
    fn crash(&mut self, alloc: Global)
        ensures { (m : Membership) (r : ReplicaState Command) → StandsFor self.old m r
            → StandsFor self.new m (down r) };

    /// Whether it is down.
    fn is_down(&self) -> bool
        ensures { (m : Membership) (r : ReplicaState Command) → StandsFor self.now m r → result ≡ is_down r.status };

    /// How many entries of its log it has executed.
    fn commit(&self) -> u64
        ensures { (m : Membership) (r : ReplicaState Command) → StandsFor self.now m r → result ≡ r.commit_number };

    /// The entry of its log at this place; of those that it has executed it may have no more than what they left.
    fn entry(&self, place: u64) -> Option<&Request>
        ensures { (m : Membership) (r : ReplicaState Command) → StandsFor self.now m r
            → MatchOption result ((slice_get r.log place ≡ None) ⊎ (place < r.commit_number))
            (λ x. slice_get r.log place ≡ Some (request_of x.now)) };
}
