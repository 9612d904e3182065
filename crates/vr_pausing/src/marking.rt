//! What a replica is beside its log.

ghost use Rattle.std.specs.Prelude.{◌≡◌};
ghost use Rattle.il_model.specs.declared.command.Command.{Command};
ghost use Rattle.vr_model.specs.Membership.{Membership};
ghost use Rattle.vr_model.specs.Replicas.{Normal, ReplicaState};
ghost use Rattle.vr_core.specs.StandsFor.{StandsFor};
ghost use Rattle.vr_pausing.specs.Bases.{IsBaseOf};

use vr_core::Core;
use vr_model::MOST_REPLICAS;

/// What a normal replica is beside its log.
#[derive(Clone, Copy, Debug)]
pub struct Marks {
    pub view: u64,
    pub commit_number: u64,
    pub last_normal_view: u64,
    pub stored_view: u64,
    pub acknowledged: [u64; MOST_REPLICAS],
    pub start_view_changes: [bool; MOST_REPLICAS],
    pub sent_do_view_change: bool,
    pub nonce: u64,
}

/// What it is beside its log, while it's normal.
pub fn marks_of(core: &Core) -> Marks
    ensures { (w : Membership) (r : ReplicaState Command) → StandsFor core.now w r → r.status ≡ Normal
        → IsBaseOf result core.now.log w r }
{
    let acknowledged = core.acknowledged;
    let start_view_changes = core.start_view_changes;
    Marks {
        view: core.view,
        commit_number: core.commit_number,
        last_normal_view: core.last_normal_view,
        stored_view: core.stored_view,
        acknowledged,
        start_view_changes,
        sent_do_view_change: core.sent_do_view_change,
        nonce: core.nonce,
    }
}
