//! The run of a schedule.

ghost use Rattle.std.specs.Prelude.{◌≡◌, MatchResult};
ghost use Rattle.vr_model.specs.Membership.{Group};
ghost use Rattle.vr_schedules.specs.Traces.{Laws, AreNew, IsTraced, Fails};

use crate::event::WorldEvent;
use crate::fault::WorldError;
use crate::member::Member;
use crate::trace::Trace;
use crate::world::World;
use il_model::{Answer, Command};
use std::alloc::Global;
use vr_model::Config;

/// What is known of every run: the laws of `laws_history`.
fn laws()
    ensures { Laws }
{
    laws_history::one_history::<Command, Answer>();
    laws_history::rules_keep_executed::<Command, Answer>();
    laws_history::new_states_hand_logs_on::<Command, Answer>();
    laws_history::commits_what_it_had::<Command, Answer>();
    laws_history::report_explains::<Command, Answer>();
}

/// Runs a schedule over a group of new replicas, one for each number.
///
/// The trace is the report of a run of the schedule: each event is done, or is lost for want of memory where it may be,
/// and `lost` has exactly those that were. The report explains the run: `order` is the one list of requests that was
/// committed, `lengths` says how long it was after each event and never falls, each request stands in it once and was
/// submitted before, and every release has the answer of the commands up to its request's place in it.
///
/// `BadSchedule` is the answer exactly where an event has no step in such a run: the first one, and the lowest reason.
/// Where memory runs out for what the run itself keeps, there is no trace.
pub fn run_schedule<M: Member>(
    alloc: Global,
    config: Config,
    members: Vec<M>,
    events: &[WorldEvent],
) -> Result<Trace, WorldError>
    ensures { (g : Group) → g.f ≡ config.f → AreNew M.StandsFor g members.items
        → MatchResult result (IsTraced M.IsSavedAs g events.now) (Fails g events.now) }
{
    laws();
    let mut world = World::new(alloc, config, members)?;
    for (index, event) in events.iter().enumerate() {
        if let Err(fault) = world.happen(alloc, event) {
            return Err(fault.at(index));
        }
    }
    Ok(world.trace)
}
