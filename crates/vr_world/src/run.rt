//! The run of a schedule.

ghost use Rattle.std.specs.Prelude.{IfOk, MatchResult};
ghost use Rattle.vr_core.specs.StandsFor.{group_of, IsSavedAs};
ghost use Rattle.vr_replica.specs.Standing.{StandsFor};
ghost use Rattle.vr_schedules.specs.Traces.{AreNew, IsTraced, Fails};
ghost use Rattle.ctl_debugger.specs.Outcome.{answers_of};
ghost use Rattle.vr_world.specs.History.{IsOneHistory};

use crate::seat::Seat;
use il_loader::Image;
use il_model::Budget;
use std::alloc::{AllocError, Global};
use vr_model::Config;
use vr_replica::Replica;
use vr_schedules::{Trace, WorldError, WorldEvent, run_schedule};

/// The new replicas of a group, one for each number.
fn group(
    alloc: Global,
    config: Config,
    image: &Image,
    budget: Budget,
) -> Result<Vec<Seat>, AllocError>
    ensures { IfOk result (λ seats. AreNew (λ seat. StandsFor seat.replica)
        (group_of config.f image.now budget.instructions) seats.items) }
{
    let mut seats = Vec::new(alloc);
    for number in 0..config.group_size() {
        let replica = Replica::new(alloc, config, number, image.copy(alloc)?, budget)?;
        seats.push(Seat { replica })?;
    }
    Ok(seats)
}

/// Runs a schedule over a group of new replicas of a program, each scan within the budget.
///
/// Whatever is submitted, delivered, lost, repeated, timed out, crashed and restarted, there is one list of the
/// clients' commands, which grows and is never revised and has each command at most once, such that every answer that
/// is released is the one that the table of commands gives at that command's place in the list for the program in force
/// there: the image's, and from a change that is `Done` on the one that it brought. The trace has that list, how long
/// it was after each event, the releases, all messages that were sent and the events that were lost for want of memory.
///
/// `BadSchedule` is answered exactly where an event can't take place: the first one, and the lowest reason. Where
/// memory runs out for what the run itself keeps there is no trace.
pub fn run_world(
    alloc: Global,
    config: &Config,
    image: &Image,
    budget: Budget,
    events: &[WorldEvent],
) -> Result<Trace, WorldError>
    ensures history { IfOk result (IsOneHistory (answers_of image.now budget.instructions) events.now) }
    ensures traced { MatchResult result
        (IsTraced IsSavedAs (group_of config.now.f image.now budget.instructions) events.now)
        (Fails (group_of config.now.f image.now budget.instructions) events.now) }
{
    let seats = group(alloc, *config, image, budget)?;
    run_schedule(alloc, *config, seats, events)
}
