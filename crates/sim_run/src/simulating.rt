//! A run of the group of a file by a seed, and what is printed of it.

ghost use Rattle.std.specs.Prelude.{◌≡◌, ◌≤◌, ◌⊎◌, IfOk, IfSome, None, string_bytes};
ghost use Rattle.std.specs.Io.KnownBytes.{Appends};
ghost use Rattle.il_text.specs.Telling.{Puts, WentOut};
ghost use Rattle.sim_run.specs.Told.{EndsRight, difference_line, summary_line};

use crate::group::setup_of_group;
use crate::inputs::Inputs;
use crate::kinds::Kinds;
use crate::limits::Limits;
use crate::summary::Summary;
use crate::telling::{DifferenceLine, SummaryLine, TraceLine};
use crate::trial::Trial;
use crate::world::World;
use il_text::{Fault, ended, image, put, tell};
use io_model::{CountedWrite, write_all};
use net_hello::Epoch;
use net_peers::FIRST_CONSOLE;
use plc_group::Group;
use sim_checker::Wrong;
use sim_machine::Program;
use sim_time::SECOND;
use std::alloc::{AllocError, Global};
use vr_model::ClientNumber;

/// An hour, in microseconds.
const HOUR: u64 = 3600 * SECOND;

/// What is asked of a run.
#[derive(Clone, Copy)]
pub struct Run {
    pub seed: u64,
    /// So long it is, in virtual time.
    pub hours: u64,
    /// It ends behind so many steps, if that is before.
    pub steps: Option<u64>,
    /// Whether what happens is printed.
    pub is_traced: bool,
    pub kinds: Kinds,
}

/// The group of a file that runs the program of a text, by a run's seed.
fn world_of(
    alloc: Global,
    text: &[u8],
    group: &Group,
    run: &Run,
) -> Result<Option<Box<World>>, Fault> {
    let image = image(alloc, text)?;
    let Some(operator) = ClientNumber::new(FIRST_CONSOLE) else {
        return Ok(None);
    };
    let mut setup = setup_of_group(run.seed, group, &run.kinds);
    setup.is_told = run.is_traced;
    let trial = Trial {
        kinds: run.kinds,
        limits: Limits::of(&setup),
        resets: true,
    };
    let inputs = Inputs::of(&image, run.seed);
    let program = Program {
        image,
        budget: group.budget,
        epoch: Epoch {
            number: 1,
            image: [7; 32],
        },
    };
    let program = Box::new(alloc, program)?;
    let world = World::new(alloc, setup, trial, program, operator, inputs)?;
    Ok(Some(world))
}

/// Writes the lines of what happened in the last step.
fn put_lines<W: CountedWrite>(alloc: Global, world: &mut World, out: &mut W) -> Result<(), Fault> {
    let step = world.steps();
    for line in world.lines() {
        let shown = TraceLine(step, line);
        let text = format!(in alloc; "{shown}\n")?;
        write_all(out, text.as_bytes())?;
    }
    world.forget_lines();
    Ok(())
}

/// Goes on for so many steps, until that time or until something is wrong; each step's lines are written.
fn trace<W: CountedWrite>(
    alloc: Global,
    world: &mut World,
    until: u64,
    steps: u64,
    out: &mut W,
) -> Result<(), Fault> {
    for _ in 0..steps {
        if world.is_over(until) {
            return Ok(());
        }
        world.go_on(until, 1)?;
        put_lines(alloc, world, out)?;
    }
    Ok(())
}

/// What was seen of a run, until its end or until something is wrong.
fn seen_of<W: CountedWrite>(
    alloc: Global,
    text: &[u8],
    group: &Group,
    run: &Run,
    out: &mut W,
) -> Result<Summary, Fault> {
    let Some(mut world) = world_of(alloc, text, group, run)? else {
        return Err(Fault::Memory);
    };
    let until = run.hours.saturating_mul(HOUR);
    let steps = run.steps.unwrap_or(u64::MAX);
    world.begin()?;
    if run.is_traced {
        trace(alloc, &mut world, until, steps, out)?;
    } else {
        world.go_on(until, steps)?;
    }
    Ok(world.summary())
}

/// The line of a run that is as the table says, with its end.
fn line_of(alloc: Global, summary: &Summary) -> Result<String, AllocError>
    ensures { IfOk result (λ line. string_bytes line ≡ summary_line summary.now) }
{
    let shown = SummaryLine(summary);
    format!(in alloc; "{shown}\n")
}

/// Writes a text that was made in memory.
fn put_text<W: CountedWrite>(text: &str, out: &mut W) -> Result<(), Fault>
    ensures { Puts W.CountedWrite text.now out.old out.new result }
{
    Ok(write_all(out, text.as_bytes())?)
}

/// Writes the line of a run that is as the table says.
fn put_summary<W: CountedWrite>(alloc: Global, summary: &Summary, out: &mut W) -> Result<(), Fault>
    ensures { Puts W.CountedWrite (summary_line summary.now) out.old out.new result }
{
    let line = line_of(alloc, summary)?;
    put_text(line.as_str(), out)
}

/// The line of what is wrong of a run, with its end.
fn difference_of(alloc: Global, summary: &Summary, wrong: Wrong) -> Result<String, AllocError>
    ensures { IfOk result (λ line. string_bytes line ≡ difference_line summary.now wrong) }
{
    let shown = DifferenceLine(summary, wrong);
    format!(in alloc; "{shown}\n")
}

/// Tells what is wrong of a run, and answers the status.
fn tell_wrong<E: CountedWrite>(alloc: Global, summary: &Summary, wrong: Wrong, err: &mut E) -> u8
    ensures status { (result ≡ 1) ⊎ (result ≡ 2) }
    ensures told { result ≡ 1 → WentOut E.CountedWrite (difference_line summary.now wrong) err.old err.new }
{
    match difference_of(alloc, summary, wrong) {
        Ok(line) => {
            // Where standard error fails too, the status is all that is left.
            let _ = put(err, line.as_bytes());
            1
        }
        Err(_) => tell(Fault::Memory, err),
    }
}

/// Writes or tells what a run came to, and answers the status.
fn conclude<W: CountedWrite, E: CountedWrite>(
    alloc: Global,
    summary: &Summary,
    out: &mut W,
    err: &mut E,
) -> u8
    ensures status { result ≤ 2 }
    ensures right { result ≡ 0 → (summary.now.wrong ≡ None)
        × Appends (W.held out.old) (W.held out.new) (summary_line summary.now) }
    ensures wrong { result ≡ 1 → IfSome summary.now.wrong (λ wrong.
        WentOut E.CountedWrite (difference_line summary.now wrong) err.old err.new) }
{
    match summary.wrong {
        Some(wrong) => tell_wrong(alloc, summary, wrong, err),
        None => ended(put_summary(alloc, summary, out), err),
    }
}

/// Runs the group of a file, each machine of which runs the program of a text, by virtual time, and answers the status.
/// 0 where all that was seen is as the table says: the last line on `out` tells what was seen. 1 with the first thing
/// that is wrong on `err`, or the text's first fault. 2 where `out` failed or memory ran out, which is told. Before it
/// what happens is written on `out`, a line each, where that's asked for.
pub fn simulate<W: CountedWrite, E: CountedWrite>(
    alloc: Global,
    text: &[u8],
    group: &Group,
    run: &Run,
    out: &mut W,
    err: &mut E,
) -> u8
    ensures status { result ≤ 2 }
    ensures right { result ≡ 0 → EndsRight (W.held out.new) }
{
    match seen_of(alloc, text, group, run, out) {
        Ok(summary) => conclude(alloc, &summary, out, err),
        Err(fault) => tell(fault, err),
    }
}
