//! What is printed of a run.

use sim_checker::{Line, Tally};
use sim_machine::Setup;
use sim_run::World;
use sim_time::{MS, SECOND};
use std::io;

/// Where something is wrong, what happened in so long a time before is printed.
const TOLD: u64 = 20 * SECOND;

/// Prints what was counted of a run.
fn tell_tally(rt: &HostRuntime, tally: &Tally) -> io::Result<()> {
    let Tally {
        faults,
        takeovers,
        cold_starts,
        lost_disks,
        releases,
        ..
    } = *tally;
    let takeover = tally.longest_takeover / MS;
    let cold = tally.longest_cold / MS;
    let heal = tally.longest_heal / MS;
    let gap = tally.longest_gap / MS;
    println!(rt; "  {faults} faults, {lost_disks} disks lost; well again within {heal} ms")?;
    println!(rt;
        "  {takeovers} takeovers within {takeover} ms, {cold_starts} cold starts within {cold} ms"
    )?;
    println!(rt; "  {releases} releases, longest gap {gap} ms")
}

/// Prints what happened last in a run, until now.
fn tell_lines(rt: &HostRuntime, lines: &[Line], now: u64) -> io::Result<()> {
    for line in lines {
        if line.time.saturating_add(TOLD) > now {
            let (ms, part) = (line.time / MS, line.time % MS);
            let (machine, what, number) = (line.machine, line.what, line.number);
            println!(rt; "  {ms}.{part:03} {machine} {what:?} {number}")?;
        }
    }
    Ok(())
}

/// Prints which group ran how long.
fn tell_group(rt: &HostRuntime, setup: &Setup, now: u64) -> io::Result<()> {
    let (seed, size, period) = (setup.seed, setup.size(), setup.period / MS);
    let (latency, every) = (setup.latency, setup.every);
    let seconds = now / SECOND;
    println!(rt;
        "seed {seed}: {seconds} s of {size} machines, a scan each {period} ms, latency {latency} us, every {every}"
    )
}

/// Prints a run: whether all is as the table says.
pub(crate) fn tell_run(rt: &HostRuntime, world: &World) -> io::Result<bool> {
    let summary = world.summary();
    let (now, sum) = (summary.time, summary.sum);
    tell_group(rt, &summary.setup, now)?;
    tell_tally(rt, &summary.tally)?;
    match summary.wrong {
        Some(wrong) => {
            let ms = now / MS;
            println!(rt; "  WRONG at {ms} ms: {wrong:?}")?;
            tell_lines(rt, world.lines(), now)?;
            Ok(false)
        }
        None => {
            println!(rt; "  as the table says; sum {sum:016x}")?;
            Ok(true)
        }
    }
}
