//! Runs groups of machines by virtual time, from seeds, and says of each whether all that happened is as the table
//! says. A seed gives the same run each time, to the bit.
//!
//! ```text
//! sim_group 1..20                      twenty groups for 60 virtual seconds each, with faults
//! sim_group seconds=10 calm 1..6       six groups without faults
//! sim_group f=2 latency=300 trace 7    one group of five machines, and what happened
//! ```
//!
//! Words: `calm` or `faults`; `trace`; `seconds=`, `f=` (1 to 3), `period=` (ms), `latency=` (microseconds, one way),
//! `every=` (entries between checkpoints), `drift=` (millionths by which clocks differ at most): for the seeds behind
//! them. What isn't said is drawn by the seed, so a seed is a run only together with these words. Some lines for each
//! seed; status 1 where something is wrong, 2 where a word is none of these.
//!
//! What a run is made of, and what is checked at each of its steps, is at the head of `sim_run`. Each call is safe and
//! returns; all else is by its code alone.
#![tactic(auto)]

mod report;
mod words;

use crate::report::tell_run;
use crate::words::{Said, Words};
use il_model::Budget;
use net_hello::Epoch;
use net_peers::FIRST_CONSOLE;
use sim_machine::{Asked, Program, Setup, setup_of};
use sim_run::{Inputs, Kinds, Limits, Trial, World};
use sim_time::SECOND;
use std::alloc::Global;
use std::process::ExitCode;
use std::{env, io};
use vr_model::ClientNumber;

/// Counts its scans and shows what was written.
const PROGRAM: &[u8] = b"VAR
n : INT;
END_VAR
LD n
ADD 1
MOD 30000
ST n
ST %QW0
LD %IW0
ST %QW1
LD %IW1
ST %QW2
";

/// What each group runs.
fn program(alloc: Global) -> Option<Box<Program>> {
    let budget = Budget::new(10_000)?;
    let program = Program {
        image: il_text::image(alloc, PROGRAM).ok()?,
        budget,
        epoch: Epoch {
            number: 1,
            image: [7; 32],
        },
    };
    Box::new(alloc, program).ok()
}

/// What befalls a group: the faults of the seeds that are stored.
fn trial_of(setup: &Setup) -> Trial {
    Trial {
        kinds: Kinds::standard(),
        limits: Limits::of(setup),
        resets: false,
    }
}

/// The group of a seed; none where no group is so, or memory runs out.
fn world_of(alloc: Global, seed: u64, asked: &Asked) -> Option<Box<World>> {
    let setup = setup_of(seed, asked)?;
    let operator = ClientNumber::new(FIRST_CONSOLE)?;
    let trial = trial_of(&setup);
    let inputs = Inputs::counted_at(0);
    World::new(alloc, setup, trial, program(alloc)?, operator, inputs).ok()
}

/// Runs a seed, until that virtual time or until something is wrong: whether all is as the table says. None where there
/// is no such group, or memory runs out.
fn run_seed(rt: &HostRuntime, words: &Words, seed: u64) -> io::Result<Option<bool>> {
    let Some(mut world) = world_of(rt.alloc(), seed, &words.asked) else {
        return Ok(None);
    };
    match world.run(words.seconds.saturating_mul(SECOND)) {
        Ok(()) => Ok(Some(tell_run(rt, &world)?)),
        Err(_) => Ok(None),
    }
}

/// Runs these seeds: whether all is as the table says.
fn run_seeds(rt: &HostRuntime, words: &Words, first: u64, last: u64) -> io::Result<bool> {
    let mut is_right = true;
    for seed in first..=last {
        let is_so = run_seed(rt, words, seed)?;
        if is_so.is_none() {
            println!(rt; "seed {seed}: no run")?;
        }
        is_right = is_right && is_so == Some(true);
    }
    Ok(is_right)
}

fn main(rt: HostRuntime) -> io::Result<ExitCode> {
    let given: Vec<String> = env::args(&rt)?.collect(rt.alloc())?;
    let mut words = Words::new();
    let mut is_right = true;
    for word in given.iter().skip(1) {
        match words.take(word.as_str()) {
            Said::Set => {}
            Said::Seeds(first, last) => {
                is_right = run_seeds(&rt, &words, first, last)? && is_right;
            }
            Said::Unknown => {
                println!(rt; "no word of a call: {word}")?;
                return Ok(ExitCode::from(2));
            }
        }
    }
    Ok(if is_right {
        ExitCode::SUCCESS
    } else {
        ExitCode::from(1)
    })
}
