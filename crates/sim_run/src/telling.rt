//! The lines that a run prints.

ghost use Rattle.std.specs.Prelude.{◌≡◌, Some};
ghost use Rattle.std.specs.Fmt.{DisplaysOnOk};
ghost use Rattle.sim_run.specs.Told.{cold_starts_text, difference_text, event_word, faults_text, releases_text};
ghost use Rattle.sim_run.specs.Told.{scans_text, seen_text, summary_text, trace_text, wrong_words};

use crate::summary::Summary;
use sim_checker::{Line, What, Wrong};
use std::fmt;

/// What was seen of a run that is as the table says, without its line's end.
#[derive(Clone, Copy)]
pub struct SummaryLine<'a>(pub &'a Summary);

impl fmt::Display for SummaryLine<'_> {
    ghost output = { λ line. Some (summary_text line.0.now) };

    fn fmt<W: fmt::Write>(&self, f: &mut fmt::Formatter<W>) -> fmt::Result {
        let summary = self.0;
        let (seed, ms) = (summary.setup.seed, summary.time / 1000);
        let steps = summary.tally.happenings;
        write!(f, "seed {seed} ran {ms} ms in {steps} steps: ")?;
        seen(f, summary)
    }
}

/// So many machines a run has, and what was seen of them.
fn seen<W: fmt::Write>(f: &mut fmt::Formatter<W>, summary: &Summary) -> fmt::Result
    ensures { DisplaysOnOk W.write_str_gives f.old result (Some (seen_text summary.now)) f.new }
{
    let machines = summary.setup.config.group_size();
    write!(f, "{machines} machines, ")?;
    scanned(f, summary)
}

/// So many scans there are, and what was released.
fn scanned<W: fmt::Write>(f: &mut fmt::Formatter<W>, summary: &Summary) -> fmt::Result
    ensures { DisplaysOnOk W.write_str_gives f.old result (Some (scans_text summary.now)) f.new }
{
    let scans = summary.scans;
    write!(f, "{scans} scans, ")?;
    released(f, summary)
}

/// What they released, and what befell them.
fn released<W: fmt::Write>(f: &mut fmt::Formatter<W>, summary: &Summary) -> fmt::Result
    ensures { DisplaysOnOk W.write_str_gives f.old result (Some (releases_text summary.now)) f.new }
{
    let releases = summary.tally.releases;
    write!(f, "{releases} releases as the table says, ")?;
    befell(f, summary)
}

/// What befell the machines of a run, and how soon another one led.
fn befell<W: fmt::Write>(f: &mut fmt::Formatter<W>, summary: &Summary) -> fmt::Result
    ensures { DisplaysOnOk W.write_str_gives f.old result (Some (faults_text summary.now)) f.new }
{
    let (faults, takeovers) = (summary.tally.faults, summary.tally.takeovers);
    let longest = summary.tally.longest_takeover / 1000;
    write!(
        f,
        "{faults} faults, {takeovers} takeovers within {longest} ms, "
    )?;
    began_anew(f, summary)
}

/// How often the machines of a run began anew, how soon, and in which epoch they are.
fn began_anew<W: fmt::Write>(f: &mut fmt::Formatter<W>, summary: &Summary) -> fmt::Result
    ensures { DisplaysOnOk W.write_str_gives f.old result (Some (cold_starts_text summary.now)) f.new }
{
    let (colds, epoch) = (summary.tally.cold_starts, summary.epoch);
    let longest = summary.tally.longest_cold / 1000;
    write!(f, "{colds} cold starts within {longest} ms, epoch {epoch}")
}

/// The first thing that is wrong of a run, with the seed and the step at which it was seen, without its line's end.
#[derive(Clone, Copy)]
pub struct DifferenceLine<'a>(pub &'a Summary, pub Wrong);

impl fmt::Display for DifferenceLine<'_> {
    ghost output = { λ line. Some (difference_text line.0.now line.1) };

    fn fmt<W: fmt::Write>(&self, f: &mut fmt::Formatter<W>) -> fmt::Result {
        let (seed, step) = (self.0.setup.seed, self.0.tally.happenings);
        let words = words_of(self.1);
        write!(f, "plc: seed {seed} step {step} {words}")
    }
}

/// What is wrong, in words.
fn words_of(wrong: Wrong) -> &'static str
    ensures { result.now ≡ wrong_words wrong }
{
    match wrong {
        Wrong::TwoHistories => "two histories",
        Wrong::Unseen => "unseen",
        Wrong::InputsFellBack => "inputs fell back",
        Wrong::MomentFellBack => "moment fell back",
        Wrong::MomentJumped => "moment jumped",
        Wrong::OtherOutput => "other output",
        Wrong::ReadWentBack => "read went back",
        Wrong::SlowTakeover => "slow takeover",
        Wrong::NoOutputs => "no outputs",
        Wrong::NotNormal => "not normal",
        Wrong::Hangs => "hangs",
        Wrong::Refused => "store refused",
        Wrong::SlowColdStart => "slow cold start",
    }
}

/// Something that happened in the step of this number, without its line's end.
#[derive(Clone, Copy)]
pub struct TraceLine<'a>(pub u64, pub &'a Line);

impl fmt::Display for TraceLine<'_> {
    ghost output = { λ line. Some (trace_text line.0 line.1.now) };

    fn fmt<W: fmt::Write>(&self, f: &mut fmt::Formatter<W>) -> fmt::Result {
        let (step, line) = (self.0, self.1);
        let (time, machine, number) = (line.time, line.machine, line.number);
        let word = word_of(line.what);
        write!(f, "{step} {time} {machine} {word} {number}")
    }
}

/// The word of what happened.
fn word_of(what: What) -> &'static str
    ensures { result.now ≡ event_word what }
{
    match what {
        What::Boots => "boots",
        What::Killed => "killed",
        What::Leaves => "leaves",
        What::Opens => "opens",
        What::Closes => "closes",
        What::Normal => "normal",
        What::Changes => "changes",
        What::Recovers => "recovers",
        What::Down => "down",
        What::Crash => "crash",
        What::Power => "power",
        What::Pause => "pause",
        What::Stop => "stop",
        What::Loss => "loss",
        What::Delay => "delay",
        What::Reorder => "reorder",
        What::Cut => "cut",
        What::OneWay => "one-way",
        What::Isolate => "isolate",
        What::DiskFull => "disk-full",
        What::DiskSlow => "disk-slow",
        What::DiskReadOnly => "disk-read-only",
        What::Heals => "heals",
        What::Strikes => "strikes",
        What::Dark => "dark",
        What::DiskLost => "disk-lost",
        What::Fails => "fails",
        What::Reached => "reached",
    }
}
