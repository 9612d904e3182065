//! The calls of the program, over byte slices and writers, each answering the status.

ghost use Rattle.std.specs.Prelude.{◌≡◌, ◌≤◌, ◌⊎◌, List};
ghost use Rattle.io_model.specs.Streams.{Failed};
ghost use Rattle.plc_tool.specs.Calls.{IsAssembled, IsAssemblyCutShort, IsListed, IsCutShort};
ghost use Rattle.il_text.specs.Meaning.{IsTextFault, IsImageFault, IsRefused, IsFirstFault};
ghost use Rattle.plc_json.specs.declared.command.NamedCommand.{NamedCommand};
ghost use Rattle.plc_json.specs.declared.event.NamedEvent.{NamedEvent};
ghost use Rattle.plc_json.specs.Commands.{HasCommands};
ghost use Rattle.plc_json.specs.Events.{HasSchedule};
ghost use Rattle.plc_tool.specs.Calls.{IsRun, IsRunCutShort, IsFaultOfRun};
ghost use Rattle.plc_tool.specs.Simulated.{IsSimulated, IsReplicated, IsReportCutShort, IsToldOf};
ghost use Rattle.plc_tool.specs.Simulated.{IsFaultOfSchedule};
ghost use Rattle.il_text.specs.Telling.{status_of as status_told, EndsTold, StopsShort, WentOut, fault_line};
ghost use Rattle.il_text.specs.declared.fault.Fault as told;

use crate::assembly::put_image;
use crate::fault::fault_of;
use crate::listing::put_listing;
use crate::running::put_run;
use crate::simulating::{Group, put_report};
use il_model::Budget;
use il_text::{Fault, ended, image, tell};
use io_model::CountedWrite;
use plc_json::{JsonFault, NamedCommand, NamedEvent};
use std::alloc::Global;

/// Assembles a source and answers the status: the bytes of its image on `image_out`, and then on `out` one line that
/// tells how many words the image has, those of arguments too; or one line on `err` for the first fault. Of a source
/// that is refused nothing is written. It answers 2 for a device only where one of the two failed in this call: that of
/// the image after a prefix of it, or the other after the whole image and a prefix of the line. Whoever owns the two
/// flushes them.
pub fn asm<I: CountedWrite, W: CountedWrite, E: CountedWrite>(
    alloc: Global,
    source: &[u8],
    image_out: &mut I,
    out: &mut W,
    err: &mut E,
) -> u8
    ensures status { result ≤ 2 }
    ensures assembled { result ≡ 0 → IsAssembled source.now
        (I.held image_out.old) (I.held image_out.new) (W.held out.old) (W.held out.new) }
    ensures refused { result ≡ 1
        → IsRefused (IsTextFault source.now) × (image_out.new ≡ image_out.old) × (out.new ≡ out.old) }
    // A device is told only where a writer failed in this call. Where memory ran out, nothing was written.
    ensures cut { result ≡ 2 → StopsShort E.CountedWrite
        (IsAssemblyCutShort I.CountedWrite W.CountedWrite source.now image_out.old image_out.new out.old out.new)
        ((image_out.new ≡ image_out.old) × (out.new ≡ out.old)) err.old err.new }
    ensures told { EndsTold E.CountedWrite (IsTextFault source.now) result err.old err.new }
{
    ended(put_image(alloc, source, image_out, out), err)
}

/// Lists an image and answers the status: its listing on `out`, or one line on `err` for the first fault. It answers 2
/// for a device only where `out` failed in this call; then a prefix of the listing went out. Of bytes that are no
/// image nothing does.
pub fn list<W: CountedWrite, E: CountedWrite>(
    alloc: Global,
    image: &[u8],
    out: &mut W,
    err: &mut E,
) -> u8
    ensures status { result ≤ 2 }
    ensures listed { result ≡ 0 → IsListed image.now (W.held out.old) (W.held out.new) }
    ensures refused { result ≡ 1 → IsRefused (IsImageFault image.now) × (out.new ≡ out.old) }
    // A device is told only where `out` failed in this call. Where memory ran out, nothing was written.
    ensures cut { result ≡ 2 → StopsShort E.CountedWrite
        (IsCutShort W.CountedWrite image.now out.old out.new)
        (out.new ≡ out.old) err.old err.new }
    ensures told { EndsTold E.CountedWrite (IsImageFault image.now) result err.old err.new }
{
    ended(put_listing(alloc, image, out), err)
}

/// Runs a source over the commands of a text, and answers the status: the line of each answer on `out` before the next
/// command is applied, or one line on `err` for the first fault. The source is judged first, then the commands, and
/// nothing runs before both are good. Of input that is refused nothing is written on `out`.
pub fn run<W: CountedWrite, E: CountedWrite>(
    alloc: Global,
    source: &[u8],
    commands: &[u8],
    budget: Budget,
    out: &mut W,
    err: &mut E,
) -> u8
    ensures status { result ≤ 2 }
    ensures answered { result ≡ 0 → (named : List NamedCommand) × HasCommands commands.now named
        × IsRun source.now budget.instructions named (W.held out.old) (W.held out.new) }
    ensures refused { result ≡ 1 → IsRefused (IsFaultOfRun source.now commands.now) }
    ensures unwritten { result ≡ 1 → out.new ≡ out.old }
    // A device is told only where `out` failed in this call. Where memory ran out, a prefix was written, or nothing.
    ensures cut { result ≡ 2 → StopsShort E.CountedWrite
        ((named : List NamedCommand) × HasCommands commands.now named
        × IsRunCutShort W.CountedWrite source.now budget.instructions named out.old out.new
        × Failed (W.faults out.old) (W.faults out.new))
        (((named : List NamedCommand) × HasCommands commands.now named
        × IsRunCutShort W.CountedWrite source.now budget.instructions named out.old out.new) ⊎ (out.new ≡ out.old))
        err.old err.new }
    ensures told { EndsTold E.CountedWrite (IsFaultOfRun source.now commands.now) result err.old err.new }
{
    match plc_json::commands(alloc, commands) {
        Ok(named) => run_commands(alloc, source, named.as_slice(), budget, out, err),
        Err(fault) => run_without_commands(alloc, source, fault_of(fault), err),
    }
}

/// Runs a source over commands, each scan within the budget, and answers the status: the line of each answer on `out`
/// before the next command is applied, or one line on `err` for the first fault. Of a source that is refused nothing is
/// written on `out`.
pub fn run_commands<W: CountedWrite, E: CountedWrite>(
    alloc: Global,
    source: &[u8],
    commands: &[NamedCommand],
    budget: Budget,
    out: &mut W,
    err: &mut E,
) -> u8
    ensures status { result ≤ 2 }
    ensures answered { result ≡ 0
        → IsRun source.now budget.instructions commands.now (W.held out.old) (W.held out.new) }
    ensures refused { result ≡ 1 → IsRefused (IsTextFault source.now) × (out.new ≡ out.old) }
    // A device is told only where `out` failed in this call. Where memory ran out, a prefix was written, or nothing.
    ensures cut { result ≡ 2 → StopsShort E.CountedWrite
        (IsRunCutShort W.CountedWrite source.now budget.instructions commands.now out.old out.new
        × Failed (W.faults out.old) (W.faults out.new))
        (IsRunCutShort W.CountedWrite source.now budget.instructions commands.now out.old out.new
        ⊎ (out.new ≡ out.old)) err.old err.new }
    ensures told { EndsTold E.CountedWrite (IsTextFault source.now) result err.old err.new }
{
    ended(put_run(alloc, source, budget, commands, out), err)
}

/// Answers the status of a run whose file of commands couldn't be read, by this fault: a source that is refused is told
/// before it, by one line on `err`.
pub fn run_without_commands<E: CountedWrite>(
    alloc: Global,
    source: &[u8],
    fault: Fault,
    err: &mut E,
) -> u8
    ensures status { (result ≡ 1) ⊎ (result ≡ 2) }
    ensures refused { result ≡ 1 → IsRefused (IsTextFault source.now) ⊎ (status_told fault ≡ 1) }
    ensures told { (first : told.Fault) × IsFirstFault source.now fault first × (result ≡ status_told first)
        × WentOut E.CountedWrite (fault_line first) err.old err.new }
{
    tell(first_fault(alloc, source, fault), err)
}

/// Answers the status of a schedule whose file couldn't be read, by this fault: a source that is refused is told before
/// it, by one line on `err`.
pub fn sim_without_schedule<E: CountedWrite>(
    alloc: Global,
    source: &[u8],
    fault: Fault,
    err: &mut E,
) -> u8
    ensures status { (result ≡ 1) ⊎ (result ≡ 2) }
    ensures refused { result ≡ 1 → IsRefused (IsTextFault source.now) ⊎ (status_told fault ≡ 1) }
    ensures told { (first : told.Fault) × IsFirstFault source.now fault first × (result ≡ status_told first)
        × WentOut E.CountedWrite (fault_line first) err.old err.new }
{
    tell(first_fault(alloc, source, fault), err)
}

/// Runs a schedule over a group of replicas of a source, each scan within the budget, and answers the status: its
/// report, one line on `out`, or one line on `err` for the first fault. The source is judged first, then the whole
/// schedule with its names, and nothing runs before both are good. A run in which an event was lost for want of memory
/// has no report, but ends as want of memory does.
pub fn sim<W: CountedWrite, E: CountedWrite>(
    alloc: Global,
    source: &[u8],
    schedule: &[u8],
    group: &Group,
    out: &mut W,
    err: &mut E,
) -> u8
    ensures status { result ≤ 2 }
    ensures simulated { result ≡ 0 → (named : List NamedEvent) × HasSchedule schedule.now named
        × IsSimulated source.now group.now.budget.instructions named (W.held out.old) (W.held out.new) }
    ensures replicated { result ≡ 0 → (named : List NamedEvent) × HasSchedule schedule.now named
        × IsReplicated source.now group.now.config.f group.now.budget.instructions named
        (W.held out.old) (W.held out.new) }
    ensures refused { result ≡ 1
        → IsRefused (IsFaultOfSchedule source.now group.now.config.f group.now.budget.instructions schedule.now) }
    ensures unwritten { result ≡ 1 → out.new ≡ out.old }
    // A device is told only where `out` failed in this call. Where memory ran out, a prefix was written, or nothing.
    ensures cut { result ≡ 2 → StopsShort E.CountedWrite
        ((named : List NamedEvent) × HasSchedule schedule.now named
        × IsReportCutShort source.now group.now.config.f group.now.budget.instructions named
        (W.held out.old) (W.held out.new)
        × Failed (W.faults out.old) (W.faults out.new))
        (((named : List NamedEvent) × HasSchedule schedule.now named
        × IsReportCutShort source.now group.now.config.f group.now.budget.instructions named
        (W.held out.old) (W.held out.new))
        ⊎ (out.new ≡ out.old)) err.old err.new }
    ensures told { EndsTold E.CountedWrite
        (IsFaultOfSchedule source.now group.now.config.f group.now.budget.instructions schedule.now)
        result err.old err.new }
{
    match plc_json::schedule(alloc, schedule) {
        Ok(named) => sim_events(alloc, source, named.as_slice(), group, out, err),
        Err(JsonFault::Shape) => sim_without_schedule(alloc, source, Fault::Schedule, err),
        Err(JsonFault::Memory) => sim_without_schedule(alloc, source, Fault::Memory, err),
    }
}

/// Runs the events of a schedule over a group of replicas of a source, and answers the status: the report, one line on
/// `out`, or one line on `err` for the first fault. Of a source or an event that is refused nothing is written on
/// `out`.
pub fn sim_events<W: CountedWrite, E: CountedWrite>(
    alloc: Global,
    source: &[u8],
    named: &[NamedEvent],
    group: &Group,
    out: &mut W,
    err: &mut E,
) -> u8
    ensures status { result ≤ 2 }
    ensures simulated { result ≡ 0
        → IsSimulated source.now group.now.budget.instructions named.now (W.held out.old) (W.held out.new) }
    ensures replicated { result ≡ 0
        → IsReplicated source.now group.now.config.f group.now.budget.instructions named.now
        (W.held out.old) (W.held out.new) }
    ensures refused { result ≡ 1
        → IsRefused (IsToldOf source.now group.now.config.f group.now.budget.instructions named.now)
        × (out.new ≡ out.old) }
    // A device is told only where `out` failed in this call. Where memory ran out, a prefix was written, or nothing.
    ensures cut { result ≡ 2 → StopsShort E.CountedWrite
        (IsReportCutShort source.now group.now.config.f group.now.budget.instructions named.now
        (W.held out.old) (W.held out.new)
        × Failed (W.faults out.old) (W.faults out.new))
        (IsReportCutShort source.now group.now.config.f group.now.budget.instructions named.now
        (W.held out.old) (W.held out.new)
        ⊎ (out.new ≡ out.old)) err.old err.new }
    ensures told { EndsTold E.CountedWrite
        (IsToldOf source.now group.now.config.f group.now.budget.instructions named.now) result err.old err.new }
{
    ended(put_report(alloc, source, named, group, out), err)
}

/// The fault of a call whose second file has this one: that of the source comes before it.
pub fn first_fault(alloc: Global, source: &[u8], fault: Fault) -> Fault
    ensures { IsFirstFault source.now fault result }
{
    match image(alloc, source) {
        Ok(_) => fault,
        Err(of_source) => of_source,
    }
}
