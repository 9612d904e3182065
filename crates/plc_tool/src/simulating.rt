//! The run of a schedule, and its report.

ghost use Rattle.std.specs.Prelude.{◌≡◌, ◌⊎◌, [], IfOk, IfErr, OnOk, string_bytes};
ghost use Rattle.vr_core.specs.StandsFor.{group_of, IsSavedAs};
ghost use Rattle.ctl_debugger.specs.Outcome.{answers_of};
ghost use Rattle.vr_schedules.specs.Traces.{IsTraced};
ghost use Rattle.vr_world.specs.History.{IsOneHistory};
ghost use Rattle.il_text.specs.Meaning.{OrMemory};
ghost use Rattle.il_text.specs.Telling.{Puts, IsWhyStopped};
ghost use Rattle.plc_tool.specs.Simulated.{IsSimulated, IsReplicated, IsReportCutShort, IsWhyNoReport};
ghost use Rattle.plc_tool.specs.Simulated.{IsToldOf, report_line};

use crate::events::all_known;
use crate::report::ReportLine;
use il_loader::{Image, know_reading};
use il_model::Budget;
use il_text::{Fault, image};
use io_model::{CountedWrite, write_all};
use plc_json::NamedEvent;
use std::alloc::{AllocError, Global};
use vr_model::Config;
use vr_schedules::{Trace, WorldError, WorldEvent};
use vr_world::run_world;

/// A group of replicas that a schedule is run over.
#[derive(Clone, Copy)]
pub struct Group {
    /// Its size, and how often its replicas make checkpoints.
    pub config: Config,
    /// How many instructions a scan of theirs may perform.
    pub budget: Budget,
}

/// The trace of a run of these events in which nothing was lost.
fn whole_trace(
    alloc: Global,
    config: &Config,
    image: &Image,
    budget: Budget,
    events: &[WorldEvent],
) -> Result<Trace, Fault>
    ensures history { IfOk result (IsOneHistory (answers_of image.now budget.instructions) events.now) }
    ensures traced { IfOk result (IsTraced IsSavedAs (group_of config.now.f image.now budget.instructions) events.now) }
    ensures none_lost { IfOk result (λ trace. trace.lost.items ≡ []) }
    ensures refused { IfErr result (IsWhyNoReport (group_of config.now.f image.now budget.instructions) events.now) }
{
    match run_world(alloc, config, image, budget, events) {
        Ok(trace) => {
            if trace.lost.is_empty() {
                Ok(trace)
            } else {
                Err(Fault::Memory)
            }
        }
        Err(WorldError::BadSchedule { index, reason }) => Err(Fault::ScheduleAt {
            index,
            reason: reason.number(),
        }),
        Err(WorldError::Memory) => Err(Fault::Memory),
    }
}

/// The line of a report, with its end.
fn line_of(alloc: Global, trace: &Trace) -> Result<String, AllocError>
    ensures { IfOk result (λ line. string_bytes line ≡ report_line trace.now) }
{
    let shown = ReportLine(trace);
    format!(in alloc; "{shown}\n")
}

/// Writes a text that was made in memory.
fn put_text<W: CountedWrite>(text: &str, out: &mut W) -> Result<(), Fault>
    ensures { Puts W.CountedWrite text.now out.old out.new result }
{
    Ok(write_all(out, text.as_bytes())?)
}

/// Writes the line of a report.
fn put_trace<W: CountedWrite>(alloc: Global, trace: &Trace, out: &mut W) -> Result<(), Fault>
    ensures { Puts W.CountedWrite (report_line trace.now) out.old out.new result }
{
    let line = line_of(alloc, trace)?;
    put_text(line.as_str(), out)
}

/// Writes the report of named events that replicas of a text's program run, each scan within the budget. The text is
/// judged first, then the names of all events, and nothing runs before both are good. Of input that is refused it tells
/// the first fault and writes nothing. Where the writer fails or memory runs out, a prefix of the report's line went
/// out.
pub fn put_report<W: CountedWrite>(
    alloc: Global,
    text: &[u8],
    named: &[NamedEvent],
    group: &Group,
    out: &mut W,
) -> Result<(), Fault>
    ensures simulated { OnOk result (
        IsSimulated text.now group.now.budget.instructions named.now (W.held out.old) (W.held out.new)) }
    ensures replicated { OnOk result (
        IsReplicated text.now group.now.config.f group.now.budget.instructions named.now
        (W.held out.old) (W.held out.new)) }
    ensures err { IfErr result (λ e. (IsWhyStopped e (W.faults out.old) (W.faults out.new)
        × IsReportCutShort text.now group.now.config.f group.now.budget.instructions named.now
        (W.held out.old) (W.held out.new))
        ⊎ (OrMemory (IsToldOf text.now group.now.config.f group.now.budget.instructions named.now) e
        × (out.new ≡ out.old))) }
{
    know_reading();
    let image = image(alloc, text)?;
    let events = all_known(alloc, &image, named)?;
    let trace = whole_trace(
        alloc,
        &group.config,
        &image,
        group.budget,
        events.as_slice(),
    )?;
    put_trace(alloc, &trace, out)
}
