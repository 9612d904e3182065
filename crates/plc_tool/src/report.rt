//! The line that the run of a schedule prints.

ghost use Rattle.std.specs.Prelude.{Some};
ghost use Rattle.std.specs.Fmt.{DisplaysOnOk};
ghost use Rattle.plc_tool.specs.Reports.{comma, length_text, entry_text, release_text, lengths_text, order_text};
ghost use Rattle.plc_tool.specs.Reports.{releases_text, released_text, ordered_text, report_text};

use il_text::AnswerLine;
use std::fmt;
use vr_model::Request;
use vr_schedules::{Release, Trace};

/// The report of a schedule, without its line's end: compact JSON (RFC 8259), its keys in order. It has the length of
/// the committed list after each event, that list by clients and numbers, each release with its event, client, number
/// and answer, and the count of messages that were sent.
#[derive(Clone, Copy)]
pub struct ReportLine<'a>(pub &'a Trace);

impl fmt::Display for ReportLine<'_> {
    ghost output = { λ line. Some (report_text line.0.now) };

    fn fmt<W: fmt::Write>(&self, f: &mut fmt::Formatter<W>) -> fmt::Result {
        f.write_str("{\"lengths\":[")?;
        lengths(f, self.0.lengths.as_slice())?;
        ordered(f, self.0)
    }
}

/// The list of requests that was committed, and what comes behind it.
fn ordered<W: fmt::Write>(f: &mut fmt::Formatter<W>, trace: &Trace) -> fmt::Result
    ensures { DisplaysOnOk W.write_str_gives f.old result (Some (ordered_text trace.now)) f.new }
{
    f.write_str("],\"order\":[")?;
    order(f, trace.order.as_slice())?;
    released(f, trace)
}

/// The releases, and how many messages were sent.
fn released<W: fmt::Write>(f: &mut fmt::Formatter<W>, trace: &Trace) -> fmt::Result
    ensures { DisplaysOnOk W.write_str_gives f.old result (Some (released_text trace.now)) f.new }
{
    let sent = trace.sent.len();
    f.write_str("],\"releases\":[")?;
    releases(f, trace.releases.as_slice())?;
    write!(f, "],\"sent\":{sent}}}")
}

/// A comma before every item but the first.
fn separate<W: fmt::Write>(f: &mut fmt::Formatter<W>, index: usize) -> fmt::Result
    ensures { DisplaysOnOk W.write_str_gives f.old result (Some (comma index)) f.new }
{
    if index == 0 {
        return Ok(());
    }
    f.write_str(",")
}

fn lengths<W: fmt::Write>(f: &mut fmt::Formatter<W>, lengths: &[usize]) -> fmt::Result
    ensures { DisplaysOnOk W.write_str_gives f.old result (Some (lengths_text lengths.now)) f.new }
{
    for (index, committed) in lengths.iter().enumerate() {
        length(f, index, *committed)?;
    }
    Ok(())
}

fn length<W: fmt::Write>(f: &mut fmt::Formatter<W>, index: usize, committed: usize) -> fmt::Result
    ensures { DisplaysOnOk W.write_str_gives f.old result (Some (length_text (index, committed))) f.new }
{
    separate(f, index)?;
    write!(f, "{committed}")
}

fn order<W: fmt::Write>(f: &mut fmt::Formatter<W>, order: &[Request]) -> fmt::Result
    ensures { DisplaysOnOk W.write_str_gives f.old result (Some (order_text order.now)) f.new }
{
    for (index, request) in order.iter().enumerate() {
        entry(f, index, request)?;
    }
    Ok(())
}

fn entry<W: fmt::Write>(f: &mut fmt::Formatter<W>, index: usize, request: &Request) -> fmt::Result
    ensures { DisplaysOnOk W.write_str_gives f.old result (Some (entry_text (index, request.now))) f.new }
{
    let client = request.client.number;
    let number = request.number;
    separate(f, index)?;
    write!(f, "[{client},{number}]")
}

fn releases<W: fmt::Write>(f: &mut fmt::Formatter<W>, releases: &[Release]) -> fmt::Result
    ensures { DisplaysOnOk W.write_str_gives f.old result (Some (releases_text releases.now)) f.new }
{
    for (index, told) in releases.iter().enumerate() {
        release(f, index, told)?;
    }
    Ok(())
}

fn release<W: fmt::Write>(f: &mut fmt::Formatter<W>, index: usize, release: &Release) -> fmt::Result
    ensures { DisplaysOnOk W.write_str_gives f.old result (Some (release_text (index, release.now))) f.new }
{
    let event = release.event;
    let client = release.client.number;
    let number = release.number;
    let answer = AnswerLine(&release.answer);
    separate(f, index)?;
    write!(f, "[{event},{client},{number},\"{answer}\"]")
}
