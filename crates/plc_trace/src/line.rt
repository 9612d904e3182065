//! The lines of a trace.

ghost use Rattle.std.specs.Prelude.{◌≡◌, IfOk, OnOk};
ghost use Rattle.std.specs.Io.KnownBytes.{Appends};
ghost use Rattle.std.specs.String.{string_bytes};
ghost use Rattle.plc_trace.specs.Tracing.{start_line, traced_line};

use il_model::Answer;
use il_text::AnswerLine;
use io_model::{CountedWrite, write_all};
use plc_host::Failed;
use std::alloc::{AllocError, Global};

/// Which machine a trace is of, and how often it was started, with this time.
#[derive(Clone, Copy, Debug, PartialEq, Eq)]
pub struct Started {
    pub machine: u8,
    pub starts: u64,
}

/// Where a scan stands in the list of its group's commands, from 0, and its moment, in milliseconds.
#[derive(Clone, Copy, Debug, PartialEq, Eq)]
pub struct Placed {
    pub place: u64,
    pub moment: u64,
}

/// A release: the epoch, the scan's place where it's known, the number of the scan's request, and what answered it.
#[derive(Clone, Copy)]
pub struct Traced {
    pub epoch: u64,
    pub placed: Option<Placed>,
    pub number: u64,
    pub answer: Answer,
}

/// A release, and how many before it found no room.
#[derive(Clone, Copy)]
pub(crate) struct Line {
    pub(crate) traced: Traced,
    pub(crate) left_out: u64,
}

/// The text of a start's line.
fn text_of_start(alloc: Global, started: Started) -> Result<String, AllocError>
    ensures { IfOk result (λ text. string_bytes text ≡ start_line started) }
{
    let Started { machine, starts } = started;
    format!(in alloc; "machine {machine} start {starts}\n")
}

/// The text of a release's line.
fn text_of(alloc: Global, line: &Line) -> Result<String, AllocError>
    ensures { IfOk result (λ text. string_bytes text ≡ traced_line line.now) }
{
    let Line { traced, left_out } = *line;
    let Traced { epoch, number, .. } = traced;
    let answer = AnswerLine(&traced.answer);
    match traced.placed {
        Some(Placed { place, moment }) => {
            format!(in alloc; "{epoch} {place} {number} {moment} {left_out} {answer}\n")
        }
        None => format!(in alloc; "{epoch} - {number} - {left_out} {answer}\n"),
    }
}

/// Writes the line of a start.
pub(crate) fn put_start<F: CountedWrite>(
    alloc: Global,
    started: Started,
    file: &mut F,
) -> Result<(), Failed>
    ensures { OnOk result (Appends (F.held file.old) (F.held file.new) (start_line started)) }
{
    let text = text_of_start(alloc, started)?;
    Ok(write_all(file, text.as_str().as_bytes())?)
}

/// Writes the line of a release.
pub(crate) fn put_line<F: CountedWrite>(
    alloc: Global,
    line: &Line,
    file: &mut F,
) -> Result<(), Failed>
    ensures { OnOk result (Appends (F.held file.old) (F.held file.new) (traced_line line.now)) }
{
    let text = text_of(alloc, line)?;
    Ok(write_all(file, text.as_str().as_bytes())?)
}
