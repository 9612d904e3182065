//! The place that is told of a position in an answer.

ghost use Rattle.std.specs.Prelude.{◌≡◌, ◌++◌, List, IfOk, OnOk};
ghost use Rattle.il_model.specs.declared.command.Answer as answering;
ghost use Rattle.il_text.specs.Lines.{lines_of};
ghost use Rattle.il_text.specs.Telling.{Puts};
ghost use Rattle.il_places.specs.Places.{nowhere};
ghost use Rattle.il_places.specs.Located.{standing_in, standing, standing_of, placed_text, placed_line, placed_lines};

use crate::places::Places;
use il_model::Answer;
use il_text::{AnswerLine, Fault};
use io_model::{CountedWrite, write_all};
use std::alloc::{AllocError, Global};

fn put_instance(line: &mut Vec<u8>, instance: &[u8]) -> Result<(), AllocError>
    ensures { OnOk result (line.new.items ≡ line.old.items ++ standing_in instance.now) }
{
    if !instance.is_empty() {
        line.extend_from_slice(instance)?;
        line.extend_from_slice(b", ")?;
    }
    Ok(())
}

/// Puts the place of a position behind a line, where it's known.
fn put_standing(
    alloc: Global,
    line: &mut Vec<u8>,
    places: &Places,
    position: usize,
) -> Result<(), AllocError>
    ensures { OnOk result (line.new.items ≡ line.old.items ++ standing places.now position) }
{
    let Some(place) = places.place(position) else {
        return Ok(());
    };
    let number = place.line;
    let told = format!(in alloc; "line {number}")?;
    line.extend_from_slice(b": ")?;
    put_instance(line, places.instance(position))?;
    line.extend_from_slice(told.as_str().as_bytes())
}

/// Puts the place of an answer's position behind its line, where it has one.
fn put_place(
    alloc: Global,
    line: &mut Vec<u8>,
    places: &Places,
    answer: &Answer,
) -> Result<(), AllocError>
    ensures { OnOk result (line.new.items ≡ line.old.items ++ standing_of places.now answer.now) }
{
    match answer {
        Answer::Held(position) | Answer::Stopped { position, .. } => {
            put_standing(alloc, line, places, usize::from(*position))
        }
        Answer::Outputs { .. } | Answer::Value(_) | Answer::Done | Answer::Refused(_) => Ok(()),
    }
}

/// An answer, with the place of its position, where that is known; without the end of its line.
pub fn placed_text(alloc: Global, answer: &Answer, places: &Places) -> Result<Vec<u8>, AllocError>
    ensures { IfOk result (λ v. v.items ≡ placed_text places.now answer.now) }
{
    let shown = AnswerLine(answer);
    let told = format!(in alloc; "{shown}")?;
    let mut text = Vec::from_slice(alloc, told.as_str().as_bytes())?;
    put_place(alloc, &mut text, places, answer)?;
    Ok(text)
}

/// Writes the line of an answer, with the place of its position, where that is known.
pub fn put_answer<W: CountedWrite>(
    alloc: Global,
    answer: &Answer,
    places: &Places,
    out: &mut W,
) -> Result<(), Fault>
    ensures { Puts W.CountedWrite (placed_line places.now answer.now) out.old out.new result }
{
    let mut line = placed_text(alloc, answer, places)?;
    line.push(b'\n')?;
    Ok(write_all(out, line.as_slice())?)
}

/// Where no places are known, answers are told as they are without them.
pub fn texts_without_units_tell_no_places()
    ensures { (given : List answering.Answer) → placed_lines nowhere given ≡ lines_of given }
{}
