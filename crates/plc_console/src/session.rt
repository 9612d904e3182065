//! A session of a console: lines come in, and each is answered in order.

ghost use Rattle.std.specs.Prelude.{◌≡◌, ◌≤◌, ◌++◌, ◌∷◌, [], List, ℕ, IfOk, MatchResult};
ghost use Rattle.io_model.specs.Streams.{Failed};
ghost use Rattle.il_text.specs.Lines.{line_text};
ghost use Rattle.il_text.specs.Telling.{fault_line};
ghost use Rattle.il_text.specs.declared.fault.Fault.TheVariants.{Commands};
ghost use Rattle.plc_console.specs.declared.session.SessionEnd.TheVariants as ends;
ghost use Rattle.plc_console.specs.Mirrored.{brought_by, goes_on_with};
ghost use Rattle.plc_console.specs.declared.line.Wish.TheVariants.{Submit};
ghost use Rattle.plc_console.specs.Lines.{kept, line_end, HasNoEnd};
ghost use Rattle.plc_console.specs.Sessions.{scene, Serves, Stops, StopsAt, Takes, Talks, Writes};

use crate::line::{Intake, LINE_END, Line, PIECE, Wish, stays};
use il_loader::{Image, LoadError, load};
use il_model::{Answer, Command};
use il_text::{Fault, put_line};
use io_model::{CountedRead, CountedWrite, write_all};
use plc_json::Question;
use std::alloc::{AllocError, Global};
use std::sync::Wait;
use thiserror::Error;

/// No answer comes any more to a command, which may have been done or not.
#[derive(Clone, Copy, Debug, PartialEq, Eq, Error)]
#[error("unanswered")]
pub struct Unanswered;

/// What submits the commands of a console, and tells what is asked. It shows which commands were answered, and how, or
/// shows nothing.
pub trait Submits {
    ghost use Rattle.std.specs.Prelude.{◌≡◌, [], ◌∷◌, List, Option, IfOk, OnErr};
    ghost use Rattle.il_model.specs.declared.command.Answer.{Answer};
    ghost use Rattle.il_model.specs.declared.command.Command.{Command};
    ghost use Rattle.vr_ports.specs.Parties.{Grows};

    // The commands that were answered so far, each with its answer, if it shows them.
    ghost answered: { Self → Option (List (Command × Answer)) };

    /// Submits a command, and waits for its answer.
    fn submit(&mut self, command: &Command) -> Result<Answer, Unanswered>
        ensures answered { IfOk result
            (λ answer. Grows (answered self.old) (answered self.new) ((command.now, answer) ∷ [])) }
        ensures unanswered { OnErr result (answered self.new ≡ answered self.old) };

    /// The line that answers a question, with its end. It submits nothing.
    fn tell(&mut self, question: Question) -> Result<Vec<u8>, AllocError>
        ensures { answered self.new ≡ answered self.old };
}

/// How a session ended.
#[derive(Clone, Copy, PartialEq, Eq)]
pub enum SessionEnd {
    /// The reader came to its end.
    Closed,
    /// A line of HTTP came, or too many in a row that were refused.
    Dismissed,
    /// The reader or the writer failed.
    Device,
    Memory,
    /// A command had no answer.
    Unanswered,
}

/// Writes that a line is no command.
pub(crate) fn refuse<W: CountedWrite>(writer: &mut W) -> Result<(), SessionEnd>
    ensures wrote { Writes result (fault_line Commands) (Failed (W.faults writer.old) (W.faults writer.new))
        (W.held writer.old) (W.held writer.new) }
    ensures counts { W.faults writer.old ≤ W.faults writer.new }
{
    match write_all(writer, b"plc: commands\n") {
        Ok(()) => Ok(()),
        Err(_) => Err(SessionEnd::Device),
    }
}

/// Writes the line of an answer.
fn put_answer<W: CountedWrite>(
    alloc: Global,
    answer: &Answer,
    writer: &mut W,
) -> Result<(), SessionEnd>
    ensures wrote { Writes result (line_text answer.now) (Failed (W.faults writer.old) (W.faults writer.new))
        (W.held writer.old) (W.held writer.new) }
    ensures counts { W.faults writer.old ≤ W.faults writer.new }
{
    match put_line(alloc, answer, writer) {
        Ok(()) => Ok(()),
        Err(Fault::Memory) => Err(SessionEnd::Memory),
        Err(_) => Err(SessionEnd::Device),
    }
}

/// The image of the program that a change brings. `None` for any other command, and for bytes that are no image.
fn brought(alloc: Global, command: &Command) -> Result<Option<Image>, AllocError>
    ensures { IfOk result (λ o. o ≡ brought_by command.now) }
{
    let Command::Change(bytes) = command else {
        return Ok(None);
    };
    match load(alloc, bytes.as_slice()) {
        Ok(image) => Ok(Some(image)),
        Err(LoadError::Fault(_)) => Ok(None),
        Err(LoadError::Memory) => Err(AllocError),
    }
}

/// Goes on with the program that a command brought, if it's done.
fn follow(brought: Option<Image>, answer: &Answer, image: &mut Image)
    ensures { image.new ≡ goes_on_with image.old brought answer.now }
{
    if let (Some(brought), Answer::Done) = (brought, answer) {
        *image = brought;
    }
}

/// Writes a line.
pub(crate) fn put_text<W: CountedWrite>(text: &[u8], writer: &mut W) -> Result<(), SessionEnd>
    ensures wrote { Writes result text.now (Failed (W.faults writer.old) (W.faults writer.new))
        (W.held writer.old) (W.held writer.new) }
    ensures counts { W.faults writer.old ≤ W.faults writer.new }
{
    match write_all(writer, text) {
        Ok(()) => Ok(()),
        Err(_) => Err(SessionEnd::Device),
    }
}

/// Writes what there is to tell of a question.
fn tell<W: CountedWrite, D: Submits>(
    question: Question,
    writer: &mut W,
    desk: &mut D,
) -> Result<(), SessionEnd>
    ensures told { (text : List ℕ) × Writes result text (Failed (W.faults writer.old) (W.faults writer.new))
        (W.held writer.old) (W.held writer.new) }
    ensures same { D.answered desk.new ≡ D.answered desk.old }
    ensures counts { W.faults writer.old ≤ W.faults writer.new }
{
    match desk.tell(question) {
        Ok(line) => put_text(line.as_slice(), writer),
        Err(_) => Err(SessionEnd::Memory),
    }
}

/// Submits a command, and writes the line of its answer. Where memory runs out for the program that it brings, nothing
/// was submitted.
fn submit<W: CountedWrite, D: Submits>(
    alloc: Global,
    command: &Command,
    image: &mut Image,
    writer: &mut W,
    desk: &mut D,
) -> Result<(), SessionEnd>
    ensures took { MatchResult result
        (λ _. Takes (Submit command.now) (scene (D.answered desk.old) (W.held writer.old) image.old)
        (scene (D.answered desk.new) (W.held writer.new) image.new))
        (λ end. StopsAt end (Submit command.now) (Failed (W.faults writer.old) (W.faults writer.new))
        (scene (D.answered desk.old) (W.held writer.old) image.old)
        (scene (D.answered desk.new) (W.held writer.new) image.new)) }
    ensures counts { W.faults writer.old ≤ W.faults writer.new }
{
    let Ok(brought) = brought(alloc, command) else {
        return Err(SessionEnd::Memory);
    };
    match desk.submit(command) {
        Ok(answer) => {
            follow(brought, &answer, image);
            put_answer(alloc, &answer, writer)
        }
        Err(Unanswered) => Err(SessionEnd::Unanswered),
    }
}

/// Gives a line its turn, with which the session goes on: its command is submitted and answered by its line; or its
/// question is; or it's refused.
fn take_turn<W: CountedWrite, D: Submits>(
    alloc: Global,
    wish: Wish,
    image: &mut Image,
    writer: &mut W,
    desk: &mut D,
) -> Result<(), SessionEnd>
    ensures took { MatchResult result
        (λ _. Takes wish (scene (D.answered desk.old) (W.held writer.old) image.old)
        (scene (D.answered desk.new) (W.held writer.new) image.new))
        (λ end. StopsAt end wish (Failed (W.faults writer.old) (W.faults writer.new))
        (scene (D.answered desk.old) (W.held writer.old) image.old)
        (scene (D.answered desk.new) (W.held writer.new) image.new)) }
    ensures counts { W.faults writer.old ≤ W.faults writer.new }
{
    match wish {
        Wish::Submit(command) => submit(alloc, &command, image, writer, desk),
        Wish::Tell(question) => tell(question, writer, desk),
        Wish::Refuse => refuse(writer),
        Wish::Leave => Err(SessionEnd::Dismissed),
    }
}

/// Takes one byte that doesn't end a line.
fn extend(byte: u8, line: &mut Line) -> Result<(), SessionEnd>
    ensures { MatchResult result (λ _. (rest : List ℕ) → line.old ≡ kept rest → line.new ≡ kept (rest ++ byte ∷ []))
        (λ end. end ≡ ends.Memory) }
{
    match line.push(byte) {
        Ok(()) => Ok(()),
        Err(_) => Err(SessionEnd::Memory),
    }
}

/// Ends a line, which has its turn, or ends the session.
fn end_line<W: CountedWrite, D: Submits>(
    alloc: Global,
    image: &mut Image,
    intake: &mut Intake,
    writer: &mut W,
    desk: &mut D,
) -> Result<(), SessionEnd>
    ensures served { (rest : List ℕ) → HasNoEnd rest → intake.old.line ≡ kept rest → MatchResult result
        (λ _. (intake.new.line ≡ kept []) × Serves rest (line_end ∷ []) [] intake.old.refused intake.new.refused
        (scene (D.answered desk.old) (W.held writer.old) image.old)
        (scene (D.answered desk.new) (W.held writer.new) image.new))
        (λ end. Stops end rest (line_end ∷ []) intake.old.refused (Failed (W.faults writer.old) (W.faults writer.new))
        (scene (D.answered desk.old) (W.held writer.old) image.old)
        (scene (D.answered desk.new) (W.held writer.new) image.new)) }
    ensures counts { W.faults writer.old ≤ W.faults writer.new }
{
    let Ok(wish) = intake.line.wish(alloc, image) else {
        return Err(SessionEnd::Memory);
    };
    intake.line.clear();
    if !stays(&wish, &mut intake.refused) {
        return Err(SessionEnd::Dismissed);
    }
    take_turn(alloc, wish, image, writer, desk)
}

/// Takes one byte: the line that it ends has its turn.
fn take_byte<W: CountedWrite, D: Submits>(
    alloc: Global,
    image: &mut Image,
    byte: u8,
    intake: &mut Intake,
    writer: &mut W,
    desk: &mut D,
) -> Result<(), SessionEnd>
    ensures served { (rest : List ℕ) → HasNoEnd rest → intake.old.line ≡ kept rest → MatchResult result
        (λ _. (rest' : List ℕ) × (intake.new.line ≡ kept rest')
        × Serves rest (byte ∷ []) rest' intake.old.refused intake.new.refused
        (scene (D.answered desk.old) (W.held writer.old) image.old)
        (scene (D.answered desk.new) (W.held writer.new) image.new))
        (λ end. Stops end rest (byte ∷ []) intake.old.refused (Failed (W.faults writer.old) (W.faults writer.new))
        (scene (D.answered desk.old) (W.held writer.old) image.old)
        (scene (D.answered desk.new) (W.held writer.new) image.new)) }
    ensures counts { W.faults writer.old ≤ W.faults writer.new }
{
    if byte == LINE_END {
        end_line(alloc, image, intake, writer, desk)
    } else {
        extend(byte, &mut intake.line)
    }
}

/// Gives each line its turn that is whole with this piece.
fn serve_piece<W: CountedWrite, D: Submits>(
    alloc: Global,
    image: &mut Image,
    piece: &[u8],
    intake: &mut Intake,
    writer: &mut W,
    desk: &mut D,
) -> Result<(), SessionEnd>
    ensures served { (rest : List ℕ) → HasNoEnd rest → intake.old.line ≡ kept rest → MatchResult result
        (λ _. (rest' : List ℕ) × (intake.new.line ≡ kept rest')
        × Serves rest piece.now rest' intake.old.refused intake.new.refused
        (scene (D.answered desk.old) (W.held writer.old) image.old)
        (scene (D.answered desk.new) (W.held writer.new) image.new))
        (λ end. Stops end rest piece.now intake.old.refused (Failed (W.faults writer.old) (W.faults writer.new))
        (scene (D.answered desk.old) (W.held writer.old) image.old)
        (scene (D.answered desk.new) (W.held writer.new) image.new)) }
    ensures counts { W.faults writer.old ≤ W.faults writer.new }
{
    for byte in piece {
        if let Err(end) = take_byte(alloc, image, *byte, intake, writer, desk) {
            return Err(end);
        }
    }
    Ok(())
}

/// Serves a session to its end. Each line that is a command of those in files of commands, but for a scan, is submitted
/// and answered once, its names looked up in the program in force, and the line of its answer is written; for a question
/// what the desk tells is; for each other line, as one of more bytes than `specs/Lines` lets it have, `plc: commands`. The
/// program in force is that of the image, and after a change that is done the one that it brought, whose image this is
/// then. Lines have their turns in order, one behind the answer of the other. What the reader has behind its last whole
/// line is no line. A line of HTTP ends it by `Dismissed`, and so does the third one in a row that would be refused:
/// nothing is written or done for that one, nor for what comes behind it. Where a session ends by `Device`, for want of
/// memory or by a command without an answer, a prefix of the answers went out.
pub fn serve_console<H: Wait, R: CountedRead, W: CountedWrite, D: Submits>(
    rt: &H,
    alloc: Global,
    image: &mut Image,
    reader: &mut R,
    writer: &mut W,
    desk: &mut D,
) -> SessionEnd
    ensures { Talks result (R.left reader.old) (R.left reader.new) (R.faults reader.old) (R.faults reader.new)
        (W.faults writer.old) (W.faults writer.new) (scene (D.answered desk.old) (W.held writer.old) image.old)
        (scene (D.answered desk.new) (W.held writer.new) image.new) }
{
    let mut intake = Intake::new(alloc);
    let mut piece = [0; PIECE];
    for _ in rt.forever() {
        let Ok(count) = reader.read(&mut piece) else {
            return SessionEnd::Device;
        };
        if count == 0 {
            return SessionEnd::Closed;
        }
        if let Err(end) = serve_piece(alloc, image, &piece[..count], &mut intake, writer, desk) {
            return end;
        }
    }
    unreachable!()
}
