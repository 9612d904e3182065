//! A session before it has the desk: whoever asks how the controller is, or what it has, needs none.

use crate::line::{Intake, LINE_END, PIECE, Wish, stays};
use crate::session::{SessionEnd, put_text, refuse};
use il_loader::Image;
use io_model::{CountedRead, CountedWrite};
use plc_host::Host;
use plc_json::Question;
use std::alloc::AllocError;
use std::sync::Wait;

/// What tells how a controller is, and what it has.
pub(crate) trait TellsWithoutDesk {
    /// The line that answers a question, with its end; none where the desk is wanted for it.
    fn answer(&mut self, question: &Question) -> Result<Option<Vec<u8>>, AllocError>;
}

/// What a line is before its session has the desk.
#[derive(Clone, Copy, PartialEq, Eq)]
enum Before {
    /// It was answered.
    Answered,
    /// The desk is wanted for it.
    WantsDesk,
}

/// Answers a question, unless the desk is wanted for it.
fn tell<W: CountedWrite, T: TellsWithoutDesk>(
    question: Question,
    writer: &mut W,
    teller: &mut T,
) -> Result<Before, SessionEnd> {
    match teller.answer(&question) {
        Ok(Some(line)) => {
            put_text(line.as_slice(), writer)?;
            Ok(Before::Answered)
        }
        Ok(None) => Ok(Before::WantsDesk),
        Err(_) => Err(SessionEnd::Memory),
    }
}

/// Answers a line that ends here, unless the desk is wanted for it. By the program of the image it's told what is a
/// command; which one it is, is told once the session has the desk.
fn answer<R: Wait + Copy, W: CountedWrite, T: TellsWithoutDesk>(
    host: &Host<R>,
    image: &Image,
    intake: &mut Intake,
    writer: &mut W,
    teller: &mut T,
) -> Result<Before, SessionEnd> {
    let Ok(wish) = intake.line.wish(host.alloc, image) else {
        return Err(SessionEnd::Memory);
    };
    if !stays(&wish, &mut intake.refused) {
        return Err(SessionEnd::Dismissed);
    }
    let before = match wish {
        Wish::Tell(question) => tell(question, writer, teller)?,
        Wish::Refuse => {
            refuse(writer)?;
            Before::Answered
        }
        Wish::Submit(_command) => Before::WantsDesk,
        Wish::Leave => Before::WantsDesk,
    };
    if before == Before::Answered {
        intake.line.clear();
    }
    Ok(before)
}

/// Answers the lines that end within a piece. What is left of it from the first one on for which the desk is wanted, that
/// line's end first.
fn answer_piece<'a, R: Wait + Copy, W: CountedWrite, T: TellsWithoutDesk>(
    host: &Host<R>,
    image: &Image,
    piece: &'a [u8],
    intake: &mut Intake,
    writer: &mut W,
    teller: &mut T,
) -> Result<Option<&'a [u8]>, SessionEnd> {
    for at in 0..piece.len() {
        if piece[at] != LINE_END {
            match intake.line.push(piece[at]) {
                Ok(()) => {}
                Err(_) => return Err(SessionEnd::Memory),
            }
        } else if let Before::WantsDesk = answer(host, image, intake, writer, teller)? {
            return Ok(Some(&piece[at..]));
        }
    }
    Ok(None)
}

/// Answers lines until one comes for which the desk is wanted: that line, and what was read behind it. How the session
/// ended, where none came. Each line that asks how the controller is, or what it has, is answered, and each that is no
/// command and no question by `plc: commands`; a line of HTTP, or the third in a row that would be refused, ends the
/// session.
pub(crate) fn answer_without_desk<
    R: Wait + Copy,
    I: CountedRead,
    W: CountedWrite,
    T: TellsWithoutDesk,
>(
    host: &Host<R>,
    image: &Image,
    reader: &mut I,
    writer: &mut W,
    teller: &mut T,
) -> Result<Vec<u8>, SessionEnd> {
    let mut intake = Intake::new(host.alloc);
    let mut piece = [0; PIECE];
    for _ in host.rt.forever() {
        let Ok(count) = reader.read(&mut piece) else {
            return Err(SessionEnd::Device);
        };
        if count == 0 {
            return Err(SessionEnd::Closed);
        }
        let rest = answer_piece(host, image, &piece[..count], &mut intake, writer, teller)?;
        if let Some(rest) = rest {
            return match intake.line.followed_by(rest) {
                Ok(bytes) => Ok(bytes),
                Err(_) => Err(SessionEnd::Memory),
            };
        }
    }
    unreachable!()
}
