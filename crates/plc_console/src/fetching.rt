//! The image of the program in force, which a console is asked for.

ghost use Rattle.std.specs.Prelude.{◌≡◌, IfOk, option_map, string_bytes};
ghost use Rattle.plc_console.specs.Fetching.{digits_in, image_in, image_line, Fetches, ReadsBack};

use crate::sending::read_answer;
use hex::FromHexError;
use io_model::{CountedRead, CountedWrite, write_all};
use plc_host::{Failed, Host};
use std::alloc::{AllocError, Global};
use std::sync::Wait;

/// So many bytes the word has that stands before an image, with its blank.
const WORD: usize = 6;

/// What a console answered that was asked for the image of the program in force.
#[derive(Debug, Drop)]
pub enum Fetched {
    /// The bytes of the image.
    Image(Vec<u8>),
    /// Another line, which says why it tells none.
    Other(Vec<u8>),
}

/// The line that tells an image, as `image 494c..`: two hex digits a byte.
pub(crate) fn image_line(alloc: Global, image: &[u8]) -> Result<String, AllocError>
    ensures { IfOk result (λ line. string_bytes line ≡ image_line image.now) }
{
    let digits = hex::encode(alloc, image)?;
    let mut line = String::from_str(alloc, "image ")?;
    line.push_str(digits.as_str())?;
    line.push_str("\n")?;
    Ok(line)
}

/// The digits of a line that tells an image, if it does.
fn digits_in(line: &[u8]) -> Option<&[u8]>
    ensures { option_map (λ digits. digits.now) result ≡ digits_in line.now }
{
    if line.starts_with(b"image ") && line.ends_with(b"\n") {
        let behind = &line[WORD..];
        Some(&behind[..behind.len().saturating_sub(1)])
    } else {
        None
    }
}

/// The image that a line tells, if it tells one.
fn image_in(alloc: Global, line: &[u8]) -> Result<Option<Vec<u8>>, AllocError>
    ensures { IfOk result (λ image. option_map (λ bytes. bytes.items) image ≡ image_in line.now) }
{
    let Some(digits) = digits_in(line) else {
        return Ok(None);
    };
    match hex::decode(alloc, digits) {
        Ok(image) => Ok(Some(image)),
        Err(FromHexError::OutOfMemory) => Err(AllocError),
        Err(_) => Ok(None),
    }
}

/// Asks a console for the image of the program in force: what it answers. Where a device fails, that is the reader or the
/// writer, or the reader came to its end before the answer did.
pub fn fetch_image<H: Wait + Copy, R: CountedRead, W: CountedWrite>(
    host: &Host<H>,
    reader: &mut R,
    writer: &mut W,
) -> Result<Fetched, Failed>
    ensures { IfOk result (λ fetched. Fetches fetched (R.left reader.old) (R.left reader.new)
        (W.held writer.old) (W.held writer.new)) }
{
    write_all(writer, b"\"image\"\n")?;
    let answer = read_answer(host, reader)?;
    match image_in(host.alloc, answer.as_slice())? {
        Some(image) => Ok(Fetched::Image(image)),
        None => Ok(Fetched::Other(answer)),
    }
}

/// That each image is read again from the line that tells it. It does nothing: its contract is a law.
pub fn images_are_read_back()
    ensures { ReadsBack }
{}
