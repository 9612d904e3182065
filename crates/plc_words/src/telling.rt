//! What is told where words ask for no work.

ghost use Rattle.std.specs.Prelude.{◌≡◌, OnOk};
ghost use Rattle.std.specs.Io.KnownBytes.{Appends};
ghost use Rattle.plc_words.specs.Asked.{IsShown, IsToldOfWords, TellsUnshown};

use crate::error::WordsError;
use il_text::{Fault, put, tell};
use io_model::CountedWrite;
use std::io;
use std::io::Write;

/// The status of words that are no call of the program.
const BAD_WORDS: u8 = 3;

/// Tells why words ask for no work, and answers the status: 0 where help or the version was shown, 3 where the words
/// are bad, and 2 where standard output failed or memory ran out. `version` is all that is printed where the version is
/// asked for.
pub fn tell_words<W: Write, E: CountedWrite>(
    error: &WordsError,
    version: &str,
    out: &mut W,
    err: &mut E,
) -> u8
    ensures { IsToldOfWords E.CountedWrite version.now error.now result (W.contents out.old) (W.contents out.new) err.old err.new }
{
    match error {
        WordsError::Shown(text) => show(text.as_str(), out, err),
        WordsError::Version => show(version, out, err),
        WordsError::Bad(text) => {
            let _ = put(err, text.as_str().as_bytes());
            BAD_WORDS
        }
        WordsError::NotText => {
            let _ = put(err, b"error: a word is no text in UTF-8\n");
            BAD_WORDS
        }
        WordsError::Memory => tell(Fault::Memory, err),
    }
}

/// Shows a text on standard output, and answers the status.
fn show<W: Write, E: CountedWrite>(text: &str, out: &mut W, err: &mut E) -> u8
    ensures { IsShown E.CountedWrite text.now result (W.contents out.old) (W.contents out.new) err.old err.new }
{
    match shown(text, out) {
        Ok(()) => 0,
        Err(error) => tell_unshown(&error, err),
    }
}

fn shown<W: Write>(text: &str, out: &mut W) -> io::Result<()>
    ensures { OnOk result (Appends (W.contents out.old) (W.contents out.new) text.now) }
{
    out.write_all(text.as_bytes())?;
    out.flush()
}

/// Tells why help or the version wasn't shown, and answers the status.
fn tell_unshown<E: CountedWrite>(error: &io::Error, err: &mut E) -> u8
    ensures status { result ≡ 2 }
    ensures line { TellsUnshown E.CountedWrite err.old err.new }
{
    if error.kind() == io::ErrorKind::OutOfMemory {
        return tell(Fault::Memory, err);
    }
    let _ = put(err, b"plc: device output\n");
    Fault::Device.status()
}
