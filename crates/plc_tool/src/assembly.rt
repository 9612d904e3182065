//! The image of a text, written.

ghost use Rattle.std.specs.Prelude.{◌≡◌, ◌⊎◌, ◌<◌, ◌≤◌, ◌^◌, IfOk, IfErr, OnOk, length, string_bytes};
ghost use Rattle.il_model.specs.Program.{Program};
ghost use Rattle.il_model.specs.Marks.{words_in};
ghost use Rattle.il_model.specs.Image.{spelling};
ghost use Rattle.plc_tool.specs.Calls.{IsAssembled, IsAssemblyCutShort, words_line};
ghost use Rattle.il_text.specs.Meaning.{IsTextFault, OrMemory};

use il_text::{Fault, image_bytes};
use io_model::{CountedWrite, write_all};
use std::alloc::{AllocError, Global};

/// How many words an image has, those of arguments too, as its header says.
fn word_count(image: &[u8]) -> u16
    requires { 16 ≤ length image.now }
    ensures { (Q : Program) → words_in Q.code < 2 ^ 16 → image.now ≡ spelling Q → result ≡ words_in Q.code }
{
    u16::from_be_bytes([image[14], image[15]])
}

/// The line that tells how many words an image has.
fn words_line(alloc: Global, image: &[u8]) -> Result<String, AllocError>
    requires { 16 ≤ length image.now }
    ensures { IfOk result (λ line. (Q : Program)
        → words_in Q.code < 2 ^ 16 → image.now ≡ spelling Q → string_bytes line ≡ words_line Q) }
{
    let words = word_count(image);
    format!(in alloc; "words {words}\n")
}

/// Writes the image of a text, then the line that tells the count of its words. Of a text that is refused it tells the
/// first fault, or that memory ran out, and writes nothing. It answers Device only where a writer failed in this call:
/// that of the image after a prefix of it, or the other after the whole image and a prefix of the line.
pub fn put_image<I: CountedWrite, W: CountedWrite>(
    alloc: Global,
    text: &[u8],
    image_out: &mut I,
    out: &mut W,
) -> Result<(), Fault>
    ensures ok { OnOk result (IsAssembled text.now
        (I.held image_out.old) (I.held image_out.new) (W.held out.old) (W.held out.new)) }
    ensures err { IfErr result (λ e. ((e ≡ Fault.Device)
        × IsAssemblyCutShort I.CountedWrite W.CountedWrite text.now image_out.old image_out.new out.old out.new)
        ⊎ (OrMemory (IsTextFault text.now) e × ((image_out.new ≡ image_out.old) × (out.new ≡ out.old)))) }
{
    let image = image_bytes(alloc, text)?;
    let line = words_line(alloc, image.as_slice())?;
    write_all(image_out, image.as_slice())?;
    Ok(write_all(out, line.as_str().as_bytes())?)
}
