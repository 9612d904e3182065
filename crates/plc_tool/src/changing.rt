//! The command that goes on with the program of a text.

ghost use Rattle.std.specs.Prelude.{IfOk, IfErr, map};
ghost use Rattle.plc_tool.specs.Calls.{IsChangeAlone, IsChangeTo, IsFaultOfChange};
ghost use Rattle.il_text.specs.Meaning.{OrMemory};
ghost use Rattle.plc_json.specs.Asking.{bytes_of};

use il_model::ImageBytes;
use il_text::{Fault, image_bytes};
use plc_json::change_text;
use std::alloc::Global;

/// The command that goes on with the program of a text, as a text of JSON; or the first fault. `Commands` is the fault
/// of a good text whose image has more than `MOST_IMAGE_BYTES`.
pub fn change_to(alloc: Global, text: &[u8]) -> Result<Vec<u8>, Fault>
    // The image in it is that of the typed program that the text says.
    ensures found { IfOk result (λ v. IsChangeTo text.now v.items) }
    ensures refused { IfErr result (OrMemory (IsFaultOfChange text.now)) }
{
    let image = image_bytes(alloc, text)?;
    let Some(bytes) = ImageBytes::new(image) else {
        return Err(Fault::Commands);
    };
    Ok(change_text(alloc, &bytes)?)
}

/// The lines by which a console goes on with the program of a text: that command alone. Its faults are those of
/// `change_to`.
pub fn change_lines(alloc: Global, text: &[u8]) -> Result<Vec<Vec<u8>>, Fault>
    ensures found { IfOk result (λ v. IsChangeAlone text.now (map bytes_of v.items)) }
    ensures refused { IfErr result (OrMemory (IsFaultOfChange text.now)) }
{
    let line = change_to(alloc, text)?;
    let mut lines = Vec::new(alloc);
    lines.push(line)?;
    Ok(lines)
}
