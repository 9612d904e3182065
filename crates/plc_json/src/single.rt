//! The text of a change.

ghost use Rattle.std.specs.Prelude.{◌≡◌, ◌≤◌, IfOk, Ok, Some, codes, string_bytes};
ghost use Rattle.hex.specs.Hex.{decode_of};
ghost use Rattle.il_model.specs.declared.command.Command.TheVariants.{Change};
ghost use Rattle.serde_json.specs.Data.{depth};
ghost use Rattle.serde_json.specs.Read.{max_depth};
ghost use Rattle.serde_json.specs.View.{view};
ghost use Rattle.plc_json.specs.Commands.{Plain, command_of};
ghost use Rattle.plc_json.specs.Asking.{IsChange, digits_data};

use il_model::{ImageBytes, is_short_image};
use serde_json::{Value as Json, json};
use std::alloc::{AllocError, Global};

/// The text of the command that goes on with the program of this image: JSON (RFC 8259) without white space between its
/// tokens. It fails only where memory runs out.
pub fn change_text(alloc: Global, image: &ImageBytes) -> Result<Vec<u8>, AllocError>
    ensures { IfOk result (λ v. IsChange image.now v.items) }
{
    let json = change_value(alloc, image)?;
    Ok(json.to_vec(alloc)?)
}

/// The command that goes on with the program of this image, as a value of JSON.
fn change_value(alloc: Global, image: &ImageBytes) -> Result<Json, AllocError>
    ensures says { IfOk result (λ v. command_of (view v) ≡ Some (Plain (Change image.now))) }
    ensures nests { IfOk result (λ v. depth (view v) ≤ max_depth) }
{
    let bytes = image.as_slice();
    let digits = digits_of(alloc, bytes)?;
    if is_short_image(bytes) {
        digits_value(alloc, digits)
    } else {
        long_digits_value(alloc, digits)
    }
}

/// The hex digits of bytes.
fn digits_of(alloc: Global, bytes: &[u8]) -> Result<String, AllocError>
    ensures { IfOk result (λ s. decode_of (string_bytes s) ≡ Ok bytes.now) }
{
    hex::encode(alloc, bytes)
}

/// An object with one member, the hex digits of a change to an image that isn't long.
fn digits_value(alloc: Global, digits: String) -> Result<Json, AllocError>
    ensures { IfOk result (λ v. view v ≡ digits_data (codes "change") (string_bytes digits)) }
{
    json!(in alloc; {"change": digits})
}

/// One with those of a change to a long image.
fn long_digits_value(alloc: Global, digits: String) -> Result<Json, AllocError>
    ensures { IfOk result (λ v. view v ≡ digits_data (codes "long_change") (string_bytes digits)) }
{
    json!(in alloc; {"long_change": digits})
}
