//! The listing of the image that bytes are.

ghost use Rattle.std.specs.Prelude.{◌≡◌, ◌≤◌, ◌⊎◌, IfErr, IfOk, OnOk};
ghost use Rattle.il_model.specs.Fits.{IsImage};
ghost use Rattle.il_model.specs.Image.{spelling};
ghost use Rattle.plc_tool.specs.Calls.{IsListed, IsCutShort};
ghost use Rattle.il_text.specs.Meaning.{IsImageFault, OrMemory};

use il_lister::{ListFault, list};
use il_loader::{Image, load};
use il_text::Fault;
use io_model::CountedWrite;
use std::alloc::Global;

/// The image that bytes are, or the first fault of bytes that are none.
fn image_in(alloc: Global, bytes: &[u8]) -> Result<Image, Fault>
    ensures found { IfOk result (λ i. IsImage i × (bytes.now ≡ spelling i)) }
    ensures refused { IfErr result (OrMemory (IsImageFault bytes.now)) }
{
    Ok(load(alloc, bytes)?)
}

/// Writes the listing of the image that bytes are. Of bytes that are no image it tells the first fault, or that memory
/// ran out, and writes nothing. It answers Device only where the writer failed in this call; then a prefix of the
/// listing went out.
pub fn put_listing<W: CountedWrite>(alloc: Global, bytes: &[u8], out: &mut W) -> Result<(), Fault>
    ensures ok { OnOk result (IsListed bytes.now (W.held out.old) (W.held out.new)) }
    ensures err { IfErr result (λ e. ((e ≡ Fault.Device) × IsCutShort W.CountedWrite bytes.now out.old out.new)
        ⊎ (OrMemory (IsImageFault bytes.now) e × (out.new ≡ out.old))) }
    ensures counts { W.faults out.old ≤ W.faults out.new }
{
    let image = image_in(alloc, bytes)?;
    match list(&image, out) {
        Ok(()) => Ok(()),
        Err(ListFault::Device) => Err(Fault::Device),
    }
}
