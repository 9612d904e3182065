//! The stage of a node that takes over.

ghost use Rattle.std.specs.Prelude.{◌≡◌, OnOk, length};
ghost use Rattle.io_image.specs.Book.{cells_of, Changed};

use il_model::InImage;
use io_image::{StageError, Staging};

/// There is an input for each bit and each word. For proofs; it does nothing.
fn know_whole(inputs: &InImage)
    ensures bits { length inputs.now.cells.bits ≡ 512 }
    ensures words { length inputs.now.cells.words ≡ 64 }
{
    let _bit = inputs.cells.bits[0];
    let _word = inputs.cells.words[0];
}

/// Fills the staged inputs with those of the last scan, so that no input falls to FALSE where a node takes over.
/// What was written before is overwritten.
pub(crate) fn fill<S: Staging>(staging: &mut S, inputs: &InImage) -> Result<(), StageError>
    ensures { OnOk result (Changed (S.told staging.old) (S.told staging.new)
        (λ before after. cells_of after ≡ inputs.now.cells)) }
{
    let shown = staging.sample().inputs;
    know_whole(&shown);
    know_whole(inputs);
    staging.write_bits(0, inputs.cells.bits.as_slice())?;
    staging.write_words(0, inputs.cells.words.as_slice())?;
    Ok(())
}
