//! The program to which a change was made in the epoch of a store.

ghost use Rattle.std.specs.Prelude.{◌≡◌, ◌⊎◌, IfErr, IfOk, MatchResult, Ok, Err, option_map};
ghost use Rattle.plc_store.specs.Changed.{IsChangedTo, IsNotChanged, changed_to, image_marked};
ghost use Rattle.plc_store.specs.Judging.{IsUnread};

use crate::directory::StoreDirectory;
use crate::judging::{Refusal, is_changed};
use crate::marking::image_of_mark;
use crate::opening::stored_in;
use plc_epochs::Kept;
use std::alloc::Global;

/// The image that a mark has of a change in the epoch that a store has begun.
fn image_marked<'a>(kept: &Kept, mark: Option<&'a [u8]>) -> Option<&'a [u8]>
    ensures { option_map (λ image. image.now) result
        ≡ image_marked kept.now (option_map (λ bytes. bytes.now) mark.entry) }
{
    match kept {
        Kept::Begun(epoch) => image_of_mark(epoch, mark?),
        _ => None,
    }
}

/// The image to which the program was changed in the epoch that a store has begun, by what the mark's file has. It's
/// `NotChanged` where it wasn't, and `NoImage` where the mark is torn or has no image.
fn changed_to<'a>(kept: &Kept, mark: Option<&'a [u8]>) -> Result<&'a [u8], Refusal>
    ensures { let changed = changed_to kept.now (option_map (λ bytes. bytes.now) mark.entry) in
        MatchResult result (λ image. changed ≡ Ok image.now) (λ e. changed ≡ Err e) }
{
    if !is_changed(kept, mark) {
        return Err(Refusal::NotChanged);
    }
    match image_marked(kept, mark) {
        Some(image) => Ok(image),
        None => Err(Refusal::NoImage),
    }
}

/// The image to which the program of a directory's store was changed in its epoch. It's `NotChanged` where it wasn't, and
/// `NoImage` where its mark is torn or has no image.
pub fn changed_in<D: StoreDirectory>(alloc: Global, directory: &D) -> Result<Vec<u8>, Refusal>
    ensures found { IfOk result (λ image.
        IsChangedTo (D.group directory.now) (D.mark directory.now) image.items) }
    ensures refused { IfErr result (λ e. IsUnread (D.group directory.now) e
        ⊎ IsNotChanged (D.group directory.now) (D.mark directory.now) e) }
{
    let store = stored_in(alloc, directory)?;
    let image = changed_to(&store.header.kept, directory.mark())?;
    Ok(Vec::from_slice(alloc, image)?)
}
