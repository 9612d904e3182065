//! Which journal a start goes on with.

ghost use Rattle.std.specs.Prelude.{◌≡◌, IfOk};
ghost use Rattle.vr_durable.specs.Lives.{IsFound, of_last_life};

use std::alloc::{AllocError, Global};
use vr_journal::{File, Kept, choose};

/// What a file keeps, if it was in use in the last of so many starts, or since. Else some life went on without it: it's
/// void.
fn of_last_life(kept: Option<Kept>, counted: u64) -> Option<Kept>
    ensures { result ≡ of_last_life counted kept }
{
    match kept {
        Some(kept) if counted <= kept.start => Some(kept),
        _ => None,
    }
}

/// The file that a start goes on with, and what it keeps, of both files of an owner's journal, where so many starts
/// were counted before: none where no file is whole and of the last life. It fails only where memory runs out.
pub fn find(
    alloc: Global,
    owner: &[u8],
    first: &[u8],
    second: &[u8],
    counted: u64,
) -> Result<Option<(File, Kept)>, AllocError>
    ensures { IfOk result (λ found. IsFound owner.now first.now second.now counted found) }
{
    let one = Kept::read(alloc, owner, first)?;
    let other = Kept::read(alloc, owner, second)?;
    Ok(choose(of_last_life(one, counted), of_last_life(other, counted)))
}
