//! A file that counts.

ghost use Rattle.std.specs.Prelude.{◌≡◌, ◌-◌, ◌^◌, ℕ, List, Option, IfOk, IsErrOf, MatchOption, true};
ghost use Rattle.byteorder.specs.Endian.{big_bytes};
ghost use Rattle.io_model.specs.Streams.{Failed};
ghost use Rattle.io_shelf.specs.Counts.{IsCount, IsLeftOrNext, IsNext, counted};
ghost use Rattle.io_shelf.specs.Shelves.{LeavesOnly, Only, content_of};
ghost use Rattle.io_shelf.specs.declared.counted_file.CountFault.TheVariants.{Full, Spoiled, Unkept};
ghost use Rattle.io_shelf.specs.declared.shelf.ShelfFault.{ShelfFault as Fault};

use crate::shelf::{Shelf, ShelfFault};
use byteorder::{BigEndian, ByteOrder};
use thiserror::Error;

/// Why nothing was counted.
#[derive(Clone, Copy, Debug, PartialEq, Eq, Error)]
pub enum CountFault {
    /// The file couldn't be read or changed.
    #[error("count not kept")]
    Unkept(ShelfFault),
    /// The file is no count.
    #[error("count spoiled")]
    Spoiled,
    /// There is no greater number.
    #[error("count full")]
    Full,
}

impl From<ShelfFault> for CountFault {
    ghost from_gives = { λ fault e. e ≡ Unkept fault };

    fn from(fault: ShelfFault) -> CountFault {
        CountFault::Unkept(fault)
    }
}

/// A count that outlives the process, in a file of eight bytes.
#[derive(Drop)]
pub struct CountedFile<S> {
    shelf: S,
}

/// The count that a file has: 0 where it isn't there, none where it has other than eight bytes.
fn count_in(content: &Option<Vec<u8>>) -> Option<u64>
    ensures { MatchOption result ((n : ℕ) → IsCount (content_of content.now) n → ⊥)
        (λ n. IsCount (content_of content.now) n) }
{
    let Some(bytes) = content else {
        return Some(0);
    };
    if bytes.len() != 8 {
        return None;
    }
    Some(BigEndian::read_u64(bytes.as_slice()))
}

/// The bytes of a file with this count.
fn spelt(count: u64) -> [u8; 8]
    ensures { result ≡ big_bytes 8 count }
{
    let mut bytes = [0u8; 8];
    BigEndian::write_u64(&mut bytes, count);
    bytes
}

impl<S: Shelf> CountedFile<S> {
    /// The count of this file.
    pub fn new(shelf: S) -> CountedFile<S>
        ensures { result.shelf ≡ shelf }
    {
        CountedFile { shelf }
    }

    /// Counts one more, and answers it: by then the file has it, whatever happens. Wherever the process is killed, the
    /// file has what it had or one more. `Spoiled` is answered where the file is no count, `Full` where there is no
    /// greater one.
    pub fn count(&mut self) -> Result<u64, CountFault>
        ensures next { IfOk result (λ n. IsNext (S.may_leave self.old.shelf) n) }
        ensures settled { IfOk result (λ n. Only (counted n) (S.may_leave self.new.shelf)) }
        ensures left { (c : Option (List ℕ)) → S.may_leave self.new.shelf c
            → IsLeftOrNext (S.may_leave self.old.shelf) c }
        ensures any_moment { S.tells ≡ true → LeavesOnly S.moment S.left_since self.old.shelf self.new.shelf
            (IsLeftOrNext (S.may_leave self.old.shelf)) }
        ensures device { (fault : Fault) → IsErrOf result (Unkept fault)
            → Failed (S.faults self.old.shelf) (S.faults self.new.shelf) }
        ensures spoiled { IsErrOf result Spoiled
            → (c : Option (List ℕ)) × S.may_leave self.old.shelf c × ((n : ℕ) → IsCount c n → ⊥) }
        ensures full { IsErrOf result Full
            → (c : Option (List ℕ)) × S.may_leave self.old.shelf c × IsCount c (2 ^ 64 - 1) }
    {
        let found = self.shelf.read()?;
        let Some(count) = count_in(&found) else {
            return Err(CountFault::Spoiled);
        };
        if count == u64::MAX {
            return Err(CountFault::Full);
        }
        self.shelf.replace(spelt(count + 1).as_slice())?;
        Ok(count + 1)
    }
}
