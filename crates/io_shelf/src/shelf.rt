//! A file that is put in its place whole.

use std::io;
use std::io::ErrorKind;
use thiserror::Error;

/// Why a file can't be read or changed, as far as the system says it.
#[derive(Clone, Copy, Debug, PartialEq, Eq, Error)]
pub enum ShelfFault {
    /// The file, or its directory, may not be read or written.
    #[error("no rights")]
    Rights,
    /// The disk is full.
    #[error("disk full")]
    Space,
    /// The directory is gone.
    #[error("directory missing")]
    Missing,
    /// It has bytes that were neither found nor put there.
    #[error("changed by another")]
    Changed,
    /// A change failed before, and the file was not read since.
    #[error("not read since a change failed")]
    Unread,
    /// Memory ran out.
    #[error("memory")]
    Memory,
    /// Something else failed.
    #[error("failed")]
    Other,
}

impl From<io::Error> for ShelfFault {
    fn from(error: io::Error) -> ShelfFault {
        match error.kind() {
            ErrorKind::PermissionDenied | ErrorKind::ReadOnlyFilesystem => ShelfFault::Rights,
            ErrorKind::StorageFull | ErrorKind::QuotaExceeded => ShelfFault::Space,
            ErrorKind::NotFound => ShelfFault::Missing,
            _ => ShelfFault::Other,
        }
    }
}

/// A file that is read whole, and put in its place whole. Wherever the process is killed, or the power is cut, it has
/// what it had or what it was being changed to. It counts its failures.
pub trait Shelf {
    ghost use Rattle.std.specs.Prelude.{◌≡◌, ◌≤◌, ℕ, Bool, List, Option, None, Some, IfOk, OnErr, OnOk, true};
    ghost use Rattle.io_model.specs.Streams.{Failed};
    ghost use Rattle.io_shelf.specs.Shelves.{Elapses, NoMore, OldOrNew, Only, content_of};

    // Whether it tells its moments.
    ghost tells: { Bool };

    // What a kill or a power cut at this moment may leave of the file: its bytes, or none where it isn't there.
    ghost may_leave: { Self → Option (List ℕ) → Type 0 };

    // The moment, as a number that doesn't fall.
    ghost moment: { Self → ℕ };

    // What a kill at some moment since that one might have left, within a call or between two.
    ghost left_since: { Self → ℕ → Option (List ℕ) → Type 0 };

    ghost faults: { Self → ℕ };

    /// Its bytes, or none where it isn't there: one of the contents that may be left, and from then on the only one.
    fn read(&mut self) -> Result<Option<Vec<u8>>, ShelfFault>
        ensures found { IfOk result (λ found. may_leave self.old (content_of found)) }
        ensures settled { IfOk result (λ found. Only (content_of found) (may_leave self.new)) }
        ensures no_more { NoMore (may_leave self.old) (may_leave self.new) }
        ensures time { Elapses (moment self.old) (moment self.new) (left_since self.old) (left_since self.new)
            (may_leave self.new) }
        ensures device { OnErr result (Failed (faults self.old) (faults self.new)) }
        ensures counts { faults self.old ≤ faults self.new };

    /// Puts these bytes in its place. Where that fails it may have what it had still, or these.
    fn replace(&mut self, bytes: &[u8]) -> Result<(), ShelfFault>
        ensures settled { OnOk result (Only (Some bytes.now) (may_leave self.new)) }
        ensures old_or_new { OldOrNew (Some bytes.now) (may_leave self.old) (may_leave self.new) }
        ensures failed { OnErr result (NoMore (may_leave self.new) (may_leave self.old)) }
        ensures time { Elapses (moment self.old) (moment self.new) (left_since self.old) (left_since self.new)
            (may_leave self.new) }
        ensures device { OnErr result (Failed (faults self.old) (faults self.new)) }
        ensures counts { faults self.old ≤ faults self.new };

    /// Takes it away, if it's there. Where that fails it may have what it had still, or be gone.
    fn remove(&mut self) -> Result<(), ShelfFault>
        ensures settled { OnOk result (Only None (may_leave self.new)) }
        ensures old_or_new { OldOrNew None (may_leave self.old) (may_leave self.new) }
        ensures failed { OnErr result (NoMore (may_leave self.new) (may_leave self.old)) }
        ensures time { Elapses (moment self.old) (moment self.new) (left_since self.old) (left_since self.new)
            (may_leave self.new) }
        ensures device { OnErr result (Failed (faults self.old) (faults self.new)) }
        ensures counts { faults self.old ≤ faults self.new };

    // Something is left at each moment.
    ghost leaves_some: { (s : Self) → (c : Option (List ℕ)) × may_leave s c };

    // This moment is one of those since an earlier one.
    ghost counts_now: { (s : Self) (t : ℕ) (c : Option (List ℕ)) → t ≤ moment s → may_leave s c → left_since s t c };

    // Since this moment there is no other, if it tells.
    ghost only_now: { (s : Self) (c : Option (List ℕ)) → tells ≡ true → left_since s (moment s) c → may_leave s c };
}
