//! What a file may have.

ghost use Rattle.std.specs.Prelude.{◌≡◌, ◌↔◌, IfOk, IsTrue};
ghost use Rattle.io_shelf.specs.Held.{IsOneOf, IsUnread};
ghost use Rattle.io_shelf.specs.Shelves.{NoMore, OldOrNew, content_of};

use std::alloc::{AllocError, Global};

/// What a file may have, by what was read of it and put there.
#[derive(Drop)]
pub(crate) enum Held {
    /// Before the first read: whatever an earlier process left.
    Unknown,
    /// Behind a read, or a change that was made.
    One(Option<Vec<u8>>),
    /// Behind a change that failed: what was there, or what it was to be.
    OneOf(Option<Vec<u8>>, Option<Vec<u8>>),
}

/// Whether two files have the same bytes, or neither is there.
fn are_same(one: &Option<Vec<u8>>, other: &Option<Vec<u8>>) -> bool
    ensures { IsTrue result ↔ (content_of one.now ≡ content_of other.now) }
{
    match (one, other) {
        (Some(one), Some(other)) => one.as_slice() == other.as_slice(),
        (None, None) => true,
        _ => false,
    }
}

/// The same bytes once more.
pub(crate) fn copied(
    alloc: Global,
    content: &Option<Vec<u8>>,
) -> Result<Option<Vec<u8>>, AllocError>
    ensures { IfOk result (λ copy. content_of copy ≡ content_of content.now) }
{
    match content {
        Some(bytes) => Ok(Some(bytes.as_slice().to_vec(alloc)?)),
        None => Ok(None),
    }
}

impl Held {
    /// Whether the file may have this.
    pub(crate) fn has(&self, found: &Option<Vec<u8>>) -> bool
        ensures { IsTrue result ↔ IsOneOf self.now (content_of found.now) }
    {
        match self {
            Held::Unknown => true,
            Held::One(one) => are_same(found, one),
            Held::OneOf(one, other) => are_same(found, one) || are_same(found, other),
        }
    }

    /// Whether it has just one content, that is known.
    pub(crate) fn is_settled(&self) -> bool {
        matches!(self, Held::One(_))
    }

    /// Whether a change failed, and the file was not read since.
    pub(crate) fn is_unread(&self) -> bool
        ensures { IsTrue result ↔ IsUnread self.now }
    {
        matches!(self, Held::OneOf(_, _))
    }

    /// What it may have behind a change to this that failed: what it had, and this.
    pub(crate) fn or(self, new: Option<Vec<u8>>) -> Held
        requires { IsUnread self → ⊥ }
        ensures old { NoMore (IsOneOf result) (IsOneOf self) }
        ensures new { IsOneOf result (content_of new) }
        ensures no_more { OldOrNew (content_of new) (IsOneOf self) (IsOneOf result) }
    {
        match self {
            Held::One(old) => Held::OneOf(old, new),
            other => other,
        }
    }
}
