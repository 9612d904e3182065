//! Which of two files is gone on with.

ghost use Rattle.vr_journal.specs.Journals.{Chooses};

use crate::kept::Kept;

/// One of the two files of a replica's journal.
#[derive(Clone, Copy)]
pub enum File {
    First,
    Second,
}

/// The file that is gone on with, and what it keeps: of two that keep something the one with the greater generation.
pub fn choose(first: Option<Kept>, second: Option<Kept>) -> Option<(File, Kept)>
    ensures { Chooses first second result }
{
    match (first, second) {
        (Some(a), Some(b)) if a.generation < b.generation => Some((File::Second, b)),
        (Some(a), _) => Some((File::First, a)),
        (None, Some(b)) => Some((File::Second, b)),
        (None, None) => None,
    }
}
