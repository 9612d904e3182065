//! What machines of a group say to one another while they recover.

use crate::told::Told;

/// An answer to a question.
#[derive(Clone, Copy)]
pub struct Answer {
    /// The nonce under which the machine asked that is answered. It asks once under a nonce, so its question is known
    /// by that.
    pub question: u64,
    /// The nonce under which the machine recovers that answers.
    pub nonce: u64,
}

/// A word between two machines that have begun one epoch. All of them are said again and again, and may come late, more
/// than once, in any order, or never.
#[derive(Clone, Copy)]
pub enum Word {
    /// Freeze, and tell it.
    Freeze { question: u64 },
    /// It's frozen.
    Frozen(Answer),
    /// Say whether you're still frozen, under the nonce that you told.
    Confirm { question: u64, asked: Told },
    /// It's still frozen.
    StillFrozen(Answer),
    /// To who asks to freeze: it doesn't, since the program was changed in the epoch, and its store has the one before.
    Marked { question: u64 },
}
