//! What befalls a group in a run, and how soon it has to be well.

use crate::kinds::{Kind, Kinds};
use crate::limits::Limits;

/// What befalls a group in a run, and how soon it has to be well.
#[derive(Clone, Copy)]
pub struct Trial {
    pub kinds: Kinds,
    pub limits: Limits,
    /// Whether an operator resets its program now and then.
    pub resets: bool,
}

impl Trial {
    /// Whether all lose their power where all is well, and whether the machine that leads is killed there.
    pub(crate) fn strikes(&self) -> (bool, bool) {
        (self.kinds.has(Kind::Power), self.kinds.has(Kind::Crash))
    }
}
