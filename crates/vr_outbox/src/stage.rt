//! How far what was put is flushed.

ghost use Rattle.std.specs.Prelude.{◌≡◌};
ghost use Rattle.vr_outbox.specs.Stages.{behind_begin, behind_end, behind_put};

/// How far what was put is flushed.
#[derive(Clone, Copy, PartialEq, Eq)]
pub enum Stage {
    /// All of it is.
    Flushed,
    /// Some of it isn't, and no flush is under way.
    Unflushed,
    /// Some of it isn't, and the flush under way covers that.
    Flushing,
    /// A flush is under way, and some was put since it began.
    Behind,
}

impl Stage {
    /// One more was put.
    pub(crate) fn put(self) -> Stage
        ensures { result ≡ behind_put self }
    {
        match self {
            Stage::Flushed | Stage::Unflushed => Stage::Unflushed,
            Stage::Flushing | Stage::Behind => Stage::Behind,
        }
    }

    /// A flush begins, where some of what was put waits for one and none is under way.
    pub(crate) fn begin(self) -> Stage
        ensures { result ≡ behind_begin self }
    {
        match self {
            Stage::Unflushed => Stage::Flushing,
            other => other,
        }
    }

    /// The flush under way is over, if one is.
    pub(crate) fn end(self) -> Stage
        ensures { result ≡ behind_end self }
    {
        match self {
            Stage::Flushing => Stage::Flushed,
            Stage::Behind => Stage::Unflushed,
            other => other,
        }
    }
}
