//! The released outputs, as a session shows them.
ghost use Rattle.modbus_server.specs.Sessions.{IsJudged};

use io_image::{Ages, Naming, ReleasedReader, is_stale};
use modbus_replies::Access;

/// Released outputs, with what tells their age, as one client is served them. They are shown whatever that is, unless
/// there's a limit.
#[derive(Drop)]
pub struct Outputs<J: Naming, A: Ages> {
    pub released: ReleasedReader<J>,
    pub ages: A,
    /// In milliseconds: those aren't shown that were released longer ago, or never.
    pub limit: Option<u32>,
    /// Whether the client may write, too.
    pub access: Access,
}

impl<J: Naming, A: Ages> Outputs<J, A> {
    /// Whether those that are read from now on may not be shown: so whatever is shown is no older than the limit.
    pub(crate) fn are_stale(&self) -> bool
        ensures { IsJudged self.now.limit result }
    {
        match self.limit {
            Some(limit) => is_stale(Some(limit), self.ages.age()),
            None => false,
        }
    }
}
