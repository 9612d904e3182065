//! A controller that other consoles give commands, too: what a session is to know of it first, its replica tells.

use il_model::{Budget, Snapshot};
use plc_sight::SnapshotBoard;
use std::sync::{Arc, Wait};
use std::time::Clock;

/// So often a snapshot is looked for of a replica that takes part: it may rest for a whole period before it leaves one.
const MANY_TRIES: u32 = 2000;

/// So often it's looked for of another one.
const TRIES: u32 = 200;

/// So often it's looked for.
pub(crate) fn tries(takes_part: bool) -> u32 {
    if takes_part { MANY_TRIES } else { TRIES }
}

/// What a console knows its controller by where others give it commands, too.
#[derive(Drop)]
pub struct Others {
    /// Where a replica of its machine leaves a snapshot.
    pub board: Arc<SnapshotBoard>,
    /// How many instructions a scan may perform.
    pub budget: Budget,
    /// The number of that replica, of which alone it tells.
    pub replica: u8,
}

impl Others {
    /// A snapshot of the controller that is newer than this call, if the replica has one within a second, or within ten
    /// where it's known to take part.
    pub(crate) fn snapshot<R: Wait + Clock>(&self, rt: &R, takes_part: bool) -> Option<Snapshot> {
        self.board.get(rt, tries(takes_part))
    }
}
