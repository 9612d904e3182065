//! What the thread of a replica leaves for those who want to see its controller: a snapshot of it where one is wanted,
//! and how many inputs and outputs are forced. No scan waits for whoever looks, and who doesn't look costs nothing.
//!
//! ```rust
//! let board = Arc::new(alloc, SnapshotBoard::new())?;
//! let gate = SightGate::new(host, Arc::try_clone(&board)?); // of a replica's seat: it looks behind each step
//! let snapshot = board.get(&rt, TRIES); // one that is newer than this call, if the replica leads
//! let forced = board.forces();
//! ```
//!
//! A snapshot is taken between two steps of its replica, by that replica's own thread: it's of one controller, after
//! whole commands (`Replica::snapshot`). Whoever wants one gets none that was taken before: wishes are counted, and each
//! snapshot has how many there were when it was begun.
//!
//! Proved: what was left is taken only by who wished for one before it was begun (`take`). Commands behind which the
//! number of forces isn't looked at anew leave what is forced as it was, whatever the controller is (`forces_stay`).
//!
//! By its code alone, and tried by `tools/try/try-serve`: that a snapshot is left soon where one is wanted, and that
//! all other commands are seen, so that the number of forces is right behind each of them.
#![tactic(auto)]

mod board;
mod gate;
mod watch;

pub use board::{SnapshotBoard, Wish};
pub use gate::SightGate;
pub use watch::{ForceWatch, forces_stay};
