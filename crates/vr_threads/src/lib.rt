//! Replicas, each started and served by a thread of its own (`vr_serving` has its loop); links over channels; a store
//! in a file; and the machine's time as a timer. A `Cluster` has a whole group in one process, an `OwnReplica` is one
//! replica, as of a machine that has no other. What shows of each replica others read (`vr_shown`). A disk that hangs
//! holds up its replica and nobody else: orders wait for nothing.
//!
//! ```rust
//! use vr_threads::{FileStore, Starts};
//!
//! let mut store = FileStore::new(rt, alloc, "stores", 0).ok()?; // DIR/replica-0, which its first start makes
//! let stored = store.begin().ok()?; // the view that it kept, and how often it was started
//! ```
//!
//! Proved: from whatever is known of the replica a restart is an observation that is right by the rules
//! (`restart_is_observed`). `FileStore`: what its file may hold after each load, save and start, by what the calls
//! answered, and that what is read of it is its 16 bytes or a fault. A save that failed is tried again, behind a read
//! of what the store holds by then (`PatientStore`, `specs/Trying`). The first start finds the replica normal in view
//! 0, each later one finds it down, with the start's number as its nonce; the thread of a replica has it come up with
//! that before all else (`specs/Working`), and serves it then. Where a process starts its replica again and again, its
//! store counts one start, and all have numbers that rise (`NumberedStarts`, `specs/Numbering`). A start that is
//! another one than was judged fails (`JudgedStarts`): a blank file begins no replica anew. Which tick comes, by what a
//! timer heard (`specs/Patience`), and in a group of machines by who is near and reached (`specs/Patience`): no timeout
//! while fewer than f are near, but of a primary. How the steps of a group come to one history is said in
//! `laws_threads`.
//!
//! Only tested (`tools/try/try-serve`): that replicas run at once, that a group over channels answers, also while a
//! replica crashes, that nobody waits for a disk that hangs, what a start makes of real files, and that a file that was
//! taken away is put back. No contract says that a channel hands out what was sent, or that a disk keeps what was
//! flushed.
#![tactic(auto)]

mod channels;
mod cluster;
mod file_store;
mod group_patience;
mod group_timer;
mod judged_starts;
mod laws;
mod machine_timer;
mod numbered_starts;
mod numbers;
mod own_replica;
mod patience;
mod patient_store;
mod saves;
mod starting;
mod working;

pub use channels::{ChannelCutter, ChannelLink, Switchboard};
pub use cluster::{Cluster, ClusterConfig, ClusterError, ClusterThreads};
pub use file_store::FileStore;
pub use group_patience::{GroupPatience, GroupTimes};
pub use group_timer::{GroupTimer, Neighbours};
pub use judged_starts::JudgedStarts;
pub use laws::{observations_join, restart_is_observed};
pub use machine_timer::MachineTimer;
pub use numbered_starts::NumberedStarts;
pub use own_replica::OwnReplica;
pub use patient_store::PatientStore;
pub use saves::{Pauses, Saves};
pub use starting::Starts;
pub use vr_serving::{Observer, Seat, serve};
