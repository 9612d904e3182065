//! The loop of a thread that owns a replica, over any link, timer, gate and store; and what a replica runs with.
//!
//! ```rust
//! use vr_serving::{Seat, serve};
//!
//! let mut seat = Seat { link, store, timer, gate };
//! serve(alloc, &mut replica, &mut seat, &mut shown, u64::MAX); // until its link is closed
//! ```
//!
//! Proved: `serve` takes exactly its turns, or fewer where the link is closed; each takes one event at most, and what
//! was handed to `send` is, in order, the sends of `Replica::step` on these events (`specs/Serving`). Before anything
//! of a step is shown or sent, the gate has looked at the replica as it is then. What `serve` showed last is what the
//! replica is after its last step (`specs/Showing`). How the steps of a group come to one history is said in
//! `laws_threads`.
//!
//! No contract says what a gate looks at, unless its `has_seen` does, or that a timer is told of what is heard
//! (`tools/try/try-serve`: a group whose machines are all there keeps its primary).
#![tactic(auto)]

mod observer;
mod seat;
mod serving;

pub use observer::Observer;
pub use seat::Seat;
pub use serving::{act, serve, serve_from};
