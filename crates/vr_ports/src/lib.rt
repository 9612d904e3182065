//! What stands between replicas and the outside: the ways of their messages (`Link`, `Relink`, `Cutter`), the `Timer`
//! that says when they are late, the `Gate` round their steps, and the places of a group's parties (`party_at`). It
//! runs nothing, and knows no controller.
//!
//! ```rust
//! use vr_ports::{Input, Link, party_at};
//!
//! let first = party_at(3, 0); // Party::Replica(0) of three replicas; place 3 is client 0
//! link.send(message);
//! match link.recv() {
//!     Input::Message(message) => take(message),
//!     Input::Nothing => {} // none came for a while
//!     Input::Closed => return, // none will come any more
//! }
//! ```
//!
//! Proved: `party_at` gives the party of each place, and none where there is none; `send_all` hands each message to its
//! link, in order. What a link or a timer tells grows by what it gave and took, and by nothing else: each `impl` owes
//! that, if it tells anything.
#![tactic(auto)]

mod gate;
mod link;
mod party;
mod timer;

pub use gate::{Gate, OpenGate};
pub use link::{Cutter, Input, Link, Relink, Unlinked, send_all};
pub use party::party_at;
pub use timer::{Tick, Timer};
