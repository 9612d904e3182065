//! Links of replicas over connections of this machine: messages go as frames of `vr_wire` over TCP on 127.0.0.1, a
//! connection for each pair of ends. What goes out and what comes in is told by the ends of a connection (`net_ends`).
//!
//! ```rust
//! use vr_ports::{Cutter, Relink};
//! use net_links::links;
//!
//! // three replicas and a client, by number; a receive waits for 50 ms at most
//! let links = links(&rt, alloc, 3, 1, Duration::from_millis(50)).ok()?;
//! let cutter = links.first()?.cutter().ok()?;
//! cutter.cut(); // from any thread: this link gives Closed from now on, until it's made anew by `renew`
//! ```
//!
//! Proved: a message that a link gives is from the party whose connection was read last to its own party (`receive`);
//! of what a connection brings exactly the messages from its other party to this one are kept (`keep_own`). In a mailbox
//! a newer end of a connection takes the place of the earlier one of the same party, so of each party one waits at most.
//! Each call is safe and returns, but for the wait of a poll.
//!
//! Tested (`link_rows` of `tests_parts`): that messages come in order, that a link is closed where it's cut and once
//! all others are, and made anew, that a connection which is over is made anew while the link at neither end is cut,
//! that a message without a frame is counted, that a stranger who was faster is refused; and that crashes leave no
//! descriptor (`tools/try/try-serve`).
//! In no clause: that a socket delivers, what a poll reports, that a send doesn't wait, that a receive reads no more
//! than 1 MiB of one connection.
#![tactic(auto)]

mod connecting;
mod group;
mod hub;
mod peer;
mod tcp_link;

pub use connecting::pair;
pub use group::links;
pub use hub::TcpCutter;
pub use peer::{is_between, is_same, keep_own};
pub use tcp_link::TcpLink;
