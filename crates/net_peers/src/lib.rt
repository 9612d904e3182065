//! Links of the parties of one machine, in a group whose replicas run on several: frames over connections to the
//! parties of other machines, and messages of the machine's own parties in memory. Only replicas listen; each
//! connection begins with a hello (`net_hello`) and goes on with records (`net_records`), so an end that falls silent
//! is dialled again. A connection may also be a visit: one frame of another kind, which nobody answers. Where the group
//! has a key, both ends say challenges first (`net_keys`), and all that they say behind them has sums (`net_sealed`).
//!
//! ```rust
//! use net_peers::{Machine, Pulse, machine_links, visit};
//!
//! let pulse = Pulse::of(100, 25); // a beat each 25 ms; near is of whom something came within 60 ms
//! let (number, starts, fresh, has_console) = (0, 3, 140, true);
//! let machine = Machine { identity, epoch, starts, fresh, store, seen, number, replicas, has_console, keys, pulse };
//! // the links of replica 0, of driver 0 and of the console, which is client 8
//! let (exchange, links) = machine_links(rt, alloc, &machine, listener, Duration::from_millis(5))?;
//! let is_connected = exchange.reached() & 0b10 != 0; // to replica 1; `near`: it was heard of just now
//! for notice in exchange.notices(&rt, alloc) {} // LinkNotice::Joined(..), Lost(..), Forged(..), Refused(..), Unmet(..)
//! for (replica, epoch) in exchange.hellos(&rt, alloc) {} // said by replicas of other machines, accepted or refused
//! for (machine, store) in exchange.stores(&rt, alloc) {} // seen for the first time in this epoch: to be kept
//! let visitor = Visitor { keys, from: 0, to: 1 }; // at machine 1's replica, without a link
//! visitor.visit(&rt, alloc, address, frame, Duration::from_millis(50));
//! for visit in exchange.visits(&rt, alloc) {} // each of VISIT bytes, and by whom, where there's a key
//! ```
//!
//! Proved: when a connection is dialled, given up after 400 ms, dialled again after 50 to 400 ms, kept alive by a beat,
//! and over after 500 ms of silence, and when its other end is near, as definitions (`Course`, `Pulse`). A message that
//! a link gives is to its own party, and came from the machine's own parties or over a connection whose other end said
//! a hello that was accepted, of another party of this group in this epoch, which is the message's sender; then it's no
//! scan. What is known of a party is the store of its machine, from its first accepted hello on, and its starts, as
//! long as it's connected and ten seconds longer (`specs/Heard`). Where more than 1 MiB would wait for a party with a
//! message, it's lost, and nothing of it goes. A refusal that was told isn't told again before its party is forgotten.
//! Of what was put at the other end since the hello a prefix is given, in order, where TCP gives a prefix of what was
//! written (`only_sent_is_given_in_records`). What a connection's first bytes say, a hello or a visit, is exactly
//! `greeted_by`, and of whom a hello is heard `heard_in`: of nobody who has seen another store of this machine in its
//! epoch. A hello or a visit that came by a key is of the machine that says it, which has proved that by the sums of
//! just this connection, and what opens the records behind it is of that connection and that place (`specs/Proved`).
//! Each call is safe and returns, but for the wait of a poll or a lock.
//!
//! Tested (`tools/try/try-serve`): each refusal, that it's answered and told at both ends, that a higher start replaces
//! an older one, hello, record and visit however they are cut, strangers that are let go, a partition that heals, a
//! party that stands still. By its code alone: that the hello by which a link judges others' is its own; that a party
//! is forgotten only once it's connected; that a party which isn't connected has no `Outbox`, since only an open
//! connection has one; that where there's a key nothing is heard without it, and that a stranger is told nothing but a
//! challenge; that a wrong sum ends its connection. In no clause: that a socket delivers, what a poll reports, that a
//! send doesn't wait, that what is handed to the exchange is given to its party. Nothing is secret, and without a key
//! nothing is authentic: then addresses belong on a network of the group's own.
#![tactic(auto)]

mod accepted;
mod acquaintance;
mod carrier;
mod connection;
mod course;
mod exchange;
mod greeting;
mod guard;
mod hearing;
mod laws;
mod link;
mod machine;
mod meeting;
mod notice;
mod peer;
mod phase;
mod proved;
mod strangers;
mod visiting;
mod waiting;

pub use course::{Course, Pulse};
pub use exchange::{Exchange, PeerCutter};
pub use greeting::VISIT;
pub use laws::only_sent_is_given_in_records;
pub use link::PeerLink;
pub use machine::{FIRST_CONSOLE, Machine, machine_links};
pub use notice::LinkNotice;
pub use phase::{Duty, Phase};
pub use visiting::{Visited, Visitor};
