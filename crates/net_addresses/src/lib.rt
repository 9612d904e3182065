//! Addresses of IPv4, networks of them as `10.0.0.0/24`, and lists of these: who may come, and who is on a list. It's
//! about values alone, and opens no socket.
//!
//! ```rust
//! use net_addresses::{Clients, Network, Networks};
//!
//! let plant = Network::read(b"10.0.0.0/24")?; // Err(NetworkFault::HostBits) of 10.0.0.1/24
//! let allowed = Networks::read(alloc, "10.0.0.0/24,192.168.1.5")?; // at most 32
//! let clients = Clients { allowed: Some(allowed), readers: None };
//! clients.admits(Some(peer)) // true of 10.0.0.77, false of each address of IPv6
//! ```
//!
//! Proved: a network has exactly the addresses whose first bits are its own, and a list exactly those that one of its
//! networks has, so none of IPv6 (`specs/Addresses`). A text is read as the network that it writes, and else refused
//! for its first fault: an address that is none, a count of bits that is none, or bits of a host that are set
//! (`specs/Texts`, over std's reader of addresses). A list of texts is refused for the first of them that is, by its
//! place, or behind 32.
//!
//! Tests (nothing rests on them alone): rows of `tools/try/words`.
#![tactic(auto)]

mod clients;
mod network;
mod networks;

pub use clients::Clients;
pub use network::{Network, NetworkFault};
pub use networks::{MOST_NETWORKS, Networks, NetworksFault};
