//! A served controller, put together: the driver of a group of replicas (`plc_driver`), sessions at a port of this
//! machine (`modbus_server`), an operator's console at another (`plc_console`), and the journal that tells what changes
//! (`plc_status`). It opens them in order and closes them in reverse; it has no loop, no protocol, no text and no thread.
//!
//! ```rust
//! let node = Node { image, directory, stores, settings, status }; // a store for each replica
//! let counts = node.run::<Brand, _, _>(host, NewList::new(), &mut err)?; // after as many scans as are asked for
//! ```
//!
//! Proved: it ends well only after as many scans as are asked for, and with the line of a port on `err`, those of what
//! changed, and nothing else; where it fails, with at most those.
//!
//! Tested: how threads, channels, sockets and locks are joined (`tools/try/try-serve`).
#![tactic(auto)]

mod node;
mod opening;
mod showing;

pub use node::Node;
