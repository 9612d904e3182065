//! A port of this machine, and sessions with those that connect to it, so many at once as there is something to serve
//! them with: a `Door` takes connections, each place has a `Session`, and a `Listener` brings them together in threads
//! of its own. Once it's closed the sessions may serve at another door. It knows no protocol.
//!
//! ```rust
//! let door = Door::open(&rt, 0)?; // any port of 127.0.0.1 that is free; `Door::at` takes an address
//! let idle = Duration::from_secs(60);
//! let listener = Listener::new(host, door, sessions, idle, WhenFull::Closes)?; // `sessions`: one for each place
//! let open = listener.open()?; // connections are served from now on, at `open.port()`
//! let sessions = open.close(); // none is served any more
//! ```
//!
//! Where only some may come (`Listener::for_clients`), others are closed unanswered, before a place is looked for; a session
//! knows by `Connection::peer` where its client is.
//!
//! A door is a port, or a socket at a path that its owner alone can reach (`Door::at_path`). One that may not be to be had
//! yet (`Door::wanted`, `Door::wanted_at_path`) is opened by `Listener::open_when_free`, which tries until it is.
//!
//! Proved: each call is safe, and returns but for the waits that its bound allows; what fails is a device or memory.
//!
//! Who may come is decided by `net_addresses`: `Clients::admits`, with its clause.
//!
//! By its code alone, and tested through what is served (`tools/try/try-serve`): that it's asked of the address which
//! the connection has, that a connection that may come gets a place that is free, or is closed unanswered or takes over
//! the first one, that a session ends whose client is idle, sends a request too slowly or doesn't take its replies, and
//! that `close` ends each session and each thread, and gives back each of the sessions.
#![tactic(auto)]

mod connection;
mod door;
mod listener;
mod places;
mod session;
mod wire;

pub use connection::Connection;
pub use door::{Door, DoorRuntime};
pub use listener::{Listener, OpenListener, WhenFull};
pub use session::Session;
pub use wire::Guest;
