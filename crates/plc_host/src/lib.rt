//! What a service of the controller is opened with (`Host`), the bound on the runtime of its threads (`ServiceRuntime`),
//! why it isn't to be had or can't go on (`Failed`), and what its clients did, counted and read by any thread
//! (`Traffic`).
//!
//! ```rust
//! let host = Host { rt, alloc: rt.alloc() };
//! let traffic = Arc::new(host.alloc, Traffic::new())?; // Failed::Memory, where memory is wanting
//! let socket = match TcpListener::bind(&host.rt, ("127.0.0.1", 502)) {
//!     Ok(socket) => socket,
//!     Err(error) => return Err(Failed::from(error).known_as(Failed::Port(502))), // or Memory
//! };
//! ```
//!
//! Proved: an error of std, as a service meets it, becomes the one of `Failed` that `specs/Failing` says; requests are
//! counted by their functions and by the exceptions that answered them (`specs/Requests`).
//!
//! By its code alone: that `Traffic` counts what it is told.
#![tactic(auto)]

mod failed;
mod host;
mod requests;
mod traffic;

pub use failed::Failed;
pub use host::{Host, ServiceRuntime};
pub use requests::{EXCEPTIONS, FUNCTIONS, PLACES, Requests};
pub use traffic::Traffic;
