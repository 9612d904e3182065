//! What is replied to a Modbus request: its checks in their order, and the table of functions, over staged inputs and
//! released outputs (`io_image`), by the requests and replies of `modbus_wire`. It knows no connection.
//!
//! ```rust
//! let reply = reply(request.as_slice(), &mut staging, &released); // of 1 to 253 bytes
//! let late = timely_reply(request.as_slice(), &mut staging, &released, true); // exception 4 in place of outputs
//! let read = read_reply(request.as_slice(), &staging.read(), &released, false); // exception 1 in place of a write
//! ```
//!
//! Proved: a reply is the one of the table (`specs/Replies`), with the exception of the first check that a request fails
//! (`specs/Requests`). A check of addresses ahead of that of values, and an echo in place of an exception, are refused
//! here (`checks_address_first`, `echoes_every_request`). Who may only read gets exception 1 to each function that writes,
//! and else what everybody gets (`read_reply`, which is handed no staging); by `permitted_reply` nothing of him is staged.
//!
//! Tests (nothing rests on them alone): `modbus.rows` of `tools/try/serving`.
#![tactic(auto)]

mod permitted;
mod replies;
mod request;

pub use permitted::{Access, permitted_reply, read_reply};
pub use replies::{reply, timely_reply};
