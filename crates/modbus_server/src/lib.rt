//! The server side of Modbus: requests answered by their table, sessions of clients, and the service, which has one
//! with each client of a port. It stages inputs and shows released outputs by `io_image`, has requests and replies of
//! `modbus_wire`, reads and writes by the counted ends of `io_model`, takes connections by `plc_listener`, and knows no
//! program.
//!
//! ```rust
//! let shown = Shown { readers, stamp, limit: Some(2000) }; // outputs of the last two seconds
//! let server = Server::new(host, Door::open(&rt, 502)?, shown, Duration::from_secs(60), traffic)?;
//! let open = server.open()?; // clients are served from now on, at `open.port()`; what they write is in `open.stage()`
//! let (sessions, writes) = open.close(); // how many clients there were, and how many writes got a ticket
//! ```
//!
//! Where a port is open at times only, what serves its clients is kept meanwhile, with the inputs that they staged:
//!
//! ```rust
//! let seats = Seats::new(host, shown, Duration::from_secs(60), traffic)?;
//! let open = seats.open(Door::at(&rt, address)?)?; // clients are served from now on
//! let seats = open.suspend(); // none is any more
//! ```
//!
//! Only some may be let in, and some of them to read alone, by the addresses that they come from; and there may be a
//! second port, where everybody only reads. It's open whenever the first one is, and shows the same:
//!
//! ```rust
//! let seats = seats.for_clients(Clients { allowed: Some(plant), readers: Some(office) })?;
//! let seats = seats.with_reading_port(shown_again)?; // a reader for each client that is served there at once
//! let open = seats.open_both(door, Some(reading_door))?;
//! ```
//!
//! Proved: `reply` is the table of functions, with its order of checks, cells and reply, by the bytes of a request and by
//! its values (`values_are_served`); a double word whose registers are written by one request is never seen half written
//! (`doubles_are_whole`). `serve_session` writes the replies in order, each by what its reader shows, behind
//! all that it saw before, or with exception 4 in place of outputs that were released longer ago than the limit, if
//! there's one; each is counted with its request, by the function and by the exception that it is, if it's one. It ends
//! by Closed only at the reader's end, by a fault of the header only where the stream has it, by Device only where a
//! device failed.
//!
//! What a client may do is decided by the port and by the address (`specs/Access`: `access_of`); whatever a session does
//! with who may only read, nothing is staged (`readers_stage_nothing`, over a staging that tells its book).
//!
//! By its code alone: that each session is asked what its client may do, and that what is counted of a piece is added to the traffic once its replies went out.
//!
//! Shown by tests: that a reply doesn't wait for the next request, and that the read for it enters anew (`modbus.rows`
//! of `tools/try/serving`, with sessions that are cut anywhere); the service (`tools/try/try-serve`); that
//! clients of others are content (`tools/try/try-clients`).
#![tactic(auto)]

mod counting;
mod doubles;
mod outputs;
mod rights;
mod seats;
mod serve;
mod service;
mod values;

pub use doubles::doubles_are_whole;
pub use modbus_replies::{Access, permitted_reply, read_reply, reply, timely_reply};
pub use outputs::Outputs;
pub use rights::readers_stage_nothing;
pub use seats::{Seats, Shown};
pub use serve::{SessionEnd, serve_session};
pub use service::{OpenServer, Server};
pub use values::values_are_served;
