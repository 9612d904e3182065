//! What a replica knows of its clients (the client table of Viewstamped Replication Revisited, section 4): of each the
//! greatest number of its requests in the log, and the last one that was executed, with its answer. It uses the types of
//! `vr_model`; `vr_core` keeps a table.
//!
//! ```rust
//! let mut table = ClientTable::new(alloc).ok()?; // no client is known
//! table.note(client, 7); // its request 7 is in the log
//! table.execute(client, 7, answer); // and was executed
//! let answers = table.executed(alloc).ok()?; // of each client, as a checkpoint has them
//! ```
//!
//! Proved: what is known after each call, as `specs/Clients` says it; a table that knew the last numbers of a log knows
//! those of the log with the noted requests behind it (`KnowsMore`). A checkpoint that tells no client's last request
//! would have it executed twice: that body is refused (`checkpoint_leaves_out_client_numbers`).
#![tactic(auto)]

mod clients;

pub use clients::{Client, ClientTable, Turn};
