//! A client of a replicated controller, as a value: it says which messages go out, is told which came in, and gives the
//! answer to what it submitted. It stands on the messages and the client rules of `vr_model` and on the commands of
//! `il_model` alone: it knows no plant, no link and no thread, so whatever submits commands can use it.
//!
//! ```rust
//! use vr_client::{GroupClient, RetryTimer};
//!
//! let mut client = GroupClient::new(&config, ClientNumber { number: 1 }, 0); // one that never started before
//! let request = client.submit(Command::Reset, Command::Reset); // the REQUEST, for the primary that it knows of
//! let mut timer = RetryTimer::new(period, Some(now)); // it was sent now
//! let is_due = timer.is_due(later); // whether a period went by since: then send it again
//! let again = client.retry(alloc)?; // the same request, for every replica
//! let answered = client.on_reply(&message); // Some where the message is the first REPLY to it
//! let can_go_on = client.start_again(); // what waits is let go, and later numbers are above all that it gave
//! ```
//!
//! Proved: `submit` does what the rules let a client do, and gives its message; `retry`, `on_reply` and `start_again`
//! likewise. The answer is that of the first REPLY with the number that waits, whatever else comes, and nothing waits
//! after it. A `RetryTimer` is due exactly where a period went by since the request was sent last.
//!
//! Tests: the drivers of machines in `drivers.rows` of `tests_bytes` go through its steps. Nothing rests on them alone.
#![tactic(auto)]

mod client;
mod retry_timer;

pub use client::{Answered, GroupClient};
pub use retry_timer::RetryTimer;
