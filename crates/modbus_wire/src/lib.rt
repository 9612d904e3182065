//! Modbus as bytes and as values, both ways (MODBUS Application Protocol V1.1b3, over the header of MODBUS Messaging on
//! TCP/IP V1.0b), for a server and for a client: data units in any pieces, functions 01 to 06, 15, 16, 22 and 23 with
//! their requests and replies, exceptions. It reads and writes byte slices alone, and knows no cells, no socket and no
//! program.
//!
//! ```rust
//! use modbus_wire::{Reply, Request, Table};
//!
//! let request = Request::ReadWords { table: Table::ReadWrite, address: 107, quantity: 3 };
//! let pdu = request.write()?; // 03 006B 0003; None for a quantity of 0, or of more than 125
//! Adu { transaction: 7, unit: 1, pdu }.write_to(&mut out).ok()?; // behind the header 0007 0000 0006 01
//!
//! session.feed(&piece, &mut units).ok()?; // each unit that is whole now
//! match Reply::read(&request, units[0].pdu.as_slice())? { // None: no reply to this request
//!     Reply::Words(words) => .., // three of them
//!     Reply::Failed(number) => .., // 2: IllegalDataAddress
//!     Reply::Bits(_) | Reply::Done => .., // to other functions
//! }
//! ```
//!
//! Proved: each byte of what is written and each field of what is read, by `specs/Frames`, `specs/Requests`,
//! `specs/Replies` and `specs/Packing`. A request is read as what was written (`requests_are_read_back`), a reply to a
//! request, too (`replies_are_read_back`); a stream has the same units however it is cut (`know_any_pieces`).
//!
//! Shown by tests: the examples of the specification, byte by byte (`modbus.rows` of `tools/try/serving`).
#![tactic(auto)]

mod adu;
mod exception;
mod function;
mod header;
mod packing;
mod reply;
mod request;
mod session;

pub use adu::{Adu, Pdu, pdu_of};
pub use exception::{Exception, exception_reply};
pub use function::{Function, Table};
pub use header::{HeaderFault, number_at};
pub use packing::{Bits, Words, bits_of, words_of};
pub use reply::{Reply, bits_reply, replies_are_read_back, words_reply};
pub use request::{Request, requests_are_read_back};
pub use session::{Session, SessionFault, know_any_pieces};
