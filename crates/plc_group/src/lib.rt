//! The file of a group of machines, as a value: its name, its times, and where each of its machines is reached. The
//! file is the same on each machine.
//!
//! ```rust
//! use plc_group::{read_group, tell_group_fault};
//!
//! match read_group(alloc, text) {
//!     Ok(group) => println!(rt; "{}", group.machines.len())?, // three, five or seven
//!     Err(fault) => return tell_group_fault(&fault, &mut err), // plc: group period refused
//! }
//! ```
//!
//! Proved: a group is given exactly where its table has no fault, and is the one that the table says (`Says` of
//! `specs/Said`, defaults in it); else the fault is the first of those that the table has, in the order of
//! `specs/Faults` (`faults_of`), or the bytes are no table of TOML 1.1 in UTF-8. An address is one that std's grammar
//! has, with a port. Each fault has its line. What lacks nothing but an identity is told so (`lacks_identity`), since
//! that's the last fault, and gets one (`with_identity`). Which keys machines have to share is a table (`Key::sharing`).
//! Who may be a Modbus client, and who of them may only read, are arrays of networks (`net_addresses`), each with at
//! most 32; a machine may have a second port, at which clients only read.
//!
//! In no clause: where the fault of bytes lies that are no TOML, which is the crate `toml`'s to say.
#![tactic(auto)]

mod exposed;
mod fault;
mod fields;
mod group;
mod identity;
mod key;
mod laws;
mod machines;
mod reading;
mod telling;
mod values;

pub use exposed::exposed_lines;
pub use fault::{GroupFault, Why};
pub use group::{ColdStart, Group, Machine, Times};
pub use identity::{lacks_identity, with_identity};
pub use key::{Key, Range, Sharing};
pub use laws::copies_are_of_one_group;
pub use reading::read_group;
pub use telling::tell_group_fault;
pub use values::addresses_are_written;
