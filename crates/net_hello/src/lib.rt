//! What each end of a connection between machines says first, and whether the other end accepts it: the group, its
//! epoch, who speaks, how often that one was started, of which store its machine is, and what it knows of the party that
//! it speaks to.
//!
//! ```rust
//! use net_hello::{Hello, Refusal, group_identity, judge};
//!
//! let identity = group_identity("tank", config, budget, &drawn); // 32 bytes
//! let party = Party::Replica(0);
//! let own = Hello { identity, epoch, party, starts: 3, fresh: 140, store, known: Known::nothing() };
//! let bytes = own.spell(alloc).ok()?; // 118 bytes
//! match Hello::read(bytes_that_came) {
//!     Ok(Some(hello)) => judge(&own, Some(known), &hello), // Err(Refusal::OtherGroup), ..
//!     Ok(None) => Ok(()), // it isn't whole yet
//!     Err(fault) => .., // no hello, or one of another version
//! }
//! let answer = own.answer_to(&hello, known); // nothing of the group, where the hello is of another one
//! ```
//!
//! Proved: a hello that is read is spelled so, each byte of it, and what is spelled so is read; a hello is accepted
//! exactly from another party of the same group and epoch whose machine shows outputs equally long, where neither end
//! has seen another store of the other's machine in the epoch, nor a later start of its party, nor one far below; and
//! else refused for the first reason. An end that accepts connections tells its group, epoch and numbers to nobody who
//! hasn't told the same group (`answer_to`). The identity is the SHA-256 of bytes that are different for different terms
//! (`terms_are_told`).
//!
//! `tools/try/try-serve` tries hellos, whole and cut, and how they are judged.
//! That no two groups have one SHA-256 is a premise, and nothing here is authentic or secret.
#![tactic(auto)]

mod hello;
mod identity;
mod judging;

pub use hello::{Epoch, HELLO, Hello, HelloFault, Known, said_to_strangers};
pub use identity::{group_identity, terms_are_told};
pub use judging::{Refusal, judge};
