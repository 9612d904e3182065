//! Keys of a group of machines: by them each end of a connection proves that it's one of the group's, and each record
//! that goes over it has a sum that nobody else can make.
//!
//! ```rust
//! use net_keys::{Challenge, Keys};
//!
//! let keys = Keys::read(text)?; // 64 hexadecimal digits in a line, and those of a second key that is only heard
//! // machine 2 dials machine 0, and sends its challenge
//! let dialled = keys.dial(2, 0, nonce); // 32 random bytes
//! let bytes = dialled.challenge().spell(alloc)?;
//! // machine 0 answers it by its own, and by the sum of a record with no body
//! let answered = keys.answer(0, &Challenge::read(&bytes_that_came)?, nonce)?; // Err(ChallengeFault::OtherKey), ..
//! // machine 2 has both: machine 0 has the key
//! let Ends { sealer, opener } = dialled.meet(&answer, &proof)?; // Err(ChallengeFault::Forged), ..
//! let sum = sealer.seal(hello)?; // goes behind the hello
//! // machine 0 has them: machine 2 has the key
//! let Ends { sealer, opener } = answered.meet(hello, &sum)?;
//! opener.open(body, &sum)?; // of each record that comes
//! ```
//!
//! Proved: a sum is HMAC with SHA-256 by its definition (FIPS 198-1; `specs/Hmac`), of which the first 16 bytes are
//! sent. It's made with a key of the connection, which both challenges make: version, both machines in their roles, the
//! name of the key, and both nonces. It's of the end that seals, the record's number and its body (`specs/Sealing`). A
//! connection is met only where the other end's first sum is right for just these challenges, and else refused for the
//! first reason (`specs/Meeting`). Other records have other texts, before they are summed (`texts_are_told`). What an
//! end opened is a prefix of what was sealed at the other end of the same connection, in order, or one of these records
//! was forged: its sum is right, and nobody who has the key sealed it (`only_sealed_is_heard`; `specs/Forging`).
//!
//! A connection hashes the two blocks of its key once (`SumKey`): so a short record costs two blocks of SHA-256, and not
//! four.
//!
//! By its code alone: that the time which a comparison takes tells nothing of how much of a wrong sum was right, since
//! it looks at all bytes; that no key is printed, since a key has no text but the one of `Key::spell`. Tested: the
//! vectors of RFC 4231 (rows of `tests_bytes`). Not here: that nonces are fresh, and that whoever has the key keeps to
//! this. Nothing is secret but the keys, and these stay in memory until it's used again.
#![tactic(auto)]

mod challenge;
mod hmac;
mod key;
mod keys;
mod laws;
mod meeting;
mod sealing;
mod sum_key;

pub use challenge::{CHALLENGE, Challenge, ChallengeFault};
pub use hmac::Hmac;
pub use key::{Key, KeyFault};
pub use keys::Keys;
pub use laws::{only_sealed_is_heard, texts_are_told};
pub use meeting::{Answered, Dialled, Ends};
pub use sealing::{Opener, RecordFault, SUM, Sealer, Side};
