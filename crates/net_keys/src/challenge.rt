//! A challenge: what each end of a connection says first.

ghost use Rattle.std.specs.Prelude.{◌≡◌, ◌++◌, ℕ, List, Ok, length, IfOk, OnOk};
ghost use Rattle.net_keys.specs.declared.challenge.Challenge.{Challenge as Said};
ghost use Rattle.net_keys.specs.Challenges.{FitsChallenge, challenge_bytes, challenge_in, fault_of, said_in};
ghost use Rattle.net_keys.specs.Hmac.{Sums};

use crate::hmac::Hmac;
use std::alloc::{AllocError, Global};
use thiserror::Error;

/// So many bytes has a challenge.
pub const CHALLENGE: usize = 50;

/// With these begins what machines say first: `PLC-VR`.
const MAGIC: [u8; 6] = [0x50, 0x4C, 0x43, 0x2D, 0x56, 0x52];

/// A challenge begins with them and the version.
const FRONT: [u8; 8] = [0x50, 0x4C, 0x43, 0x2D, 0x56, 0x52, 0, 3];

/// The first bytes of a hello of a group that has no key: the version before.
const FRONT_WITHOUT_KEY: [u8; 8] = [0x50, 0x4C, 0x43, 0x2D, 0x56, 0x52, 0, 2];

/// What each end of a connection says first, for everybody to hear.
#[derive(Clone, Copy, Debug, PartialEq, Eq)]
pub struct Challenge {
    /// The number of the machine that says it.
    pub from: u8,
    /// That of the machine that is meant.
    pub to: u8,
    /// The name of the key that both are to have.
    pub key: [u8; 8],
    /// Random bytes, which were drawn for this connection.
    pub nonce: [u8; 32],
}

/// Why a connection isn't met.
#[derive(Clone, Copy, Debug, PartialEq, Eq, Error)]
pub enum ChallengeFault {
    /// These bytes are none.
    #[error("no challenge")]
    NoChallenge,
    /// It's a hello of a group that has no key.
    #[error("no key")]
    NoKey,
    /// It begins as one does, and is of another version.
    #[error("another version")]
    OtherVersion,
    /// This end's own nonce came back.
    #[error("own challenge")]
    OwnChallenge,
    /// It's for another machine than this, or of another than the one that was dialled: an address is wrong.
    #[error("another machine")]
    OtherMachine,
    /// It says that it's this end's own machine.
    #[error("own machine")]
    OwnMachine,
    /// No key of this name is heard.
    #[error("another key")]
    OtherKey,
    /// The other end's first sum isn't the one that this key makes of both challenges.
    #[error("forged or damaged record")]
    Forged,
}

/// Why these bytes are no challenge.
fn fault_of(bytes: &[u8]) -> ChallengeFault
    ensures { result ≡ fault_of bytes.now }
{
    if bytes.starts_with(&FRONT_WITHOUT_KEY) {
        return ChallengeFault::NoKey;
    }
    if bytes.starts_with(&MAGIC) {
        return ChallengeFault::OtherVersion;
    }
    ChallengeFault::NoChallenge
}

/// What is said behind the version.
fn said_in(said: &[u8]) -> Challenge
    requires { length said.now ≡ 42 }
    ensures { result ≡ said_in said.now }
{
    let (key, nonce) = said[2..].split_at(8);
    Challenge {
        from: said[0],
        to: said[1],
        key: array_of(key),
        nonce: array_of(nonce),
    }
}

/// These bytes as an array.
fn array_of<const N: usize>(bytes: &[u8]) -> [u8; N]
    requires { length bytes.now ≡ N }
    ensures { result ≡ bytes.now }
{
    match <[u8; N]>::try_from(bytes) {
        Ok(array) => array,
        Err(_) => unreachable!(),
    }
}

impl Challenge {
    /// Its bytes. It fails only where memory runs out.
    pub fn spell(&self, alloc: Global) -> Result<Vec<u8>, AllocError>
        ensures bytes { IfOk result (λ bytes. bytes.items ≡ challenge_bytes self.now) }
        ensures fits { OnOk result (FitsChallenge self.now) }
    {
        let mut bytes = Vec::new(alloc);
        bytes.extend_from_slice(&FRONT)?;
        bytes.extend_from_slice(&[self.from, self.to])?;
        bytes.extend_from_slice(&self.key)?;
        bytes.extend_from_slice(&self.nonce)?;
        Ok(bytes)
    }

    /// The challenge that these bytes are, or what they are in its place.
    pub fn read(bytes: &[u8; CHALLENGE]) -> Result<Challenge, ChallengeFault>
        ensures exact { result ≡ challenge_in bytes.now }
        ensures found { IfOk result (λ challenge. bytes.now ≡ challenge_bytes challenge) }
        ensures only { (challenge : Said) → FitsChallenge challenge → bytes.now ≡ challenge_bytes challenge
            → result ≡ Ok challenge }
    {
        if bytes.starts_with(&FRONT) {
            let (_, said) = bytes.split_at(8);
            return Ok(said_in(said));
        }
        Err(fault_of(bytes))
    }

    /// The text of a sum goes on by its bytes.
    pub(crate) fn go_into(&self, hmac: &mut Hmac)
        ensures { (key text : List ℕ) → Sums hmac.old key text → Sums hmac.new key (text ++ challenge_bytes self.now) }
    {
        hmac.update(&FRONT);
        hmac.update(&[self.from, self.to]);
        hmac.update(&self.key);
        hmac.update(&self.nonce);
    }
}
