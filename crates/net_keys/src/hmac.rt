//! HMAC with SHA-256 (FIPS 198-1).

ghost use Rattle.std.specs.Prelude.{◌≡◌, ◌≤◌, ℕ, List, [], ◌++◌, length};
ghost use Rattle.sha2.specs.Hashers.{Holds256};
ghost use Rattle.net_keys.specs.Hmac.{Sums, filled, hmac, key_block, xored};

use sha2::{Digest, Sha256};

/// So many bytes has a block of SHA-256.
const BLOCK: usize = 64;

/// By exclusive or with these each byte of the key is changed inside and outside.
const INSIDE: u8 = 0x36;

const OUTSIDE: u8 = 0x5C;

/// A sum in the making, of a text that comes in pieces.
#[derive(Drop)]
pub struct Hmac {
    /// It holds the key's block, and the text behind that.
    inner: Sha256,
    /// It holds the key's block, behind which the inner sum goes.
    outer: Sha256,
}

/// These bytes, filled up by zeros to a block.
fn filled(bytes: &[u8]) -> [u8; 64]
    requires { length bytes.now ≤ 64 }
    ensures { result ≡ filled bytes.now }
{
    let mut block = [0u8; 64];
    for at in 0..bytes.len() {
        block[at] = bytes[at];
    }
    block
}

/// The key as a block; one that is longer is hashed first.
fn key_block(key: &[u8]) -> [u8; 64]
    ensures { result ≡ key_block key.now }
{
    if key.len() > BLOCK {
        filled(&Sha256::digest(key))
    } else {
        filled(key)
    }
}

/// The block, each byte changed by exclusive or with this one.
fn xored(block: &[u8; 64], by: u8) -> [u8; 64]
    ensures { result ≡ xored block.now by }
{
    let mut changed = *block;
    for at in 0..BLOCK {
        changed[at] = changed[at] ^ by;
    }
    changed
}

/// A hasher that holds the block, each byte changed by exclusive or with this one.
fn behind(block: &[u8; 64], by: u8) -> Sha256
    ensures { Holds256 result (xored block.now by) }
{
    let mut hasher = Sha256::new();
    hasher.update(&xored(block, by));
    hasher
}

/// A hasher as this one is.
fn copy_of(hasher: &Sha256) -> Sha256
    ensures { result ≡ hasher.now }
{
    match hasher.clone() {
        Ok(copy) => copy,
        Err(_) => unreachable!(),
    }
}

impl Hmac {
    /// The sum of no text yet, under this key.
    pub fn new(key: &[u8]) -> Hmac
        ensures { Sums result key.now [] }
    {
        let block = key_block(key);
        Hmac {
            inner: behind(&block, INSIDE),
            outer: behind(&block, OUTSIDE),
        }
    }

    /// The sum of as much of a text as this one.
    pub(crate) fn copy(&self) -> Hmac
        ensures { result ≡ self.now }
    {
        Hmac {
            inner: copy_of(&self.inner),
            outer: copy_of(&self.outer),
        }
    }

    /// The text goes on by these bytes.
    pub fn update(&mut self, bytes: &[u8])
        ensures { (key text : List ℕ) → Sums self.old key text → Sums self.new key (text ++ bytes.now) }
    {
        self.inner.update(bytes);
    }

    /// The sum of the text, in 32 bytes.
    pub fn finalize(self) -> [u8; 32]
        ensures { (key text : List ℕ) → Sums self key text → result ≡ hmac key text }
    {
        let Hmac { inner, mut outer } = self;
        outer.update(&inner.finalize());
        outer.finalize()
    }
}
