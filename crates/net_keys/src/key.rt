//! A key.

ghost use Rattle.std.specs.Prelude.{◌≡◌, ◌≤◌, take, bytes_eq};
ghost use Rattle.hex.specs.Hex.{encode_lower};
ghost use Rattle.net_keys.specs.Keys.{in_order, key_in, key_name, pair_key};

use crate::hmac::Hmac;
use hex::FromHexError;
use thiserror::Error;

/// Why a text is no keys.
#[derive(Clone, Copy, Debug, PartialEq, Eq, Error)]
pub enum KeyFault {
    /// It isn't one line of 64 characters, or two.
    #[error("not one or two lines of 64 digits")]
    Lines,
    /// Behind so many digits of this line, which is counted from 1, stands a character that is none.
    #[error("no hexadecimal digit")]
    Digit { line: usize, behind: usize },
    /// Both lines are one key.
    #[error("one key twice")]
    Twice,
}

/// A key of a group, which its machines alone have. It's never printed: it has no text but the one of `spell`, which is
/// for its file.
#[derive(Clone, Copy)]
pub struct Key {
    bytes: [u8; 32],
}

impl Key {
    /// The key of these bytes, which are drawn at random.
    pub fn new(bytes: [u8; 32]) -> Key
        ensures { result ≡ record { bytes = bytes } }
    {
        Key { bytes }
    }

    /// The key that stands in this line, counted from 1.
    pub(crate) fn read(line: usize, digits: &[u8]) -> Result<Key, KeyFault>
        ensures { result ≡ key_in line digits.now }
    {
        let mut bytes = [0u8; 32];
        match hex::decode_to_slice(digits, &mut bytes) {
            Ok(()) => Ok(Key { bytes }),
            Err(FromHexError::InvalidHexCharacter { index, .. }) => Err(KeyFault::Digit {
                line,
                behind: index,
            }),
            Err(_) => Err(KeyFault::Lines),
        }
    }

    /// Whether it's this one.
    pub(crate) fn is_same(&self, other: &Key) -> bool
        ensures { result ≡ bytes_eq self.now.bytes other.now.bytes }
    {
        self.bytes == other.bytes
    }

    /// Its 64 hexadecimal digits.
    pub fn spell(&self) -> [u8; 64]
        ensures { result ≡ encode_lower self.now.bytes }
    {
        let mut digits = [0u8; 64];
        match hex::encode_to_slice(&self.bytes, &mut digits) {
            Ok(()) => digits,
            Err(_) => unreachable!(),
        }
    }

    /// Its name, which is told to everybody: eight bytes, from which the key isn't to be had.
    pub fn name(&self) -> [u8; 8]
        ensures { result ≡ key_name self.now }
    {
        let mut hmac = Hmac::new(&self.bytes);
        hmac.update(b"PLC-VR key name");
        front(&hmac.finalize())
    }

    /// The key of two machines, in any order.
    pub(crate) fn of_pair(&self, one: u8, other: u8) -> [u8; 32]
        ensures { result ≡ pair_key self.now one other }
    {
        let mut hmac = Hmac::new(&self.bytes);
        hmac.update(b"PLC-VR machines");
        hmac.update(&in_order(one, other));
        hmac.finalize()
    }
}

/// Two machines, the lower number first.
fn in_order(one: u8, other: u8) -> [u8; 2]
    ensures { result ≡ in_order one other }
{
    if one < other {
        [one, other]
    } else {
        [other, one]
    }
}

/// The first bytes of a sum.
pub(crate) fn front<const N: usize>(sum: &[u8; 32]) -> [u8; N]
    requires { N ≤ 32 }
    ensures { result ≡ take N sum.now }
{
    match <[u8; N]>::try_from(&sum[..N]) {
        Ok(front) => front,
        Err(_) => unreachable!(),
    }
}
