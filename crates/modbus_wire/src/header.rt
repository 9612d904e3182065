//! The header of an application data unit.
ghost use Rattle.std.specs.Prelude.{◌≡◌, ◌+◌, ◌≤◌, length};
ghost use Rattle.modbus_wire.specs.Frames.{header_of, number_at};

use byteorder::{BigEndian, ByteOrder};
use thiserror::Error;

/// What no stream of application data units goes on with.
#[derive(Clone, Copy, Debug, PartialEq, Eq, Error)]
pub enum HeaderFault {
    /// The protocol isn't 0.
    #[error("bad protocol")]
    BadProtocol,
    /// The length isn't 2 to 254.
    #[error("bad length")]
    BadLength,
}

/// What the first bytes of a stream tell of the unit that they begin.
#[derive(Clone, Copy)]
pub(crate) enum Header {
    /// The header isn't whole yet.
    Short,
    /// The unit has so many bytes.
    Size(usize),
    Bad(HeaderFault),
}

/// The 16 bits from a place on, the high byte first.
pub fn number_at(bytes: &[u8], place: usize) -> u16
    requires { place + 2 ≤ length bytes.now }
    ensures { result ≡ number_at bytes.now place }
{
    BigEndian::read_u16(&bytes[place..])
}

pub(crate) fn header_of(bytes: &[u8]) -> Header
    ensures { result ≡ header_of bytes.now }
{
    if bytes.len() < 6 {
        return Header::Short;
    }
    if number_at(bytes, 2) != 0 {
        return Header::Bad(HeaderFault::BadProtocol);
    }
    let length = usize::from(number_at(bytes, 4));
    if length < 2 {
        return Header::Bad(HeaderFault::BadLength);
    }
    if length > 254 {
        return Header::Bad(HeaderFault::BadLength);
    }
    Header::Size(6 + length)
}
