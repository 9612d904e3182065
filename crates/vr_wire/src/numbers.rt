//! Numbers as bytes, the highest byte first.

ghost use Rattle.std.specs.Prelude.{◌≡◌, ◌++◌, OnOk};
ghost use Rattle.std.specs.Int.{w8, w16, w32, w64, to_be_bytes};
ghost use Rattle.vr_wire.specs.Reading.{Gives, number_at, ended};

use crate::fault::ReadError;
use byteorder::{BigEndian, ByteOrder};
use std::alloc::AllocError;

pub(crate) fn put_u8(out: &mut Vec<u8>, n: u8) -> Result<(), AllocError>
    ensures { OnOk result (out.new.items ≡ out.old.items ++ to_be_bytes w8 n) }
{
    out.push(n)?;
    Ok(())
}

pub(crate) fn put_u16(out: &mut Vec<u8>, n: u16) -> Result<(), AllocError>
    ensures { OnOk result (out.new.items ≡ out.old.items ++ to_be_bytes w16 n) }
{
    let mut field = [0; 2];
    BigEndian::write_u16(&mut field, n);
    out.extend_from_slice(&field)
}

pub(crate) fn put_u32(out: &mut Vec<u8>, n: u32) -> Result<(), AllocError>
    ensures { OnOk result (out.new.items ≡ out.old.items ++ to_be_bytes w32 n) }
{
    let mut field = [0; 4];
    BigEndian::write_u32(&mut field, n);
    out.extend_from_slice(&field)
}

pub(crate) fn put_u64(out: &mut Vec<u8>, n: u64) -> Result<(), AllocError>
    ensures { OnOk result (out.new.items ≡ out.old.items ++ to_be_bytes w64 n) }
{
    let mut field = [0; 8];
    BigEndian::write_u64(&mut field, n);
    out.extend_from_slice(&field)
}

pub(crate) fn u8_at(bytes: &[u8]) -> Result<(u8, &[u8]), ReadError>
    ensures { Gives (λ x. (x.0, x.1.now)) result (number_at w8 bytes.now) }
{
    match bytes {
        [] => Err(ReadError::Malformed),
        [first, rest @ ..] => Ok((*first, rest)),
    }
}

pub(crate) fn u16_at(bytes: &[u8]) -> Result<(u16, &[u8]), ReadError>
    ensures { Gives (λ x. (x.0, x.1.now)) result (number_at w16 bytes.now) }
{
    if bytes.len() < 2 {
        return Err(ReadError::Malformed);
    }
    let (front, rest) = bytes.split_at(2);
    Ok((BigEndian::read_u16(front), rest))
}

pub(crate) fn u32_at(bytes: &[u8]) -> Result<(u32, &[u8]), ReadError>
    ensures { Gives (λ x. (x.0, x.1.now)) result (number_at w32 bytes.now) }
{
    if bytes.len() < 4 {
        return Err(ReadError::Malformed);
    }
    let (front, rest) = bytes.split_at(4);
    Ok((BigEndian::read_u32(front), rest))
}

pub(crate) fn u64_at(bytes: &[u8]) -> Result<(u64, &[u8]), ReadError>
    ensures { Gives (λ x. (x.0, x.1.now)) result (number_at w64 bytes.now) }
{
    if bytes.len() < 8 {
        return Err(ReadError::Malformed);
    }
    let (front, rest) = bytes.split_at(8);
    Ok((BigEndian::read_u64(front), rest))
}

/// Fails where anything is left to read.
pub(crate) fn ended(bytes: &[u8]) -> Result<(), ReadError>
    ensures { Gives (λ x. x) result (ended (tt) bytes.now) }
{
    if !bytes.is_empty() {
        return Err(ReadError::Malformed);
    }
    Ok(())
}
