//! Cells, both ways: 64 bytes of bits, then 64 words.

ghost use Rattle.std.specs.Prelude.{◌≡◌, ◌*◌, ◌≤◌, ◌++◌, OnOk, length, take, FitsSigned};
ghost use Rattle.std.specs.List.{flat_map, AllByRecursion};
ghost use Rattle.std.specs.Int.{w16};
ghost use Rattle.vr_wire.specs.Fields.{bit_number, byte_of, packed, word_bytes, cells_bytes, FitsCells};
ghost use Rattle.vr_wire.specs.Reading.{Gives, bits_at, word_at, items_at, cells_at, end_of};

use crate::fault::ReadError;
use crate::numbers::{put_u16, u16_at};
use il_model::{BITS, Cells, WORDS};
use std::alloc::AllocError;

fn bit_number(bit: bool) -> u8
    ensures number { result ≡ bit_number bit }
    ensures small { result ≤ 1 }
{
    u8::from(bit)
}

/// A byte of eight bits, the lowest first.
fn byte_of(bits: &[bool]) -> u8
    requires { length bits.now ≡ 8 }
    ensures { result ≡ byte_of bits.now }
{
    let low = bit_number(bits[0])
        + 2 * bit_number(bits[1])
        + 4 * bit_number(bits[2])
        + 8 * bit_number(bits[3]);
    let high = bit_number(bits[4])
        + 2 * bit_number(bits[5])
        + 4 * bit_number(bits[6])
        + 8 * bit_number(bits[7]);
    low + 16 * high
}

fn put_bits(out: &mut Vec<u8>, bits: &[bool]) -> Result<(), AllocError>
    requires { length bits.now ≡ BITS }
    ensures { OnOk result (out.new.items ≡ out.old.items ++ packed 64 bits.now) }
{
    let mut rest = bits;
    for _ in 0..64u32 {
        let (front, behind) = rest.split_at(8);
        out.push(byte_of(front))?;
        rest = behind;
    }
    Ok(())
}

fn put_words(out: &mut Vec<u8>, words: &[i16]) -> Result<(), AllocError>
    ensures text { OnOk result (out.new.items ≡ out.old.items ++ flat_map word_bytes words.now) }
    ensures fits { OnOk result (AllByRecursion (FitsSigned w16) words.now) }
{
    for word in words {
        put_u16(out, word.cast_unsigned())?;
    }
    Ok(())
}

pub(crate) fn put_cells(out: &mut Vec<u8>, cells: &Cells) -> Result<(), AllocError>
    ensures text { OnOk result (out.new.items ≡ out.old.items ++ cells_bytes cells.now) }
    ensures fits { OnOk result (FitsCells cells.now) }
{
    put_bits(out, &cells.bits)?;
    put_words(out, &cells.words)
}

fn bits_at(bytes: &[u8]) -> Result<([bool; BITS], &[u8]), ReadError>
    ensures { Gives (λ x. (x.0, x.1.now)) result (bits_at bytes.now) }
{
    if bytes.len() < 64 {
        return Err(ReadError::Malformed);
    }
    let (front, rest) = bytes.split_at(64);
    let mut bits = [false; BITS];
    for n in 0..BITS {
        bits[n] = (front[n / 8] >> (n % 8)) % 2 == 1;
    }
    Ok((bits, rest))
}

fn words_at(bytes: &[u8]) -> Result<([i16; WORDS], &[u8]), ReadError>
    ensures { Gives (λ x. (x.0, x.1.now)) result (items_at word_at WORDS bytes.now) }
{
    let mut words = [0; WORDS];
    let mut rest = bytes;
    for k in 0..WORDS {
        let (word, behind) = u16_at(rest)?;
        words[k] = word.cast_signed();
        rest = behind;
    }
    Ok((words, rest))
}

pub(crate) fn cells_at(bytes: &[u8]) -> Result<(Cells, &[u8]), ReadError>
    ensures { Gives (λ x. (x.0, x.1.now)) result (cells_at bytes.now) }
{
    let (bits, rest) = bits_at(bytes)?;
    let (words, rest) = words_at(rest)?;
    Ok((Cells { bits, words }, rest))
}

/// Where cells end. Any bytes are lawful cells.
pub(crate) fn cells_end(bytes: &[u8]) -> Result<&[u8], ReadError>
    ensures { Gives (λ rest. rest.now) result (end_of cells_at bytes.now) }
{
    if bytes.len() < 192 {
        return Err(ReadError::Malformed);
    }
    let (_cells, rest) = bytes.split_at(192);
    Ok(rest)
}
