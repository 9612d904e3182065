//! The marks that stand in front of a base.

ghost use Rattle.std.specs.Prelude.{◌≡◌, ◌+◌, ◌*◌, ◌≤◌, ◌==◌, ◌++◌, ℕ, List, IfOk, OnOk, length, map};
ghost use Rattle.std.specs.List.{flat_map};
ghost use Rattle.byteorder.specs.Endian.{big_bytes};
ghost use Rattle.vr_bases.specs.Spelling.{flag, flag_bytes, marks_bytes, number_at, numbers_at};

use byteorder::{BigEndian, ByteOrder};
use std::alloc::{AllocError, Global};
use vr_model::MOST_REPLICAS;
use vr_pausing::Marks;

/// So many bytes they have.
pub(crate) const MARKS_LENGTH: usize = 136;

/// Puts a number behind others, in eight bytes.
fn put_number(out: &mut Vec<u8>, number: u64) -> Result<(), AllocError>
    ensures { OnOk result (out.new.items ≡ out.old.items ++ big_bytes 8 number) }
{
    let mut bytes = [0u8; 8];
    BigEndian::write_u64(&mut bytes, number);
    out.extend_from_slice(bytes.as_slice())?;
    Ok(())
}

/// Puts numbers, in order.
fn put_numbers(out: &mut Vec<u8>, numbers: &[u64]) -> Result<(), AllocError>
    ensures { OnOk result (out.new.items ≡ out.old.items ++ flat_map (big_bytes 8) numbers.now) }
{
    for number in numbers {
        put_number(out, *number)?;
    }
    Ok(())
}

/// The number of a flag.
fn flag(is_set: bool) -> u64
    ensures { result ≡ flag is_set }
{
    if is_set { 1 } else { 0 }
}

/// Puts flags, in order.
fn put_flags(out: &mut Vec<u8>, flags: &[bool]) -> Result<(), AllocError>
    ensures { OnOk result (out.new.items ≡ out.old.items ++ flat_map flag_bytes flags.now) }
{
    for is_set in flags {
        put_number(out, flag(*is_set))?;
    }
    Ok(())
}

/// The bytes of the marks that stand in front.
pub(crate) fn spell_marks(alloc: Global, marks: &Marks) -> Result<Vec<u8>, AllocError>
    ensures { IfOk result (λ bytes. bytes.items ≡ marks_bytes marks.now) }
{
    let acknowledged = marks.acknowledged;
    let start_view_changes = marks.start_view_changes;
    let mut bytes = Vec::new(alloc);
    put_number(&mut bytes, marks.stored_view)?;
    put_number(&mut bytes, marks.nonce)?;
    put_numbers(&mut bytes, acknowledged.as_slice())?;
    put_number(&mut bytes, flag(marks.sent_do_view_change))?;
    put_flags(&mut bytes, start_view_changes.as_slice())?;
    Ok(bytes)
}

/// The number at this place.
pub(crate) fn number_at(bytes: &[u8], place: usize) -> u64
    requires within { place * 8 + 8 ≤ length bytes.now }
    ensures { result ≡ number_at bytes.now place }
{
    let (_, rest) = bytes.split_at(place * 8);
    BigEndian::read_u64(rest)
}

/// How far each replica has acknowledged.
pub(crate) fn acknowledged_in(bytes: &[u8]) -> [u64; MOST_REPLICAS]
    requires within { 136 ≤ length bytes.now }
    ensures { result ≡ numbers_at bytes.now 2 7 }
{
    [
        number_at(bytes, 2),
        number_at(bytes, 3),
        number_at(bytes, 4),
        number_at(bytes, 5),
        number_at(bytes, 6),
        number_at(bytes, 7),
        number_at(bytes, 8),
    ]
}

/// Whether the flag at this place is set.
pub(crate) fn is_set_at(bytes: &[u8], place: usize) -> bool
    requires within { place * 8 + 8 ≤ length bytes.now }
    ensures { result ≡ (number_at bytes.now place == 1) }
{
    number_at(bytes, place) == 1
}

/// Who sent STARTVIEWCHANGE.
pub(crate) fn start_view_changes_in(bytes: &[u8]) -> [bool; MOST_REPLICAS]
    requires within { 136 ≤ length bytes.now }
    ensures { result ≡ map (λ n. n == 1) (numbers_at bytes.now 10 7) }
{
    [
        is_set_at(bytes, 10),
        is_set_at(bytes, 11),
        is_set_at(bytes, 12),
        is_set_at(bytes, 13),
        is_set_at(bytes, 14),
        is_set_at(bytes, 15),
        is_set_at(bytes, 16),
    ]
}
