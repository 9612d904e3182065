//! Fields that stand in lists.

ghost use Rattle.std.specs.Prelude.{◌≡◌, ◌<◌, ◌^◌, ◌↔◌, ◌++◌, IsTrue, OnOk, length};
ghost use Rattle.std.specs.Int.{w16, w64, to_be_bytes};
ghost use Rattle.std.specs.List.{flat_map, AllByRecursion};
ghost use Rattle.vr_wire.specs.Fields.{listed, value_bytes, FitsValue};
ghost use Rattle.vr_wire.specs.Reading.{Gives, number_at, items_at, listed_at, value_at};

use crate::fault::ReadError;
use crate::numbers::{put_u16, put_u64, u16_at, u64_at};
use crate::value::{put_value, value_at};
use il_model::Value;
use std::alloc::{AllocError, Global};

/// What is spelled, and read again.
pub(crate) trait Field: Sized + Drop {
    ghost use Rattle.std.specs.Prelude.{◌≡◌, ◌++◌, ◌↔◌, ℕ, List, Option, IsTrue, OnOk};
    ghost use Rattle.vr_wire.specs.Reading.{Gives};

    ghost text: { Self → List ℕ };

    /// Whether it has a spelling.
    ghost IsLawful: { Self → Type 0 };

    ghost Fits: { Self → Type 0 };

    ghost read_at: { List ℕ → Option (Self × List ℕ) };

    fn put(&self, out: &mut Vec<u8>) -> Result<(), AllocError>
        ensures text { OnOk result (out.new.items ≡ out.old.items ++ text self.now) }
        ensures fits { OnOk result (Fits self.now) };

    fn is_lawful(&self) -> bool
        ensures { IsTrue result ↔ IsLawful self.now };

    fn read(alloc: Global, bytes: &[u8]) -> Result<(Self, &[u8]), ReadError>
        ensures { Gives (λ x. (x.0, x.1.now)) result (read_at bytes.now) };
}

impl Field for u16 {
    ghost text = { to_be_bytes w16 };

    ghost IsLawful = { λ _. Unit {0} };

    ghost Fits = { λ n. n < 2 ^ 16 };

    ghost read_at = { number_at w16 };

    fn put(&self, out: &mut Vec<u8>) -> Result<(), AllocError> {
        put_u16(out, *self)
    }

    fn is_lawful(&self) -> bool {
        true
    }

    fn read(_alloc: Global, bytes: &[u8]) -> Result<(u16, &[u8]), ReadError> {
        u16_at(bytes)
    }
}

impl Field for u64 {
    ghost text = { to_be_bytes w64 };

    ghost IsLawful = { λ _. Unit {0} };

    ghost Fits = { λ n. n < 2 ^ 64 };

    ghost read_at = { number_at w64 };

    fn put(&self, out: &mut Vec<u8>) -> Result<(), AllocError> {
        put_u64(out, *self)
    }

    fn is_lawful(&self) -> bool {
        true
    }

    fn read(_alloc: Global, bytes: &[u8]) -> Result<(u64, &[u8]), ReadError> {
        u64_at(bytes)
    }
}

impl Field for Value {
    ghost text = { value_bytes };

    ghost IsLawful = { λ _. Unit {0} };

    ghost Fits = { FitsValue };

    ghost read_at = { value_at };

    fn put(&self, out: &mut Vec<u8>) -> Result<(), AllocError> {
        put_value(out, *self)
    }

    fn is_lawful(&self) -> bool {
        true
    }

    fn read(_alloc: Global, bytes: &[u8]) -> Result<(Value, &[u8]), ReadError> {
        value_at(bytes)
    }
}

pub(crate) fn put_items<T: Field>(out: &mut Vec<u8>, items: &[T]) -> Result<(), AllocError>
    ensures text { OnOk result (out.new.items ≡ out.old.items ++ flat_map T.text items.now) }
    ensures fits { OnOk result (AllByRecursion T.Fits items.now) }
{
    for item in items {
        item.put(out)?;
    }
    Ok(())
}

/// How many there are, and each.
pub(crate) fn put_list<T: Field>(out: &mut Vec<u8>, items: &[T]) -> Result<(), AllocError>
    requires { length items.now < 2 ^ 16 }
    ensures text { OnOk result (out.new.items ≡ out.old.items ++ listed w16 T.text items.now) }
    ensures fits { OnOk result (AllByRecursion T.Fits items.now) }
{
    put_u16(out, items.len() as u16)?;
    put_items(out, items)
}

/// Whether each has a spelling.
pub(crate) fn are_lawful<T: Field>(items: &[T]) -> bool
    ensures { IsTrue result ↔ AllByRecursion T.IsLawful items.now }
{
    for item in items {
        if !item.is_lawful() {
            return false;
        }
    }
    true
}

pub(crate) fn items_at<T: Field>(
    alloc: Global,
    count: usize,
    bytes: &[u8],
) -> Result<(Vec<T>, &[u8]), ReadError>
    ensures { Gives (λ x. (x.0.items, x.1.now)) result (items_at T.read_at count bytes.now) }
{
    let mut items = Vec::new(alloc);
    let mut rest = bytes;
    for _ in 0..count {
        let (item, behind) = T::read(alloc, rest)?;
        items.push(item)?;
        rest = behind;
    }
    Ok((items, rest))
}

pub(crate) fn list_at<T: Field>(alloc: Global, bytes: &[u8]) -> Result<(Vec<T>, &[u8]), ReadError>
    ensures { Gives (λ x. (x.0.items, x.1.now)) result (listed_at (number_at w16) T.read_at bytes.now) }
{
    let (count, rest) = u16_at(bytes)?;
    items_at(alloc, usize::from(count), rest)
}
