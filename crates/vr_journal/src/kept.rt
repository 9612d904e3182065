//! What a file of a journal keeps.

ghost use Rattle.std.specs.Prelude.{◌≡◌, ◌≤◌, ℕ, length, map, ◌↔◌, IfOk, IfSome, IfNone, IsTrue, MatchOption};
ghost use Rattle.vr_journal.specs.Records.{entry};
ghost use Rattle.vr_journal.specs.Journals.{AreNotWhole, IsHead, Keeps, KeepsNothing, KeepsRecords, inputs, last};
ghost use Rattle.vr_journal.specs.Journals.{number_in, numbers};

use crate::reading::{Found, read};
use crate::record::{Kind, Record};
use crate::writing::MAGIC;
use byteorder::{BigEndian, ByteOrder};
use std::alloc::{AllocError, Global};

/// What a file keeps, and where it goes on.
#[derive(Drop)]
pub struct Kept {
    /// The later of two files of one replica has the greater one.
    pub generation: u64,
    /// The last start in which the file was in use.
    pub start: u64,
    /// The last time by the wall clock that was put, if one was.
    pub time: Option<u64>,
    /// What the replica was when the file was begun.
    pub base: Vec<u8>,
    /// What it took up since, in order.
    pub inputs: Vec<Vec<u8>>,
    /// So many bytes the file's records have.
    pub length: usize,
    /// The sum over them.
    pub sum: u64,
}

/// Whether these are the same bytes.
fn are_same(a: &[u8], b: &[u8]) -> bool
    ensures { IsTrue result ↔ (a.now ≡ b.now) }
{
    a == b
}

/// The generation that the head of a file of this owner's tells, if this is one.
fn generation_in(one: &Record, owner: &[u8]) -> Option<u64>
    ensures found { IfSome result (λ generation. IsHead owner.now generation (entry one.now)) }
    ensures none { IfNone result ((generation : ℕ) → IsHead owner.now generation (entry one.now) → ⊥) }
{
    let bytes = one.bytes.as_slice();
    if one.kind != Kind::Head || bytes.len() != 16 + owner.len() {
        return None;
    }
    let (_, told) = bytes.split_at(16);
    if BigEndian::read_u64(bytes) != MAGIC || !are_same(told, owner) {
        return None;
    }
    let (_, generation) = bytes.split_at(8);
    Some(BigEndian::read_u64(generation))
}

/// The number that a record of this kind tells, if this is one.
fn number_in(one: &Record, kind: Kind) -> Option<u64>
    ensures { result ≡ number_in kind (entry one.now) }
{
    if one.kind == kind && one.bytes.len() == 8 {
        Some(BigEndian::read_u64(one.bytes.as_slice()))
    } else {
        None
    }
}

/// The last number that records of this kind tell, if one does.
fn last_number(records: &[Record], kind: Kind) -> Option<u64>
    ensures { result ≡ last (numbers kind (map entry records.now)) }
{
    let mut last = None;
    for record in records {
        last = number_in(record, kind).or(last);
    }
    last
}

/// The inputs among records, in order.
fn inputs_in(alloc: Global, records: &[Record]) -> Result<Vec<Vec<u8>>, AllocError>
    ensures { IfOk result (λ found. map (λ v. v.items) found.items ≡ inputs (map entry records.now)) }
{
    let mut found = Vec::new(alloc);
    for record in records {
        if record.kind == Kind::Input {
            found.push(Vec::from_slice(alloc, record.bytes.as_slice())?)?;
        }
    }
    Ok(found)
}

/// What these records keep, of a file that goes on behind so many bytes and this sum.
fn kept_in(alloc: Global, owner: &[u8], found: &Found) -> Result<Option<Kept>, AllocError>
    ensures kept { IfOk result (λ kept. MatchOption kept (AreNotWhole owner.now (map entry found.now.records.items))
        (λ kept. KeepsRecords owner.now (map entry found.now.records.items) kept)) }
    ensures place { IfOk result
        (λ kept. IfSome kept (λ kept. (kept.length ≡ found.now.length) × (kept.sum ≡ found.now.sum))) }
{
    let [head, start, base, later @ ..] = found.records.as_slice() else {
        return Ok(None);
    };
    let Some(generation) = generation_in(head, owner) else {
        return Ok(None);
    };
    let Some(first_start) = number_in(start, Kind::Start) else {
        return Ok(None);
    };
    if base.kind != Kind::Base {
        return Ok(None);
    }
    Ok(Some(Kept {
        generation,
        start: last_number(later, Kind::Start).unwrap_or(first_start),
        time: last_number(later, Kind::Time),
        base: Vec::from_slice(alloc, base.bytes.as_slice())?,
        inputs: inputs_in(alloc, later)?,
        length: found.length,
        sum: found.sum,
    }))
}

impl Kept {
    /// What a file keeps; none where it isn't whole, as one whose beginning didn't come to the disk, or isn't this
    /// owner's. It fails only where memory runs out.
    pub fn read(alloc: Global, owner: &[u8], bytes: &[u8]) -> Result<Option<Kept>, AllocError>
        ensures kept { IfOk result (λ kept. MatchOption kept (KeepsNothing owner.now bytes.now)
            (λ kept. Keeps owner.now bytes.now kept)) }
        ensures within { IfOk result (λ kept. IfSome kept (λ kept. kept.length ≤ length bytes.now)) }
    {
        let found = read(alloc, bytes)?;
        kept_in(alloc, owner, &found)
    }
}
