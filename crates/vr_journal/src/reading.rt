//! Which records bytes are read as.

ghost use Rattle.std.specs.Prelude.{◌≡◌, ◌≤◌, drop, length, map, IfOk, IfSome, IfNone};
ghost use Rattle.std.specs.Prelude.{slice_range};
ghost use Rattle.vr_journal.specs.Records.{AreRead, NoneStands, StandsFirst, entry, first_sum, sum_behind};
ghost use Rattle.vr_journal.specs.Records.{sum_behind_all};

use crate::record::{FIRST_SUM, Kind, Record, sum_over};
use crate::writing::FRONT;
use byteorder::{BigEndian, ByteOrder};
use std::alloc::{AllocError, Global};

/// The records of a file, in order, and where it goes on behind them.
#[derive(Drop)]
pub struct Found {
    pub records: Vec<Record>,
    /// So many bytes they have.
    pub length: usize,
    /// The sum over them.
    pub sum: u64,
}

/// The record that stands first in some bytes: what it says stands from `FRONT` up to its end.
#[derive(Clone, Copy)]
struct First {
    kind: Kind,
    end: usize,
    /// The sum behind it.
    sum: u64,
}

/// The record that stands first, behind others over which the sum is this; none where none is whole, or its sum wrong.
fn first_in(sum: u64, bytes: &[u8]) -> Option<First>
    ensures found { IfSome result (λ first. StandsFirst sum bytes.now
        (record { kind = first.kind; bytes = slice_range bytes.now 13 first.end }) (drop first.end bytes.now)) }
    ensures within { IfSome result (λ first. (13 ≤ first.end) × (first.end ≤ length bytes.now)) }
    ensures sum { IfSome result (λ first. first.sum
        ≡ sum_behind sum (record { kind = first.kind; bytes = slice_range bytes.now 13 first.end })) }
    ensures none { IfNone result (NoneStands sum bytes.now) }
{
    if bytes.len() < FRONT {
        return None;
    }
    let length = BigEndian::read_u32(bytes) as usize;
    if length == 0 || bytes.len() - 12 < length {
        return None;
    }
    let end = 12 + length;
    let kind = Kind::of(bytes[12])?;
    let behind = sum_over(sum, &bytes[12..end]);
    let (_, told) = bytes.split_at(4);
    if BigEndian::read_u64(told) != behind {
        return None;
    }
    Some(First {
        kind,
        end,
        sum: behind,
    })
}

/// The records that a file has: up to the first that isn't whole, or whose sum is wrong. It fails only where memory
/// runs out.
pub fn read(alloc: Global, bytes: &[u8]) -> Result<Found, AllocError>
    ensures read { IfOk result (λ found.
        AreRead first_sum bytes.now (map entry found.records.items) (drop found.length bytes.now)) }
    ensures within { IfOk result (λ found. found.length ≤ length bytes.now) }
    ensures sum { IfOk result (λ found. found.sum ≡ sum_behind_all first_sum (map entry found.records.items)) }
{
    let mut found = Found {
        records: Vec::new(alloc),
        length: 0,
        sum: FIRST_SUM,
    };
    'records: while let Some(first) = first_in(found.sum, &bytes[found.length..]) {
        let from = found.length + FRONT;
        let until = found.length + first.end;
        found.records.push(Record {
            kind: first.kind,
            bytes: Vec::from_slice(alloc, &bytes[from..until])?,
        })?;
        found.length = until;
        found.sum = first.sum;
    }
    Ok(found)
}
