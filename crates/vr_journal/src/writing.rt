//! Records as bytes, and what a new file has.

ghost use Rattle.std.specs.Prelude.{◌≡◌, ◌∷◌, ◌++◌, ◌↔◌, [], Err, IfOk, OnOk, OnErr};
ghost use Rattle.byteorder.specs.Endian.{big_bytes};
ghost use Rattle.vr_journal.specs.Records.{Fits, code, first_sum, record_bytes, spelt, sum_behind, sum_behind_all};
ghost use Rattle.vr_journal.specs.Journals.{beginning, head_bytes, number};
ghost use Rattle.vr_journal.specs.declared.writing.PutFault.TheVariants.{Memory, TooLong};

use crate::record::{FIRST_SUM, Kind, sum_over};
use byteorder::{BigEndian, ByteOrder};
use std::alloc::{AllocError, Global};
use thiserror::Error;

/// So many bytes of a record stand before what it says: the length of what follows the sum, the sum, and the kind.
pub(crate) const FRONT: usize = 13;

/// So long the body of a record may be.
const LONGEST: usize = 4_294_967_295;

/// The first eight bytes of a file's head: `PLC-JRN1`.
pub(crate) const MAGIC: u64 = 0x504C_432D_4A52_4E31;

/// Why a record wasn't put: nothing was.
#[derive(Clone, Copy, Debug, Error)]
pub enum PutFault {
    /// It has 4,294,967,295 bytes or more.
    #[error("a record of a journal is too long")]
    TooLong,
    #[error("out of memory")]
    Memory,
}

impl From<AllocError> for PutFault {
    ghost from_gives = { λ _ e. e ≡ Memory };

    fn from(_error: AllocError) -> PutFault {
        PutFault::Memory
    }
}

/// What stands before what a record says.
fn front_of(length: u32, sum: u64, kind: Kind) -> [u8; FRONT]
    ensures { result ≡ big_bytes 4 length ++ (big_bytes 8 sum ++ code kind ∷ []) }
{
    let mut front = [0u8; FRONT];
    BigEndian::write_u32(&mut front[..4], length);
    BigEndian::write_u64(&mut front[4..12], sum);
    front[12] = kind.code();
    front
}

/// Puts both behind what's there, or nothing where memory runs out.
fn put_both(out: &mut Vec<u8>, front: &[u8], rest: &[u8]) -> Result<(), AllocError>
    ensures ok { OnOk result (out.new.items ≡ out.old.items ++ (front.now ++ rest.now)) }
    ensures err { OnErr result (out.new.items ≡ out.old.items) }
{
    let before = out.len();
    out.extend_from_slice(front)?;
    if out.extend_from_slice(rest).is_err() {
        out.truncate(before);
        return Err(AllocError);
    }
    Ok(())
}

/// The sum behind a record, where it's this before it.
fn sum_behind(sum: u64, kind: Kind, bytes: &[u8]) -> u64
    ensures { result ≡ sum_behind sum (record { kind = kind; bytes = bytes.now }) }
{
    sum_over(sum_over(sum, &[kind.code()]), bytes)
}

/// Puts a record behind others, over which the sum is this, and gives the sum behind it. Where it fails the bytes are
/// as they were.
pub fn put(out: &mut Vec<u8>, sum: u64, kind: Kind, bytes: &[u8]) -> Result<u64, PutFault>
    ensures put { OnOk result
        (out.new.items ≡ out.old.items ++ record_bytes sum (record { kind = kind; bytes = bytes.now })) }
    ensures sum { IfOk result (λ behind. behind ≡ sum_behind sum (record { kind = kind; bytes = bytes.now })) }
    ensures fits { OnOk result (Fits (record { kind = kind; bytes = bytes.now })) }
    ensures err { OnErr result (out.new.items ≡ out.old.items) }
    ensures long { result ≡ Err TooLong ↔ (Fits (record { kind = kind; bytes = bytes.now }) → ⊥) }
{
    let length = bytes.len() + 1;
    if length > LONGEST {
        return Err(PutFault::TooLong);
    }
    let behind = sum_behind(sum, kind, bytes);
    let front = front_of(length as u32, behind, kind);
    put_both(out, front.as_slice(), bytes)?;
    Ok(behind)
}

/// The bytes of a number.
fn number(n: u64) -> [u8; 8]
    ensures { result ≡ big_bytes 8 n }
{
    let mut bytes = [0u8; 8];
    BigEndian::write_u64(&mut bytes, n);
    bytes
}

/// Puts a record of a number, as `put` does.
pub fn put_number(out: &mut Vec<u8>, sum: u64, kind: Kind, n: u64) -> Result<u64, PutFault>
    ensures put { OnOk result (out.new.items ≡ out.old.items ++ record_bytes sum (number kind n)) }
    ensures sum { IfOk result (λ behind. behind ≡ sum_behind sum (number kind n)) }
    ensures err { OnErr result (out.new.items ≡ out.old.items) }
    ensures memory { OnErr result (result ≡ Err Memory) }
{
    put(out, sum, kind, number(n).as_slice())
}

/// What the head of a file says.
fn head_of(alloc: Global, owner: &[u8], generation: u64) -> Result<Vec<u8>, AllocError>
    ensures { IfOk result (λ bytes. bytes.items ≡ head_bytes owner.now generation) }
{
    let mut bytes = Vec::new(alloc);
    bytes.extend_from_slice(number(MAGIC).as_slice())?;
    bytes.extend_from_slice(number(generation).as_slice())?;
    bytes.extend_from_slice(owner)?;
    Ok(bytes)
}

/// What a file is begun with: its head, the start in which that is, and what the replica is; and the sum behind it.
pub fn begin(
    alloc: Global,
    owner: &[u8],
    generation: u64,
    start: u64,
    base: &[u8],
) -> Result<(Vec<u8>, u64), PutFault>
    ensures spelt { IfOk result
        (λ begun. begun.0.items ≡ spelt first_sum (beginning owner.now generation start base.now)) }
    ensures sum { IfOk result
        (λ begun. begun.1 ≡ sum_behind_all first_sum (beginning owner.now generation start base.now)) }
{
    let head = head_of(alloc, owner, generation)?;
    let mut out = Vec::new(alloc);
    let sum = put(&mut out, FIRST_SUM, Kind::Head, head.as_slice())?;
    let sum = put_number(&mut out, sum, Kind::Start, start)?;
    let sum = put(&mut out, sum, Kind::Base, base)?;
    Ok((out, sum))
}
