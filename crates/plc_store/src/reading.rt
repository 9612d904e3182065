//! A store of its bytes.

ghost use Rattle.std.specs.Prelude.{◌≡◌, ◌≢◌, ◌<◌, IfErr, IfOk, length, option_map};
ghost use Rattle.std.specs.Int.{w32, w64, from_be_bytes};
ghost use Rattle.plc_store.specs.Spelling.{Gives, IsOtherFormat, epoch_by, fields_of, header_of, is_other_format};
ghost use Rattle.plc_store.specs.Spelling.{kept_by, numbers_by, read_of, Fits, Saying, saying, spelling};
ghost use Rattle.plc_store.specs.declared.reading.StoreFault.TheVariants.{Memory, OtherFormat, Torn};

use crate::header::{Header, Seen, Store};
use crate::spelling::spell;
use net_hello::Epoch;
use plc_epochs::Kept;
use std::alloc::{AllocError, Global};

/// Why bytes are no store.
#[derive(Clone, Copy, Debug, PartialEq, Eq)]
pub enum StoreFault {
    /// They begin as a store of another format.
    OtherFormat,
    /// They were cut, or changed, or never were a store.
    Torn,
    /// Memory ran out.
    Memory,
}

impl From<AllocError> for StoreFault {
    ghost from_gives = { λ _ e. e ≡ Memory };

    fn from(_error: AllocError) -> StoreFault {
        StoreFault::Memory
    }
}

/// So many bytes stand before the image.
const FRONT: usize = 184;

/// So many bytes begin each store of any format, the last two its number.
const BEGINNING: usize = 10;

/// The store whose spelling these bytes are.
pub fn read_store(alloc: Global, bytes: &[u8]) -> Result<Store, StoreFault>
    ensures exact { Gives (read_of bytes.now) result }
    // What is read is spelled so.
    ensures found { IfOk result (λ store. bytes.now ≡ spelling (saying store)) }
    // What is spelled so is read, unless memory runs out.
    ensures refused { IfErr result (λ e. e ≢ Memory → (said : Saying) → Fits said
        → bytes.now ≢ spelling said) }
    ensures other { IfErr result (λ e. e ≡ OtherFormat → IsOtherFormat bytes.now) }
{
    read(alloc, bytes)
}

fn read(alloc: Global, bytes: &[u8]) -> Result<Store, StoreFault>
    ensures { Gives (read_of bytes.now) result }
{
    if is_other_format(bytes) {
        return Err(StoreFault::OtherFormat);
    }
    let Some(store) = fields_of(alloc, bytes)? else {
        return Err(StoreFault::Torn);
    };
    if spell(alloc, &store)?.as_slice() == bytes {
        Ok(store)
    } else {
        Err(StoreFault::Torn)
    }
}

/// Whether bytes begin as a store of another format.
fn is_other_format(bytes: &[u8]) -> bool
    ensures { result ≡ is_other_format bytes.now }
{
    bytes.len() >= BEGINNING
        && &bytes[..8] == b"PLCSTORE".as_slice()
        && &bytes[8..10] != [0u8, 3].as_slice()
}

/// What stands where the fields of a store do; None where it's too short for that.
fn fields_of(alloc: Global, bytes: &[u8]) -> Result<Option<Store>, AllocError>
    ensures { IfOk result (λ found. option_map saying found ≡ fields_of bytes.now) }
{
    if bytes.len() < FRONT {
        return Ok(None);
    }
    let (front, rest) = bytes.split_at(FRONT);
    let (header, length) = front.split_at(FRONT - 4);
    let length = number_of(length) as usize;
    if rest.len() < length {
        return Ok(None);
    }
    let image = Vec::from_slice(alloc, &rest[..length])?;
    Ok(Store::new(header_of(header), image))
}

/// What stands where the fields of a header do.
#[tactic(auto, unfolding(crate::specs::Spelling::header_of))]
fn header_of(bytes: &[u8]) -> Header
    requires { length bytes.now ≡ 180 }
    ensures { result ≡ header_of bytes.now }
{
    let (_, rest) = bytes.split_at(BEGINNING);
    let (identity, rest) = rest.split_at(32);
    let (kind, rest) = rest.split_at(1);
    let (number, rest) = rest.split_at(8);
    let (image, rest) = rest.split_at(32);
    let (program, rest) = rest.split_at(32);
    let (machine, rest) = rest.split_at(1);
    let (store, seen) = rest.split_at(8);
    Header {
        identity: array_of(identity),
        kept: kept_by(kind[0], epoch_by(number, image)),
        program: array_of(program),
        machine: machine[0],
        store: long_of(store),
        seen: seen_by(seen),
    }
}

fn epoch_by(number: &[u8], image: &[u8]) -> Epoch
    requires number { length number.now ≡ 8 }
    requires image { length image.now ≡ 32 }
    ensures { result ≡ epoch_by number.now image.now }
{
    Epoch {
        number: long_of(number),
        image: array_of(image),
    }
}

/// What a store has of epochs. A number that is none of the kinds isn't spelled so, so it's refused later.
fn kept_by(kind: u8, epoch: Epoch) -> Kept
    ensures { result ≡ kept_by kind epoch }
{
    match kind {
        0 => Kept::Nothing,
        1 => Kept::Above(epoch),
        2 => Kept::Entered(epoch),
        _ => Kept::Begun(epoch),
    }
}

/// Which stores were seen.
fn seen_by(bytes: &[u8]) -> Seen
    requires { length bytes.now ≡ 56 }
    ensures { result ≡ numbers_by 7 bytes.now }
{
    let (first, rest) = bytes.split_at(8);
    let (second, rest) = rest.split_at(8);
    let (third, rest) = rest.split_at(8);
    let (fourth, rest) = rest.split_at(8);
    let (fifth, rest) = rest.split_at(8);
    let (sixth, seventh) = rest.split_at(8);
    [
        long_of(first),
        long_of(second),
        long_of(third),
        long_of(fourth),
        long_of(fifth),
        long_of(sixth),
        long_of(seventh),
    ]
}

/// These bytes as an array.
fn array_of(bytes: &[u8]) -> [u8; 32]
    requires { length bytes.now ≡ 32 }
    ensures { result ≡ bytes.now }
{
    let mut array = [0u8; 32];
    array.copy_from_slice(bytes);
    array
}

/// These bytes as a number, big-endian.
fn number_of(bytes: &[u8]) -> u32
    requires { length bytes.now ≡ 4 }
    ensures { result ≡ from_be_bytes w32 bytes.now }
{
    let mut array = [0u8; 4];
    array.copy_from_slice(bytes);
    u32::from_be_bytes(array)
}

/// These bytes as a number of 64 bits, big-endian.
fn long_of(bytes: &[u8]) -> u64
    requires { length bytes.now ≡ 8 }
    ensures { result ≡ from_be_bytes w64 bytes.now }
{
    let mut array = [0u8; 8];
    array.copy_from_slice(bytes);
    u64::from_be_bytes(array)
}
