//! The bytes of a store.

ghost use Rattle.std.specs.Prelude.{◌≡◌, ◌++◌, IfOk, OnOk, length};
ghost use Rattle.std.specs.Int.{w16, w32, w64, to_be_bytes};
ghost use Rattle.plc_store.specs.Spelling.{epoch_bytes, epoch_of, header_bytes, kind_of, machine_bytes};
ghost use Rattle.plc_store.specs.Spelling.{numbers_bytes, saying, spelling, stores_bytes};

use crate::header::{Header, Store};
use net_hello::Epoch;
use plc_epochs::Kept;
use sha2::{Digest, Sha256};
use std::alloc::{AllocError, Global};

/// The first bytes of each store, in which its format is the last: `PLCSTORE`, and 3.
pub(crate) const MAGIC: [u8; 10] = *b"PLCSTORE\x00\x03";

/// The bytes of a store, whose last 32 are the SHA-256 of those before.
pub fn spell(alloc: Global, store: &Store) -> Result<Vec<u8>, AllocError>
    ensures { IfOk result (λ v. v.items ≡ spelling (saying store.now)) }
{
    let mut bytes = Vec::new(alloc);
    put_header(&mut bytes, &store.header)?;
    bytes.extend_from_slice((store.image.len() as u32).to_be_bytes().as_slice())?;
    bytes.extend_from_slice(store.image.as_slice())?;
    let sum = Sha256::digest(bytes.as_slice());
    bytes.extend_from_slice(sum.as_slice())?;
    Ok(bytes)
}

/// Puts the bytes of a header behind others.
fn put_header(bytes: &mut Vec<u8>, header: &Header) -> Result<(), AllocError>
    ensures { OnOk result (bytes.new.items ≡ bytes.old.items ++ header_bytes header.now) }
{
    bytes.extend_from_slice(MAGIC.as_slice())?;
    bytes.extend_from_slice(header.identity.as_slice())?;
    bytes.push(kind_of(&header.kept))?;
    put_epoch(bytes, &epoch_of(&header.kept))?;
    put_machine(bytes, header)
}

/// Puts the sum of the image behind others, the machine, and the stores.
fn put_machine(bytes: &mut Vec<u8>, header: &Header) -> Result<(), AllocError>
    ensures { OnOk result (bytes.new.items ≡ bytes.old.items ++ machine_bytes header.now) }
{
    bytes.extend_from_slice(header.program.as_slice())?;
    bytes.push(header.machine)?;
    put_stores(bytes, header)
}

/// Puts behind others what the store is known by, and which stores of other machines were seen.
fn put_stores(bytes: &mut Vec<u8>, header: &Header) -> Result<(), AllocError>
    ensures { OnOk result (bytes.new.items ≡ bytes.old.items ++ stores_bytes header.now) }
{
    bytes.extend_from_slice(header.store.to_be_bytes().as_slice())?;
    put_numbers(bytes, header.seen.as_slice())
}

/// Puts numbers behind other bytes.
fn put_numbers(bytes: &mut Vec<u8>, numbers: &[u64]) -> Result<(), AllocError>
    ensures { OnOk result (bytes.new.items ≡ bytes.old.items ++ numbers_bytes numbers.now) }
{
    for number in numbers {
        bytes.extend_from_slice(number.to_be_bytes().as_slice())?;
    }
    Ok(())
}

/// Puts the number of an epoch behind others, and the sum of the image with which it begins.
pub(crate) fn put_epoch(bytes: &mut Vec<u8>, epoch: &Epoch) -> Result<(), AllocError>
    ensures { OnOk result (bytes.new.items ≡ bytes.old.items ++ epoch_bytes epoch.now) }
{
    bytes.extend_from_slice(epoch.number.to_be_bytes().as_slice())?;
    bytes.extend_from_slice(epoch.image.as_slice())
}

fn kind_of(kept: &Kept) -> u8
    ensures { result ≡ kind_of kept.now }
{
    match kept {
        Kept::Nothing => 0,
        Kept::Above(_) => 1,
        Kept::Entered(_) => 2,
        Kept::Begun(_) => 3,
    }
}

/// The epoch of which a store has something; one of number 0 where there is none.
pub(crate) fn epoch_of(kept: &Kept) -> Epoch
    ensures { result ≡ epoch_of kept.now }
{
    match *kept {
        Kept::Nothing => Epoch {
            number: 0,
            image: [0; 32],
        },
        Kept::Above(epoch) | Kept::Entered(epoch) | Kept::Begun(epoch) => epoch,
    }
}
