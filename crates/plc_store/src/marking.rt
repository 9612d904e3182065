//! The mark of a change of the program.

ghost use Rattle.std.specs.Prelude.{◌≡◌, IfOk, option_map};
ghost use Rattle.plc_store.specs.Marking.{changed_image, mark_sum, marked};
ghost use Rattle.plc_store.specs.Spelling.{epoch_bytes};

use crate::directory::DiskFault;
use crate::files::WholeFile;
use net_hello::Epoch;
use sha2::{Digest, Sha256};
use std::alloc::{AllocError, Global};
use std::fs::File;
use std::rt::Files;

/// The name of the mark's file.
pub(crate) const MARK: &str = "changed";

/// So many bytes stand before the image in a mark.
pub(crate) const FRONT: usize = 40;

/// So many stand behind it.
const SUM: usize = 32;

/// What the mark of a change in an epoch begins with: the number of the epoch, and the sum of the image with which it
/// began.
pub(crate) fn front_of(epoch: &Epoch) -> [u8; FRONT]
    ensures { result ≡ epoch_bytes epoch.now }
{
    let mut bytes = [0u8; FRONT];
    bytes[..8].copy_from_slice(epoch.number.to_be_bytes().as_slice());
    bytes[8..].copy_from_slice(epoch.image.as_slice());
    bytes
}

/// The sum of a mark of an epoch and an image, which stands behind them.
fn sum_of(front: &[u8; FRONT], image: &[u8]) -> [u8; SUM]
    ensures { result ≡ mark_sum front.now image.now }
{
    let mut hasher = Sha256::new();
    hasher.update(front.as_slice());
    hasher.update(image);
    hasher.finalize()
}

/// The bytes of a mark of an epoch, by its first bytes, and an image.
fn mark_of(alloc: Global, front: &[u8; FRONT], image: &[u8]) -> Result<Vec<u8>, AllocError>
    ensures { IfOk result (λ v. v.items ≡ marked front.now image.now) }
{
    let sum = sum_of(front, image);
    let mut bytes = Vec::from_slice(alloc, front.as_slice())?;
    bytes.extend_from_slice(image)?;
    bytes.extend_from_slice(sum.as_slice())?;
    Ok(bytes)
}

/// The image of the mark of a change in an epoch, of the bytes that its file has; None where they're no whole mark of
/// that epoch, or one without an image.
pub(crate) fn image_of_mark<'a>(epoch: &Epoch, mark: &'a [u8]) -> Option<&'a [u8]>
    ensures { option_map (λ image. image.now) result ≡ changed_image epoch.now mark.now }
{
    if mark.len() <= FRONT + SUM {
        return None;
    }
    let (front, rest) = mark.split_at(FRONT);
    let (image, sum) = rest.split_at(rest.len() - SUM);
    let own = front_of(epoch);
    if front == own.as_slice() && sum == sum_of(&own, image).as_slice() {
        Some(image)
    } else {
        None
    }
}

/// Marks the store of a directory by a change of the program, for whichever thread sees that.
#[derive(Drop)]
pub struct ChangeMark<R: Files + Drop> {
    rt: R,
    alloc: Global,
    file: WholeFile,
    front: [u8; FRONT],
}

impl<R: Files<File = File> + Drop> ChangeMark<R> {
    /// Of changes in this epoch, in this directory. Nothing is written yet.
    pub fn new(
        rt: R,
        alloc: Global,
        directory: &str,
        epoch: &Epoch,
    ) -> Result<ChangeMark<R>, AllocError> {
        Ok(ChangeMark {
            rt,
            alloc,
            file: WholeFile::new(alloc, directory, MARK)?,
            front: front_of(epoch),
        })
    }

    /// Marks it by a change to this image, in place of an earlier one; an empty image stands for one that isn't known.
    /// Where that fails the mark is as it was, or this one.
    pub fn mark(&self, image: &[u8]) -> Result<(), DiskFault> {
        let Ok(bytes) = mark_of(self.alloc, &self.front, image) else {
            return Err(DiskFault::Other);
        };
        Ok(self.file.put(&self.rt, bytes.as_slice())?)
    }

    /// Takes the mark away, if there's one: what was to change it was refused. Where that fails it may be there, or not.
    pub fn unmark(&self) -> Result<(), DiskFault> {
        self.file.remove(&self.rt)?;
        Ok(self.file.flush_directory(&self.rt)?)
    }
}
