//! What the store of a machine has of epochs.

ghost use Rattle.std.specs.Prelude.{◌≡◌, ◌↔◌, IsTrue};
ghost use Rattle.plc_epochs.specs.GoingOn.{GoesOn};
ghost use Rattle.plc_epochs.specs.Epochs.{by_hand};

use crate::epoch::{is_later, is_same, next_epoch};
use net_hello::Epoch;
use thiserror::Error;

/// What a store has of epochs.
#[derive(Clone, Copy, Debug, PartialEq, Eq)]
pub enum Kept {
    /// Nothing: the disk of the machine was lost.
    Nothing,
    /// It waits for an epoch above this one.
    Above(Epoch),
    /// This epoch, which the machine hasn't begun.
    Entered(Epoch),
    /// This epoch, which the machine has begun.
    Begun(Epoch),
}

/// Why a machine isn't put into the next epoch by hand.
#[derive(Clone, Copy, Debug, PartialEq, Eq, Error)]
pub enum ByHandFault {
    /// Its disk was lost, so it's in no epoch: it waits for one that others are in.
    #[error("waits")]
    Waits,
    /// There is no number left.
    #[error("last epoch")]
    LastEpoch,
}

impl Kept {
    /// What a store is to have for its machine to be in the next epoch, with this image, by hand.
    pub fn by_hand(&self, image: [u8; 32]) -> Result<Kept, ByHandFault>
        ensures { result ≡ by_hand self.now image }
    {
        match self {
            Kept::Nothing | Kept::Above(_) => Err(ByHandFault::Waits),
            Kept::Entered(epoch) | Kept::Begun(epoch) => match next_epoch(epoch, image) {
                Some(next) => Ok(Kept::Entered(next)),
                None => Err(ByHandFault::LastEpoch),
            },
        }
    }

    /// Whether a store that has this may have the other next.
    pub fn goes_on(&self, next: &Kept) -> bool
        ensures { IsTrue result ↔ GoesOn self.now next.now }
    {
        match (self, next) {
            (Kept::Nothing, Kept::Nothing | Kept::Above(_)) => true,
            (Kept::Above(own), Kept::Above(other))
            | (Kept::Entered(own), Kept::Begun(other))
            | (Kept::Begun(own), Kept::Begun(other)) => is_same(other, own),
            (Kept::Above(own), Kept::Entered(other)) | (Kept::Begun(own), Kept::Entered(other)) =>
                is_later(other, own),
            (Kept::Entered(own), Kept::Entered(other)) => {
                is_same(other, own) || is_later(other, own)
            }
            _ => false,
        }
    }
}
