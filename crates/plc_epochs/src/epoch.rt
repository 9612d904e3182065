//! Which of two epochs is the later one, and which comes next.

ghost use Rattle.std.specs.Prelude.{◌≡◌};
ghost use Rattle.plc_epochs.specs.Epochs.{is_far_above, is_later, is_same, next_epoch};

use net_hello::Epoch;
use std::cmp::Ordering;

/// Whether an epoch is later than the other: by its number, and where that is the same by the sum of its image.
pub fn is_later(epoch: &Epoch, other: &Epoch) -> bool
    ensures { result ≡ is_later epoch.now other.now }
{
    match epoch.number.cmp(&other.number) {
        Ordering::Less => false,
        Ordering::Equal => matches!(epoch.image.cmp(&other.image), Ordering::Greater),
        Ordering::Greater => true,
    }
}

/// Whether two epochs are one.
pub(crate) fn is_same(epoch: &Epoch, other: &Epoch) -> bool
    ensures { result ≡ is_same epoch.now other.now }
{
    epoch.number == other.number && epoch.image == other.image
}

/// Whether an epoch is more than one above the other.
pub(crate) fn is_far_above(epoch: &Epoch, other: &Epoch) -> bool
    ensures { result ≡ is_far_above epoch.now other.now }
{
    epoch.number.saturating_sub(other.number) > 1
}

/// The epoch behind this one, which begins with this image; `None` where there is no number left. The greatest number
/// is never used, and never heard.
pub(crate) fn next_epoch(epoch: &Epoch, image: [u8; 32]) -> Option<Epoch>
    ensures { result ≡ next_epoch epoch.now image }
{
    let number = epoch.number.saturating_add(1);
    if number < u64::MAX {
        Some(Epoch { number, image })
    } else {
        None
    }
}
