//! What is wrong with devices that are right each by itself.

use crate::device::Device;
use crate::fault::{FieldFault, Spot, Why};
use crate::reading::Writing;
use std::alloc::Global;

impl Writing {
    /// Whether a cell is written by both.
    fn meets(&self, other: &Writing) -> bool {
        let (from, own) = (usize::from(self.address), usize::from(other.address));
        self.places.kind.is(other.places.kind)
            && from < own.saturating_add(other.places.count)
            && own < from.saturating_add(self.places.count)
    }
}

impl Device {
    /// Whether it's the same unit behind the same address.
    fn is_behind(&self, other: &Device) -> bool {
        self.address == other.address && self.unit == other.unit
    }

    /// Whether one of its writings has a cell of this one.
    fn writes(&self, writing: &Writing) -> bool {
        self.writings.iter().any(|own| own.meets(writing))
    }
}

/// Whether a cell of this writing is written by an earlier one, of the same device or of another that is the same unit.
fn is_written(devices: &[Device], device: &Device, place: usize, writing: &Writing) -> bool {
    let mut before = device.writings.iter().take(place);
    before.any(|own| own.meets(writing))
        || devices
            .iter()
            .any(|other| other.is_behind(device) && other.writes(writing))
}

/// Refuses a device that writes a cell which it, or one of those before it, writes already.
fn judge_writings(
    alloc: Global,
    before: &[Device],
    device: &Device,
    number: usize,
) -> Result<(), FieldFault> {
    for (place, writing) in device.writings.iter().enumerate() {
        if is_written(before, device, place, writing) {
            let spot = Spot::Write(number, place.saturating_add(1));
            return Err(FieldFault::of_key(alloc, spot, "to", Why::Written));
        }
    }
    Ok(())
}

/// Refuses a device whose reply isn't late before its next round is due, and cells that are written twice.
pub(crate) fn judge_devices(
    alloc: Global,
    devices: &[Device],
    cycle: u32,
) -> Result<(), FieldFault> {
    for (index, device) in devices.iter().enumerate() {
        let number = index.saturating_add(1);
        if device.timeout > cycle.saturating_mul(device.every) {
            return Err(FieldFault::of_key(alloc, Spot::Device(number), "timeout", Why::Late));
        }
        judge_writings(alloc, &devices[..index], device, number)?;
    }
    Ok(())
}
