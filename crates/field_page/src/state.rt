//! What shows of a field as one JSON object.

ghost use Rattle.std.specs.Prelude.{OnOk};
ghost use Rattle.field_page.specs.State.{device_json, device_words, devices_json, party_json, state_text, tally_json};
ghost use Rattle.plc_figures.specs.Texts.{IsAdded};

use crate::reading::{Party, Reading, Shown};
use crate::site::FieldSite;
use crate::text::{Within, put_millis, put_within, state_name};
use field_cycle::Tally;
use plc_figures::{Told, put, put_comma, put_flag, put_notices, put_number, put_string, sum_of};
use std::alloc::AllocError;

/// What was counted of a connection.
fn put_tally(out: &mut Vec<u8>, tally: Tally) -> Result<(), AllocError>
    ensures { OnOk result (IsAdded out.old.items (tally_json tally) out.new.items) }
{
    put(out, b",\"replies\":")?;
    put_number(out, tally.replies)?;
    put(out, b",\"skipped\":")?;
    put_number(out, tally.skipped)?;
    put(out, b",\"retries\":")?;
    put_number(out, tally.retries)?;
    put(out, b",\"losses\":")?;
    put_number(out, tally.losses)?;
    Ok(())
}

/// The controller, or a device: its name, how it stands, and what was counted.
fn put_party(out: &mut Vec<u8>, party: &Party) -> Result<(), AllocError>
    ensures { OnOk result (IsAdded out.old.items (party_json party.now) out.new.items) }
{
    put(out, b"{\"name\":\"")?;
    put_within(out, Within::Json, party.name.as_slice())?;
    put(out, b"\",\"state\":\"")?;
    put(out, state_name(party.state))?;
    put(out, b"\"")?;
    put_tally(out, party.tally)?;
    Ok(())
}

/// What a device has beside that.
fn put_rounds(out: &mut Vec<u8>, device: &Shown) -> Result<(), AllocError>
    ensures { OnOk result (IsAdded out.old.items (device_words device.now) out.new.items) }
{
    put(out, b",\"outputs\":")?;
    put_flag(out, device.has_outputs)?;
    put(out, b",\"rounds\":")?;
    put_number(out, sum_of(&device.spans.counts))?;
    put(out, b",\"last\":")?;
    put_millis(out, device.spans.last)?;
    put(out, b",\"longest\":")?;
    put_millis(out, device.spans.longest)?;
    put(out, b"}")?;
    Ok(())
}

/// A device, which has this number.
fn put_device(out: &mut Vec<u8>, number: usize, device: &Shown) -> Result<(), AllocError>
    ensures { OnOk result (IsAdded out.old.items (device_json (number, device.now)) out.new.items) }
{
    put_comma(out, number)?;
    put_party(out, &device.party)?;
    put_rounds(out, device)?;
    Ok(())
}

/// All devices.
fn put_devices(out: &mut Vec<u8>, devices: &[Shown]) -> Result<(), AllocError>
    ensures { OnOk result (IsAdded out.old.items (devices_json devices.now) out.new.items) }
{
    for (number, device) in devices.iter().enumerate() {
        put_device(out, number, device)?;
    }
    Ok(())
}

/// Adds what shows as one JSON object, by the version of the program, what goes where, and the last lines that were
/// told.
pub(crate) fn put_state(
    out: &mut Vec<u8>,
    site: &FieldSite,
    reading: &Reading,
    told: &[Told],
) -> Result<(), AllocError>
    ensures { OnOk result (IsAdded out.old.items
        (state_text site.now.version.items reading.now site.now.table.items told.now) out.new.items) }
{
    put(out, b"{\"version\":")?;
    put_string(out, site.version.as_slice())?;
    put(out, b",\"cycles\":")?;
    put_number(out, reading.cycles)?;
    put(out, b",\"controller\":")?;
    put_party(out, &reading.controller)?;
    put(out, b"},\"devices\":[")?;
    put_devices(out, reading.devices.as_slice())?;
    put(out, b"],\"table\":\"")?;
    put_within(out, Within::Json, site.table.as_slice())?;
    put(out, b"\",\"notices\":[")?;
    put_notices(out, told)?;
    put(out, b"]}\n")?;
    Ok(())
}
