//! What shows of a field at one moment.

ghost use Rattle.std.specs.Prelude.{◌≡◌, IfOk, map};
ghost use Rattle.field_page.specs.Readings.{device_of, is_lost, shown, shown_of, state_by, state_of, IsOfController};

use field_cycle::{Controller, Cycle, Spans, Standing, Station, Tally};
use std::alloc::{AllocError, Global};

/// How the controller, or a device, stands.
#[derive(Clone, Copy, Debug, PartialEq, Eq)]
pub enum State {
    /// Nothing is known of it yet.
    Unknown,
    Answers,
    Lost,
    /// A device that isn't asked: the controller is lost, and it has no outputs.
    Left,
}

/// What shows of the controller, or of a device.
#[derive(Drop)]
pub struct Party {
    /// A device's name; of the controller the address that is tried, or connected.
    pub name: Vec<u8>,
    pub state: State,
    pub tally: Tally,
}

/// What shows of a device.
#[derive(Drop)]
pub struct Shown {
    pub party: Party,
    /// Outputs were written to it, and not since what its writings fall back to.
    pub has_outputs: bool,
    /// The times of its rounds, in milliseconds.
    pub spans: Spans,
}

/// What shows of a field.
#[derive(Drop)]
pub struct Reading {
    /// So many cycles began.
    pub cycles: u64,
    pub controller: Party,
    /// In the order of the text.
    pub devices: Vec<Shown>,
}

/// Whether one is known to be lost.
fn is_lost(standing: Standing) -> bool
    ensures { result ≡ is_lost standing }
{
    match standing {
        Standing::Lost => true,
        Standing::Unknown | Standing::Answers => false,
    }
}

/// How one stands that is asked.
fn state_by(standing: Standing) -> State
    ensures { result ≡ state_by standing }
{
    match standing {
        Standing::Unknown => State::Unknown,
        Standing::Answers => State::Answers,
        Standing::Lost => State::Lost,
    }
}

/// How a device stands, where the controller is lost, or isn't.
fn state_of(station: &Station, is_controller_lost: bool) -> State
    ensures { result ≡ state_of is_controller_lost station.now }
{
    if is_controller_lost && !station.has_outputs {
        State::Left
    } else {
        state_by(station.standing)
    }
}

/// What shows of the controller.
fn controller_of(alloc: Global, controller: &Controller) -> Result<Party, AllocError>
    ensures { IfOk result (IsOfController controller.now) }
{
    let mut name = Vec::new(alloc);
    if let Some(address) = controller.address() {
        name.extend_from_slice(format!(in alloc; "{address}")?.as_str().as_bytes())?;
    }
    Ok(Party {
        name,
        state: state_by(controller.standing),
        tally: controller.link.tally,
    })
}

/// What shows of a device.
fn device_of(
    alloc: Global,
    station: &Station,
    is_controller_lost: bool,
) -> Result<Shown, AllocError>
    ensures { IfOk result (λ device. shown device ≡ device_of is_controller_lost station.now) }
{
    Ok(Shown {
        party: Party {
            name: Vec::from_slice(alloc, station.device.name.as_str().as_bytes())?,
            state: state_of(station, is_controller_lost),
            tally: station.link.tally,
        },
        has_outputs: station.has_outputs,
        spans: station.spans,
    })
}

/// What shows of each device.
fn devices_of(
    alloc: Global,
    stations: &[Station],
    is_controller_lost: bool,
) -> Result<Vec<Shown>, AllocError>
    ensures { IfOk result (λ devices. map shown devices.items ≡ map (device_of is_controller_lost) stations.now) }
{
    let mut devices = Vec::with_capacity(alloc, stations.len())?;
    for station in stations {
        devices.push(device_of(alloc, station, is_controller_lost)?)?;
    }
    Ok(devices)
}

/// What shows of a field now.
pub fn reading_of(alloc: Global, cycle: &Cycle) -> Result<Reading, AllocError>
    ensures cycles { IfOk result (λ reading. reading.cycles ≡ cycle.now.cycles) }
    ensures controller { IfOk result (λ reading. IsOfController cycle.now.controller reading.controller) }
    ensures devices { IfOk result (λ reading. map shown reading.devices.items ≡ shown_of cycle.now) }
{
    let is_controller_lost = is_lost(cycle.controller.standing);
    Ok(Reading {
        cycles: cycle.cycles,
        controller: controller_of(alloc, &cycle.controller)?,
        devices: devices_of(alloc, cycle.stations.as_slice(), is_controller_lost)?,
    })
}
