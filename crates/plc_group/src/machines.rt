//! The machines of the file.

ghost use Rattle.std.specs.Prelude.{◌≡◌, ◌++◌, ⊤, IfOk, OnOk, [], Some, is_some, map, option_map, position, vec_len};
ghost use Rattle.std.specs.List.{list_any};
ghost use Rattle.toml.specs.View.{view, table_view};
ghost use Rattle.plc_group.specs.Faults.{Judges, addresses_faults, again, each_faults, first, is_same, machine_faults};
ghost use Rattle.plc_group.specs.Faults.{machines_faults, places_in, places_of, stands_in, twice_after, twice_faults};
ghost use Rattle.plc_group.specs.Faults.{all_exposed_faults, beside_faults, has_console, is_everywhere, replica_faults, status_faults};
ghost use Rattle.plc_group.specs.Faults.{is_reached, wanted_place};
ghost use Rattle.plc_group.specs.Values.{IsSize, address_of, all_of, is_loopback, machine_in, machine_of, machines_said};
ghost use Rattle.plc_group.specs.Values.{value_at};

use crate::fault::{GroupFault, Why};
use crate::fields::{needed_address, refuse_unknown, value_at, wanted_address, wrong};
use crate::group::Machine;
use crate::key::{Key, MACHINE_KEYS};
use crate::values::machines_of;
use std::alloc::{AllocError, Global};
use std::net::SocketAddr;
use toml::{Table, Value};

/// The machines that a table has.
pub(crate) fn machines(alloc: Global, table: &Table) -> Result<Vec<Machine>, GroupFault>
    ensures judged { Judges (machines_faults (table_view table.now))
        (λ v. machines_said (table_view table.now) ≡ Some v.items) result }
    ensures size { IfOk result (λ v. IsSize (vec_len v)) }
{
    let Some(value) = value_at(table, Key::Machine) else {
        return Err(wrong(None, Key::Machine, Why::Missing));
    };
    let Some(values) = machines_of(value) else {
        return Err(wrong(None, Key::Machine, Why::Refused));
    };
    let machines = each_machine(alloc, values)?;
    match twice(alloc, machines.as_slice())? {
        Some(place) => Err(wrong(Some(place.machine), place.key, Why::Twice)),
        None => Ok(machines),
    }
}

fn each_machine(alloc: Global, values: &[Value]) -> Result<Vec<Machine>, GroupFault>
    ensures { Judges (each_faults (map view values.now))
        (λ v. all_of machine_of (map view values.now) ≡ Some v.items) result }
{
    let mut machines = Vec::new(alloc);
    for (place, value) in values.iter().enumerate() {
        let next = machine(alloc, value, place)?;
        machines.push(next)?;
    }
    Ok(machines)
}

/// The machine at a place of the file.
fn machine(alloc: Global, value: &Value, place: usize) -> Result<Machine, GroupFault>
    ensures { Judges (machine_faults place (view value.now)) (λ m. machine_of (view value.now) ≡ Some m) result }
{
    let Some(table) = value.as_table() else {
        return Err(wrong(Some(place), Key::Machine, Why::Refused));
    };
    refuse_unknown(alloc, table, MACHINE_KEYS.as_slice(), Some(place))?;
    addresses(table, place)
}

fn addresses(table: &Table, place: usize) -> Result<Machine, GroupFault>
    ensures { Judges (addresses_faults place (table_view table.now))
        (λ m. machine_in (table_view table.now) ≡ Some m) result }
{
    Ok(Machine {
        replica: replica(table, place)?,
        modbus: needed_address(table, Key::Modbus, place)?,
        modbus_read: wanted_address(table, Key::ModbusRead, place)?,
        console: wanted_address(table, Key::Console, place)?,
        status: status(table, place)?,
    })
}

/// Where the other machines reach a machine: at one address of it.
fn replica(table: &Table, place: usize) -> Result<SocketAddr, GroupFault>
    ensures { Judges (replica_faults place (table_view table.now))
        (λ a. value_at address_of Key.Replica (table_view table.now) ≡ Some a) result }
{
    let address = needed_address(table, Key::Replica, place)?;
    if is_everywhere(address) {
        return Err(wrong(Some(place), Key::Replica, Why::Everywhere));
    }
    Ok(address)
}

/// Where a machine shows its status, if it does: at one address of it.
fn status(table: &Table, place: usize) -> Result<Option<SocketAddr>, GroupFault>
    ensures { Judges (status_faults place (table_view table.now))
        (λ a. value_at address_of Key.Status (table_view table.now) ≡ a) result }
{
    match wanted_address(table, Key::Status, place)? {
        Some(address) if is_everywhere(address) => {
            Err(wrong(Some(place), Key::Status, Why::Everywhere))
        }
        address => Ok(address),
    }
}

/// Whether an address stands for each one of a machine.
fn is_everywhere(address: SocketAddr) -> bool
    ensures { result ≡ is_everywhere address }
{
    address.ip().is_unspecified()
}

/// Whether an address is of the machine alone.
pub(crate) fn is_loopback(address: SocketAddr) -> bool
    ensures { result ≡ is_loopback address }
{
    address.ip().is_loopback()
}

/// Refuses sockets for consoles beside a console at a port.
pub(crate) fn refuse_ports(sockets: &Option<String>, machines: &[Machine]) -> Result<(), GroupFault>
    ensures { Judges (beside_faults (is_some sockets.now) machines.now) (λ _. ⊤) result }
{
    if sockets.is_some() && has_port(machines) {
        return Err(wrong(None, Key::ConsoleSockets, Why::BesidePorts));
    }
    Ok(())
}

/// Refuses the first replica that others than its machine reach, where there may be none such.
pub(crate) fn refuse_exposed(may_be: bool, machines: &[Machine]) -> Result<(), GroupFault>
    ensures { Judges (all_exposed_faults may_be machines.now) (λ _. ⊤) result }
{
    if may_be {
        return Ok(());
    }
    match first_exposed(machines) {
        Some(number) => Err(wrong(Some(number), Key::Replica, Why::WithoutKey)),
        None => Ok(()),
    }
}

/// The first machine whose replica others reach.
fn first_exposed(machines: &[Machine]) -> Option<usize>
    ensures { result ≡ position is_reached machines.now }
{
    machines.iter().position(is_reached)
}

/// Whether others than a machine reach its replica.
fn is_reached(machine: &Machine) -> bool
    ensures { result ≡ is_reached machine.now }
{
    !is_loopback(machine.replica)
}

/// Whether a machine has a console at a port.
fn has_port(machines: &[Machine]) -> bool
    ensures { result ≡ list_any has_console machines.now }
{
    machines.iter().any(has_console)
}

fn has_console(machine: &Machine) -> bool
    ensures { result ≡ has_console machine.now }
{
    machine.console.is_some()
}

/// An address, where it stands.
#[derive(Clone, Copy, PartialEq, Eq)]
pub(crate) struct Place {
    pub(crate) machine: usize,
    pub(crate) key: Key,
    pub(crate) address: SocketAddr,
}

/// The first place whose address stands before it too.
fn twice(alloc: Global, machines: &[Machine]) -> Result<Option<Place>, AllocError>
    ensures { IfOk result (λ found. option_map again found ≡ first (twice_faults machines.now)) }
{
    let places = places(alloc, machines)?;
    Ok(first_again(places.as_slice()))
}

/// The first place whose address stands before it too.
fn first_again(places: &[Place]) -> Option<Place>
    ensures { option_map again result ≡ first (twice_after [] places.now) }
{
    for (index, place) in places.iter().enumerate() {
        if stands_in(&places[..index], place) {
            return Some(*place);
        }
    }
    None
}

/// Whether the address of a place stands at one of these too.
fn stands_in(before: &[Place], place: &Place) -> bool
    ensures { result ≡ stands_in before.now place.now }
{
    before
        .iter()
        .any(|earlier| is_same(earlier.address, place.address))
}

fn is_same(a: SocketAddr, b: SocketAddr) -> bool
    ensures { result ≡ is_same a b }
{
    a == b
}

/// The places of all addresses.
pub(crate) fn places(alloc: Global, machines: &[Machine]) -> Result<Vec<Place>, AllocError>
    ensures { IfOk result (λ v. v.items ≡ places_in machines.now) }
{
    let mut places = Vec::new(alloc);
    for (number, machine) in machines.iter().enumerate() {
        put_places(&mut places, machine, number)?;
    }
    Ok(places)
}

/// Puts the places of a machine behind the others.
fn put_places(places: &mut Vec<Place>, machine: &Machine, number: usize) -> Result<(), AllocError>
    ensures { OnOk result (places.new.items ≡ places.old.items ++ places_of number machine.now) }
{
    put_place(places, number, Key::Replica, Some(machine.replica))?;
    put_place(places, number, Key::Modbus, Some(machine.modbus))?;
    put_place(places, number, Key::ModbusRead, machine.modbus_read)?;
    put_place(places, number, Key::Console, machine.console)?;
    put_place(places, number, Key::Status, machine.status)
}

/// Puts the place of an address behind the others, if there is one.
fn put_place(
    places: &mut Vec<Place>,
    machine: usize,
    key: Key,
    address: Option<SocketAddr>,
) -> Result<(), AllocError>
    ensures { OnOk result (places.new.items ≡ places.old.items ++ wanted_place machine key address) }
{
    if let Some(address) = address {
        places.push(Place {
            machine,
            key,
            address,
        })?;
    }
    Ok(())
}
