//! The addresses that others than this machine reach.

ghost use Rattle.std.specs.Prelude.{◌≡◌, ◌++◌, IfOk, OnOk, is_some, string_bytes};
ghost use Rattle.plc_group.specs.Lines.{exposed_line, exposed_lines, is_exposed};

use crate::group::Group;
use crate::key::Key;
use crate::machines::{Place, is_loopback, places};
use std::alloc::{AllocError, Global};

/// A line for each address of a group that is no loopback, and where whoever reaches it can write: not for those of a
/// status, nor for those of replicas where the group has a key, nor for those of Modbus where a list says who may come.
pub fn exposed_lines(alloc: Global, group: &Group) -> Result<String, AllocError>
    ensures { IfOk result (λ lines. string_bytes lines ≡
        exposed_lines (is_some group.now.key_file) (is_some group.now.clients.allowed) group.now.machines.items) }
{
    let mut lines = String::new(alloc);
    let has_key = group.key_file.is_some();
    let has_list = group.clients.allowed.is_some();
    let places = places(alloc, group.machines.as_slice())?;
    for place in places.iter() {
        put_exposed(alloc, &mut lines, has_key, has_list, place)?;
    }
    Ok(lines)
}

fn put_exposed(
    alloc: Global,
    lines: &mut String,
    has_key: bool,
    has_list: bool,
    place: &Place,
) -> Result<(), AllocError>
    ensures { OnOk result (string_bytes lines.new ≡
        string_bytes lines.old ++ exposed_line has_key has_list place.now) }
{
    if is_exposed(has_key, has_list, place) {
        let address = place.address;
        let line = format!(in alloc; "{address}: anybody on that network can write here\n")?;
        lines.push_str(line.as_str())?;
    }
    Ok(())
}

fn is_exposed(has_key: bool, has_list: bool, place: &Place) -> bool
    ensures { result ≡ is_exposed has_key has_list place.now }
{
    match place.key {
        Key::Status | Key::ModbusRead => false,
        Key::Replica => !has_key && !is_loopback(place.address),
        Key::Modbus => !has_list && !is_loopback(place.address),
        _ => !is_loopback(place.address),
    }
}
