//! A field as its text has it.

ghost use Rattle.std.specs.Prelude.{◌≡◌, ◌+◌, ◌<◌, ◌≤◌, ◌++◌, ◌∷◌, [], length, true, IfOk, OnOk};
ghost use Rattle.std.specs.List.{flat_map};
ghost use Rattle.field_map.specs.Areas.{is_whole};
ghost use Rattle.field_map.specs.Field.{filled_by, places_alive, places_read};

use crate::device::{Device, MOST_WRITINGS};
use crate::fault::{FieldFault, Spot, Why};
use crate::field::FieldMap;
use crate::filled::Filled;
use crate::inputs::Inputs;
use crate::judging::judge_devices;
use crate::layout::{Form, Layout};
use crate::places::{Kind, Places};
use crate::reading::{Reading, Writing};
use crate::section::{Section, TIMES};
use il_model::Area;
use modbus_wire::Table;
use std::alloc::Global;
use std::net::SocketAddr;

/// One request reads at most so many bits, and so many words (V1.1b3, sections 6.1 and 6.3).
const MOST_READ: (u32, u32) = (2000, 125);

/// One request writes at most so many bits, and so many words (V1.1b3, sections 6.11 and 6.12).
const MOST_WRITTEN: (u32, u32) = (1968, 123);

/// A table of a device has so many cells.
const CELLS: usize = 65_536;

/// The table of a reading.
fn source(section: &Section) -> Result<(Kind, Table), FieldFault> {
    match section.text("table")? {
        "coils" => Ok((Kind::Bits, Table::ReadWrite)),
        "discrete_inputs" => Ok((Kind::Bits, Table::ReadOnly)),
        "holding_registers" => Ok((Kind::Words, Table::ReadWrite)),
        "input_registers" => Ok((Kind::Words, Table::ReadOnly)),
        _ => Err(section.fault("table", Why::Table)),
    }
}

/// The table of a writing.
fn target(section: &Section) -> Result<Kind, FieldFault> {
    match section.text("table")? {
        "coils" => Ok(Kind::Bits),
        "holding_registers" => Ok(Kind::Words),
        _ => Err(section.fault("table", Why::Table)),
    }
}

/// The first cell of a device, at this key, and how many there are: at most as many as one request may carry.
fn cells(
    section: &Section,
    key: &str,
    kind: Kind,
    most: (u32, u32),
) -> Result<(u16, usize), FieldFault>
    ensures { IfOk result (λ cells. (0 < cells.1) × (cells.0 + cells.1 ≤ 65536)) }
{
    let address = section.number(key, 65_535)? as u16;
    let count = section.some("count", 65_535)?;
    let most = match kind {
        Kind::Bits => most.0,
        Kind::Words => most.1,
    };
    if count > most {
        return Err(section.fault("count", Why::TooMany));
    }
    let count = count as usize;
    if usize::from(address) + count > CELLS {
        return Err(section.fault("count", Why::PastTable));
    }
    Ok((address, count))
}

/// So many places of an area, from the one at this key on.
fn places(
    section: &Section,
    key: &str,
    area: Area,
    kind: Kind,
    count: usize,
) -> Result<Places, FieldFault>
    requires { (0 < count) × (count ≤ 65536) }
    ensures { IfOk result (λ places. (places.kind ≡ kind) × (places.count ≡ count)) }
{
    let (found, from) = section.place(key, area)?;
    if !found.is(kind) {
        return Err(section.fault(key, Why::Kind));
    }
    if count > kind.area().saturating_sub(from) {
        return Err(section.fault("count", Why::PastArea));
    }
    Ok(Places { kind, from, count })
}

/// Which word of a value of 32 bits comes first.
fn word_order(section: &Section) -> Result<Layout, FieldFault> {
    match section.text("word_order")? {
        "high_first" => Ok(Layout::HighFirst),
        "low_first" => Ok(Layout::LowFirst),
        _ => Err(section.fault("word_order", Why::WordOrder)),
    }
}

/// How the cells are taken, so many of this kind.
fn layout(section: &Section, form: Form, kind: Kind, count: usize) -> Result<Layout, FieldFault>
    ensures { IfOk result (λ layout. is_whole layout kind count ≡ true) }
{
    if kind.is(Kind::Bits) && section.has("as") {
        return Err(section.fault("as", Why::Registers));
    }
    if let Form::Int = form {
        return if section.has("word_order") {
            Err(section.fault("word_order", Why::Double))
        } else {
            Ok(Layout::Single)
        };
    }
    let layout = word_order(section)?;
    if !layout.is_whole(kind, count) {
        return Err(section.fault("count", Why::Odd));
    }
    Ok(layout)
}

fn reading(section: &Section) -> Result<Reading, FieldFault> {
    section.know(&["table", "from", "count", "as", "word_order", "to"])?;
    let (kind, table) = source(section)?;
    let (address, count) = cells(section, "from", kind, MOST_READ)?;
    let form = section.form()?;
    let layout = layout(section, form, kind, count)?;
    let places = places(section, "to", Area::Input, kind, count)?;
    Ok(Reading {
        table,
        address,
        places,
        layout,
        form,
    })
}

/// Whether it's written on changes only.
fn on_change(section: &Section) -> Result<bool, FieldFault> {
    if !section.has("write") {
        return Ok(false);
    }
    match section.text("write")? {
        "always" => Ok(false),
        "changes" => Ok(true),
        _ => Err(section.fault("write", Why::Sending)),
    }
}

const WRITING: [&str; 8] = [
    "table",
    "from",
    "count",
    "as",
    "word_order",
    "to",
    "write",
    "on_stop",
];

fn writing(section: &Section) -> Result<Writing, FieldFault> {
    section.know(&WRITING)?;
    let kind = target(section)?;
    let (address, count) = cells(section, "to", kind, MOST_WRITTEN)?;
    let form = section.form()?;
    let layout = layout(section, form, kind, count)?;
    let places = places(section, "from", Area::Output, kind, count)?;
    let on_change = on_change(section)?;
    let on_stop = section.fallback("on_stop")?;
    Ok(Writing {
        address,
        places,
        layout,
        form,
        on_change,
        on_stop,
    })
}

/// Notes that these places are filled by this key.
fn claim(
    section: &Section,
    key: &str,
    places: Places,
    filled: &mut Filled,
) -> Result<(), FieldFault>
    ensures { OnOk result (filled.new.places.items ≡ filled.old.places.items ++ places ∷ []) }
{
    match filled.add(places)? {
        true => Ok(()),
        false => Err(section.fault(key, Why::Taken)),
    }
}

/// The readings of a device with this number.
fn readings(section: &Section, device: usize, filled: &mut Filled) -> Result<Inputs, FieldFault>
    ensures { IfOk result (λ inputs. filled.new.places.items ≡ filled.old.places.items
        ++ places_read inputs.readings.items) }
{
    let mut inputs = Inputs::new(section.alloc);
    for (index, table) in section.tables("read")?.iter().enumerate() {
        let section = Section {
            alloc: section.alloc,
            spot: Spot::Read(device, index.saturating_add(1)),
            table: *table,
        };
        let reading = reading(&section)?;
        claim(&section, "to", reading.places, filled)?;
        if !inputs.add(reading)? {
            return Err(section.fault("to", Why::Apart));
        }
    }
    Ok(inputs)
}

/// The writings of a device with this number.
fn writings(section: &Section, device: usize) -> Result<Vec<Writing>, FieldFault>
    ensures { IfOk result (λ writings. length writings.items ≤ MOST_WRITINGS) }
{
    let mut writings = Vec::new(section.alloc);
    for (index, table) in section.tables("write")?.iter().enumerate() {
        let section = Section {
            alloc: section.alloc,
            spot: Spot::Write(device, index.saturating_add(1)),
            table: *table,
        };
        if writings.len() >= MOST_WRITINGS {
            return Err(section.fault("table", Why::Many));
        }
        writings.push(writing(&section)?)?;
    }
    Ok(writings)
}

/// The place of `%I` at this key, if there is one.
fn sign(
    section: &Section,
    key: &str,
    kind: Kind,
    filled: &mut Filled,
) -> Result<Option<Places>, FieldFault>
    ensures { IfOk result (λ place. filled.new.places.items ≡ filled.old.places.items ++ places_alive place) }
{
    if !section.has(key) {
        return Ok(None);
    }
    let place = places(section, key, Area::Input, kind, 1)?;
    claim(section, key, place, filled)?;
    Ok(Some(place))
}

const DEVICE: [&str; 12] = [
    "name", "address", "unit", "timeout", "retries", "every", "alive", "on_loss", "exchange",
    "refresh", "read", "write",
];

/// A request is asked again so often, at most.
const MOST_RETRIES: u32 = 10;

/// A request is asked again so often, where nothing else is said.
const RETRIES: u32 = 2;

/// The unit, which isn't that of a broadcast (MODBUS over Serial Line V1.02, section 2.2): a device by itself is 255.
fn unit(section: &Section) -> Result<u8, FieldFault> {
    match section.number("unit", 255)? as u8 {
        0 => Err(section.fault("unit", Why::Broadcast)),
        unit => Ok(unit),
    }
}

/// In seconds: what is written on changes only is written all the same so long after.
const LONGEST_REFRESH: u32 = 3600;

/// How long it takes until these are all written again, in milliseconds: 0 where each is in each round.
fn refresh(section: &Section, writings: &[Writing]) -> Result<u32, FieldFault> {
    let waits = writings.iter().any(|writing| writing.on_change);
    if !waits && section.has("refresh") {
        return Err(section.fault("refresh", Why::Refresh));
    }
    if !waits {
        return Ok(0);
    }
    Ok(section.some("refresh", LONGEST_REFRESH)? * 1000)
}

/// The device with this number.
fn device(section: &Section, number: usize, filled: &mut Filled) -> Result<Device, FieldFault>
    ensures { IfOk result (λ device. filled.new.places.items ≡ filled.old.places.items ++ filled_by device) }
{
    section.know(&DEVICE)?;
    let name = String::from_str(section.alloc, section.text("name")?)?;
    let address = section.address("address", section.text("address")?)?;
    let unit = unit(section)?;
    let timeout = section.some("timeout", TIMES)?;
    let retries = section.number_or("retries", MOST_RETRIES, RETRIES)? as u8;
    let every = section.some_or("every", TIMES, 1)?;
    let on_loss = section.fallback("on_loss")?;
    let exchange = section.truth("exchange")?;
    let inputs = readings(section, number, filled)?;
    let alive = sign(section, "alive", Kind::Bits, filled)?;
    let writings = writings(section, number)?;
    Ok(Device {
        name,
        address,
        unit,
        timeout,
        retries,
        every,
        alive,
        on_loss,
        exchange,
        refresh: refresh(section, writings.as_slice())?,
        inputs,
        writings,
    })
}

/// The devices.
fn devices(section: &Section, filled: &mut Filled) -> Result<Vec<Device>, FieldFault>
    ensures { IfOk result (λ devices. filled.new.places.items ≡ filled.old.places.items
        ++ flat_map filled_by devices.items) }
{
    let mut devices = Vec::new(section.alloc);
    for (index, table) in section.tables("device")?.iter().enumerate() {
        let number = index.saturating_add(1);
        let section = Section {
            alloc: section.alloc,
            spot: Spot::Device(number),
            table: *table,
        };
        let device = device(&section, number, filled)?;
        if is_named(devices.as_slice(), device.name.as_str()) {
            return Err(section.fault("name", Why::Name));
        }
        devices.push(device)?;
    }
    Ok(devices)
}

/// Whether one of these has this name, or the controller.
fn is_named(devices: &[Device], name: &str) -> bool {
    name == "controller" || devices.iter().any(|device| device.name.as_str() == name)
}

/// The controller's addresses: one text, or a list of them.
fn controllers(section: &Section) -> Result<Vec<SocketAddr>, FieldFault> {
    let mut controllers = Vec::new(section.alloc);
    for text in section.texts("controller")?.iter() {
        controllers.push(section.address("controller", *text)?)?;
    }
    if controllers.is_empty() {
        return Err(section.fault("controller", Why::Empty));
    }
    Ok(controllers)
}

/// The word of `%Q` that counts scans, if one does.
fn scan_count(section: &Section) -> Result<Option<Places>, FieldFault> {
    if !section.has("scan_count") {
        return Ok(None);
    }
    Ok(Some(places(section, "scan_count", Area::Output, Kind::Words, 1)?))
}

/// The path of the socket, if there is one. It ends so that no other file is taken for one that was left there.
fn control(section: &Section) -> Result<Option<String>, FieldFault> {
    if !section.has("control") {
        return Ok(None);
    }
    let path = section.text("control")?;
    if !path.ends_with(".sock") {
        return Err(section.fault("control", Why::Socket));
    }
    Ok(Some(String::from_str(section.alloc, path)?))
}

const FIELD: [&str; 10] = [
    "controller",
    "cycle",
    "fresh",
    "controller_timeout",
    "scan",
    "scan_count",
    "beat",
    "ready",
    "control",
    "device",
];

/// The controller's answers are late after two cycles, where nothing else is said, but not before so long: a process
/// that isn't scheduled for a while isn't lost.
const LEAST_TIMEOUT: u32 = 40;

/// A scan takes so long, where nothing else is said: the period of a controller of which nothing else is said.
const SCAN: u32 = 100;

/// The field of the table around all others.
fn whole(section: &Section) -> Result<FieldMap, FieldFault> {
    section.know(&FIELD)?;
    let controllers = controllers(section)?;
    let cycle = section.some("cycle", TIMES)?;
    let fresh = section.some("fresh", TIMES)?;
    let late = (cycle * 2).max(LEAST_TIMEOUT);
    let controller_timeout = section.some_or("controller_timeout", TIMES, late)?;
    let scan = section.some_or("scan", TIMES, SCAN)?;
    let scan_count = scan_count(section)?;
    let mut filled = Filled::new(section.alloc);
    let beat = sign(section, "beat", Kind::Words, &mut filled)?;
    let ready = sign(section, "ready", Kind::Bits, &mut filled)?;
    let devices = devices(section, &mut filled)?;
    if fresh < cycle * 2 {
        return Err(section.fault("fresh", Why::Fresh));
    }
    judge_devices(section.alloc, devices.as_slice(), cycle)?;
    Ok(FieldMap {
        controllers,
        cycle,
        fresh,
        controller_timeout,
        scan,
        scan_count,
        beat,
        ready,
        control: control(section)?,
        devices,
    })
}

impl FieldMap {
    /// The field that a text in TOML says. The first fault is told, by its table and its key.
    pub fn read(alloc: Global, text: &str) -> Result<FieldMap, FieldFault> {
        match toml::table_from_str(alloc, text) {
            Ok(table) => whole(&Section {
                alloc,
                spot: Spot::Top,
                table: &table,
            }),
            Err(error) => match error.span() {
                Some(span) => Err(FieldFault::Text(span.start)),
                None => Err(FieldFault::Memory),
            },
        }
    }
}
