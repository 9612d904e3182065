//! What goes where, as a table, and what was read and written.

use field_cycle::{Round, Standing, Station};
use field_map::{
    Device, Fallback, FieldMap, Form, Kind, Layout, Outputs, Places, Reading, Writing,
};
use il_model::{Cells, DoubleType, Value};
use io_model::{CountedWrite, write_all};
use modbus_wire::Table;
use plc_host::Failed;
use std::alloc::{AllocError, Global};

/// The name of a table of a device.
fn table_name(kind: Kind, table: Table) -> &'static str {
    match (kind, table) {
        (Kind::Bits, Table::ReadWrite) => "coils",
        (Kind::Bits, Table::ReadOnly) => "discrete_inputs",
        (Kind::Words, Table::ReadWrite) => "holding_registers",
        (Kind::Words, Table::ReadOnly) => "input_registers",
    }
}

fn fallback_name(fallback: Fallback) -> &'static str {
    match fallback {
        Fallback::Hold => "hold",
        Fallback::Zero => "zero",
    }
}

/// What is told of the values of registers of which two are one.
fn form_words(form: Form) -> &'static str {
    match form {
        Form::Int => "",
        Form::Dint => ", dint",
        Form::Real => ", real",
    }
}

/// What is told of the order of these registers.
fn layout_words(layout: Layout) -> &'static str {
    match layout {
        Layout::Single => "",
        Layout::HighFirst => ", high word first",
        Layout::LowFirst => ", low word first",
    }
}

/// A place of an area, as a program has it.
pub(crate) fn place(
    alloc: Global,
    area: char,
    kind: Kind,
    number: usize,
) -> Result<String, AllocError> {
    match kind {
        Kind::Bits => {
            let byte = number / 8;
            let bit = number % 8;
            format!(in alloc; "%{area}X{byte}.{bit}")
        }
        Kind::Words => format!(in alloc; "%{area}W{number}"),
    }
}

/// Places of an area: the first, and the last, if there are more.
pub(crate) fn range(alloc: Global, area: char, places: &Places) -> Result<String, AllocError> {
    let first = place(alloc, area, places.kind, places.from)?;
    if places.count == 1 {
        return Ok(first);
    }
    let last = place(alloc, area, places.kind, places.from + (places.count - 1))?;
    format!(in alloc; "{first}..{last}")
}

/// Cells of a device: the first, and the last, if there are more.
pub(crate) fn cells(
    alloc: Global,
    kind: Kind,
    table: Table,
    from: u16,
    count: usize,
) -> Result<String, AllocError> {
    let table = table_name(kind, table);
    if count == 1 {
        return format!(in alloc; "{table} {from}");
    }
    let last = usize::from(from).saturating_add(count).saturating_sub(1);
    format!(in alloc; "{table} {from}..{last}")
}

fn reading_line(alloc: Global, name: &str, reading: &Reading) -> Result<String, AllocError> {
    let places = &reading.places;
    let from = cells(
        alloc,
        places.kind,
        reading.table,
        reading.address,
        places.count,
    )?;
    let to = range(alloc, 'I', places)?;
    let form = form_words(reading.form);
    let layout = layout_words(reading.layout);
    format!(in alloc; "{name}: {from} -> {to}{form}{layout}\n")
}

fn writing_line(alloc: Global, name: &str, writing: &Writing) -> Result<String, AllocError> {
    let places = &writing.places;
    let from = range(alloc, 'Q', places)?;
    let to = cells(
        alloc,
        places.kind,
        Table::ReadWrite,
        writing.address,
        places.count,
    )?;
    let form = form_words(writing.form);
    let layout = layout_words(writing.layout);
    let sending = if writing.on_change {
        ", on changes"
    } else {
        ""
    };
    let on_stop = fallback_name(writing.on_stop);
    format!(in alloc; "{name}: {from} -> {to}{form}{layout}{sending}, on stop {on_stop}\n")
}

fn put<W: CountedWrite>(out: &mut W, line: &String) -> Result<(), Failed> {
    Ok(write_all(out, line.as_str().as_bytes())?)
}

/// The controller's addresses, one behind the other.
fn addresses(alloc: Global, map: &FieldMap) -> Result<String, AllocError> {
    let mut text = String::new(alloc);
    for address in map.controllers.iter() {
        text.push_str(format!(in alloc; " {address}")?.as_str())?;
    }
    Ok(text)
}

/// A line for the controller, and one for the word that counts its scans.
fn put_controller<W: CountedWrite>(
    alloc: Global,
    map: &FieldMap,
    out: &mut W,
) -> Result<(), Failed> {
    let FieldMap { cycle, fresh, .. } = map;
    let addresses = addresses(alloc, map)?;
    let line = format!(in alloc; "controller:{addresses}, cycle {cycle} ms, fresh {fresh} ms\n")?;
    put(out, &line)?;
    let FieldMap {
        controller_timeout,
        scan,
        ..
    } = map;
    let line = format!(in alloc;
        "controller: an answer is late after {controller_timeout} ms, a scan takes {scan} ms\n"
    )?;
    put(out, &line)?;
    if let Some(word) = &map.scan_count {
        let word = range(alloc, 'Q', word)?;
        put(
            out,
            &format!(in alloc; "controller: {word} counts scans\n")?,
        )?;
    }
    put_signs(alloc, map, out)
}

/// A line for each place by which the field says something of itself.
fn put_signs<W: CountedWrite>(alloc: Global, map: &FieldMap, out: &mut W) -> Result<(), Failed> {
    if let Some(word) = &map.beat {
        let word = range(alloc, 'I', word)?;
        put(
            out,
            &format!(in alloc; "controller: cycles are counted -> {word}\n")?,
        )?;
    }
    if let Some(bit) = &map.ready {
        let bit = range(alloc, 'I', bit)?;
        put(
            out,
            &format!(in alloc; "controller: inputs are real -> {bit}\n")?,
        )?;
    }
    Ok(())
}

/// A line for the device, and one for what goes where.
fn put_device<W: CountedWrite>(alloc: Global, device: &Device, out: &mut W) -> Result<(), Failed> {
    let name = device.name.as_str();
    let Device {
        address,
        unit,
        timeout,
        retries,
        every,
        ..
    } = device;
    let on_loss = fallback_name(device.on_loss);
    let line = format!(in alloc;
        "{name}: {address} unit {unit}, timeout {timeout} ms, retries {retries}, on loss {on_loss}\n"
    )?;
    put(out, &line)?;
    if *every > 1 {
        put(
            out,
            &format!(in alloc; "{name}: a round every {every} cycles\n")?,
        )?;
    }
    put_requests(alloc, device, out)?;
    if let Some(alive) = &device.alive {
        let bit = range(alloc, 'I', alive)?;
        put(out, &format!(in alloc; "{name}: answers -> {bit}\n")?)?;
    }
    for reading in device.inputs.readings.iter() {
        put(out, &reading_line(alloc, name, reading)?)?;
    }
    put_writings(alloc, device, out)
}

/// A line for each way in which the device isn't asked as others are.
fn put_requests<W: CountedWrite>(
    alloc: Global,
    device: &Device,
    out: &mut W,
) -> Result<(), Failed> {
    let name = device.name.as_str();
    if device.exchange {
        let line = format!(in alloc; "{name}: registers are written and read by one request\n")?;
        put(out, &line)?;
    }
    if device.refresh > 0 {
        let seconds = device.refresh / 1000;
        let line = format!(in alloc; "{name}: all is written again after {seconds} s\n")?;
        put(out, &line)?;
    }
    Ok(())
}

fn put_writings<W: CountedWrite>(
    alloc: Global,
    device: &Device,
    out: &mut W,
) -> Result<(), Failed> {
    for writing in device.writings.iter() {
        put(out, &writing_line(alloc, device.name.as_str(), writing)?)?;
    }
    Ok(())
}

/// What goes where, a line each.
pub(crate) fn put_table<W: CountedWrite>(
    alloc: Global,
    map: &FieldMap,
    out: &mut W,
) -> Result<(), Failed> {
    put_controller(alloc, map, out)?;
    for device in map.devices.iter() {
        put_device(alloc, device, out)?;
    }
    Ok(())
}

fn bits(alloc: Global, bits: &[bool]) -> Result<String, AllocError> {
    let mut text = String::new(alloc);
    for bit in bits {
        text.push_str(if *bit { " TRUE" } else { " FALSE" })?;
    }
    Ok(text)
}

fn words(alloc: Global, words: &[i16]) -> Result<String, AllocError> {
    let mut text = String::new(alloc);
    for word in words {
        text.push_str(format!(in alloc; " {word}")?.as_str())?;
    }
    Ok(text)
}

/// Puts a value behind a text: a whole number, or a REAL as a program would read it.
fn put_double(alloc: Global, value: Value, text: &mut String) -> Result<(), AllocError> {
    match value {
        Value::Dint(number) => text.push_str(format!(in alloc; " {number}")?.as_str())?,
        Value::Real(number) => {
            text.push_str(" ")?;
            text.push_str(number.text().as_str())?;
        }
        _ => {}
    }
    Ok(())
}

/// The values of which each has two words, the high one first.
fn doubles(alloc: Global, ty: DoubleType, words: &[i16]) -> Result<String, AllocError> {
    let mut text = String::new(alloc);
    for pair in 0..words.len() / 2 {
        let value = ty.value(words[2 * pair], words[2 * pair + 1]);
        put_double(alloc, value, &mut text)?;
    }
    Ok(text)
}

/// The values of places, one after the other.
fn values(alloc: Global, places: &Places, form: Form, cells: &Cells) -> Result<String, AllocError> {
    let end = places.from + places.count;
    match (places.kind, form) {
        (Kind::Bits, _) => bits(alloc, &cells.bits[places.from..end]),
        (Kind::Words, Form::Int) => words(alloc, &cells.words[places.from..end]),
        (Kind::Words, Form::Dint) => {
            doubles(alloc, DoubleType::Dint, &cells.words[places.from..end])
        }
        (Kind::Words, Form::Real) => {
            doubles(alloc, DoubleType::Real, &cells.words[places.from..end])
        }
    }
}

/// What was written to a device and read of it in a round that was whole.
fn put_round<W: CountedWrite>(
    alloc: Global,
    device: &Device,
    round: &Round,
    out: &mut W,
) -> Result<(), Failed> {
    let name = device.name.as_str();
    for reading in device.inputs.readings.iter() {
        let places = range(alloc, 'I', &reading.places)?;
        let values = values(alloc, &reading.places, reading.form, &round.gathered)?;
        put(out, &format!(in alloc; "{name}: {places} ={values}\n")?)?;
    }
    put_written(alloc, device, &round.outputs, out)
}

fn put_written<W: CountedWrite>(
    alloc: Global,
    device: &Device,
    outputs: &Outputs,
    out: &mut W,
) -> Result<(), Failed> {
    let name = device.name.as_str();
    let Some(outputs) = &outputs.known else {
        return put(out, &format!(in alloc; "{name}: outputs aren't known\n")?);
    };
    for writing in device.writings.iter() {
        let places = range(alloc, 'Q', &writing.places)?;
        let values = values(alloc, &writing.places, writing.form, outputs)?;
        put(out, &format!(in alloc; "{name}: {places} ={values}\n")?)?;
    }
    Ok(())
}

/// The line of a device with no round that was whole.
fn put_nothing<W: CountedWrite>(
    alloc: Global,
    station: &Station,
    out: &mut W,
) -> Result<(), Failed> {
    let name = station.device.name.as_str();
    match station.standing {
        Standing::Lost => put(out, &format!(in alloc; "{name}: lost\n")?),
        _ => put(
            out,
            &format!(in alloc; "{name}: not asked, since the controller is lost\n")?,
        ),
    }
}

/// What was read and written of each device that answered.
pub(crate) fn put_values<W: CountedWrite>(
    alloc: Global,
    stations: &[Station],
    out: &mut W,
) -> Result<(), Failed> {
    for station in stations {
        match &station.last {
            Some(round) => put_round(alloc, &station.device, round, out)?,
            None => put_nothing(alloc, station, out)?,
        }
    }
    Ok(())
}
