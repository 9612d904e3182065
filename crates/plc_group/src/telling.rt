//! The lines that tell the faults of a file.

ghost use Rattle.std.specs.Prelude.{◌≡◌};
ghost use Rattle.il_text.specs.Telling.{Sends, WentOut};
ghost use Rattle.plc_group.specs.Lines.{group_fault_line, machine_text, place_text, status_of, toml_line};
ghost use Rattle.plc_group.specs.Lines.{missing_text, refused_text, unknown_line, value_line, why_text};

use crate::fault::{GroupFault, Why};
use crate::key::Key;
use il_text::{put, put_numbered};
use io_model::{CountedWrite, DeviceFault};

/// Tells a fault by its line, and answers the status: 1 for a file that is no group, 2 where memory ran out. It takes
/// no memory.
pub fn tell_group_fault<E: CountedWrite>(fault: &GroupFault, err: &mut E) -> u8
    ensures status { result ≡ status_of fault.now }
    ensures line { WentOut E.CountedWrite (group_fault_line fault.now) err.old err.new }
{
    // Where standard error fails too, the status is all that is left.
    let _ = put_fault(fault, err);
    match fault {
        GroupFault::Memory => 2,
        _ => 1,
    }
}

fn put_fault<E: CountedWrite>(fault: &GroupFault, err: &mut E) -> Result<(), DeviceFault>
    ensures { Sends E.CountedWrite (group_fault_line fault.now) err.old err.new result }
{
    match fault {
        GroupFault::Toml { line, column } => put_toml(*line, *column, err),
        GroupFault::Unknown { machine, key } => put_unknown(*machine, key.as_str(), err),
        GroupFault::At { machine, key, why } => put_at(*machine, *key, *why, err),
        GroupFault::Memory => put(err, b"plc: memory\n"),
    }
}

fn put_toml<E: CountedWrite>(line: usize, column: usize, err: &mut E) -> Result<(), DeviceFault>
    ensures { Sends E.CountedWrite (toml_line line column) err.old err.new result }
{
    put_numbered(err, b"plc: group at ", line)?;
    put_numbered(err, b":", column)?;
    put(err, b"\n")
}

fn put_unknown<E: CountedWrite>(
    machine: Option<usize>,
    key: &str,
    err: &mut E,
) -> Result<(), DeviceFault>
    ensures { Sends E.CountedWrite (unknown_line machine key.now) err.old err.new result }
{
    put_place(machine, err)?;
    put(err, key.as_bytes())?;
    put(err, b" unknown\n")
}

fn put_at<E: CountedWrite>(
    machine: Option<usize>,
    key: Key,
    why: Why,
    err: &mut E,
) -> Result<(), DeviceFault>
    ensures { Sends E.CountedWrite (value_line machine key why) err.old err.new result }
{
    put_place(machine, err)?;
    put(err, key.word().as_bytes())?;
    put(err, why_text(key, why))
}

fn put_place<E: CountedWrite>(machine: Option<usize>, err: &mut E) -> Result<(), DeviceFault>
    ensures { Sends E.CountedWrite (place_text machine) err.old err.new result }
{
    match machine {
        Some(number) => put_machine(number, err),
        None => put(err, b"plc: group "),
    }
}

fn put_machine<E: CountedWrite>(number: usize, err: &mut E) -> Result<(), DeviceFault>
    ensures { Sends E.CountedWrite (machine_text number) err.old err.new result }
{
    put_numbered(err, b"plc: group machine ", number)?;
    put(err, b" ")
}

/// What is said behind a key.
fn why_text(key: Key, why: Why) -> &'static [u8]
    ensures { result.now ≡ why_text key why }
{
    match why {
        Why::Missing => missing_text(key),
        Why::Refused => refused_text(key),
        Why::Twice => b" twice\n",
        Why::BelowPeriod => b" refused: below a period and 20\n",
        Why::AbovePatience => b" refused: above a fifth of patience\n",
        Why::Everywhere => b" refused: one address of the machine\n",
        Why::BesidePorts => b" refused: a machine has a console of its own\n",
        Why::WithoutKey => b" refused: without a key only 127.0.0.1, unless insecure = true\n",
    }
}

fn missing_text(key: Key) -> &'static [u8]
    ensures { result.now ≡ missing_text key }
{
    match key {
        Key::Identity => b" missing: plc format --new-group\n",
        _ => b" missing\n",
    }
}

fn refused_text(key: Key) -> &'static [u8]
    ensures { result.now ≡ refused_text key }
{
    match key {
        Key::Replica | Key::Modbus | Key::ModbusRead | Key::Console | Key::Status => {
            b" refused: an address and a port, as 127.0.0.1:7600\n"
        }
        Key::Identity => b" refused: 32 hexadecimal digits\n",
        Key::ModbusAllow | Key::ModbusReadOnly => {
            b" refused: at most 32 addresses or networks, as \"10.0.0.0/24\"\n"
        }
        _ => b" refused\n",
    }
}
