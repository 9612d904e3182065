//! What is told where there is no answer.

ghost use Rattle.std.specs.Prelude.{◌≡◌, ◌≤◌, IfErr, IsErr, IsOk, OnOk};
ghost use Rattle.il_text.specs.Telling.{status_of, Ends, Sends, WentOut, numbered, pair_text, placed_text, fault_line};

use crate::fault::Fault;
use io_model::{CountedWrite, DeviceFault, write_all};
use itoa::Buffer;

/// Writes a text, which tells something. An error says that the writer failed.
pub fn put<E: CountedWrite>(err: &mut E, text: &[u8]) -> Result<(), DeviceFault>
    ensures { Sends E.CountedWrite text.now err.old err.new result }
{
    write_all(err, text)
}

/// Writes a text, and then a number. An error says that the writer failed.
pub fn put_numbered<E: CountedWrite>(
    err: &mut E,
    text: &[u8],
    number: usize,
) -> Result<(), DeviceFault>
    ensures { Sends E.CountedWrite (numbered text.now number) err.old err.new result }
{
    let mut buffer = Buffer::new();
    put(err, text)?;
    put(err, buffer.format(number).as_bytes())
}

/// Two numbers behind their texts, as those of a fault and of its place.
fn put_pair<E: CountedWrite>(
    err: &mut E,
    text: &[u8],
    number: usize,
    between: &[u8],
    other: usize,
) -> Result<(), DeviceFault>
    ensures { Sends E.CountedWrite (pair_text text.now number between.now other) err.old err.new result }
{
    put_numbered(err, text, number)?;
    put_numbered(err, between, other)?;
    put(err, b"\n")
}

/// The number of a fault, and its line and column.
fn put_placed<E: CountedWrite>(
    err: &mut E,
    text: &[u8],
    number: u8,
    line: usize,
    column: usize,
) -> Result<(), DeviceFault>
    ensures { Sends E.CountedWrite (placed_text text.now number line column) err.old err.new result }
{
    put_numbered(err, text, usize::from(number))?;
    put_numbered(err, b" at ", line)?;
    put_numbered(err, b":", column)?;
    put(err, b"\n")
}

/// The line of a fault.
fn put_fault<E: CountedWrite>(fault: Fault, err: &mut E) -> Result<(), DeviceFault>
    ensures { Sends E.CountedWrite (fault_line fault) err.old err.new result }
{
    match fault {
        Fault::Read {
            number,
            line,
            column,
        } => put_placed(err, b"plc: read ", number, line, column),
        Fault::Declaration {
            number,
            line,
            column,
        } => put_placed(err, b"plc: decl ", number, line, column),
        Fault::Assembly {
            number,
            instruction,
        } => put_pair(err, b"plc: asm ", usize::from(number), b" at ", instruction),
        Fault::Type {
            number,
            line,
            column,
        } => put_placed(err, b"plc: type ", number, line, column),
        Fault::Load { number } => {
            put_numbered(err, b"plc: load ", usize::from(number))?;
            put(err, b"\n")
        }
        Fault::LoadAt { number, position } => {
            put_pair(err, b"plc: load ", usize::from(number), b" at ", position)
        }
        Fault::Commands => put(err, b"plc: commands\n"),
        Fault::Schedule => put(err, b"plc: schedule\n"),
        Fault::ScheduleAt { index, reason } => {
            put_pair(err, b"plc: schedule ", index, b" ", usize::from(reason))
        }
        Fault::Store => put(err, b"plc: store\n"),
        Fault::Device => put(err, b"plc: device\n"),
        Fault::Memory => put(err, b"plc: memory\n"),
    }
}

/// Tells a fault by its line, and answers its status. It takes no memory.
pub fn tell<E: CountedWrite>(fault: Fault, err: &mut E) -> u8
    ensures status { result ≡ status_of fault }
    ensures line { WentOut E.CountedWrite (fault_line fault) err.old err.new }
{
    // Where standard error fails too, the status is all that is left.
    let _ = put_fault(fault, err);
    fault.status()
}

/// The status of what was done, its fault told.
pub fn ended<E: CountedWrite>(done: Result<(), Fault>, err: &mut E) -> u8
    ensures status { result ≤ 2 }
    ensures good { result ≡ 0 → IsOk done }
    ensures told { IfErr done (λ e. result ≡ status_of e) }
    ensures faulty { result ≡ 1 → IsErr done }
    ensures done { OnOk done (result ≡ 0) }
    ensures ends { Ends E.CountedWrite done result err.old err.new }
{
    match done {
        Ok(()) => 0,
        Err(fault) => tell(fault, err),
    }
}
