//! What `plc show` prints of a store, and how a refusal is told.

ghost use Rattle.std.specs.Prelude.{◌≡◌, ◌++◌, IfOk, OnOk, string_bytes};
ghost use Rattle.std.specs.Fmt.{decimal};
ghost use Rattle.hex.specs.Hex.{encode_lower};
ghost use Rattle.il_text.specs.Telling.{WentOut};
ghost use Rattle.plc_store.specs.Showing.{IsShown, epoch_line, epoch_lines, header_lines, image_lines, line};
ghost use Rattle.plc_store.specs.Showing.{cause_text, machine_lines, program_lines, refusal_line, seen_line, seen_lines};
ghost use Rattle.plc_store.specs.Showing.{shown, state_of, status_of, store_text, word_of};
ghost use Rattle.plc_store.specs.Spelling.{saying};

use crate::directory::{DiskFault, StoreDirectory};
use crate::header::{Header, Seen, Store};
use crate::judging::{Refusal, is_changed};
use crate::opening::stored_in;
use crate::spelling::epoch_of;
use il_text::put;
use io_model::CountedWrite;
use plc_epochs::Kept;
use std::alloc::{AllocError, Global};

/// The lines of a store: its format, machine, identity, what it's known by, state, epoch with the image that this begins
/// with, the stores of other machines that were seen in it, program with the number of bytes of its image, and whether
/// the program was changed since.
pub fn show(alloc: Global, store: &Store, is_changed: bool) -> Result<String, AllocError>
    ensures { IfOk result (λ lines. string_bytes lines ≡ shown (saying store.now) is_changed) }
{
    let mut lines = String::from_str(alloc, "format 3\n")?;
    put_header(alloc, &mut lines, &store.header)?;
    put_program(alloc, &mut lines, store, is_changed)?;
    Ok(lines)
}

fn put_header(alloc: Global, lines: &mut String, header: &Header) -> Result<(), AllocError>
    ensures { OnOk result (string_bytes lines.new ≡ string_bytes lines.old ++ header_lines header.now) }
{
    put_machine(alloc, lines, header)?;
    put_epoch(alloc, lines, &header.kept)?;
    put_seen(alloc, lines, &header.seen)
}

/// Puts the lines of the stores of other machines behind others.
fn put_seen(alloc: Global, lines: &mut String, seen: &Seen) -> Result<(), AllocError>
    ensures { OnOk result (string_bytes lines.new ≡ string_bytes lines.old ++ seen_lines seen.now) }
{
    for (machine, store) in seen.iter().enumerate() {
        put_seen_of(alloc, lines, machine, *store)?;
    }
    Ok(())
}

/// Puts the line of the store that was seen of a machine behind others, if there was one.
fn put_seen_of(
    alloc: Global,
    lines: &mut String,
    machine: usize,
    store: u64,
) -> Result<(), AllocError>
    ensures { OnOk result (string_bytes lines.new ≡ string_bytes lines.old ++ seen_line (machine, store)) }
{
    if store == 0 {
        return Ok(());
    }
    let head = format!(in alloc; "machine {machine} has store ")?;
    put_store(alloc, lines, head.as_str(), store)
}

/// Puts a line behind others: its head, and what a store is known by.
fn put_store(alloc: Global, lines: &mut String, head: &str, store: u64) -> Result<(), AllocError>
    ensures { OnOk result (string_bytes lines.new ≡ string_bytes lines.old ++ line head.now (store_text store)) }
{
    let digits = hex::encode(alloc, store.to_be_bytes().as_slice())?;
    put_line(lines, head, digits.as_str())
}

fn put_program(
    alloc: Global,
    lines: &mut String,
    store: &Store,
    is_changed: bool,
) -> Result<(), AllocError>
    ensures { OnOk result
        (string_bytes lines.new ≡ string_bytes lines.old ++ program_lines (saying store.now) is_changed) }
{
    put_image(alloc, lines, store)?;
    put_line(lines, "changed ", word_of(is_changed))
}

fn put_machine(alloc: Global, lines: &mut String, header: &Header) -> Result<(), AllocError>
    ensures { OnOk result (string_bytes lines.new ≡ string_bytes lines.old ++ machine_lines header.now) }
{
    put_number(alloc, lines, "machine ", u64::from(header.machine))?;
    put_digest(alloc, lines, "identity ", &header.identity)?;
    put_store(alloc, lines, "store ", header.store)
}

fn put_epoch(alloc: Global, lines: &mut String, kept: &Kept) -> Result<(), AllocError>
    ensures { OnOk result (string_bytes lines.new ≡ string_bytes lines.old ++ epoch_lines kept.now) }
{
    let epoch = epoch_of(kept);
    put_line(lines, "state ", state_of(kept))?;
    put_number(alloc, lines, "epoch ", epoch.number)?;
    put_digest(alloc, lines, "begins with ", &epoch.image)
}

/// The line of the epoch that a store has: its number.
pub fn epoch_line(alloc: Global, kept: &Kept) -> Result<String, AllocError>
    ensures { IfOk result (λ text. string_bytes text ≡ epoch_line kept.now) }
{
    let mut lines = String::new(alloc);
    put_number(alloc, &mut lines, "epoch ", epoch_of(kept).number)?;
    Ok(lines)
}

fn put_image(alloc: Global, lines: &mut String, store: &Store) -> Result<(), AllocError>
    ensures { OnOk result (string_bytes lines.new ≡ string_bytes lines.old ++ image_lines (saying store.now)) }
{
    put_digest(alloc, lines, "program ", &store.header.program)?;
    put_number(alloc, lines, "image ", store.image.len() as u64)
}

/// Puts a line behind others: its head, and a value.
fn put_line(lines: &mut String, head: &str, value: &str) -> Result<(), AllocError>
    ensures { OnOk result (string_bytes lines.new ≡ string_bytes lines.old ++ line head.now value.now) }
{
    lines.push_str(head)?;
    lines.push_str(value)?;
    lines.push_str("\n")
}

fn put_digest(
    alloc: Global,
    lines: &mut String,
    head: &str,
    digest: &[u8; 32],
) -> Result<(), AllocError>
    ensures { OnOk result
        (string_bytes lines.new ≡ string_bytes lines.old ++ line head.now (encode_lower digest.now)) }
{
    let digits = hex::encode(alloc, digest.as_slice())?;
    put_line(lines, head, digits.as_str())
}

fn put_number(alloc: Global, lines: &mut String, head: &str, number: u64) -> Result<(), AllocError>
    ensures { OnOk result (string_bytes lines.new ≡ string_bytes lines.old ++ line head.now (decimal number)) }
{
    let digits = format!(in alloc; "{number}")?;
    put_line(lines, head, digits.as_str())
}

/// The lines of the store in a directory, or why there are none.
pub fn show_directory<D: StoreDirectory>(alloc: Global, directory: &D) -> Result<String, Refusal>
    ensures { IfOk result (λ lines. IsShown (D.group directory.now) (D.mark directory.now) (string_bytes lines)) }
{
    let store = stored_in(alloc, directory)?;
    let is_changed = is_changed(&store.header.kept, directory.mark());
    Ok(show(alloc, &store, is_changed)?)
}

fn word_of(is_so: bool) -> &'static str
    ensures { result.now ≡ word_of is_so }
{
    if is_so { "yes" } else { "no" }
}

fn state_of(kept: &Kept) -> &'static str
    ensures { result.now ≡ state_of kept.now }
{
    match kept {
        Kept::Nothing => "waits",
        Kept::Above(_) => "waits above",
        Kept::Entered(_) => "entered",
        Kept::Begun(_) => "begun",
    }
}

/// Tells a refusal by its line, and answers the status: 2 where a later start may go well, since a disk failed, no random
/// bytes were to be had, memory ran out or another process has the directory, else 1. It takes no memory.
pub fn tell_refusal<E: CountedWrite>(refusal: Refusal, err: &mut E) -> u8
    ensures status { result ≡ status_of refusal }
    ensures line { WentOut E.CountedWrite (refusal_line refusal) err.old err.new }
{
    // Where standard error fails too, the status is all that is left.
    let _ = put(err, line_of(refusal).as_bytes());
    match refusal {
        Refusal::Device(_) | Refusal::Random | Refusal::Memory | Refusal::Taken => 2,
        _ => 1,
    }
}

/// What is said of a disk behind its path.
pub fn cause_text(fault: DiskFault) -> &'static str
    ensures { result.now ≡ cause_text fault }
{
    match fault {
        DiskFault::Rights => ": no rights",
        DiskFault::Space => ": no space",
        DiskFault::Missing => ": file gone",
        DiskFault::Other => "",
    }
}

fn line_of(refusal: Refusal) -> &'static str
    ensures { result.now ≡ refusal_line refusal }
{
    match refusal {
        Refusal::NoStore => "plc: store missing\n",
        Refusal::OtherFormat => "plc: store of another format\n",
        Refusal::Torn => "plc: store torn\n",
        Refusal::OtherGroup => "plc: store of another group\n",
        Refusal::OtherMachine => "plc: store of another machine\n",
        Refusal::ViewGone => "plc: store lost its view\n",
        Refusal::ViewUnstarted => "plc: store has a view and was not started\n",
        Refusal::Backward => "plc: store would go back\n",
        Refusal::Waits => "plc: store waits for its group\n",
        Refusal::LastEpoch => "plc: store in the last epoch\n",
        Refusal::NotAbove => "plc: store has that epoch or a later one\n",
        Refusal::Changed => "plc: store of a program that was changed: --changed, or give one\n",
        Refusal::NotChanged => "plc: store of a program that was not changed\n",
        Refusal::NoImage => "plc: store without the program to which it was changed: give one\n",
        Refusal::Used => "plc: store used\n",
        Refusal::TooLong => "plc: store image too long\n",
        Refusal::Taken => "plc: store taken\n",
        Refusal::Open => "plc: store open to all\n",
        Refusal::Device(DiskFault::Rights) => "plc: device no rights\n",
        Refusal::Device(DiskFault::Space) => "plc: device no space\n",
        Refusal::Device(DiskFault::Missing) => "plc: device file gone\n",
        Refusal::Device(DiskFault::Other) => "plc: device\n",
        Refusal::Random => "plc: device random\n",
        Refusal::Memory => "plc: memory\n",
    }
}
