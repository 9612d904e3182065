//! The lines that say where instructions stand.

ghost use Rattle.std.specs.Prelude.{◌≡◌, ◌≤◌, ◌++◌, ◌⊎◌, List, ℕ, codes, IfOk, IfErr, OnOk};
ghost use Rattle.il_text.specs.Meaning.{IsTextFault, OrMemory};
ghost use Rattle.il_text.specs.Telling.{WentOut, fault_line, Sends, pair_text};
ghost use Rattle.il_text.specs.declared.fault.Fault.TheVariants as faults;
ghost use Rattle.il_places.specs.declared.asked.Asked.{Asked as AskedFor};
ghost use Rattle.il_places.specs.Located.{instance_text, is_asked, position_line, asked_line, asked_lines};
ghost use Rattle.il_places.specs.Located.{why_line, why_status, numbered_line, nothing_line, IsWhy, AreLocated};
ghost use Rattle.il_places.specs.Located.{IsWritten, IsRefusedBy};

use crate::asked::Asked;
use crate::places::{Places, places_of};
use crate::reaching::Reached;
use il_loader::load;
use il_reader::Place;
use il_text::{Fault, put, put_numbered, tell};
use io_model::{CountedWrite, DeviceFault, write_all};
use std::alloc::{AllocError, Global};

// ---- lines

fn put_instance(found: &mut Vec<u8>, instance: &[u8]) -> Result<(), AllocError>
    ensures { OnOk result (found.new.items ≡ found.old.items ++ instance_text instance.now) }
{
    if !instance.is_empty() {
        found.push(b' ')?;
        found.extend_from_slice(instance)?;
    }
    Ok(())
}

/// The line of a position.
fn position_line(
    alloc: Global,
    n: usize,
    place: Place,
    instance: &[u8],
) -> Result<Vec<u8>, AllocError>
    ensures { IfOk result (λ v. v.items ≡ position_line n place instance.now) }
{
    let line = place.line;
    let column = place.column;
    let told = format!(in alloc; "{n} {line}:{column}")?;
    let mut text = Vec::from_slice(alloc, told.as_str().as_bytes())?;
    put_instance(&mut text, instance)?;
    text.push(b'\n')?;
    Ok(text)
}

/// Whether a position is asked for.
fn is_asked(asked: Asked, n: usize, place: Place) -> bool
    ensures { result ≡ is_asked asked n place }
{
    match asked {
        Asked::All => true,
        Asked::Line(line) => place.line == line,
        Asked::At(line, column) => place.line == line && place.column == column,
        Asked::Position(position) => n == position,
    }
}

/// Puts the line of a position behind the others, if it's asked for.
fn put_asked(
    alloc: Global,
    found: &mut Vec<u8>,
    asked: Asked,
    n: usize,
    place: Place,
    instance: &[u8],
) -> Result<(), AllocError>
    ensures { OnOk result (found.new.items ≡ found.old.items ++ asked_line asked n place instance.now) }
{
    if is_asked(asked, n, place) {
        let line = position_line(alloc, n, place, instance)?;
        found.extend_from_slice(line.as_slice())?;
    }
    Ok(())
}

/// The lines of the positions that are asked for.
#[tactic(auto, unfolding(crate::specs::Located::asked_lines))]
fn asked_lines(alloc: Global, places: &Places, asked: Asked) -> Result<Vec<u8>, AllocError>
    ensures { IfOk result (λ v. v.items ≡ asked_lines places.now.text asked 0 places.now.origins) }
{
    let mut found = Vec::new(alloc);
    let mut reached = Reached::beginning();
    for (n, origin) in places.origins().iter().enumerate() {
        reached = places.reached(reached, origin.left);
        put_asked(
            alloc,
            &mut found,
            asked,
            n,
            reached.place,
            origin.instance.bytes(),
        )?;
    }
    Ok(found)
}

// ---- the call

/// Why there are no lines.
#[derive(Clone, Copy)]
enum NoLines {
    /// The text's first fault, or memory ran out.
    Refused(Fault),
    /// The bytes are no text, but an image.
    Image,
    /// The program has no such instruction.
    Nothing,
}

/// Why there are no lines of bytes that have this fault as a text: they may be an image.
fn unread(alloc: Global, source: &[u8], fault: Fault) -> NoLines
    requires { IsTextFault source.now fault }
    ensures { (asked : AskedFor) → IsWhy source.now asked result }
{
    match load(alloc, source) {
        Ok(_) => NoLines::Image,
        Err(_) => NoLines::Refused(fault),
    }
}

/// Why there are no lines, where a text has this fault, or memory ran out.
fn refused(alloc: Global, source: &[u8], fault: Fault) -> NoLines
    requires { OrMemory (IsTextFault source.now) fault }
    ensures { (asked : AskedFor) → IsWhy source.now asked result }
{
    match fault {
        Fault::Memory => NoLines::Refused(Fault::Memory),
        _ => unread(alloc, source, fault),
    }
}

/// The lines of the positions of a source that are asked for.
fn located(alloc: Global, source: &[u8], asked: Asked) -> Result<Vec<u8>, NoLines>
    ensures found { IfOk result (λ v. AreLocated source.now asked v.items) }
    ensures refused { IfErr result (IsWhy source.now asked) }
{
    let places = match places_of(alloc, source) {
        Ok(places) => places,
        Err(fault) => return Err(refused(alloc, source, fault)),
    };
    match asked_lines(alloc, &places, asked) {
        Ok(lines) if lines.is_empty() && asked != Asked::All => Err(NoLines::Nothing),
        Ok(lines) => Ok(lines),
        Err(_) => Err(NoLines::Refused(Fault::Memory)),
    }
}

/// Writes the line of a text and a number.
fn put_numbered_line<E: CountedWrite>(
    err: &mut E,
    text: &[u8],
    number: usize,
) -> Result<(), DeviceFault>
    ensures { Sends E.CountedWrite (numbered_line text.now number) err.old err.new result }
{
    put_numbered(err, text, number)?;
    put(err, b"\n")
}

/// Writes the line of a text and a place.
fn put_place_line<E: CountedWrite>(
    err: &mut E,
    text: &[u8],
    line: usize,
    column: usize,
) -> Result<(), DeviceFault>
    ensures { Sends E.CountedWrite (pair_text text.now line (codes ":") column) err.old err.new result }
{
    put_numbered(err, text, line)?;
    put_numbered(err, b":", column)?;
    put(err, b"\n")
}

/// Tells that the program has no such instruction.
fn put_nothing<E: CountedWrite>(asked: Asked, err: &mut E) -> Result<(), DeviceFault>
    ensures { Sends E.CountedWrite (nothing_line asked) err.old err.new result }
{
    match asked {
        Asked::All => put(err, b""),
        Asked::Line(line) => put_numbered_line(err, b"plc: no instruction at ", line),
        Asked::At(line, column) => put_place_line(err, b"plc: no instruction at ", line, column),
        Asked::Position(position) => put_numbered_line(err, b"plc: no position ", position),
    }
}

/// Tells why there are no lines, and answers the status.
fn tell_why<E: CountedWrite>(why: NoLines, asked: Asked, err: &mut E) -> u8
    ensures status { result ≡ why_status why }
    ensures line { WentOut E.CountedWrite (why_line asked why) err.old err.new }
{
    match why {
        NoLines::Refused(fault) => tell(fault, err),
        NoLines::Image => {
            let _ = put(err, b"plc: the source is an image\n");
            Fault::Commands.status()
        }
        NoLines::Nothing => {
            let _ = put_nothing(asked, err);
            Fault::Commands.status()
        }
    }
}

/// Writes the lines of the positions of a source that are asked for on `out`, and answers the status; or one line on
/// `err` for the first fault of the source, or where there is no such instruction. Then nothing is written.
pub fn locate<W: CountedWrite, E: CountedWrite>(
    alloc: Global,
    source: &[u8],
    asked: Asked,
    out: &mut W,
    err: &mut E,
) -> u8
    ensures status { result ≤ 2 }
    ensures located { result ≡ 0 → IsWritten source.now asked (W.held out.old) (W.held out.new) }
    ensures refused { result ≡ 1 → IsRefusedBy E.CountedWrite source.now asked err.old err.new × (out.new ≡ out.old) }
    ensures broken { result ≡ 2 → WentOut E.CountedWrite (fault_line faults.Device) err.old err.new
        ⊎ WentOut E.CountedWrite (fault_line faults.Memory) err.old err.new }
{
    match located(alloc, source, asked) {
        Ok(lines) => match write_all(out, lines.as_slice()) {
            Ok(()) => 0,
            Err(_) => tell(Fault::Device, err),
        },
        Err(why) => tell_why(why, asked, err),
    }
}
