//! The calls of the program, over byte slices and writers, each answering the status.

ghost use Rattle.std.specs.Prelude.{◌≡◌, ◌≤◌, ◌⊎◌, OnOk, IfOk, IfErr, IfSome};
ghost use Rattle.il_text.specs.Meaning.{IsTextFault, IsRefused, OrMemory};
ghost use Rattle.il_text.specs.Telling.{EndsTold};
ghost use Rattle.il_text.specs.declared.fault.Fault as told;
ghost use Rattle.plc_symbols.specs.Told.{AreNamed, AreCompared, IsComparison, IsFaultOfEither, source_of};

use crate::comparing::compared;
use crate::symbols::symbols;
use il_text::{Fault, ended, image};
use io_model::{CountedWrite, write_all};
use std::alloc::Global;

fn put_names<W: CountedWrite>(alloc: Global, source: &[u8], out: &mut W) -> Result<(), Fault>
    ensures ok { OnOk result (AreNamed source.now (W.held out.old) (W.held out.new)) }
    ensures refused { IfErr result (λ e. (e ≡ Fault.Device) ⊎ OrMemory (IsTextFault source.now) e) }
    ensures unwritten { IfErr result (λ e. (e ≡ Fault.Device) ⊎ (out.new ≡ out.old)) }
{
    let image = image(alloc, source)?;
    let text = symbols(alloc, &image)?;
    Ok(write_all(out, text.as_slice())?)
}

/// What a change from one source's program to the other's does, or the first fault of the first source that has one.
fn comparison(alloc: Global, old: &[u8], new: &[u8]) -> Result<Vec<u8>, Fault>
    ensures found { IfOk result (λ text. IsComparison old.now new.now text.items) }
    ensures refused { IfErr result (OrMemory (IsFaultOfEither old.now new.now)) }
{
    let before = image(alloc, old)?;
    let after = image(alloc, new)?;
    match compared(alloc, &before, &after) {
        Ok(text) => Ok(text),
        Err(_) => Err(Fault::Memory),
    }
}

fn put_compared<W: CountedWrite>(
    alloc: Global,
    old: &[u8],
    new: &[u8],
    out: &mut W,
) -> Result<(), Fault>
    ensures ok { OnOk result (AreCompared old.now new.now (W.held out.old) (W.held out.new)) }
    ensures refused { IfErr result (λ e. (e ≡ Fault.Device) ⊎ OrMemory (IsFaultOfEither old.now new.now) e) }
    ensures unwritten { IfErr result (λ e. (e ≡ Fault.Device) ⊎ (out.new ≡ out.old)) }
{
    match comparison(alloc, old, new) {
        Ok(text) => Ok(write_all(out, text.as_slice())?),
        Err(fault) => Err(fault),
    }
}

/// One of two sources.
#[derive(Clone, Copy, Debug, PartialEq, Eq)]
pub enum Which {
    Old,
    New,
}

/// Why there is no program of a source, if there is none: its first fault, or that memory ran out.
fn fault_of(alloc: Global, source: &[u8]) -> Option<Fault>
    ensures { IfSome result (OrMemory (IsTextFault source.now)) }
{
    match image(alloc, source) {
        Ok(_) => None,
        Err(fault) => Some(fault),
    }
}

/// The first of two sources of which there is no program, and why: its first fault, or that memory ran out.
pub fn first_fault(alloc: Global, old: &[u8], new: &[u8]) -> Option<(Which, Fault)>
    ensures { IfSome result (λ first. OrMemory (IsTextFault (source_of first.0 old.now new.now)) first.1) }
{
    if let Some(fault) = fault_of(alloc, old) {
        return Some((Which::Old, fault));
    }
    match fault_of(alloc, new) {
        Some(fault) => Some((Which::New, fault)),
        None => None,
    }
}

/// Writes the table of a source's names on `out` and answers the status, or one line on `err` for the first fault. Of a
/// source that is refused nothing is written.
pub fn names<W: CountedWrite, E: CountedWrite>(
    alloc: Global,
    source: &[u8],
    out: &mut W,
    err: &mut E,
) -> u8
    ensures status { result ≤ 2 }
    ensures named { result ≡ 0 → AreNamed source.now (W.held out.old) (W.held out.new) }
    ensures refused { result ≡ 1 → IsRefused (IsTextFault source.now) × (out.new ≡ out.old) }
    ensures told { EndsTold E.CountedWrite (IsTextFault source.now) result err.old err.new }
{
    ended(put_names(alloc, source, out), err)
}

/// Writes on `out` what a change from the program of the first source to that of the second does to their names, and
/// answers the status, or one line on `err` for the first fault of the first source that has one. Where one is refused
/// nothing is written.
pub fn compare<W: CountedWrite, E: CountedWrite>(
    alloc: Global,
    old: &[u8],
    new: &[u8],
    out: &mut W,
    err: &mut E,
) -> u8
    ensures status { result ≤ 2 }
    ensures compared { result ≡ 0 → AreCompared old.now new.now (W.held out.old) (W.held out.new) }
    ensures refused { result ≡ 1 → IsRefused (IsFaultOfEither old.now new.now) × (out.new ≡ out.old) }
    ensures told { EndsTold E.CountedWrite (IsFaultOfEither old.now new.now) result err.old err.new }
{
    ended(put_compared(alloc, old, new, out), err)
}
