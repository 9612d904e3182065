//! Commands, both ways.

ghost use Rattle.std.specs.Prelude.{◌≡◌, ◌≤◌, ◌++◌, length, OnOk, slice_get};
ghost use Rattle.std.specs.Int.{w16, w32};
ghost use Rattle.il_model.specs.declared.command.Command.TheVariants as commands;
ghost use Rattle.vr_wire.specs.Fields.{command_tag, command_fields, command_bytes, FitsCommand};
ghost use Rattle.vr_wire.specs.Reading.{Gives, number_at, counted_at, scan_at, force_at, change_at};
ghost use Rattle.vr_wire.specs.Reading.{long_change_at, command_at};
ghost use Rattle.vr_wire.specs.Reading.{command_readers, read_by, end_of};

use crate::bytes::taken;
use crate::cells::{cells_at, cells_end, put_cells};
use crate::fault::ReadError;
use crate::numbers::{put_u8, put_u16, put_u32, put_u64, u8_at, u16_at, u32_at, u64_at};
use crate::value::{lawful, put_slot, put_value, slot_at, value_at};
use il_model::{Command, ImageBytes, InImage, is_long_image, is_short_image};
use std::alloc::{AllocError, Global};

fn command_tag(command: &Command) -> u8
    ensures { result ≡ command_tag command.now }
{
    match command {
        Command::Scan { .. } => 0,
        Command::SetBreak(_) => 1,
        Command::ClearBreak(_) => 2,
        Command::Step => 3,
        Command::Continue => 4,
        Command::Force(_, _) => 5,
        Command::Unforce(_) => 6,
        Command::ReadVar(_) => 7,
        Command::ReadCr => 8,
        Command::Reset => 9,
        Command::Change(image) => change_tag(image),
        Command::Warm => 11,
    }
}

/// The tag of a change: an image of more than `SHORT_IMAGE_BYTES` has one of its own.
fn change_tag(image: &ImageBytes) -> u8
    ensures { result ≡ command_tag (commands.Change image.now) }
{
    if is_short_image(image.as_slice()) {
        10
    } else {
        12
    }
}

/// The image of a change, behind its length.
fn put_image(out: &mut Vec<u8>, image: &ImageBytes) -> Result<(), AllocError>
    ensures text { OnOk result (out.new.items ≡ out.old.items ++ command_fields (commands.Change image.now)) }
    ensures fits { FitsCommand (commands.Change image.now) }
{
    let bytes = image.as_slice();
    if is_short_image(bytes) {
        put_u16(out, bytes.len() as u16)?;
    } else {
        put_u32(out, bytes.len() as u32)?;
    }
    out.extend_from_slice(bytes)
}

fn put_fields(out: &mut Vec<u8>, command: &Command) -> Result<(), AllocError>
    ensures text { OnOk result (out.new.items ≡ out.old.items ++ command_fields command.now) }
    ensures fits { OnOk result (FitsCommand command.now) }
{
    match command {
        Command::Scan { inputs, moment } => {
            put_cells(out, &inputs.cells)?;
            put_u64(out, *moment)
        }
        Command::SetBreak(position) | Command::ClearBreak(position) => put_u16(out, *position),
        Command::Force(slot, value) => {
            put_slot(out, *slot)?;
            put_value(out, *value)
        }
        Command::Unforce(slot) | Command::ReadVar(slot) => put_slot(out, *slot),
        Command::Step | Command::Continue | Command::ReadCr | Command::Reset | Command::Warm => Ok(
            (),
        ),
        Command::Change(image) => put_image(out, image),
    }
}

pub(crate) fn put_command(out: &mut Vec<u8>, command: &Command) -> Result<(), AllocError>
    ensures text { OnOk result (out.new.items ≡ out.old.items ++ command_bytes command.now) }
    ensures fits { OnOk result (FitsCommand command.now) }
{
    put_u8(out, command_tag(command))?;
    put_fields(out, command)
}

fn scan_at(bytes: &[u8]) -> Result<(Command, &[u8]), ReadError>
    ensures { Gives (λ x. (x.0, x.1.now)) result (scan_at bytes.now) }
{
    let (cells, rest) = cells_at(bytes)?;
    let (moment, rest) = u64_at(rest)?;
    let inputs = InImage { cells };
    Ok((Command::Scan { inputs, moment }, rest))
}

fn force_at(bytes: &[u8]) -> Result<(Command, &[u8]), ReadError>
    ensures { Gives (λ x. (x.0, x.1.now)) result (force_at bytes.now) }
{
    let (slot, rest) = slot_at(bytes)?;
    let (value, rest) = value_at(rest)?;
    Ok((Command::Force(slot, value), rest))
}

/// Bytes behind their count.
fn counted_at(bytes: &[u8]) -> Result<(&[u8], &[u8]), ReadError>
    ensures { Gives (λ x. (x.0.now, x.1.now)) result (counted_at (number_at w16) bytes.now) }
{
    let (count, rest) = u16_at(bytes)?;
    taken(usize::from(count), rest)
}

/// Bytes behind their count, which has 32 bits.
fn long_counted_at(bytes: &[u8]) -> Result<(&[u8], &[u8]), ReadError>
    ensures { Gives (λ x. (x.0.now, x.1.now)) result (counted_at (number_at w32) bytes.now) }
{
    let (count, rest) = u32_at(bytes)?;
    taken(count as usize, rest)
}

fn change_at(alloc: Global, bytes: &[u8]) -> Result<(Command, &[u8]), ReadError>
    ensures { Gives (λ x. (x.0, x.1.now)) result (change_at bytes.now) }
{
    let (image, rest) = counted_at(bytes)?;
    if !is_short_image(image) {
        return Err(ReadError::Malformed);
    }
    let image = lawful(ImageBytes::new(Vec::from_slice(alloc, image)?))?;
    Ok((Command::Change(image), rest))
}

fn long_change_at(alloc: Global, bytes: &[u8]) -> Result<(Command, &[u8]), ReadError>
    ensures { Gives (λ x. (x.0, x.1.now)) result (long_change_at bytes.now) }
{
    let (image, rest) = long_counted_at(bytes)?;
    if !is_long_image(image) {
        return Err(ReadError::Malformed);
    }
    let image = lawful(ImageBytes::new(Vec::from_slice(alloc, image)?))?;
    Ok((Command::Change(image), rest))
}

fn fields_at(alloc: Global, tag: u8, bytes: &[u8]) -> Result<(Command, &[u8]), ReadError>
    ensures { Gives (λ x. (x.0, x.1.now)) result (read_by (slice_get command_readers tag) bytes.now) }
{
    match tag {
        0 => scan_at(bytes),
        1 => {
            let (position, rest) = u16_at(bytes)?;
            Ok((Command::SetBreak(position), rest))
        }
        2 => {
            let (position, rest) = u16_at(bytes)?;
            Ok((Command::ClearBreak(position), rest))
        }
        3 => Ok((Command::Step, bytes)),
        4 => Ok((Command::Continue, bytes)),
        5 => force_at(bytes),
        6 => {
            let (slot, rest) = slot_at(bytes)?;
            Ok((Command::Unforce(slot), rest))
        }
        7 => {
            let (slot, rest) = slot_at(bytes)?;
            Ok((Command::ReadVar(slot), rest))
        }
        8 => Ok((Command::ReadCr, bytes)),
        9 => Ok((Command::Reset, bytes)),
        10 => change_at(alloc, bytes),
        11 => Ok((Command::Warm, bytes)),
        12 => long_change_at(alloc, bytes),
        _ => Err(ReadError::Malformed),
    }
}

pub(crate) fn command_at(alloc: Global, bytes: &[u8]) -> Result<(Command, &[u8]), ReadError>
    ensures { Gives (λ x. (x.0, x.1.now)) result (command_at bytes.now) }
{
    let (tag, rest) = u8_at(bytes)?;
    fields_at(alloc, tag, rest)
}

fn change_end(bytes: &[u8]) -> Result<&[u8], ReadError>
    ensures { Gives (λ rest. rest.now) result (end_of change_at bytes.now) }
{
    let (image, rest) = counted_at(bytes)?;
    if !is_short_image(image) {
        return Err(ReadError::Malformed);
    }
    Ok(rest)
}

fn long_change_end(bytes: &[u8]) -> Result<&[u8], ReadError>
    ensures { Gives (λ rest. rest.now) result (end_of long_change_at bytes.now) }
{
    let (image, rest) = long_counted_at(bytes)?;
    if !is_long_image(image) {
        return Err(ReadError::Malformed);
    }
    Ok(rest)
}

fn fields_end(tag: u8, bytes: &[u8]) -> Result<&[u8], ReadError>
    ensures { Gives (λ rest. rest.now) result (end_of (read_by (slice_get command_readers tag)) bytes.now) }
{
    match tag {
        0 => {
            let rest = cells_end(bytes)?;
            let (_moment, rest) = u64_at(rest)?;
            Ok(rest)
        }
        1 | 2 | 6 | 7 => {
            let (_code, rest) = u16_at(bytes)?;
            Ok(rest)
        }
        3 | 4 | 8 | 9 | 11 => Ok(bytes),
        5 => {
            let (_forced, rest) = force_at(bytes)?;
            Ok(rest)
        }
        10 => change_end(bytes),
        12 => long_change_end(bytes),
        _ => Err(ReadError::Malformed),
    }
}

/// Where a command ends that is lawful. Nothing is made of it.
pub(crate) fn command_end(bytes: &[u8]) -> Result<&[u8], ReadError>
    ensures { Gives (λ rest. rest.now) result (end_of command_at bytes.now) }
{
    let (tag, rest) = u8_at(bytes)?;
    fields_end(tag, rest)
}
