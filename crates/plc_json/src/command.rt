//! The commands of a file.

ghost use Rattle.std.specs.Prelude.{◌≡◌, Some, None, IfOk, IfErr, map, option_map, string_bytes};
ghost use Rattle.serde_json.specs.Find.{as_str};
ghost use Rattle.serde_json.specs.View.{view, members_view};
ghost use Rattle.il_model.specs.Limits.{is_short_image, is_long_image};
ghost use Rattle.plc_json.specs.Commands.{position_of, word_alone, forced_value, scan_of, force_of, forced_at};
ghost use Rattle.plc_json.specs.Commands.{keyed_of, scan_with, only_member, change_of, command_of, all_of, named};
ghost use Rattle.plc_json.specs.Commands.{HasCommands, HasNoCommands, Plain};
ghost use Rattle.plc_json.specs.Asking.{IsFaultOf, digits_fault};
ghost use Rattle.plc_json.specs.declared.command.JsonFault.TheVariants.{Memory, Shape};

use crate::image::in_image;
use hex::FromHexError;
use il_model::{Command, ImageBytes, Value, is_long_image, is_short_image};
use serde_json::{Map, Value as Json};
use std::alloc::{AllocError, AllocFailed, Global};
use thiserror::Error;

/// A command as a file has it: names where a command has slots.
#[derive(Debug, Drop)]
pub enum NamedCommand {
    /// A command without a name.
    Plain(Command),
    /// Lays a value over the location that is called so.
    Force {
        name: String,
        /// BOOL for a truth value, INT for a number.
        value: Value,
    },
    /// Takes the value off again.
    Unforce {
        name: String,
    },
    /// Reads the location, the variable or the instance's field that is called so.
    Read {
        name: String,
    },
}

/// Why a text gives no commands, or no events.
#[derive(Clone, Copy, Debug, PartialEq, Eq, Error)]
pub enum JsonFault {
    /// No JSON, or a value of another shape than what was asked for: a list of commands, a schedule, or one command.
    #[error("no commands, or no events")]
    Shape,
    /// Memory ran out.
    #[error("out of memory")]
    Memory,
}

impl From<AllocError> for JsonFault {
    ghost from_gives = { λ _ e. e ≡ Memory };

    fn from(_error: AllocError) -> JsonFault {
        JsonFault::Memory
    }
}

impl<T: Drop> From<AllocFailed<T>> for JsonFault {
    ghost from_gives = { λ _ e. e ≡ Memory };

    fn from(_failed: AllocFailed<T>) -> JsonFault {
        JsonFault::Memory
    }
}

impl From<serde_json::Error> for JsonFault {
    ghost from_gives = { IsFaultOf };

    fn from(error: serde_json::Error) -> JsonFault {
        if error.is_memory() {
            JsonFault::Memory
        } else {
            JsonFault::Shape
        }
    }
}

impl From<FromHexError> for JsonFault {
    ghost from_gives = { λ error e. e ≡ digits_fault error };

    fn from(error: FromHexError) -> JsonFault {
        match error {
            FromHexError::OutOfMemory => JsonFault::Memory,
            _ => JsonFault::Shape,
        }
    }
}

/// The commands of a text, in its order.
///
/// Every command is judged before any is given. `Shape` is the answer where the text is no JSON (RFC 8259), where the
/// value is no array of commands of the shapes that this crate gives (another word or key, a key too many or one left
/// out), where a bit or a word lies outside its area or is given twice, where a number has a fraction or an exponent,
/// is `-0`, or lies outside its field's type, and where an image is no pairs of hex digits, or of a `change` more than
/// 32768 of them, of a `long_change` no more than these, or more than 1048576.
/// Any text is a name, and what is forced is judged whatever the name. Of equal keys in one object the last counts.
/// `Memory` comes where memory ran out.
pub fn commands(alloc: Global, text: &[u8]) -> Result<Vec<NamedCommand>, JsonFault>
    ensures found { IfOk result (λ v. HasCommands text.now v.items) }
    ensures refused { IfErr result (λ e. e ≡ Shape → HasNoCommands text.now) }
{
    let json = Json::from_slice(alloc, text)?;
    let items = json.as_array().ok_or(JsonFault::Shape)?;
    each_command(alloc, items.as_slice())
}

fn each_command(alloc: Global, items: &[Json]) -> Result<Vec<NamedCommand>, JsonFault>
    ensures found { IfOk result (λ v. all_of command_of (map view items.now) ≡ Some (map named v.items)) }
    ensures refused { IfErr result (λ e. e ≡ Shape → all_of command_of (map view items.now) ≡ None) }
{
    let mut commands = Vec::new(alloc);
    for json in items {
        let next = command(alloc, json)?;
        commands.push(next)?;
    }
    Ok(commands)
}

/// One command: a word, or an object with one member, whose key is the command's name.
pub(crate) fn command(alloc: Global, json: &Json) -> Result<NamedCommand, JsonFault>
    ensures found { IfOk result (λ c. command_of (view json.now) ≡ Some (named c)) }
    ensures refused { IfErr result (λ e. e ≡ Shape → command_of (view json.now) ≡ None) }
{
    if let Some(word) = json.as_str() {
        return plain(word_alone(word));
    }
    let members = json.as_object().ok_or(JsonFault::Shape)?;
    let (key, argument) = only_member(members).ok_or(JsonFault::Shape)?;
    keyed(alloc, key, argument)
}

fn plain(command: Option<Command>) -> Result<NamedCommand, JsonFault>
    ensures found { IfOk result (λ c. option_map Plain command ≡ Some (named c)) }
    ensures refused { IfErr result (λ e. e ≡ Shape → option_map Plain command ≡ None) }
{
    match command {
        Some(command) => Ok(NamedCommand::Plain(command)),
        None => Err(JsonFault::Shape),
    }
}

fn word_alone(word: &str) -> Option<Command>
    ensures { result ≡ word_alone word.now }
{
    match word {
        "step" => Some(Command::Step),
        "continue" => Some(Command::Continue),
        "cr" => Some(Command::ReadCr),
        "reset" => Some(Command::Reset),
        "warm" => Some(Command::Warm),
        _ => None,
    }
}

/// The one member of an object that has one.
pub(crate) fn only_member(members: &Map<String, Json>) -> Option<(&str, &Json)>
    ensures { option_map (λ m. (m.0.now, view m.1.now)) result ≡ only_member (members_view members.now.entries) }
{
    if members.len() != 1 {
        return None;
    }
    let (key, argument) = members.first_key_value()?;
    Some((key.as_str(), argument))
}

fn keyed(alloc: Global, key: &str, argument: &Json) -> Result<NamedCommand, JsonFault>
    ensures found { IfOk result (λ c. keyed_of (key.now, view argument.now) ≡ Some (named c)) }
    ensures refused { IfErr result (λ e. e ≡ Shape → keyed_of (key.now, view argument.now) ≡ None) }
{
    match key {
        "scan" => plain(scan(argument)),
        "break" => plain(position(argument).map(Command::SetBreak)),
        "clear" => plain(position(argument).map(Command::ClearBreak)),
        "force" => force(alloc, argument),
        "unforce" => Ok(NamedCommand::Unforce {
            name: name(alloc, argument)?,
        }),
        "read" => Ok(NamedCommand::Read {
            name: name(alloc, argument)?,
        }),
        "change" => change(alloc, argument),
        "long_change" => long_change(alloc, argument),
        _ => Err(JsonFault::Shape),
    }
}

fn scan(argument: &Json) -> Option<Command>
    ensures { result ≡ scan_of (view argument.now) }
{
    if argument.as_object()?.len() != 3 {
        return None;
    }
    scan_with(argument)
}

fn scan_with(argument: &Json) -> Option<Command>
    ensures { result ≡ scan_with (view argument.now) }
{
    let inputs = in_image(argument.get("ix")?, argument.get("iw")?)?;
    let moment = argument.get("moment")?.as_u64()?;
    Some(Command::Scan { inputs, moment })
}

fn position(argument: &Json) -> Option<u16>
    ensures { result ≡ position_of (view argument.now) }
{
    u16::try_from(argument.as_u64()?).ok()
}

/// A change of the program, by the hex digits of an image that isn't long.
fn change(alloc: Global, argument: &Json) -> Result<NamedCommand, JsonFault>
    ensures found { IfOk result (λ c. option_map Plain (change_of is_short_image (view argument.now))
        ≡ Some (named c)) }
    ensures refused { IfErr result (λ e. e ≡ Shape
        → option_map Plain (change_of is_short_image (view argument.now)) ≡ None) }
{
    let digits = argument.as_str().ok_or(JsonFault::Shape)?;
    let bytes = hex::decode(alloc, digits)?;
    if !is_short_image(bytes.as_slice()) {
        return Err(JsonFault::Shape);
    }
    let bytes = ImageBytes::new(bytes).ok_or(JsonFault::Shape)?;
    Ok(NamedCommand::Plain(Command::Change(bytes)))
}

/// One by those of a long image.
fn long_change(alloc: Global, argument: &Json) -> Result<NamedCommand, JsonFault>
    ensures found { IfOk result (λ c. option_map Plain (change_of is_long_image (view argument.now))
        ≡ Some (named c)) }
    ensures refused { IfErr result (λ e. e ≡ Shape
        → option_map Plain (change_of is_long_image (view argument.now)) ≡ None) }
{
    let digits = argument.as_str().ok_or(JsonFault::Shape)?;
    let bytes = hex::decode(alloc, digits)?;
    if !is_long_image(bytes.as_slice()) {
        return Err(JsonFault::Shape);
    }
    let bytes = ImageBytes::new(bytes).ok_or(JsonFault::Shape)?;
    Ok(NamedCommand::Plain(Command::Change(bytes)))
}

fn force(alloc: Global, argument: &Json) -> Result<NamedCommand, JsonFault>
    ensures found { IfOk result (λ c. force_of (view argument.now) ≡ Some (named c)) }
    ensures refused { IfErr result (λ e. e ≡ Shape → force_of (view argument.now) ≡ None) }
{
    let (name, value) = forced_at(argument).ok_or(JsonFault::Shape)?;
    let name = String::from_str(alloc, name)?;
    Ok(NamedCommand::Force { name, value })
}

/// A pair of a name and the value that is forced there.
fn forced_at(pair: &Json) -> Option<(&str, Value)>
    ensures { option_map (λ f. (f.0.now, f.1)) result ≡ forced_at (view pair.now) }
{
    let [called, value] = pair.as_array()?.as_slice() else {
        return None;
    };
    let value = forced_value(value)?;
    let name = called.as_str()?;
    Some((name, value))
}

/// A truth value for a bit, a number for a word.
fn forced_value(json: &Json) -> Option<Value>
    ensures { result ≡ forced_value (view json.now) }
{
    match json.as_bool() {
        Some(truth) => Some(Value::Bool(truth)),
        None => Some(Value::Int(i16::try_from(json.as_i64()?).ok()?)),
    }
}

fn name(alloc: Global, json: &Json) -> Result<String, JsonFault>
    ensures found { IfOk result (λ s. as_str (view json.now) ≡ Some (string_bytes s)) }
    ensures fault { IfErr result (λ e. e ≡ Shape → as_str (view json.now) ≡ None) }
{
    let name = json.as_str().ok_or(JsonFault::Shape)?;
    Ok(String::from_str(alloc, name)?)
}
