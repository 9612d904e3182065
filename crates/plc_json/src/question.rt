//! What a console is asked: a command, or a question.

ghost use Rattle.std.specs.Prelude.{◌≡◌, ◌≤◌, IfOk, IfErr, Some, None, map, option_map, string_bytes};
ghost use Rattle.serde_json.specs.Data.{depth};
ghost use Rattle.serde_json.specs.Find.{as_str};
ghost use Rattle.serde_json.specs.Read.{max_depth};
ghost use Rattle.serde_json.specs.View.{view};
ghost use Rattle.plc_json.specs.Asking.{HasAsked, HasNoAskings, HasNothing, HasTexts, SayAskings, SaysAsking, asking};
ghost use Rattle.plc_json.specs.Asking.{asking_of, question_in, question_of, NestWithin, bytes_of};
ghost use Rattle.plc_json.specs.Asking.{names_in, query, spelled_names, watch_in, watch_with};
ghost use Rattle.plc_json.specs.Commands.{all_of};
ghost use Rattle.plc_json.specs.declared.command.JsonFault.TheVariants.{Memory, Shape};

use crate::command::{JsonFault, NamedCommand, command, only_member};
use serde_json::Value as Json;
use std::alloc::{AllocError, Global};

/// What is asked of a served controller that changes nothing, and is no command.
#[derive(Debug, Drop)]
pub enum Question {
    /// Which values lie over which locations.
    Forces,
    /// Where scans are held.
    Breaks,
    /// Which program is in force.
    Program,
    /// The image of that program.
    Image,
    /// How many scans there were, and how its replicas are.
    Status,
    /// What each variable and each field of an instance is, and what is forced.
    Values,
    /// What the locations, variables and fields of these names are.
    Watch(Vec<String>),
}

/// What a console is asked.
#[derive(Debug, Drop)]
pub enum Asked {
    Command(NamedCommand),
    Question(Question),
}

/// What a text asks of a console: a command of the shapes that `commands` takes in an array, or a question. `Shape` is
/// the answer where the text is no JSON (RFC 8259), or neither. `Memory` comes where memory ran out.
pub fn read_asked(alloc: Global, text: &[u8]) -> Result<Asked, JsonFault>
    ensures found { IfOk result (λ a. HasAsked text.now a) }
    ensures refused { IfErr result (λ e. e ≡ Shape → HasNothing text.now) }
{
    let json = Json::from_slice(alloc, text)?;
    asked_by(alloc, &json)
}

/// A question is a word, or an object whose one key is `watch`; all else is a command.
pub(crate) fn asked_by(alloc: Global, json: &Json) -> Result<Asked, JsonFault>
    ensures found { IfOk result (λ a. asking_of (view json.now) ≡ Some (asking a)) }
    ensures refused { IfErr result (λ e. e ≡ Shape → asking_of (view json.now) ≡ None) }
{
    match question_in(alloc, json) {
        Ok(Some(question)) => Ok(Asked::Question(question)),
        Ok(None) => Ok(Asked::Command(command(alloc, json)?)),
        Err(_) => Err(JsonFault::Memory),
    }
}

fn question_in(alloc: Global, json: &Json) -> Result<Option<Question>, AllocError>
    ensures { IfOk result (λ o. option_map query o ≡ question_in (view json.now)) }
{
    match json.as_str() {
        Some(word) => Ok(question_of(word)),
        None => watch_in(alloc, json),
    }
}

fn question_of(word: &str) -> Option<Question>
    ensures { option_map query result ≡ question_of word.now }
{
    match word {
        "forces" => Some(Question::Forces),
        "breaks" => Some(Question::Breaks),
        "program" => Some(Question::Program),
        "image" => Some(Question::Image),
        "status" => Some(Question::Status),
        "values" => Some(Question::Values),
        _ => None,
    }
}

/// What names are asked for by an object with one member, whose key is `watch`.
fn watch_in(alloc: Global, json: &Json) -> Result<Option<Question>, AllocError>
    ensures { IfOk result (λ o. option_map query o ≡ watch_in (view json.now)) }
{
    let Some(members) = json.as_object() else {
        return Ok(None);
    };
    let Some((key, argument)) = only_member(members) else {
        return Ok(None);
    };
    watch_with(alloc, key, argument)
}

fn watch_with(alloc: Global, key: &str, argument: &Json) -> Result<Option<Question>, AllocError>
    ensures { IfOk result (λ o. option_map query o ≡ watch_with (key.now, view argument.now)) }
{
    if key != "watch" {
        return Ok(None);
    }
    match names_in(alloc, argument)? {
        Some(names) => Ok(Some(Question::Watch(names))),
        None => Ok(None),
    }
}

/// The names of a list of strings: none where it's no such list.
fn names_in(alloc: Global, list: &Json) -> Result<Option<Vec<String>>, AllocError>
    ensures { IfOk result (λ o. option_map spelled_names o ≡ names_in (view list.now)) }
{
    let Some(items) = list.as_array() else {
        return Ok(None);
    };
    each_name(alloc, items.as_slice())
}

fn each_name(alloc: Global, items: &[Json]) -> Result<Option<Vec<String>>, AllocError>
    ensures { IfOk result (λ o. option_map spelled_names o ≡ all_of as_str (map view items.now)) }
{
    let mut names = Vec::new(alloc);
    for json in items {
        match json.as_str() {
            Some(name) => names.push(String::from_str(alloc, name)?)?,
            None => return Ok(None),
        }
    }
    Ok(Some(names))
}

/// What a text asks of a console by an array of commands and questions, each as a text that is that alone: JSON (RFC
/// 8259) without white space between its tokens. `Shape` and `Memory` come as with `commands`.
pub fn command_texts(alloc: Global, text: &[u8]) -> Result<Vec<Vec<u8>>, JsonFault>
    ensures found { IfOk result (λ v. HasTexts text.now (map bytes_of v.items)) }
    ensures refused { IfErr result (λ e. e ≡ Shape → HasNoAskings text.now) }
{
    let json = Json::from_slice(alloc, text)?;
    let items = json.as_array().ok_or(JsonFault::Shape)?;
    each_text(alloc, items.as_slice())
}

fn each_text(alloc: Global, items: &[Json]) -> Result<Vec<Vec<u8>>, JsonFault>
    requires { NestWithin (map view items.now) }
    ensures found { IfOk result (λ v. SayAskings (map view items.now) (map bytes_of v.items)) }
    ensures refused { IfErr result (λ e. e ≡ Shape → all_of asking_of (map view items.now) ≡ None) }
{
    let mut texts = Vec::new(alloc);
    for json in items {
        let next = one_text(alloc, json)?;
        texts.push(next)?;
    }
    Ok(texts)
}

fn one_text(alloc: Global, json: &Json) -> Result<Vec<u8>, JsonFault>
    requires { depth (view json.now) ≤ max_depth }
    ensures found { IfOk result (λ v. SaysAsking (view json.now) v.items) }
    ensures refused { IfErr result (λ e. e ≡ Shape → asking_of (view json.now) ≡ None) }
{
    asked_by(alloc, json)?;
    Ok(json.to_vec(alloc)?)
}
