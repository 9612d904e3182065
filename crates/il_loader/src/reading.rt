//! Reading the tables of an image.

ghost use Rattle.std.specs.Prelude.{◌≡◌, [], IfOk};
ghost use Rattle.il_model.specs.Codes.{is_new_instance, argument_number, is_free, coded_location, coded_location_in};
ghost use Rattle.il_loader.specs.Reading.{items_from, variable_at, instance_at, mark_at, instruction_at, argument_at};
ghost use Rattle.il_loader.specs.Reading.{word_at, next_word};
ghost use Rattle.il_records.specs.Fields.{Gives, constant_at};
ghost use Rattle.il_model.specs.Image.{may_call};

use crate::declared::SymbolTables;
use crate::instance::Instances;
use crate::label::{Label, Labels};
use crate::operands::{argument_operand_in, label_there, word_operand_in};
use crate::variable::Variables;
use crate::word::{Content, Word};
use il_model::{
    Arguments, BlockKind, CodedOperand, Constants, Instance, Instr, Loc, Name, Side, Ty, Variable,
    Version, is_type, letters_of, loc_type, name_version, op_in, side_of, type_in,
};
use il_records::{
    LoadError, LoadFault, agrees, constant_at, declared_at, first_value_at, lawful,
    spelled_name_at, u8_at, u16_at,
};
use std::alloc::Global;

/// Whether a name is lawful, neither a variable nor an instance has it, and no variable stands under it.
fn is_new_instance(variables: &Variables, seen: &Instances, name: &[u8]) -> bool
    ensures { result ≡ is_new_instance variables.now seen.now name.now }
{
    variables.is_new(name) && !seen.number_of(name).is_some() && !variables.has_under(name)
}

/// Whether an image of this version may have the name.
fn may_call(version: Version, name: &[u8]) -> bool
    ensures { result ≡ may_call version name.now }
{
    version.may_have(name_version(name))
}

/// Whether a location is of the type and no other variable has a part of it.
fn is_free(seen: &Variables, ty: Ty, loc: Loc) -> bool
    ensures { result ≡ is_free seen.now ty loc }
{
    is_type(ty, loc_type(loc)) && !seen.is_overlapped(loc)
}

/// The location with a code, where it is free; none at the code for none.
fn location_of(seen: &Variables, ty: Ty, n: u16) -> Option<Option<Loc>>
    ensures { result ≡ coded_location seen.now ty n }
{
    match CodedOperand::of_code(n)? {
        CodedOperand::Unused => Some(None),
        CodedOperand::Location(loc) => if is_free(seen, ty, loc) {
            Some(Some(loc))
        } else {
            None
        },
        _ => None,
    }
}

/// That location, where an image of this version may have it.
fn location_in(version: Version, seen: &Variables, ty: Ty, n: u16) -> Option<Option<Loc>>
    ensures { result ≡ coded_location_in version seen.now ty n }
{
    let location = location_of(seen, ty, n)?;
    if version.may_lie(location) {
        Some(location)
    } else {
        None
    }
}

/// A variable, and the bytes of its name.
#[tactic(auto, unfolding(crate::specs::Reading::variable_at, crate::specs::Reading::name_at))]
fn variable_at<'a>(
    alloc: Global,
    version: Version,
    total: usize,
    seen: &Variables,
    bytes: &'a [u8],
) -> Result<(Variable, &'a [u8], &'a [u8]), LoadError>
    ensures found { Gives (λ x. (x.0, x.2.now)) result (variable_at version total seen.now bytes.entry.now) }
    ensures name { IfOk result (λ x. x.1.now ≡ x.0.name) }
{
    let position = total.saturating_sub(bytes.len());
    let (name, rest) = spelled_name_at(version, position, bytes)?;
    agrees(
        LoadFault::BadWord { position },
        may_call(version, name) && seen.is_new(name),
    )?;
    let (retained, code, rest) = declared_at(version, position, rest)?;
    let ty = lawful(position, type_in(version, code))?;
    let (place, rest) = u16_at(rest)?;
    let location = lawful(position, location_in(version, seen, ty, place))?;
    let (initial, rest) = first_value_at(version, position, ty, location, rest)?;
    let found = Variable {
        name: Name::of(Vec::from_slice(alloc, name)?),
        ty,
        location,
        initial,
        retained,
    };
    Ok((found, name, rest))
}

/// An instance, and the bytes of its name.
#[tactic(auto, unfolding(crate::specs::Reading::instance_at, crate::specs::Reading::name_at))]
fn instance_at<'a>(
    alloc: Global,
    version: Version,
    total: usize,
    variables: &Variables,
    seen: &Instances,
    bytes: &'a [u8],
) -> Result<(Instance, &'a [u8], &'a [u8]), LoadError>
    ensures found { Gives (λ x. (x.0, x.2.now)) result
        (instance_at version total variables.now seen.now bytes.entry.now) }
    ensures name { IfOk result (λ x. x.1.now ≡ x.0.name) }
{
    let position = total.saturating_sub(bytes.len());
    let (name, rest) = spelled_name_at(version, position, bytes)?;
    agrees(
        LoadFault::BadWord { position },
        may_call(version, name) && is_new_instance(variables, seen, name),
    )?;
    let (retained, code, rest) = declared_at(version, position, rest)?;
    let kind = lawful(position, BlockKind::of_code(code))?;
    let found = Instance {
        name: Name::of(Vec::from_slice(alloc, name)?),
        kind,
        retained,
    };
    Ok((found, name, rest))
}

/// A label.
#[tactic(auto, unfolding(crate::specs::Reading::mark_at, crate::specs::Reading::name_at))]
fn mark_at<'a>(
    version: Version,
    total: usize,
    seen: &Labels,
    bytes: &'a [u8],
) -> Result<(Label<'a>, &'a [u8]), LoadError>
    ensures { Gives (λ x. (x.0, x.1.now)) result (mark_at version total seen.now bytes.entry.now) }
{
    let position = total.saturating_sub(bytes.len());
    let (name, rest) = spelled_name_at(version, position, bytes)?;
    agrees(
        LoadFault::BadWord { position },
        may_call(version, name) && seen.is_new(name),
    )?;
    let (at, rest) = u16_at(rest)?;
    Ok((Label { name, at }, rest))
}

/// Any number below 8 may be a field's.
fn argument_number(n: u8) -> Option<u8>
    ensures { result ≡ argument_number n }
{
    if n < 8 { Some(n) } else { None }
}

/// The n-th word behind its code, where it is an instruction.
#[tactic(auto, unfolding(crate::specs::Reading::instruction_at))]
fn instruction_at<'a>(
    alloc: Global,
    position: usize,
    tables: &SymbolTables,
    n: usize,
    code: u8,
    bytes: &'a [u8],
) -> Result<(Word, &'a [u8]), LoadError>
    ensures { Gives (λ x. (x.0, x.1.now)) result
        (instruction_at tables.now.version position
        tables.now.declared.now tables.now.labels.now tables.now.constants.now n code bytes.entry.now) }
{
    let op = lawful(position, op_in(tables.version, code))?;
    let (letters, rest) = u8_at(bytes)?;
    let modifier = lawful(position, letters_of(op, letters))?;
    let (code, rest) = u16_at(rest)?;
    let operand = word_operand_in(alloc, tables, op, modifier, code)?;
    let operand = lawful(position, operand)?;
    let label = label_there(alloc, tables.labels, n)?;
    let line = Instr {
        label,
        op,
        modifier,
        operand,
        arguments: Arguments::of(Vec::new(alloc)),
    };
    let content = Content::Instruction(line);
    Ok((Word { content, code }, rest))
}

/// A word behind its code, where it is an argument.
#[tactic(auto, unfolding(crate::specs::Reading::argument_at))]
fn argument_at<'a>(
    alloc: Global,
    position: usize,
    tables: &SymbolTables,
    side: Side,
    bytes: &'a [u8],
) -> Result<(Word, &'a [u8]), LoadError>
    ensures { Gives (λ x. (x.0, x.1.now)) result
        (argument_at tables.now.version position
        tables.now.declared.now tables.now.constants.now side bytes.entry.now) }
{
    let (number, rest) = u8_at(bytes)?;
    let number = lawful(position, argument_number(number))?;
    let (code, rest) = u16_at(rest)?;
    let operand = argument_operand_in(alloc, tables, code)?;
    let operand = lawful(position, operand)?;
    let content = Content::Argument(side, number, operand);
    Ok((Word { content, code }, rest))
}

#[tactic(auto, unfolding(crate::specs::Reading::word_at))]
fn word_at<'a>(
    alloc: Global,
    position: usize,
    tables: &SymbolTables,
    n: usize,
    bytes: &'a [u8],
) -> Result<(Word, &'a [u8]), LoadError>
    ensures { Gives (λ x. (x.0, x.1.now)) result
        (word_at tables.now.version position
        tables.now.declared.now tables.now.labels.now tables.now.constants.now n bytes.entry.now) }
{
    let (code, rest) = u8_at(bytes)?;
    match side_of(code) {
        Some(side) => argument_at(alloc, position, tables, side, rest),
        None => instruction_at(alloc, position, tables, n, code, rest),
    }
}

/// The variables, of which there are `count`, and the bytes behind them.
pub fn variables_of<'a>(
    alloc: Global,
    version: Version,
    total: usize,
    count: u16,
    bytes: &'a [u8],
) -> Result<(Variables<'a>, &'a [u8]), LoadError>
    ensures { Gives (λ x. (x.0, x.1.now)) result (items_from (variable_at version total) count [] bytes.entry.now) }
{
    let mut seen = Variables::new(alloc);
    let mut rest = bytes;
    for _ in 0..count {
        let (one, name, after) = variable_at(alloc, version, total, &seen, rest)?;
        seen = seen.with(one, name)?;
        rest = after;
    }
    Ok((seen, rest))
}

/// The instances, of which there are `count`, and the bytes behind them.
pub fn instances_of<'a>(
    alloc: Global,
    version: Version,
    total: usize,
    variables: &Variables,
    count: u16,
    bytes: &'a [u8],
) -> Result<(Instances<'a>, &'a [u8]), LoadError>
    ensures { Gives (λ x. (x.0, x.1.now)) result
        (items_from (instance_at version total variables.now) count [] bytes.entry.now) }
{
    let mut seen = Instances::new(alloc);
    let mut rest = bytes;
    for _ in 0..count {
        let (one, name, after) = instance_at(alloc, version, total, variables, &seen, rest)?;
        seen = seen.with(one, name)?;
        rest = after;
    }
    Ok((seen, rest))
}

/// The labels, of which there are `count`, and the bytes behind them.
pub fn labels_of<'a>(
    alloc: Global,
    version: Version,
    total: usize,
    count: u16,
    bytes: &'a [u8],
) -> Result<(Labels<'a>, &'a [u8]), LoadError>
    ensures { Gives (λ x. (x.0, x.1.now)) result (items_from (mark_at version total) count [] bytes.entry.now) }
{
    let mut seen = Labels::new(alloc);
    let mut rest = bytes;
    for _ in 0..count {
        let (one, after) = mark_at(version, total, &seen, rest)?;
        seen = seen.with(one)?;
        rest = after;
    }
    Ok((seen, rest))
}

/// The constants, of which there are `count`, and the bytes behind them.
pub fn constants_of(
    alloc: Global,
    version: Version,
    total: usize,
    count: u16,
    bytes: &[u8],
) -> Result<(Constants, &[u8]), LoadError>
    ensures { Gives (λ x. (x.0, x.1.now)) result (items_from (constant_at version total) count [] bytes.now) }
{
    let mut seen = Constants::new(alloc);
    let mut rest = bytes;
    for _ in 0..count {
        let (one, after) = constant_at(version, total, &seen, rest)?;
        seen = seen.with(one)?;
        rest = after;
    }
    Ok((seen, rest))
}

/// The word behind these.
fn next_word<'a>(
    alloc: Global,
    total: usize,
    tables: &SymbolTables,
    seen: &[Word],
    bytes: &'a [u8],
) -> Result<(Word, &'a [u8]), LoadError>
    ensures { Gives (λ x. (x.0, x.1.now)) result
        (next_word tables.now.version total
        tables.now.declared.now tables.now.labels.now tables.now.constants.now seen.now bytes.entry.now) }
{
    let position = total.saturating_sub(bytes.len());
    word_at(alloc, position, tables, seen.len(), bytes)
}

/// The words, of which there are `count`, and the bytes behind them: instructions, and the arguments of calls.
pub fn words_of<'a>(
    alloc: Global,
    total: usize,
    tables: &SymbolTables,
    count: u16,
    bytes: &'a [u8],
) -> Result<(Vec<Word>, &'a [u8]), LoadError>
    ensures { Gives (λ x. (x.0.items, x.1.now)) result
        (items_from
        (next_word tables.now.version total tables.now.declared.now tables.now.labels.now tables.now.constants.now)
        count [] bytes.entry.now) }
{
    let mut found = Vec::new(alloc);
    let mut rest = bytes;
    for _ in 0..count {
        let (one, after) = next_word(alloc, total, tables, found.as_slice(), rest)?;
        found.push(one)?;
        rest = after;
    }
    Ok((found, rest))
}
