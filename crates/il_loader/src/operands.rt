//! The operands of words: what their numbers stand for.

ghost use Rattle.std.specs.Prelude.{◌≡◌, Ok, Some, None, slice_get, if◌then◌else◌};
ghost use Rattle.std.specs.Option.{option_map, option_and_then};
ghost use Rattle.il_model.specs.declared.program.Operand.TheVariants as operands;
ghost use Rattle.il_model.specs.Locations.{is_nameable};
ghost use Rattle.il_model.specs.Image.{may_name};
ghost use Rattle.il_model.specs.Codes.{if_passes, word_operand_in, argument_operand_in};
ghost use Rattle.il_model.specs.Codes.{label_there, target_name, variable_named, instance_named, field_named};
ghost use Rattle.il_model.specs.Codes.{named_operand, value_operand, numbered_operand, word_operand, argument_operand};
ghost use Rattle.il_records.specs.Fields.{Gives};

use crate::declared::{Declared, SymbolTables};
use crate::label::Labels;
use il_model::{
    CodedOperand, Instance, Loc, Modifier, Name, Op, Operand, Value, Variable, Version, is_formed,
    is_passed,
};
use il_records::LoadError;
use std::alloc::Global;

/// The name of the first label at an address.
pub fn label_there(alloc: Global, labels: &Labels, n: usize) -> Result<Option<Name>, LoadError>
    ensures { Gives (λ o. o) result (Ok (label_there labels.now n)) }
{
    match labels.name_at(n) {
        Some(name) => Ok(Some(Name::of(Vec::from_slice(alloc, name)?))),
        None => Ok(None),
    }
}

fn target_name(alloc: Global, labels: &Labels, n: u16) -> Result<Name, LoadError>
    ensures { Gives (λ name. name) result (Ok (target_name (label_there labels.now n))) }
{
    match label_there(alloc, labels, n as usize)? {
        Some(name) => Ok(name),
        None => Ok(Name::of(Vec::new(alloc))),
    }
}

fn variable_named(alloc: Global, v: Option<&Variable>) -> Result<Option<Operand>, LoadError>
    ensures { Gives (λ o. o) result (Ok (variable_named (option_map (λ v. v.now) v.entry))) }
{
    match v {
        Some(v) => Ok(Some(Operand::Variable(v.name.copy(alloc)?))),
        None => Ok(None),
    }
}

fn instance_named(alloc: Global, x: Option<&Instance>) -> Result<Option<Operand>, LoadError>
    ensures { Gives (λ o. o) result (Ok (instance_named (option_map (λ x. x.now) x.entry))) }
{
    match x {
        Some(x) => Ok(Some(Operand::Instance(x.name.copy(alloc)?))),
        None => Ok(None),
    }
}

/// The field of an instance by its number.
fn field_named(alloc: Global, x: Option<&Instance>, n: u8) -> Result<Option<Operand>, LoadError>
    ensures { Gives (λ o. o) result (Ok (field_named (option_map (λ x. x.now) x.entry) n)) }
{
    match x {
        Some(x) => match x.kind.field(n) {
            Some(field) => {
                let name = Name::of(Vec::from_slice(alloc, field.name())?);
                Ok(Some(Operand::Field(x.name.copy(alloc)?, name)))
            }
            None => Ok(None),
        },
        None => Ok(None),
    }
}

fn literal_at(constants: &[Value], k: usize) -> Option<Operand>
    ensures { result ≡ option_map operands.Literal (slice_get constants.now k) }
{
    match constants.get(k) {
        Some(v) => Some(Operand::Literal(*v)),
        None => None,
    }
}

/// A location as an operand, where an instruction can name it.
fn direct(loc: Loc) -> Option<Operand>
    ensures { result ≡ (if is_nameable loc then Some (operands.Direct loc) else None) }
{
    if loc.is_nameable() {
        Some(Operand::Direct(loc))
    } else {
        None
    }
}

/// The operand that stands under these numbers, if there is one.
fn named_operand(
    alloc: Global,
    ds: &Declared,
    constants: &[Value],
    operand: CodedOperand,
) -> Result<Option<Operand>, LoadError>
    ensures { Gives (λ o. o) result (Ok (named_operand ds.now constants.now operand)) }
{
    match operand {
        CodedOperand::Location(loc) => Ok(direct(loc)),
        CodedOperand::Variable(i) => {
            variable_named(alloc, ds.variables().as_slice().get(i as usize))
        }
        CodedOperand::Field { instance, field } => {
            field_named(
                alloc,
                ds.instances().as_slice().get(instance as usize),
                field,
            )
        }
        CodedOperand::Constant(k) => Ok(literal_at(constants, k as usize)),
        CodedOperand::Unused => Ok(Some(Operand::Absent)),
    }
}

/// An operand that is neither a label nor an instance that is called.
fn value_operand(
    alloc: Global,
    ds: &Declared,
    constants: &[Value],
    n: u16,
) -> Result<Option<Operand>, LoadError>
    ensures { Gives (λ o. o) result (Ok (value_operand ds.now constants.now n)) }
{
    match CodedOperand::of_code(n) {
        Some(operand) => named_operand(alloc, ds, constants, operand),
        None => Ok(None),
    }
}

fn numbered_operand(
    alloc: Global,
    tables: &SymbolTables,
    op: Op,
    n: u16,
) -> Result<Option<Operand>, LoadError>
    ensures { Gives (λ o. o) result
        (Ok (numbered_operand tables.now.declared.now tables.now.labels.now tables.now.constants.now op n)) }
{
    if op == Op::Jmp {
        Ok(Some(Operand::Label(target_name(alloc, tables.labels, n)?)))
    } else if op == Op::Cal {
        let instances = tables.declared.instances().as_slice();
        instance_named(alloc, instances.get(n as usize))
    } else {
        value_operand(alloc, tables.declared, tables.constants, n)
    }
}

/// The operand of an instruction, where its operator takes one of this form.
fn word_operand(
    alloc: Global,
    tables: &SymbolTables,
    op: Op,
    m: Modifier,
    n: u16,
) -> Result<Option<Operand>, LoadError>
    ensures { Gives (λ o. o) result
        (Ok (word_operand tables.now.declared.now tables.now.labels.now tables.now.constants.now op m n)) }
{
    match numbered_operand(alloc, tables, op, n)? {
        Some(operand) => {
            if is_formed(op, m, &operand) {
                Ok(Some(operand))
            } else {
                Ok(None)
            }
        }
        None => Ok(None),
    }
}

/// An operand, where an image of this version may have it.
fn known_operand(version: Version, operand: Option<Operand>) -> Option<Operand>
    ensures { result ≡ option_and_then (if_passes (may_name version)) operand }
{
    let operand = operand?;
    if version.may_name(&operand) {
        Some(operand)
    } else {
        None
    }
}

/// The operand of an instruction, where its operator takes one of this form and an image of the version has it.
pub fn word_operand_in(
    alloc: Global,
    tables: &SymbolTables,
    op: Op,
    m: Modifier,
    n: u16,
) -> Result<Option<Operand>, LoadError>
    ensures { Gives (λ o. o) result
        (Ok (word_operand_in tables.now.version
        tables.now.declared.now tables.now.labels.now tables.now.constants.now op m n)) }
{
    let operand = word_operand(alloc, tables, op, m, n)?;
    Ok(known_operand(tables.version, operand))
}

/// The operand of an argument: a value or a place.
fn argument_operand(
    alloc: Global,
    ds: &Declared,
    constants: &[Value],
    n: u16,
) -> Result<Option<Operand>, LoadError>
    ensures { Gives (λ o. o) result (Ok (argument_operand ds.now constants.now n)) }
{
    match value_operand(alloc, ds, constants, n)? {
        Some(operand) => {
            if is_passed(&operand) {
                Ok(Some(operand))
            } else {
                Ok(None)
            }
        }
        None => Ok(None),
    }
}

/// The operand of an argument, where an image of the version has it.
pub fn argument_operand_in(
    alloc: Global,
    tables: &SymbolTables,
    n: u16,
) -> Result<Option<Operand>, LoadError>
    ensures { Gives (λ o. o) result
        (Ok (argument_operand_in tables.now.version tables.now.declared.now tables.now.constants.now n)) }
{
    let operand = argument_operand(alloc, tables.declared, tables.constants, n)?;
    Ok(known_operand(tables.version, operand))
}
