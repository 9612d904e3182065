//! The names of a program in tables, so that a look-up takes a time that grows as the logarithm of their number.

ghost use Rattle.std.specs.Prelude.{◌≡◌, ◌≤◌, ℕ, List, length, IfOk};
ghost use Rattle.std.specs.List.{position};
ghost use Rattle.il_model.specs.Words.{same_name};
ghost use Rattle.il_model.specs.Resolved.{has_label, instance_in};
ghost use Rattle.il_model.specs.Tables.{first_in};

use crate::limits::{MOST_INSTANCES, MOST_INSTRUCTIONS, MOST_VARIABLES};
use crate::{BlockKind, Instance, Instr, Name, Operand, Place, Program, Source, Variable};
use std::alloc::{AllocError, Global};
use std::collections::BTreeMap;
use std::marker::Model;

/// The number of the first instruction with each label. From behind, so that an earlier one takes the place of a later
/// one.
fn labels<'a>(alloc: Global, code: &'a [Instr]) -> Result<BTreeMap<&'a [u8], u16>, AllocError>
    requires { length code.now ≤ MOST_INSTRUCTIONS }
    ensures { IfOk result (λ m. (name : List ℕ) → first_in m name ≡ position (has_label name) code.entry.now) }
{
    let mut found = BTreeMap::new(alloc);
    let mut n = code.len();
    while n > 0 {
        n -= 1;
        if let Some(label) = &code[n].label {
            found.insert(label.bytes(), n as u16)?;
        }
    }
    Ok(found)
}

/// The number of the first variable with each name, found from behind.
fn names<'a>(
    alloc: Global,
    variables: &'a [Variable],
) -> Result<BTreeMap<&'a [u8], u16>, AllocError>
    requires { length variables.now ≤ MOST_VARIABLES }
    ensures { IfOk result (λ m. (name : List ℕ)
        → first_in m name ≡ position (λ v. same_name v.name name) variables.entry.now) }
{
    let mut found = BTreeMap::new(alloc);
    let mut n = variables.len();
    while n > 0 {
        n -= 1;
        found.insert(variables[n].name.bytes(), n as u16)?;
    }
    Ok(found)
}

/// The number of the first instance with each name, found from behind.
fn instance_names<'a>(
    alloc: Global,
    instances: &'a [Instance],
) -> Result<BTreeMap<&'a [u8], u16>, AllocError>
    requires { length instances.now ≤ MOST_INSTANCES }
    ensures { IfOk result (λ m. (name : List ℕ) → first_in m name ≡ instance_in instances.entry.now name) }
{
    let mut found = BTreeMap::new(alloc);
    let mut n = instances.len();
    while n > 0 {
        n -= 1;
        found.insert(instances[n].name.bytes(), n as u16)?;
    }
    Ok(found)
}

/// A program with tables of its names.
#[derive(Drop)]
pub struct IndexedProgram<'a> {
    program: &'a Program,
    variables: BTreeMap<&'a [u8], u16>,
    instances: BTreeMap<&'a [u8], u16>,
    labels: BTreeMap<&'a [u8], u16>,
}

impl<'a> Model for IndexedProgram<'a> {
    ghost use Rattle.il_model.specs.Program.{Program};
    ghost use Rattle.il_model.specs.Tables.{AreNameTables};

    ghost Value = { Program };

    ghost view = { λ i. i.program.now };

    ghost invariant = { λ i. AreNameTables i.program.now i.variables i.instances i.labels };
}

impl<'a> IndexedProgram<'a> {
    ghost use Rattle.il_model.specs.Resolved.{variable_number, place_of, target_of, instance_number, field_of};
    ghost use Rattle.il_model.specs.Resolved.{called_kind, source_of};

    /// A program with the tables of its names.
    pub fn new(alloc: Global, program: &'a Program) -> Result<IndexedProgram<'a>, AllocError>
        ensures { IfOk result (λ i. i ≡ program.entry.now) }
    {
        let variables = names(alloc, program.variables.as_slice())?;
        let instances = instance_names(alloc, program.instances.as_slice())?;
        let labels = labels(alloc, program.code.as_slice())?;
        Ok(IndexedProgram {
            program,
            variables,
            instances,
            labels,
        })
    }

    /// The program.
    pub fn program(&self) -> &Program
        ensures { result.now ≡ self.now }
    {
        self.program
    }

    /// Its instructions.
    pub fn code(&self) -> &[Instr]
        ensures code { result.now ≡ self.now.code }
        ensures small { length result.now ≤ MOST_INSTRUCTIONS }
    {
        let program = self.program;
        program.code.as_slice()
    }

    /// The number of the variable of that name.
    pub fn variable_named(&self, name: &Name) -> Option<u16>
        ensures { result ≡ variable_number self.now name.now }
    {
        self.variables.get(name.bytes()).copied()
    }

    fn place_of(&self, name: &Name) -> Option<Place>
        ensures { result ≡ place_of self.now name.now }
    {
        let at = self.variable_named(name)?;
        let program = self.program;
        let variable = program.variables.get(at as usize)?;
        match variable.location {
            Some(loc) => Some(Place::At(loc)),
            None => Some(Place::Own(at)),
        }
    }

    /// The number of the instruction with that label.
    pub fn target_of(&self, name: &Name) -> Option<u16>
        ensures { result ≡ target_of self.now name.now }
    {
        self.labels.get(name.bytes()).copied()
    }

    /// The number of the instance of that name.
    pub fn instance_named(&self, name: &Name) -> Option<u16>
        ensures { result ≡ instance_number self.now name.now }
    {
        self.instances.get(name.bytes()).copied()
    }

    /// A field of an instance, where the instance has it.
    pub fn field_of(&self, name: &Name, field: &Name) -> Option<Place>
        ensures { result ≡ field_of self.now name.now field.now }
    {
        let i = self.instance_named(name)?;
        let program = self.program;
        let instance = program.instances.get(i as usize)?;
        let n = instance.kind.field_number(field.bytes())?;
        Some(Place::Field(i, n))
    }

    /// The kind of the instance that an operand names for a call.
    pub fn called_kind(&self, operand: &Operand) -> Option<BlockKind>
        ensures { result ≡ called_kind self.now operand.now }
    {
        let Operand::Instance(name) = operand else {
            return None;
        };
        let i = self.instance_named(name)?;
        let program = self.program;
        let instance = program.instances.get(i as usize)?;
        Some(instance.kind)
    }

    /// What an operand stands for; none where a name or a label is unknown, and for a bare number.
    pub fn source_of(&self, operand: &Operand) -> Option<Source>
        ensures { result ≡ source_of self.now operand.now }
    {
        match operand {
            Operand::Absent => Some(Source::Absent),
            Operand::Literal(v) => Some(Source::Constant(*v)),
            Operand::Bare(_) => None,
            Operand::Variable(name) => Some(Source::Of(self.place_of(name)?)),
            Operand::Direct(loc) => Some(Source::Of(Place::At(*loc))),
            Operand::Label(name) => Some(Source::Target(self.target_of(name)?)),
            Operand::Field(name, field) => Some(Source::Of(self.field_of(name, field)?)),
            Operand::Instance(name) => Some(Source::Instance(self.instance_named(name)?)),
        }
    }
}
