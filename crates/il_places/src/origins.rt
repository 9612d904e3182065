//! Where the lines of an expansion come from.

ghost use Rattle.std.specs.Prelude.{◌≡◌, ◌++◌, ◌∷◌, [], map, option_copied, IfOk, OnOk};
ghost use Rattle.il_units.specs.Expansion.{instruction_origin};
ghost use Rattle.il_places.specs.Origins.{in_instance, with_body, trace_named, call_before, body_of, ended_by};
ghost use Rattle.il_places.specs.Origins.{by_itself, label_at, origins_from};

use crate::calls::CalledUnit;
use crate::name::Name;
use il_units::Flat;
use std::alloc::{AllocError, Global};
use std::marker::Model;

/// Where an instruction comes from: how many bytes the text has from its place on, and the full name of the instance in
/// whose body it stands, or none in the program itself.
#[derive(Drop)]
pub struct Origin {
    pub left: usize,
    pub instance: Name,
}

impl Origin {
    ghost use Rattle.std.specs.Prelude.{◌≡◌, IfOk};
    ghost use Rattle.il_places.specs.Origins.{by_itself, in_instance};

    /// At this place of the unit itself.
    pub fn by_itself(alloc: Global, left: usize) -> Origin
        ensures { result ≡ by_itself left }
    {
        Origin {
            left,
            instance: Name::none(alloc),
        }
    }

    /// The same in an instance, if that has a name.
    pub fn placed(&self, alloc: Global, front: &[u8]) -> Result<Origin, AllocError>
        ensures { IfOk result (λ o. o ≡ in_instance front.now self.now) }
    {
        Ok(Origin {
            left: self.left,
            instance: self.instance.placed(alloc, front)?,
        })
    }
}

/// A unit with the origins of its instructions, in its own names.
#[derive(Drop)]
pub struct Trace {
    name: Name,
    origins: Vec<Origin>,
}

impl Model for Trace {
    ghost use Rattle.il_places.specs.Origins.{TraceText};

    ghost Value = { TraceText };

    ghost view = { λ t. record { name = t.name; origins = t.origins.items } };
}

impl Trace {
    ghost use Rattle.std.specs.Prelude.{◌≡◌};

    /// The trace of the unit of that name.
    pub fn of(name: Name, origins: Vec<Origin>) -> Trace
        ensures { result ≡ record { name = name; origins = origins.items } }
    {
        Trace { name, origins }
    }

    /// The unit's name.
    pub fn name(&self) -> &[u8]
        ensures { result.now ≡ self.now.name }
    {
        self.name.bytes()
    }

    /// The origins, in the order of the lines.
    pub fn origins(&self) -> &[Origin]
        ensures { result.now ≡ self.now.origins }
    {
        self.origins.as_slice()
    }

    /// The origins alone.
    pub fn into_origins(self) -> Vec<Origin>
        ensures { result.items ≡ self.origins }
    {
        self.origins
    }
}

/// The origins of a body in an instance.
pub fn placed(alloc: Global, front: &[u8], origins: &[Origin]) -> Result<Vec<Origin>, AllocError>
    ensures { IfOk result (λ v. v.items ≡ map (in_instance front.now) origins.now) }
{
    let mut found = Vec::new(alloc);
    for origin in origins {
        found.push(origin.placed(alloc, front)?)?;
    }
    Ok(found)
}

fn trace_named<'t>(traces: &'t [Trace], name: &[u8]) -> Option<&'t Trace>
    ensures { option_copied result ≡ trace_named traces.entry.now name.now }
{
    traces.iter().find(|t| t.name() == name)
}

/// The call whose body ends before a label.
fn call_before<'c>(calls: &'c [CalledUnit], label: &[u8]) -> Option<&'c CalledUnit>
    ensures { option_copied result ≡ call_before calls.entry.now label.now }
{
    calls.iter().find(|c| c.label.is(label))
}

/// The origins of the body that is called.
fn body_of(alloc: Global, traces: &[Trace], c: &CalledUnit) -> Result<Vec<Origin>, AllocError>
    ensures { IfOk result (λ v. v.items ≡ body_of traces.now c.now) }
{
    match trace_named(traces, c.unit.bytes()) {
        Some(t) => placed(alloc, c.instance.bytes(), t.origins()),
        None => Ok(Vec::new(alloc)),
    }
}

/// The origins of the body that ends before a label; none where none does.
fn ended_by(
    alloc: Global,
    traces: &[Trace],
    calls: &[CalledUnit],
    label: &[u8],
) -> Result<Vec<Origin>, AllocError>
    ensures { IfOk result (λ v. v.items ≡ ended_by traces.now calls.now label.now) }
{
    match call_before(calls, label) {
        Some(c) => body_of(alloc, traces, c),
        None => Ok(Vec::new(alloc)),
    }
}

/// Puts a body in the place of the last lines.
fn put_body(found: &mut Vec<Origin>, body: Vec<Origin>) -> Result<(), AllocError>
    ensures { OnOk result (found.new.items ≡ with_body found.old.items body.items) }
{
    let before = found.len().saturating_sub(body.len());
    found.truncate(before);
    for origin in body {
        found.push(origin)?;
    }
    Ok(())
}

/// The label of the n-th line, or nothing where it has none.
fn label_at(flat: &Flat, n: usize) -> &[u8]
    ensures { result.now ≡ label_at flat.now.lines n }
{
    match flat.lines().get(n) {
        Some(line) => match &line.label {
            Some(word) => word.text.bytes(),
            None => b"",
        },
        None => b"",
    }
}

/// Puts the origin of the n-th line behind the others, which end with the body that ends before its label, if one does.
fn put_origin(
    alloc: Global,
    found: &mut Vec<Origin>,
    traces: &[Trace],
    calls: &[CalledUnit],
    flat: &Flat,
    n: usize,
) -> Result<(), AllocError>
    ensures { OnOk result (found.new.items ≡ with_body found.old.items
        (ended_by traces.now calls.now (label_at flat.now.lines n)) ++ by_itself (instruction_origin flat.now n) ∷ []) }
{
    let body = ended_by(alloc, traces, calls, label_at(flat, n))?;
    put_body(found, body)?;
    found.push(Origin::by_itself(alloc, flat.instruction_origin(n)))?;
    Ok(())
}

/// The origins of a unit's lines.
#[tactic(auto, unfolding(crate::specs::Origins::origins_from))]
pub fn origins_of(
    alloc: Global,
    traces: &[Trace],
    calls: &[CalledUnit],
    flat: &Flat,
) -> Result<Vec<Origin>, AllocError>
    ensures { IfOk result (λ v. v.items ≡ origins_from traces.now calls.now [] flat.now.lines) }
{
    let mut found = Vec::new(alloc);
    for n in 0..flat.lines().len() {
        put_origin(alloc, &mut found, traces, calls, flat, n)?;
    }
    Ok(found)
}
