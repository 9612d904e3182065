//! What the lines of a unit call.

ghost use Rattle.std.specs.Prelude.{◌≡◌, ◌++◌, map, option_to_list, IfOk, OnOk};
ghost use Rattle.il_reader.specs.Tokens.{token};
ghost use Rattle.il_reader.specs.Grammar.{behind, call};
ghost use Rattle.il_units.specs.Units.{line_text};
ghost use Rattle.il_units.specs.Calls.{back};
ghost use Rattle.il_units.specs.Expansion.{call_name};
ghost use Rattle.il_places.specs.Origins.{type_of, instance_called, function_called, call_behind, call_in, calls_from};

use crate::name::Name;
use il_model::under;
use il_reader::{Behind, Call, Lexeme};
use il_units::{Flat, Step, UnitLine};
use std::alloc::{AllocError, Global};

/// What a line calls: the label behind the body, the name of the unit, and that of the instance, or none where the unit
/// is a function.
#[derive(Drop)]
pub struct CalledUnit {
    pub label: Name,
    pub unit: Name,
    pub instance: Name,
}

/// The label behind the body that the k-th line calls.
fn label_behind(alloc: Global, k: usize) -> Result<Name, AllocError>
    ensures { IfOk result (λ n. n ≡ back (call_name k)) }
{
    let call = format!(in alloc; "C{k}")?;
    Ok(Name::of(under(alloc, call.as_str().as_bytes(), b"RET")?))
}

/// The word of the type of a unit's member, none where there is no such member.
fn type_of(alloc: Global, flat: &Flat, name: &[u8]) -> Result<Name, AllocError>
    ensures { IfOk result (λ n. n ≡ type_of flat.now.members name.now) }
{
    match flat.members().iter().find(|m| m.name.text.is(name)) {
        Some(m) => Ok(Name::of(Vec::from_slice(alloc, m.ty.text.bytes())?)),
        None => Ok(Name::none(alloc)),
    }
}

/// The call of an instance in the k-th line.
fn call_of(alloc: Global, flat: &Flat, k: usize, c: &Call) -> Result<CalledUnit, AllocError>
    ensures { IfOk result (λ u. u ≡ instance_called flat.now.members k (call c.now).instance) }
{
    let instance = Name::capitals(alloc, c.instance.text)?;
    Ok(CalledUnit {
        label: label_behind(alloc, k)?,
        unit: type_of(alloc, flat, instance.bytes())?,
        instance,
    })
}

/// What an operation of the k-th line calls by what stands behind its operator, if it's a call.
fn call_behind(
    alloc: Global,
    flat: &Flat,
    k: usize,
    b: &Behind,
) -> Result<Option<CalledUnit>, AllocError>
    ensures { IfOk result (λ o. o ≡ call_behind flat.now.members k (behind b.now)) }
{
    match b {
        Behind::Called(c) => Ok(Some(call_of(alloc, flat, k, c)?)),
        Behind::Nothing | Behind::Given(_) | Behind::Target(_) | Behind::Opened(_) => Ok(None),
    }
}

/// The call of a function in the k-th line.
fn function_called(alloc: Global, k: usize, t: Lexeme) -> Result<CalledUnit, AllocError>
    ensures { IfOk result (λ u. u ≡ function_called k (token t.entry)) }
{
    Ok(CalledUnit {
        label: label_behind(alloc, k)?,
        unit: Name::capitals(alloc, t.text)?,
        instance: Name::none(alloc),
    })
}

/// What the k-th line calls, if it calls something.
fn call_in(
    alloc: Global,
    flat: &Flat,
    k: usize,
    line: &UnitLine,
) -> Result<Option<CalledUnit>, AllocError>
    ensures { IfOk result (λ o. o ≡ call_in flat.now.members k (line_text line.now).step) }
{
    match &line.step {
        Some(Step::Operation(o)) => call_behind(alloc, flat, k, &o.behind),
        Some(Step::Function(t, _)) => Ok(Some(function_called(alloc, k, *t)?)),
        None => Ok(None),
    }
}

/// Puts what the k-th line calls behind the others.
fn put_call(
    alloc: Global,
    found: &mut Vec<CalledUnit>,
    flat: &Flat,
    k: usize,
    line: &UnitLine,
) -> Result<(), AllocError>
    ensures { OnOk result (found.new.items
        ≡ found.old.items ++ option_to_list (call_in flat.now.members k (line_text line.now).step)) }
{
    if let Some(c) = call_in(alloc, flat, k, line)? {
        found.push(c)?;
    }
    Ok(())
}

/// What the lines of a unit call, counted from 1.
#[tactic(auto, unfolding(crate::specs::Origins::calls_from))]
pub fn calls_in(
    alloc: Global,
    flat: &Flat,
    lines: &[UnitLine],
) -> Result<Vec<CalledUnit>, AllocError>
    ensures { IfOk result (λ v. v.items ≡ calls_from flat.now.members 1 (map line_text lines.now)) }
{
    let mut found = Vec::new(alloc);
    for (i, line) in lines.iter().enumerate() {
        put_call(alloc, &mut found, flat, i + 1, line)?;
    }
    Ok(found)
}
