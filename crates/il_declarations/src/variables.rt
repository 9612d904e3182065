//! Declarations of variables and function block instances.

ghost use Rattle.std.specs.Prelude.{◌≡◌, IfOk, OnOk, map};
ghost use Rattle.il_model.specs.declared.dialect.Dialect.TheVariants as dialects;
ghost use Rattle.il_reader.specs.Tokens.{token};
ghost use Rattle.il_reader.specs.Grammar.{declaration, block_text};
ghost use Rattle.il_declarations.specs.Resolution.{capitals, new_type, type_of, declared_type, suits, place_as};
ghost use Rattle.il_declarations.specs.Resolution.{variable};
ghost use Rattle.il_declarations.specs.Walk.{Gives, is_full, is_shadowed, new_name, free_location, found_type, plan_of};
ghost use Rattle.il_declarations.specs.Walk.{with_declared};
ghost use Rattle.il_declarations.specs.Walk.{declare_name, declare_located, declare_listed, declare, declare_block, each};
ghost use Rattle.il_declarations.specs.Declaring.{in_block};

use crate::declared::Declared;
use crate::fault::{DeclKind, Failure, FaultAt};
use crate::initial::{first_value, planned_value};
use il_model::{
    BlockKind, Dialect, Instance, Loc, Name, Ty, Value, Variable, capital, is_reserved, is_spelled,
    is_type, loc_type, seen_as,
};
use il_reader::{Block, Declaration, Lexeme, Names};
use std::alloc::{AllocError, Global};

/// What a type word stands for.
#[derive(Clone, Copy, PartialEq, Eq)]
pub enum DeclaredType {
    Elementary(Ty),
    Block(BlockKind),
}

/// What the names of a list are: their type and their first value, where both are good, and whether they're retained.
#[derive(Clone, Copy)]
pub struct Plan {
    pub ty: Option<DeclaredType>,
    pub initial: Value,
    pub retained: bool,
}

/// The fault of a token.
pub fn refused(kind: DeclKind, t: Lexeme) -> Failure
    ensures { result ≡ Failure.Refused (record { kind = kind; left = t.entry.left }) }
{
    Failure::Refused(FaultAt { kind, left: t.left })
}

/// A name in capital letters.
pub fn capital_name(alloc: Global, text: &[u8]) -> Result<Name, AllocError>
    ensures { IfOk result (λ n. n ≡ capitals text.now) }
{
    let mut bytes = Vec::new(alloc);
    for b in text {
        bytes.push(capital(*b))?;
    }
    Ok(Name::of(bytes))
}

/// The type that a word stands for, of those that an extended text alone has.
fn extended_type(word: &[u8]) -> Option<Ty>
    ensures { result ≡ new_type dialects.Extended word.now }
{
    if is_spelled(b"REAL", word) {
        Some(Ty::Real)
    } else if is_spelled(b"WORD", word) {
        Some(Ty::Word)
    } else if is_spelled(b"DWORD", word) {
        Some(Ty::Dword)
    } else {
        None
    }
}

/// The same in a text of a dialect; a plain one has none of them.
fn new_type(dialect: Dialect, word: &[u8]) -> Option<Ty>
    ensures { result ≡ new_type dialect word.now }
{
    match dialect {
        Dialect::Plain => None,
        Dialect::Extended => extended_type(word),
    }
}

fn elementary(dialect: Dialect, word: &[u8]) -> Option<Ty>
    ensures { result ≡ type_of dialect word.now }
{
    if is_spelled(b"BOOL", word) {
        Some(Ty::Bool)
    } else if is_spelled(b"INT", word) {
        Some(Ty::Int)
    } else if is_spelled(b"DINT", word) {
        Some(Ty::Dint)
    } else if is_spelled(b"TIME", word) {
        Some(Ty::Time)
    } else if is_spelled(b"LINT", word) {
        Some(Ty::Lint)
    } else {
        new_type(dialect, word)
    }
}

/// The type that a word stands for, an elementary one or the kind of a function block; None where it is neither.
fn declared_type(
    dialect: Dialect,
    alloc: Global,
    word: &[u8],
) -> Result<Option<DeclaredType>, AllocError>
    ensures { IfOk result (λ ty. ty ≡ declared_type dialect word.now) }
{
    if let Some(ty) = elementary(dialect, word) {
        return Ok(Some(DeclaredType::Elementary(ty)));
    }
    let name = capital_name(alloc, word)?;
    Ok(BlockKind::of_name(name.bytes()).map(DeclaredType::Block))
}

fn has_no_room(dialect: Dialect, ty: Option<DeclaredType>, known: &Declared) -> bool
    ensures { result ≡ is_full dialect ty known.now }
{
    let version = dialect.newest();
    match ty {
        Some(DeclaredType::Elementary(_)) => known.variable_count() >= version.most_variables(),
        Some(DeclaredType::Block(_)) => known.instance_count() >= version.most_instances(),
        None => false,
    }
}

/// Whether it would be a variable and an instance under whose name that one stands.
fn is_shadowed(ty: Option<DeclaredType>, known: &Declared, name: &Name) -> bool
    ensures { result ≡ is_shadowed ty known.now name.now }
{
    match ty {
        Some(DeclaredType::Block(_)) => known.has_under(name),
        _ => known.is_under(name),
    }
}

#[tactic(auto, unfolding(crate::specs::Walk::new_name))]
fn lawful_name(
    dialect: Dialect,
    alloc: Global,
    ty: Option<DeclaredType>,
    known: &Declared,
    t: Lexeme,
) -> Result<Name, Failure>
    ensures { Gives (λ n. n) result (new_name dialect ty known.now (token t.entry)) }
{
    let name = capital_name(alloc, t.text)?;
    if known.is_variable(&name) || known.is_instance(&name) || is_shadowed(ty, known, &name) {
        Err(refused(DeclKind::Duplicate, t))
    } else if is_reserved(name.bytes()) {
        Err(refused(DeclKind::ReservedName, t))
    } else if has_no_room(dialect, ty, known) {
        Err(refused(DeclKind::TooMany, t))
    } else {
        Ok(name)
    }
}

fn location_suits(ty: Option<DeclaredType>, loc: Loc) -> bool
    ensures { result ≡ suits ty loc }
{
    match ty {
        Some(DeclaredType::Elementary(ty)) => is_type(ty, loc_type(seen_as(ty, loc))),
        Some(DeclaredType::Block(_)) => false,
        None => true,
    }
}

/// The location of a variable of that type.
fn place_as(ty: DeclaredType, loc: Loc) -> Loc
    ensures { result ≡ place_as ty loc }
{
    match ty {
        DeclaredType::Elementary(ty) => seen_as(ty, loc),
        DeclaredType::Block(_) => loc,
    }
}

fn unoccupied(
    dialect: Dialect,
    ty: Option<DeclaredType>,
    known: &Declared,
    t: Lexeme,
) -> Result<Loc, Failure>
    ensures { Gives (λ loc. loc) result (free_location dialect ty known.now (token t.entry)) }
{
    match dialect.location(t.text) {
        None => Err(refused(DeclKind::BadLocation, t)),
        Some(loc) => {
            if !location_suits(ty, loc) {
                Err(refused(DeclKind::BadLocation, t))
            } else if known.is_overlapped(loc) {
                Err(refused(DeclKind::Overlap, t))
            } else {
                Ok(loc)
            }
        }
    }
}

fn planned(dialect: Dialect, ty: Option<DeclaredType>, retained: bool, d: &Declaration) -> Plan
    requires { ty ≡ declared_type dialect (declaration d.now).ty.text }
    ensures { result ≡ plan_of dialect (in_block retained (declaration d.now)) }
{
    Plan {
        ty,
        initial: planned_value(dialect, ty, d.initial),
        retained,
    }
}

fn known_type(ty: Option<DeclaredType>, t: Lexeme) -> Result<DeclaredType, Failure>
    ensures { Gives (λ x. x) result (found_type (token t.entry) ty) }
{
    ty.ok_or(refused(DeclKind::UnknownType, t))
}

fn fresh(plan: Plan, name: Name, ty: Ty, location: Option<Loc>) -> Variable
    ensures { result ≡ variable plan.retained name ty location plan.initial }
{
    Variable {
        name,
        ty,
        location,
        initial: plan.initial,
        retained: plan.retained,
    }
}

fn push_declared(
    alloc: Global,
    plan: Plan,
    known: &mut Declared,
    name: Name,
    location: Option<Loc>,
) -> Result<(), AllocError>
    ensures { OnOk result (known.new ≡ with_declared plan known.old name location plan.ty) }
{
    match plan.ty {
        Some(DeclaredType::Elementary(ty)) => {
            known.push_variable(alloc, fresh(plan, name, ty, location))
        }
        Some(DeclaredType::Block(kind)) => {
            let retained = plan.retained;
            known.push_instance(
                alloc,
                Instance {
                    name,
                    kind,
                    retained,
                },
            )
        }
        None => known.push_variable(alloc, fresh(plan, name, Ty::Bool, location)),
    }
}

#[tactic(auto, unfolding(crate::specs::Walk::declare_name))]
fn push_name(
    dialect: Dialect,
    alloc: Global,
    plan: Plan,
    known: &mut Declared,
    t: Lexeme,
) -> Result<(), Failure>
    ensures { Gives (λ u. known.new) result (declare_name dialect plan known.old (token t.entry)) }
{
    let name = lawful_name(dialect, alloc, plan.ty, known, t)?;
    push_declared(alloc, plan, known, name, None)?;
    Ok(())
}

fn push_names(
    dialect: Dialect,
    alloc: Global,
    plan: Plan,
    known: &mut Declared,
    names: &[Lexeme],
) -> Result<(), Failure>
    ensures { Gives (λ u. known.new) result (each (declare_name dialect plan) known.old (map token names.now)) }
{
    for name in names {
        push_name(dialect, alloc, plan, known, *name)?;
    }
    Ok(())
}

#[tactic(auto, unfolding(crate::specs::Walk::declare_located))]
fn declare_at(
    dialect: Dialect,
    alloc: Global,
    retained: bool,
    known: &mut Declared,
    d: &Declaration,
    at: Lexeme,
) -> Result<(), Failure>
    ensures { Gives (λ u. known.new) result
        (declare_located dialect known.old (in_block retained (declaration d.now)) (token at.entry)) }
{
    let written = declared_type(dialect, alloc, d.ty.text)?;
    let name = lawful_name(dialect, alloc, written, known, d.name)?;
    let loc = unoccupied(dialect, written, known, at)?;
    let ty = known_type(written, d.ty)?;
    let initial = first_value(dialect, ty, Some(loc), d.initial)?;
    let plan = Plan {
        ty: Some(ty),
        initial,
        retained,
    };
    push_declared(alloc, plan, known, name, Some(place_as(ty, loc)))?;
    Ok(())
}

#[tactic(auto, unfolding(crate::specs::Walk::declare_listed))]
fn declare_names(
    dialect: Dialect,
    alloc: Global,
    retained: bool,
    known: &mut Declared,
    d: &Declaration,
    more: &[Lexeme],
) -> Result<(), Failure>
    ensures { Gives (λ u. known.new) result
        (declare_listed dialect known.old (in_block retained (declaration d.now)) (map token more.now)) }
{
    let written = declared_type(dialect, alloc, d.ty.text)?;
    let plan = planned(dialect, written, retained, d);
    push_name(dialect, alloc, plan, known, d.name)?;
    push_names(dialect, alloc, plan, known, more)?;
    let ty = known_type(written, d.ty)?;
    first_value(dialect, ty, None, d.initial)?;
    Ok(())
}

fn declare_one(
    dialect: Dialect,
    alloc: Global,
    retained: bool,
    known: &mut Declared,
    d: &Declaration,
) -> Result<(), Failure>
    ensures { Gives (λ u. known.new) result (declare dialect known.old (in_block retained (declaration d.now))) }
{
    match &d.names {
        Names::Located(at) => declare_at(dialect, alloc, retained, known, d, *at),
        Names::More(more) => declare_names(dialect, alloc, retained, known, d, more.as_slice()),
    }
}

fn declare_each(
    dialect: Dialect,
    alloc: Global,
    retained: bool,
    known: &mut Declared,
    declarations: &[Declaration],
) -> Result<(), Failure>
    ensures { Gives (λ u. known.new) result
        (each (declare dialect) known.old (map (λ d. in_block retained (declaration d)) declarations.now)) }
{
    for d in declarations {
        declare_one(dialect, alloc, retained, known, d)?;
    }
    Ok(())
}

/// The variables and instances of a block, behind those before it.
pub fn declare_block(
    dialect: Dialect,
    alloc: Global,
    known: &mut Declared,
    block: &Block,
) -> Result<(), Failure>
    ensures { Gives (λ u. known.new) result (declare_block dialect known.old (block_text block.now)) }
{
    let retained = block.is_retained();
    declare_each(
        dialect,
        alloc,
        retained,
        known,
        block.declarations.as_slice(),
    )
}
