//! The types that an instruction needs, and leaves.

ghost use Rattle.std.specs.Prelude.{◌≡◌};
ghost use Rattle.il_model.specs.Settled.{settled_number, first_type};
ghost use Rattle.il_model.specs.Row.{negatable, not_row};
ghost use Rattle.il_model.specs.Row.{row, load_row, store_row, set_row, truth_row, call_row, open_row, opened_row};
ghost use Rattle.il_model.specs.Row.{combine_row, close_row, leave_row, convert_row, function_row};

use crate::limits::MOST_OPEN_PARENTHESES;
use il_values::{Function, Modifier, Op, Ty, Value, joined, make_bare};
use thiserror::Error;

/// Why a program is not typed.
#[derive(Clone, Copy, Debug, PartialEq, Eq, Error)]
pub enum TypeFault {
    /// The current result or the operand is of a type that the operator doesn't take.
    #[error("type mismatch")]
    TypeMismatch,
    /// There is no current result where one is needed.
    #[error("no current result")]
    NoCurrentResult,
    /// A jump goes to a label that stands nowhere.
    #[error("unknown label")]
    UnknownLabel,
    /// A label stands twice.
    #[error("duplicate label")]
    DuplicateLabel,
    /// A parenthesis is closed that isn't open, or open where a label, a jump, a return or the end stands.
    #[error("unbalanced parenthesis")]
    Unbalanced,
    /// More than `MOST_OPEN_PARENTHESES` parentheses are open.
    #[error("too deep")]
    TooDeep,
    /// A literal or an input is written.
    #[error("not writable")]
    NotWritable,
    /// A field that its block hasn't, that is given twice, or in the wrong direction.
    #[error("bad field")]
    BadField,
}

impl TypeFault {
    ghost use Rattle.il_model.specs.Checking.{fault_number};

    /// The number of a fault, from 1 in the order of this page.
    pub fn number(self) -> u8
        ensures { result ≡ fault_number self }
    {
        match self {
            TypeFault::TypeMismatch => 1,
            TypeFault::NoCurrentResult => 2,
            TypeFault::UnknownLabel => 3,
            TypeFault::DuplicateLabel => 4,
            TypeFault::Unbalanced => 5,
            TypeFault::TooDeep => 6,
            TypeFault::NotWritable => 7,
            TypeFault::BadField => 8,
        }
    }
}

/// What an operand is to the typing.
#[derive(Clone, Copy, PartialEq, Eq)]
pub enum OperandKind {
    Absent,
    /// Of a type, and whether it may be written.
    Typed(Ty, bool),
    /// A number that fits no type that its place asks for.
    Misfit,
    Target,
    NoTarget,
    /// A function block instance.
    Instance,
    /// A field that the instance hasn't.
    NoField,
}

/// A deferred operator, with the type of the kept current result.
#[derive(Clone, Copy, PartialEq, Eq)]
pub struct Held {
    pub op: Op,
    pub negated: bool,
    pub ty: Ty,
}

/// What an instruction does to the types.
#[derive(Clone, Copy, PartialEq, Eq)]
pub enum Effect {
    /// The type of the current result is this, or there is none.
    Sets(Option<Ty>),
    /// An operator is deferred.
    Opens(Held, Option<Ty>),
    /// The last deferred operator is applied.
    Closes(Ty),
}

/// What an instruction does to the types, or the first fault.
pub fn row_of(
    cr: Option<Ty>,
    top: Option<Held>,
    depth: usize,
    op: Op,
    modifier: Modifier,
    kind: OperandKind,
) -> Result<Effect, TypeFault>
    ensures { result ≡ row cr top depth op modifier kind }
{
    match op {
        Op::Empty => Ok(Effect::Sets(cr)),
        Op::Ld => load_types(modifier, kind),
        Op::St => store_types(cr, modifier, kind),
        Op::S | Op::R => set_types(cr, kind),
        Op::Not => not_types(cr),
        Op::Jmp | Op::Cal | Op::Ret if depth != 0 => Err(TypeFault::Unbalanced),
        Op::Jmp => match kind {
            OperandKind::Target => leave_types(cr, modifier),
            _ => Err(TypeFault::UnknownLabel),
        },
        Op::Cal => call_types(cr, modifier, kind),
        Op::Ret => leave_types(cr, modifier),
        Op::Close => close_types(cr, top),
        Op::IntToDint => convert_types(cr, Ty::Int, Ty::Dint),
        Op::DintToInt => convert_types(cr, Ty::Dint, Ty::Int),
        Op::DintToLint => convert_types(cr, Ty::Dint, Ty::Lint),
        Op::LintToDint => convert_types(cr, Ty::Lint, Ty::Dint),
        Op::Apply(function) => function_types(cr, function),
        _ => {
            if modifier.opens {
                open_types(cr, depth, op, modifier, kind)
            } else {
                combine_types(cr, op, modifier, kind)
            }
        }
    }
}

/// Whether a value of the type may stand with the letter N or without: with it, where it's a bit string.
fn takes_letter(negated: bool, ty: Ty) -> bool
    ensures { result ≡ negatable negated ty }
{
    !negated || ty.is_bit_string()
}

fn load_types(modifier: Modifier, kind: OperandKind) -> Result<Effect, TypeFault>
    ensures { result ≡ load_row modifier.negated kind }
{
    match kind {
        OperandKind::Typed(ty, _) => {
            if takes_letter(modifier.negated, ty) {
                Ok(Effect::Sets(Some(ty)))
            } else {
                Err(TypeFault::TypeMismatch)
            }
        }
        OperandKind::NoField => Err(TypeFault::BadField),
        _ => Err(TypeFault::TypeMismatch),
    }
}

fn store_types(cr: Option<Ty>, modifier: Modifier, kind: OperandKind) -> Result<Effect, TypeFault>
    ensures { result ≡ store_row cr modifier.negated kind }
{
    if kind == OperandKind::NoField {
        return Err(TypeFault::BadField);
    }
    let OperandKind::Typed(ty, true) = kind else {
        return Err(TypeFault::NotWritable);
    };
    let Some(c) = cr else {
        return Err(TypeFault::NoCurrentResult);
    };
    if c != ty || !takes_letter(modifier.negated, ty) {
        return Err(TypeFault::TypeMismatch);
    }
    Ok(Effect::Sets(cr))
}

fn set_types(cr: Option<Ty>, kind: OperandKind) -> Result<Effect, TypeFault>
    ensures { result ≡ set_row cr kind }
{
    match (kind, cr) {
        (OperandKind::Typed(ty, true), Some(c)) => {
            if ty == Ty::Bool && c == Ty::Bool {
                Ok(Effect::Sets(cr))
            } else {
                Err(TypeFault::TypeMismatch)
            }
        }
        (OperandKind::Typed(_, true), None) => Err(TypeFault::NoCurrentResult),
        (OperandKind::NoField, _) => Err(TypeFault::BadField),
        _ => Err(TypeFault::NotWritable),
    }
}

fn truth_types(cr: Option<Ty>) -> Result<Effect, TypeFault>
    ensures { result ≡ truth_row cr }
{
    match cr {
        Some(Ty::Bool) => Ok(Effect::Sets(cr)),
        Some(_) => Err(TypeFault::TypeMismatch),
        None => Err(TypeFault::NoCurrentResult),
    }
}

fn not_types(cr: Option<Ty>) -> Result<Effect, TypeFault>
    ensures { result ≡ not_row cr }
{
    match cr {
        Some(ty) => if ty.is_bit_string() {
            Ok(Effect::Sets(cr))
        } else {
            Err(TypeFault::TypeMismatch)
        },
        None => Err(TypeFault::NoCurrentResult),
    }
}

fn leave_types(cr: Option<Ty>, modifier: Modifier) -> Result<Effect, TypeFault>
    ensures { result ≡ leave_row cr modifier.conditional }
{
    if modifier.conditional {
        truth_types(cr)
    } else {
        Ok(Effect::Sets(None))
    }
}

/// A call leaves the current result as it was.
fn call_types(cr: Option<Ty>, modifier: Modifier, kind: OperandKind) -> Result<Effect, TypeFault>
    ensures { result ≡ call_row cr modifier.conditional kind }
{
    match kind {
        OperandKind::Instance => {
            if modifier.conditional {
                truth_types(cr)
            } else {
                Ok(Effect::Sets(cr))
            }
        }
        _ => Err(TypeFault::BadField),
    }
}

fn close_types(cr: Option<Ty>, top: Option<Held>) -> Result<Effect, TypeFault>
    ensures { result ≡ close_row cr top }
{
    let Some(held) = top else {
        return Err(TypeFault::Unbalanced);
    };
    let Some(c) = cr else {
        return Err(TypeFault::NoCurrentResult);
    };
    if !takes_letter(held.negated, c) {
        return Err(TypeFault::TypeMismatch);
    }
    match joined(held.op, held.ty, c) {
        Some(ty) => Ok(Effect::Closes(ty)),
        None => Err(TypeFault::TypeMismatch),
    }
}

fn convert_types(cr: Option<Ty>, from: Ty, to: Ty) -> Result<Effect, TypeFault>
    ensures { result ≡ convert_row cr from to }
{
    match cr {
        Some(c) => if c == from {
            Ok(Effect::Sets(Some(to)))
        } else {
            Err(TypeFault::TypeMismatch)
        },
        None => Err(TypeFault::NoCurrentResult),
    }
}

fn function_types(cr: Option<Ty>, function: Function) -> Result<Effect, TypeFault>
    ensures { result ≡ function_row cr function }
{
    let Some(c) = cr else {
        return Err(TypeFault::NoCurrentResult);
    };
    match function.type_of(c) {
        Some(after) => Ok(Effect::Sets(Some(after))),
        None => Err(TypeFault::TypeMismatch),
    }
}

fn open_types(
    cr: Option<Ty>,
    depth: usize,
    op: Op,
    modifier: Modifier,
    kind: OperandKind,
) -> Result<Effect, TypeFault>
    ensures { result ≡ open_row cr depth op modifier.negated kind }
{
    if depth >= MOST_OPEN_PARENTHESES {
        return Err(TypeFault::TooDeep);
    }
    opened_types(cr, op, modifier, kind)
}

/// The deferred operator has to take the type of the current result.
fn opened_types(
    cr: Option<Ty>,
    op: Op,
    modifier: Modifier,
    kind: OperandKind,
) -> Result<Effect, TypeFault>
    ensures { result ≡ opened_row cr op modifier.negated kind }
{
    if kind == OperandKind::NoField {
        return Err(TypeFault::BadField);
    }
    let Some(c) = cr else {
        return Err(TypeFault::NoCurrentResult);
    };
    if joined(op, c, c).is_none() {
        return Err(TypeFault::TypeMismatch);
    }
    let held = Held {
        op,
        negated: modifier.negated,
        ty: c,
    };
    match kind {
        OperandKind::Absent => Ok(Effect::Opens(held, None)),
        OperandKind::Typed(ty, _) => Ok(Effect::Opens(held, Some(ty))),
        _ => Err(TypeFault::TypeMismatch),
    }
}

fn combine_types(
    cr: Option<Ty>,
    op: Op,
    modifier: Modifier,
    kind: OperandKind,
) -> Result<Effect, TypeFault>
    ensures { result ≡ combine_row cr op modifier.negated kind }
{
    if kind == OperandKind::NoField {
        return Err(TypeFault::BadField);
    }
    let Some(c) = cr else {
        return Err(TypeFault::NoCurrentResult);
    };
    let OperandKind::Typed(ty, _) = kind else {
        return Err(TypeFault::TypeMismatch);
    };
    if !takes_letter(modifier.negated, ty) {
        return Err(TypeFault::TypeMismatch);
    }
    match joined(op, c, ty) {
        Some(after) => Ok(Effect::Sets(Some(after))),
        None => Err(TypeFault::TypeMismatch),
    }
}

impl Default for Held {
    fn default() -> Held {
        Held {
            op: Op::Empty,
            negated: false,
            ty: Ty::Bool,
        }
    }
}

/// The type of a bare number after LD or an opening parenthesis.
fn first_type(z: i32) -> Ty
    ensures { result ≡ first_type z }
{
    if -32768 <= z && z < 32768 {
        Ty::Int
    } else {
        Ty::Dint
    }
}

/// The value of a bare number at its place, if it fits the type that is asked for there.
pub fn settle(cr: Option<Ty>, op: Op, opens: bool, z: i32) -> Option<Value>
    ensures { result ≡ settled_number cr op opens z }
{
    let wanted = match op {
        Op::Ld => Some(first_type(z)),
        Op::Shift(_) => Some(Ty::Int),
        _ => if opens { Some(first_type(z)) } else { cr },
    };
    make_bare(wanted?, z as i64)
}
