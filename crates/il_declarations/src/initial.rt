//! Initial values (IEC 61131-3:2003, 2.4.2).

ghost use Rattle.std.specs.Prelude.{◌≡◌, option_map};
ghost use Rattle.il_reader.specs.Tokens.{token};
ghost use Rattle.il_declarations.specs.Resolution.{fitting, is_input, written_value};
ghost use Rattle.il_declarations.specs.Walk.{Gives, elementary_value, first_value, planned_value};

use crate::fault::{DeclKind, Failure};
use crate::variables::{DeclaredType, refused};
use il_model::{Area, Dialect, Literal, Loc, Ty, Value, make, make_bare};
use il_reader::Lexeme;

fn fitting(ty: Ty, given: Option<Literal>) -> Option<Value>
    ensures { result ≡ fitting ty given }
{
    match given? {
        Literal::Bare(z) => make_bare(ty, i64::from(z)),
        Literal::Typed(v) => if v.ty() == ty {
            make(ty, v.number())
        } else {
            None
        },
    }
}

fn is_input(location: Option<Loc>) -> bool
    ensures { result ≡ is_input location }
{
    match location {
        Some(loc) => matches!(loc.area(), Area::Input),
        None => false,
    }
}

fn written_value(dialect: Dialect, ty: Ty, location: Option<Loc>, t: Lexeme) -> Option<Value>
    ensures { result ≡ written_value dialect ty location (token t.entry) }
{
    if is_input(location) {
        None
    } else {
        fitting(ty, dialect.literal(t.text))
    }
}

fn elementary_value(
    dialect: Dialect,
    ty: Ty,
    location: Option<Loc>,
    initial: Option<Lexeme>,
) -> Result<Value, Failure>
    ensures { Gives (λ v. v) result (elementary_value dialect ty location (option_map token initial.entry)) }
{
    match initial {
        None => Ok(Value::zero(ty)),
        Some(t) => written_value(dialect, ty, location, t).ok_or(refused(DeclKind::BadInitial, t)),
    }
}

/// The value that a variable starts with; an instance has none, and FALSE stands for it.
pub fn first_value(
    dialect: Dialect,
    ty: DeclaredType,
    location: Option<Loc>,
    initial: Option<Lexeme>,
) -> Result<Value, Failure>
    ensures { Gives (λ v. v) result (first_value dialect ty location (option_map token initial.entry)) }
{
    match (ty, initial) {
        (DeclaredType::Elementary(ty), _) => elementary_value(dialect, ty, location, initial),
        (DeclaredType::Block(_), None) => Ok(Value::Bool(false)),
        (DeclaredType::Block(_), Some(t)) => Err(refused(DeclKind::BadInitial, t)),
    }
}

/// The value that the variables of a list start with, where their type and it are good.
pub fn planned_value(dialect: Dialect, ty: Option<DeclaredType>, initial: Option<Lexeme>) -> Value
    ensures { result ≡ planned_value dialect ty (option_map token initial.entry) }
{
    match (ty, initial) {
        (Some(DeclaredType::Elementary(ty)), None) => Value::zero(ty),
        (Some(DeclaredType::Elementary(ty)), Some(t)) => {
            written_value(dialect, ty, None, t).unwrap_or(Value::Bool(false))
        }
        _ => Value::Bool(false),
    }
}
