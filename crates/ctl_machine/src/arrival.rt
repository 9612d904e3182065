//! The types on arrival at the instructions of an image.

ghost use Rattle.std.specs.Prelude.{◌≡◌, ◌<◌, ◌≤◌, ◌+◌, ◌&&◌, length, map, reverse, Ok, option_map};
ghost use Rattle.il_values.specs.Values.{ty_of};
ghost use Rattle.il_model.specs.Row.{same_type, HasRoom};
ghost use Rattle.il_model.specs.Typing.{shape_on_arrival};
ghost use Rattle.il_model.specs.Checking.{top_of, shape_after, shape_at};
ghost use Rattle.ctl_model.specs.Suits.{held_of};
ghost use Rattle.ctl_model.specs.Snapshots.{same_optional, same_held, all_held};

use il_loader::Image;
use il_model::{Deferred, Held, Ty, Types, Value, kind_of, op_code, row_of};

/// Goes past an instruction.
fn pass(types: &mut Types, image: &Image, n: u16)
    requires within { n < length image.now.code }
    requires types { shape_at image.now n ≡ Ok types.old }
    ensures { shape_at image.now (n + 1) ≡ Ok types.new }
{
    image.know_lawful();
    let _len = image.len();
    let line = image.at(n).fetched();
    let kind = kind_of(image.program(), line.source);
    let depth = types.depth();
    match row_of(types.cr(), types.top(), depth, line.op, line.modifier, kind) {
        Ok(effect) => {
            types.apply(effect);
            types.arrive(image.program(), n as usize + 1);
        }
        Err(_) => unreachable!(),
    }
}

/// The types on arrival at an instruction.
pub fn types_at(image: &Image, n: u16) -> Types
    requires { n < length image.now.code }
    ensures { shape_at image.now n ≡ Ok result }
{
    let mut types = Types::start(image.program());
    for i in 0..n {
        pass(&mut types, image, i);
    }
    types
}

/// Whether a current result and deferred operators, the outermost first, are of these types.
pub fn are_of(types: &Types, cr: Option<Value>, deferred: &[Deferred]) -> bool
    ensures { result ≡ (same_optional (option_map ty_of cr) types.now.cr
        && all_held (map held_of (reverse deferred.now)) types.now.kept) }
{
    is_of(cr, types.cr()) && all_of(deferred, types.held())
}

/// Whether a value is of a type.
pub fn has_type(value: Value, ty: Ty) -> bool
    ensures { result ≡ same_type (ty_of value) ty }
{
    value.ty() == ty
}

fn is_of(cr: Option<Value>, ty: Option<Ty>) -> bool
    ensures { result ≡ same_optional (option_map ty_of cr) ty }
{
    match (cr, ty) {
        (Some(v), Some(t)) => has_type(v, t),
        (None, None) => true,
        _ => false,
    }
}

fn is_held(deferred: Deferred, held: Held) -> bool
    ensures { result ≡ same_held (held_of deferred) held }
{
    op_code(deferred.op) == op_code(held.op)
        && deferred.negated == held.negated
        && has_type(deferred.cr, held.ty)
}

fn all_of(deferred: &[Deferred], held: &[Held]) -> bool
    ensures { result ≡ all_held (map held_of deferred.now) held.now }
{
    if deferred.len() != held.len() {
        return false;
    }
    for i in 0..held.len() {
        if !is_held(deferred[i], held[i]) {
            return false;
        }
    }
    true
}
