//! What operands are to the typing.

ghost use Rattle.std.specs.Prelude.{◌≡◌, slice_get};
ghost use Rattle.il_model.specs.Kinds.{kind_fields};
ghost use Rattle.il_model.specs.Typing.{place_type, loc_type, field_at, is_input_field, is_writable, is_writable_area};
ghost use Rattle.il_model.specs.Checking.{source_kind, missing_kind};
ghost use Rattle.il_model.specs.Locations.{area_of};

use crate::limits::{BITS, WORDS};
use crate::location::begins_double;
use crate::{Area, Field, Loc, Operand, OperandKind, Place, Program, Source};
use il_values::Ty;

/// The type of a location: BOOL for a bit, INT for a word, WORD for its pattern, its own for a double word; none past its
/// area.
pub fn loc_type(loc: Loc) -> Option<Ty>
    ensures { result ≡ loc_type loc }
{
    match loc {
        Loc::Bit(_, n) => if (n as usize) < BITS {
            Some(Ty::Bool)
        } else {
            None
        },
        Loc::Word(_, n) => if (n as usize) < WORDS {
            Some(Ty::Int)
        } else {
            None
        },
        Loc::Pattern(_, n) => if (n as usize) < WORDS {
            Some(Ty::Word)
        } else {
            None
        },
        Loc::Double(_, n, ty) => if begins_double(u64::from(n)) {
            Some(ty.ty())
        } else {
            None
        },
    }
}

fn field_at(program: &Program, i: u16, n: u8) -> Option<Field>
    ensures { result ≡ field_at program.now i n }
{
    match program.instances.get(i as usize) {
        Some(x) => x.kind.field(n),
        None => None,
    }
}

fn place_type(program: &Program, place: Place) -> Option<Ty>
    ensures { result ≡ place_type program.now place }
{
    match place {
        Place::Own(i) => match program.variables.get(i as usize) {
            Some(v) => Some(v.ty),
            None => None,
        },
        Place::At(loc) => loc_type(loc),
        Place::Field(i, n) => match field_at(program, i, n) {
            Some(field) => Some(field.ty()),
            None => None,
        },
    }
}

/// Whether a location lies among the outputs or in memory.
pub fn in_writable_area(loc: Loc) -> bool
    ensures { result ≡ is_writable_area (area_of loc) }
{
    !matches!(loc.area(), Area::Input)
}

fn is_input_field(field: Option<Field>) -> bool
    ensures { result ≡ is_input_field field }
{
    match field {
        Some(field) => field.is_input(),
        None => false,
    }
}

fn is_writable(program: &Program, place: Place) -> bool
    ensures { result ≡ is_writable program.now place }
{
    match place {
        Place::Own(_) => true,
        Place::At(loc) => in_writable_area(loc),
        Place::Field(i, n) => is_input_field(field_at(program, i, n)),
    }
}

/// What an operand that stands for something is to the typing.
pub fn kind_of(program: &Program, source: Source) -> OperandKind
    ensures { result ≡ source_kind program.now source }
{
    match source {
        Source::Absent => OperandKind::Absent,
        Source::Constant(v) => OperandKind::Typed(v.ty(), false),
        Source::Of(place) => match place_type(program, place) {
            Some(ty) => OperandKind::Typed(ty, is_writable(program, place)),
            None => OperandKind::Misfit,
        },
        Source::Target(_) => OperandKind::Target,
        Source::Instance(_) => OperandKind::Instance,
    }
}

/// What an operand that stands for nothing is to the typing.
pub fn missing_kind(operand: &Operand) -> OperandKind
    ensures { result ≡ missing_kind operand.now }
{
    match operand {
        Operand::Label(_) => OperandKind::NoTarget,
        Operand::Field(_, _) => OperandKind::NoField,
        _ => OperandKind::Misfit,
    }
}
