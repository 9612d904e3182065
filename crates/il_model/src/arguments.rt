//! The faults of a call's arguments, and the literals that bare numbers among them are.

ghost use Rattle.std.specs.Prelude.{◌≡◌, [], map, option_and_then, if◌then◌else◌};
ghost use Rattle.std.specs.List.{list_any};
ghost use Rattle.il_model.specs.Words.{same_name};
ghost use Rattle.il_model.specs.Constants.{operand_literal};
ghost use Rattle.il_model.specs.Checking.{fault_rank, tried_first, first_fault, operand_kind, unless_same};
ghost use Rattle.il_model.specs.Checking.{passing_fault};
ghost use Rattle.il_model.specs.Typing.{kind_field};
ghost use Rattle.il_model.specs.Checking.{goes_so, field_fault, argument_fault, arguments_fault, with_fault};
ghost use Rattle.il_model.specs.Settled.{settled_argument, as_settled};

use crate::indexed::IndexedProgram;
use crate::resolve::{kind_of, missing_kind};
use crate::{Argument, BlockKind, Effect, Field, Name, Operand, OperandKind, Side, TypeFault};
use il_values::{Ty, Value, make};

fn rank(fault: TypeFault) -> u8
    ensures { result ≡ fault_rank fault }
{
    match fault {
        TypeFault::DuplicateLabel => 0,
        TypeFault::Unbalanced => 1,
        TypeFault::TooDeep => 2,
        TypeFault::UnknownLabel => 3,
        TypeFault::BadField => 4,
        TypeFault::NotWritable => 5,
        TypeFault::NoCurrentResult => 6,
        TypeFault::TypeMismatch => 7,
    }
}

/// Of two faults of one instruction the one that is tried first.
fn tried_first(f: TypeFault, g: TypeFault) -> TypeFault
    ensures { result ≡ tried_first f g }
{
    if rank(g) < rank(f) { g } else { f }
}

fn first_fault(f: Option<TypeFault>, g: Option<TypeFault>) -> Option<TypeFault>
    ensures { result ≡ first_fault f g }
{
    match (f, g) {
        (Some(f), Some(g)) => Some(tried_first(f, g)),
        (Some(f), None) => Some(f),
        (None, g) => g,
    }
}

fn unless_same(t: Ty, u: Ty) -> Option<TypeFault>
    ensures { result ≡ unless_same t u }
{
    if t == u {
        None
    } else {
        Some(TypeFault::TypeMismatch)
    }
}

fn passing_fault(side: Side, ty: Ty, kind: OperandKind) -> Option<TypeFault>
    ensures { result ≡ passing_fault side ty kind }
{
    match (side, kind) {
        (_, OperandKind::NoField) => Some(TypeFault::BadField),
        (Side::Input, OperandKind::Typed(u, _)) | (Side::Output, OperandKind::Typed(u, true)) => {
            unless_same(ty, u)
        }
        (Side::Input, _) => Some(TypeFault::TypeMismatch),
        (Side::Output, _) => Some(TypeFault::NotWritable),
    }
}

fn goes_so(side: Side, field: Field) -> bool
    ensures { result ≡ goes_so side field }
{
    match side {
        Side::Input => field.is_input(),
        Side::Output => !field.is_input(),
    }
}

fn kind_field(kind: BlockKind, name: &Name) -> Option<Field>
    ensures { result ≡ kind_field kind name.now }
{
    let number = kind.field_number(name.bytes())?;
    kind.field(number)
}

/// The literal that the operand of an argument is, once a bare number that goes into an input has the input's type.
pub fn argument_literal(a: &Argument) -> Option<Value>
    ensures { result ≡ operand_literal (settled_argument a.now).operand }
{
    match (&a.operand, a.side) {
        (Operand::Literal(v), _) => Some(*v),
        (Operand::Bare(z), Side::Input) => {
            let field = Field::of_name(a.field.bytes())?;
            make(field.ty(), i64::from(*z))
        }
        _ => None,
    }
}

fn operand_kind(program: &IndexedProgram, operand: &Operand) -> OperandKind
    ensures { result ≡ operand_kind program.now operand.now }
{
    match program.source_of(operand) {
        Some(source) => kind_of(program.program(), source),
        None => missing_kind(operand),
    }
}

/// What an argument's operand is to the typing, with its bare number settled where that is asked for.
fn passing_kind(program: &IndexedProgram, settles: bool, a: &Argument) -> OperandKind
    ensures { result ≡ operand_kind program.now (as_settled settles a.now).operand }
{
    if !settles {
        return operand_kind(program, &a.operand);
    }
    match argument_literal(a) {
        Some(v) => OperandKind::Typed(v.ty(), false),
        None => operand_kind(program, &a.operand),
    }
}

fn field_fault(
    program: &IndexedProgram,
    settles: bool,
    a: &Argument,
    field: Option<Field>,
) -> Option<TypeFault>
    ensures { result ≡ field_fault program.now (as_settled settles a.now) field }
{
    match field {
        Some(field) => {
            if goes_so(a.side, field) {
                passing_fault(a.side, field.ty(), passing_kind(program, settles, a))
            } else {
                Some(TypeFault::BadField)
            }
        }
        None => Some(TypeFault::BadField),
    }
}

fn is_seen(seen: &[Argument], name: &Name) -> bool
    ensures { result ≡ list_any (λ b. same_name b.field name.now) seen.now }
{
    seen.iter().any(|b| b.field.is(name))
}

pub(crate) fn argument_fault(
    program: &IndexedProgram,
    settles: bool,
    kind: Option<BlockKind>,
    seen: &[Argument],
    a: &Argument,
) -> Option<TypeFault>
    ensures { result ≡ argument_fault program.now kind seen.now (as_settled settles a.now) }
{
    match kind {
        Some(kind) => {
            if is_seen(seen, &a.field) {
                Some(TypeFault::BadField)
            } else {
                field_fault(program, settles, a, kind_field(kind, &a.field))
            }
        }
        None => Some(TypeFault::BadField),
    }
}

/// The fault of a call's arguments that is tried first, if one has any. A bad field comes before all others, so nothing
/// behind it is looked at: at most nine arguments are, since a block has no more than eight fields.
pub fn arguments_fault(
    program: &IndexedProgram,
    settles: bool,
    kind: Option<BlockKind>,
    arguments: &[Argument],
) -> Option<TypeFault>
    ensures { result ≡ arguments_fault program.now kind [] (map (as_settled settles) arguments.now) }
{
    let mut found = None;
    for i in 0..arguments.len() {
        let fault = argument_fault(program, settles, kind, &arguments[..i], &arguments[i]);
        if let Some(TypeFault::BadField) = fault {
            return fault;
        }
        found = first_fault(found, fault);
    }
    found
}

/// What an instruction does to the types, where its arguments have that fault.
pub fn with_fault(
    row: Result<Effect, TypeFault>,
    fault: Option<TypeFault>,
) -> Result<Effect, TypeFault>
    ensures { result ≡ with_fault row fault }
{
    match (row, fault) {
        (row, None) => row,
        (Ok(_), Some(fault)) => Err(fault),
        (Err(first), Some(fault)) => Err(tried_first(first, fault)),
    }
}
