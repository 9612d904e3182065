//! Under which names the outputs show.

ghost use Rattle.std.specs.Prelude.{◌≡◌, IfOk, OnOk, fold, map};
ghost use Rattle.std.specs.List.{flat_map};
ghost use Rattle.plc_page.specs.Outputs.{as_named, declared_output, handed, handed_in, is_load, is_plain, is_same};
ghost use Rattle.plc_page.specs.Outputs.{is_shown, is_store, named_outputs, output_of, passed, spelt, spelt_option};
ghost use Rattle.plc_page.specs.Outputs.{with_new};

use il_loader::Image;
use il_model::{Area, DoubleType, Instr, Loc, Modifier, Name, Op, Operand, Variable, has_dot};
use std::alloc::{AllocError, Global};

/// A name of the program, and its place among the outputs.
#[derive(Drop)]
pub(crate) struct Named {
    pub(crate) name: Vec<u8>,
    pub(crate) place: Loc,
}

/// This name at this place, if there is one and it's among the outputs.
fn output(alloc: Global, name: &Name, place: Option<Loc>) -> Result<Option<Named>, AllocError>
    ensures { IfOk result (λ named. spelt_option named ≡ output_of name.now place) }
{
    let Some(place) = place else {
        return Ok(None);
    };
    if !matches!(place.area(), Area::Output) {
        return Ok(None);
    }
    let name = Vec::from_slice(alloc, name.bytes())?;
    Ok(Some(Named { name, place }))
}

/// Whether an operator has no letters.
fn is_plain(modifier: Modifier) -> bool
    ensures { result ≡ is_plain modifier }
{
    !modifier.negated && !modifier.conditional && !modifier.opens
}

/// Whether an instruction loads its operand as it is.
fn is_load(instr: &Instr) -> bool
    ensures { result ≡ is_load instr.now }
{
    matches!(instr.op, Op::Ld) && is_plain(instr.modifier)
}

/// Whether an instruction stores the current result as it is. It has no label, behind which there is no result.
fn is_store(instr: &Instr) -> bool
    ensures { result ≡ is_store instr.now }
{
    matches!(instr.op, Op::St) && is_plain(instr.modifier)
}

/// A variable of an instance, where an output is what it's passed to.
fn passed(alloc: Global, from: &Operand, to: &Operand) -> Result<Option<Named>, AllocError>
    ensures { IfOk result (λ named. spelt_option named ≡ passed from.now to.now) }
{
    match (from, to) {
        (Operand::Variable(name), Operand::Direct(place)) if has_dot(name.bytes()) => {
            output(alloc, name, Some(*place))
        }
        _ => Ok(None),
    }
}

/// A variable of an instance that this instruction loads and the next one stores at an output.
fn handed(alloc: Global, instr: &Instr, behind: &[Instr]) -> Result<Option<Named>, AllocError>
    ensures { IfOk result (λ named. spelt_option named ≡ handed instr.now behind.now) }
{
    let [next, ..] = behind else {
        return Ok(None);
    };
    if is_load(instr) && is_store(next) {
        passed(alloc, &instr.operand, &next.operand)
    } else {
        Ok(None)
    }
}

/// A place as an instruction names it, where a word is INT and a double word DINT.
fn as_named(place: Loc) -> Loc
    ensures { result ≡ as_named place }
{
    match place {
        Loc::Bit(_, _) | Loc::Word(_, _) => place,
        Loc::Pattern(area, number) => Loc::Word(area, number),
        Loc::Double(area, number, _) => Loc::Double(area, number, DoubleType::Dint),
    }
}

/// Whether an instruction names two places alike.
fn is_same(place: Loc, other: Loc) -> bool
    ensures { result ≡ is_same place other }
{
    as_named(place).code() == as_named(other).code()
}

/// Whether one of these is at that place.
fn is_shown(names: &[Named], place: Loc) -> bool
    ensures { result ≡ is_shown (map spelt names.now) place }
{
    let mut rest = names;
    while let [named, others @ ..] = rest {
        if is_same(named.place, place) {
            return true;
        }
        rest = others;
    }
    false
}

/// Adds one, unless its place is that of one which is there.
fn add(names: &mut Vec<Named>, named: Named) -> Result<(), AllocError>
    ensures { OnOk result (map spelt names.new.items ≡ with_new (map spelt names.old.items) (spelt named)) }
{
    if !is_shown(names.as_slice(), named.place) {
        names.push(named)?;
    }
    Ok(())
}

/// The variables that have a place among the outputs, in the order in which they are declared.
fn declared(alloc: Global, variables: &[Variable]) -> Result<Vec<Named>, AllocError>
    ensures { IfOk result (λ names. map spelt names.items ≡ flat_map declared_output variables.now) }
{
    let mut names = Vec::new(alloc);
    for variable in variables {
        if let Some(named) = output(alloc, &variable.name, variable.location)? {
            names.push(named)?;
        }
    }
    Ok(names)
}

/// These, and behind them those that instructions hand over to other outputs, in their order.
fn with_handed(
    alloc: Global,
    declared: Vec<Named>,
    code: &[Instr],
) -> Result<Vec<Named>, AllocError>
    ensures { IfOk result
        (λ names. map spelt names.items ≡ fold with_new (map spelt declared.items) (handed_in code.now)) }
{
    let mut names = declared;
    let mut rest = code;
    while let [instr, behind @ ..] = rest {
        if let Some(named) = handed(alloc, instr, behind)? {
            add(&mut names, named)?;
        }
        rest = behind;
    }
    Ok(names)
}

/// Under which names the outputs of a program show: those of the variables that lie there, in the order in which they
/// are declared. An output where none does, but to which instances hand variables over, as `RUNS` of `M7` is by
/// `CAL M7(RUNS => %QX0.6)`, shows under the full name of the first one.
pub(crate) fn outputs(alloc: Global, image: &Image) -> Result<Vec<Named>, AllocError>
    ensures { IfOk result (λ outputs. map spelt outputs.items ≡ named_outputs image.now) }
{
    let declared = declared(alloc, image.variables())?;
    with_handed(alloc, declared, image.code())
}
