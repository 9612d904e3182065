//! Faults of a unit beside those above it that its expansion doesn't show.

ghost use Rattle.std.specs.Prelude.{◌≡◌, ◌++◌, map, is_some, is_none, length, not, ◌&&◌, option_map, option_copied};
ghost use Rattle.std.specs.Prelude.{nat_eq, nat_le, nat_lt, [], IfOk, ◌<◌, ◌^◌, false};
ghost use Rattle.std.specs.List.{list_any};
ghost use Rattle.il_model.specs.Words.{split_last};
ghost use Rattle.il_reader.specs.Tokens.{token};
ghost use Rattle.il_reader.specs.Grammar.{operand, argument, call, arguments_of, behind, operation, declarations};
ghost use Rattle.il_units.specs.Units.{step_text, line_text, Function};
ghost use Rattle.il_units.specs.Words.{capitals};
ghost use Rattle.il_units.specs.Members.{member_named};
ghost use Rattle.il_units.specs.Flats.{unit_named, block_named};
ghost use Rattle.il_units.specs.Expansion.{scope_text};
ghost use Rattle.il_units.specs.Misuse.{◌<+>◌, Tells, fault_if, misused_if, is_unit_name, name_fault, may_have};
ghost use Rattle.il_units.specs.Misuse.{may_lie, is_taken_word};
ghost use Rattle.il_units.specs.Misuse.{may_stay, may_start, is_fitting, is_taken, is_local, is_constant, is_function};
ghost use Rattle.il_units.specs.Misuse.{may_be_instance, is_bare, own_fault, other_fault, type_fault, member_fault};
ghost use Rattle.il_units.specs.Misuse.{members_fault, is_closed, is_closed_member, is_seen_as, is_seen, hides_by};
ghost use Rattle.il_units.specs.Misuse.{field_fault, path_fault};
ghost use Rattle.il_units.specs.Misuse.{operand_fault, is_output, standard_fault, is_suited_as, is_suited, names_field};
ghost use Rattle.il_units.specs.Misuse.{argument_fault, arguments_fault, is_in_out, is_written, passed_fault};
ghost use Rattle.il_units.specs.Misuse.{is_missing, operand_left, is_mismatched, is_of_type};
ghost use Rattle.il_units.specs.Misuse.{own_call_fault, call_fault, writes_by, opened_fault, behind_fault};
ghost use Rattle.il_units.specs.Misuse.{takes_operands, choice_fault, is_used, function_fault, step_fault};
ghost use Rattle.il_units.specs.Misuse.{optional_step_fault, label_fault, line_fault, step_left, begins_at};
ghost use Rattle.il_units.specs.Misuse.{first_fault};
ghost use Rattle.il_units.specs.declared.fault.UnitFault.TheVariants.{TooMany};
ghost use Rattle.il_model.specs.declared.limits.TheConstants.{MOST_INSTRUCTIONS};

use crate::calls::{argued, is_input};
use crate::choices::{Choice, type_of_operand};
use crate::contents::{SectionKind, Step, UnitKind, UnitLine};
use crate::fault::{UnitError, UnitFault, UnitFaultAt};
use crate::flat::{Flat, MOST_DEPTH, block_named, unit_named};
use crate::members::{Member, member_named, type_named, type_word};
use crate::scope::Scope;
use crate::word::{Text, Word};
use il_model::{
    BlockKind, Dialect, MOST_INSTRUCTIONS, Op, Side, Ty, has_dot, is_lawful_name, split_last,
};
use il_reader::{Argument, Behind, Call, Lexeme, Operand};
use std::alloc::{AllocError, Global};

/// A text has at most so many units.
pub const MOST_UNITS: usize = 512;

/// A unit declares at most so many names.
pub const MOST_MEMBERS: usize = 1024;

fn check(wrong: bool, kind: UnitFault, left: usize) -> Result<(), UnitError>
    ensures { Tells result (fault_if wrong kind left) }
{
    if wrong {
        Err(UnitError::Fault(UnitFaultAt { kind, left }))
    } else {
        Ok(())
    }
}

fn check_use(wrong: bool, left: usize) -> Result<(), UnitError>
    ensures { Tells result (misused_if wrong left) }
{
    check(wrong, UnitFault::Misused, left)
}

// ---- the name of a unit

/// Whether a line that begins with the word has a meaning without any unit.
fn is_taken_word(name: &[u8]) -> bool
    ensures { result ≡ is_taken_word name.now }
{
    Dialect::Extended.operator(name).is_some() || Choice::named(name).is_some()
}

fn is_unit_name(name: &[u8]) -> bool
    ensures { result ≡ is_unit_name name.now }
{
    is_lawful_name(name) && (!has_dot(name) && (type_named(name).is_none() && !is_taken_word(name)))
}

/// A unit is called by a name without a dot that no other unit has, and that is no type's and no word of a line.
pub fn check_name(above: &[Flat], name: &[u8], left: usize) -> Result<(), UnitError>
    ensures { Tells result (name_fault above.now name.now left) }
{
    check_use(!is_unit_name(name), left)?;
    check(
        unit_named(above, name).is_some(),
        UnitFault::Duplicate,
        left,
    )?;
    check(above.len() >= MOST_UNITS, UnitFault::TooMany, left)
}

// ---- members

/// Whether units of a kind have variables of a kind.
fn may_have(unit: UnitKind, section: SectionKind) -> bool
    ensures { result ≡ may_have unit section }
{
    match unit {
        UnitKind::FunctionBlock => true,
        UnitKind::Function => match section {
            SectionKind::Output | SectionKind::InOut => false,
            SectionKind::Local | SectionKind::Constant | SectionKind::Input => true,
        },
        UnitKind::Program => match section {
            SectionKind::Local | SectionKind::Constant => true,
            SectionKind::Input | SectionKind::Output | SectionKind::InOut => false,
        },
    }
}

/// Whether variables of a kind may lie at a place.
fn may_lie(unit: UnitKind, section: SectionKind) -> bool
    ensures { result ≡ may_lie unit section }
{
    matches!(unit, UnitKind::Program) && matches!(section, SectionKind::Local)
}

/// Whether variables of a kind may be retained.
fn may_stay(unit: UnitKind, section: SectionKind) -> bool
    ensures { result ≡ may_stay unit section }
{
    match unit {
        UnitKind::Function => false,
        UnitKind::FunctionBlock | UnitKind::Program => match section {
            SectionKind::Constant | SectionKind::InOut => false,
            SectionKind::Local | SectionKind::Input | SectionKind::Output => true,
        },
    }
}

/// Whether a variable of a kind may have, or may lack, a first value.
fn may_start(section: SectionKind, initial: &Option<Word>) -> bool
    ensures { result ≡ may_start section initial.now }
{
    match section {
        SectionKind::Constant => initial.is_some(),
        SectionKind::InOut => initial.is_none(),
        SectionKind::Local | SectionKind::Input | SectionKind::Output => true,
    }
}

fn is_fitting(unit: UnitKind, m: &Member) -> bool
    ensures { result ≡ is_fitting unit m.now }
{
    may_have(unit, m.kind)
        && ((m.place.is_none() || may_lie(unit, m.kind))
            && ((!m.retained || may_stay(unit, m.kind)) && may_start(m.kind, &m.initial)))
}

/// Whether the name is a unit's.
fn is_taken(above: &[Flat], unit: &[u8], left: usize, m: &Member) -> bool
    ensures { result ≡ is_taken above.now unit.now left m.now }
{
    (m.name.left != left && m.name.text.is(unit))
        || unit_named(above, m.name.text.bytes()).is_some()
}

/// Whether a member may be an instance.
fn may_be_instance(unit: UnitKind, m: &Member) -> bool
    ensures { result ≡ may_be_instance unit m.now }
{
    matches!(m.kind, SectionKind::Local) && !matches!(unit, UnitKind::Function)
}

/// A member that is an instance of an own block.
fn check_own(unit: UnitKind, m: &Member, block: &Flat) -> Result<(), UnitError>
    ensures { Tells result (own_fault unit m.now block.now) }
{
    let is_bare = m.place.is_none() && m.initial.is_none();
    check_use(!(may_be_instance(unit, m) && is_bare), m.ty.left)?;
    check_use(block.depth() >= MOST_DEPTH, m.name.left)
}

/// Any other member.
fn check_other(unit: UnitKind, m: &Member) -> Result<(), UnitError>
    ensures { Tells result (other_fault unit m.now) }
{
    let is_standard = BlockKind::of_name(m.ty.text.bytes()).is_some();
    check_use(is_standard && !may_be_instance(unit, m), m.ty.left)?;
    let is_constant = matches!(m.kind, SectionKind::Constant);
    check_use(
        is_constant && type_named(m.ty.text.bytes()).is_none(),
        m.ty.left,
    )
}

fn check_type(above: &[Flat], unit: UnitKind, m: &Member) -> Result<(), UnitError>
    ensures { Tells result (type_fault above.now unit m.now) }
{
    match block_named(above, m.ty.text.bytes()) {
        Some(block) => check_own(unit, m, block),
        None => check_other(unit, m),
    }
}

/// What is known of the unit whose members are checked: the units above, what it is, its name and the place of that.
#[derive(Clone, Copy)]
pub struct Head<'t> {
    pub above: &'t [Flat],
    pub kind: UnitKind,
    pub name: &'t [u8],
    pub left: usize,
}

/// A member behind those before it.
fn check_member(head: Head, before: &[Member], m: &Member) -> Result<(), UnitError>
    ensures { Tells result (member_fault head.entry.above.now head.entry.kind head.entry.name.now head.entry.left
        before.now m.now) }
{
    let name = m.name.text.bytes();
    check_use(has_dot(name), m.name.left)?;
    let is_again = member_named(before, name).is_some();
    let is_duplicate = is_again || is_taken(head.above, head.name, head.left, m);
    check(is_duplicate, UnitFault::Duplicate, m.name.left)?;
    check_use(!is_fitting(head.kind, m), m.name.left)?;
    check_type(head.above, head.kind, m)?;
    check(
        before.len() >= MOST_MEMBERS,
        UnitFault::TooMany,
        m.name.left,
    )
}

/// The members of a unit.
#[tactic(auto, unfolding(crate::specs::Misuse::members_fault))]
pub fn check_members(head: Head, members: &[Member]) -> Result<(), UnitError>
    ensures { Tells result (members_fault head.entry.above.now head.entry.kind head.entry.name.now head.entry.left
        [] members.now) }
{
    for (i, m) in members.iter().enumerate() {
        check_member(head, &members[..i], m)?;
    }
    Ok(())
}

// ---- operands

/// Whether nothing in the unit writes a variable of the kind.
fn is_closed(section: SectionKind) -> bool
    ensures { result ≡ is_closed section }
{
    match section {
        SectionKind::Constant | SectionKind::Input => true,
        SectionKind::Local | SectionKind::Output | SectionKind::InOut => false,
    }
}

fn is_closed_member(m: Option<&Member>) -> bool
    ensures { result ≡ is_closed_member (option_copied m.entry) }
{
    match m {
        Some(m) => is_closed(m.kind),
        None => false,
    }
}

/// Whether texts that use a block see a variable of the kind, and write it.
fn is_seen_as(writes: bool, section: SectionKind) -> bool
    ensures { result ≡ is_seen_as writes section }
{
    match section {
        SectionKind::Input => true,
        SectionKind::Output => !writes,
        SectionKind::Local | SectionKind::Constant | SectionKind::InOut => false,
    }
}

fn is_seen(writes: bool, m: Option<&Member>) -> bool
    ensures { result ≡ is_seen writes (option_copied m.entry) }
{
    match m {
        Some(m) => is_seen_as(writes, m.kind),
        None => false,
    }
}

/// Whether the block hides the field.
fn hides_by(writes: bool, block: Option<&Flat>, field: &[u8]) -> bool
    ensures { result ≡ hides_by writes (option_copied block.entry) field.now }
{
    match block {
        Some(block) => !is_seen(writes, member_named(block.members(), field)),
        None => false,
    }
}

/// The field of an instance.
fn check_field(
    scope: Scope,
    writes: bool,
    left: usize,
    x: &[u8],
    field: &[u8],
) -> Result<(), UnitError>
    ensures { Tells result (field_fault (scope_text scope.entry) writes left x.now field.now) }
{
    let is_unknown = member_named(scope.members, x).is_none();
    check(is_unknown, UnitFault::Undeclared, left)?;
    check_use(hides_by(writes, scope.block_of(x), field), left)
}

/// A variable, or the field of an instance behind the last dot.
fn check_path(scope: Scope, writes: bool, left: usize, name: &[u8]) -> Result<(), UnitError>
    ensures { Tells result (path_fault (scope_text scope.entry) writes left name.now (split_last name.now)) }
{
    match split_last(name) {
        Some((x, field)) => check_field(scope, writes, left, x, field),
        None => check_use(
            writes && is_closed_member(member_named(scope.members, name)),
            left,
        ),
    }
}

fn check_operand(scope: Scope, writes: bool, x: Operand) -> Result<(), UnitError>
    ensures { Tells result (operand_fault (scope_text scope.entry) writes (operand x.entry)) }
{
    match x {
        Operand::Constant(t) => check_use(writes, t.left),
        Operand::Direct(_) => Ok(()),
        Operand::Named(t) => {
            let name = Text::capitals(scope.alloc, t.text)?;
            check_path(scope, writes, t.left, name.bytes())
        }
        Operand::Field(t, f) => {
            let name = Text::capitals(scope.alloc, t.text)?;
            let field = Text::capitals(scope.alloc, f.text)?;
            check_field(scope, writes, t.left, name.bytes(), field.bytes())
        }
    }
}

// ---- calls

fn is_output(side: Side) -> bool
    ensures { result ≡ is_output side }
{
    match side {
        Side::Output => true,
        Side::Input => false,
    }
}

/// An argument of a standard block.
fn check_standard_argument(scope: Scope, a: Argument) -> Result<(), UnitError>
    ensures { Tells result (standard_fault (scope_text scope.entry) (argument a.entry)) }
{
    check_operand(scope, is_output(a.side), a.operand)
}

/// The arguments of a standard block.
#[tactic(auto, unfolding(crate::specs::Misuse::first_fault))]
fn check_standard(scope: Scope, args: &[Argument]) -> Result<(), UnitError>
    ensures { Tells result (first_fault (standard_fault (scope_text scope.entry)) (map argument args.now)) }
{
    for a in args {
        check_standard_argument(scope, *a)?;
    }
    Ok(())
}

/// Whether an argument goes the way of a member of the kind.
fn is_suited_as(side: Side, section: SectionKind) -> bool
    ensures { result ≡ is_suited_as side section }
{
    match side {
        Side::Input => match section {
            SectionKind::Input | SectionKind::InOut => true,
            SectionKind::Local | SectionKind::Constant | SectionKind::Output => false,
        },
        Side::Output => matches!(section, SectionKind::Output),
    }
}

fn is_suited(side: Side, m: Option<&Member>) -> bool
    ensures { result ≡ is_suited side (option_copied m.entry) }
{
    match m {
        Some(m) => is_suited_as(side, m.kind),
        None => false,
    }
}

/// Whether an argument names the field.
fn names_field(alloc: Global, name: &[u8], a: Argument) -> Result<bool, AllocError>
    ensures { IfOk result (λ b. b ≡ names_field name.now (argument a.entry)) }
{
    let field = Text::capitals(alloc, a.field.text)?;
    Ok(field.is(name))
}

/// Whether one of the arguments names the field.
fn is_named(alloc: Global, name: &[u8], args: &[Argument]) -> Result<bool, AllocError>
    ensures { IfOk result (λ b. b ≡ list_any (names_field name.now) (map argument args.now)) }
{
    for a in args {
        let names = names_field(alloc, name, *a)?;
        if names {
            return Ok(true);
        }
    }
    Ok(false)
}

/// An argument behind those before it.
fn check_argument(
    alloc: Global,
    block: &Flat,
    before: &[Argument],
    a: Argument,
) -> Result<(), UnitError>
    ensures { Tells result (argument_fault block.now (map argument before.now) (argument a.entry)) }
{
    let field = Text::capitals(alloc, a.field.text)?;
    let is_again = is_named(alloc, field.bytes(), before)?;
    let suits = is_suited(a.side, argued(alloc, block, a)?);
    check_use(is_again || !suits, a.field.left)
}

#[tactic(auto, unfolding(crate::specs::Misuse::arguments_fault))]
fn check_arguments(alloc: Global, block: &Flat, args: &[Argument]) -> Result<(), UnitError>
    ensures { Tells result (arguments_fault block.now [] (map argument args.now)) }
{
    for (i, a) in args.iter().enumerate() {
        check_argument(alloc, block, &args[..i], *a)?;
    }
    Ok(())
}

/// Whether an argument is written.
fn is_written(side: Side, m: Option<&Member>) -> bool
    ensures { result ≡ is_written side (option_copied m.entry) }
{
    match m {
        Some(m) => is_output(side) || matches!(m.kind, SectionKind::InOut),
        None => is_output(side),
    }
}

/// Where an operand stands.
fn operand_left(x: Operand) -> usize
    ensures { result ≡ operand_left (operand x.entry) }
{
    match x {
        Operand::Constant(t) | Operand::Direct(t) | Operand::Named(t) | Operand::Field(t, _) =>
            t.left,
    }
}

fn is_in_out(section: SectionKind) -> bool
    ensures { result ≡ is_in_out section }
{
    matches!(section, SectionKind::InOut)
}

/// Whether a type is that of a word.
fn is_of_type(word: &Text, given: Option<Ty>) -> bool
    ensures { result ≡ is_of_type word.now given }
{
    match given {
        Some(ty) => word.is(type_word(ty)),
        None => false,
    }
}

/// Whether what is given for a VAR_IN_OUT isn't of that one's type.
fn is_mismatched(m: Option<&Member>, given: Option<Ty>) -> bool
    ensures { result ≡ is_mismatched (option_copied m.entry) given }
{
    match m {
        Some(m) => is_in_out(m.kind) && !is_of_type(&m.ty.text, given),
        None => false,
    }
}

/// What an argument gives.
fn check_passed(scope: Scope, block: &Flat, a: Argument) -> Result<(), UnitError>
    ensures { Tells result (passed_fault (scope_text scope.entry) block.now (argument a.entry)) }
{
    let m = argued(scope.alloc, block, a)?;
    check_operand(scope, is_written(a.side, m), a.operand)?;
    let given = type_of_operand(scope, a.operand)?;
    check_use(is_mismatched(m, given), operand_left(a.operand))
}

#[tactic(auto, unfolding(crate::specs::Misuse::first_fault))]
fn check_all_passed(scope: Scope, block: &Flat, args: &[Argument]) -> Result<(), UnitError>
    ensures { Tells result (first_fault (passed_fault (scope_text scope.entry) block.now) (map argument args.now)) }
{
    for a in args {
        check_passed(scope, block, *a)?;
    }
    Ok(())
}

/// Whether a VAR_IN_OUT is missing.
fn is_missing(alloc: Global, args: &[Argument], m: &Member) -> Result<bool, AllocError>
    ensures { IfOk result (λ b. b ≡ is_missing (map argument args.now) m.now) }
{
    match m.kind {
        SectionKind::InOut => Ok(!is_named(alloc, m.name.text.bytes(), args)?),
        SectionKind::Local | SectionKind::Constant | SectionKind::Input | SectionKind::Output => {
            Ok(false)
        }
    }
}

fn is_one_missing(alloc: Global, args: &[Argument], members: &[Member]) -> Result<bool, AllocError>
    ensures { IfOk result (λ b. b ≡ list_any (is_missing (map argument args.now)) members.now) }
{
    for m in members {
        let missing = is_missing(alloc, args, m)?;
        if missing {
            return Ok(true);
        }
    }
    Ok(false)
}

/// A call of an own block.
fn check_own_call(
    scope: Scope,
    block: &Flat,
    args: &[Argument],
    left: usize,
) -> Result<(), UnitError>
    ensures { Tells result (own_call_fault (scope_text scope.entry) block.now (map argument args.now) left) }
{
    check_arguments(scope.alloc, block, args)?;
    check_all_passed(scope, block, args)?;
    check_use(is_one_missing(scope.alloc, args, block.members())?, left)
}

fn check_call(scope: Scope, c: &Call) -> Result<(), UnitError>
    ensures { Tells result (call_fault (scope_text scope.entry) (call c.now)) }
{
    let name = Text::capitals(scope.alloc, c.instance.text)?;
    check_use(has_dot(name.bytes()), c.instance.left)?;
    match scope.block_of(name.bytes()) {
        Some(block) => check_own_call(scope, block, c.arguments(), c.instance.left),
        None => check_standard(scope, c.arguments()),
    }
}

// ---- lines

/// Whether an operator writes its operand.
fn writes_by(op: Op) -> bool
    ensures { result ≡ writes_by op }
{
    match op {
        Op::St | Op::S | Op::R => true,
        _ => false,
    }
}

fn check_opened(scope: Scope, x: Option<Operand>) -> Result<(), UnitError>
    ensures { Tells result (opened_fault (scope_text scope.entry) (option_map operand x.entry)) }
{
    match x {
        Some(x) => check_operand(scope, false, x),
        None => Ok(()),
    }
}

fn check_behind(scope: Scope, op: Op, b: &Behind) -> Result<(), UnitError>
    ensures { Tells result (behind_fault (scope_text scope.entry) op (behind b.now)) }
{
    match b {
        Behind::Nothing => Ok(()),
        Behind::Given(x) => check_operand(scope, writes_by(op), *x),
        Behind::Target(t) => check_use(has_dot(t.text), t.left),
        Behind::Opened(x) => check_opened(scope, *x),
        Behind::Called(c) => check_call(scope, c),
    }
}

/// Whether a choice has so many operands.
fn takes_operands(choice: Choice, n: usize) -> bool
    ensures { result ≡ takes_operands choice n }
{
    match choice {
        Choice::Limit | Choice::Sel => n == 2,
        Choice::Mux => 2 <= n && n <= 8,
    }
}

fn check_choice(choice: Option<Choice>, n: usize, left: usize) -> Result<(), UnitError>
    ensures { Tells result (choice_fault choice n left) }
{
    match choice {
        Some(choice) => check_use(!takes_operands(choice, n), left),
        None => check(true, UnitFault::Unknown, left),
    }
}

/// Whether an own function is used as it may be, with so many operands.
fn is_used(f: &Flat, n: usize) -> bool
    requires { n < 2 ^ 63 }
    ensures { result ≡ is_used f.now n }
{
    let inputs = f.members().iter().filter(|m| is_input(m)).count();
    matches!(f.kind(), UnitKind::Function) && (f.depth() < MOST_DEPTH && inputs == n + 1)
}

fn check_function(scope: Scope, t: Lexeme, n: usize) -> Result<(), UnitError>
    requires { n < 2 ^ 63 }
    ensures { Tells result (function_fault (unit_named scope.entry.above.now (capitals t.entry.text.now))
        (capitals t.entry.text.now) n t.entry.left) }
{
    let word = Text::capitals(scope.alloc, t.text)?;
    match unit_named(scope.above, word.bytes()) {
        Some(f) => check_use(!is_used(f, n), t.left),
        None => check_choice(Choice::named(word.bytes()), n, t.left),
    }
}

#[tactic(auto, unfolding(crate::specs::Misuse::first_fault))]
fn check_operands(scope: Scope, xs: &[Operand]) -> Result<(), UnitError>
    ensures { Tells result (first_fault (operand_fault (scope_text scope.entry) false) (map operand xs.now)) }
{
    for x in xs {
        check_operand(scope, false, *x)?;
    }
    Ok(())
}

fn check_step(scope: Scope, step: &Step) -> Result<(), UnitError>
    ensures { Tells result (step_fault (scope_text scope.entry) (step_text step.now)) }
{
    match step {
        Step::Operation(o) => check_behind(scope, o.operator.mnemonic.op, &o.behind),
        Step::Function(t, xs) => {
            check_function(scope, *t, xs.len())?;
            check_operands(scope, xs.as_slice())
        }
    }
}

fn check_optional_step(scope: Scope, step: &Option<Step>) -> Result<(), UnitError>
    ensures { Tells result (optional_step_fault (scope_text scope.entry) (option_map step_text step.now)) }
{
    match step {
        Some(step) => check_step(scope, step),
        None => Ok(()),
    }
}

fn check_label(label: Option<Lexeme>) -> Result<(), UnitError>
    ensures { Tells result (label_fault (option_map token label.entry)) }
{
    match label {
        Some(t) => check_use(has_dot(t.text), t.left),
        None => Ok(()),
    }
}

/// A line of a unit.
pub fn check_line(scope: Scope, line: &UnitLine) -> Result<(), UnitError>
    ensures { Tells result (line_fault (scope_text scope.entry) (line_text line.now)) }
{
    check_label(line.label)?;
    check_optional_step(scope, &line.step)
}

fn step_left(step: &Option<Step>) -> usize
    ensures { result ≡ step_left (option_map step_text step.now) }
{
    match step {
        Some(Step::Operation(o)) => o.operator.left,
        Some(Step::Function(t, _)) => t.left,
        None => 0,
    }
}

/// Where a line begins: at its label, its operator, or the name of its function.
fn begins_at(line: &UnitLine) -> usize
    ensures { result ≡ begins_at (line_text line.now).label (line_text line.now).step }
{
    match line.label {
        Some(t) => t.left,
        None => step_left(&line.step),
    }
}

/// Whether there are more lines than a program may have, behind a line.
pub fn check_room(count: usize, line: &UnitLine) -> Result<(), UnitError>
    ensures { Tells result (fault_if (nat_lt MOST_INSTRUCTIONS count) TooMany
        (begins_at (line_text line.now).label (line_text line.now).step)) }
{
    check(
        count > MOST_INSTRUCTIONS,
        UnitFault::TooMany,
        begins_at(line),
    )
}
