//! The numbers that stand for the parts of a program in an image, both ways.

ghost use Rattle.std.specs.Prelude.{◌≡◌, ◌<◌, ◌^◌, Some, false};
ghost use Rattle.std.specs.List.{list_all};
ghost use Rattle.il_model.specs.declared.codes.OperandForm.TheVariants as forms;
ghost use Rattle.il_model.specs.declared.program.Argument.{Argument};
ghost use Rattle.il_model.specs.Image.{type_code, location_code, version_number, type_version, op_version};
ghost use Rattle.il_values.specs.OpCodes.{op_code};
ghost use Rattle.il_model.specs.Image.{location_version, place_version, operand_version, retained_version, may_have};
ghost use Rattle.il_model.specs.Image.{may_lie, may_retain, may_declare, may_instantiate, may_keep, declared_code};
ghost use Rattle.il_model.specs.Image.{name_version, may_call, may_label};
ghost use Rattle.il_model.specs.Image.{may_name, may_write, may_have_all, suffices, version_with, flag};
ghost use Rattle.il_model.specs.Image.{modifier_code, side_code};
ghost use Rattle.il_model.specs.Constants.{operands_in};
ghost use Rattle.il_model.specs.Codes.{longest_name, length_in};
ghost use Rattle.il_model.specs.Codes.{type_of, type_in, op_in, version_numbered, is_type, may_start_with};
ghost use Rattle.il_model.specs.Codes.{initial_of, modifier_of, usage_of, allows, has_form, allowed_by};
ghost use Rattle.il_values.specs.OpCodes.{op_of};
ghost use Rattle.il_model.specs.Codes.{formed_by, letters_of, side_of, is_pointless, retained_in, plain_code};

use crate::coded_operand::CodedOperand;
use crate::limits::{LONGEST_DOTTED_NAME, LONGEST_NAME};
use crate::name::{Name, has_dot};
use crate::program::{Argument, Instance, Instr, Loc, Operand, Side, Variable};
use crate::resolve::in_writable_area;
use il_values::{Modifier, Op, Ty, Value, make};

/// How each image begins.
pub const MAGIC: [u8; 4] = *b"ILPC";

/// So much more is the code of a declaration where what is declared is retained: bit 7 is set.
pub const RETAINED: u8 = 0x80;

/// The code of a type.
pub fn type_code(ty: Ty) -> usize
    ensures code { result ≡ type_code ty }
    ensures small { result < 2 ^ 8 }
{
    match ty {
        Ty::Bool => 0,
        Ty::Int => 1,
        Ty::Dint => 2,
        Ty::Time => 3,
        Ty::Lint => 4,
        Ty::Real => 5,
        Ty::Word => 6,
        Ty::Dword => 7,
    }
}

/// The type of a code.
pub fn type_of(code: u8) -> Option<Ty>
    ensures { result ≡ type_of code }
{
    match code {
        0 => Some(Ty::Bool),
        1 => Some(Ty::Int),
        2 => Some(Ty::Dint),
        3 => Some(Ty::Time),
        4 => Some(Ty::Lint),
        5 => Some(Ty::Real),
        6 => Some(Ty::Word),
        7 => Some(Ty::Dword),
        _ => None,
    }
}

/// The code of a location, or of none.
pub fn location_code(location: Option<Loc>) -> usize
    ensures { result ≡ location_code location }
{
    match location {
        Some(loc) => CodedOperand::Location(loc).code(),
        None => CodedOperand::Unused.code(),
    }
}

/// Whether a type is that of a location.
pub fn is_type(ty: Ty, other: Option<Ty>) -> bool
    ensures { result ≡ is_type ty other }
{
    match other {
        Some(other) => ty == other,
        None => false,
    }
}

/// The version of an image: from the second on each initial value and constant has 64 bits; the third came with REAL,
/// bit strings, MIN, MAX, shifts and functions, double words and what is retained, and has room for more of each.
#[derive(Clone, Copy, PartialEq, Eq)]
pub enum Version {
    One,
    Two,
    Three,
}

impl Version {
    /// The version with a number.
    pub fn of_number(number: u16) -> Option<Version>
        ensures { result ≡ version_numbered number }
    {
        match number {
            1 => Some(Version::One),
            2 => Some(Version::Two),
            3 => Some(Version::Three),
            _ => None,
        }
    }

    /// Its number, from 1.
    pub fn number(self) -> u16
        ensures { result ≡ version_number self }
    {
        match self {
            Version::One => 1,
            Version::Two => 2,
            Version::Three => 3,
        }
    }
}

impl Version {
    /// Whether an image of this version may have what came with another.
    pub fn may_have(self, needed: Version) -> bool
        ensures { result ≡ may_have self needed }
    {
        match (self, needed) {
            (Version::One, Version::Two | Version::Three) | (Version::Two, Version::Three) => false,
            _ => true,
        }
    }

    /// Whether a variable of an image of this version may lie there.
    pub fn may_lie(self, location: Option<Loc>) -> bool
        ensures { result ≡ may_lie self location }
    {
        self.may_have(place_version(location))
    }

    /// Whether an image of this version may have a variable or an instance that is so: retained, or not.
    pub fn may_retain(self, retained: bool) -> bool
        ensures { result ≡ may_retain self retained }
    {
        self.may_have(retained_version(retained))
    }

    /// Whether an instruction or an argument of an image of this version may have this operand.
    pub fn may_name(self, operand: &Operand) -> bool
        ensures { result ≡ may_name self operand.now }
    {
        self.may_have(operand_version(operand))
    }

    fn may_declare(self, v: &Variable) -> bool
        ensures { result ≡ may_declare self v.now }
    {
        self.may_call(&v.name)
            && self.may_have(type_version(v.ty))
            && self.may_keep(v.initial)
            && self.may_lie(v.location)
            && self.may_retain(v.retained)
    }

    fn may_instantiate(self, x: &Instance) -> bool
        ensures { result ≡ may_instantiate self x.now }
    {
        self.may_call(&x.name) && self.may_retain(x.retained)
    }

    /// Whether an image of this version may have the name.
    pub fn may_call(self, name: &Name) -> bool
        ensures { result ≡ may_call self name.now }
    {
        self.may_have(name_version(name.bytes()))
    }

    fn may_label(self, label: &Option<Name>) -> bool
        ensures { result ≡ may_label self label.now }
    {
        match label {
            Some(name) => self.may_call(name),
            None => true,
        }
    }

    fn may_keep(self, v: Value) -> bool
        ensures { result ≡ may_keep self v }
    {
        self.may_have(type_version(v.ty()))
    }

    fn may_pass(self, argument: &Argument) -> bool
        ensures { result ≡ may_name self argument.now.operand }
    {
        self.may_name(&argument.operand)
    }

    fn may_pass_all(self, arguments: &[Argument]) -> bool
        ensures { result ≡ list_all (λ (a : Argument). may_name self a.operand) arguments.now }
    {
        arguments.iter().all(|a| self.may_pass(a))
    }

    fn may_name_all_in(self, line: &Instr) -> bool
        ensures { result ≡ list_all (may_name self) (operands_in line.now) }
    {
        self.may_name(&line.operand) && self.may_pass_all(line.arguments.as_slice())
    }

    fn may_write(self, line: &Instr) -> bool
        ensures { result ≡ may_write self line.now }
    {
        self.may_label(&line.label)
            && self.may_have(op_version(line.op))
            && self.may_name_all_in(line)
    }

    fn may_declare_all(self, variables: &[Variable]) -> bool
        ensures { result ≡ list_all (may_declare self) variables.now }
    {
        variables.iter().all(|v| self.may_declare(v))
    }

    fn may_instantiate_all(self, instances: &[Instance]) -> bool
        ensures { result ≡ list_all (may_instantiate self) instances.now }
    {
        instances.iter().all(|x| self.may_instantiate(x))
    }

    fn may_keep_all(self, constants: &[Value]) -> bool
        ensures { result ≡ list_all (may_keep self) constants.now }
    {
        constants.iter().all(|v| self.may_keep(*v))
    }

    fn may_write_all(self, code: &[Instr]) -> bool
        ensures { result ≡ list_all (may_write self) code.now }
    {
        code.iter().all(|line| self.may_write(line))
    }

    fn may_have_all(
        self,
        variables: &[Variable],
        instances: &[Instance],
        constants: &[Value],
        code: &[Instr],
    ) -> bool
        ensures { result ≡ may_have_all self variables.now instances.now constants.now code.now }
    {
        self.may_declare_all(variables)
            && self.may_instantiate_all(instances)
            && self.may_keep_all(constants)
            && self.may_write_all(code)
    }

    /// Whether an image of this version may have all of this, and has room for it.
    fn suffices(
        self,
        variables: &[Variable],
        instances: &[Instance],
        constants: &[Value],
        code: &[Instr],
    ) -> bool
        ensures { result ≡ suffices self variables.now instances.now constants.now code.now }
    {
        self.has_room(variables, instances, code)
            && self.may_have_all(variables, instances, constants, code)
    }
}

/// The version that a name came with: one with dots with the third.
pub fn name_version(name: &[u8]) -> Version
    ensures { result ≡ name_version name.now }
{
    if has_dot(name) {
        Version::Three
    } else {
        Version::One
    }
}

/// The version that a type came with.
pub fn type_version(ty: Ty) -> Version
    ensures { result ≡ type_version ty }
{
    match ty {
        Ty::Lint => Version::Two,
        Ty::Real | Ty::Word | Ty::Dword => Version::Three,
        _ => Version::One,
    }
}

/// The version that an operator came with.
pub fn op_version(op: Op) -> Version
    ensures { result ≡ op_version op }
{
    match op {
        Op::DintToLint | Op::LintToDint => Version::Two,
        Op::Min | Op::Max | Op::Shift(_) | Op::Apply(_) => Version::Three,
        _ => Version::One,
    }
}

/// The version that a location came with.
fn location_version(loc: Loc) -> Version
    ensures { result ≡ location_version loc }
{
    match loc {
        Loc::Pattern(_, _) | Loc::Double(_, _, _) => Version::Three,
        _ => Version::One,
    }
}

/// The version that the place of a variable came with.
fn place_version(location: Option<Loc>) -> Version
    ensures { result ≡ place_version location }
{
    match location {
        Some(loc) => location_version(loc),
        None => Version::One,
    }
}

/// The version that an operand came with.
fn operand_version(operand: &Operand) -> Version
    ensures { result ≡ operand_version operand.now }
{
    match operand {
        Operand::Direct(loc) => location_version(*loc),
        _ => Version::One,
    }
}

/// The version that a declaration came with, by whether it says that what it declares is retained.
fn retained_version(retained: bool) -> Version
    ensures { result ≡ retained_version retained }
{
    if retained {
        Version::Three
    } else {
        Version::One
    }
}

/// The version of a program with these variables, instances, constants and instructions: the first that suffices.
pub fn version_with(
    variables: &[Variable],
    instances: &[Instance],
    constants: &[Value],
    code: &[Instr],
) -> Version
    ensures { result ≡ version_with variables.now instances.now constants.now code.now }
{
    if Version::One.suffices(variables, instances, constants, code) {
        Version::One
    } else if Version::Two.suffices(variables, instances, constants, code) {
        Version::Two
    } else {
        Version::Three
    }
}

fn may_start_with(location: Option<Loc>, first: Value) -> bool
    ensures { result ≡ may_start_with location first }
{
    match location {
        Some(loc) => in_writable_area(loc) || first.number() == 0,
        None => true,
    }
}

/// The first value that a number stands for.
pub fn initial_of(ty: Ty, location: Option<Loc>, number: i64) -> Option<Value>
    ensures { result ≡ initial_of ty location number }
{
    let first = make(ty, number)?;
    if may_start_with(location, first) {
        Some(first)
    } else {
        None
    }
}

/// The code of an operator.
pub fn op_code(op: Op) -> usize
    ensures { result ≡ op_code op }
{
    usize::from(op.code())
}

/// The code of a type or of a kind as a declaration has it: bit 7 is set where what is declared is retained.
pub fn declared_code(retained: bool, code: usize) -> usize
    requires { code < 2 ^ 8 }
    ensures { result ≡ declared_code retained code }
{
    flag(retained, RETAINED as usize) + code
}

/// Whether what a declaration's code stands for is retained; none where an image of this version has no such code.
pub fn retained_in(version: Version, code: u8) -> Option<bool>
    ensures { result ≡ retained_in version code }
{
    let retained = code >= RETAINED;
    if version.may_retain(retained) {
        Some(retained)
    } else {
        None
    }
}

/// The code of the type or of the kind in a declaration's code.
pub fn plain_code(code: u8) -> u8
    ensures { result ≡ plain_code code }
{
    if code >= RETAINED {
        code - RETAINED
    } else {
        code
    }
}

/// The type of a code in an image of this version.
pub fn type_in(version: Version, code: u8) -> Option<Ty>
    ensures { result ≡ type_in version code }
{
    let ty = type_of(code)?;
    if version.may_have(type_version(ty)) {
        Some(ty)
    } else {
        None
    }
}

/// The operator of a code in an image of this version.
pub fn op_in(version: Version, code: u8) -> Option<Op>
    ensures { result ≡ op_in version code }
{
    let op = Op::of_code(code)?;
    if version.may_have(op_version(op)) {
        Some(op)
    } else {
        None
    }
}

/// The operator of a code.
pub fn op_of(code: u8) -> Option<Op>
    ensures { result ≡ op_of code }
{
    Op::of_code(code)
}

fn flag(test: bool, n: usize) -> usize
    ensures { result ≡ flag test n }
{
    if test { n } else { 0 }
}

/// The code of a modifier: 1 for N, 2 for C and 4 for an opening parenthesis, summed.
pub fn modifier_code(m: Modifier) -> usize
    ensures { result ≡ modifier_code m }
{
    flag(m.negated, 1) + (flag(m.conditional, 2) + flag(m.opens, 4))
}

fn letters(negated: bool, conditional: bool, opens: bool) -> Option<Modifier>
    ensures { result ≡ Some (record { negated = negated; conditional = conditional; opens = opens }) }
{
    Some(Modifier {
        negated,
        conditional,
        opens,
    })
}

fn modifier_of(code: u8) -> Option<Modifier>
    ensures { result ≡ modifier_of code }
{
    match code {
        0 => letters(false, false, false),
        1 => letters(true, false, false),
        2 => letters(false, true, false),
        3 => letters(true, true, false),
        4 => letters(false, false, true),
        5 => letters(true, false, true),
        _ => None,
    }
}

/// The letters that an operator takes (IEC 61131-3:2003, table 52).
#[derive(Clone, Copy, PartialEq, Eq)]
pub enum LetterSet {
    /// None.
    None,
    /// N or none.
    N,
    /// C, CN or none.
    C,
    /// A parenthesis or none.
    Opens,
    /// N, a parenthesis, both or none.
    NOpens,
}

/// The form of an operator's operand.
#[derive(Clone, Copy, PartialEq, Eq)]
pub enum OperandForm {
    /// There is none.
    Absent,
    /// A constant, a variable, a location or a field of an instance; there may be none behind a parenthesis.
    Value,
    /// A label.
    Label,
    /// A function block instance.
    Instance,
}

/// What may stand beside an operator.
#[derive(Clone, Copy, PartialEq, Eq)]
pub struct Usage {
    pub letters: LetterSet,
    pub form: OperandForm,
}

fn row(letters: LetterSet, form: OperandForm) -> Usage
    ensures { result ≡ record { letters = letters; form = form } }
{
    Usage { letters, form }
}

/// The table of the operators: the letters and the form of operand that each takes.
fn usage_of(op: Op) -> Usage
    ensures { result ≡ usage_of op }
{
    match op {
        Op::Ld | Op::St => row(LetterSet::N, OperandForm::Value),
        Op::S | Op::R | Op::Shift(_) => row(LetterSet::None, OperandForm::Value),
        Op::And | Op::Or | Op::Xor => row(LetterSet::NOpens, OperandForm::Value),
        Op::Add | Op::Sub | Op::Mul | Op::Div | Op::Mod | Op::Min | Op::Max => row(
            LetterSet::Opens,
            OperandForm::Value,
        ),
        Op::Gt | Op::Ge | Op::Eq | Op::Ne | Op::Le | Op::Lt => row(
            LetterSet::Opens,
            OperandForm::Value,
        ),
        Op::Jmp => row(LetterSet::C, OperandForm::Label),
        Op::Ret => row(LetterSet::C, OperandForm::Absent),
        Op::Empty
        | Op::Not
        | Op::Close
        | Op::IntToDint
        | Op::DintToInt
        | Op::DintToLint
        | Op::LintToDint
        | Op::Apply(_) => { row(LetterSet::None, OperandForm::Absent) }
        Op::Cal => row(LetterSet::C, OperandForm::Instance),
    }
}

fn allows(letters: LetterSet, m: Modifier) -> bool
    ensures { result ≡ allows letters m }
{
    match letters {
        LetterSet::None => !m.negated && !m.conditional && !m.opens,
        LetterSet::N => !m.conditional && !m.opens,
        LetterSet::C => (m.conditional || !m.negated) && !m.opens,
        LetterSet::Opens => !m.negated && !m.conditional,
        LetterSet::NOpens => !m.conditional,
    }
}

fn has_form(form: OperandForm, opens: bool, operand: &Operand) -> bool
    ensures { result ≡ has_form form opens operand.now }
{
    match form {
        OperandForm::Absent => matches!(operand, Operand::Absent),
        OperandForm::Value => match operand {
            Operand::Literal(_)
            | Operand::Variable(_)
            | Operand::Direct(_)
            | Operand::Field(_, _) => true,
            Operand::Absent => opens,
            _ => false,
        },
        OperandForm::Label => matches!(operand, Operand::Label(_)),
        OperandForm::Instance => matches!(operand, Operand::Instance(_)),
    }
}

fn allowed(op: Op, m: Modifier) -> bool
    ensures { result ≡ allowed_by (usage_of op) m }
{
    allows(usage_of(op).letters, m)
}

/// Whether an operator with these letters takes this form of operand; types are judged later.
pub fn is_formed(op: Op, m: Modifier, operand: &Operand) -> bool
    ensures { result ≡ formed_by (usage_of op) m operand.now }
{
    has_form(usage_of(op).form, m.opens, operand)
}

/// The letters that a number stands for, if the operator takes them.
pub fn letters_of(op: Op, code: u8) -> Option<Modifier>
    ensures { result ≡ letters_of op code }
{
    let m = modifier_of(code)?;
    if allowed(op, m) { Some(m) } else { None }
}

/// The code of the words of arguments that go this way.
pub fn side_code(side: Side) -> usize
    ensures { result ≡ side_code side }
{
    match side {
        Side::Input => 26,
        Side::Output => 27,
    }
}

/// Which way the arguments go whose words have this code; none where it is no argument's.
pub fn side_of(code: u8) -> Option<Side>
    ensures { result ≡ side_of code }
{
    match code {
        26 => Some(Side::Input),
        27 => Some(Side::Output),
        _ => None,
    }
}

/// Whether an argument may have this form of operand.
pub fn is_passed(operand: &Operand) -> bool
    ensures { result ≡ has_form forms.Value false operand.now }
{
    has_form(OperandForm::Value, false, operand)
}

/// Whether an instruction is an empty one without a label.
pub fn is_pointless(line: &Instr) -> bool
    ensures { result ≡ is_pointless line.now }
{
    line.op == Op::Empty && line.label.is_none()
}

fn longest_name(version: Version) -> u8
    ensures { result ≡ longest_name version }
{
    match version {
        Version::One | Version::Two => LONGEST_NAME as u8,
        Version::Three => LONGEST_DOTTED_NAME as u8,
    }
}

/// The length of a name in an image of this version, if it is one.
pub fn length_in(version: Version, n: u8) -> Option<u8>
    ensures { result ≡ length_in version n }
{
    if 0 < n && n <= longest_name(version) {
        Some(n)
    } else {
        None
    }
}
