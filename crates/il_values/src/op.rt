//! Operators and their rows.

ghost use Rattle.std.specs.Prelude.{◌≡◌};
ghost use Rattle.il_values.specs.declared.value.Ty.TheVariants as types;
ghost use Rattle.il_values.specs.OpCodes.{op_code, low_op_of, op_of};
ghost use Rattle.il_values.specs.Values.{ty_of};
ghost use Rattle.il_values.specs.Operators.{joined_type, numeric_type, operation_result, on_numbers, on_truths};
ghost use Rattle.il_values.specs.Operators.{in_type, bounded, quotient, remainder, calculation, real_type};
ghost use Rattle.il_values.specs.Operators.{real_or_overflow, real_quotient, on_reals, bits_type, shift_type, on_bits};
ghost use Rattle.il_values.specs.Operators.{on_shift};
ghost use Rattle.std.specs.Int.{w16, w32};
ghost use Rattle.il_values.specs.declared.value.Value.TheVariants as values;
ghost use Rattle.std.specs.Prelude.{◌*ℤ◌, int_div, int_rem, pos, ◌≢◌};

use crate::function::Function;
use crate::shift::Shift;
use crate::value::{Stop, Ty, Value, make};
use il_real::Real;

/// An operator, in the order of its code.
#[derive(Clone, Copy, Debug, PartialEq, Eq)]
pub enum Op {
    Empty,
    Ld,
    St,
    S,
    R,
    And,
    Or,
    Xor,
    Not,
    Add,
    Sub,
    Mul,
    Div,
    Mod,
    Gt,
    Ge,
    Eq,
    Ne,
    Le,
    Lt,
    Jmp,
    Cal,
    Ret,
    Close,
    IntToDint,
    DintToInt,
    DintToLint,
    LintToDint,
    Min,
    Max,
    /// A shift or a rotation of a bit string, by an INT.
    Shift(Shift),
    /// A standard function of the current result.
    Apply(Function),
}

/// The letters after an operator.
#[derive(Clone, Copy, PartialEq, Eq)]
pub struct Modifier {
    pub negated: bool,
    pub conditional: bool,
    pub opens: bool,
}

impl Op {
    /// The operator of a code. 26 and 27 are the codes of arguments; functions have those from 32, shifts those from 64.
    pub fn of_code(code: u8) -> Option<Op>
        ensures { result ≡ op_of code }
    {
        if code < 32 {
            Op::of_low_code(code)
        } else if code < 64 {
            Some(Op::Apply(Function::of_code(code)?))
        } else {
            Some(Op::Shift(Shift::of_code(code)?))
        }
    }

    fn of_low_code(code: u8) -> Option<Op>
        ensures { result ≡ low_op_of code }
    {
        if code == 28 {
            return Some(Op::DintToLint);
        }
        if code == 29 {
            return Some(Op::LintToDint);
        }
        if code == 30 {
            return Some(Op::Min);
        }
        if code == 31 {
            return Some(Op::Max);
        }
        if code >= 26 {
            return None;
        }
        match code {
            0 => Some(Op::Empty),
            1 => Some(Op::Ld),
            2 => Some(Op::St),
            3 => Some(Op::S),
            4 => Some(Op::R),
            5 => Some(Op::And),
            6 => Some(Op::Or),
            7 => Some(Op::Xor),
            8 => Some(Op::Not),
            9 => Some(Op::Add),
            10 => Some(Op::Sub),
            11 => Some(Op::Mul),
            12 => Some(Op::Div),
            13 => Some(Op::Mod),
            14 => Some(Op::Gt),
            15 => Some(Op::Ge),
            16 => Some(Op::Eq),
            17 => Some(Op::Ne),
            18 => Some(Op::Le),
            19 => Some(Op::Lt),
            20 => Some(Op::Jmp),
            21 => Some(Op::Cal),
            22 => Some(Op::Ret),
            23 => Some(Op::Close),
            24 => Some(Op::IntToDint),
            25 => Some(Op::DintToInt),
            _ => unreachable!(),
        }
    }

    /// The code of an operator.
    pub fn code(self) -> u8
        ensures { result ≡ op_code self }
    {
        match self {
            Op::Empty => 0,
            Op::Ld => 1,
            Op::St => 2,
            Op::S => 3,
            Op::R => 4,
            Op::And => 5,
            Op::Or => 6,
            Op::Xor => 7,
            Op::Not => 8,
            Op::Add => 9,
            Op::Sub => 10,
            Op::Mul => 11,
            Op::Div => 12,
            Op::Mod => 13,
            Op::Gt => 14,
            Op::Ge => 15,
            Op::Eq => 16,
            Op::Ne => 17,
            Op::Le => 18,
            Op::Lt => 19,
            Op::Jmp => 20,
            Op::Cal => 21,
            Op::Ret => 22,
            Op::Close => 23,
            Op::IntToDint => 24,
            Op::DintToInt => 25,
            Op::DintToLint => 28,
            Op::LintToDint => 29,
            Op::Min => 30,
            Op::Max => 31,
            Op::Shift(shift) => shift.code(),
            Op::Apply(function) => function.code(),
        }
    }
}

/// The type that an operator with an operand gives, or none where it has no row at these types.
pub fn joined(op: Op, cr: Ty, operand: Ty) -> Option<Ty>
    ensures { result ≡ joined_type op cr operand }
{
    match (cr, operand) {
        (Ty::Bool, Ty::Bool) => match op {
            Op::And | Op::Or | Op::Xor => Some(Ty::Bool),
            Op::Gt | Op::Ge | Op::Eq | Op::Ne | Op::Le | Op::Lt => Some(Ty::Bool),
            _ => None,
        },
        (Ty::Int, Ty::Int) => numeric(op, Ty::Int),
        (Ty::Dint, Ty::Dint) => numeric(op, Ty::Dint),
        (Ty::Lint, Ty::Lint) => numeric(op, Ty::Lint),
        (Ty::Real, Ty::Real) => real(op),
        (Ty::Word, Ty::Word) | (Ty::Dword, Ty::Dword) => bits(op, cr),
        (Ty::Word | Ty::Dword, Ty::Int) => shifts(op, cr),
        (Ty::Time, Ty::Time) => match op {
            Op::Add | Op::Sub | Op::Min | Op::Max => Some(Ty::Time),
            Op::Gt | Op::Ge | Op::Eq | Op::Ne | Op::Le | Op::Lt => Some(Ty::Bool),
            _ => None,
        },
        _ => None,
    }
}

fn bits(op: Op, ty: Ty) -> Option<Ty>
    ensures { result ≡ bits_type op ty }
{
    match op {
        Op::And | Op::Or | Op::Xor => Some(ty),
        Op::Eq | Op::Ne => Some(Ty::Bool),
        _ => None,
    }
}

fn shifts(op: Op, ty: Ty) -> Option<Ty>
    ensures { result ≡ shift_type op ty }
{
    match op {
        Op::Shift(_) => Some(ty),
        _ => None,
    }
}

fn real(op: Op) -> Option<Ty>
    ensures { result ≡ real_type op }
{
    match op {
        Op::Mod => None,
        _ => numeric(op, Ty::Real),
    }
}

fn numeric(op: Op, ty: Ty) -> Option<Ty>
    ensures { result ≡ numeric_type op ty }
{
    match op {
        Op::Add | Op::Sub | Op::Mul | Op::Div | Op::Mod | Op::Min | Op::Max => Some(ty),
        Op::Gt | Op::Ge | Op::Eq | Op::Ne | Op::Le | Op::Lt => Some(Ty::Bool),
        _ => None,
    }
}

/// An operator on the current result and an operand, or none where it has no row at their types.
#[inline(always)]
pub fn operate(op: Op, cr: Value, operand: Value) -> Option<Result<Value, Stop>>
    ensures { result ≡ operation_result op cr operand }
{
    let (ty, a, b) = match (cr, operand) {
        (Value::Bool(a), Value::Bool(b)) => return truths(op, a, b),
        (Value::Int(a), Value::Int(b)) => (Ty::Int, a as i32, b as i32),
        (Value::Dint(a), Value::Dint(b)) => (Ty::Dint, a, b),
        (Value::Lint(a), Value::Lint(b)) => return long_numbers(op, a, b),
        (Value::Real(a), Value::Real(b)) => return reals(op, a, b),
        (Value::Time(a), Value::Time(b)) => match op {
            Op::Mul | Op::Div | Op::Mod => return None,
            _ => (Ty::Time, a, b),
        },
        (Value::Word(a), Value::Word(b)) => return words(op, a, b),
        (Value::Dword(a), Value::Dword(b)) => return double_words(op, a, b),
        (Value::Word(bits), Value::Int(places)) => return word_and_int(op, bits, places),
        (Value::Dword(bits), Value::Int(places)) => return double_word_and_int(op, bits, places),
        _ => return None,
    };
    numbers(op, ty, a, b)
}

/// An operator on two WORDs, or none where it has no row at WORD.
fn words(op: Op, a: u16, b: u16) -> Option<Result<Value, Stop>>
    ensures { result ≡ on_bits op values.Word a b }
{
    match op {
        Op::And => Some(Ok(Value::Word(a & b))),
        Op::Or => Some(Ok(Value::Word(a | b))),
        Op::Xor => Some(Ok(Value::Word(a ^ b))),
        Op::Eq => Some(Ok(Value::Bool(a == b))),
        Op::Ne => Some(Ok(Value::Bool(a != b))),
        _ => None,
    }
}

/// An operator on two DWORDs, or none where it has no row at DWORD.
fn double_words(op: Op, a: u32, b: u32) -> Option<Result<Value, Stop>>
    ensures { result ≡ on_bits op values.Dword a b }
{
    match op {
        Op::And => Some(Ok(Value::Dword(a & b))),
        Op::Or => Some(Ok(Value::Dword(a | b))),
        Op::Xor => Some(Ok(Value::Dword(a ^ b))),
        Op::Eq => Some(Ok(Value::Bool(a == b))),
        Op::Ne => Some(Ok(Value::Bool(a != b))),
        _ => None,
    }
}

/// An operator on a WORD and an INT, or none where it has no row at their types.
fn word_and_int(op: Op, bits: u16, places: i16) -> Option<Result<Value, Stop>>
    ensures { result ≡ on_shift op w16 values.Word bits places }
{
    match op {
        Op::Shift(shift) => Some(shift.move_word(bits, places)),
        _ => None,
    }
}

/// An operator on a DWORD and an INT, or none where it has no row at their types.
fn double_word_and_int(op: Op, bits: u32, places: i16) -> Option<Result<Value, Stop>>
    ensures { result ≡ on_shift op w32 values.Dword bits places }
{
    match op {
        Op::Shift(shift) => Some(shift.move_double_word(bits, places)),
        _ => None,
    }
}

/// An operator on two truth values, or none where it has no row at BOOL.
#[inline(always)]
pub fn truths(op: Op, a: bool, b: bool) -> Option<Result<Value, Stop>>
    ensures { result ≡ on_truths op a b }
{
    let truth = match op {
        Op::And => a && b,
        Op::Or => a || b,
        Op::Xor => a != b,
        Op::Gt => a && !b,
        Op::Ge => a || !b,
        Op::Eq => a == b,
        Op::Ne => a != b,
        Op::Le => !a || b,
        Op::Lt => !a && b,
        _ => return None,
    };
    Some(Ok(Value::Bool(truth)))
}

/// A REAL, or the stop where there is none.
pub fn real_within(r: Option<Real>) -> Result<Value, Stop>
    ensures { result ≡ real_or_overflow r }
{
    match r {
        Some(r) => Ok(Value::Real(r)),
        None => Err(Stop::Overflow),
    }
}

fn real_quotient(a: Real, b: Real) -> Result<Value, Stop>
    ensures { result ≡ real_quotient a b }
{
    if b.is(Real::zero()) {
        Err(Stop::ZeroDivisor)
    } else {
        real_within(a.over(b))
    }
}

/// An operator on two REALs, or none where it has no row at REAL. It stands apart, as that on numbers of 64 bits does.
#[inline(never)]
pub fn reals(op: Op, a: Real, b: Real) -> Option<Result<Value, Stop>>
    ensures { result ≡ on_reals op a b }
{
    match op {
        Op::Add => Some(real_within(a.plus(b))),
        Op::Sub => Some(real_within(a.minus(b))),
        Op::Mul => Some(real_within(a.times(b))),
        Op::Div => Some(real_quotient(a, b)),
        Op::Min => Some(Ok(Value::Real(if b.is_below(a) { b } else { a }))),
        Op::Max => Some(Ok(Value::Real(if a.is_below(b) { b } else { a }))),
        Op::Gt => Some(Ok(Value::Bool(b.is_below(a)))),
        Op::Ge => Some(Ok(Value::Bool(b.is_at_most(a)))),
        Op::Eq => Some(Ok(Value::Bool(a.is(b)))),
        Op::Ne => Some(Ok(Value::Bool(!a.is(b)))),
        Op::Le => Some(Ok(Value::Bool(a.is_at_most(b)))),
        Op::Lt => Some(Ok(Value::Bool(a.is_below(b)))),
        _ => None,
    }
}

/// The value of a type with a number, or the stop where it doesn't fit.
#[inline(always)]
pub fn within(ty: Ty, z: i64) -> Result<Value, Stop>
    ensures { result ≡ in_type ty z }
{
    make(ty, z).ok_or(Stop::Overflow)
}

/// What an operator gives for two numbers before a type bounds it.
#[derive(Clone, Copy, PartialEq, Eq)]
pub enum Unbounded {
    Number(i64),
    Truth(bool),
    Stopped(Stop),
}

/// What an operator gives for two numbers before their type bounds it; none where it has no row for numbers.
#[inline(always)]
pub fn calculate(op: Op, a: i32, b: i32) -> Option<Unbounded>
    ensures { result ≡ calculation op a b }
{
    let x = a as i64;
    let y = b as i64;
    match op {
        Op::Add => Some(Unbounded::Number(x + y)),
        Op::Sub => Some(Unbounded::Number(x - y)),
        Op::Min => Some(Unbounded::Number(if b < a { y } else { x })),
        Op::Max => Some(Unbounded::Number(if a < b { y } else { x })),
        Op::Mul => Some(Unbounded::Number(multiplied(a, b))),
        Op::Div => Some(quotient(a, b)),
        Op::Mod => Some(remainder(a, b)),
        Op::Gt => Some(Unbounded::Truth(a > b)),
        Op::Ge => Some(Unbounded::Truth(a >= b)),
        Op::Eq => Some(Unbounded::Truth(a == b)),
        Op::Ne => Some(Unbounded::Truth(a != b)),
        Op::Le => Some(Unbounded::Truth(a <= b)),
        Op::Lt => Some(Unbounded::Truth(a < b)),
        _ => None,
    }
}

#[inline(always)]
fn numbers(op: Op, ty: Ty, a: i32, b: i32) -> Option<Result<Value, Stop>>
    ensures { result ≡ on_numbers op ty a b }
{
    match calculate(op, a, b)? {
        Unbounded::Number(z) => Some(within(ty, z)),
        Unbounded::Truth(t) => Some(Ok(Value::Bool(t))),
        Unbounded::Stopped(stop) => Some(Err(stop)),
    }
}

/// An operator on two numbers of 64 bits. It stands apart: what other types do is not to be longer for it.
#[inline(never)]
pub fn long_numbers(op: Op, a: i64, b: i64) -> Option<Result<Value, Stop>>
    ensures { result ≡ on_numbers op types.Lint a b }
{
    match op {
        Op::Add => Some(within_long(a as i128 + b as i128)),
        Op::Sub => Some(within_long(a as i128 - b as i128)),
        Op::Min => Some(Ok(Value::Lint(if b < a { b } else { a }))),
        Op::Max => Some(Ok(Value::Lint(if a < b { b } else { a }))),
        Op::Mul => Some(within_long(long_product(a, b))),
        Op::Div => Some(long_quotient(a, b)),
        Op::Mod => Some(long_remainder(a, b)),
        Op::Gt => Some(Ok(Value::Bool(a > b))),
        Op::Ge => Some(Ok(Value::Bool(a >= b))),
        Op::Eq => Some(Ok(Value::Bool(a == b))),
        Op::Ne => Some(Ok(Value::Bool(a != b))),
        Op::Le => Some(Ok(Value::Bool(a <= b))),
        Op::Lt => Some(Ok(Value::Bool(a < b))),
        _ => None,
    }
}

/// The LINT with a number, or the stop where it doesn't fit.
fn within_long(z: i128) -> Result<Value, Stop>
    ensures { result ≡ in_type types.Lint z }
{
    if -9223372036854775808 <= z && z < 9223372036854775808 {
        Ok(Value::Lint(z as i64))
    } else {
        Err(Stop::Overflow)
    }
}

fn long_product(a: i64, b: i64) -> i128
    ensures { result ≡ a *ℤ b }
{
    a as i128 * b as i128
}

/// The quotient of two LINTs, towards 0; of -2^63 by -1 it's 2^63, which fits no LINT. Inlined, like the rest, since
/// the loop of a run calls it.
#[inline(always)]
pub fn long_divided(a: i64, b: i64) -> i128
    requires { b ≢ pos 0 }
    ensures { result ≡ int_div a b }
{
    if b == -1 {
        -(a as i128)
    } else {
        (a / b) as i128
    }
}

/// The rest of a division of two LINTs, with the sign of the first.
#[inline(always)]
pub fn long_rest(a: i64, b: i64) -> i128
    requires { b ≢ pos 0 }
    ensures { result ≡ int_rem a b }
{
    if b == -1 { 0 } else { (a % b) as i128 }
}

fn long_quotient(a: i64, b: i64) -> Result<Value, Stop>
    ensures { result ≡ bounded types.Lint (quotient a b) }
{
    if b == 0 {
        Err(Stop::ZeroDivisor)
    } else {
        within_long(long_divided(a, b))
    }
}

fn long_remainder(a: i64, b: i64) -> Result<Value, Stop>
    ensures { result ≡ bounded types.Lint (remainder a b) }
{
    if b == 0 {
        Err(Stop::ZeroDivisor)
    } else {
        within_long(long_rest(a, b))
    }
}

#[inline(always)]
fn multiplied(a: i32, b: i32) -> i64
    ensures { result ≡ a *ℤ b }
{
    a as i64 * b as i64
}

#[inline(always)]
fn divide(a: i32, b: i32) -> i64
    requires { b ≢ pos 0 }
    ensures { result ≡ int_div a b }
{
    if b == -1 { -(a as i64) } else { (a / b) as i64 }
}

#[inline(always)]
fn rest(a: i32, b: i32) -> i64
    requires { b ≢ pos 0 }
    ensures { result ≡ int_rem a b }
{
    if b == -1 { 0 } else { (a % b) as i64 }
}

#[inline(always)]
fn quotient(a: i32, b: i32) -> Unbounded
    ensures { result ≡ quotient a b }
{
    if b == 0 {
        Unbounded::Stopped(Stop::ZeroDivisor)
    } else {
        Unbounded::Number(divide(a, b))
    }
}

#[inline(always)]
fn remainder(a: i32, b: i32) -> Unbounded
    ensures { result ≡ remainder a b }
{
    if b == 0 {
        Unbounded::Stopped(Stop::ZeroDivisor)
    } else {
        Unbounded::Number(rest(a, b))
    }
}

impl Default for Op {
    fn default() -> Op {
        Op::Empty
    }
}
