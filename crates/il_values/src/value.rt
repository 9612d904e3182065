//! Types and values.

ghost use Rattle.std.specs.Prelude.{◌≡◌, ◌^◌};
ghost use Rattle.il_values.specs.Values.{ty_of, zero_of, number_of, real_made, bits_made, typed_value, bare_value};
ghost use Rattle.il_values.specs.Values.{is_bit_string};
ghost use Rattle.il_values.specs.declared.value.Value.TheVariants as values;

use il_real::Real;

/// An elementary type (IEC 61131-3:2003, 2.3.1).
#[derive(Clone, Copy, Debug, PartialEq, Eq)]
pub enum Ty {
    Bool,
    Int,
    Dint,
    Time,
    Lint,
    Real,
    Word,
    Dword,
}

/// A value of a type. A duration counts milliseconds.
#[derive(Clone, Copy, Debug, PartialEq, Eq)]
pub enum Value {
    Bool(bool),
    Int(i16),
    Dint(i32),
    Time(i32),
    Lint(i64),
    Real(Real),
    Word(u16),
    Dword(u32),
}

/// Why a run stops.
#[derive(Clone, Copy, Debug, PartialEq, Eq)]
pub enum Stop {
    /// A result doesn't fit its type.
    Overflow,
    /// The divisor of DIV or MOD is 0.
    ZeroDivisor,
    /// As many instructions were performed as one scan may.
    Budget,
}

impl Stop {
    ghost use Rattle.il_values.specs.Stops.{stop_number};

    /// The number by which frames and printed lines name it, from 1.
    pub fn number(self) -> u8
        ensures { result ≡ stop_number self }
    {
        match self {
            Stop::Overflow => 1,
            Stop::ZeroDivisor => 2,
            Stop::Budget => 3,
        }
    }
}

impl Value {
    /// FALSE, 0, no time, 0.0, or no bit.
    pub fn zero(ty: Ty) -> Value
        ensures { result ≡ zero_of ty }
    {
        match ty {
            Ty::Bool => Value::Bool(false),
            Ty::Int => Value::Int(0),
            Ty::Dint => Value::Dint(0),
            Ty::Time => Value::Time(0),
            Ty::Lint => Value::Lint(0),
            Ty::Real => Value::Real(Real::zero()),
            Ty::Word => Value::Word(0),
            Ty::Dword => Value::Dword(0),
        }
    }

    /// The type of a value.
    pub fn ty(self) -> Ty
        ensures { result ≡ ty_of self }
    {
        match self {
            Value::Bool(_) => Ty::Bool,
            Value::Int(_) => Ty::Int,
            Value::Dint(_) => Ty::Dint,
            Value::Time(_) => Ty::Time,
            Value::Lint(_) => Ty::Lint,
            Value::Real(_) => Ty::Real,
            Value::Word(_) => Ty::Word,
            Value::Dword(_) => Ty::Dword,
        }
    }

    /// The whole number of a value; that of a REAL, of a WORD and of a DWORD is its pattern.
    pub fn number(self) -> i64
        ensures { result ≡ number_of self }
    {
        match self {
            Value::Bool(b) => b as i64,
            Value::Int(z) => z as i64,
            Value::Dint(z) => z as i64,
            Value::Time(z) => z as i64,
            Value::Lint(z) => z,
            Value::Real(r) => r.pattern as i64,
            Value::Word(bits) => i64::from(bits),
            Value::Dword(bits) => i64::from(bits),
        }
    }
}

impl Ty {
    /// Whether it's a bit string: of one bit, of 16 or of 32 (IEC 61131-3:2003, 2.3.2).
    pub fn is_bit_string(self) -> bool
        ensures { result ≡ is_bit_string self }
    {
        match self {
            Ty::Bool | Ty::Word | Ty::Dword => true,
            Ty::Int | Ty::Dint | Ty::Time | Ty::Lint | Ty::Real => false,
        }
    }
}

/// The WORD of a pattern, if that has 16 bits.
fn make_word(z: i64) -> Option<Value>
    ensures { result ≡ bits_made (2 ^ 16) values.Word z }
{
    if 0 <= z && z < 65536 {
        Some(Value::Word(z as u16))
    } else {
        None
    }
}

/// The DWORD of a pattern, if that has 32 bits.
fn make_dword(z: i64) -> Option<Value>
    ensures { result ≡ bits_made (2 ^ 32) values.Dword z }
{
    if 0 <= z && z < 4294967296 {
        Some(Value::Dword(z as u32))
    } else {
        None
    }
}

/// The REAL with a pattern.
fn make_real(z: i64) -> Option<Value>
    ensures { result ≡ real_made z }
{
    if 0 <= z && z < 4294967296 {
        Some(Value::Real(Real::of_pattern(z as u32)?))
    } else {
        None
    }
}

/// The value that a bare number is where a type is asked for, if it fits; none for REAL, which is written with a point.
pub fn make_bare(ty: Ty, z: i64) -> Option<Value>
    ensures { result ≡ bare_value ty z }
{
    match ty {
        Ty::Real => None,
        _ => make(ty, z),
    }
}

/// The value of a type with a number, if that fits.
#[inline(always)]
pub fn make(ty: Ty, z: i64) -> Option<Value>
    ensures { result ≡ typed_value ty z }
{
    match ty {
        Ty::Bool => {
            if z == 0 {
                Some(Value::Bool(false))
            } else if z == 1 {
                Some(Value::Bool(true))
            } else {
                None
            }
        }
        Ty::Int => {
            if -32768 <= z && z < 32768 {
                Some(Value::Int(z as i16))
            } else {
                None
            }
        }
        Ty::Dint => {
            if -2147483648 <= z && z < 2147483648 {
                Some(Value::Dint(z as i32))
            } else {
                None
            }
        }
        Ty::Time => {
            if -2147483648 <= z && z < 2147483648 {
                Some(Value::Time(z as i32))
            } else {
                None
            }
        }
        Ty::Lint => Some(Value::Lint(z)),
        Ty::Real => make_real(z),
        Ty::Word => make_word(z),
        Ty::Dword => make_dword(z),
    }
}

impl Default for Value {
    fn default() -> Value {
        Value::Bool(false)
    }
}
