//! The standard functions of one input, which take the current result and leave another (IEC 61131-3:2003, 2.5.1.5).

ghost use Rattle.std.specs.Prelude.{◌≡◌, ◌-◌, ◌≤◌, map, pos, slice_get};
ghost use Rattle.il_values.specs.declared.value.Ty.TheVariants as types;
ghost use Rattle.il_values.specs.declared.value.Value.TheVariants as values;
ghost use Rattle.il_values.specs.Operators.{in_type};
ghost use Rattle.il_values.specs.Functions.{function_list, function_code, function_type, function_result, whole_in};
ghost use Rattle.il_values.specs.Functions.{look_function, function_named};

use crate::op::{real_within, within};
use crate::spelling::is_spelled;
use crate::value::{Stop, Ty, Value};
use il_real::Real;

/// A standard function of one input, in the order of its code.
#[derive(Clone, Copy, Debug, PartialEq, Eq)]
pub enum Function {
    IntToReal,
    DintToReal,
    LintToReal,
    TimeToReal,
    RealToInt,
    RealToDint,
    RealToLint,
    RealToTime,
    Trunc,
    Abs,
    Sqrt,
    TimeToDint,
    DintToTime,
    /// Leaves the current result as it is.
    Move,
    WordToInt,
    IntToWord,
    DwordToDint,
    DintToDword,
    WordToDword,
    DwordToWord,
}

/// Each function with the word for it.
pub static FUNCTIONS: [(&[u8], Function); 20] = [
    (b"INT_TO_REAL", Function::IntToReal),
    (b"DINT_TO_REAL", Function::DintToReal),
    (b"LINT_TO_REAL", Function::LintToReal),
    (b"TIME_TO_REAL", Function::TimeToReal),
    (b"REAL_TO_INT", Function::RealToInt),
    (b"REAL_TO_DINT", Function::RealToDint),
    (b"REAL_TO_LINT", Function::RealToLint),
    (b"REAL_TO_TIME", Function::RealToTime),
    (b"TRUNC", Function::Trunc),
    (b"ABS", Function::Abs),
    (b"SQRT", Function::Sqrt),
    (b"TIME_TO_DINT", Function::TimeToDint),
    (b"DINT_TO_TIME", Function::DintToTime),
    (b"MOVE", Function::Move),
    (b"WORD_TO_INT", Function::WordToInt),
    (b"INT_TO_WORD", Function::IntToWord),
    (b"DWORD_TO_DINT", Function::DwordToDint),
    (b"DINT_TO_DWORD", Function::DintToDword),
    (b"WORD_TO_DWORD", Function::WordToDword),
    (b"DWORD_TO_WORD", Function::DwordToWord),
];

#[tactic(auto, unfolding(crate::specs::Functions::look_function))]
fn looked_up(table: &[(&[u8], Function)], text: &[u8]) -> Option<Function>
    ensures { result ≡ look_function (map (λ e. (e.0.now, e.1)) table.now) text.now }
{
    for (word, function) in table {
        if is_spelled(word, text) {
            return Some(*function);
        }
    }
    None
}

/// The function that a word names, without regard to case.
#[tactic(auto, unfolding(crate::specs::Functions::function_named))]
pub fn function_from(text: &[u8]) -> Option<Function>
    ensures { result ≡ function_named text.now }
{
    looked_up(&FUNCTIONS, text)
}

impl Function {
    /// The function of a code, which is 32 at least.
    pub fn of_code(code: u8) -> Option<Function>
        requires { 32 ≤ code }
        ensures { result ≡ slice_get function_list (code - 32) }
    {
        if code >= 52 {
            return None;
        }
        match code {
            32 => Some(Function::IntToReal),
            33 => Some(Function::DintToReal),
            34 => Some(Function::LintToReal),
            35 => Some(Function::TimeToReal),
            36 => Some(Function::RealToInt),
            37 => Some(Function::RealToDint),
            38 => Some(Function::RealToLint),
            39 => Some(Function::RealToTime),
            40 => Some(Function::Trunc),
            41 => Some(Function::Abs),
            42 => Some(Function::Sqrt),
            43 => Some(Function::TimeToDint),
            44 => Some(Function::DintToTime),
            45 => Some(Function::Move),
            46 => Some(Function::WordToInt),
            47 => Some(Function::IntToWord),
            48 => Some(Function::DwordToDint),
            49 => Some(Function::DintToDword),
            50 => Some(Function::WordToDword),
            51 => Some(Function::DwordToWord),
            _ => unreachable!(),
        }
    }

    /// The code of a function.
    pub fn code(self) -> u8
        ensures { result ≡ function_code self }
    {
        match self {
            Function::IntToReal => 32,
            Function::DintToReal => 33,
            Function::LintToReal => 34,
            Function::TimeToReal => 35,
            Function::RealToInt => 36,
            Function::RealToDint => 37,
            Function::RealToLint => 38,
            Function::RealToTime => 39,
            Function::Trunc => 40,
            Function::Abs => 41,
            Function::Sqrt => 42,
            Function::TimeToDint => 43,
            Function::DintToTime => 44,
            Function::Move => 45,
            Function::WordToInt => 46,
            Function::IntToWord => 47,
            Function::DwordToDint => 48,
            Function::DintToDword => 49,
            Function::WordToDword => 50,
            Function::DwordToWord => 51,
        }
    }

    /// The type that a function gives for a type, or none where it doesn't take that.
    pub fn type_of(self, ty: Ty) -> Option<Ty>
        ensures { result ≡ function_type self ty }
    {
        match (self, ty) {
            (Function::IntToReal, Ty::Int) => Some(Ty::Real),
            (Function::DintToReal, Ty::Dint) => Some(Ty::Real),
            (Function::LintToReal, Ty::Lint) => Some(Ty::Real),
            (Function::TimeToReal, Ty::Time) => Some(Ty::Real),
            (Function::RealToInt, Ty::Real) => Some(Ty::Int),
            (Function::RealToDint, Ty::Real) => Some(Ty::Dint),
            (Function::RealToLint, Ty::Real) => Some(Ty::Lint),
            (Function::RealToTime, Ty::Real) => Some(Ty::Time),
            (Function::Trunc, Ty::Real) => Some(Ty::Dint),
            (Function::Abs, Ty::Int | Ty::Dint | Ty::Lint | Ty::Real) => Some(ty),
            (Function::Sqrt, Ty::Real) => Some(Ty::Real),
            (Function::TimeToDint, Ty::Time) => Some(Ty::Dint),
            (Function::DintToTime, Ty::Dint) => Some(Ty::Time),
            (Function::Move, _) => Some(ty),
            (Function::WordToInt, Ty::Word) => Some(Ty::Int),
            (Function::IntToWord, Ty::Int) => Some(Ty::Word),
            (Function::DwordToDint, Ty::Dword) => Some(Ty::Dint),
            (Function::DintToDword, Ty::Dint) => Some(Ty::Dword),
            (Function::WordToDword, Ty::Word) => Some(Ty::Dword),
            (Function::DwordToWord, Ty::Dword) => Some(Ty::Word),
            _ => None,
        }
    }

    /// What a function gives for a value, or none where it doesn't take its type.
    pub fn apply(self, v: Value) -> Option<Result<Value, Stop>>
        ensures { result ≡ function_result self v }
    {
        match v {
            Value::Bool(b) => self.apply_to_truth(b),
            Value::Int(z) => self.apply_to_int(z),
            Value::Dint(z) => self.apply_to_dint(z),
            Value::Lint(z) => self.apply_to_lint(z),
            Value::Time(z) => self.apply_to_time(z),
            Value::Real(r) => self.apply_to_real(r),
            Value::Word(bits) => self.apply_to_word(bits),
            Value::Dword(bits) => self.apply_to_double_word(bits),
        }
    }

    fn apply_to_truth(self, b: bool) -> Option<Result<Value, Stop>>
        ensures { result ≡ function_result self (values.Bool b) }
    {
        match self {
            Function::Move => Some(Ok(Value::Bool(b))),
            _ => None,
        }
    }

    fn apply_to_int(self, z: i16) -> Option<Result<Value, Stop>>
        ensures { result ≡ function_result self (values.Int z) }
    {
        match self {
            Function::IntToReal => Some(real_within(Real::of_whole(z as i64))),
            Function::Abs => Some(within(Ty::Int, i64::from(z.unsigned_abs()))),
            Function::Move => Some(Ok(Value::Int(z))),
            Function::IntToWord => Some(Ok(Value::Word(z.cast_unsigned()))),
            _ => None,
        }
    }

    fn apply_to_dint(self, z: i32) -> Option<Result<Value, Stop>>
        ensures { result ≡ function_result self (values.Dint z) }
    {
        match self {
            Function::DintToReal => Some(real_within(Real::of_whole(z as i64))),
            Function::Abs => Some(within(Ty::Dint, i64::from(z.unsigned_abs()))),
            Function::DintToTime => Some(within(Ty::Time, z as i64)),
            Function::Move => Some(Ok(Value::Dint(z))),
            Function::DintToDword => Some(Ok(Value::Dword(z.cast_unsigned()))),
            _ => None,
        }
    }

    fn apply_to_lint(self, z: i64) -> Option<Result<Value, Stop>>
        ensures { result ≡ function_result self (values.Lint z) }
    {
        match self {
            Function::LintToReal => Some(real_within(Real::of_whole(z))),
            Function::Abs => Some(long_within(z.unsigned_abs())),
            Function::Move => Some(Ok(Value::Lint(z))),
            _ => None,
        }
    }

    fn apply_to_time(self, z: i32) -> Option<Result<Value, Stop>>
        ensures { result ≡ function_result self (values.Time z) }
    {
        match self {
            Function::TimeToReal => Some(real_within(Real::of_whole(z as i64))),
            Function::TimeToDint => Some(within(Ty::Dint, z as i64)),
            Function::Move => Some(Ok(Value::Time(z))),
            _ => None,
        }
    }

    fn apply_to_real(self, r: Real) -> Option<Result<Value, Stop>>
        ensures { result ≡ function_result self (values.Real r) }
    {
        match self {
            Function::RealToInt => Some(whole_in(Ty::Int, r.nearest_whole())),
            Function::RealToDint => Some(whole_in(Ty::Dint, r.nearest_whole())),
            Function::RealToLint => Some(whole_in(Ty::Lint, r.nearest_whole())),
            Function::RealToTime => Some(whole_in(Ty::Time, r.nearest_whole())),
            Function::Trunc => Some(whole_in(Ty::Dint, r.whole_part())),
            Function::Abs => Some(real_within(r.magnitude())),
            Function::Sqrt => Some(real_within(r.root())),
            Function::Move => Some(Ok(Value::Real(r))),
            _ => None,
        }
    }

    fn apply_to_word(self, bits: u16) -> Option<Result<Value, Stop>>
        ensures { result ≡ function_result self (values.Word bits) }
    {
        match self {
            Function::Move => Some(Ok(Value::Word(bits))),
            Function::WordToInt => Some(Ok(Value::Int(bits.cast_signed()))),
            Function::WordToDword => Some(Ok(Value::Dword(u32::from(bits)))),
            _ => None,
        }
    }

    fn apply_to_double_word(self, bits: u32) -> Option<Result<Value, Stop>>
        ensures { result ≡ function_result self (values.Dword bits) }
    {
        match self {
            Function::Move => Some(Ok(Value::Dword(bits))),
            Function::DwordToDint => Some(Ok(Value::Dint(bits.cast_signed()))),
            Function::DwordToWord => Some(Ok(Value::Word((bits % 65536) as u16))),
            _ => None,
        }
    }
}

/// The value of a type with a whole number, or the stop where the type doesn't hold it.
fn whole_in(ty: Ty, z: Option<i64>) -> Result<Value, Stop>
    ensures { result ≡ whole_in ty z }
{
    match z {
        Some(z) => within(ty, z),
        None => Err(Stop::Overflow),
    }
}

/// The LINT with a number, or the stop where it doesn't fit.
fn long_within(n: u64) -> Result<Value, Stop>
    ensures { result ≡ in_type types.Lint (pos n) }
{
    if n < 9223372036854775808 {
        Ok(Value::Lint(n as i64))
    } else {
        Err(Stop::Overflow)
    }
}
