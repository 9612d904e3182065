//! Values and operators of the language (IEC 61131-3:2003, 2.3.1, 2.5.1.5, table 52): the values of each type, what an
//! operator and a standard function gives for them, how bit strings are shifted, and the numbers that stand for
//! operators in images. It uses il_real, the values of REAL. il_model exports these names too, and the crates
//! above have them from there.
//!
//! ```rust
//! use il_values::{Op, Stop, Value, operate};
//!
//! assert_eq!(rt; operate(Op::Add, Value::Int(2), Value::Int(3)), Some(Ok(Value::Int(5))));
//! assert_eq!(rt; operate(Op::Add, Value::Int(32767), Value::Int(1)), Some(Err(Stop::Overflow)));
//! ```
//!
//! Proved: an operator gives its result on unbounded numbers, or the stop where that doesn't fit, and of REALs the
//! exact one, rounded once; a function takes the types of its row and gives what that says; a shift fills with 0 and a
//! rotation goes round; an operator is read back from its code.
//!
//! Only tested: nothing; rows of `tests_rows` show it at work.
#![tactic(auto)]

mod function;
mod op;
mod shift;
mod spelling;
mod value;

pub use function::{Function, function_from};
pub use op::{
    Modifier, Op, Unbounded, calculate, joined, long_divided, long_rest, operate, real_within,
    reals, truths, within,
};
pub use shift::{Shift, halves, hex_word};
pub use spelling::{capital, is_spelled};
pub use value::{Stop, Ty, Value, make, make_bare};
