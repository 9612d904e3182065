//! Operands as the words of an image and the debugger's slots number them: the one table of their codes.

use crate::program::Loc;

/// The code of the first variable.
const FIRST_VARIABLE: u16 = 0x4000;

/// The code of the first field of the first instance.
const FIRST_FIELD: u16 = 0x5000;

/// The code of the first constant.
pub const FIRST_CONSTANT: u16 = 0x8000;

/// The code of no operand.
const UNUSED: u16 = 0xFFFF;

/// How many codes each instance has, one for each field that a kind can have.
const FIELDS: u16 = 8;

/// An operand by numbers in place of names; as a slot it is no constant, and is there.
#[derive(Clone, Copy, PartialEq, Eq)]
pub enum CodedOperand {
    /// A directly represented location (IEC 61131-3:2003, 2.4.1.1).
    Location(Loc),
    /// A declared variable, with a location or without one, in the order of declaration.
    Variable(u16),
    /// A field of a function block instance: the instance in the order of declaration, and the field in its kind.
    Field { instance: u16, field: u8 },
    /// A constant of the image.
    Constant(u16),
    /// None.
    Unused,
}

impl CodedOperand {
    ghost use Rattle.std.specs.Prelude.{◌≡◌, Some, IfSome};
    ghost use Rattle.il_model.specs.declared.coded_operand.CodedOperand.{CodedOperand};
    ghost use Rattle.il_model.specs.CodedOperands.{code_of, with_code, HasOwnCode};

    /// The code; one of 16 bits where it is the operand's own.
    pub fn code(self) -> usize
        ensures { result ≡ code_of self }
    {
        match self {
            CodedOperand::Location(loc) => loc.code(),
            CodedOperand::Variable(i) => FIRST_VARIABLE as usize + i as usize,
            CodedOperand::Field { instance, field } => {
                FIRST_FIELD as usize + (FIELDS as usize * instance as usize + field as usize)
            }
            CodedOperand::Constant(k) => FIRST_CONSTANT as usize + k as usize,
            CodedOperand::Unused => UNUSED as usize,
        }
    }

    /// The operand with that code, or None where no operand has it. Each is the other's inverse.
    pub fn of_code(code: u16) -> Option<CodedOperand>
        ensures value { result ≡ with_code code }
        ensures found { (operand : CodedOperand) → HasOwnCode operand → code_of operand ≡ code → result ≡ Some operand }
        ensures only { IfSome result (λ operand. HasOwnCode operand × (code_of operand ≡ code)) }
    {
        if code < FIRST_VARIABLE {
            let loc = Loc::of_code(code)?;
            Some(CodedOperand::Location(loc))
        } else if code < FIRST_FIELD {
            Some(CodedOperand::Variable(code - FIRST_VARIABLE))
        } else if code < FIRST_CONSTANT {
            Some(CodedOperand::Field {
                instance: (code - FIRST_FIELD) / FIELDS,
                field: ((code - FIRST_FIELD) % FIELDS) as u8,
            })
        } else if code < UNUSED {
            Some(CodedOperand::Constant(code - FIRST_CONSTANT))
        } else {
            Some(CodedOperand::Unused)
        }
    }
}
