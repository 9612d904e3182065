//! The words that operators are written as (IEC 61131-3:2003, table 52), without regard to case.

ghost use Rattle.std.specs.Prelude.{◌≡◌, map};
ghost use Rattle.il_model.specs.Words.{look, mnemonic_of, extended_mnemonic_of};

use il_values::{Modifier, Op, Shift, is_spelled};

/// An operator as it is written in one word: the operator and its letters N and C. A parenthesis is no part of the
/// word.
#[derive(Clone, Copy, PartialEq, Eq)]
pub struct Mnemonic {
    pub op: Op,
    pub modifier: Modifier,
}

const PLAIN: Modifier = Modifier {
    negated: false,
    conditional: false,
    opens: false,
};

const N: Modifier = Modifier {
    negated: true,
    conditional: false,
    opens: false,
};

const C: Modifier = Modifier {
    negated: false,
    conditional: true,
    opens: false,
};

const CN: Modifier = Modifier {
    negated: true,
    conditional: true,
    opens: false,
};

/// Each operator word with what it stands for; of two words for one operator the one that is listed comes first.
pub static MNEMONICS: [(&[u8], Op, Modifier); 39] = [
    (b"LD", Op::Ld, PLAIN),
    (b"LDN", Op::Ld, N),
    (b"ST", Op::St, PLAIN),
    (b"STN", Op::St, N),
    (b"S", Op::S, PLAIN),
    (b"R", Op::R, PLAIN),
    (b"NOT", Op::Not, PLAIN),
    (b"AND", Op::And, PLAIN),
    (b"ANDN", Op::And, N),
    (b"&", Op::And, PLAIN),
    (b"&N", Op::And, N),
    (b"OR", Op::Or, PLAIN),
    (b"ORN", Op::Or, N),
    (b"XOR", Op::Xor, PLAIN),
    (b"XORN", Op::Xor, N),
    (b"ADD", Op::Add, PLAIN),
    (b"SUB", Op::Sub, PLAIN),
    (b"MUL", Op::Mul, PLAIN),
    (b"DIV", Op::Div, PLAIN),
    (b"MOD", Op::Mod, PLAIN),
    (b"GT", Op::Gt, PLAIN),
    (b"GE", Op::Ge, PLAIN),
    (b"EQ", Op::Eq, PLAIN),
    (b"NE", Op::Ne, PLAIN),
    (b"LE", Op::Le, PLAIN),
    (b"LT", Op::Lt, PLAIN),
    (b"JMP", Op::Jmp, PLAIN),
    (b"JMPC", Op::Jmp, C),
    (b"JMPCN", Op::Jmp, CN),
    (b"CAL", Op::Cal, PLAIN),
    (b"CALC", Op::Cal, C),
    (b"CALCN", Op::Cal, CN),
    (b"RET", Op::Ret, PLAIN),
    (b"RETC", Op::Ret, C),
    (b"RETCN", Op::Ret, CN),
    (b"INT_TO_DINT", Op::IntToDint, PLAIN),
    (b"DINT_TO_INT", Op::DintToInt, PLAIN),
    (b"DINT_TO_LINT", Op::DintToLint, PLAIN),
    (b"LINT_TO_DINT", Op::LintToDint, PLAIN),
];

/// The operator words that extended texts have besides.
pub static EXTENDED_MNEMONICS: [(&[u8], Op, Modifier); 6] = [
    (b"MIN", Op::Min, PLAIN),
    (b"MAX", Op::Max, PLAIN),
    (b"SHL", Op::Shift(Shift::Left), PLAIN),
    (b"SHR", Op::Shift(Shift::Right), PLAIN),
    (b"ROL", Op::Shift(Shift::RotateLeft), PLAIN),
    (b"ROR", Op::Shift(Shift::RotateRight), PLAIN),
];

#[tactic(auto, unfolding(crate::specs::Words::look))]
fn looked_up(table: &[(&[u8], Op, Modifier)], text: &[u8]) -> Option<Mnemonic>
    ensures { result ≡ look (map (λ e. (e.0.now, e.1, e.2)) table.now) text.now }
{
    for (word, op, modifier) in table {
        if is_spelled(word, text) {
            return Some(Mnemonic {
                op: *op,
                modifier: *modifier,
            });
        }
    }
    None
}

/// The operator that a text is, without regard to case; None where it is none.
#[tactic(auto, unfolding(crate::specs::Words::mnemonic_of))]
pub fn mnemonic_from(text: &[u8]) -> Option<Mnemonic>
    ensures { result ≡ mnemonic_of text.now }
{
    looked_up(&MNEMONICS, text)
}

/// The operator that a text is in extended texts alone, without regard to case; None where it is none, or a function.
#[tactic(auto, unfolding(crate::specs::Words::extended_mnemonic_of))]
pub fn extended_mnemonic_from(text: &[u8]) -> Option<Mnemonic>
    ensures { result ≡ extended_mnemonic_of text.now }
{
    looked_up(&EXTENDED_MNEMONICS, text)
}
