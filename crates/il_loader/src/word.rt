//! Words as they are read.

use il_model::{Instr, Operand, Side};

/// What a word says.
#[derive(Drop)]
pub enum Content {
    /// An instruction, still without its arguments.
    Instruction(Instr),
    /// An argument of the call before it: the number of its field, and its operand.
    Argument(Side, u8, Operand),
}

/// A word, and the number that stood for its operand.
#[derive(Drop)]
pub struct Word {
    pub content: Content,
    pub code: u16,
}
