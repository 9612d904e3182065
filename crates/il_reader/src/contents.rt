//! What a text says: its tokens by the places where they stand, as slices of the text.

use crate::lexeme::Lexeme;
use il_model::{Mnemonic, Side};

/// An operator with its letters, and how many bytes the text has from its first one on.
#[derive(Clone, Copy, PartialEq, Eq)]
pub struct Operator {
    pub mnemonic: Mnemonic,
    pub left: usize,
}

/// An operand: a literal (or TRUE or FALSE), a direct address, a variable, or the field of an instance, as `T1.Q`.
#[derive(Clone, Copy)]
pub enum Operand<'a> {
    Constant(Lexeme<'a>),
    Direct(Lexeme<'a>),
    Named(Lexeme<'a>),
    Field(Lexeme<'a>, Lexeme<'a>),
}

/// An argument of a call: `IN := X` or `Q => Y`.
#[derive(Clone, Copy)]
pub struct Argument<'a> {
    pub field: Lexeme<'a>,
    pub side: Side,
    pub operand: Operand<'a>,
}

/// An instance that is called, and the arguments in the order written. `CAL T1` has no parentheses and so no list of
/// them; it is the same call as `CAL T1()`.
#[derive(Drop)]
pub struct Call<'a> {
    pub instance: Lexeme<'a>,
    pub written: Option<Vec<Argument<'a>>>,
}

impl<'a> Call<'a> {
    ghost use Rattle.std.specs.Prelude.{◌≡◌, map};
    ghost use Rattle.il_reader.specs.Grammar.{argument, call, arguments_of};

    /// The arguments in the order written: none without parentheses.
    pub fn arguments(&self) -> &[Argument<'a>]
        ensures { map argument result.now ≡ arguments_of (call self.now) }
    {
        match &self.written {
            None => &[],
            Some(arguments) => arguments.as_slice(),
        }
    }
}

/// What stands behind an operator: nothing, an operand, the label of a jump, a parenthesis with an operand or without,
/// or a call.
#[derive(Drop)]
pub enum Behind<'a> {
    Nothing,
    Given(Operand<'a>),
    Target(Lexeme<'a>),
    Opened(Option<Operand<'a>>),
    Called(Call<'a>),
}

/// An operator with what stands behind it.
#[derive(Drop)]
pub struct Operation<'a> {
    pub operator: Operator,
    pub behind: Behind<'a>,
}

/// An instruction line: with a label, behind which an operation may stand, or without.
#[derive(Drop)]
pub enum Line<'a> {
    Labelled(Lexeme<'a>, Option<Operation<'a>>),
    Plain(Operation<'a>),
}

/// Behind the first name of a declaration: where it lies, or the other names.
#[derive(Drop)]
pub enum Names<'a> {
    Located(Lexeme<'a>),
    More(Vec<Lexeme<'a>>),
}

/// A declaration: `A, B : INT := 5;` or `X AT %IX0.3 : BOOL;`.
#[derive(Drop)]
pub struct Declaration<'a> {
    pub name: Lexeme<'a>,
    pub names: Names<'a>,
    pub ty: Lexeme<'a>,
    pub initial: Option<Lexeme<'a>>,
}

/// The word behind the one that opens a block of declarations.
#[derive(Clone, Copy, Debug, PartialEq, Eq)]
pub enum Qualifier {
    Retain,
    NonRetain,
}

/// A block of declarations, and its qualifier, where it has one.
#[derive(Drop)]
pub struct Block<'a> {
    pub qualifier: Option<Qualifier>,
    pub declarations: Vec<Declaration<'a>>,
}

impl<'a> Block<'a> {
    ghost use Rattle.std.specs.Prelude.{◌≡◌};
    ghost use Rattle.il_reader.specs.Grammar.{is_retained, block_text};

    /// Whether what it declares is retained.
    pub fn is_retained(&self) -> bool
        ensures { result ≡ is_retained (block_text self.now) }
    {
        match self.qualifier {
            Some(Qualifier::Retain) => true,
            Some(Qualifier::NonRetain) | None => false,
        }
    }
}

/// A program as it is written: its name, where it has one, the blocks of declarations, the instruction lines.
#[derive(Drop)]
pub struct Contents<'a> {
    pub name: Option<Lexeme<'a>>,
    pub blocks: Vec<Block<'a>>,
    pub lines: Vec<Line<'a>>,
}
