//! What a text of units says: its tokens by the places where they stand, as slices of the text.

use il_reader::{Declaration, Lexeme, Operand, Operation, Place, Qualifier, place_of};
use std::marker::Model;

/// What a unit is.
#[derive(Clone, Copy, Debug, PartialEq, Eq)]
pub enum UnitKind {
    Function,
    FunctionBlock,
    Program,
}

/// What the variables of a section are.
#[derive(Clone, Copy, Debug, PartialEq, Eq)]
pub enum SectionKind {
    Local,
    Constant,
    Input,
    Output,
    InOut,
}

/// A section of declarations, and its qualifier, where it has one.
#[derive(Drop)]
pub struct Section<'a> {
    pub kind: SectionKind,
    pub qualifier: Option<Qualifier>,
    pub declarations: Vec<Declaration<'a>>,
}

/// What a line does: an operation, or a function of a name, whose first input is the current result, with the others.
#[derive(Drop)]
pub enum Step<'a> {
    Operation(Operation<'a>),
    Function(Lexeme<'a>, Vec<Operand<'a>>),
}

/// A line: a label, a step, or both.
#[derive(Drop)]
pub struct UnitLine<'a> {
    pub label: Option<Lexeme<'a>>,
    pub step: Option<Step<'a>>,
}

/// A function, with the type of its result, a function block or the program.
#[derive(Drop)]
pub struct Unit<'a> {
    pub kind: UnitKind,
    pub name: Lexeme<'a>,
    pub result: Option<Lexeme<'a>>,
    pub sections: Vec<Section<'a>>,
    pub lines: Vec<UnitLine<'a>>,
}

/// A text of units that was read: functions and function blocks, and behind them the program.
#[derive(Drop)]
pub struct Units<'a> {
    text: &'a [u8],
    units: Vec<Unit<'a>>,
}

impl<'a> Model for Units<'a> {
    ghost use Rattle.std.specs.Prelude.{◌≤◌, map, length};
    ghost use Rattle.il_reader.specs.declared.source.TheConstants.{EXTENDED_TEXT_LIMIT};
    ghost use Rattle.il_units.specs.Units.{UnitsText, unit_text};

    ghost Value = { UnitsText };

    ghost view = { λ u. record { text = u.text.now; units = map unit_text u.units.items } };

    ghost invariant = { λ u. length u.text.now ≤ EXTENDED_TEXT_LIMIT };
}

impl<'a> Units<'a> {
    ghost use Rattle.std.specs.Prelude.{◌≡◌, ◌≤◌, map, length};
    ghost use Rattle.il_reader.specs.Texts.{place_at};
    ghost use Rattle.il_reader.specs.declared.source.TheConstants.{EXTENDED_TEXT_LIMIT};
    ghost use Rattle.il_units.specs.Units.{unit_text};

    /// The units of a text.
    pub(crate) fn of(text: &'a [u8], units: Vec<Unit<'a>>) -> Units<'a>
        requires { length text.now ≤ EXTENDED_TEXT_LIMIT }
        ensures { result ≡ record { text = text.entry.now; units = map unit_text units.entry.items } }
    {
        Units { text, units }
    }

    /// The text.
    pub fn text(&self) -> &'a [u8]
        ensures { result.now ≡ self.now.text }
    {
        self.text
    }

    /// The units, in the order of the text.
    pub fn units(&self) -> &[Unit<'a>]
        ensures { map unit_text result.now ≡ self.now.units }
    {
        self.units.as_slice()
    }

    /// Where the byte of the text stands from which on so many are left.
    pub fn place(&self, left: usize) -> Place
        ensures { result ≡ place_at self.now.text left }
    {
        place_of(self.text, left)
    }
}
