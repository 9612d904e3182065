//! A program, with names.

ghost use Rattle.std.specs.Prelude.{◌≡◌};

use crate::codes::Version;
use crate::kind::BlockKind;
use crate::limits::{BITS, WORDS};
use crate::location::begins_double;
use crate::name::Name;
use il_values::{Modifier, Op, Ty, Value};
use std::marker::Model;

/// How far the words of an area stand behind its first bit.
const FIRST_WORD: u16 = 0x400;

/// How far its double words that are DINT do, those that are TIME, and those that are REAL.
const FIRST_DINT: u16 = 0x500;

const FIRST_TIME: u16 = 0x600;

const FIRST_REAL: u16 = 0x700;

/// How far its double words that are DWORD do, and its words that are WORD.
const FIRST_DWORD: u16 = 0x800;

const FIRST_PATTERN: u16 = 0x900;

/// One of the three areas.
#[derive(Clone, Copy, Debug, PartialEq, Eq)]
pub enum Area {
    Input,
    Output,
    Memory,
}

/// The types that a double word may have.
#[derive(Clone, Copy, Debug, PartialEq, Eq)]
pub enum DoubleType {
    Dint,
    Time,
    Real,
    Dword,
}

/// A location: the number of a bit or of a word in an area, of a word as the pattern of 16 bits that it is (a WORD), or
/// that of the first of two words that are one value, the high one first, and that value's type. The first of two has an
/// even number.
#[derive(Clone, Copy, Debug, PartialEq, Eq)]
pub enum Loc {
    Bit(Area, u16),
    Word(Area, u16),
    Pattern(Area, u16),
    Double(Area, u16, DoubleType),
}

impl Area {
    ghost use Rattle.std.specs.Prelude.{◌≡◌};
    ghost use Rattle.il_model.specs.CodedOperands.{base_of, double_loc, pattern_loc, double_there, area_loc};

    /// The code of the first bit.
    fn base(self) -> u16
        ensures { result ≡ base_of self }
    {
        match self {
            Area::Input => 0,
            Area::Output => 0x1000,
            Area::Memory => 0x2000,
        }
    }

    /// The double word with this number, if one begins there.
    fn double_word(self, n: u16, ty: DoubleType) -> Option<Loc>
        ensures { result ≡ double_loc self ty n }
    {
        if begins_double(u64::from(n)) {
            Some(Loc::Double(self, n, ty))
        } else {
            None
        }
    }

    /// The word with this number as a pattern, if there is one.
    fn pattern(self, n: u16) -> Option<Loc>
        ensures { result ≡ pattern_loc self n }
    {
        if (n as usize) < WORDS {
            Some(Loc::Pattern(self, n))
        } else {
            None
        }
    }

    /// The double word or the pattern that stands so far behind the first bit.
    fn double_location(self, n: u16) -> Option<Loc>
        ensures { result ≡ double_there self n }
    {
        if n < FIRST_DINT {
            None
        } else if n < FIRST_TIME {
            self.double_word(n - FIRST_DINT, DoubleType::Dint)
        } else if n < FIRST_REAL {
            self.double_word(n - FIRST_TIME, DoubleType::Time)
        } else if n < FIRST_DWORD {
            self.double_word(n - FIRST_REAL, DoubleType::Real)
        } else if n < FIRST_PATTERN {
            self.double_word(n - FIRST_DWORD, DoubleType::Dword)
        } else {
            self.pattern(n - FIRST_PATTERN)
        }
    }

    /// The location that stands so far behind the first bit.
    fn location(self, n: u16) -> Option<Loc>
        ensures { result ≡ area_loc self n }
    {
        if (n as usize) < BITS {
            Some(Loc::Bit(self, n))
        } else if n < FIRST_WORD {
            None
        } else if (n as usize) < FIRST_WORD as usize + WORDS {
            Some(Loc::Word(self, n - FIRST_WORD))
        } else {
            self.double_location(n)
        }
    }
}

impl DoubleType {
    ghost use Rattle.std.specs.Prelude.{◌≡◌};
    ghost use Rattle.il_model.specs.CodedOperands.{first_double};

    /// How far the double words of the type stand behind the first bit of an area.
    fn first_code(self) -> u16
        ensures { result ≡ first_double self }
    {
        match self {
            DoubleType::Dint => FIRST_DINT,
            DoubleType::Time => FIRST_TIME,
            DoubleType::Real => FIRST_REAL,
            DoubleType::Dword => FIRST_DWORD,
        }
    }
}

impl Loc {
    ghost use Rattle.std.specs.Prelude.{◌≡◌};
    ghost use Rattle.il_model.specs.Locations.{area_of, is_nameable};
    ghost use Rattle.il_model.specs.CodedOperands.{loc_code, any_loc};

    /// The area that it lies in.
    pub fn area(self) -> Area
        ensures { result ≡ area_of self }
    {
        match self {
            Loc::Bit(area, _) | Loc::Word(area, _) => area,
            Loc::Pattern(area, _) | Loc::Double(area, _, _) => area,
        }
    }

    /// Whether an instruction can name it: a word by itself is INT, a double word DINT.
    pub fn is_nameable(self) -> bool
        ensures { result ≡ is_nameable self }
    {
        match self {
            Loc::Bit(_, _) | Loc::Word(_, _) | Loc::Double(_, _, DoubleType::Dint) => true,
            Loc::Double(_, _, DoubleType::Time | DoubleType::Real | DoubleType::Dword) => false,
            Loc::Pattern(_, _) => false,
        }
    }

    /// The code.
    pub fn code(self) -> usize
        ensures { result ≡ loc_code self }
    {
        match self {
            Loc::Bit(area, n) => area.base() as usize + n as usize,
            Loc::Word(area, n) => area.base() as usize + (FIRST_WORD as usize + n as usize),
            Loc::Pattern(area, n) => area.base() as usize + (FIRST_PATTERN as usize + n as usize),
            Loc::Double(area, n, ty) => {
                area.base() as usize + (ty.first_code() as usize + n as usize)
            }
        }
    }

    /// The location with that code, or None where no location has it.
    pub fn of_code(code: u16) -> Option<Loc>
        ensures { result ≡ any_loc code }
    {
        let output = Area::Output.base();
        let memory = Area::Memory.base();
        if code < output {
            Area::Input.location(code)
        } else if code < memory {
            Area::Output.location(code - output)
        } else {
            Area::Memory.location(code - memory)
        }
    }
}

/// Where a value lies: in a variable without a location, by its number in the order of declaration, at a location, or
/// in a function block instance, by its number and that of its kind's field.
#[derive(Clone, Copy, PartialEq, Eq)]
pub enum Place {
    Own(u16),
    At(Loc),
    Field(u16, u8),
}

/// A declared variable. One that is retained keeps its value over a warm start (IEC 61131-3:2003, 2.4.2).
#[derive(Drop)]
pub struct Variable {
    pub name: Name,
    pub ty: Ty,
    pub location: Option<Loc>,
    pub initial: Value,
    pub retained: bool,
}

/// A declared function block instance (IEC 61131-3:2003, 2.5.2). One that is retained keeps its inputs and its state
/// over a warm start.
#[derive(Drop)]
pub struct Instance {
    pub name: Name,
    pub kind: BlockKind,
    pub retained: bool,
}

/// What an operator is given.
#[derive(Drop)]
pub enum Operand {
    Absent,
    Literal(Value),
    Bare(i32),
    Variable(Name),
    Direct(Loc),
    Label(Name),
    /// A field of a function block instance, as `T1.Q`: the names of the instance and of the field.
    Field(Name, Name),
    /// The instance that is called.
    Instance(Name),
}

/// Where an argument goes: into an input of the instance (`:=`), or out of an output (`=>`).
#[derive(Clone, Copy, Debug, PartialEq, Eq)]
pub enum Side {
    Input,
    Output,
}

/// An argument of a call: `IN := X` or `Q => Y`.
#[derive(Drop)]
pub struct Argument {
    pub field: Name,
    pub side: Side,
    pub operand: Operand,
}

/// The arguments of a call in the order written: with names (`Argument`), or with their names resolved (`Passed`).
#[derive(Drop)]
pub struct Arguments<A> {
    items: Vec<A>,
}

impl<A> Model for Arguments<A> {
    ghost use Rattle.std.specs.Prelude.{List};

    ghost Value = { List A };

    ghost view = { λ a. a.items.items };
}

impl<A> Arguments<A> {
    ghost use Rattle.std.specs.Prelude.{◌≡◌};

    /// These arguments.
    pub fn of(items: Vec<A>) -> Arguments<A>
        ensures { result ≡ items.items }
    {
        Arguments { items }
    }

    /// The arguments in order.
    pub fn as_slice(&self) -> &[A]
        ensures { result.now ≡ self.now }
    {
        self.items.as_slice()
    }
}

/// An instruction; only a call has arguments.
#[derive(Drop)]
pub struct Instr {
    pub label: Option<Name>,
    pub op: Op,
    pub modifier: Modifier,
    pub operand: Operand,
    pub arguments: Arguments<Argument>,
}

/// A program: its declarations and its instructions, in their order; at most `MOST_VARIABLES`, `MOST_INSTANCES` and
/// `MOST_INSTRUCTIONS` of them, and no more words than there is room for.
#[derive(Drop)]
pub struct Program {
    pub variables: Vec<Variable>,
    pub instances: Vec<Instance>,
    pub code: Vec<Instr>,
}

impl Model for Program {
    ghost use Rattle.std.specs.Prelude.{◌≡◌, ◌≤◌, false, length};
    ghost use Rattle.il_model.specs.declared.limits.TheConstants.{MOST_VARIABLES, MOST_INSTANCES, MOST_INSTRUCTIONS};
    ghost use Rattle.il_model.specs.Marks.{words_in};
    ghost use Rattle.il_model.specs.Limits.{is_crowded};
    ghost use Rattle.il_model.specs.Program.{Program};

    ghost Value = { Program };

    ghost view = { λ p. record { variables = p.variables.items; instances = p.instances.items; code = p.code.items } };

    ghost invariant = { λ p. (length p.variables.items ≤ MOST_VARIABLES) × (length p.instances.items ≤ MOST_INSTANCES)
        × (length p.code.items ≤ MOST_INSTRUCTIONS)
        × (is_crowded (length p.code.items) (words_in p.code.items) ≡ false) };
}

impl Program {
    ghost use Rattle.std.specs.Prelude.{◌≡◌};
    ghost use Rattle.il_model.specs.Program.{program_of};

    /// The program of these parts, or none where an image of the version has no room for them.
    #[tactic(auto, using(crate::proofs::Sizes::room_is_small))]
    pub fn new(
        version: Version,
        variables: Vec<Variable>,
        instances: Vec<Instance>,
        code: Vec<Instr>,
    ) -> Option<Program>
        ensures { result ≡ program_of version variables.items instances.items code.items }
    {
        if version.has_room(variables.as_slice(), instances.as_slice(), code.as_slice()) {
            Some(Program {
                variables,
                instances,
                code,
            })
        } else {
            None
        }
    }
}
