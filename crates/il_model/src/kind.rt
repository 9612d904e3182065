//! The kinds of standard function blocks (IEC 61131-3:2003, 2.5.2.3) and their fields: the one table of
//! names, codes, numbers, types and directions.

ghost use Rattle.std.specs.Prelude.{◌≡◌, ◌≤◌, ◌<◌, Some, IfSome, length, nat_lt, position, slice_get};
ghost use Rattle.std.specs.Str.{bytes_eq};
ghost use Rattle.il_model.specs.declared.kind.BlockKind.{BlockKind};
ghost use Rattle.il_model.specs.Kinds.{kind_code, kind_of_code, kind_name, kind_of_name, kind_fields, field_name};
ghost use Rattle.il_model.specs.Kinds.{field_type, is_input, any_field, field_number, input_count};

use il_values::Ty;

/// A kind of function block, in the order of the codes.
#[derive(Clone, Copy, Debug, PartialEq, Eq)]
pub enum BlockKind {
    Sr = 1,
    Rs,
    RTrig,
    FTrig,
    Ctu,
    Ctd,
    Ctud,
    Tp,
    Ton,
    Tof,
}

/// A field of a function block. Fields of one name have one type and one direction in all kinds.
#[derive(Clone, Copy, Debug, PartialEq, Eq)]
pub enum Field {
    S1,
    S,
    R1,
    R,
    Clk,
    Cu,
    Cd,
    Ld,
    Pv,
    In,
    Pt,
    Q1,
    Q,
    Qu,
    Qd,
    Cv,
    Et,
}

static SR_FIELDS: [Field; 3] = [Field::S1, Field::R, Field::Q1];

static RS_FIELDS: [Field; 3] = [Field::S, Field::R1, Field::Q1];

static TRIGGER_FIELDS: [Field; 2] = [Field::Clk, Field::Q];

static CTU_FIELDS: [Field; 5] = [Field::Cu, Field::R, Field::Pv, Field::Q, Field::Cv];

static CTD_FIELDS: [Field; 5] = [Field::Cd, Field::Ld, Field::Pv, Field::Q, Field::Cv];

static CTUD_FIELDS: [Field; 8] = [
    Field::Cu,
    Field::Cd,
    Field::R,
    Field::Ld,
    Field::Pv,
    Field::Qu,
    Field::Qd,
    Field::Cv,
];

static TIMER_FIELDS: [Field; 4] = [Field::In, Field::Pt, Field::Q, Field::Et];

impl Field {
    /// Every field.
    pub const ALL: [Field; 17] = [
        Field::S1,
        Field::S,
        Field::R1,
        Field::R,
        Field::Clk,
        Field::Cu,
        Field::Cd,
        Field::Ld,
        Field::Pv,
        Field::In,
        Field::Pt,
        Field::Q1,
        Field::Q,
        Field::Qu,
        Field::Qd,
        Field::Cv,
        Field::Et,
    ];

    /// The field with that name, in capitals, whatever the kind; None where no kind has it.
    pub fn of_name(name: &[u8]) -> Option<Field>
        ensures { result ≡ any_field name.now }
    {
        Field::ALL
            .iter()
            .copied()
            .find(|field| field.name() == name)
    }

    /// The name, in capitals.
    pub fn name(self) -> &'static [u8]
        ensures { result.now ≡ field_name self }
    {
        match self {
            Field::S1 => b"S1",
            Field::S => b"S",
            Field::R1 => b"R1",
            Field::R => b"R",
            Field::Clk => b"CLK",
            Field::Cu => b"CU",
            Field::Cd => b"CD",
            Field::Ld => b"LD",
            Field::Pv => b"PV",
            Field::In => b"IN",
            Field::Pt => b"PT",
            Field::Q1 => b"Q1",
            Field::Q => b"Q",
            Field::Qu => b"QU",
            Field::Qd => b"QD",
            Field::Cv => b"CV",
            Field::Et => b"ET",
        }
    }

    /// The type: INT for counts, TIME for times, else BOOL.
    pub fn ty(self) -> Ty
        ensures { result ≡ field_type self }
    {
        match self {
            Field::Pv | Field::Cv => Ty::Int,
            Field::Pt | Field::Et => Ty::Time,
            _ => Ty::Bool,
        }
    }

    /// Whether it is an input; else it is an output.
    pub fn is_input(self) -> bool
        ensures { result ≡ is_input self }
    {
        !matches!(
            self,
            Field::Q1 | Field::Q | Field::Qu | Field::Qd | Field::Cv | Field::Et
        )
    }
}

fn with_code(code: u8) -> Option<BlockKind>
    ensures value { result ≡ kind_of_code code }
    ensures only { IfSome result (λ kind. kind_code kind ≡ code) }
{
    BlockKind::ALL
        .iter()
        .copied()
        .find(|kind| kind.code() == code)
}

fn with_name(name: &[u8]) -> Option<BlockKind>
    ensures value { result ≡ kind_of_name name.now }
    ensures only { IfSome result (λ kind. kind_name kind ≡ name.now) }
{
    BlockKind::ALL
        .iter()
        .copied()
        .find(|kind| kind.name() == name)
}

fn field_at(fields: &[Field], number: u8) -> Option<Field>
    ensures { result ≡ slice_get fields.now number }
{
    fields.get(usize::from(number)).copied()
}

fn position_of(fields: &[Field], name: &[u8]) -> Option<usize>
    ensures value { result ≡ position (λ field. bytes_eq (field_name field) name.now) fields.now }
    ensures bound { IfSome result (λ number. number < length fields.now) }
{
    fields.iter().position(|field| field.name() == name)
}

impl BlockKind {
    /// Every kind, in the order of the codes.
    pub const ALL: [BlockKind; 10] = [
        BlockKind::Sr,
        BlockKind::Rs,
        BlockKind::RTrig,
        BlockKind::FTrig,
        BlockKind::Ctu,
        BlockKind::Ctd,
        BlockKind::Ctud,
        BlockKind::Tp,
        BlockKind::Ton,
        BlockKind::Tof,
    ];

    /// The kind's code, 1 to 10.
    pub fn code(self) -> u8
        ensures { result ≡ kind_code self }
    {
        self as u8
    }

    /// The kind with that code; None above 10 and at 0.
    pub fn of_code(code: u8) -> Option<BlockKind>
        ensures value { result ≡ kind_of_code code }
        ensures found { (kind : BlockKind) → kind_code kind ≡ code → result ≡ Some kind }
        ensures only { IfSome result (λ kind. kind_code kind ≡ code) }
    {
        with_code(code)
    }

    /// The name of the kind, in capitals.
    pub fn name(self) -> &'static [u8]
        ensures { result.now ≡ kind_name self }
    {
        match self {
            BlockKind::Sr => b"SR",
            BlockKind::Rs => b"RS",
            BlockKind::RTrig => b"R_TRIG",
            BlockKind::FTrig => b"F_TRIG",
            BlockKind::Ctu => b"CTU",
            BlockKind::Ctd => b"CTD",
            BlockKind::Ctud => b"CTUD",
            BlockKind::Tp => b"TP",
            BlockKind::Ton => b"TON",
            BlockKind::Tof => b"TOF",
        }
    }

    /// The kind with that name, in capitals; None where no kind has it.
    pub fn of_name(name: &[u8]) -> Option<BlockKind>
        ensures value { result ≡ kind_of_name name.now }
        ensures found { (kind : BlockKind) → kind_name kind ≡ name.now → result ≡ Some kind }
        ensures only { IfSome result (λ kind. kind_name kind ≡ name.now) }
    {
        with_name(name)
    }

    /// The fields by their numbers from 0: the inputs in order, then the outputs.
    pub fn fields(self) -> &'static [Field]
        ensures fields { result.now ≡ kind_fields self }
        ensures few { length result.now ≤ 8 }
    {
        match self {
            BlockKind::Sr => &SR_FIELDS,
            BlockKind::Rs => &RS_FIELDS,
            BlockKind::RTrig | BlockKind::FTrig => &TRIGGER_FIELDS,
            BlockKind::Ctu => &CTU_FIELDS,
            BlockKind::Ctd => &CTD_FIELDS,
            BlockKind::Ctud => &CTUD_FIELDS,
            BlockKind::Tp | BlockKind::Ton | BlockKind::Tof => &TIMER_FIELDS,
        }
    }

    /// The field with that number; None where the kind has fewer. Those below `input_count` are inputs.
    pub fn field(self, number: u8) -> Option<Field>
        ensures value { result ≡ slice_get (kind_fields self) number }
        ensures direction { IfSome result (λ field. is_input field ≡ nat_lt number (input_count self)) }
    {
        field_at(self.fields(), number)
    }

    /// The number of the field with that name, in capitals; None where the kind has no such field.
    pub fn field_number(self, name: &[u8]) -> Option<u8>
        ensures { result ≡ field_number self name.now }
    {
        let number = position_of(self.fields(), name)?;
        Some(number as u8)
    }

    /// How many inputs it has: fields below that number are inputs, the others are outputs.
    pub fn input_count(self) -> u8
        ensures { result ≡ input_count self }
    {
        self.fields()
            .iter()
            .filter(|field| field.is_input())
            .count() as u8
    }
}
