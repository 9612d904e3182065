//! Reads a text of units (IEC 61131-3:2003, B.1.5).

ghost use Rattle.std.specs.Prelude.{◌≡◌, map, option_map};
ghost use Rattle.il_reader.specs.Tokens.{Token, tokens_of, token};
ghost use Rattle.il_reader.specs.Front.{skip_breaks};
ghost use Rattle.il_reader.specs.Reading.{Takes, many};
ghost use Rattle.il_reader.specs.Grammar.{OperandText, operand, begins_program};
ghost use Rattle.il_units.specs.declared.contents.UnitKind.TheVariants as units;
ghost use Rattle.il_units.specs.Units.{SectionText, LineText, UnitText, section_text, step_text, line_text, unit_text};
ghost use Rattle.il_units.specs.Spelling.{has_units, is_function, ends_others, is_label};
ghost use Rattle.il_units.specs.Spelling.{ends_sections, ends_unit, unit_word, end_word};
ghost use Rattle.il_units.specs.Walk.{function_name_at, other_at, others_at, step_at, optional_step_at, labelled_at};
ghost use Rattle.il_units.specs.Walk.{content_at, line_at, local_at, output_kind_at, other_kind_at, kind_at};
ghost use Rattle.il_units.specs.Walk.{section_at};
ghost use Rattle.il_units.specs.Walk.{result_at, behind_word_at, this_unit, block_or_program_at, solid_unit_at};
ghost use Rattle.il_units.specs.Walk.{unit_at};

use crate::contents::{Section, SectionKind, Step, Unit, UnitKind, UnitLine};
use il_model::Dialect;
use il_reader::{
    Failure, Lexeme, Listed, Operand, Sign, at_line_stop, declarations_read, expected, is, is_word,
    many, next, operand_read, operation_read, past_breaks, past_keyword, qualifier_read, refused,
};
use std::alloc::Global;

/// Whether a text is one of units: it begins with FUNCTION or FUNCTION_BLOCK and a name. In any other text that is a
/// fault at the name.
pub fn has_units(bytes: &[u8]) -> bool
    ensures { result ≡ has_units bytes.now }
{
    let (t, rest) = next(Dialect::Plain, past_breaks(Dialect::Plain, bytes));
    let (name, _) = next(Dialect::Plain, rest);
    (is_word(b"FUNCTION", t) || is_word(b"FUNCTION_BLOCK", t)) && is(Sign::Name, name)
}

// ---- lines

/// Whether a token is the name of a function: a word that is no operator.
fn is_function(dialect: Dialect, t: Lexeme) -> bool
    ensures { result ≡ is_function dialect (token t.entry) }
{
    is(Sign::Name, t) && dialect.operator(t.text).is_none()
}

#[tactic(auto, unfolding(crate::specs::Walk::function_name_at))]
fn function_name(dialect: Dialect, bytes: &[u8]) -> Result<(Lexeme<'_>, &[u8]), Failure>
    ensures { Takes dialect token (function_name_at dialect) bytes.now result }
{
    let (t, rest) = next(dialect, bytes);
    if is_function(dialect, t) {
        Ok((t, rest))
    } else {
        Err(refused(t))
    }
}

#[tactic(auto, unfolding(crate::specs::Walk::other_at))]
fn other(dialect: Dialect, bytes: &[u8]) -> Result<(Operand<'_>, &[u8]), Failure>
    ensures { Takes dialect operand other_at bytes.now result }
{
    let (_, rest) = expected(dialect, Sign::Comma, bytes)?;
    operand_read(dialect, rest)
}

struct Others;

impl<'a> Listed<'a> for Others {
    type Item = Operand<'a>;

    ghost Said = { OperandText };

    ghost said = { operand };

    ghost ends = { λ dialect. ends_others };

    ghost item_at = { λ dialect. other_at };

    #[tactic(auto, unfolding(crate::specs::Spelling::ends_others))]
    fn stops(dialect: Dialect, bytes: &[u8]) -> bool
        ensures { result ≡ ends_others (tokens_of dialect bytes.now) }
    {
        let (t, _) = next(dialect, bytes);
        !is(Sign::Comma, t)
    }

    fn item(
        dialect: Dialect,
        _alloc: Global,
        bytes: &'a [u8],
    ) -> Result<(Operand<'a>, &'a [u8]), Failure> {
        other(dialect, bytes)
    }
}

/// The operands behind the name of a function, with commas between.
#[tactic(auto, unfolding(crate::specs::Walk::others_at))]
fn others_read(
    dialect: Dialect,
    alloc: Global,
    bytes: &[u8],
) -> Result<(Vec<Operand<'_>>, &[u8]), Failure>
    ensures { Takes dialect (λ xs. map operand xs.items) others_at bytes.now result }
{
    if at_line_stop(dialect, bytes) {
        Ok((Vec::new(alloc), bytes))
    } else {
        let (head, rest) = operand_read(dialect, bytes)?;
        let (mut found, rest) = many::<Others>(dialect, alloc, rest)?;
        found.insert(0, head)?;
        Ok((found, rest))
    }
}

#[tactic(auto, unfolding(crate::specs::Walk::step_at))]
fn step_read(dialect: Dialect, alloc: Global, bytes: &[u8]) -> Result<(Step<'_>, &[u8]), Failure>
    ensures { Takes dialect step_text (step_at dialect) bytes.now result }
{
    let (t, _) = next(dialect, bytes);
    if is_function(dialect, t) {
        let (name, rest) = function_name(dialect, bytes)?;
        let (others, rest) = others_read(dialect, alloc, rest)?;
        Ok((Step::Function(name, others), rest))
    } else {
        let (operation, rest) = operation_read(dialect, alloc, bytes)?;
        Ok((Step::Operation(operation), rest))
    }
}

#[tactic(auto, unfolding(crate::specs::Walk::optional_step_at))]
fn optional_step(
    dialect: Dialect,
    alloc: Global,
    bytes: &[u8],
) -> Result<(Option<Step<'_>>, &[u8]), Failure>
    ensures { Takes dialect (option_map step_text) (optional_step_at dialect) bytes.now result }
{
    if at_line_stop(dialect, bytes) {
        Ok((None, bytes))
    } else {
        let (x, rest) = step_read(dialect, alloc, bytes)?;
        Ok((Some(x), rest))
    }
}

fn at_label(dialect: Dialect, bytes: &[u8]) -> bool
    ensures { result ≡ is_label (tokens_of dialect bytes.now) }
{
    let (t, rest) = next(dialect, bytes);
    let (u, _) = next(dialect, rest);
    is(Sign::Name, t) && is(Sign::Colon, u)
}

#[tactic(auto, unfolding(crate::specs::Walk::labelled_at))]
fn labelled(dialect: Dialect, alloc: Global, bytes: &[u8]) -> Result<(UnitLine<'_>, &[u8]), Failure>
    ensures { Takes dialect line_text (labelled_at dialect) bytes.now result }
{
    let (t, rest) = expected(dialect, Sign::Name, bytes)?;
    let (_, rest) = expected(dialect, Sign::Colon, rest)?;
    let (step, rest) = optional_step(dialect, alloc, rest)?;
    let label = Some(t);
    Ok((UnitLine { label, step }, rest))
}

#[tactic(auto, unfolding(crate::specs::Walk::content_at))]
fn content(dialect: Dialect, alloc: Global, bytes: &[u8]) -> Result<(UnitLine<'_>, &[u8]), Failure>
    ensures { Takes dialect line_text (content_at dialect) bytes.now result }
{
    if at_label(dialect, bytes) {
        labelled(dialect, alloc, bytes)
    } else {
        let (x, rest) = step_read(dialect, alloc, bytes)?;
        let line = UnitLine {
            label: None,
            step: Some(x),
        };
        Ok((line, rest))
    }
}

#[tactic(auto, unfolding(crate::specs::Walk::line_at))]
fn line(dialect: Dialect, alloc: Global, bytes: &[u8]) -> Result<(UnitLine<'_>, &[u8]), Failure>
    ensures { Takes dialect line_text (line_at dialect) bytes.now result }
{
    let (x, rest) = content(dialect, alloc, past_breaks(dialect, bytes))?;
    if at_line_stop(dialect, rest) {
        Ok((x, rest))
    } else {
        Err(refused(next(dialect, rest).0))
    }
}

// ---- sections

/// Behind VAR the word CONSTANT may stand.
#[tactic(auto, unfolding(crate::specs::Walk::local_at))]
fn local(dialect: Dialect, bytes: &[u8]) -> Result<(SectionKind, &[u8]), Failure>
    ensures { Takes dialect (λ x. x) local_at bytes.now result }
{
    let (t, _) = next(dialect, bytes);
    if is_word(b"CONSTANT", t) {
        let rest = past_keyword(dialect, b"CONSTANT", bytes)?;
        Ok((SectionKind::Constant, rest))
    } else {
        Ok((SectionKind::Local, bytes))
    }
}

#[tactic(auto, unfolding(crate::specs::Walk::output_kind_at))]
fn output_kind(dialect: Dialect, bytes: &[u8]) -> Result<(SectionKind, &[u8]), Failure>
    ensures { Takes dialect (λ x. x) output_kind_at bytes.now result }
{
    let (t, _) = next(dialect, bytes);
    if is_word(b"VAR_OUTPUT", t) {
        let rest = past_keyword(dialect, b"VAR_OUTPUT", bytes)?;
        Ok((SectionKind::Output, rest))
    } else {
        let rest = past_keyword(dialect, b"VAR_IN_OUT", bytes)?;
        Ok((SectionKind::InOut, rest))
    }
}

#[tactic(auto, unfolding(crate::specs::Walk::other_kind_at))]
fn other_kind(dialect: Dialect, bytes: &[u8]) -> Result<(SectionKind, &[u8]), Failure>
    ensures { Takes dialect (λ x. x) other_kind_at bytes.now result }
{
    let (t, _) = next(dialect, bytes);
    if is_word(b"VAR_INPUT", t) {
        let rest = past_keyword(dialect, b"VAR_INPUT", bytes)?;
        Ok((SectionKind::Input, rest))
    } else {
        output_kind(dialect, bytes)
    }
}

/// The word that opens a section, and CONSTANT, where it stands behind VAR.
#[tactic(auto, unfolding(crate::specs::Walk::kind_at))]
fn kind_read(dialect: Dialect, bytes: &[u8]) -> Result<(SectionKind, &[u8]), Failure>
    ensures { Takes dialect (λ x. x) kind_at bytes.now result }
{
    let (t, _) = next(dialect, bytes);
    if is_word(b"VAR", t) {
        let rest = past_keyword(dialect, b"VAR", bytes)?;
        local(dialect, past_breaks(dialect, rest))
    } else {
        other_kind(dialect, bytes)
    }
}

#[tactic(auto, unfolding(crate::specs::Walk::section_at))]
fn section_read(
    dialect: Dialect,
    alloc: Global,
    bytes: &[u8],
) -> Result<(Section<'_>, &[u8]), Failure>
    ensures { Takes dialect section_text (section_at dialect) bytes.now result }
{
    let (kind, rest) = kind_read(dialect, past_breaks(dialect, bytes))?;
    let (qualifier, rest) = qualifier_read(dialect, past_breaks(dialect, rest))?;
    let (declarations, rest) = declarations_read(dialect, alloc, rest)?;
    Ok((
        Section {
            kind,
            qualifier,
            declarations,
        },
        rest,
    ))
}

struct Sections;

impl<'a> Listed<'a> for Sections {
    type Item = Section<'a>;

    ghost Said = { SectionText };

    ghost said = { section_text };

    ghost ends = { λ dialect. ends_sections };

    ghost item_at = { section_at };

    #[tactic(auto, unfolding(crate::specs::Spelling::ends_sections))]
    fn stops(dialect: Dialect, bytes: &[u8]) -> bool
        ensures { result ≡ ends_sections (tokens_of dialect bytes.now) }
    {
        let (t, _) = next(dialect, past_breaks(dialect, bytes));
        !(is_word(b"VAR", t)
            || is_word(b"VAR_INPUT", t)
            || is_word(b"VAR_OUTPUT", t)
            || is_word(b"VAR_IN_OUT", t))
    }

    fn item(
        dialect: Dialect,
        alloc: Global,
        bytes: &'a [u8],
    ) -> Result<(Section<'a>, &'a [u8]), Failure> {
        section_read(dialect, alloc, bytes)
    }
}

// ---- units

struct FunctionLines;

impl<'a> Listed<'a> for FunctionLines {
    type Item = UnitLine<'a>;

    ghost Said = { LineText };

    ghost said = { line_text };

    ghost ends = { λ dialect. ends_unit units.Function };

    ghost item_at = { line_at };

    #[tactic(auto, unfolding(crate::specs::Spelling::ends_unit))]
    fn stops(dialect: Dialect, bytes: &[u8]) -> bool
        ensures { result ≡ ends_unit units.Function (tokens_of dialect bytes.now) }
    {
        let (t, _) = next(dialect, past_breaks(dialect, bytes));
        is_word(b"END_FUNCTION", t)
    }

    fn item(
        dialect: Dialect,
        alloc: Global,
        bytes: &'a [u8],
    ) -> Result<(UnitLine<'a>, &'a [u8]), Failure> {
        line(dialect, alloc, bytes)
    }
}

struct BlockLines;

impl<'a> Listed<'a> for BlockLines {
    type Item = UnitLine<'a>;

    ghost Said = { LineText };

    ghost said = { line_text };

    ghost ends = { λ dialect. ends_unit units.FunctionBlock };

    ghost item_at = { line_at };

    #[tactic(auto, unfolding(crate::specs::Spelling::ends_unit))]
    fn stops(dialect: Dialect, bytes: &[u8]) -> bool
        ensures { result ≡ ends_unit units.FunctionBlock (tokens_of dialect bytes.now) }
    {
        let (t, _) = next(dialect, past_breaks(dialect, bytes));
        is_word(b"END_FUNCTION_BLOCK", t)
    }

    fn item(
        dialect: Dialect,
        alloc: Global,
        bytes: &'a [u8],
    ) -> Result<(UnitLine<'a>, &'a [u8]), Failure> {
        line(dialect, alloc, bytes)
    }
}

struct ProgramLines;

impl<'a> Listed<'a> for ProgramLines {
    type Item = UnitLine<'a>;

    ghost Said = { LineText };

    ghost said = { line_text };

    ghost ends = { λ dialect. ends_unit units.Program };

    ghost item_at = { line_at };

    #[tactic(auto, unfolding(crate::specs::Spelling::ends_unit))]
    fn stops(dialect: Dialect, bytes: &[u8]) -> bool
        ensures { result ≡ ends_unit units.Program (tokens_of dialect bytes.now) }
    {
        let (t, _) = next(dialect, past_breaks(dialect, bytes));
        is_word(b"END_PROGRAM", t)
    }

    fn item(
        dialect: Dialect,
        alloc: Global,
        bytes: &'a [u8],
    ) -> Result<(UnitLine<'a>, &'a [u8]), Failure> {
        line(dialect, alloc, bytes)
    }
}

/// The word that ends a unit.
fn end_word(kind: UnitKind) -> &'static [u8]
    ensures { result.now ≡ end_word kind }
{
    match kind {
        UnitKind::Function => b"END_FUNCTION",
        UnitKind::FunctionBlock => b"END_FUNCTION_BLOCK",
        UnitKind::Program => b"END_PROGRAM",
    }
}

/// The lines up to the word that ends a unit.
fn lines(
    dialect: Dialect,
    alloc: Global,
    kind: UnitKind,
    bytes: &[u8],
) -> Result<(Vec<UnitLine<'_>>, &[u8]), Failure>
    ensures { Takes dialect (λ xs. map line_text xs.items) (many (ends_unit kind) (line_at dialect))
        bytes.now result }
{
    match kind {
        UnitKind::Function => many::<FunctionLines>(dialect, alloc, bytes),
        UnitKind::FunctionBlock => many::<BlockLines>(dialect, alloc, bytes),
        UnitKind::Program => many::<ProgramLines>(dialect, alloc, bytes),
    }
}

/// The type of a function's result.
#[tactic(auto, unfolding(crate::specs::Walk::result_at))]
fn result_type(
    dialect: Dialect,
    kind: UnitKind,
    bytes: &[u8],
) -> Result<(Option<Lexeme<'_>>, &[u8]), Failure>
    ensures { Takes dialect (option_map token) (result_at kind) bytes.now result }
{
    match kind {
        UnitKind::Function => {
            let (_, rest) = expected(dialect, Sign::Colon, past_breaks(dialect, bytes))?;
            let (t, rest) = expected(dialect, Sign::Name, past_breaks(dialect, rest))?;
            Ok((Some(t), rest))
        }
        UnitKind::FunctionBlock | UnitKind::Program => Ok((None, bytes)),
    }
}

/// What stands behind the word that opens a unit.
#[tactic(auto, unfolding(crate::specs::Walk::behind_word_at))]
fn behind_word(
    dialect: Dialect,
    alloc: Global,
    kind: UnitKind,
    bytes: &[u8],
) -> Result<(Unit<'_>, &[u8]), Failure>
    ensures { Takes dialect unit_text (behind_word_at dialect kind) bytes.now result }
{
    let (name, rest) = expected(dialect, Sign::Name, bytes)?;
    let (result, rest) = result_type(dialect, kind, rest)?;
    let (sections, rest) = many::<Sections>(dialect, alloc, rest)?;
    let (lines, rest) = lines(dialect, alloc, kind, rest)?;
    let rest = past_keyword(dialect, end_word(kind), past_breaks(dialect, rest))?;
    let unit = Unit {
        kind,
        name,
        result,
        sections,
        lines,
    };
    Ok((unit, rest))
}

/// The word that opens a unit.
fn unit_word(kind: UnitKind) -> &'static [u8]
    ensures { result.now ≡ unit_word kind }
{
    match kind {
        UnitKind::Function => b"FUNCTION",
        UnitKind::FunctionBlock => b"FUNCTION_BLOCK",
        UnitKind::Program => b"PROGRAM",
    }
}

/// A unit of a kind, from the word that opens it to the one that ends it.
fn this_unit(
    dialect: Dialect,
    alloc: Global,
    kind: UnitKind,
    bytes: &[u8],
) -> Result<(Unit<'_>, &[u8]), Failure>
    ensures { Takes dialect unit_text (this_unit dialect kind) bytes.now result }
{
    let rest = past_keyword(dialect, unit_word(kind), bytes)?;
    behind_word(dialect, alloc, kind, rest)
}

#[tactic(auto, unfolding(crate::specs::Walk::block_or_program_at))]
fn block_or_program(
    dialect: Dialect,
    alloc: Global,
    bytes: &[u8],
) -> Result<(Unit<'_>, &[u8]), Failure>
    ensures { Takes dialect unit_text (block_or_program_at dialect) bytes.now result }
{
    let (t, _) = next(dialect, bytes);
    if is_word(b"FUNCTION_BLOCK", t) {
        this_unit(dialect, alloc, UnitKind::FunctionBlock, bytes)
    } else {
        this_unit(dialect, alloc, UnitKind::Program, bytes)
    }
}

#[tactic(auto, unfolding(crate::specs::Walk::solid_unit_at))]
fn solid_unit(dialect: Dialect, alloc: Global, bytes: &[u8]) -> Result<(Unit<'_>, &[u8]), Failure>
    ensures { Takes dialect unit_text (solid_unit_at dialect) bytes.now result }
{
    let (t, _) = next(dialect, bytes);
    if is_word(b"FUNCTION", t) {
        this_unit(dialect, alloc, UnitKind::Function, bytes)
    } else {
        block_or_program(dialect, alloc, bytes)
    }
}

/// A unit, from the word that opens it to the one that ends it.
#[tactic(auto, unfolding(crate::specs::Walk::unit_at))]
pub fn unit_read(
    dialect: Dialect,
    alloc: Global,
    bytes: &[u8],
) -> Result<(Unit<'_>, &[u8]), Failure>
    ensures { Takes dialect unit_text (unit_at dialect) bytes.now result }
{
    solid_unit(dialect, alloc, past_breaks(dialect, bytes))
}

/// The units above the program.
pub struct UnitsAbove;

impl<'a> Listed<'a> for UnitsAbove {
    type Item = Unit<'a>;

    ghost Said = { UnitText };

    ghost said = { unit_text };

    ghost ends = { λ dialect. begins_program };

    ghost item_at = { unit_at };

    #[tactic(auto, unfolding(il_reader::specs::Grammar::begins_program))]
    fn stops(dialect: Dialect, bytes: &[u8]) -> bool
        ensures { result ≡ begins_program (tokens_of dialect bytes.now) }
    {
        let (t, _) = next(dialect, past_breaks(dialect, bytes));
        is_word(b"PROGRAM", t)
    }

    fn item(
        dialect: Dialect,
        alloc: Global,
        bytes: &'a [u8],
    ) -> Result<(Unit<'a>, &'a [u8]), Failure> {
        unit_read(dialect, alloc, bytes)
    }
}
