//! A unit with all that it calls replaced.

ghost use Rattle.std.specs.Prelude.{◌≡◌, map, IfOk};
ghost use Rattle.il_units.specs.Units.{line_text, unit_text};
ghost use Rattle.il_units.specs.Flats.{begun_from, no_lines, joined};
ghost use Rattle.il_units.specs.Expansion.{scope_text, line_body, body_from, body_of, flat_of};
ghost use Rattle.il_units.specs.Misuse.{◌<+>◌, Tells, lines_fault, line_fault, room_fault, fault_of};

use crate::bodies::line_body;
use crate::contents::{Unit, UnitLine};
use crate::fault::UnitError;
use crate::flat::{Body, Flat, begun, declarations_of};
use crate::members::{Member, members};
use crate::misuse::{Head, check_line, check_members, check_name, check_room};
use crate::scope::Scope;
use crate::word::Text;
use std::alloc::Global;

/// The k-th line behind those before.
fn with_line(scope: Scope, body: Body, k: usize, line: &UnitLine) -> Result<Body, UnitError>
    ensures told { Tells result (line_fault (scope_text scope.entry) (line_text line.now)
        <+> room_fault (joined body (line_body (scope_text scope.entry) k (line_text line.now))) (line_text line.now)) }
    ensures joined { IfOk result (λ b. b
        ≡ joined body (line_body (scope_text scope.entry) k (line_text line.now))) }
{
    check_line(scope, line)?;
    let more = line_body(scope, k, line)?;
    let after = body.joined(more)?;
    check_room(after.line_count(), line)?;
    Ok(after)
}

/// The lines behind those before, counted from 1.
#[tactic(auto, unfolding(crate::specs::Misuse::lines_fault, crate::specs::Expansion::body_from))]
fn with_lines(scope: Scope, before: Body, lines: &[UnitLine]) -> Result<Body, UnitError>
    ensures told { Tells result (lines_fault (scope_text scope.entry) before 1 (map line_text lines.now)) }
    ensures joined { IfOk result (λ b. b ≡ body_from (scope_text scope.entry) before 1 (map line_text lines.now)) }
{
    let mut body = before;
    for (i, line) in lines.iter().enumerate() {
        body = with_line(scope, body, i + 1, line)?;
    }
    Ok(body)
}

/// The lines of a unit, with all that they call replaced.
fn body_of(scope: Scope, lines: &[UnitLine]) -> Result<Body, UnitError>
    ensures told { Tells result (lines_fault (scope_text scope.entry)
        (begun_from scope.entry.above.now no_lines scope.entry.members.now) 1 (map line_text lines.now)) }
    ensures joined { IfOk result (λ b. b ≡ body_of (scope_text scope.entry) (map line_text lines.now)) }
{
    let before = begun(scope.alloc, scope.above, scope.members)?;
    with_lines(scope, before, lines)
}

/// What a unit means beside those above it, which stand in the order of the text; or the first fault of it that its
/// expansion doesn't show.
pub fn flattened(alloc: Global, text: &[u8], above: &[Flat], unit: &Unit) -> Result<Flat, UnitError>
    ensures told { Tells result (fault_of text.now above.now (unit_text unit.now)) }
    ensures flat { IfOk result (λ f. f ≡ flat_of text.now above.now (unit_text unit.now)) }
{
    let name = Text::capitals(alloc, unit.name.text)?;
    check_name(above, name.bytes(), unit.name.left)?;
    let members = members(alloc, unit)?;
    let head = Head {
        above,
        kind: unit.kind,
        name: name.bytes(),
        left: unit.name.left,
    };
    check_members(head, members.as_slice())?;
    let scope = Scope {
        alloc,
        text,
        above,
        members: members.as_slice(),
    };
    let body = body_of(scope, unit.lines.as_slice())?;
    let declarations = declarations_of(alloc, above, members.as_slice())?;
    Ok(Flat::of(unit.kind, name, members, declarations, body))
}
