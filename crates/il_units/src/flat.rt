//! What a unit means by itself: its declarations and its lines, in which all that it calls is replaced.

ghost use Rattle.std.specs.Prelude.{◌≡◌, ◌++◌, map, length, IfOk, OnOk, option_copied};
ghost use Rattle.std.specs.List.{flat_map};
ghost use Rattle.il_units.specs.Words.{placed_entry, placing, moved_entry};

use crate::contents::{SectionKind, UnitKind};
use crate::members::{Member, member_named};
use crate::word::{Entry, Line, Sort, Spot, Text};
use std::alloc::{AllocError, Global};
use std::marker::Model;

/// Own blocks and functions stand in each other at most so deep.
pub const MOST_DEPTH: usize = 16;

/// A unit with all that it calls replaced. Its names are those of the unit alone.
#[derive(Drop)]
pub struct Flat {
    kind: UnitKind,
    name: Text,
    members: Vec<Member>,
    /// The variables of the functions that it uses, and of those that they use.
    shared: Vec<Entry>,
    /// Its VAR_IN_OUT.
    bound: Vec<Entry>,
    /// Its other variables, its instances, and those under its own instances.
    declared: Vec<Entry>,
    lines: Vec<Line>,
    /// How many units stand in each other there, itself counted.
    depth: usize,
}

impl Model for Flat {
    ghost use Rattle.il_units.specs.Flats.{FlatUnit};

    ghost Value = { FlatUnit };

    ghost view = { λ f. record {
      kind = f.kind;
      name = f.name;
      members = f.members.items;
      shared = f.shared.items;
      bound = f.bound.items;
      declared = f.declared.items;
      lines = f.lines.items;
      depth = f.depth;
    } };
}

/// What lines come to: what they share, the lines, and how many units stand in each other below.
#[derive(Drop)]
pub struct Body {
    shared: Vec<Entry>,
    lines: Vec<Line>,
    depth: usize,
}

impl Model for Body {
    ghost use Rattle.il_units.specs.Flats.{Body as BodyText};

    ghost Value = { BodyText };

    ghost view = { λ b. record { shared = b.shared.items; lines = b.lines.items; depth = b.depth } };
}

/// What a unit declares.
#[derive(Drop)]
pub struct Declarations {
    pub bound: Vec<Entry>,
    pub declared: Vec<Entry>,
}

impl Flat {
    ghost use Rattle.std.specs.Prelude.{◌≡◌};
    ghost use Rattle.il_units.specs.Flats.{is_block, one_deeper};

    /// A unit of these parts.
    pub fn of(
        kind: UnitKind,
        name: Text,
        members: Vec<Member>,
        declarations: Declarations,
        body: Body,
    ) -> Flat
        ensures { result ≡ record {
          kind = kind;
          name = name;
          members = members.items;
          shared = body.shared;
          bound = declarations.bound.items;
          declared = declarations.declared.items;
          lines = body.lines;
          depth = one_deeper body.depth;
        } }
    {
        let Declarations { bound, declared } = declarations;
        let (shared, lines, below) = body.into_parts();
        Flat {
            kind,
            name,
            members,
            shared,
            bound,
            declared,
            lines,
            depth: one_deeper(below),
        }
    }

    /// What the unit is.
    pub fn kind(&self) -> UnitKind
        ensures { result ≡ self.now.kind }
    {
        self.kind
    }

    /// Whether it is a function block.
    pub fn is_block(&self) -> bool
        ensures { result ≡ is_block self.now.kind }
    {
        matches!(self.kind, UnitKind::FunctionBlock)
    }

    /// The name, in capital letters.
    pub fn name(&self) -> &[u8]
        ensures { result.now ≡ self.now.name }
    {
        self.name.bytes()
    }

    /// The variables and instances that it declares, in the order of the text.
    pub fn members(&self) -> &[Member]
        ensures { result.now ≡ self.now.members }
    {
        self.members.as_slice()
    }

    /// The variables of the functions that it uses.
    pub fn shared(&self) -> &[Entry]
        ensures { result.now ≡ self.now.shared }
    {
        self.shared.as_slice()
    }

    /// Its VAR_IN_OUT.
    pub fn bound(&self) -> &[Entry]
        ensures { result.now ≡ self.now.bound }
    {
        self.bound.as_slice()
    }

    /// Its other variables, its instances, and those under its own instances.
    pub fn declared(&self) -> &[Entry]
        ensures { result.now ≡ self.now.declared }
    {
        self.declared.as_slice()
    }

    /// Its lines.
    pub fn lines(&self) -> &[Line]
        ensures { result.now ≡ self.now.lines }
    {
        self.lines.as_slice()
    }

    /// How many units stand in each other there, itself counted.
    pub fn depth(&self) -> usize
        ensures { result ≡ self.now.depth }
    {
        self.depth
    }
}

ghost use Rattle.il_units.specs.Flats.{unit_named, block_named, block_of, under_instance, declared_by, declared_in};
ghost use Rattle.il_units.specs.Flats.{bound_in, is_known, with_new, with_shared, greater, brought_by, brought};
ghost use Rattle.il_units.specs.Flats.{begun_from, joined, no_lines, only_lines, one_deeper};

/// The unit of a name in capital letters.
pub fn unit_named<'t>(above: &'t [Flat], name: &[u8]) -> Option<&'t Flat>
    ensures { option_copied result ≡ unit_named above.entry.now name.now }
{
    above.iter().find(|unit| unit.name() == name)
}

/// The block of a name in capital letters.
pub fn block_named<'t>(above: &'t [Flat], name: &[u8]) -> Option<&'t Flat>
    ensures { option_copied result ≡ block_named above.entry.now name.now }
{
    match unit_named(above, name) {
        Some(unit) if unit.is_block() => Some(unit),
        _ => None,
    }
}

/// The own block of which the member of a name is an instance.
pub fn block_of<'t>(above: &'t [Flat], members: &[Member], name: &[u8]) -> Option<&'t Flat>
    ensures { option_copied result ≡ block_of above.entry.now members.now name.now }
{
    match member_named(members, name) {
        Some(m) => block_named(above, m.ty.text.bytes()),
        None => None,
    }
}

// ---- what a unit declares

/// Puts all that stands under an instance of an own block behind the others.
fn push_under(
    alloc: Global,
    found: &mut Vec<Entry>,
    m: &Member,
    block: &Flat,
) -> Result<(), AllocError>
    ensures { OnOk result (found.new.items ≡ found.old.items ++ under_instance m.now block.now) }
{
    let at = Spot {
        front: m.name.text.bytes(),
        sort: Sort::Own,
        call: &[],
        given: &[],
        left: m.name.left,
    };
    for e in block.declared() {
        found.push(e.placed(alloc, at, m.retained)?)?;
    }
    Ok(())
}

fn push_declared(
    alloc: Global,
    found: &mut Vec<Entry>,
    above: &[Flat],
    m: &Member,
) -> Result<(), AllocError>
    ensures { OnOk result (found.new.items
        ≡ found.old.items ++ declared_by (block_named above.now m.now.ty.text) m.now) }
{
    match block_named(above, m.ty.text.bytes()) {
        Some(block) => push_under(alloc, found, m, block),
        None => {
            found.push(m.declaration(alloc)?)?;
            Ok(())
        }
    }
}

/// Puts what a member declares behind the others.
fn push_member(
    alloc: Global,
    found: &mut Vec<Entry>,
    above: &[Flat],
    m: &Member,
) -> Result<(), AllocError>
    ensures { OnOk result (found.new.items ≡ found.old.items ++ declared_in above.now m.now) }
{
    match m.kind {
        SectionKind::Constant | SectionKind::InOut => Ok(()),
        SectionKind::Local | SectionKind::Input | SectionKind::Output => {
            push_declared(alloc, found, above, m)
        }
    }
}

/// All that the members declare.
fn declared_in(alloc: Global, above: &[Flat], members: &[Member]) -> Result<Vec<Entry>, AllocError>
    ensures { IfOk result (λ v. v.items ≡ flat_map (declared_in above.now) members.now) }
{
    let mut found = Vec::new(alloc);
    for m in members {
        push_member(alloc, &mut found, above, m)?;
    }
    Ok(found)
}

/// Puts the declaration of a VAR_IN_OUT behind the others.
fn push_bound(alloc: Global, found: &mut Vec<Entry>, m: &Member) -> Result<(), AllocError>
    ensures { OnOk result (found.new.items ≡ found.old.items ++ bound_in m.now) }
{
    match m.kind {
        SectionKind::InOut => {
            found.push(m.declaration(alloc)?)?;
            Ok(())
        }
        _ => Ok(()),
    }
}

/// The declarations of all VAR_IN_OUT.
fn bound_in(alloc: Global, members: &[Member]) -> Result<Vec<Entry>, AllocError>
    ensures { IfOk result (λ v. v.items ≡ flat_map bound_in members.now) }
{
    let mut found = Vec::new(alloc);
    for m in members {
        push_bound(alloc, &mut found, m)?;
    }
    Ok(found)
}

/// What a unit declares.
pub fn declarations_of(
    alloc: Global,
    above: &[Flat],
    members: &[Member],
) -> Result<Declarations, AllocError>
    ensures bound { IfOk result (λ d. d.bound.items ≡ flat_map bound_in members.now) }
    ensures declared { IfOk result (λ d. d.declared.items ≡ flat_map (declared_in above.now) members.now) }
{
    let bound = bound_in(alloc, members)?;
    let declared = declared_in(alloc, above, members)?;
    Ok(Declarations { bound, declared })
}

// ---- what lines come to

/// Whether a name is declared.
fn is_known(known: &[Entry], e: &Entry) -> bool
    ensures { result ≡ is_known known.now e.now }
{
    known.iter().any(|k| k.name.text.is(e.name.text.bytes()))
}

/// Puts what is declared for all uses of a function behind the others, where it isn't there yet.
fn put_new(known: &mut Vec<Entry>, e: Entry) -> Result<(), AllocError>
    ensures { OnOk result (known.new.items ≡ with_new known.old.items e) }
{
    if !is_known(known.as_slice(), &e) {
        known.push(e)?;
    }
    Ok(())
}

#[tactic(auto, using(crate::proofs::Joined::with_shared_more), unfolding(crate::specs::Flats::with_shared))]
fn put_shared(known: &mut Vec<Entry>, more: Vec<Entry>) -> Result<(), AllocError>
    ensures { OnOk result (known.new.items ≡ with_shared known.old.items more.items) }
{
    for e in more {
        put_new(known, e)?;
    }
    Ok(())
}

fn put_lines(lines: &mut Vec<Line>, more: Vec<Line>) -> Result<(), AllocError>
    ensures { OnOk result (lines.new.items ≡ lines.old.items ++ more.items) }
{
    for line in more {
        lines.push(line)?;
    }
    Ok(())
}

fn one_deeper(depth: usize) -> usize
    ensures { result ≡ one_deeper depth }
{
    if depth < MOST_DEPTH { depth + 1 } else { depth }
}

fn greater(m: usize, n: usize) -> usize
    ensures { result ≡ greater m n }
{
    if m < n { n } else { m }
}

/// The declarations that a block shares, where there is an instance of it.
fn moved_shared(alloc: Global, block: &Flat, left: usize) -> Result<Vec<Entry>, AllocError>
    ensures { IfOk result (λ v. v.items ≡ map (moved_entry left) block.now.shared) }
{
    let mut found = Vec::new(alloc);
    for e in block.shared() {
        found.push(e.moved(alloc, left)?)?;
    }
    Ok(found)
}

impl Body {
    ghost use Rattle.std.specs.Prelude.{◌≡◌, IfOk, length};
    ghost use Rattle.il_units.specs.Flats.{no_lines, only_lines, joined, brought, begun_from};

    /// Nothing.
    pub fn new(alloc: Global) -> Body
        ensures { result ≡ no_lines }
    {
        Body {
            shared: Vec::new(alloc),
            lines: Vec::new(alloc),
            depth: 0,
        }
    }

    /// Lines that share nothing.
    pub fn lines(alloc: Global, lines: Vec<Line>) -> Body
        ensures { result ≡ only_lines lines.items }
    {
        Body {
            shared: Vec::new(alloc),
            lines,
            depth: 0,
        }
    }

    /// Lines, what they share, and the depth.
    pub fn of(shared: Vec<Entry>, lines: Vec<Line>, depth: usize) -> Body
        ensures { result ≡ record { shared = shared.items; lines = lines.items; depth = depth } }
    {
        Body {
            shared,
            lines,
            depth,
        }
    }

    /// How many lines there are.
    pub fn line_count(&self) -> usize
        ensures { result ≡ length self.now.lines }
    {
        self.lines.len()
    }

    /// The one behind the other.
    pub fn joined(self, more: Body) -> Result<Body, AllocError>
        ensures { IfOk result (λ b. b ≡ joined self more) }
    {
        let Body {
            mut shared,
            mut lines,
            depth,
        } = self;
        let Body {
            shared: new,
            lines: behind,
            depth: other,
        } = more;
        put_shared(&mut shared, new)?;
        put_lines(&mut lines, behind)?;
        let depth = greater(depth, other);
        Ok(Body {
            shared,
            lines,
            depth,
        })
    }

    /// The parts of it: what is shared, the lines and the depth.
    pub fn into_parts(self) -> (Vec<Entry>, Vec<Line>, usize)
        ensures shared { result.0.items ≡ self.shared }
        ensures lines { result.1.items ≡ self.lines }
        ensures depth { result.2 ≡ self.depth }
    {
        (self.shared, self.lines, self.depth)
    }
}

/// What the block brings of which a member is an instance.
fn brought(alloc: Global, above: &[Flat], m: &Member) -> Result<Body, AllocError>
    ensures { IfOk result (λ b. b ≡ brought above.now m.now) }
{
    match block_named(above, m.ty.text.bytes()) {
        Some(block) => {
            let shared = moved_shared(alloc, block, m.name.left)?;
            Ok(Body::of(shared, Vec::new(alloc), block.depth()))
        }
        None => Ok(Body::new(alloc)),
    }
}

/// What the blocks bring of which the members are instances.
#[tactic(auto, unfolding(crate::specs::Flats::begun_from))]
pub fn begun(alloc: Global, above: &[Flat], members: &[Member]) -> Result<Body, AllocError>
    ensures { IfOk result (λ b. b ≡ begun_from above.now no_lines members.now) }
{
    let mut body = Body::new(alloc);
    for m in members {
        body = body.joined(brought(alloc, above, m)?)?;
    }
    Ok(body)
}
