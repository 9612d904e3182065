//! The line that comes in.

ghost use Rattle.std.specs.Prelude.{◌≡◌, ◌++◌, ◌∷◌, [], ◌↔◌, List, ℕ, codes, false, nat_eq, true, IfOk, OnErr, OnOk};
ghost use Rattle.std.specs.List.{list_any, starts_with};
ghost use Rattle.plc_console.specs.Lines.{is_long_change, kept, longest_line, EndsAt, IsScan, IsWish, IsWishOf};
ghost use Rattle.plc_console.specs.Lines.{StaysAt};

use crate::web::is_of_http;
use il_loader::Image;
use il_model::Command;
use plc_json::{Asked, JsonFault, NamedCommand, Question, read_asked};
use plc_names::meant;
use std::alloc::{AllocError, Global};
use std::marker::Model;

/// So many bytes a line may have, without its end.
const LONGEST: usize = 131_072;

/// So many one of a change to a long image, as `plc ask` writes it.
const LONGEST_CHANGE: usize = 2_105_344;

/// So many lines in a row may be refused; one more ends the session.
const MOST_REFUSED: u8 = 2;

/// LF, which ends a line.
pub(crate) const LINE_END: u8 = b'\n';

/// So many bytes of lines are read at once.
pub(crate) const PIECE: usize = 4096;

/// What a line asks for.
#[derive(Drop)]
pub(crate) enum Wish {
    /// That this command is submitted.
    Submit(Command),
    /// That this is told.
    Tell(Question),
    /// Nothing: it's refused.
    Refuse,
    /// Nothing, and the session ends: it's a line of HTTP.
    Leave,
}

/// What came of a line whose end is still to come: its bytes, or that there are too many.
#[derive(Drop)]
pub(crate) struct Line {
    bytes: Vec<u8>,
    is_too_long: bool,
}

impl Model for Line {
    ghost use Rattle.std.specs.Prelude.{◌≤◌, ℕ, List, Option, Some, None, length, if◌then◌else◌};
    ghost use Rattle.plc_console.specs.declared.line.TheConstants.{LONGEST_CHANGE};

    ghost Value = { Option (List ℕ) };

    ghost view = { λ l. if l.is_too_long then None else Some l.bytes.items };

    ghost invariant = { λ l. length l.bytes.items ≤ LONGEST_CHANGE };
}

impl Line {
    /// Nothing came yet.
    pub(crate) fn new(alloc: Global) -> Line
        ensures { result ≡ kept [] }
    {
        Line {
            bytes: Vec::new(alloc),
            is_too_long: false,
        }
    }

    /// Takes one byte more, which doesn't end the line.
    pub(crate) fn push(&mut self, byte: u8) -> Result<(), AllocError>
        ensures { OnOk result ((line : List ℕ) → self.old ≡ kept line → self.new ≡ kept (line ++ byte ∷ [])) }
    {
        if self.bytes.len() < LONGEST_CHANGE {
            self.bytes.push(byte)?;
        } else {
            self.is_too_long = true;
        }
        Ok(())
    }

    /// The next line begins.
    pub(crate) fn clear(&mut self)
        ensures { self.new ≡ kept [] }
    {
        self.bytes.clear();
        self.is_too_long = false;
    }

    /// The bytes that are kept of it, and these behind them.
    pub(crate) fn followed_by(self, rest: &[u8]) -> Result<Vec<u8>, AllocError> {
        let mut bytes = self.bytes;
        bytes.extend_from_slice(rest)?;
        Ok(bytes)
    }

    /// What the line asks for, the names of a command looked up in the program. The session ends at a line of HTTP. The
    /// line is refused where it's too long, neither a command nor a question, or a scan.
    #[tactic(auto, using(crate::proofs::Kept::http_asked, crate::proofs::Kept::long_asked, crate::proofs::Kept::longer_asked, crate::proofs::Kept::nothing_asked, crate::proofs::Kept::question_asked, crate::proofs::Kept::wish_asked))]
    pub(crate) fn wish(&self, alloc: Global, image: &Image) -> Result<Wish, AllocError>
        ensures { IfOk result (λ wish. (line : List ℕ) → self.now ≡ kept line → IsWish image.now line wish) }
    {
        if self.is_too_long {
            return Ok(Wish::Refuse);
        }
        let line = self.bytes.as_slice();
        if line.len() > longest_line(line) {
            return Ok(Wish::Refuse);
        }
        if is_of_http(line) {
            return Ok(Wish::Leave);
        }
        match read_asked(alloc, line) {
            Ok(Asked::Command(named)) => Ok(unless_scan(image, named)),
            Ok(Asked::Question(question)) => Ok(Wish::Tell(question)),
            Err(JsonFault::Shape) => Ok(Wish::Refuse),
            Err(JsonFault::Memory) => Err(AllocError),
        }
    }
}

/// What came of a session's lines.
#[derive(Drop)]
pub(crate) struct Intake {
    /// The one that isn't at its end.
    pub(crate) line: Line,
    /// So many lines in a row were refused before it.
    pub(crate) refused: u8,
}

impl Intake {
    /// Nothing came yet.
    pub(crate) fn new(alloc: Global) -> Intake
        ensures line { result.line ≡ kept [] }
        ensures refused { result.refused ≡ 0 }
    {
        Intake {
            line: Line::new(alloc),
            refused: 0,
        }
    }
}

/// Counts a line of which this is known among those in a row that were refused: whether the session goes on with it.
pub(crate) fn stays(wish: &Wish, refused: &mut u8) -> bool
    ensures stays { result ≡ true → StaysAt refused.old wish.now refused.new }
    ensures ends { result ≡ false → EndsAt refused.old wish.now }
{
    match wish {
        Wish::Leave => false,
        Wish::Refuse if *refused >= MOST_REFUSED => false,
        Wish::Refuse => {
            *refused += 1;
            true
        }
        Wish::Submit(_) | Wish::Tell(_) => {
            *refused = 0;
            true
        }
    }
}

fn begins_a_long_change(line: &[u8]) -> bool
    ensures { result ≡ starts_with nat_eq line.now (codes "{\"long_change\":\"") }
{
    line.starts_with(b"{\"long_change\":\"")
}

fn has_comma(line: &[u8]) -> bool
    ensures { result ≡ list_any (λ byte. nat_eq 44 byte) line.now }
{
    line.contains(&b',')
}

/// Whether a line is that of a change to a long image, as `plc ask` writes it. It has no comma, so of one that is none
/// after all one text at most is read: a line of so many numbers would take twenty times its own bytes.
fn is_long_change(line: &[u8]) -> bool
    ensures { result ≡ is_long_change line.now }
{
    begins_a_long_change(line) && !has_comma(line)
}

/// So many bytes this line may have.
fn longest_line(line: &[u8]) -> usize
    ensures { result ≡ longest_line line.now }
{
    if is_long_change(line) {
        LONGEST_CHANGE
    } else {
        LONGEST
    }
}

/// What a named command is, unless it's a scan.
fn unless_scan(image: &Image, named: NamedCommand) -> Wish
    ensures { IsWishOf image.now named result }
{
    if is_scan(&named) {
        Wish::Refuse
    } else {
        Wish::Submit(meant(image, named))
    }
}

/// Scans are the driver's alone.
fn is_scan(named: &NamedCommand) -> bool
    ensures { (result ≡ true) ↔ IsScan named.now }
{
    matches!(named, NamedCommand::Plain(Command::Scan { .. }))
}
