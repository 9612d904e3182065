//! A text that was read.

ghost use Rattle.std.specs.Prelude.{◌≡◌, ◌<◌, ◌^◌, IfOk};
ghost use Rattle.il_reader.specs.Texts.{text_limit, Reads, Answers};
ghost use Rattle.il_reader.specs.FirstFault.{IsGiven, TellsFirst, IsTold};
ghost use Rattle.il_reader.specs.Walk.{source_of};

use crate::contents::{Block, Contents, Line};
use crate::dialect::dialect_of;
use crate::fault::{Failure, Fault, FaultKind, ReadError};
use crate::place::{Place, place_of};
use crate::whole::whole;
use il_model::Dialect;
use std::alloc::Global;
use std::marker::Model;

/// A text with what it says. It borrows the text, so that each of its tokens has its place.
#[derive(Drop)]
pub struct Source<'a> {
    text: &'a [u8],
    contents: Contents<'a>,
}

impl<'a> Model for Source<'a> {
    ghost use Rattle.il_reader.specs.Texts.{SourceText, IsSource, source_text};

    ghost Value = { SourceText };

    ghost view = { λ s. source_text s.text.now s.contents };

    ghost invariant = { λ s. IsSource (source_text s.text.now s.contents) };
}

/// The greatest length of a plain text, in bytes.
pub const TEXT_LIMIT: usize = 2_097_152;

/// The greatest length of an extended text, in bytes.
pub const EXTENDED_TEXT_LIMIT: usize = 8_388_608;

fn text_limit(dialect: Dialect) -> usize
    ensures value { result ≡ text_limit dialect }
    ensures small { result < 2 ^ 32 }
{
    match dialect {
        Dialect::Plain => TEXT_LIMIT,
        Dialect::Extended => EXTENDED_TEXT_LIMIT,
    }
}

impl<'a> Source<'a> {
    ghost use Rattle.std.specs.Prelude.{map};
    ghost use Rattle.il_reader.specs.Grammar.{block_text, line, dialect_of};
    ghost use Rattle.il_reader.specs.Texts.{place_at, IsSource};
    ghost use Rattle.il_reader.specs.Words.{AreWords};

    /// What is known of every source: its text is short enough, and it says this; and its names are names, and its
    /// operators take what stands behind them.
    pub fn is_read(&self)
        ensures source { IsSource self.now }
        ensures words { AreWords (dialect_of self.now.text) self.now.says }
    {
        let _contents = &self.contents;
    }

    /// The blocks of declarations, in the order of the text.
    pub fn blocks(&self) -> &[Block<'a>]
        ensures { map block_text result.now ≡ self.now.says.blocks }
    {
        self.contents.blocks.as_slice()
    }

    /// The instruction lines, in the order of the text.
    pub fn lines(&self) -> &[Line<'a>]
        ensures { map line result.now ≡ self.now.says.lines }
    {
        self.contents.lines.as_slice()
    }

    /// The dialect of the text, as its first word tells it.
    pub fn dialect(&self) -> Dialect
        ensures { result ≡ dialect_of self.now.text }
    {
        dialect_of(self.text)
    }

    /// Where the byte of the text stands from which on so many are left.
    #[tactic(auto, using(crate::proofs::Sources::limit_small))]
    pub fn place(&self, left: usize) -> Place
        ensures { result ≡ place_at self.now.text left }
    {
        place_of(self.text, left)
    }
}

/// What a text says, or the fault at which the walk over it ends.
fn walked(alloc: Global, bytes: &[u8]) -> Result<Source<'_>, ReadError>
    ensures found { IfOk result (λ s. Reads bytes.now s) }
    ensures only { IsGiven bytes.now result }
    ensures exact { Answers (λ s. s) result (source_of bytes.now) }
{
    let dialect = dialect_of(bytes);
    if bytes.len() > text_limit(dialect) {
        return Err(ReadError::Fault(Fault {
            kind: FaultKind::TooLong,
            place: Place { line: 1, column: 1 },
        }));
    }
    match whole(dialect, alloc, bytes) {
        Ok(contents) => Ok(Source {
            text: bytes,
            contents,
        }),
        Err(Failure::Refused(refusal)) => Err(ReadError::Fault(Fault {
            kind: refusal.kind,
            place: place_of(bytes, refusal.left),
        })),
        Err(Failure::Memory) => Err(ReadError::Memory),
    }
}

/// Reads a text (IEC 61131-3:2003, 3.2 and Annex B: declarations with locations and initial values, labels, all
/// operators, fields of instances, calls with lists of inputs and outputs). A text that begins with VAR_GLOBAL, which no
/// colon follows, is an extended text, and has at most 8,388,608 bytes; any other has at most 2,097,152. A longer text is
/// too long at 1:1, before all else. Answers the first fault in the text, or that memory ran out.
pub fn read(alloc: Global, bytes: &[u8]) -> Result<Source<'_>, ReadError>
    // What is read is what the text says.
    ensures found { IfOk result (λ s. Reads bytes.now s) }
    // What the text says is read, unless memory runs out.
    ensures only { IsGiven bytes.now result }
    // A fault that is told is the first of the text: it stands at the first token with which no text begins.
    ensures refused { TellsFirst bytes.now result }
    // The first fault of the text is told, unless memory runs out.
    ensures told { IsTold bytes.now result }
{
    walked(alloc, bytes)
}
