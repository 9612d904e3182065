//! What comes in over a connection.

ghost use Rattle.std.specs.Prelude.{◌≡◌, ◌+◌, ◌<◌, ◌≤◌, ◌⊎◌, ◌↔◌, [], length, IfOk, IsTrue, OnOk};
ghost use Rattle.io_model.specs.Streams.{Rest, IsRest};
ghost use Rattle.net_ends.specs.Ends.{Reads, Filled, Given, KeepsPiece, IsOver, most_tries, Counts, HasPaused};
ghost use Rattle.net_ends.specs.declared.inbox.Flow.TheVariants.{More, Dry, Kept, Over};

use crate::non_blocking::{NonBlockingRead, Stop};
use std::alloc::{AllocError, Global};
use std::marker::Model;
use vr_model::Message;
use vr_wire::{Feed, WireError};

/// So many bytes are read at once.
const PIECE: usize = 1 << 16;

/// So often a piece is fed for which memory runs out.
const MOST_TRIES: u32 = 100;

/// How a read went.
#[derive(Clone, Copy, Debug, PartialEq, Eq)]
pub enum Flow {
    /// There may be more at once.
    More,
    /// There is no more for now.
    Dry,
    /// Memory ran out: the piece that was read is kept, and fed again.
    Kept,
    /// Nothing comes any more: the connection ended or failed, its bytes are no frames, or memory ran out for them too
    /// often.
    Over,
}

/// The frames that come in, of which one may have come in part.
#[derive(Drop)]
pub struct Inbox {
    feed: Feed,
    piece: Vec<u8>,
    /// So many bytes of the piece wait to be fed.
    unfed: usize,
    /// So often in a row memory ran out for them.
    tries: u32,
}

impl Model for Inbox {
    ghost use Rattle.std.specs.Prelude.{◌≤◌, ◌<◌, length, take};
    ghost use Rattle.net_ends.specs.Ends.{Reading};

    ghost Value = { Reading };

    ghost view = { λ i. record { stream = i.feed; kept = take i.unfed i.piece.items; tries = i.tries } };

    ghost invariant = { λ i. (i.unfed ≤ length i.piece.items) × (0 < length i.piece.items) };
}

impl Inbox {
    /// Nothing came yet. It fails only where memory runs out.
    pub fn new(alloc: Global) -> Result<Inbox, AllocError>
        ensures { IfOk result (λ inbox. inbox ≡ record { stream = Rest []; kept = []; tries = 0 }) }
    {
        Ok(Inbox {
            feed: Feed::new(alloc),
            piece: Vec::from_elem(alloc, 0, PIECE)?,
            unfed: 0,
            tries: 0,
        })
    }

    /// Whether a piece waits to be fed again.
    pub fn is_kept(&self) -> bool
        ensures { IsTrue result ↔ (0 < length self.now.kept) }
    {
        self.unfed > 0
    }

    /// Reads once, and adds the messages that are whole now.
    pub fn read<R: NonBlockingRead>(
        &mut self,
        alloc: Global,
        reader: &mut R,
        out: &mut Vec<Message>,
    ) -> Flow
        ensures reads { Reads result self.old self.new (R.left reader.old) (R.left reader.new)
            out.old.items out.new.items }
        ensures more { result ≡ More → (self.new.kept ≡ []) × (self.new.tries ≡ 0) }
        ensures dry { result ≡ Dry → HasPaused (R.stops reader.old) (R.stops reader.new) }
        ensures over { result ≡ Over → IsOver (R.stops reader.old) (R.stops reader.new) self.old self.new }
        ensures broken { IsRest self.old.stream → (result ≡ Over → ⊥) → IsRest self.new.stream }
        ensures memory { result ≡ Kept → (self.new.stream ≡ self.old.stream) × (out.new.items ≡ out.old.items) }
        ensures tries { result ≡ Kept → (self.new.tries ≡ self.old.tries + 1) × (self.new.tries ≤ most_tries) }
    {
        match self.fill(reader) {
            Ok(()) => self.give(alloc, out),
            Err(Stop::ForNow) => Flow::Dry,
            Err(Stop::ForGood) => Flow::Over,
        }
    }

    /// Reads a piece, unless one is kept.
    fn fill<R: NonBlockingRead>(&mut self, reader: &mut R) -> Result<(), Stop>
        ensures filled { Filled self.old self.new (R.left reader.old) (R.left reader.new) }
        ensures some { OnOk result (0 < length self.new.kept) }
        ensures stops { Counts result (R.stops reader.old) (R.stops reader.new) }
    {
        if self.unfed == 0 {
            self.unfed = reader.read(self.piece.as_mut_slice())?;
        }
        Ok(())
    }

    /// Feeds what is kept.
    fn give(&mut self, alloc: Global, out: &mut Vec<Message>) -> Flow
        ensures given { Given self.old self.new out.old.items out.new.items }
        ensures more { result ≡ More → (self.new.kept ≡ []) × (self.new.tries ≡ 0) }
        ensures dry { result ≡ Dry → ⊥ }
        ensures kept { result ≡ Kept → KeepsPiece self.old self.new × (out.new.items ≡ out.old.items) }
        ensures over { result ≡ Over → (IsRest self.new.stream → ⊥) ⊎ (most_tries ≤ self.old.tries) }
        ensures broken { IsRest self.old.stream → (result ≡ Over → ⊥) → IsRest self.new.stream }
    {
        match self.feed.feed(alloc, &self.piece[..self.unfed], out) {
            Ok(()) => {
                self.unfed = 0;
                self.tries = 0;
                Flow::More
            }
            Err(WireError::Memory) => self.keep(),
            Err(WireError::Fault(_)) => {
                self.unfed = 0;
                Flow::Over
            }
        }
    }

    /// Keeps the piece, to be fed again, unless memory ran out for it too often.
    fn keep(&mut self) -> Flow
        ensures kept { result ≡ Kept → KeepsPiece self.old self.new }
        ensures over { result ≡ Over → (most_tries ≤ self.old.tries) × (self.new ≡ self.old) }
        ensures others { (result ≡ More → ⊥) × (result ≡ Dry → ⊥) }
    {
        if self.tries >= MOST_TRIES {
            return Flow::Over;
        }
        self.tries += 1;
        Flow::Kept
    }
}
