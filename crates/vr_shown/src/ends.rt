//! What publishes and reads what shows of one replica.

ghost use Rattle.std.specs.Prelude.{◌≡◌, IfOk};
ghost use Rattle.vr_shown.specs.declared.shown.Shown.{Shown as View};
ghost use Rattle.vr_shown.specs.Showing.{at_start, after_step, at_end, not_started, nothing_shown, shown_words};

use crate::shown::{Shown, WORDS, down};
use io_board::{BoardReader, BoardWriter};
use std::alloc::{AllocError, Global};
use std::marker::Model;
use vr_model::Standing;

/// Publishes what shows of one replica; it stands for what it published last.
#[derive(Drop)]
pub struct ShownWriter {
    board: BoardWriter<WORDS>,
    shown: Shown,
}

impl Model for ShownWriter {
    ghost use Rattle.std.specs.Prelude.{◌≡◌};
    ghost use Rattle.vr_shown.specs.declared.shown.Shown.{Shown};
    ghost use Rattle.vr_shown.specs.Showing.{shown_words};

    ghost Value = { Shown };

    ghost view = { λ w. w.shown };

    ghost invariant = { λ w. w.board ≡ shown_words w.shown };
}

impl ShownWriter {
    /// Of a replica no start of which was counted. It fails only where memory runs out.
    pub fn new(alloc: Global) -> Result<ShownWriter, AllocError>
        ensures { IfOk result (λ writer. writer ≡ nothing_shown) }
    {
        let shown = Shown::nothing();
        Ok(ShownWriter {
            board: BoardWriter::new(alloc, shown.words())?,
            shown,
        })
    }

    /// A reader of it, which any thread may have. It fails only where there are too many.
    pub fn reader(&self) -> Result<ShownReader, AllocError> {
        Ok(ShownReader {
            board: self.board.reader()?,
        })
    }

    /// The replica started as this, and its store counted this start, or failed.
    pub fn show_start(&mut self, standing: Standing, starts: Option<u64>)
        ensures { self.new ≡ at_start self.old standing starts }
    {
        let shown = self.shown;
        self.publish(Shown {
            standing,
            starts: starts.unwrap_or(shown.starts),
            has_failed: starts.is_none(),
            tries: shown.tries.saturating_add(1),
            is_served: true,
            frameless: shown.frameless,
        });
    }

    /// The replica could not be started: it is not served.
    pub fn show_not_started(&mut self)
        ensures { self.new ≡ not_started self.old }
    {
        let shown = self.shown;
        self.publish(Shown {
            standing: down(),
            starts: shown.starts,
            has_failed: shown.has_failed,
            tries: shown.tries.saturating_add(1),
            is_served: false,
            frameless: shown.frameless,
        });
    }

    /// The replica is this after a step, in which its store failed or not. So many of its messages were lost so far
    /// because they are too long for a frame.
    pub fn show_step(&mut self, standing: Standing, has_failed: bool, frameless: u64)
        ensures { self.new ≡ after_step self.old standing has_failed frameless }
    {
        let shown = self.shown;
        self.publish(Shown {
            standing,
            starts: shown.starts,
            has_failed: shown.has_failed || has_failed,
            tries: shown.tries,
            is_served: shown.is_served,
            frameless,
        });
    }

    /// The replica is served no more.
    pub fn show_end(&mut self)
        ensures { self.new ≡ at_end self.old }
    {
        let shown = self.shown;
        self.publish(Shown {
            standing: down(),
            starts: shown.starts,
            has_failed: shown.has_failed,
            tries: shown.tries,
            is_served: false,
            frameless: shown.frameless,
        });
    }

    /// From now on this shows.
    pub fn publish(&mut self, shown: Shown)
        ensures { self.new ≡ shown }
    {
        self.board.publish(shown.words());
        self.shown = shown;
    }
}

/// Reads what shows of one replica; it stands for the words that it read last.
#[derive(Drop)]
pub struct ShownReader {
    board: BoardReader<WORDS>,
}

impl Model for ShownReader {
    ghost use Rattle.std.specs.Prelude.{ℕ, List};

    ghost Value = { List ℕ };

    ghost view = { λ r. r.board };
}

impl ShownReader {
    /// What shows now. It waits for nobody: where the replica's thread is just publishing, it may be what this reader
    /// read last.
    pub fn read(&mut self) -> Shown
        ensures { (shown : View) → self.new ≡ shown_words shown → result ≡ shown }
    {
        Shown::from_words(self.board.read())
    }

    /// One reader more of the same replica. It fails only where there are too many.
    pub fn another(&self) -> Result<ShownReader, AllocError> {
        Ok(ShownReader {
            board: self.board.another()?,
        })
    }
}
