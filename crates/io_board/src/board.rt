//! A sequence number and the words, which it guards.

ghost use Rattle.std.specs.Prelude.{◌≡◌, IfOk};

use std::alloc::{AllocError, Global};
use std::array;
use std::marker::Model;
use std::sync::Arc;
use std::sync::atomic::{AtomicU64, Ordering};

/// How often a read begins anew, at most, where a publish crosses it.
const TRIES: u32 = 100;

/// What a writer and its readers share.
#[derive(Drop)]
struct Board<const N: usize> {
    /// Two for each publish, and one more while the words are written: then it is odd.
    sequence: AtomicU64,
    words: [AtomicU64; N],
}

impl<const N: usize> Board<N> {
    fn new(first: [u64; N]) -> Board<N> {
        let board = Board {
            sequence: AtomicU64::new(0),
            words: array::from_fn(|_| AtomicU64::new(0)),
        };
        board.write(&first);
        board
    }

    fn write(&self, words: &[u64; N]) {
        for (cell, word) in self.words.iter().zip(words.iter()) {
            cell.store(*word, Ordering::SeqCst);
        }
    }

    /// The words as they stand, one after the other: each may be of another publish.
    fn load(&self) -> [u64; N] {
        let mut words = [0u64; N];
        for (word, cell) in words.iter_mut().zip(self.words.iter()) {
            *word = cell.load(Ordering::SeqCst);
        }
        words
    }

    /// The words of one publish; none where one was under way, or came between.
    fn read(&self) -> Option<[u64; N]> {
        let before = self.sequence.load(Ordering::SeqCst);
        if before % 2 == 1 {
            return None;
        }
        let words = self.load();
        if self.sequence.load(Ordering::SeqCst) == before {
            Some(words)
        } else {
            None
        }
    }
}

/// Publishes words; it stands for those that it published last. There is one for each board: no writer can be copied.
#[derive(Drop)]
pub struct BoardWriter<const N: usize> {
    board: Arc<Board<N>>,
    last: [u64; N],
}

impl<const N: usize> Model for BoardWriter<N> {
    ghost use Rattle.std.specs.Prelude.{ℕ, List};

    ghost Value = { List ℕ };

    ghost view = { λ w. w.last };
}

impl<const N: usize> BoardWriter<N> {
    /// A board that shows these words. It fails only where memory runs out.
    pub fn new(alloc: Global, first: [u64; N]) -> Result<BoardWriter<N>, AllocError>
        ensures { IfOk result (λ writer. writer ≡ first.entry) }
    {
        Ok(BoardWriter {
            board: Arc::new(alloc, Board::new(first))?,
            last: first,
        })
    }

    /// From now on these words are read.
    pub fn publish(&mut self, words: [u64; N])
        ensures { self.new ≡ words.entry }
    {
        let sequence = self.board.sequence.load(Ordering::SeqCst);
        let board = &self.board;
        board
            .sequence
            .store(sequence.wrapping_add(1), Ordering::SeqCst);
        board.write(&words);
        board
            .sequence
            .store(sequence.wrapping_add(2), Ordering::SeqCst);
        self.last = words;
    }

    /// A reader, which any thread may have. It fails only where there are too many.
    pub fn reader(&self) -> Result<BoardReader<N>, AllocError>
        ensures { IfOk result (λ reader. reader ≡ self.now) }
    {
        Ok(BoardReader {
            board: Arc::try_clone(&self.board)?,
            last: self.last,
        })
    }
}

/// Reads what a writer publishes; it stands for what it read last.
#[derive(Drop)]
pub struct BoardReader<const N: usize> {
    board: Arc<Board<N>>,
    last: [u64; N],
}

impl<const N: usize> Model for BoardReader<N> {
    ghost use Rattle.std.specs.Prelude.{ℕ, List};

    ghost Value = { List ℕ };

    ghost view = { λ r. r.last };
}

impl<const N: usize> BoardReader<N> {
    /// What was published last. Where publishes crossed each try, it is what this reader read before.
    pub fn read(&mut self) -> [u64; N]
        ensures { result ≡ self.new }
    {
        for _ in 0..TRIES {
            if let Some(words) = self.board.read() {
                self.last = words;
                return words;
            }
        }
        self.last
    }

    /// One reader more of the same board. It fails only where there are too many.
    pub fn another(&self) -> Result<BoardReader<N>, AllocError>
        ensures { IfOk result (λ reader. reader ≡ self.now) }
    {
        Ok(BoardReader {
            board: Arc::try_clone(&self.board)?,
            last: self.last,
        })
    }
}
