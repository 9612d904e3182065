//! What a session and the scan driver write to and sample.
ghost use Rattle.std.specs.Prelude.{◌≡◌, ◌+◌, ◌<◌, ◌≤◌, ◌↔◌, true, length, IfOk, OnErr, Err, Option, Some, None};

use crate::book::{Sample, StageBook, StageError, Ticket, Written};
use il_model::{BITS, InImage, WORDS};
use std::sync::{Mutex, Wait};

/// Staged inputs. An implementation tells its book, or tells nothing where other threads write between two calls.
pub trait Staging {
    ghost use Rattle.std.specs.Prelude.{◌≡◌, ◌+◌, ◌<◌, ◌≤◌, ◌↔◌, true, length, IfOk, OnErr, Err, Option};
    ghost use Rattle.io_image.specs.Book.{Book, bits_at, words_at, mask_at, is_full, after_change, Changed};
    ghost use Rattle.io_image.specs.Calls.{Does, read_gave, sample_gave, wrote};
    ghost use Rattle.il_model.specs.declared.cells.Cells.{Cells as SomeCells};

    ghost told: { Self → Option Book };

    /// The cells with each write so far. It takes no memory.
    fn read(&mut self) -> InImage
        ensures { Changed (told self.old) (told self.new) (λ b c. Does b (read_gave result.cells) c) };

    /// The cells with each write so far, and the next ticket's number. It forgets the writes, and takes no memory.
    fn sample(&mut self) -> Sample
        ensures { Changed (told self.old) (told self.new)
            (λ b c. Does b (sample_gave result.inputs.cells result.next) c) };

    /// Writes these bits, the first at `address` of 0 to 511, all or none. `Address` where one lies past the area, else
    /// `Full` at 4096 writes since the last sample or where the tickets are used up, else `Memory` where a growth was
    /// refused. After an `Err` the book is as it was.
    fn write_bits(&mut self, address: usize, values: &[bool]) -> Result<Ticket, StageError>
        ensures address { (result ≡ Err StageError.Address) ↔ (BITS < address + length values.now) }
        ensures told { Changed (told self.old) (told self.new)
            (λ b c. IfOk result (λ t. Does b (wrote (bits_at address values.now) t.number) c) × OnErr result (c ≡ b)
            × ((result ≡ Err StageError.Full) ↔ ((address + length values.now ≤ BITS) × (is_full b ≡ true)))) };

    /// Writes these words, the first at `address` of 0 to 63, all or none. `Address` where one lies past the area, else
    /// `Full` at 4096 writes since the last sample or where the tickets are used up, else `Memory` where a growth was
    /// refused. After an `Err` the book is as it was.
    fn write_words(&mut self, address: usize, values: &[i16]) -> Result<Ticket, StageError>
        ensures address { (result ≡ Err StageError.Address) ↔ (WORDS < address + length values.now) }
        ensures told { Changed (told self.old) (told self.new)
            (λ b c. IfOk result (λ t. Does b (wrote (words_at address values.now) t.number) c) × OnErr result (c ≡ b)
            × ((result ≡ Err StageError.Full) ↔ ((address + length values.now ≤ WORDS) × (is_full b ≡ true)))) };

    /// Lays two masks on the word at `address` of 0 to 63 as it is now: the bits that are set in `and_mask` stay, the
    /// others become those of `or_mask`. `Address` where there is no such word, else `Full` at 4096 writes since the
    /// last sample or where the tickets are used up, else `Memory` where a growth was refused. After an `Err` the book
    /// is as it was.
    fn mask_word(
        &mut self,
        address: usize,
        and_mask: u16,
        or_mask: u16,
    ) -> Result<Ticket, StageError>
        ensures address { (result ≡ Err StageError.Address) ↔ (WORDS ≤ address) }
        ensures told { Changed (told self.old) (told self.new)
            (λ b c. IfOk result (λ t. Does b (wrote (mask_at address and_mask or_mask) t.number) c)
            × OnErr result (c ≡ b) × ((result ≡ Err StageError.Full) ↔ ((address < WORDS) × (is_full b ≡ true)))) };

    /// Writes these words, the first at `address` of 0 to 63, all or none, and shows the cells just after it, which
    /// have them, whether the book is told or not. `Address` where one lies past the area, else `Full` at 4096 writes
    /// since the last sample or where the tickets are used up, else `Memory` where a growth was refused. After an `Err`
    /// the book is as it was.
    fn write_read(&mut self, address: usize, values: &[i16]) -> Result<Written, StageError>
        ensures address { (result ≡ Err StageError.Address) ↔ (WORDS < address + length values.now) }
        ensures shown { IfOk result
            (λ w. (cells : SomeCells) × (w.inputs.cells ≡ after_change cells (words_at address values.now))) }
        ensures told { Changed (told self.old) (told self.new)
            (λ b c. IfOk result
            (λ w. Does b (wrote (words_at address values.now) w.ticket.number) c × Does c (read_gave w.inputs.cells) c)
            × OnErr result (c ≡ b)
            × ((result ≡ Err StageError.Full) ↔ ((address + length values.now ≤ WORDS) × (is_full b ≡ true)))) };
}

impl Staging for StageBook {
    ghost told = { λ b. Some b };

    fn read(&mut self) -> InImage {
        StageBook::read(self)
    }

    fn sample(&mut self) -> Sample {
        StageBook::sample(self)
    }

    fn write_bits(&mut self, address: usize, values: &[bool]) -> Result<Ticket, StageError> {
        StageBook::write_bits(self, address, values)
    }

    fn write_words(&mut self, address: usize, values: &[i16]) -> Result<Ticket, StageError> {
        StageBook::write_words(self, address, values)
    }

    fn mask_word(
        &mut self,
        address: usize,
        and_mask: u16,
        or_mask: u16,
    ) -> Result<Ticket, StageError> {
        StageBook::mask_word(self, address, and_mask, or_mask)
    }

    fn write_read(&mut self, address: usize, values: &[i16]) -> Result<Written, StageError> {
        StageBook::write_read(self, address, values)
    }
}

/// A book that threads share behind a lock. Whenever the lock is free, what it guards is a book.
#[derive(Drop)]
pub struct Stage {
    book: Mutex<StageBook>,
}

impl Stage {
    /// Puts a book behind a lock.
    pub fn new(book: StageBook) -> Stage {
        Stage {
            book: Mutex::new(book),
        }
    }

    /// A handle for one thread.
    pub fn handle<'a, R: Wait>(&'a self, rt: &'a R) -> StageHandle<'a, R> {
        StageHandle { stage: self, rt }
    }
}

/// One thread's handle to a shared book. Each call holds the lock once, for one call of the book. It waits for other
/// threads, and tells nothing.
#[derive(Drop)]
pub struct StageHandle<'a, R: Wait> {
    stage: &'a Stage,
    rt: &'a R,
}

impl<'a, R: Wait> Staging for StageHandle<'a, R> {
    ghost told = { λ _. None };

    fn read(&mut self) -> InImage {
        self.stage.book.lock(self.rt).read()
    }

    fn sample(&mut self) -> Sample {
        self.stage.book.lock(self.rt).sample()
    }

    fn write_bits(&mut self, address: usize, values: &[bool]) -> Result<Ticket, StageError> {
        self.stage.book.lock(self.rt).write_bits(address, values)
    }

    fn write_words(&mut self, address: usize, values: &[i16]) -> Result<Ticket, StageError> {
        self.stage.book.lock(self.rt).write_words(address, values)
    }

    fn mask_word(
        &mut self,
        address: usize,
        and_mask: u16,
        or_mask: u16,
    ) -> Result<Ticket, StageError> {
        self.stage
            .book
            .lock(self.rt)
            .mask_word(address, and_mask, or_mask)
    }

    fn write_read(&mut self, address: usize, values: &[i16]) -> Result<Written, StageError> {
        self.stage.book.lock(self.rt).write_read(address, values)
    }
}
