//! The book of staged writes.
ghost use Rattle.std.specs.Prelude.{◌≡◌, ◌≢◌, ◌+◌, ◌<◌, ◌≤◌, ◌↔◌, true, false, length, IfOk, IfErr, OnErr, Err, IsTrue};
ghost use Rattle.io_image.specs.Book.{Book, bits_at, words_at, mask_at, masked, cells_of, is_full, new_book};
ghost use Rattle.io_image.specs.Book.{LiesInside, change_of};
ghost use Rattle.io_image.specs.Calls.{Does, read_gave, sample_gave, wrote};

use il_model::{BITS, Cells, InImage, WORDS};
use std::alloc::{AllocError, Global};
use std::marker::Model;
use thiserror::Error;

/// So many writes may stand between two samples.
const MOST_WRITES: usize = 4096;

/// The number of a write that was taken. A book's tickets are 0, 1, 2 and so on, and never the greatest `u64`.
#[derive(Clone, Copy, Debug, PartialEq, Eq)]
pub struct Ticket {
    pub number: u64,
}

/// The cells with each write that has a ticket below `next`, the number of the next ticket.
#[derive(Clone, Copy, Debug, PartialEq, Eq)]
pub struct Sample {
    pub inputs: InImage,
    pub next: u64,
}

/// The ticket of a write, and the cells just after it.
#[derive(Clone, Copy, PartialEq, Eq)]
pub struct Written {
    pub ticket: Ticket,
    pub inputs: InImage,
}

/// Why a write was not taken. The book is as it was.
#[derive(Clone, Copy, Debug, Error, PartialEq, Eq)]
pub enum StageError {
    #[error("the write leaves the area")]
    Address,
    #[error("too many writes since the last sample")]
    Full,
    #[error("no memory for the write")]
    Memory,
}

#[derive(Drop)]
enum Entry {
    Bits(usize, Vec<bool>),
    Words(usize, Vec<i16>),
    Mask(usize, u16, u16),
}

impl Entry {
    ghost use Rattle.std.specs.Prelude.{◌≡◌};
    ghost use Rattle.io_image.specs.Book.{after_change, LiesInside, change_of};

    /// The cells after this write.
    fn over(&self, mut cells: Cells) -> Cells
        requires inside { LiesInside (change_of self.now) }
        ensures { result ≡ after_change cells (change_of self.now) }
    {
        match self {
            Entry::Bits(at, values) => {
                cells.bits[*at..*at + values.len()].copy_from_slice(values.as_slice());
            }
            Entry::Words(at, values) => {
                cells.words[*at..*at + values.len()].copy_from_slice(values.as_slice());
            }
            Entry::Mask(at, and_mask, or_mask) => {
                cells.words[*at] = masked(cells.words[*at], *and_mask, *or_mask);
            }
        }
        cells
    }
}

/// The last sample and the writes since then. It keeps the cells as they are now beside them.
#[derive(Drop)]
pub struct StageBook {
    sample: Cells,
    entries: Vec<Entry>,
    next: u64,
    cells: Cells,
}

impl Model for StageBook {
    ghost use Rattle.std.specs.Prelude.{◌≡◌, ◌≤◌, length};
    ghost use Rattle.io_image.specs.Book.{Book, replayed};
    ghost use Rattle.io_image.specs.declared.book.TheConstants.{MOST_WRITES};

    ghost Value = { Book };

    ghost use Rattle.io_image.specs.Book.{changes_of};

    ghost view = { λ b. record { sample = b.sample; changes = changes_of b.entries.items; next = b.next } };

    ghost invariant = { λ b. (b.cells ≡ replayed b.sample (changes_of b.entries.items))
        × (length b.entries.items ≤ MOST_WRITES) × (length b.entries.items ≤ b.next) };
}

/// The bits of `word` that are set in `and_mask`; of the others those of `or_mask`.
fn masked(word: i16, and_mask: u16, or_mask: u16) -> i16
    ensures { result ≡ masked word and_mask or_mask }
{
    ((word.cast_unsigned() & and_mask) | (or_mask & !and_mask)).cast_signed()
}

impl StageBook {
    /// A book with all bits FALSE, all words 0 and no write. Its writes take their memory from `alloc`.
    pub fn new(alloc: Global) -> StageBook
        ensures { result ≡ new_book }
    {
        StageBook {
            sample: Cells::clear(),
            entries: Vec::new(alloc),
            next: 0,
            cells: Cells::clear(),
        }
    }

    /// The cells with each write so far. It takes no memory.
    pub fn read(&self) -> InImage
        ensures { Does self.now (read_gave result.cells) self.now }
    {
        InImage { cells: self.cells }
    }

    /// The cells with each write so far, and the next ticket's number. It forgets the writes, and takes no memory.
    pub fn sample(&mut self) -> Sample
        ensures { Does self.old (sample_gave result.inputs.cells result.next) self.new }
    {
        let inputs = self.read();
        let next = self.next;
        self.sample = inputs.cells;
        self.entries.clear();
        Sample { inputs, next }
    }

    /// Whether a write within its area is refused.
    fn is_full(&self) -> bool
        ensures { result ≡ is_full self.now }
    {
        self.entries.len() == MOST_WRITES || self.next == u64::MAX
    }

    /// `Address` where `count` cells from `address` on leave an area of `area` cells, else `Full`.
    fn room_for(&self, address: usize, count: usize, area: usize) -> Result<(), StageError>
        ensures ok { IfOk result (λ _. (address + count ≤ area) × (is_full self.now ≡ false)) }
        ensures address { (result ≡ Err StageError.Address) ↔ (area < address + count) }
        ensures full { (result ≡ Err StageError.Full) ↔ ((address + count ≤ area) × (is_full self.now ≡ true)) }
        ensures memory { result ≢ Err StageError.Memory }
    {
        if address > area || count > area - address {
            return Err(StageError::Address);
        }
        if self.is_full() {
            return Err(StageError::Full);
        }
        Ok(())
    }

    /// Keeps this write, and gives it the next ticket. `Memory` where a growth was refused: the book is as it was.
    fn take(&mut self, entry: Entry) -> Result<Ticket, StageError>
        requires inside { LiesInside (change_of entry) }
        requires room { is_full self.old ≡ false }
        ensures ok { IfOk result (λ t. Does self.old (wrote (change_of entry) t.number) self.new) }
        ensures memory { IfErr result (λ e. (e ≡ StageError.Memory) × (self.new ≡ self.old)) }
    {
        let cells = entry.over(self.cells);
        if self.entries.push(entry).is_err() {
            return Err(StageError::Memory);
        }
        self.cells = cells;
        let number = self.next;
        self.next += 1;
        Ok(Ticket { number })
    }

    /// Writes these bits, the first at `address` of 0 to 511, all or none. `Address` where one lies past the area, else
    /// `Full` at 4096 writes since the last sample or where the tickets are used up, else `Memory` where a growth was
    /// refused.
    pub fn write_bits(&mut self, address: usize, values: &[bool]) -> Result<Ticket, StageError>
        ensures ok { IfOk result (λ t. Does self.old (wrote (bits_at address values.now) t.number) self.new) }
        ensures address { (result ≡ Err StageError.Address) ↔ (BITS < address + length values.now) }
        ensures full { (result ≡ Err StageError.Full)
            ↔ ((address + length values.now ≤ BITS) × (is_full self.old ≡ true)) }
        ensures err { OnErr result (self.new ≡ self.old) }
    {
        self.room_for(address, values.len(), BITS)?;
        let Ok(copy) = values.to_vec(*self.entries.allocator()) else {
            return Err(StageError::Memory);
        };
        self.take(Entry::Bits(address, copy))
    }

    /// Writes these words, the first at `address` of 0 to 63, all or none. `Address` where one lies past the area, else
    /// `Full` at 4096 writes since the last sample or where the tickets are used up, else `Memory` where a growth was
    /// refused.
    pub fn write_words(&mut self, address: usize, values: &[i16]) -> Result<Ticket, StageError>
        ensures ok { IfOk result (λ t. Does self.old (wrote (words_at address values.now) t.number) self.new) }
        ensures address { (result ≡ Err StageError.Address) ↔ (WORDS < address + length values.now) }
        ensures full { (result ≡ Err StageError.Full)
            ↔ ((address + length values.now ≤ WORDS) × (is_full self.old ≡ true)) }
        ensures err { OnErr result (self.new ≡ self.old) }
    {
        self.room_for(address, values.len(), WORDS)?;
        let Ok(copy) = values.to_vec(*self.entries.allocator()) else {
            return Err(StageError::Memory);
        };
        self.take(Entry::Words(address, copy))
    }

    /// Lays two masks on the word at `address` of 0 to 63 as it is now: the bits that are set in `and_mask` stay, the
    /// others become those of `or_mask`. `Address` where there is no such word, else `Full` at 4096 writes since the
    /// last sample or where the tickets are used up, else `Memory` where a growth was refused.
    pub fn mask_word(
        &mut self,
        address: usize,
        and_mask: u16,
        or_mask: u16,
    ) -> Result<Ticket, StageError>
        ensures ok { IfOk result (λ t. Does self.old (wrote (mask_at address and_mask or_mask) t.number) self.new) }
        ensures address { (result ≡ Err StageError.Address) ↔ (WORDS ≤ address) }
        ensures full { (result ≡ Err StageError.Full) ↔ ((address < WORDS) × (is_full self.old ≡ true)) }
        ensures err { OnErr result (self.new ≡ self.old) }
    {
        self.room_for(address, 1, WORDS)?;
        self.take(Entry::Mask(address, and_mask, or_mask))
    }

    /// Writes these words, the first at `address` of 0 to 63, all or none, and shows the cells just after it: they have
    /// them. `Address` where one lies past the area, else `Full` at 4096 writes since the last sample or where the
    /// tickets are used up, else `Memory` where a growth was refused.
    pub fn write_read(&mut self, address: usize, values: &[i16]) -> Result<Written, StageError>
        ensures wrote { IfOk result
            (λ w. Does self.old (wrote (words_at address values.now) w.ticket.number) self.new) }
        ensures read { IfOk result (λ w. Does self.new (read_gave w.inputs.cells) self.new) }
        ensures address { (result ≡ Err StageError.Address) ↔ (WORDS < address + length values.now) }
        ensures full { (result ≡ Err StageError.Full)
            ↔ ((address + length values.now ≤ WORDS) × (is_full self.old ≡ true)) }
        ensures err { OnErr result (self.new ≡ self.old) }
    {
        let ticket = self.write_words(address, values)?;
        Ok(Written {
            ticket,
            inputs: self.read(),
        })
    }
}
