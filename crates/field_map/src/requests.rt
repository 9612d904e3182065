//! The requests that read and write a device's cells, and what their replies show.

ghost use Rattle.std.specs.Prelude.{◌≡◌, ◌≤◌, true, length, is_some, IfSome};
ghost use Rattle.std.specs.Option.{option_copied};
ghost use Rattle.modbus_wire.specs.Requests.{is_request};
ghost use Rattle.field_map.specs.Asking.{read_request, shown_by, write_request, write_in, output_request, after_some};
ghost use Rattle.field_map.specs.Asking.{all_of, all_cells, all_words, are_same, is_unchanged};

use crate::places::{Kind, Places};
use crate::reading::{Fallback, Outputs, Reading, Writing};
use il_model::{BITS, Cells, WORDS};
use modbus_wire::{Bits, Reply, Request, Words};

/// These words as those of a request.
pub(crate) fn words_from(words: &[i16]) -> Words
    requires { length words.now ≤ 125 }
    ensures { result.items ≡ words.now }
{
    match Words::try_from(words) {
        Ok(words) => words,
        Err(_) => unreachable!(),
    }
}

impl Places {
    /// The request that writes these places, as the cells have them, from an address on.
    pub fn write(&self, address: u16, cells: &Cells) -> Request
        ensures is { result ≡ write_request address self.now cells.now }
        ensures lawful { is_request result ≡ true }
    {
        let end = self.from + self.count;
        match self.kind {
            Kind::Bits => Request::WriteBits {
                address,
                values: Bits::new(&cells.bits[self.from..end]),
            },
            Kind::Words => Request::WriteWords {
                address,
                values: words_from(&cells.words[self.from..end]),
            },
        }
    }
}

/// All bits of this value, and all words of that one.
fn all(bit: bool, word: i16) -> Cells
    ensures { result ≡ all_of bit word }
{
    Cells {
        bits: [bit; BITS],
        words: [word; WORDS],
    }
}

impl Places {
    /// The request that writes these places of `%I`, each bit of them with this value.
    pub fn write_bit(&self, value: bool) -> Request
        ensures is { result ≡ write_request self.now.from self.now (all_cells value) }
        ensures lawful { is_request result ≡ true }
    {
        self.write(self.from as u16, &all(value, 0))
    }

    /// The request that writes these places of `%I`, each word of them with this value.
    pub fn write_word(&self, value: i16) -> Request
        ensures is { result ≡ write_request self.now.from self.now (all_words value) }
        ensures lawful { is_request result ≡ true }
    {
        self.write(self.from as u16, &all(false, value))
    }
}

impl Places {
    /// Whether these places have the same values in both.
    pub fn are_same(&self, one: &Cells, other: &Cells) -> bool
        ensures { result ≡ are_same self.now one.now other.now }
    {
        let end = self.from + self.count;
        match self.kind {
            Kind::Bits => one.bits[self.from..end] == other.bits[self.from..end],
            Kind::Words => one.words[self.from..end] == other.words[self.from..end],
        }
    }
}

impl Reading {
    /// The request that reads its cells.
    pub fn request(&self) -> Request
        ensures is { result ≡ read_request self.now }
        ensures lawful { is_request result ≡ true }
    {
        let quantity = self.places.count as u16;
        match self.places.kind {
            Kind::Bits => Request::ReadBits {
                table: self.table,
                address: self.address,
                quantity,
            },
            Kind::Words => Request::ReadWords {
                table: self.table,
                address: self.address,
                quantity,
            },
        }
    }

    /// Lays what a reply shows over its places. False where the reply shows no such values: then nothing changes.
    pub fn take(&self, reply: &Reply, cells: &mut Cells) -> bool
        ensures is { result ≡ is_some (shown_by self.now reply.now) }
        ensures taken { cells.new ≡ after_some cells.old (shown_by self.now reply.now) }
    {
        let Places { kind, from, count } = self.places;
        match (kind, reply) {
            (Kind::Bits, Reply::Bits(bits)) if bits.len() == count => {
                cells.bits[from..from + count].copy_from_slice(bits.values().as_slice());
                true
            }
            (Kind::Words, Reply::Words(words)) => {
                let words = self.layout.words(words.as_slice());
                if words.len() != count {
                    return false;
                }
                cells.words[from..from + count].copy_from_slice(words.as_slice());
                true
            }
            _ => false,
        }
    }
}

impl Writing {
    /// The request that writes its cells as these have them.
    fn write(&self, cells: &Cells) -> Request
        ensures is { result ≡ write_in self.now cells.now }
        ensures lawful { is_request result ≡ true }
    {
        self.layout.request(self.places.write(self.address, cells))
    }

    /// Whether the device has its values already, and isn't written them anew.
    fn is_unchanged(&self, known: &Cells, written: Option<&Cells>) -> bool
        ensures { result ≡ is_unchanged self.now known.now (option_copied written.entry) }
    {
        match written {
            Some(written) => self.on_change && self.places.are_same(known, written),
            None => false,
        }
    }

    /// The request that writes its cells: as the outputs are, where they are known, and none where the device has them
    /// and they are written on changes only; else, by its fallback, FALSE and 0, or none.
    pub fn request(&self, outputs: &Outputs) -> Option<Request>
        ensures is { result ≡ output_request self.now outputs.now }
        ensures lawful { IfSome result (λ r. is_request r ≡ true) }
    {
        match (&outputs.known, self.on_stop) {
            (Some(known), _) => {
                if self.is_unchanged(known, outputs.written.as_ref()) {
                    return None;
                }
                Some(self.write(known))
            }
            (None, Fallback::Zero) => Some(self.write(&Cells::clear())),
            (None, Fallback::Hold) => None,
        }
    }
}
