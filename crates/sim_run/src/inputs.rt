//! The inputs that clients write: the places that a program names, and two words in which they count their writes.

use il_loader::Image;
use il_model::{Area, BITS, Cells, Loc, Operand, WORDS};
use io_image::Staging;
use sim_time::Draws;

/// A word holds less than this; what is more is told by the next word.
const WORD: u64 = 30_000;

/// A word that is drawn is below this, but for one of sixteen, which is any.
const SMALL: u64 = 1_000;

/// Which input places a program names.
#[derive(Clone, Copy)]
pub struct Named {
    bits: [bool; BITS],
    words: [bool; WORDS],
}

impl Named {
    /// None.
    fn none() -> Named {
        Named {
            bits: [false; BITS],
            words: [false; WORDS],
        }
    }

    /// Those of a program: the locations of its variables, and those that its instructions name.
    fn of(image: &Image) -> Named {
        let mut named = Named::none();
        for variable in image.variables() {
            if let Some(location) = variable.location {
                named.add(location);
            }
        }
        for instruction in image.code() {
            named.add_operand(&instruction.operand);
            for argument in instruction.arguments.as_slice() {
                named.add_operand(&argument.operand);
            }
        }
        named
    }

    /// The one that an operand names, too.
    fn add_operand(&mut self, operand: &Operand) {
        if let Operand::Direct(location) = operand {
            self.add(*location);
        }
    }

    /// This location, too, if it's an input.
    fn add(&mut self, location: Loc) {
        match location {
            Loc::Bit(Area::Input, number) => self.add_bit(number),
            Loc::Word(Area::Input, number) | Loc::Pattern(Area::Input, number) => {
                self.add_word(number);
            }
            Loc::Double(Area::Input, number, _) => {
                self.add_word(number);
                self.add_word(number.saturating_add(1));
            }
            _ => {}
        }
    }

    fn add_bit(&mut self, number: u16) {
        if let Some(bit) = self.bits.get_mut(usize::from(number)) {
            *bit = true;
        }
    }

    fn add_word(&mut self, number: u16) {
        if let Some(word) = self.words.get_mut(usize::from(number)) {
            *word = true;
        }
    }

    /// Whether a program names this word; past the last one it's as if it did.
    fn has_word(&self, number: u16) -> bool {
        self.words.get(usize::from(number)).copied().unwrap_or(true)
    }

    /// The first of two words that a program doesn't name, the last ones that there are.
    fn free_pair(&self) -> Option<u16> {
        let mut found = None;
        for number in 0..WORDS as u16 {
            if !self.has_word(number) && !self.has_word(number.saturating_add(1)) {
                found = Some(number);
            }
        }
        found
    }
}

/// A number as two words.
fn words_of(number: u64) -> [i16; 2] {
    let low = i16::try_from(number % WORD).unwrap_or(0);
    let high = i16::try_from(number / WORD).unwrap_or(0);
    [low, high]
}

/// A value of a word: mostly a small one, else any.
fn any_word(draws: &mut Draws) -> i16 {
    let is_any = draws.comes(63);
    let drawn = draws.below(if is_any { 65_536 } else { SMALL });
    u16::try_from(drawn).unwrap_or(0).cast_signed()
}

/// What clients write.
#[derive(Drop)]
pub struct Inputs {
    named: Named,
    /// What they wrote last.
    cells: Cells,
    draws: Draws,
    /// The first of the two words in which they count, if they do.
    counter: Option<u16>,
    /// So often they wrote.
    written: u64,
}

impl Inputs {
    /// Their count alone, in these two words.
    pub fn counted_at(counter: u16) -> Inputs {
        Inputs {
            named: Named::none(),
            cells: Cells::clear(),
            draws: Draws::new(0),
            counter: Some(counter),
            written: 0,
        }
    }

    /// What a seed gives at the places that a program names, and their count in two words that it doesn't name, if
    /// there are two.
    pub fn of(image: &Image, seed: u64) -> Inputs {
        let named = Named::of(image);
        Inputs {
            counter: named.free_pair(),
            named,
            cells: Cells::clear(),
            draws: Draws::new(seed ^ 0x1297_0F5E),
            written: 0,
        }
    }

    /// The first of the two words in which clients count, if they do.
    pub(crate) fn counter(&self) -> Option<u16> {
        self.counter
    }

    /// One of four bits that the program names is another one from now on.
    fn draw_bits(&mut self) {
        for number in 0..BITS {
            if self.named.bits[number] && self.draws.comes(250) {
                self.cells.bits[number] = !self.cells.bits[number];
            }
        }
    }

    /// One of four words that the program names is another one from now on, most of them small.
    fn draw_words(&mut self) {
        for number in 0..WORDS {
            if self.named.words[number] && self.draws.comes(250) {
                self.cells.words[number] = any_word(&mut self.draws);
            }
        }
    }

    /// This word is so from now on.
    fn set_word(&mut self, number: u16, value: i16) {
        if let Some(word) = self.cells.words.get_mut(usize::from(number)) {
            *word = value;
        }
    }

    /// The words of their count have it.
    fn show_count(&mut self) {
        if let Some(counter) = self.counter {
            let [low, high] = words_of(self.written);
            self.set_word(counter, low);
            self.set_word(counter.saturating_add(1), high);
        }
    }

    /// They write, with a count that they never wrote. Words and count are one write: where the stage is full, it has
    /// neither.
    pub(crate) fn write<S: Staging>(&mut self, stage: &mut S) {
        self.written = self.written.saturating_add(1);
        self.show_count();
        if self.named.bits.contains(&true) {
            self.draw_bits();
            let _ = stage.write_bits(0, self.cells.bits.as_slice());
        }
        if self.named.words.contains(&true) {
            self.draw_words();
            let _ = stage.write_words(0, self.cells.words.as_slice());
        } else if let Some(counter) = self.counter {
            let words = words_of(self.written);
            let _ = stage.write_words(usize::from(counter), words.as_slice());
        }
    }
}
