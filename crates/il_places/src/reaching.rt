//! Places in a text, one after another.

use il_reader::Place;
use il_text::place_behind;

/// How far a text is read: the place behind so many bytes.
#[derive(Clone, Copy)]
pub struct Reached {
    pub offset: usize,
    pub place: Place,
}

impl Reached {
    ghost use Rattle.std.specs.Prelude.{◌≡◌, ◌≤◌, List, ℕ, length, take};
    ghost use Rattle.il_reader.specs.Texts.{place_at, place_behind};
    ghost use Rattle.il_reader.specs.declared.source.TheConstants.{EXTENDED_TEXT_LIMIT};
    ghost use Rattle.il_places.specs.Places.{IsReached};

    /// The beginning of a text.
    pub fn beginning() -> Reached
        ensures offset { result.offset ≡ 0 }
        ensures reached { (text : List ℕ) → IsReached text result }
    {
        Reached {
            offset: 0,
            place: Place { line: 1, column: 1 },
        }
    }

    /// From here, or from the beginning where an offset is before this one.
    fn not_behind(self, offset: usize) -> Reached
        ensures before { result.offset ≤ offset }
        ensures reached { (text : List ℕ) → IsReached text self → IsReached text result }
    {
        if self.offset <= offset {
            self
        } else {
            Reached::beginning()
        }
    }

    /// On to an offset.
    fn on_to(self, text: &[u8], offset: usize) -> Reached
        requires short { length text.now ≤ EXTENDED_TEXT_LIMIT }
        requires here { IsReached text.now self }
        requires before { self.offset ≤ offset }
        requires within { offset ≤ length text.now }
        ensures offset { result.offset ≡ offset }
        ensures place { result.place ≡ place_behind (take offset text.now) }
    {
        let mut place = self.place;
        for i in self.offset..offset {
            place = place_behind(place, text[i]);
        }
        Reached { offset, place }
    }

    /// To where the byte of a text stands from which on so many are left: on from here, where it isn't before.
    pub fn at(self, text: &[u8], left: usize) -> Reached
        requires short { length text.now ≤ EXTENDED_TEXT_LIMIT }
        requires here { IsReached text.now self }
        ensures reached { IsReached text.now result }
        ensures place { result.place ≡ place_at text.now left }
    {
        let offset = text.len().saturating_sub(left);
        self.not_behind(offset).on_to(text, offset)
    }
}
