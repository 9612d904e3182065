//! How the registers of a device are taken: each by itself, or two of them as one value of 32 bits.

ghost use Rattle.std.specs.Prelude.{◌≡◌, ◌≤◌, true, length};
ghost use Rattle.modbus_wire.specs.Requests.{is_request};
ghost use Rattle.field_map.specs.Areas.{is_whole};
ghost use Rattle.field_map.specs.Layouts.{swapped, arranged, arranged_request};

use crate::places::Kind;
use crate::requests::words_from;
use modbus_wire::{Request, Words};

/// How registers are taken. A value of 32 bits has two of them, and two words of the controller, of which the high one
/// always comes first.
#[derive(Clone, Copy, Debug, PartialEq, Eq)]
pub enum Layout {
    /// Each by itself, and so bits are.
    Single,
    /// Two are a value of 32 bits, whose high word comes first.
    HighFirst,
    /// Two are a value of 32 bits, whose low word comes first.
    LowFirst,
}

/// What the registers are, for whoever looks at them: where two are a value of 32 bits, whether that is a REAL. What is
/// carried is the same.
#[derive(Clone, Copy, Debug, PartialEq, Eq)]
pub enum Form {
    Int,
    Dint,
    Real,
}

/// Each two words in the other order. One that is left over stays.
#[tactic(auto, using(crate::proofs::SwapLaws::swapped_step, crate::proofs::SwapLaws::swapped_end))]
fn swapped(words: &[i16]) -> Words
    requires { length words.now ≤ 125 }
    ensures is { result.items ≡ swapped words.now }
    ensures many { length result.items ≡ length words.now }
{
    let mut values = Words::new();
    let pairs = words.len() / 2;
    for pair in 0..pairs {
        values.push(words[2 * pair + 1]);
        values.push(words[2 * pair]);
    }
    if words.len() % 2 == 1 {
        values.push(words[2 * pairs]);
    }
    values
}

impl Layout {
    /// Whether values of these places are whole: where two words are one value, they are words, and even many.
    pub fn is_whole(self, kind: Kind, count: usize) -> bool
        ensures { result ≡ is_whole self kind count }
    {
        match self {
            Layout::Single => true,
            Layout::HighFirst | Layout::LowFirst => kind.is(Kind::Words) && count % 2 == 0,
        }
    }

    /// A device's words as the controller has them, or the controller's as the device has them.
    pub fn words(self, words: &[i16]) -> Words
        requires { length words.now ≤ 125 }
        ensures is { result.items ≡ arranged self words.now }
        ensures many { length result.items ≡ length words.now }
    {
        match self {
            Layout::LowFirst => swapped(words),
            Layout::Single | Layout::HighFirst => words_from(words),
        }
    }

    /// A write with its words as the device has them.
    pub fn request(self, request: Request) -> Request
        requires { is_request request ≡ true }
        ensures is { result ≡ arranged_request self request }
        ensures lawful { is_request result ≡ true }
    {
        match request {
            Request::WriteWords { address, values } => Request::WriteWords {
                address,
                values: self.words(values.as_slice()),
            },
            other => other,
        }
    }
}
