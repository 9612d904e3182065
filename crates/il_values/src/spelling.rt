//! How words are spelled: in capital letters or small ones.

ghost use Rattle.std.specs.Prelude.{◌≡◌};
ghost use Rattle.il_values.specs.Spelled.{upper, spells};

/// A byte, a small letter as its capital one.
pub fn capital(b: u8) -> u8
    ensures { result ≡ upper b }
{
    if b'a' <= b && b <= b'z' { b - 32 } else { b }
}

/// Whether a text is a word, which is given in capital letters, without regard to case.
#[tactic(auto, unfolding(crate::specs::Spelled::spells))]
pub fn is_spelled(word: &[u8], text: &[u8]) -> bool
    ensures { result ≡ spells word.now text.now }
{
    let mut keys = word;
    let mut letters = text;
    while let [k, others @ ..] = keys {
        match letters {
            [b, more @ ..] if capital(*b) == *k => letters = more,
            _ => return false,
        }
        keys = others;
    }
    letters.is_empty()
}
