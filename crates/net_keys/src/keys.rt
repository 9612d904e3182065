//! The keys of a group: which is spoken, and which are heard.

ghost use Rattle.std.specs.Prelude.{◌≡◌, length};
ghost use Rattle.net_keys.specs.Keys.{in_lines, key_named, keys_in, two_keys, with_line, without_end};

use crate::key::{Key, KeyFault};

/// So many digits has a line.
const DIGITS: usize = 64;

/// And so many characters two lines, without the end of the last.
const LINES: usize = 129;

/// The keys of a group, as a machine has them. While a group changes its key each machine has both.
#[derive(Clone, Copy)]
pub struct Keys {
    /// By this one it dials other machines.
    pub speaks: Key,
    /// By this one it's dialled, too.
    pub hears: Option<Key>,
}

/// Two keys in two lines.
fn two_keys(first: &[u8], second: &[u8]) -> Result<Keys, KeyFault>
    ensures { result ≡ two_keys first.now second.now }
{
    let speaks = Key::read(1, first)?;
    let hears = Key::read(2, second)?;
    if speaks.is_same(&hears) {
        return Err(KeyFault::Twice);
    }
    Ok(Keys {
        speaks,
        hears: Some(hears),
    })
}

/// Two keys: one in a line, and behind that its end, and another one.
fn with_line(first: &[u8], rest: &[u8]) -> Result<Keys, KeyFault>
    requires { length rest.now ≡ 65 }
    ensures { result ≡ with_line first.now rest.now }
{
    if rest[0] != b'\n' {
        return Err(KeyFault::Lines);
    }
    two_keys(first, &rest[1..])
}

/// One key or two, in lines of which the last has no end.
fn in_lines(digits: &[u8]) -> Result<Keys, KeyFault>
    ensures { result ≡ in_lines digits.now }
{
    if digits.len() == DIGITS {
        let speaks = Key::read(1, digits)?;
        return Ok(Keys {
            speaks,
            hears: None,
        });
    }
    if digits.len() != LINES {
        return Err(KeyFault::Lines);
    }
    let (first, rest) = digits.split_at(DIGITS);
    with_line(first, rest)
}

/// A text without the end of its last line, if it has one.
fn without_end(text: &[u8]) -> &[u8]
    ensures { result.now ≡ without_end text.now }
{
    let count = text.len();
    if count > 0 && text[count - 1] == b'\n' {
        &text[..count - 1]
    } else {
        text
    }
}

impl Keys {
    /// Only this one is spoken and heard.
    pub fn one(key: Key) -> Keys
        ensures { result ≡ record { speaks = key; hears = None } }
    {
        Keys {
            speaks: key,
            hears: None,
        }
    }

    /// The keys of a file: a line of 64 hexadecimal digits with the one that is spoken, and maybe a second line with
    /// one that is heard, too. The last line may lack its end.
    pub fn read(text: &[u8]) -> Result<Keys, KeyFault>
        ensures { result ≡ keys_in text.now }
    {
        in_lines(without_end(text))
    }

    /// The key of this name, if it's heard.
    pub(crate) fn named(&self, name: &[u8; 8]) -> Option<Key>
        ensures { result ≡ key_named self.now name.now }
    {
        if self.speaks.name() == *name {
            return Some(self.speaks);
        }
        match self.hears {
            Some(key) if key.name() == *name => Some(key),
            _ => None,
        }
    }
}
