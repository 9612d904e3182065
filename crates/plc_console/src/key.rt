//! The word by which an operator is known.

ghost use Rattle.std.specs.Prelude.{◌≡◌, ◌↔◌, true};

use crate::line::LINE_END;
use io_model::CountedRead;
use std::alloc::Global;

/// So many bytes a first line may have, without its end, where a key is asked for.
const LONGEST: usize = 256;

/// Whether a line is the key. Of lines that are as long each byte is looked at, whatever the others are, so the time that
/// it takes tells the key's length and nothing else of it.
pub(crate) fn is_key(key: &[u8], line: &[u8]) -> bool
    ensures { (result ≡ true) ↔ (line.now ≡ key.now) }
{
    if key.len() != line.len() {
        return false;
    }
    let mut are_alike = true;
    for at in 0..key.len() {
        are_alike = are_alike & (key[at] == line[at]);
    }
    are_alike
}

/// The first line, without its end. None where it's longer than a key may be, or doesn't come to its end.
pub(crate) fn first_line<R: CountedRead>(alloc: Global, reader: &mut R) -> Option<Vec<u8>> {
    let mut line = Vec::new(alloc);
    let mut byte = [0; 1];
    for _ in 0..=LONGEST {
        if reader.read(&mut byte).ok()? == 0 {
            return None;
        }
        if byte[0] == LINE_END {
            return Some(line);
        }
        line.push(byte[0]).ok()?;
    }
    None
}
