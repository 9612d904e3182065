//! Places of a text, as words name them.

use il_places::Asked;

/// A line or a column, from 1.
fn counted(word: &str) -> Option<usize> {
    match word.parse::<u32>() {
        Ok(0) | Err(_) => None,
        Ok(number) => Some(number as usize),
    }
}

/// What a word asks for: a line, or a line and a column behind a colon.
pub(crate) fn place_at(word: &str) -> Option<Asked> {
    match word.split_once(':') {
        Some((line, column)) => Some(Asked::At(counted(line)?, counted(column)?)),
        None => Some(Asked::Line(counted(word)?)),
    }
}
