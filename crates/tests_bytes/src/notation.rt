//! Numbers, bytes and lines as a row writes them.

use std::alloc::{AllocError, Global};
use std::io;

/// The error of a row that nothing can be made of.
pub fn unreadable() -> io::Error {
    io::Error::from(io::ErrorKind::InvalidData)
}

/// The error of a row that comes out in two ways.
pub fn otherwise() -> io::Error {
    io::Error::from(io::ErrorKind::Other)
}

/// What stands before and behind the first of a mark.
pub fn cut<'a>(text: &'a str, mark: &str) -> io::Result<(&'a str, &'a str)> {
    text.split_once(mark).ok_or(unreadable())
}

/// What stands before and behind the first of a mark; all of it and nothing where there is no mark.
pub fn front<'a>(text: &'a str, mark: &str) -> (&'a str, &'a str) {
    text.split_once(mark).unwrap_or((text, ""))
}

/// A text, to be what comes out.
pub fn told(alloc: Global, text: &str) -> io::Result<String> {
    Ok(String::from_str(alloc, text)?)
}

/// The bytes of what comes out, in hexadecimal.
pub fn told_bytes(alloc: Global, bytes: &[u8]) -> io::Result<String> {
    Ok(hex::encode(alloc, bytes)?)
}

/// Puts a text that was made.
pub fn put_made(out: &mut String, made: Result<String, AllocError>) -> Result<(), AllocError> {
    out.push_str(made?.as_str())
}

/// A number in hexadecimal.
pub fn hexadecimal(digits: &str) -> Option<u64> {
    u64::from_str_radix(digits, 16).ok()
}

/// Puts a text so many times.
fn put_times(out: &mut String, count: u16, text: &str) -> Result<(), AllocError> {
    for _ in 0..count {
        out.push_str(text)?;
    }
    Ok(())
}

/// Puts a word; `576*00` is `00` so many times.
fn put_word(out: &mut String, word: &str) -> io::Result<()> {
    let (count, text) = word.split_once('*').unwrap_or(("1", word));
    let count = count.parse::<u16>().ok().ok_or(unreadable())?;
    Ok(put_times(out, count, text)?)
}

/// Words without the blanks between them.
pub fn spread(alloc: Global, words: &str) -> io::Result<String> {
    let mut spread = String::new(alloc);
    for word in words.split_whitespace() {
        put_word(&mut spread, word)?;
    }
    Ok(spread)
}

/// The bytes of words in hexadecimal.
pub fn bytes_of(alloc: Global, words: &str) -> io::Result<Vec<u8>> {
    match hex::decode(alloc, spread(alloc, words)?.as_str()) {
        Ok(bytes) => Ok(bytes),
        Err(_) => Err(unreadable()),
    }
}

/// Whether a line is no remark and isn't blank.
fn is_told(line: &str) -> bool {
    !line.is_empty() && !line.starts_with('#')
}

/// The lines of a section that are no remarks and aren't blank.
pub fn lines_of<'a>(alloc: Global, body: &'a str) -> Result<Vec<&'a str>, AllocError> {
    let mut lines = Vec::new(alloc);
    for line in body.lines() {
        if is_told(line) {
            lines.push(line)?;
        }
    }
    Ok(lines)
}

/// The same lines, each with its end.
pub fn plain(alloc: Global, body: &str) -> Result<String, AllocError> {
    let mut plain = String::new(alloc);
    for line in lines_of(alloc, body)? {
        plain.push_str(line)?;
        plain.push('\n')?;
    }
    Ok(plain)
}

/// What stands behind a name, as `3` behind `reads=`.
pub fn behind<'a>(text: &'a str, name: &str) -> Option<&'a str> {
    for word in text.split_whitespace() {
        if let Some(number) = word.strip_prefix(name) {
            return Some(number);
        }
    }
    None
}

/// The number behind a name.
pub fn number_of(text: &str, name: &str) -> Option<u64> {
    behind(text, name)?.parse::<u64>().ok()
}
