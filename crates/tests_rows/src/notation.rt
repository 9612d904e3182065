//! Bytes and lines as a row writes them.

use std::alloc::{AllocError, Global};
use std::io;

/// The bytes of words in hexadecimal and of names between quotes, as `'ILPC' 0001 00`.
pub fn bytes_of(alloc: Global, words: &str) -> io::Result<Vec<u8>> {
    let mut bytes = Vec::new(alloc);
    for word in words.split_whitespace() {
        match word
            .strip_prefix('\'')
            .and_then(|name| name.strip_suffix('\''))
        {
            Some(name) => bytes.extend_from_slice(name.as_bytes())?,
            None => match hex::decode(alloc, word) {
                Ok(some) => bytes.extend_from_slice(some.as_slice())?,
                Err(_) => return Err(io::Error::from(io::ErrorKind::InvalidData)),
            },
        }
    }
    Ok(bytes)
}

/// The lines of a section, each with its end; blank lines behind them separate rows.
pub fn lines_of(alloc: Global, body: &str) -> Result<String, AllocError> {
    let mut lines = String::from_str(alloc, body.trim_end())?;
    if !lines.is_empty() {
        lines.push('\n')?;
    }
    Ok(lines)
}
