//! How operators come to a console: the path of its socket, and the word that it asks for first.

use crate::files::{is_open_to_all, refuse, tell_unread};
use il_text::{Fault, tell};
use io_model::CountedWrite;
use plc_settings::Operators;
use plc_words::OperatorsAt;
use std::alloc::AllocError;
use std::fs;

/// So many bytes a key has at least.
const LEAST: usize = 8;

/// And at most.
const MOST: usize = 128;

/// How operators come to a console that words name so; or the status where its key isn't to be had, which is told.
pub(crate) fn operators_of<E: CountedWrite>(
    rt: &HostRuntime,
    at: OperatorsAt,
    err: &mut E,
) -> Result<Operators, u8> {
    let Ok(path) = owned(rt, at.socket) else {
        return Err(tell(Fault::Memory, err));
    };
    let key = match at.key {
        Some(file) => Some(key_of(rt, file, err)?),
        None => None,
    };
    Ok(Operators { path, key })
}

/// A text of its own, if there is one.
fn owned(rt: &HostRuntime, text: Option<&str>) -> Result<Option<String>, AllocError> {
    match text {
        Some(text) => Ok(Some(String::from_str(rt.alloc(), text)?)),
        None => Ok(None),
    }
}

/// The key that the first line of a file is; or the status where it's none, or others may read it, which is told.
pub(crate) fn key_of<E: CountedWrite>(
    rt: &HostRuntime,
    path: &str,
    err: &mut E,
) -> Result<Vec<u8>, u8> {
    if is_open_to_all(rt, path) {
        return Err(refuse(err, b"plc: console key open to all\n"));
    }
    let Ok(text) = fs::read(rt, path) else {
        return Err(tell_unread(path, err));
    };
    let line = first_line(text.as_slice());
    if !is_key(line) {
        return Err(refuse(err, b"plc: console key refused\n"));
    }
    match line.to_vec(rt.alloc()) {
        Ok(key) => Ok(key),
        Err(_) => Err(tell(Fault::Memory, err)),
    }
}

/// The bytes before the first LF.
fn first_line(text: &[u8]) -> &[u8] {
    let end = text.iter().take_while(|byte| **byte != b'\n').count();
    &text[..end]
}

/// Whether a line is 8 to 128 visible characters.
fn is_key(line: &[u8]) -> bool {
    LEAST <= line.len() && line.len() <= MOST && line.iter().all(|byte| byte.is_ascii_graphic())
}
