//! What asks a running field to stop.

use crate::control::{STOP, STOPPED};
use crate::run::{Ended, FieldError};
use field_map::FieldMap;
use std::io::{Read, Write};
use std::net::Net;
use std::os::unix::net::UnixStream;

/// Whether all that comes is that it has stopped.
fn says_stopped<S: Read>(stream: &mut S) -> bool {
    let mut piece = [0; 64];
    match stream.read(&mut piece) {
        Ok(count) => &piece[..count] == STOPPED,
        Err(_) => false,
    }
}

/// Asks the process that runs this field to stop, and waits until it has.
pub(crate) fn stop<R: Net>(rt: &R, map: &FieldMap) -> Result<Ended, FieldError> {
    let Some(path) = &map.control else {
        return Err(FieldError::NoControl);
    };
    let Ok(mut stream) = UnixStream::connect(rt, path.as_str()) else {
        return Err(FieldError::NoAnswer);
    };
    if stream.write(STOP).is_err() || !says_stopped(&mut stream) {
        return Err(FieldError::NoAnswer);
    }
    Ok(Ended::Whole)
}
