//! Random bytes, by which groups are told apart, and those of keys.

use il_text::{Fault, put};
use io_model::CountedWrite;
use std::random::RandomSource;

/// Tells that no random bytes are to be had, and answers the status.
fn tell_no_random<E: CountedWrite>(err: &mut E) -> u8 {
    let _ = put(err, b"plc: device random\n");
    Fault::Device.status()
}

/// What tells a group from others; or the status where it isn't to be had, which is told.
pub(crate) fn group_identity<E: CountedWrite>(
    rt: &HostRuntime,
    err: &mut E,
) -> Result<[u8; 16], u8> {
    let mut identity = [0u8; 16];
    match rt.fill_bytes(&mut identity) {
        Ok(()) => Ok(identity),
        Err(_) => Err(tell_no_random(err)),
    }
}

/// The bytes of a new key; or the status where they aren't to be had, which is told.
pub(crate) fn key_bytes<E: CountedWrite>(rt: &HostRuntime, err: &mut E) -> Result<[u8; 32], u8> {
    let mut bytes = [0u8; 32];
    match rt.fill_bytes(&mut bytes) {
        Ok(()) => Ok(bytes),
        Err(_) => Err(tell_no_random(err)),
    }
}
