//! The directories of the stores of a controller that is to be served: why they can't be.

use crate::files::are_same;
use il_text::{Fault, put};
use io_model::CountedWrite;
use std::alloc::Global;
use std::os::unix::fs::MetadataExt;
use std::{fs, io};
use vr_model::MOST_REPLICAS;

/// The bit of a mode by which all may write.
const OTHERS_WRITE: u32 = 0o002;

/// Why a directory isn't one for stores.
#[derive(Clone, Copy, PartialEq, Eq)]
enum Unfit {
    /// An earlier run has left the file of a replica there.
    Used,
    /// It's given twice.
    Twice,
    /// All may write to it, so somebody else could put a link in a file's place.
    Open,
}

/// Refuses these directories if one of them can't be one for stores: the status of the first, which is told.
pub(crate) fn refuse_unfit<E: CountedWrite>(
    rt: &HostRuntime,
    stores: &[&str],
    err: &mut E,
) -> Result<(), u8> {
    for (place, path) in stores.iter().enumerate() {
        if let Some(unfit) = unfit_of(rt, path, &stores[..place]) {
            return Err(tell_unfit(unfit, path, err));
        }
    }
    Ok(())
}

/// Why a directory that is given behind these isn't one for stores. One that isn't there, or can't be looked at, passes
/// here: opening its store tells.
fn unfit_of(rt: &HostRuntime, path: &str, before: &[&str]) -> Option<Unfit> {
    if before
        .iter()
        .any(|earlier| path == *earlier || are_same(rt, path, earlier))
    {
        return Some(Unfit::Twice);
    }
    if fs::metadata(rt, path).ok()?.mode() & OTHERS_WRITE != 0 {
        return Some(Unfit::Open);
    }
    match has_view(rt, rt.alloc(), path) {
        Ok(true) => Some(Unfit::Used),
        _ => None,
    }
}

/// Whether a directory has the file of a replica.
fn has_view(rt: &HostRuntime, alloc: Global, path: &str) -> io::Result<bool> {
    for replica in 0..MOST_REPLICAS {
        let file = format!(in alloc; "{path}/replica-{replica}")?;
        if fs::exists(rt, file.as_str())? {
            return Ok(true);
        }
    }
    Ok(false)
}

/// Tells why a directory isn't one for stores, and answers the status.
fn tell_unfit<E: CountedWrite>(unfit: Unfit, path: &str, err: &mut E) -> u8 {
    let text = match unfit {
        Unfit::Used => b"plc: store used ".as_slice(),
        Unfit::Twice => b"plc: store twice ".as_slice(),
        Unfit::Open => b"plc: store open to all ".as_slice(),
    };
    if put(err, text).is_ok() && put(err, path.as_bytes()).is_ok() {
        let _ = put(err, b"\n");
    }
    Fault::Commands.status()
}
