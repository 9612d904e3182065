//! One machine of a group that is to be served.

ghost use Rattle.std.specs.Prelude.{◌≡◌, IfOk, string_bytes};

use crate::keys::keys_of;
use crate::showing::showing_of;
use crate::stores::{group_at, tell_at, tell_exposed};
use crate::tracing::judge_trace;
use il_text::{Fault, tell};
use io_model::CountedWrite;
use net_keys::Keys;
use plc_group::Group;
use plc_host::Failed;
use plc_member::Unserved;
use plc_page::Showing;
use plc_serve::tell_failed;
use std::alloc::{AllocError, Global};

/// One machine of a group that is to be served.
#[derive(Drop)]
pub(crate) struct Machine {
    pub(crate) group: Group,
    /// By which it proves that it's of its group, if that has any.
    pub(crate) keys: Option<Keys>,
    /// The directory of its store.
    pub(crate) directory: String,
    /// What a page shows beside it, if a machine of the group has one.
    pub(crate) showing: Option<Showing>,
    /// The file of its trace, if one is wanted.
    pub(crate) trace: Option<String>,
}

/// Whether a machine of a group has a page.
fn has_page(group: &Group) -> bool {
    group
        .machines
        .iter()
        .any(|machine| machine.status.is_some())
}

/// A copy of a text, if there is one.
fn copied(alloc: Global, text: Option<&str>) -> Result<Option<String>, AllocError> {
    match text {
        Some(text) => Ok(Some(String::from_str(alloc, text)?)),
        None => Ok(None),
    }
}

impl Machine {
    /// Of the group of this file, from this directory; or the status where it can't be, which is told.
    pub(crate) fn of<E: CountedWrite>(
        rt: &HostRuntime,
        group: &str,
        directory: &str,
        trace: Option<&str>,
        err: &mut E,
    ) -> Result<Machine, u8>
        ensures { IfOk result (λ machine. string_bytes machine.directory ≡ directory.now) }
    {
        if let Some(path) = trace {
            judge_trace(rt, group, directory, path, err)?;
        }
        let group = group_at(rt, group, err)?;
        let keys = keys_of(rt, &group, err)?;
        let Ok(directory) = String::from_str(rt.alloc(), directory) else {
            return Err(tell(Fault::Memory, err));
        };
        let Ok(trace) = copied(rt.alloc(), trace) else {
            return Err(tell(Fault::Memory, err));
        };
        let showing = match showing_of(rt, has_page(&group)) {
            Ok(showing) => showing,
            Err(failed) => return Err(tell_failed(failed, err)),
        };
        match tell_exposed(rt, &group, err) {
            0 => Ok(Machine {
                group,
                keys,
                directory,
                showing,
                trace,
            }),
            status => Err(status),
        }
    }
}

/// Tells why a machine isn't served from a directory, or is no more, if by a fault, and answers the status.
pub(crate) fn tell_unserved<E: CountedWrite>(
    directory: &str,
    unserved: Option<Unserved>,
    err: &mut E,
) -> u8 {
    match unserved {
        Some(Unserved::Refused(refusal)) => tell_at(directory, refusal, err),
        Some(Unserved::Image(error)) => tell(Fault::from(error), err),
        Some(Unserved::Failed(failed)) => tell_failed(failed, err),
        None => 0,
    }
}
