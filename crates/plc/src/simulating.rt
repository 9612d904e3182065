//! A group that runs by virtual time.

use crate::calls::ended;
use crate::files::{file, tell_of};
use crate::stores::group_at;
use il_text::{image, tell};
use io_model::{Counted, CountedWrite};
use sim_run::{Kinds, Run, simulate};
use std::io::Write;

/// The kinds of faults of these words, which are none but theirs.
pub(crate) fn kinds_of(words: &[&str]) -> Kinds {
    let mut kinds = Kinds::none();
    for word in words {
        kinds = kinds.with_word(*word).unwrap_or(kinds);
    }
    kinds
}

/// Runs the group of a file, each machine of which runs the program of a source, and prints what is seen: the status.
/// The source is judged before the group.
pub(crate) fn sim_group<W: Write, E: CountedWrite>(
    rt: &HostRuntime,
    source: &str,
    group: &str,
    run: &Run,
    out: &mut W,
    err: &mut E,
) -> u8 {
    let text = match file(rt, source) {
        Ok(text) => text,
        Err(fault) => return tell_of(source, fault, err),
    };
    if let Err(fault) = image(rt.alloc(), text.as_slice()) {
        return tell(fault, err);
    }
    let group = match group_at(rt, group, err) {
        Ok(group) => group,
        Err(status) => return status,
    };
    let mut counted = Counted::new(&mut *out);
    let mut told = Vec::new(rt.alloc());
    let status = simulate(
        rt.alloc(),
        text.as_slice(),
        &group,
        run,
        &mut counted,
        &mut Counted::new(&mut told),
    );
    let failures = counted.faults();
    ended(status, failures, told.as_slice(), out, err)
}
