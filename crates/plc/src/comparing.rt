//! Two programs that are compared.

use crate::calls::ended;
use crate::fetching::{Wanted, text_of};
use crate::files::put_path;
use il_text::{Fault, tell};
use io_model::{Counted, CountedWrite};
use plc_host::Host;
use plc_symbols::{Which, first_fault};
use plc_words::{Fetching, Origin};
use std::alloc::Global;
use std::io::Write;
use std::net::{Net, TcpListener, TcpStream};
use std::sync::Wait;

/// One of two programs.
#[derive(Drop)]
pub(crate) struct Side {
    pub(crate) wanted: Wanted,
    /// Where it is, if that's at a path.
    path: Option<String>,
}

impl Side {
    /// The program of an origin; or the status where there is none, which is told.
    fn of<E: CountedWrite>(
        rt: &HostRuntime,
        origin: Origin,
        fetching: Fetching,
        err: &mut E,
    ) -> Result<Side, u8> {
        let path = match path_of(rt.alloc(), origin) {
            Ok(path) => path,
            Err(fault) => return Err(tell(fault, err)),
        };
        let wanted = Wanted::of(rt, origin, fetching, err)?;
        Ok(Side { wanted, path })
    }
}

/// The path of an origin, if it has one.
fn path_of(alloc: Global, origin: Origin) -> Result<Option<String>, Fault> {
    match origin {
        Origin::Console(_) => Ok(None),
        Origin::Path(path) => Ok(Some(String::from_str(alloc, path)?)),
    }
}

/// Two programs that are to be compared.
#[derive(Drop)]
pub(crate) struct Comparison {
    pub(crate) old: Side,
    pub(crate) new: Side,
}

impl Comparison {
    /// The programs of two origins; or the status where one of them has none, which is told.
    pub(crate) fn of<E: CountedWrite>(
        rt: &HostRuntime,
        old: Origin,
        new: Origin,
        fetching: Fetching,
        err: &mut E,
    ) -> Result<Comparison, u8> {
        let old = Side::of(rt, old, fetching, err)?;
        let new = Side::of(rt, new, fetching, err)?;
        Ok(Comparison { old, new })
    }
}

/// Prints whether two programs are the same, and what a change from one to the other does to their names: the status.
pub(crate) fn compare<R, W: Write, E: CountedWrite>(
    host: &Host<R>,
    comparison: Comparison,
    out: &mut W,
    err: &mut E,
) -> u8
where
    R: Wait + Net<Listener = TcpListener, Stream = TcpStream> + Copy,
{
    let Comparison { old, new } = comparison;
    let before = match text_of(host, old.wanted, err) {
        Ok(text) => text,
        Err(status) => return status,
    };
    let after = match text_of(host, new.wanted, err) {
        Ok(text) => text,
        Err(status) => return status,
    };
    let (before, after) = (before.as_slice(), after.as_slice());
    match first_fault(host.alloc, before, after) {
        None | Some((_, Fault::Memory)) => {}
        Some((Which::Old, _)) => put_place(&old.path, err),
        Some((Which::New, _)) => put_place(&new.path, err),
    }
    put_compared(host.alloc, before, after, out, err)
}

/// Tells where the text is whose fault follows.
fn put_place<E: CountedWrite>(path: &Option<String>, err: &mut E) {
    if let Some(path) = path {
        put_path(b"in ", path.as_str(), err);
    }
}

fn put_compared<W: Write, E: CountedWrite>(
    alloc: Global,
    before: &[u8],
    after: &[u8],
    out: &mut W,
    err: &mut E,
) -> u8 {
    let mut counted = Counted::new(&mut *out);
    let mut told = Vec::new(alloc);
    let mut telling = Counted::new(&mut told);
    let status = plc_symbols::compare(alloc, before, after, &mut counted, &mut telling);
    let failures = counted.faults();
    ended(status, failures, told.as_slice(), out, err)
}
