//! A field whose inputs and outputs are to be carried.

ghost use Rattle.std.specs.Prelude.{◌≡◌, IfOk};
ghost use Rattle.plc.specs.Asked.{address_of, mode_of};

use crate::calls::flushed;
use crate::files::tell_of;
use crate::showing::page_at;
use field_map::FieldFault;
use field_page::PageAt;
use il_text::{Fault, put, tell};
use io_model::CountedWrite;
use plc_field::{Ended, FieldError, Mode};
use plc_serve::tell_failed;
use std::alloc::Global;
use std::fs;
use std::io::Write;
use std::net::SocketAddr;

/// A field, by its text.
#[derive(Drop)]
pub(crate) struct Carrying {
    pub(crate) text: String,
    pub(crate) mode: Mode,
    /// Where it's shown, if that is wanted.
    pub(crate) page: Option<PageAt>,
}

impl Carrying {
    /// The field of a file, shown at this address, if there is one; or the status where it can't be read, which is told.
    pub(crate) fn of<E: CountedWrite>(
        rt: &HostRuntime,
        field: &str,
        mode: Mode,
        status: Option<SocketAddr>,
        err: &mut E,
    ) -> Result<Carrying, u8>
        ensures mode { IfOk result (λ carrying. carrying.mode ≡ mode) }
        ensures page { IfOk result (λ carrying. address_of carrying.page ≡ status) }
    {
        let text = match fs::read_to_string(rt, field) {
            Ok(text) => text,
            Err(error) => return Err(tell_of(field, Fault::from(error), err)),
        };
        match page_at(rt, status) {
            Ok(page) => Ok(Carrying { text, mode, page }),
            Err(failed) => Err(tell_failed(failed, err)),
        }
    }
}

/// How far a field is run, by its words.
pub(crate) fn mode_of(check: bool, once: bool, stop: bool) -> Mode
    ensures { result ≡ mode_of check once stop }
{
    match (check, once, stop) {
        (true, _, _) => Mode::Check,
        (false, true, _) => Mode::Once,
        (false, false, true) => Mode::Stop,
        (false, false, false) => Mode::Forever,
    }
}

/// How it ends that a field was carried: the status.
pub(crate) fn carried<W: Write, E: CountedWrite>(
    alloc: Global,
    done: Result<Ended, FieldError>,
    out: &mut W,
    err: &mut E,
) -> u8 {
    match done {
        Ok(Ended::Whole) => flushed(0, out, err),
        Ok(Ended::Lossy) => flushed(1, out, err),
        Err(FieldError::Failed(failed)) => tell_failed(failed, err),
        Err(FieldError::Text(FieldFault::Memory)) => tell(Fault::Memory, err),
        Err(fault) => match format!(in alloc; "plc: field {fault}\n") {
            Ok(line) => {
                let _ = put(err, line.as_str().as_bytes());
                1
            }
            Err(_) => tell(Fault::Memory, err),
        },
    }
}
