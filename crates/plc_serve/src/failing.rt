//! Why a controller was served to no good end, and how that is told.

ghost use Rattle.std.specs.Prelude.{◌≡◌, ◌≤◌, IsOk};
ghost use Rattle.il_text.specs.Telling.{Sends, WentOut};
ghost use Rattle.plc_serve.specs.Serving.{EndsBy, failed_line, numbered_line};

use il_text::{Fault, put, put_numbered, tell};
use io_model::{CountedWrite, DeviceFault};
use plc_host::Failed;

/// Why a controller was served to no good end.
#[derive(Clone, Copy)]
pub(crate) enum Unserved {
    /// The text or a directory was refused, or memory ran out for the image.
    Refused(Fault),
    /// What it's served on isn't to be had, or failed.
    Failed(Failed),
}

/// A line that ends with a number.
fn put_line_of<E: CountedWrite>(err: &mut E, text: &[u8], number: usize) -> Result<(), DeviceFault>
    ensures { Sends E.CountedWrite (numbered_line text.now number) err.old err.new result }
{
    put_numbered(err, text, number)?;
    put(err, b"\n")
}

/// The line of what failed.
fn put_failed<E: CountedWrite>(failed: Failed, err: &mut E) -> Result<(), DeviceFault>
    ensures { Sends E.CountedWrite (failed_line failed) err.old err.new result }
{
    match failed {
        Failed::Device => put(err, b"plc: device\n"),
        Failed::Thread => put(err, b"plc: device no thread\n"),
        Failed::Connection => put(err, b"plc: device no connection\n"),
        Failed::Majority => put(err, b"plc: device no majority\n"),
        Failed::Port(port) => put_line_of(err, b"plc: device port ", usize::from(port)),
        Failed::Store(replica) => put_line_of(err, b"plc: device store ", usize::from(replica)),
        Failed::Socket => put(err, b"plc: device socket\n"),
        Failed::Report => put(err, b"plc: device report\n"),
        Failed::Output => put(err, b"plc: device output\n"),
        Failed::Memory => put(err, b"plc: memory\n"),
    }
}

/// Tells what failed by its line, and answers the status. It takes no memory.
pub fn tell_failed<E: CountedWrite>(failed: Failed, err: &mut E) -> u8
    ensures status { result ≡ 2 }
    ensures line { WentOut E.CountedWrite (failed_line failed) err.old err.new }
{
    // Where standard error fails too, the status is all that is left.
    let _ = put_failed(failed, err);
    Fault::Device.status()
}

/// The status of a controller that was served so: it's told why there was no good end.
pub(crate) fn ended<E: CountedWrite>(done: Result<(), Unserved>, err: &mut E) -> u8
    ensures status { result ≤ 2 }
    ensures good { result ≡ 0 → IsOk done }
    ensures ends { EndsBy E.CountedWrite done result err.old err.new }
{
    match done {
        Ok(()) => 0,
        Err(Unserved::Refused(fault)) => tell(fault, err),
        Err(Unserved::Failed(failed)) => tell_failed(failed, err),
    }
}
