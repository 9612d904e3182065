//! What a console is asked, and how it answers.

ghost use Rattle.std.specs.Prelude.{◌≡◌, IfOk};
ghost use Rattle.plc.specs.Asked.{AsksFor, AsksToChange, IsConsole, IsPlace, status_of_reply};

use crate::files::{tell_misfit, tell_of, tell_path, text_at};
use crate::operators::key_of;
use il_text::{Fault, image_bytes, put, put_numbered, tell};
use io_model::{Counted, CountedRead, CountedWrite, write_all};
use plc_console::{Reply, send_commands, send_key, worst};
use plc_host::{Failed, Host};
use plc_json::{Listed, command_texts};
use plc_serve::tell_failed;
use plc_tool::{change_lines, fault_of};
use plc_words::AskedConsole;
use std::alloc::{AllocError, Global};
use std::net::{Net, SocketAddr, TcpListener, TcpStream};
use std::os::unix::net::UnixStream;
use std::sync::Wait;
use std::time::Duration;

/// The status of commands of which one was refused.
const REFUSED: u8 = 4;

/// The status of lines of which one is no command of a console.
pub(crate) const NO_COMMAND: u8 = 5;

/// Where a console is.
#[derive(Drop)]
pub(crate) enum Place {
    Address(SocketAddr),
    /// At the socket of this path.
    Socket(String),
}

/// A console that is asked.
#[derive(Drop)]
pub(crate) struct Console {
    pub(crate) place: Place,
    /// In seconds: so long an answer is waited for.
    pub(crate) timeout: u32,
    /// What it's told first, if it asks for a key.
    pub(crate) key: Option<Vec<u8>>,
}

/// Where words say that a console is.
fn place_of(alloc: Global, named: plc_words::Place) -> Result<Place, AllocError>
    ensures { IfOk result (IsPlace named.entry) }
{
    match named {
        plc_words::Place::Address(address) => Ok(Place::Address(address)),
        plc_words::Place::Socket(path) => Ok(Place::Socket(String::from_str(alloc, path)?)),
    }
}

impl Console {
    /// The one that words name; or the status where its key isn't to be had, which is told.
    pub(crate) fn of<E: CountedWrite>(
        rt: &HostRuntime,
        asked: AskedConsole,
        err: &mut E,
    ) -> Result<Console, u8>
        ensures { IfOk result (IsConsole asked.entry) }
    {
        let Ok(place) = place_of(rt.alloc(), asked.place) else {
            return Err(tell(Fault::Memory, err));
        };
        let key = match asked.key {
            Some(file) => Some(key_of(rt, file, err)?),
            None => None,
        };
        Ok(Console {
            place,
            timeout: asked.timeout,
            key,
        })
    }

    /// So long an answer is waited for.
    pub(crate) fn patience(&self) -> Duration {
        Duration::from_secs(u64::from(self.timeout))
    }
}

/// What a console is to be asked, a command a line.
#[derive(Drop)]
pub(crate) struct Asking {
    pub(crate) console: Console,
    pub(crate) lines: Vec<Vec<u8>>,
}

impl Asking {
    /// The commands of a file, or the status where there are none, which is told.
    pub(crate) fn of_commands<E: CountedWrite>(
        rt: &HostRuntime,
        asked: AskedConsole,
        path: &str,
        err: &mut E,
    ) -> Result<Asking, u8>
        ensures { IfOk result (AsksFor asked.entry) }
    {
        let console = Console::of(rt, asked, err)?;
        let text = match text_at(rt, path) {
            Ok(text) => text,
            Err(fault) => return Err(tell_of(path, fault, err)),
        };
        match command_texts(rt.alloc(), text.as_slice()) {
            Ok(lines) => Ok(Asking { console, lines }),
            Err(fault) => {
                tell_misfit(rt, Listed::Asked, text.as_slice(), err);
                Err(tell(fault_of(fault), err))
            }
        }
    }

    /// The change to the program of a file, or the status where there is none, which is told.
    pub(crate) fn of_change<E: CountedWrite>(
        rt: &HostRuntime,
        asked: AskedConsole,
        path: &str,
        err: &mut E,
    ) -> Result<Asking, u8>
        ensures { IfOk result (AsksToChange asked.entry) }
    {
        let console = Console::of(rt, asked, err)?;
        let text = match text_at(rt, path) {
            Ok(text) => text,
            Err(fault) => return Err(tell_of(path, fault, err)),
        };
        match change_lines(rt.alloc(), text.as_slice()) {
            Ok(lines) => Ok(Asking { console, lines }),
            Err(Fault::Commands) => Err(tell_too_large(rt, text.as_slice(), err)),
            Err(fault) => Err(tell_of(path, fault, err)),
        }
    }
}

/// Tells that the image of a program is too large for a change, and answers the status.
fn tell_too_large<E: CountedWrite>(rt: &HostRuntime, text: &[u8], err: &mut E) -> u8 {
    match image_bytes(rt.alloc(), text) {
        Ok(image) => {
            if put_numbered(err, b"plc: change of ", image.len()).is_ok() {
                let _ = put(err, b" bytes\n");
            }
            Fault::Commands.status()
        }
        Err(fault) => tell(fault, err),
    }
}

/// Asks a console, and prints each answer as soon as it's there: the status.
pub(crate) fn ask<R, O: CountedWrite, E: CountedWrite>(
    host: &Host<R>,
    asking: &Asking,
    out: &mut O,
    err: &mut E,
) -> u8
where
    R: Wait + Net<Listener = TcpListener, Stream = TcpStream> + Copy,
{
    match &asking.console.place {
        Place::Address(address) => {
            match TcpStream::connect_timeout(&host.rt, address, asking.console.patience()) {
                Ok(stream) => answered(send_to(host, &stream, asking, out), out, err),
                Err(_) => tell_failed(Failed::Port(address.port()), err),
            }
        }
        Place::Socket(path) => match UnixStream::connect(&host.rt, path.as_str()) {
            Ok(stream) => answered(send_to_socket(host, &stream, asking, out), out, err),
            Err(_) => tell_path(b"plc: device socket ", path.as_str(), err),
        },
    }
}

/// The status of a console that was asked; what failed is told.
fn answered<O: CountedWrite, E: CountedWrite>(
    sent: Result<u8, Failed>,
    out: &O,
    err: &mut E,
) -> u8 {
    match sent {
        Ok(status) => status,
        Err(_) if out.faults() > 0 => tell_failed(Failed::Output, err),
        Err(Failed::Device) => tell_unanswered(err),
        Err(failed) => tell_failed(failed, err),
    }
}

/// Tells that no answer came, and answers the status.
pub(crate) fn tell_unanswered<E: CountedWrite>(err: &mut E) -> u8 {
    let _ = put(err, b"plc: device no answer\n");
    Fault::Device.status()
}

/// Sends what a console is asked over a connection: the status.
fn send_to<R: Wait + Copy, O: CountedWrite>(
    host: &Host<R>,
    stream: &TcpStream,
    asking: &Asking,
    out: &mut O,
) -> Result<u8, Failed> {
    stream.set_nodelay(true)?;
    stream.set_read_timeout(Some(asking.console.patience()))?;
    let (mut reader, mut writer) = (Counted::new(stream), Counted::new(stream));
    send(host, asking, &mut reader, &mut writer, out)
}

/// Sends what a console is asked through a socket of this machine: the status.
fn send_to_socket<R: Wait + Copy, O: CountedWrite>(
    host: &Host<R>,
    stream: &UnixStream,
    asking: &Asking,
    out: &mut O,
) -> Result<u8, Failed> {
    stream.set_read_timeout(Some(asking.console.patience()))?;
    let (mut reader, mut writer) = (Counted::new(stream), Counted::new(stream));
    send(host, asking, &mut reader, &mut writer, out)
}

/// Sends the key to a console, if there is one, and then each line, and prints its answer: the status. Where the console
/// doesn't take the key, that's printed, and nothing else is sent.
fn send<R: Wait + Copy, I: CountedRead, W: CountedWrite, O: CountedWrite>(
    host: &Host<R>,
    asking: &Asking,
    reader: &mut I,
    writer: &mut W,
    out: &mut O,
) -> Result<u8, Failed> {
    if let Some(key) = &asking.console.key
        && !send_key(host, key.as_slice(), reader, writer)?
    {
        write_all(out, b"plc: key\n")?;
        return Ok(NO_COMMAND);
    }
    let replies = send_commands(host, asking.lines.as_slice(), reader, writer, out)?;
    Ok(status_of(worst(replies.as_slice())))
}

/// The status of a reply.
fn status_of(reply: Reply) -> u8
    ensures { result ≡ status_of_reply reply }
{
    match reply {
        Reply::Done => 0,
        Reply::Refused => REFUSED,
        Reply::NoCommand => NO_COMMAND,
    }
}
