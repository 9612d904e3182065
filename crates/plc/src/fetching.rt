//! Programs that are wanted: of a console, of a store, or of a text; and where one is written.

use crate::asking::{Console, NO_COMMAND, Place, tell_unanswered};
use crate::calls::flushed;
use crate::files::{STREAM, file, put_path, tell_of, tell_path, tell_unwritten};
use crate::stores::{image_in_force, tell_at};
use il_text::{Fault, image_bytes, put, tell};
use io_file::NewFile;
use io_model::{Counted, CountedRead, CountedWrite};
use plc_console::{Fetched, fetch_image, send_key};
use plc_host::{Failed, Host};
use plc_serve::tell_failed;
use plc_words::{AskedConsole, Fetching, Origin};
use std::alloc::Global;
use std::fs;
use std::io::Write;
use std::net::{Net, TcpListener, TcpStream};
use std::os::unix::fs::FileTypeExt;
use std::os::unix::net::UnixStream;
use std::sync::Wait;

/// A program that is wanted.
#[derive(Drop)]
pub(crate) enum Wanted {
    /// That of this text.
    Text(Vec<u8>),
    /// That of this image.
    Image(Vec<u8>),
    /// That which the controller runs whose console this is.
    Asked(Console),
}

impl Wanted {
    /// The program of an origin; or the status where there is none, which is told. No console is asked yet.
    pub(crate) fn of<E: CountedWrite>(
        rt: &HostRuntime,
        origin: Origin,
        fetching: Fetching,
        err: &mut E,
    ) -> Result<Wanted, u8> {
        match origin {
            Origin::Console(address) => {
                let place = plc_words::Place::Address(address);
                Ok(Wanted::Asked(console_of(rt, place, fetching, err)?))
            }
            Origin::Path(path) if is_socket(rt, path) => {
                let place = plc_words::Place::Socket(path);
                Ok(Wanted::Asked(console_of(rt, place, fetching, err)?))
            }
            Origin::Path(path) if is_directory(rt, path) => match image_in_force(rt, path) {
                Ok(image) => Ok(Wanted::Image(image)),
                Err(refusal) => Err(tell_at(path, refusal, err)),
            },
            Origin::Path(path) => match file(rt, path) {
                Ok(text) => Ok(Wanted::Text(text)),
                Err(fault) => Err(tell_of(path, fault, err)),
            },
        }
    }
}

/// The console at a place.
fn console_of<E: CountedWrite>(
    rt: &HostRuntime,
    place: plc_words::Place,
    fetching: Fetching,
    err: &mut E,
) -> Result<Console, u8> {
    let Fetching { timeout, key } = fetching;
    let asked = AskedConsole {
        place,
        timeout,
        key,
    };
    Console::of(rt, asked, err)
}

fn is_directory(rt: &HostRuntime, path: &str) -> bool {
    match fs::metadata(rt, path) {
        Ok(there) => there.is_dir(),
        Err(_) => false,
    }
}

fn is_socket(rt: &HostRuntime, path: &str) -> bool {
    match fs::metadata(rt, path) {
        Ok(there) => there.file_type().is_socket(),
        Err(_) => false,
    }
}

/// Where a program is written, and as what.
#[derive(Clone, Copy)]
pub(crate) struct Target<'a> {
    /// A file that isn't there yet; or standard output.
    pub(crate) path: &'a str,
    /// Whether it's the image that is written, and not the listing.
    pub(crate) is_image: bool,
}

/// A program that is to be fetched.
#[derive(Drop)]
pub(crate) struct Request {
    pub(crate) wanted: Wanted,
    pub(crate) path: String,
    pub(crate) is_image: bool,
}

impl Request {
    /// The program of an origin, for this target; or the status where that is a file that's there, or there is no such
    /// program, which is told.
    pub(crate) fn of<E: CountedWrite>(
        rt: &HostRuntime,
        origin: Origin,
        fetching: Fetching,
        target: Target,
        err: &mut E,
    ) -> Result<Request, u8> {
        let Target { path, is_image } = target;
        if path != STREAM && fs::metadata(rt, path).is_ok() {
            put_path(b"plc: file there ", path, err);
            return Err(Fault::Commands.status());
        }
        let Ok(own) = String::from_str(rt.alloc(), path) else {
            return Err(tell(Fault::Memory, err));
        };
        let wanted = Wanted::of(rt, origin, fetching, err)?;
        Ok(Request {
            wanted,
            path: own,
            is_image,
        })
    }
}

/// Writes a program that is to be fetched: the status.
pub(crate) fn fetch<R, W: Write, E: CountedWrite>(
    rt: &HostRuntime,
    host: &Host<R>,
    request: Request,
    out: &mut W,
    err: &mut E,
) -> u8
where
    R: Wait + Net<Listener = TcpListener, Stream = TcpStream> + Copy,
{
    let Request {
        wanted,
        path,
        is_image,
    } = request;
    match fetched(host, wanted, is_image, err) {
        Ok(bytes) => write_to(rt, bytes.as_slice(), path.as_str(), out, err),
        Err(status) => status,
    }
}

/// The listing of a program that is wanted, or its image; or the status where it isn't to be had, which is told.
fn fetched<R, E: CountedWrite>(
    host: &Host<R>,
    wanted: Wanted,
    is_image: bool,
    err: &mut E,
) -> Result<Vec<u8>, u8>
where
    R: Wait + Net<Listener = TcpListener, Stream = TcpStream> + Copy,
{
    let image = match wanted {
        Wanted::Image(image) => image,
        Wanted::Asked(console) => image_asked(host, &console, err)?,
        Wanted::Text(text) => match image_bytes(host.alloc, text.as_slice()) {
            Ok(image) => image,
            Err(fault) => return Err(tell(fault, err)),
        },
    };
    let listing = listing_of(host.alloc, image.as_slice(), err)?;
    Ok(if is_image { image } else { listing })
}

/// The text of a program that is wanted, or its listing where it's an image; or the status where it isn't to be had,
/// which is told.
pub(crate) fn text_of<R, E: CountedWrite>(
    host: &Host<R>,
    wanted: Wanted,
    err: &mut E,
) -> Result<Vec<u8>, u8>
where
    R: Wait + Net<Listener = TcpListener, Stream = TcpStream> + Copy,
{
    let image = match wanted {
        Wanted::Text(text) => return Ok(text),
        Wanted::Image(image) => image,
        Wanted::Asked(console) => image_asked(host, &console, err)?,
    };
    listing_of(host.alloc, image.as_slice(), err)
}

/// The listing of an image; or the status where the bytes are none, which is told.
fn listing_of<E: CountedWrite>(alloc: Global, image: &[u8], err: &mut E) -> Result<Vec<u8>, u8> {
    let (mut text, mut told) = (Vec::new(alloc), Vec::new(alloc));
    let mut counted = Counted::new(&mut text);
    let mut telling = Counted::new(&mut told);
    let status = plc_tool::list(alloc, image, &mut counted, &mut telling);
    // A vector fails to take bytes only where memory runs out.
    if counted.faults() > 0 || (status != 0 && told.is_empty()) {
        return Err(tell(Fault::Memory, err));
    }
    if status != 0 {
        let _ = put(err, told.as_slice());
        return Err(status);
    }
    Ok(text)
}

/// The image of the program that a controller runs, which its console is asked for; or the status where it isn't to be
/// had, which is told.
fn image_asked<R, E: CountedWrite>(
    host: &Host<R>,
    console: &Console,
    err: &mut E,
) -> Result<Vec<u8>, u8>
where
    R: Wait + Net<Listener = TcpListener, Stream = TcpStream> + Copy,
{
    match &console.place {
        Place::Address(address) => {
            match TcpStream::connect_timeout(&host.rt, address, console.patience()) {
                Ok(stream) => image_answered(fetch_at_port(host, &stream, console), err),
                Err(_) => Err(tell_failed(Failed::Port(address.port()), err)),
            }
        }
        Place::Socket(path) => match UnixStream::connect(&host.rt, path.as_str()) {
            Ok(stream) => image_answered(fetch_at_socket(host, &stream, console), err),
            Err(_) => Err(tell_path(b"plc: device socket ", path.as_str(), err)),
        },
    }
}

/// The image that a console answered; or the status where it gave none, which is told by its own line, if there is one.
fn image_answered<E: CountedWrite>(
    fetched: Result<Fetched, Failed>,
    err: &mut E,
) -> Result<Vec<u8>, u8> {
    match fetched {
        Ok(Fetched::Image(image)) => Ok(image),
        Ok(Fetched::Other(line)) => {
            let _ = put(err, line.as_slice());
            Err(NO_COMMAND)
        }
        Err(Failed::Device) => Err(tell_unanswered(err)),
        Err(failed) => Err(tell_failed(failed, err)),
    }
}

/// Fetches an image over a connection.
fn fetch_at_port<R: Wait + Copy>(
    host: &Host<R>,
    stream: &TcpStream,
    console: &Console,
) -> Result<Fetched, Failed> {
    stream.set_nodelay(true)?;
    stream.set_read_timeout(Some(console.patience()))?;
    let (mut reader, mut writer) = (Counted::new(stream), Counted::new(stream));
    fetch_with_key(host, console, &mut reader, &mut writer)
}

/// Fetches an image through a socket of this machine.
fn fetch_at_socket<R: Wait + Copy>(
    host: &Host<R>,
    stream: &UnixStream,
    console: &Console,
) -> Result<Fetched, Failed> {
    stream.set_read_timeout(Some(console.patience()))?;
    let (mut reader, mut writer) = (Counted::new(stream), Counted::new(stream));
    fetch_with_key(host, console, &mut reader, &mut writer)
}

/// Sends the key to a console, if there is one, and asks it for the image of the program in force.
fn fetch_with_key<R: Wait + Copy, I: CountedRead, W: CountedWrite>(
    host: &Host<R>,
    console: &Console,
    reader: &mut I,
    writer: &mut W,
) -> Result<Fetched, Failed> {
    if let Some(key) = &console.key
        && !send_key(host, key.as_slice(), reader, writer)?
    {
        return Ok(Fetched::Other(Vec::from_slice(host.alloc, b"plc: key\n")?));
    }
    fetch_image(host, reader, writer)
}

/// Writes these bytes to a new file, or on standard output: the status.
fn write_to<W: Write, E: CountedWrite>(
    rt: &HostRuntime,
    bytes: &[u8],
    path: &str,
    out: &mut W,
    err: &mut E,
) -> u8 {
    if path == STREAM {
        let mut counted = Counted::new(&mut *out);
        return match put(&mut counted, bytes) {
            Ok(()) => flushed(0, out, err),
            Err(_) => tell_failed(Failed::Output, err),
        };
    }
    match put(&mut Counted::new(NewFile::at(rt, path)), bytes) {
        Ok(()) => 0,
        Err(_) => tell_unwritten(path, err),
    }
}
