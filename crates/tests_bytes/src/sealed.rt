//! Sealed records over a connection whose ends have met: what comes of a stream of them at machine 0, wherever it's cut,
//! and what goes out at machine 2.
ghost use Rattle.std.specs.Prelude.{◌≤◌, ◌<◌, length, None};

use crate::frames::replaced_at;
use crate::keys::both_met;
use crate::notation::{bytes_of, otherwise, unreadable};
use net_ends::{Flow, Inbox, NonBlocking, NonBlockingRead, NonBlockingWrite, Stop};
use net_sealed::SealedRecords;
use std::alloc::{AllocError, Global};
use std::io;
use vr_model::Message;

/// So often more is asked for, at most, until none comes.
const MOST_READS: u32 = 100_000;

/// So many bytes are read at once.
const PIECE: usize = 7;

/// What comes out of a cell in a table of this title; none where there is no such table here.
pub fn table(alloc: Global, title: &str, cell: &str) -> io::Result<String> {
    match title {
        "stream of records" => stream(alloc, cell),
        "cut stream of records" => cut_stream(alloc, cell),
        "beginning of records" => beginnings(alloc, cell),
        "byte replaced" => replaced(alloc, cell),
        "stream of sealed frames" => sealed_frames(alloc, cell),
        "cut stream of sealed frames" => cut_frames(alloc, cell),
        "end that writes" => written(alloc, cell),
        _ => Err(unreadable()),
    }
}

/// Bytes that come in two pieces, and none for now behind each.
#[derive(Drop)]
struct Pieces<'a> {
    first: &'a [u8],
    second: &'a [u8],
    pauses: u64,
}

impl NonBlockingRead for Pieces<'_> {
    ghost left = { λ _. None };

    ghost stops = { λ p. record { pauses = p.pauses; ends = 0 } };

    fn read(&mut self, buf: &mut [u8]) -> Result<usize, Stop> {
        if self.first.is_empty() && !buf.is_empty() {
            self.first = self.second;
            self.second = b"";
            self.pauses = self.pauses.saturating_add(1);
            return Err(Stop::ForNow);
        }
        let count = self.first.len().min(buf.len());
        buf[..count].copy_from_slice(&self.first[..count]);
        self.first = &self.first[count..];
        Ok(count)
    }
}

/// The end of machine 0, to which this stream comes in two pieces.
fn listener<'a>(
    alloc: Global,
    stream: &'a [u8],
    cut: usize,
) -> io::Result<SealedRecords<Pieces<'a>>>
    requires { cut ≤ length stream.now }
{
    let (first, second) = stream.split_at(cut);
    let pieces = Pieces {
        first,
        second,
        pauses: 0,
    };
    let met = both_met().ok_or(unreadable())?;
    Ok(SealedRecords::new(alloc, pieces, met.listener)?)
}

/// What came of a stream: the bodies that were given, joined, and whether a record was refused behind them.
#[derive(Drop)]
struct Outcome {
    bodies: Vec<u8>,
    is_forged: bool,
}

impl Outcome {
    fn is(&self, other: &Outcome) -> bool {
        self.is_forged == other.is_forged && self.bodies.as_slice() == other.bodies.as_slice()
    }
}

/// Reads until no more comes for now, or none does any more.
fn read_on(
    records: &mut SealedRecords<Pieces<'_>>,
    bodies: &mut Vec<u8>,
) -> Result<(), AllocError> {
    let mut piece = [0; PIECE];
    for _ in 0..MOST_READS {
        match records.read(&mut piece) {
            Ok(count) => bodies.extend_from_slice(&piece[..count])?,
            Err(_) => break,
        }
    }
    Ok(())
}

/// What comes of a stream in two pieces.
fn came(alloc: Global, stream: &[u8], cut: usize) -> io::Result<Outcome>
    requires { cut ≤ length stream.now }
{
    let mut records = listener(alloc, stream, cut)?;
    let mut bodies = Vec::new(alloc);
    read_on(&mut records, &mut bodies)?;
    read_on(&mut records, &mut bodies)?;
    Ok(Outcome {
        bodies,
        is_forged: records.is_forged(),
    })
}

/// What comes of a stream, wherever it's cut; none where that depends on the cut.
fn came_at_each_cut(alloc: Global, stream: &[u8]) -> io::Result<Option<Outcome>> {
    let whole = came(alloc, stream, stream.len())?;
    for cut in 0..stream.len() {
        if !came(alloc, stream, cut)?.is(&whole) {
            return Ok(None);
        }
    }
    Ok(Some(whole))
}

/// The bodies that a stream gives, and what is behind them; it's cut in its middle alone.
fn stream(alloc: Global, cell: &str) -> io::Result<String> {
    let stream = bytes_of(alloc, cell)?;
    let came = came(alloc, stream.as_slice(), stream.len() / 2)?;
    Ok(tell(alloc, &came)?)
}

/// The same of a stream that is cut at each place in turn.
fn cut_stream(alloc: Global, cell: &str) -> io::Result<String> {
    match came_at_each_cut(alloc, bytes_of(alloc, cell)?.as_slice())? {
        Some(came) => Ok(tell(alloc, &came)?),
        None => Err(otherwise()),
    }
}

fn tell(alloc: Global, came: &Outcome) -> Result<String, AllocError> {
    let behind = if came.is_forged {
        "forged or damaged"
    } else {
        "waits"
    };
    if came.bodies.is_empty() {
        return String::from_str(alloc, behind);
    }
    let bodies = hex::encode(alloc, &came.bodies)?;
    format!(in alloc; "{bodies}, {behind}")
}

/// How many bytes a stream gives, as a digit, or `+` where there are more than nine.
fn digit(came: &Outcome) -> char {
    char::from_digit(came.bodies.len().min(10) as u32, 10).unwrap_or('+')
}

/// A digit for each beginning of a stream: so many bytes of bodies are given of it.
fn beginnings(alloc: Global, cell: &str) -> io::Result<String> {
    let stream = bytes_of(alloc, cell)?;
    let stream = stream.as_slice();
    let mut digits = String::new(alloc);
    for end in 0..stream.len() {
        digits.push(digit(&came(alloc, &stream[..end], end / 2)?))?;
    }
    Ok(digits)
}

/// `.` nothing yet, `f` a record is refused at once, `g` something is given, `G` something is given and then one refused.
fn letter(came: &Outcome) -> char {
    match (came.bodies.is_empty(), came.is_forged) {
        (true, false) => '.',
        (true, true) => 'f',
        (false, false) => 'g',
        (false, true) => 'G',
    }
}

/// The letter for the stream whose byte at a place is `FF`.
fn letter_at(alloc: Global, stream: &[u8], place: usize) -> io::Result<char>
    requires { place < length stream.now }
{
    let replaced = replaced_at(alloc, stream, place)?;
    Ok(letter(&came(alloc, replaced.as_slice(), 0)?))
}

/// A letter for each byte of a stream: what comes of it where that byte is replaced by `FF`.
fn replaced(alloc: Global, cell: &str) -> io::Result<String> {
    let stream = bytes_of(alloc, cell)?;
    let stream = stream.as_slice();
    let mut letters = String::new(alloc);
    for place in 0..stream.len() {
        letters.push(letter_at(alloc, stream, place)?)?;
    }
    Ok(letters)
}

// ---- frames in the bodies

/// Reads until nothing more comes for now, or none does any more.
fn feed_on(
    alloc: Global,
    records: &mut SealedRecords<Pieces<'_>>,
    inbox: &mut Inbox,
    messages: &mut Vec<Message>,
) -> Flow {
    for _ in 0..MOST_READS {
        match inbox.read(alloc, records, messages) {
            Flow::More => {}
            flow => return flow,
        }
    }
    Flow::More
}

/// How many messages an inbox gives of the bodies of a stream in two pieces, and how its last read went.
fn fed(alloc: Global, stream: &[u8], cut: usize) -> io::Result<(usize, Flow)>
    requires { cut ≤ length stream.now }
{
    let mut records = listener(alloc, stream, cut)?;
    let mut inbox = Inbox::new(alloc)?;
    let mut messages = Vec::new(alloc);
    let _first = feed_on(alloc, &mut records, &mut inbox, &mut messages);
    let flow = feed_on(alloc, &mut records, &mut inbox, &mut messages);
    let count = messages.len();
    drop(messages);
    Ok((count, flow))
}

/// The same wherever a stream is cut; none where that depends on the cut.
fn fed_at_each_cut(alloc: Global, stream: &[u8]) -> io::Result<Option<(usize, Flow)>> {
    let whole = fed(alloc, stream, stream.len())?;
    for cut in 0..stream.len() {
        if fed(alloc, stream, cut)? != whole {
            return Ok(None);
        }
    }
    Ok(Some(whole))
}

fn tell_fed(alloc: Global, fed: (usize, Flow)) -> io::Result<String> {
    let (count, flow) = fed;
    let flow = match flow {
        Flow::Dry => "waits",
        Flow::Over => "over",
        Flow::More | Flow::Kept => return Err(unreadable()),
    };
    Ok(format!(in alloc; "{count}, {flow}")?)
}

/// How many messages a stream gives, and what is behind them; it's cut in its middle alone.
fn sealed_frames(alloc: Global, cell: &str) -> io::Result<String> {
    let stream = bytes_of(alloc, cell)?;
    tell_fed(alloc, fed(alloc, stream.as_slice(), stream.len() / 2)?)
}

/// The same of a stream that is cut at each place in turn.
fn cut_frames(alloc: Global, cell: &str) -> io::Result<String> {
    let stream = bytes_of(alloc, cell)?;
    tell_fed(
        alloc,
        fed_at_each_cut(alloc, stream.as_slice())?.ok_or(otherwise())?,
    )
}

// ---- what goes out

/// The end of machine 2, which writes into these bytes.
type Writing<'a> = SealedRecords<NonBlocking<&'a mut Vec<u8>>>;

/// What goes out where these deeds are done, with `, ` between them.
fn written(alloc: Global, cell: &str) -> io::Result<String> {
    let mut went = Vec::new(alloc);
    let taken = all_written(alloc, cell, &mut went)?;
    Ok(tell_written(alloc, taken, went.as_slice())?)
}

fn tell_written(alloc: Global, taken: usize, went: &[u8]) -> Result<String, AllocError> {
    if went.is_empty() {
        return format!(in alloc; "{taken} taken");
    }
    let bytes = hex::encode(alloc, &went)?;
    format!(in alloc; "{taken} taken, {bytes}")
}

/// Does these deeds: how many bytes of bodies were taken.
fn all_written(alloc: Global, cell: &str, went: &mut Vec<u8>) -> io::Result<usize> {
    let met = both_met().ok_or(unreadable())?;
    let mut records = SealedRecords::new(alloc, NonBlocking::new(went), met.dialler)?;
    let mut taken: usize = 0;
    for deed in cell.split(", ") {
        taken = taken.saturating_add(does(alloc, &mut records, deed)?);
    }
    Ok(taken)
}

/// A deed by which no byte of a body is taken.
fn without_body(done: Result<(), Stop>) -> Result<usize, Stop> {
    match done {
        Ok(()) => Ok(0),
        Err(stop) => Err(stop),
    }
}

/// Does a deed: how many bytes of a body are taken.
fn does(alloc: Global, records: &mut Writing<'_>, deed: &str) -> io::Result<usize> {
    let done = match deed {
        "beat" => without_body(records.beat()),
        "push" => without_body(records.push()),
        body => records.write(bytes_of(alloc, body)?.as_slice()),
    };
    match done {
        Ok(taken) => Ok(taken),
        Err(_) => Err(otherwise()),
    }
}
