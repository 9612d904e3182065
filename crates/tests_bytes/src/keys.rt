//! Keys between machines: sums, files of keys, how two ends meet, and records that go between them. Machine 2 dials
//! machine 0; both speak the key `SPOKEN`, and hear `HEARD`, too.

use crate::notation::{
    bytes_of, cut, front, lines_of, otherwise, put_made, spread, told, told_bytes, unreadable,
};
use crate::sealed;
use net_keys::{
    Answered, CHALLENGE, Challenge, ChallengeFault, Dialled, Ends, Hmac, Key, KeyFault, Keys,
    Opener, SUM, Sealer,
};
use std::alloc::{AllocError, Global};
use std::io;

const SPOKEN: [u8; 32] = [0x4B; 32];

const HEARD: [u8; 32] = [0x6B; 32];

/// What machine 2 draws for the connection, and what machine 0 does.
const FIRST: [u8; 32] = [0x11; 32];

const SECOND: [u8; 32] = [0x22; 32];

/// What machine 2 says first.
const HELLO: [u8; 2] = [0x68, 0x69];

/// What comes out of a cell in a table of this title.
pub fn table(alloc: Global, title: &str, cell: &str) -> io::Result<String> {
    match title {
        "sum" => sum(alloc, cell),
        "file of keys" => file(alloc, cell),
        "challenge" => challenge(alloc, cell),
        "dial" => dial(alloc, cell),
        "answer" => answer(alloc, cell),
        "first record" => first_record(alloc, cell),
        _ => sealed::table(alloc, title, cell),
    }
}

/// The sum of `TEXT by KEY`.
fn sum(alloc: Global, cell: &str) -> io::Result<String> {
    let (text, key) = cut(cell, " by ")?;
    let mut hmac = Hmac::new(bytes_of(alloc, key)?.as_slice());
    hmac.update(bytes_of(alloc, text)?.as_slice());
    told_bytes(alloc, &hmac.finalize())
}

/// The keys of a file, in which `/` ends a line.
fn file(alloc: Global, cell: &str) -> io::Result<String> {
    let text = spread(alloc, cell)?.replace(alloc, "/", "\n")?;
    match Keys::read(text.as_bytes()) {
        Ok(keys) => Ok(tell_keys(alloc, &keys)?),
        Err(fault) => Ok(tell_fault(alloc, fault)?),
    }
}

/// The names of keys.
fn tell_keys(alloc: Global, keys: &Keys) -> Result<String, AllocError> {
    let spoken = hex::encode(alloc, &keys.speaks.name())?;
    match keys.hears {
        Some(key) => {
            let heard = hex::encode(alloc, &key.name())?;
            format!(in alloc; "speaks {spoken}, hears {heard}")
        }
        None => format!(in alloc; "speaks {spoken}"),
    }
}

fn tell_fault(alloc: Global, fault: KeyFault) -> Result<String, AllocError> {
    match fault {
        KeyFault::Digit { line, behind } => {
            format!(in alloc; "{fault}: line {line}, behind {behind}")
        }
        KeyFault::Lines | KeyFault::Twice => format!(in alloc; "{fault}"),
    }
}

/// Bytes as an array.
fn array<const N: usize>(bytes: &[u8]) -> io::Result<[u8; N]> {
    match <[u8; N]>::try_from(bytes) {
        Ok(array) => Ok(array),
        Err(_) => Err(unreadable()),
    }
}

/// The reason to refuse it, as what comes out.
fn refused(alloc: Global, fault: ChallengeFault) -> io::Result<String> {
    Ok(format!(in alloc; "{fault}")?)
}

/// What a challenge says, which is spelled as these bytes.
fn challenge(alloc: Global, cell: &str) -> io::Result<String> {
    let bytes = array::<CHALLENGE>(bytes_of(alloc, cell)?.as_slice())?;
    match Challenge::read(&bytes) {
        Ok(challenge) if challenge.spell(alloc)?.as_slice() == bytes.as_slice() => {
            Ok(tell_challenge(alloc, &challenge)?)
        }
        Ok(_) => Err(otherwise()),
        Err(fault) => refused(alloc, fault),
    }
}

fn tell_challenge(alloc: Global, challenge: &Challenge) -> Result<String, AllocError> {
    let (from, to) = (challenge.from, challenge.to);
    let key = hex::encode(alloc, &challenge.key)?;
    let nonce = hex::encode(alloc, &challenge.nonce)?;
    format!(in alloc; "{from} to {to} by {key}, {nonce}")
}

fn keys() -> Keys {
    Keys {
        speaks: Key::new(SPOKEN),
        hears: Some(Key::new(HEARD)),
    }
}

/// Machine 2 dials machine 0.
fn dialled() -> Dialled {
    keys().dial(2, 0, FIRST)
}

/// What machine 0 makes of a challenge that comes as these bytes.
fn answered(bytes: &[u8; CHALLENGE]) -> Result<Answered, ChallengeFault> {
    let challenge = Challenge::read(bytes)?;
    keys().answer(0, &challenge, SECOND)
}

/// What machine 0 answers to these bytes: its challenge, and its sum behind that.
fn dial(alloc: Global, cell: &str) -> io::Result<String> {
    match answered(&array(bytes_of(alloc, cell)?.as_slice())?) {
        Ok(answered) => tell_answer(alloc, &answered),
        Err(fault) => refused(alloc, fault),
    }
}

fn tell_answer(alloc: Global, answered: &Answered) -> io::Result<String> {
    let mut bytes = answered.challenge().spell(alloc)?;
    bytes.extend_from_slice(&answered.proof())?;
    told_bytes(alloc, bytes.as_slice())
}

/// What machine 2 makes of such an answer.
fn answer(alloc: Global, cell: &str) -> io::Result<String> {
    let bytes = array::<66>(bytes_of(alloc, cell)?.as_slice())?;
    let (answer, sum) = bytes.split_at(CHALLENGE);
    match meets(&array(answer)?, &array(sum)?) {
        Ok(_) => told(alloc, "met"),
        Err(fault) => refused(alloc, fault),
    }
}

fn meets(answer: &[u8; CHALLENGE], sum: &[u8; SUM]) -> Result<Ends, ChallengeFault> {
    dialled().meet(&Challenge::read(answer)?, sum)
}

/// What machine 0 makes of the first record of machine 2, `BODY with SUM`.
fn first_record(alloc: Global, cell: &str) -> io::Result<String> {
    let (body, sum) = cut(cell, " with ")?;
    let sum = array(bytes_of(alloc, sum)?.as_slice())?;
    match hears(bytes_of(alloc, body)?.as_slice(), &sum) {
        Ok(_) => told(alloc, "met"),
        Err(fault) => refused(alloc, fault),
    }
}

fn hears(body: &[u8], sum: &[u8; SUM]) -> Result<Ends, ChallengeFault> {
    keys()
        .answer(0, &dialled().challenge(), SECOND)?
        .meet(body, sum)
}

/// Both ends of a connection, which have met.
#[derive(Drop)]
pub struct Met {
    pub dialler: Ends,
    pub listener: Ends,
}

pub fn both_met() -> Option<Met> {
    let dialled = dialled();
    let answered = keys().answer(0, &dialled.challenge(), SECOND).ok()?;
    let mut dialler = dialled.meet(&answered.challenge(), &answered.proof()).ok()?;
    let sum = dialler.sealer.seal(&HELLO).ok()?;
    let listener = answered.meet(&HELLO, &sum).ok()?;
    Some(Met { dialler, listener })
}

/// A run of a connection behind its hello.
pub fn run(alloc: Global, body: &str) -> io::Result<String> {
    tell_all(alloc, &mut both_met().ok_or(unreadable())?, body)
}

fn tell_all(alloc: Global, met: &mut Met, body: &str) -> io::Result<String> {
    let mut said = String::new(alloc);
    for line in lines_of(alloc, body)? {
        put_event(alloc, met, front(line, ": ").0, &mut said)?;
    }
    Ok(said)
}

/// Puts what an end does, with what comes of it.
fn put_event(alloc: Global, met: &mut Met, event: &str, said: &mut String) -> io::Result<()> {
    let (end, deed) = cut(event, " ")?;
    let came = match end {
        "dialler" => does(alloc, &mut met.dialler, deed)?,
        "listener" => does(alloc, &mut met.listener, deed)?,
        _ => return Err(unreadable()),
    };
    Ok(put_made(said, format!(in alloc; "{event}: {came}\n"))?)
}

/// An end seals a body, or opens `BODY with SUM`.
fn does(alloc: Global, ends: &mut Ends, deed: &str) -> io::Result<String> {
    let (verb, rest) = front(deed, " ");
    match verb {
        "seals" => seals(alloc, &mut ends.sealer, rest),
        "opens" => opens(alloc, &mut ends.opener, rest),
        _ => Err(unreadable()),
    }
}

fn seals(alloc: Global, sealer: &mut Sealer, body: &str) -> io::Result<String> {
    match sealer.seal(bytes_of(alloc, body)?.as_slice()) {
        Ok(sum) => told_bytes(alloc, &sum),
        Err(fault) => Ok(format!(in alloc; "{fault}")?),
    }
}

fn opens(alloc: Global, opener: &mut Opener, cell: &str) -> io::Result<String> {
    let (body, sum) = cut(cell, "with ")?;
    let sum = array(bytes_of(alloc, sum)?.as_slice())?;
    match opener.open(bytes_of(alloc, body)?.as_slice(), &sum) {
        Ok(()) => told(alloc, "opened"),
        Err(fault) => Ok(format!(in alloc; "{fault}")?),
    }
}
