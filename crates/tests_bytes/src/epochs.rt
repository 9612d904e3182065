//! Machines of a group behind a power cut: what each does about the epochs of the group, by what comes.

use crate::notation::{
    behind, bytes_of, front, hexadecimal, lines_of, number_of, otherwise, put_made, told,
    unreadable,
};
use net_hello::Epoch;
use plc_epochs::{Answer, ColdStart, Greeting, Kept, Moment, Place, Step, Told, Visit, Word};
use std::alloc::{AllocError, Global};
use std::io;
use vr_model::{Config, MOST_REPLICAS};

/// The nonces of a start of a machine.
const NONCES: u64 = 1 << 32;

/// An epoch, as `2.11`: its number, and the byte of which the sum of its image is made.
fn epoch_of(text: &str) -> Option<Epoch> {
    let (number, image) = text.split_once('.')?;
    Some(Epoch {
        number: number.parse::<u64>().ok()?,
        image: image_of(image)?,
    })
}

fn image_of(text: &str) -> Option<[u8; 32]> {
    Some([u8::try_from(hexadecimal(text)?).ok()?; 32])
}

/// A nonce, as `3.1`: a start of a machine, and how often it thawed in that.
fn nonce_of(text: &str) -> Option<u64> {
    let (starts, thaws) = text.split_once('.')?;
    let first = starts.parse::<u64>().ok()?.checked_mul(NONCES)?;
    first.checked_add(thaws.parse::<u64>().ok()?)
}

/// The number of a machine, as `R1`.
fn machine_of(text: &str) -> Option<u8> {
    text.strip_prefix('R')?.parse::<u8>().ok()
}

/// What a store has, as `nothing`, `above 2.11`, `entered 2.11`, `begun 2.11`.
fn kept_of(text: &str) -> Option<Kept> {
    let (word, epoch) = front(text, " ");
    match word {
        "nothing" => Some(Kept::Nothing),
        "above" => Some(Kept::Above(epoch_of(epoch)?)),
        "entered" => Some(Kept::Entered(epoch_of(epoch)?)),
        "begun" => Some(Kept::Begun(epoch_of(epoch)?)),
        _ => None,
    }
}

/// An answer, as `1.0 3.1`: the nonce that asked, and that which answers.
fn answer_of(text: &str) -> Option<Answer> {
    let (question, nonce) = text.split_once(' ')?;
    Some(Answer {
        question: nonce_of(question)?,
        nonce: nonce_of(nonce)?,
    })
}

/// Puts the nonce of a machine, as `R2=1.0`.
fn put_asked(asked: &mut Told, text: &str) -> Option<()> {
    let (machine, nonce) = text.split_once('=')?;
    *asked.get_mut(usize::from(machine_of(machine)?))? = Some(nonce_of(nonce)?);
    Some(())
}

/// Who is asked once more, as `1.0 R2=1.0 R3=4.1` behind the nonce that asks.
fn asked_of(text: &str) -> Option<Told> {
    let mut asked = [None; MOST_REPLICAS];
    for word in text.split_whitespace().skip(1) {
        put_asked(&mut asked, word)?;
    }
    Some(asked)
}

/// A word, as `FREEZE 1.0`, `FROZEN 1.0 3.1`, `CONFIRM 1.0 R2=3.1`, `STILL 1.0 3.1`, `MARKED 1.0`.
fn word_of(verb: &str, rest: &str) -> Option<Word> {
    match verb {
        "FREEZE" => Some(Word::Freeze {
            question: nonce_of(rest)?,
        }),
        "FROZEN" => Some(Word::Frozen(answer_of(rest)?)),
        "CONFIRM" => Some(Word::Confirm {
            question: nonce_of(front(rest, " ").0)?,
            asked: asked_of(rest)?,
        }),
        "STILL" => Some(Word::StillFrozen(answer_of(rest)?)),
        "MARKED" => Some(Word::Marked {
            question: nonce_of(rest)?,
        }),
        _ => None,
    }
}

/// An epoch as it's written, with what stands before it.
fn tell_epoch(alloc: Global, verb: &str, epoch: &Epoch) -> Result<String, AllocError> {
    let (number, image) = (epoch.number, epoch.image[0]);
    format!(in alloc; "{verb} {number}.{image:02x}")
}

/// A nonce as it's written.
fn tell_nonce(alloc: Global, nonce: u64) -> Result<String, AllocError> {
    let (starts, thaws) = (nonce / NONCES, nonce % NONCES);
    format!(in alloc; "{starts}.{thaws}")
}

fn tell_answer(alloc: Global, verb: &str, answer: &Answer) -> Result<String, AllocError> {
    let question = tell_nonce(alloc, answer.question)?;
    let nonce = tell_nonce(alloc, answer.nonce)?;
    format!(in alloc; "{verb} {question} {nonce}")
}

/// Those that are asked once more, each with its nonce.
fn tell_asked(alloc: Global, asked: &Told) -> Result<String, AllocError> {
    let mut out = String::new(alloc);
    for (machine, nonce) in asked.iter().enumerate() {
        if let Some(nonce) = nonce {
            let nonce = tell_nonce(alloc, *nonce)?;
            put_made(&mut out, format!(in alloc; " R{machine}={nonce}"))?;
        }
    }
    Ok(out)
}

/// A word as it's written, or nothing.
fn tell_word(alloc: Global, word: Option<Word>) -> Result<String, AllocError> {
    match word {
        None => Ok(String::new(alloc)),
        Some(Word::Freeze { question }) => {
            let question = tell_nonce(alloc, question)?;
            format!(in alloc; " FREEZE {question}")
        }
        Some(Word::Frozen(answer)) => tell_answer(alloc, " FROZEN", &answer),
        Some(Word::Confirm { question, asked }) => {
            let question = tell_nonce(alloc, question)?;
            let asked = tell_asked(alloc, &asked)?;
            format!(in alloc; " CONFIRM {question}{asked}")
        }
        Some(Word::StillFrozen(answer)) => tell_answer(alloc, " STILL", &answer),
        Some(Word::Marked { question }) => {
            let question = tell_nonce(alloc, question)?;
            format!(in alloc; " MARKED {question}")
        }
    }
}

/// What a machine does, with the word that it says.
fn tell_saying(alloc: Global, verb: &str, word: Option<Word>) -> Result<String, AllocError> {
    let word = tell_word(alloc, word)?;
    format!(in alloc; "{verb}{word}")
}

/// What a machine does. It asks what it has to ask then.
fn tell_step(alloc: Global, machine: &ColdStart, step: Step) -> Result<String, AllocError> {
    match step {
        Step::Nothing => String::from_str(alloc, "nothing"),
        Step::Counts => String::from_str(alloc, "counts"),
        Step::Asks => tell_saying(alloc, "asks", machine.question()),
        Step::AsksAgain => tell_saying(alloc, "asks again", machine.question()),
        Step::Freezes(word) => tell_saying(alloc, "freezes", Some(word)),
        Step::Confirms(word) => tell_saying(alloc, "confirms", Some(word)),
        Step::Declines(word) => tell_saying(alloc, "declines", Some(word)),
        Step::HearsMarked => String::from_str(alloc, "hears that it's marked"),
        Step::Thaws(nonce) => {
            let nonce = tell_nonce(alloc, nonce)?;
            format!(in alloc; "thaws {nonce}")
        }
        step => tell_epoch_step(alloc, step),
    }
}

fn tell_epoch_step(alloc: Global, step: Step) -> Result<String, AllocError> {
    match step {
        Step::Ends(epoch) => tell_epoch(alloc, "ends, to be", &epoch),
        Step::Hears(epoch) => tell_epoch(alloc, "leaves for", &epoch),
        Step::WaitsAbove(epoch) => tell_epoch(alloc, "waits above", &epoch),
        Step::Enters(epoch) => tell_epoch(alloc, "enters", &epoch),
        Step::Begins(epoch) => tell_epoch(alloc, "begins", &epoch),
        Step::Starts(epoch) => tell_epoch(alloc, "starts", &epoch),
        step => tell_staying(alloc, step),
    }
}

/// Why a machine stays in its epoch.
fn tell_staying(alloc: Global, step: Step) -> Result<String, AllocError> {
    match step {
        Step::Refuses(epoch) => tell_epoch(alloc, "goes on, refuses", &epoch),
        Step::FarAbove(epoch) => tell_epoch(alloc, "stays, far above is", &epoch),
        Step::OtherProgram(epoch) => tell_epoch(alloc, "stays, another program has", &epoch),
        Step::Before(epoch) => tell_epoch(alloc, "waits on, before it is", &epoch),
        _ => String::from_str(alloc, "other"),
    }
}

/// What a store is to have.
fn tell_kept(alloc: Global, kept: &Kept) -> Result<String, AllocError> {
    match kept {
        Kept::Nothing => String::from_str(alloc, "nothing"),
        Kept::Above(epoch) => tell_epoch(alloc, "above", epoch),
        Kept::Entered(epoch) => tell_epoch(alloc, "entered", epoch),
        Kept::Begun(epoch) => tell_epoch(alloc, "begun", epoch),
    }
}

/// What a machine says first, and where else it speaks.
fn tell_greeting(alloc: Global, machine: &ColdStart) -> Result<String, AllocError> {
    match machine.greeting() {
        Greeting::Silence => String::from_str(alloc, "silence"),
        Greeting::Waits => String::from_str(alloc, "waits"),
        Greeting::Hello(epoch) if machine.speaks_in().is_some() => {
            tell_epoch(alloc, "hello and more in", &epoch)
        }
        Greeting::Hello(epoch) => tell_epoch(alloc, "hello in", &epoch),
    }
}

/// What comes out of a cell in a table of this title.
pub fn table(alloc: Global, title: &str, cell: &str) -> io::Result<String> {
    match title {
        "next epoch by hand" => next_by_hand(alloc, cell),
        "visit" => visit(alloc, cell),
        _ => Err(unreadable()),
    }
}

fn next_by_hand(alloc: Global, text: &str) -> io::Result<String> {
    let (kept, image) = by_hand(text).ok_or(unreadable())?;
    match kept.by_hand(image) {
        Ok(kept) => Ok(tell_kept(alloc, &kept)?),
        Err(fault) => Ok(format!(in alloc; "{fault}")?),
    }
}

/// What a visit says, which is spelled as these bytes.
fn visit(alloc: Global, text: &str) -> io::Result<String> {
    let bytes = bytes_of(alloc, text)?;
    let Some(visit) = Visit::read(bytes.as_slice()) else {
        return told(alloc, "no visit");
    };
    if visit.spell(alloc)?.as_slice() == bytes.as_slice() {
        Ok(tell_visit(alloc, &visit)?)
    } else {
        Err(otherwise())
    }
}

/// Who says what, as `R1 in 2.11 FREEZE 1.0`.
fn tell_visit(alloc: Global, visit: &Visit) -> Result<String, AllocError> {
    let epoch = tell_epoch(alloc, "in", &visit.epoch)?;
    let word = tell_word(alloc, Some(visit.word))?;
    let from = visit.from;
    format!(in alloc; "R{from} {epoch}{word}")
}

/// What a store has, and the image with which its machine is to begin.
fn by_hand(cell: &str) -> Option<(Kept, [u8; 32])> {
    let image = image_of(behind(cell, "image=")?)?;
    Some((kept_of(front(cell, " image=").0)?, image))
}

/// A machine whose process starts, as `kept, 2 starts`.
fn started(place: Place, image: [u8; 32], words: &str, now: Moment) -> Option<ColdStart> {
    let (kept, starts) = front(words, " starts=");
    let starts = starts.parse::<u32>().ok()?;
    Some(ColdStart::new(place, &kept_of(kept)?, image, starts, now))
}

/// Machines of a group, by their numbers.
#[derive(Drop)]
struct Machines {
    place: Place,
    image: [u8; 32],
    all: Vec<ColdStart>,
}

/// A group of 2f+1 machines, as `f=1` and maybe `by=hand` or `marked`, which all begin with the first epoch begun.
fn group(text: &str) -> Option<(Place, [u8; 32])> {
    let place = Place {
        config: Config::new(u8::try_from(number_of(text, "f=")?).ok()?, 0)?,
        number: 0,
        is_automatic: !text.contains("by=hand"),
        is_marked: text.contains("marked"),
    };
    Some((place, image_of("11")?))
}

fn all_begun(alloc: Global, place: Place, image: [u8; 32]) -> Result<Machines, AllocError> {
    let mut all = Vec::new(alloc);
    let kept = Kept::Begun(Epoch { number: 1, image });
    for number in 0..place.config.group_size() {
        all.push(ColdStart::new(Place { number, ..place }, &kept, image, 1, 0))?;
    }
    Ok(Machines { place, image, all })
}

/// A run of a group: a line is `0 R1 ..` with a time, a machine and what comes, and behind a colon what it does.
pub fn run(alloc: Global, of: &str, body: &str) -> io::Result<String> {
    let (place, image) = group(of).ok_or(unreadable())?;
    tell_all(alloc, &mut all_begun(alloc, place, image)?, body)
}

fn tell_all(alloc: Global, group: &mut Machines, body: &str) -> io::Result<String> {
    let mut said = String::new(alloc);
    for line in lines_of(alloc, body)? {
        put_event(alloc, group, front(line, ": ").0, &mut said)?;
    }
    Ok(said)
}

/// Puts an event with what comes of it.
fn put_event(
    alloc: Global,
    group: &mut Machines,
    event: &str,
    said: &mut String,
) -> io::Result<()> {
    let (now, rest) = front(event, " ");
    let (machine, words) = front(rest, " ");
    let now = now.parse::<u64>().ok().ok_or(unreadable())?;
    let number = machine_of(machine).ok_or(unreadable())?;
    let came = comes_to(alloc, group, number, words, now)?;
    Ok(put_made(said, format!(in alloc; "{event}: {came}\n"))?)
}

fn comes_to(
    alloc: Global,
    group: &mut Machines,
    number: u8,
    words: &str,
    now: Moment,
) -> io::Result<String> {
    let (place, image) = (
        Place {
            number,
            ..group.place
        },
        group.image,
    );
    let machine = group.all.get_mut(usize::from(number)).ok_or(unreadable())?;
    match words.strip_prefix("has ") {
        Some(kept) => {
            *machine = started(place, image, kept, now).ok_or(unreadable())?;
            Ok(tell_greeting(alloc, machine)?)
        }
        None => comes(alloc, machine, words, now),
    }
}

/// What comes of something that a machine does by itself, or of what comes from another.
fn comes(alloc: Global, machine: &mut ColdStart, words: &str, now: Moment) -> io::Result<String> {
    match words {
        "kept" => Ok(tell_kept(alloc, &machine.kept())?),
        "says" => Ok(tell_greeting(alloc, machine)?),
        "recovers" => recovers(alloc, machine),
        "waits for" => tell_waiting(alloc, machine),
        _ => {
            let step = step_of(machine, words, now).ok_or(unreadable())?;
            Ok(tell_step(alloc, machine, step)?)
        }
    }
}

/// How many others it waits for, and how many it has heard.
fn tell_waiting(alloc: Global, machine: &ColdStart) -> io::Result<String> {
    match machine.waits_for() {
        Some(others) => {
            let (heard, wanted) = (others.heard, others.wanted);
            Ok(format!(in alloc; "{heard} heard, {wanted} wanted")?)
        }
        None => told(alloc, "none"),
    }
}

/// Its replica has a majority of answers, which it takes unless it's frozen.
fn recovers(alloc: Global, machine: &mut ColdStart) -> io::Result<String> {
    if machine.takes_answers() {
        machine.recovered();
        return told(alloc, "takes them");
    }
    told(alloc, "takes none")
}

fn step_of(machine: &mut ColdStart, words: &str, now: Moment) -> Option<Step> {
    let (verb, rest) = front(words, " ");
    match verb {
        "looks" => Some(machine.look(now)),
        "stored" => Some(machine.stored(&kept_of(rest)?)),
        "image" => {
            machine.keep_image(image_of(rest)?);
            Some(Step::Nothing)
        }
        from => hears(machine, machine_of(from)?, rest, now),
    }
}

/// What comes of a word of another machine, as `HELLO 2.11`, `RECOVERY 1.11`, `SIGN 1.11` where it's near in that epoch,
/// `FREEZE 1.0` in the first epoch, or `in 2.11 FREEZE 1.0`.
fn hears(machine: &mut ColdStart, from: u8, words: &str, now: Moment) -> Option<Step> {
    let (verb, rest) = front(words, " ");
    match verb {
        "HELLO" => Some(machine.hear(from, &epoch_of(rest)?, now)),
        "RECOVERY" => Some(machine.hear_recovery(from, &epoch_of(rest)?, now)),
        "SIGN" => Some(machine.hear_sign(from, &epoch_of(rest)?, now)),
        "in" => hears_in(machine, from, rest, now),
        _ => Some(machine.hear_word(from, &epoch_of("1.11")?, &word_of(verb, rest)?, now)),
    }
}

fn hears_in(machine: &mut ColdStart, from: u8, words: &str, now: Moment) -> Option<Step> {
    let (epoch, words) = front(words, " ");
    let (verb, rest) = front(words, " ");
    Some(machine.hear_word(from, &epoch_of(epoch)?, &word_of(verb, rest)?, now))
}
