//! Staged writes and released images: what no contract says of them.
ghost use Rattle.std.specs.Prelude.{◌≡◌};

use il_model::{Cells, InImage, OutImage, WORDS};
use io_image::{
    Naming, NewList, Pen, PublishError, Release, ReleasedReader, ReleasedWriter, Sample, Stage,
    StageBook, StageError, Staging, Ticket, View, released,
};
use std::alloc::{AllocError, Global};
use std::marker::Brand;
use std::process::Abort;
use std::sync::Wait;
use std::sync::atomic::{AtomicU64, Ordering};
use std::test::Fail;
use std::thread;
use std::thread::{Threads, join};

// Writes words, once more where memory refused it.
fn write_words<S: Staging>(
    staging: &mut S,
    address: usize,
    words: &[i16],
) -> Result<Ticket, StageError> {
    match staging.write_words(address, words) {
        Err(StageError::Memory) => staging.write_words(address, words),
        answer => answer,
    }
}

// Writes bits, once more where memory refused it.
fn write_bits<S: Staging>(
    staging: &mut S,
    address: usize,
    bits: &[bool],
) -> Result<Ticket, StageError> {
    match staging.write_bits(address, bits) {
        Err(StageError::Memory) => staging.write_bits(address, bits),
        answer => answer,
    }
}

fn fills_up<S: Staging, R: Abort>(rt: &R, staging: &mut S) {
    for number in 0..4096u64 {
        assert_eq!(rt; write_words(staging, 0, &[7]), Ok(Ticket { number }));
    }
    // no sample: the book stays full
    let _ = staging.read();
    let full: [Row; 3] = [
        (0, Write::Words(&[8]), Err(StageError::Full)),
        (0, Write::Bits(&[true]), Err(StageError::Full)),
        (510, Write::Bits(&[true; 3]), Err(StageError::Address)),
    ];
    writes(rt, staging, &full);
    let sample = staging.sample();
    assert_eq!(rt; (sample.inputs.cells.words[0], sample.next), (7, 4096));
    writes(rt, staging, &[(0, Write::Words(&[8]), ticket(4096))]);
}

#[test]
fn the_4097th_write_since_a_sample_is_refused(rt: HostRuntime) {
    fills_up(&rt, &mut StageBook::new(rt.alloc()));
    let stage = Stage::new(StageBook::new(rt.alloc()));
    fills_up(&rt, &mut stage.handle(&rt));
}

/// What is written.
#[derive(Clone, Copy)]
enum Write<'a> {
    Bits(&'a [bool]),
    Words(&'a [i16]),
}

/// An address, what is written there, and the answer.
type Row<'a> = (usize, Write<'a>, Result<Ticket, StageError>);

fn writes<S: Staging, R: Abort>(rt: &R, staging: &mut S, rows: &[Row]) {
    for (n, (address, write, answer)) in rows.iter().enumerate() {
        let given = match write {
            Write::Bits(bits) => write_bits(staging, *address, bits),
            Write::Words(words) => write_words(staging, *address, words),
        };
        assert_eq!(rt; given, *answer, "in row {n}");
    }
}

/// Wants these inputs to be shown, and twice to be sampled under this number.
fn samples<S: Staging, R: Abort>(rt: &R, staging: &mut S, inputs: InImage, next: u64) {
    assert_eq!(rt; staging.read(), inputs);
    for _ in 0..2 {
        assert_eq!(rt; staging.sample(), Sample { inputs, next });
    }
}

fn ticket(number: u64) -> Result<Ticket, StageError> {
    Ok(Ticket { number })
}

fn keeps_within_the_areas<S: Staging, R: Abort>(rt: &R, staging: &mut S) {
    let past: [Row; 3] = [
        (510, Write::Bits(&[true; 3]), Err(StageError::Address)),
        (63, Write::Words(&[1; 2]), Err(StageError::Address)),
        (513, Write::Bits(&[]), Err(StageError::Address)),
    ];
    writes(rt, staging, &past);
    assert_eq!(rt; staging.read(), InImage::clear());
    let within: [Row; 4] = [
        (512, Write::Bits(&[]), ticket(0)),
        (510, Write::Bits(&[true; 2]), ticket(1)),
        (62, Write::Words(&[-2, 9]), ticket(2)),
        (63, Write::Words(&[5]), ticket(3)),
    ];
    writes(rt, staging, &within);
    let mut inputs = InImage::clear();
    inputs.cells.bits[510] = true;
    inputs.cells.bits[511] = true;
    inputs.cells.words[62] = -2;
    inputs.cells.words[63] = 5;
    samples(rt, staging, inputs, 4);
}

#[test]
fn a_write_past_its_area_is_refused(rt: HostRuntime) {
    keeps_within_the_areas(&rt, &mut StageBook::new(rt.alloc()));
    let stage = Stage::new(StageBook::new(rt.alloc()));
    keeps_within_the_areas(&rt, &mut stage.handle(&rt));
}

/// Wants the write of a book to be shown, and to count.
fn goes_on<S: Staging, R: Abort>(rt: &R, staging: &mut S) {
    let words = staging.read().cells.words;
    assert_eq!(rt; (words[62], words[63]), (-2, 9));
    writes(rt, staging, &[(0, Write::Bits(&[true]), ticket(1))]);
}

#[test]
fn a_book_keeps_its_writes_behind_a_lock(rt: HostRuntime) {
    let mut book = StageBook::new(rt.alloc());
    writes(&rt, &mut book, &[(62, Write::Words(&[-2, 9]), ticket(0))]);
    let stage = Stage::new(book);
    goes_on(&rt, &mut stage.handle(&rt));
}

const WRITES: usize = 100;

// A write of 64 equal words.
#[derive(Clone, Copy)]
struct Written {
    number: u64,
    word: i16,
}

// Writes 64 equal words, so many times.
fn write_all<S: Staging>(
    staging: &mut S,
    alloc: Global,
    first: i16,
) -> Result<Vec<Written>, AllocError> {
    let mut writes = Vec::new(alloc);
    let mut word = first;
    for _ in 0..WRITES {
        if let Ok(ticket) = write_words(staging, 0, &[word; 64]) {
            let number = ticket.number;
            writes.push(Written { number, word })?;
        }
        word = word.wrapping_add(1);
    }
    Ok(writes)
}

// Writes, and then says that this writer has ended.
fn write_and_end<R: Wait>(
    rt: &R,
    stage: &Stage,
    ended: &AtomicU64,
    alloc: Global,
    first: i16,
) -> Result<Vec<Written>, AllocError> {
    let writes = write_all(&mut stage.handle(rt), alloc, first);
    ended.fetch_add(1, Ordering::SeqCst);
    writes
}

// Samples until both writers have ended, and once more. It keeps each sample that differs from the one before.
fn sample_all<R: Wait>(
    rt: &R,
    stage: &Stage,
    ended: &AtomicU64,
    alloc: Global,
) -> Result<Vec<Sample>, AllocError> {
    let mut staging = stage.handle(rt);
    let mut samples = Vec::new(alloc);
    for _ in rt.forever() {
        let was_last = ended.load(Ordering::SeqCst) == 2;
        let sample = staging.sample();
        if samples.last() != Some(&sample) {
            samples.push(sample)?;
        }
        if was_last {
            break;
        }
        thread::yield_now();
    }
    Ok(samples)
}

struct Test {
    first: Result<Vec<Written>, AllocError>,
    second: Result<Vec<Written>, AllocError>,
    samples: Result<Vec<Sample>, AllocError>,
}

// Where no thread can be made, `join` runs its first closure last: the sampler, which waits for the others.
fn in_three_threads<R: Threads + Wait + Sync>(rt: &R, alloc: Global) -> Test {
    let stage = &Stage::new(StageBook::new(alloc));
    let ended = &AtomicU64::new(0);
    let (samples, (first, second)) = join(
        rt,
        || sample_all(rt, stage, ended, alloc),
        || join(
            rt,
            || write_and_end(rt, stage, ended, alloc, 1),
            || write_and_end(rt, stage, ended, alloc, 1001),
        ),
    );
    Test {
        first,
        second,
        samples,
    }
}

// The cells after a write of 64 such words.
fn full_of(word: i16) -> InImage {
    InImage {
        cells: Cells {
            bits: [false; 512],
            words: [word; 64],
        },
    }
}

// The word of the last write below this number, or 0.
fn word_below(writes: &[Written], number: u64) -> i16 {
    writes
        .iter()
        .filter(|w| w.number < number)
        .max_by_key(|w| w.number)
        .map_or(0, |w| w.word)
}

// Wants each ticket to be given once.
fn are_given_once<R: Abort>(rt: &R, writes: &[Written]) {
    assert_eq!(rt; writes.len(), 2 * WRITES);
    for number in 0..200u64 {
        assert_eq!(rt; writes.iter().filter(|w| w.number == number).count(), 1);
    }
}

// Wants each sample to replay the writes below its number, and the last all of them.
fn are_replayed<R: Abort>(rt: &R, writes: &[Written], samples: &[Sample]) {
    for sample in samples {
        let word = word_below(writes, sample.next);
        assert!(rt; sample.inputs == full_of(word), "below {}", sample.next);
    }
    assert_eq!(rt; samples.last().map(|s| s.next), Some(200));
}

// One round.
fn replays<R: Threads + Wait + Abort + Sync>(rt: &R, alloc: Global) -> Result<(), Fail> {
    let Test {
        first,
        second,
        samples,
    } = in_three_threads(rt, alloc);
    let mut writes = first?;
    writes.extend_from_slice(second?.as_slice())?;
    are_given_once(rt, writes.as_slice());
    are_replayed(rt, writes.as_slice(), samples?.as_slice());
    Ok(())
}

// In one round threads may come too late to meet one another; in so many they don't.
const ROUNDS: usize = 64;

#[test]
fn each_sample_replays_the_writes_below_its_number(rt: HostRuntime) -> Result<(), Fail> {
    for _ in 0..ROUNDS {
        replays(&rt, rt.alloc())?;
    }
    Ok(())
}

// So often each thread lays masks on one word in a round.
const MASKS: u16 = 1000;

// Masks one word, once more where memory refused it.
fn mask_word<S: Staging>(staging: &mut S, and: u16, or: u16) -> Result<Ticket, StageError> {
    match staging.mask_word(63, and, or) {
        Err(StageError::Memory) => staging.mask_word(63, and, or),
        answer => answer,
    }
}

// Turns one bit of a word on and off by masks, and counts how often it isn't so behind one: another mask that was laid
// on an older word would turn it back.
fn mask_all<S: Staging>(staging: &mut S, bit: u16) -> u16 {
    let mut wrong = 0u16;
    for turn in 0..MASKS {
        let wanted = if turn % 2 == 0 { bit } else { 0 };
        let is_laid = mask_word(staging, !bit, wanted).is_ok();
        let word = staging.sample().inputs.cells.words[63].cast_unsigned();
        if !is_laid || word & bit != wanted {
            wrong = wrong.wrapping_add(1);
        }
    }
    wrong
}

// One round.
fn masks_stay<R: Threads + Wait + Abort + Sync>(rt: &R, alloc: Global) {
    let stage = &Stage::new(StageBook::new(alloc));
    let (first, second) = join(
        rt,
        || mask_all(&mut stage.handle(rt), 1),
        || mask_all(&mut stage.handle(rt), 0x8000),
    );
    assert_eq!(rt; (first, second), (0, 0));
}

#[test]
fn a_mask_is_laid_in_one_hold_of_the_lock(rt: HostRuntime) {
    for _ in 0..ROUNDS {
        masks_stay(&rt, rt.alloc());
    }
}

// So often each thread writes and reads in one call in a round.
const EXCHANGES: i16 = 500;

// The numbers of the writes 1, 2 and so on, and the word of the other thread that each of them showed.
#[derive(Drop)]
struct Exchanges {
    numbers: Vec<u64>,
    shown: Vec<i16>,
}

// Writes one word and shows all, once more where memory refused it.
fn write_read<S: Staging>(
    staging: &mut S,
    address: usize,
    word: i16,
) -> Result<io_image::Written, StageError> {
    match staging.write_read(address, &[word]) {
        Err(StageError::Memory) => staging.write_read(address, &[word]),
        answer => answer,
    }
}

// Writes 1, 2 and so on at its own place, up to a write that is refused, and each time shows the other place.
fn exchange_all<S: Staging>(
    staging: &mut S,
    alloc: Global,
    own: usize,
    other: usize,
) -> Result<Exchanges, AllocError> {
    let mut exchanges = Exchanges {
        numbers: Vec::new(alloc),
        shown: Vec::new(alloc),
    };
    for word in 1..=EXCHANGES {
        let Ok(written) = write_read(staging, own, word) else {
            break;
        };
        exchanges.numbers.push(written.ticket.number)?;
        exchanges
            .shown
            .push(written.inputs.cells.words[other % WORDS])?;
    }
    Ok(exchanges)
}

// How many of these showed the word of another than the last write of the other thread before them.
fn count_stale(exchanges: &Exchanges, others: &[u64]) -> usize {
    let mut count = 0usize;
    for (number, shown) in exchanges.numbers.iter().zip(exchanges.shown.iter()) {
        let before = match others.binary_search(number) {
            Ok(place) | Err(place) => place,
        };
        if usize::try_from(*shown) != Ok(before) {
            count = count.saturating_add(1);
        }
    }
    count
}

// One round.
fn reads_back<R: Threads + Wait + Abort + Sync>(rt: &R, alloc: Global) -> Result<(), Fail> {
    let stage = &Stage::new(StageBook::new(alloc));
    let (first, second) = join(
        rt,
        || exchange_all(&mut stage.handle(rt), alloc, 0, 63),
        || exchange_all(&mut stage.handle(rt), alloc, 63, 0),
    );
    let (first, second) = (first?, second?);
    assert_eq!(rt; (first.numbers.len(), second.numbers.len()), (500, 500));
    let stale = (
        count_stale(&first, second.numbers.as_slice()),
        count_stale(&second, first.numbers.as_slice()),
    );
    assert_eq!(rt; stale, (0, 0));
    Ok(())
}

#[test]
fn a_write_is_read_back_in_one_hold_of_the_lock(rt: HostRuntime) -> Result<(), Fail> {
    for _ in 0..ROUNDS {
        reads_back(&rt, rt.alloc())?;
    }
    Ok(())
}

// An image of its own for each number.
fn release(number: u64) -> Release {
    let mut image = OutImage::safe();
    let word = i16::try_from(number).unwrap_or(-1);
    image.cells.words[3] = word;
    image.cells.words[60] = word;
    image.cells.bits[9] = number % 2 == 1;
    Release { number, image }
}

fn view(number: u64) -> View {
    let Release { number, image } = release(number);
    View { number, image }
}

// Publishes, once more where memory refused it.
fn publish<J: Naming, P: Pen<J>>(
    writer: &mut ReleasedWriter<J, P>,
    release: Release,
) -> Result<(), PublishError> {
    match writer.publish(release) {
        Err(PublishError::Memory) => writer.publish(release),
        answer => answer,
    }
}

/// Releases, each by its number, and how they are answered.
fn publishes<J: Naming, P: Pen<J>, R: Abort>(
    rt: &R,
    writer: &mut ReleasedWriter<J, P>,
    rows: &[(u64, Result<(), PublishError>)],
) {
    for (number, answer) in rows.iter() {
        assert_eq!(rt; publish(writer, release(*number)), *answer, "{number}");
    }
}

/// Wants a reader to read the release of this number.
fn reads<J: Naming, R: Abort>(rt: &R, reader: &mut ReleasedReader<J>, number: u64) {
    assert_eq!(rt; reader.read(), view(number));
}

fn in_one_thread<J: Naming, R: Wait + Abort>(
    rt: &R,
    alloc: Global,
    list: NewList,
) -> Result<(), Fail>
    requires { list ≡ J.book }
{
    let (mut writer, mut readers) = released::<J, &R>(list, alloc, rt, 2)?;
    let mut first = readers.pop().ok_or("two readers")?;
    let mut second = readers.pop().ok_or("two readers")?;
    let stale = Err(PublishError::Stale);
    reads(rt, &mut first, 0);
    publishes(rt, &mut writer, &[(0, stale), (4, Ok(())), (4, stale)]);
    second.learn(writer.tell());
    reads(rt, &mut second, 4);
    reads(rt, &mut first, 4);
    publishes(rt, &mut writer, &[(9, Ok(())), (7, stale)]);
    second.learn(writer.tell());
    drop(writer);
    reads(rt, &mut second, 9);
    reads(rt, &mut first, 4);
    Ok(())
}

#[test]
fn a_reader_reads_4_after_the_publish_of_4(rt: HostRuntime) -> Result<(), Fail> {
    in_one_thread::<Brand, _>(&rt, rt.alloc(), NewList::new())
}

const RELEASES: u64 = 1000;

fn publish_all<J: Naming, P: Pen<J>>(writer: &mut ReleasedWriter<J, P>) -> u32 {
    let mut count = 0u32;
    for number in 1..=RELEASES {
        if publish(writer, release(number)).is_ok() {
            count = count.wrapping_add(1);
        }
    }
    count
}

// Counts the reads that went back or were torn.
fn read_all<J: Naming>(reader: &mut ReleasedReader<J>) -> u32 {
    let (mut last, mut wrong) = (0, 0u32);
    for _ in 0..20_000 {
        let now = reader.read();
        if now.number < last || now != view(now.number) {
            wrong = wrong.wrapping_add(1);
        }
        last = now.number;
    }
    wrong
}

fn in_readers_threads<J: Naming + Send + Sync, R: Wait + Threads + Abort + Sync + Send>(
    rt: &R,
    alloc: Global,
    list: NewList,
) -> Result<(), Fail>
    requires { list ≡ J.book }
{
    let (mut writer, mut readers) = released::<J, &R>(list, alloc, rt, 2)?;
    let mut first = readers.pop().ok_or("two readers")?;
    let mut second = readers.pop().ok_or("two readers")?;
    let (published, wrong) = join(
        rt,
        || publish_all(&mut writer),
        || join(rt, || read_all(&mut first), || read_all(&mut second)),
    );
    assert_eq!(rt; (published, wrong), (1000, (0, 0)));
    reads(rt, &mut first, RELEASES);
    reads(rt, &mut second, RELEASES);
    Ok(())
}

#[test]
fn readers_in_threads_never_go_back(rt: HostRuntime) -> Result<(), Fail> {
    in_readers_threads::<Brand, _>(&rt, rt.alloc(), NewList::new())
}
