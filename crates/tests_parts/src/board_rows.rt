//! Words that one thread publishes and others read: each read is of one publish, and none goes back.
use io_board::{BoardReader, BoardWriter};
use std::process::Abort;
use std::test::Fail;
use std::thread;

/// So often words are published.
const PUBLISHES: u64 = 100_000;

/// So often a reader reads at most.
const READS: u64 = 1_000_000_000;

/// Publishes each number in all words, up to the last.
fn publish_all(mut writer: BoardWriter<4>) {
    for number in 1..=PUBLISHES {
        writer.publish([number; 4]);
    }
}

/// How many reads were not of one publish, or went back, until the last publish was read.
fn torn(mut reader: BoardReader<4>) -> u64 {
    let mut last = 0;
    let mut torn = 0u64;
    for _ in 0..READS {
        let words = reader.read();
        if words != [words[0]; 4] || words[0] < last {
            torn = torn.saturating_add(1);
        }
        last = words[0];
        if last == PUBLISHES {
            return torn;
        }
    }
    u64::MAX
}

#[test]
fn reads_are_whole(rt: HostRuntime) -> Result<(), Fail> {
    let writer = BoardWriter::new(rt.alloc(), [0; 4])?;
    let first = writer.reader()?;
    let second = first.another()?;
    let one = thread::spawn(&rt, move || torn(first)).map_err(|_| "no thread")?;
    let other = thread::spawn(&rt, move || torn(second)).map_err(|_| "no thread")?;
    publish_all(writer);
    assert_eq!(rt; (one.join(&rt), other.join(&rt)), (0, 0));
    Ok(())
}
