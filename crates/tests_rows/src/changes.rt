//! What `plc list` says of each image that has one byte otherwise.
ghost use Rattle.std.specs.Prelude.{◌<◌, length};

use crate::calls::{listed, reads_back};
use std::alloc::{AllocError, Global};

/// How many images are programs, and how many have a fault, by its number from 1.
#[derive(Clone, Copy)]
struct Tally {
    programs: u64,
    faults: [u64; 8],
}

impl Tally {
    /// One more image. None where it's neither a program, whose listing is then assembled to just these bytes, nor
    /// refused by the line of a fault alone.
    fn count(&mut self, alloc: Global, image: &[u8]) -> Option<()> {
        let written = listed(alloc, image);
        if written.status == 0 {
            self.programs = self.programs.saturating_add(1);
            return (written.err.is_empty() && reads_back(alloc, image)).then_some(());
        }
        let number = load_fault(written.err.as_slice())?;
        let place = usize::from(number.checked_sub(1)?);
        let count = self.faults.get_mut(place)?;
        *count = count.saturating_add(1);
        (written.status == 1 && written.out.is_empty()).then_some(())
    }

    /// The images whose byte at a place is each other one.
    fn count_at(
        &mut self,
        alloc: Global,
        image: &[u8],
        place: usize,
    ) -> Result<Option<()>, AllocError>
        requires { place < length image.now }
    {
        for change in 1..=255u8 {
            let mut other = Vec::from_slice(alloc, image)?;
            other[place] = image[place].wrapping_add(change);
            if self.count(alloc, other.as_slice()).is_none() {
                return Ok(None);
            }
        }
        Ok(Some(()))
    }
}

/// The number of a line `plc: load N`, with or without a place behind it.
fn load_fault(line: &[u8]) -> Option<u8> {
    let behind = line.get(11).copied()?;
    if line.starts_with(b"plc: load ") && (behind == b'\n' || behind == b' ') {
        line[10].checked_sub(b'0')
    } else {
        None
    }
}

/// What comes of the images with one other byte, as `120 programs, faults 0 1020 510 0 0 0 0 0` with a number for each
/// fault from 1; `otherwise` where one is neither.
pub fn what_comes(alloc: Global, image: &[u8]) -> Result<String, AllocError> {
    let mut tally = Tally {
        programs: 0,
        faults: [0; 8],
    };
    for place in 0..image.len() {
        if tally.count_at(alloc, image, place)?.is_none() {
            return String::from_str(alloc, "otherwise");
        }
    }
    let mut line = format!(in alloc; "{} programs, faults", tally.programs)?;
    for count in tally.faults.iter() {
        line.push_str(format!(in alloc; " {count}")?.as_str())?;
    }
    Ok(line)
}
