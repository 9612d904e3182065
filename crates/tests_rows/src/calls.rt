//! The calls of the program, each over slices and vectors.

use crate::given::Given;
use il_places::Asked;
use io_model::Counted;
use plc_tool::Group;
use std::alloc::Global;
use vr_model::Config;

/// What a call ended with and wrote: its status, the image, and what stands on both streams.
#[derive(Drop)]
pub struct Written {
    pub status: u8,
    pub image: Vec<u8>,
    pub out: Vec<u8>,
    pub err: Vec<u8>,
}

impl Written {
    fn nothing(alloc: Global) -> Written {
        Written {
            status: 0,
            image: Vec::new(alloc),
            out: Vec::new(alloc),
            err: Vec::new(alloc),
        }
    }

    /// Whether these lines were written: those of a fault alone and with the status 1, others with the status 0.
    pub fn is(&self, lines: &[u8]) -> bool {
        let (out, err) = (self.out.as_slice(), self.err.as_slice());
        if lines.starts_with(b"plc: ") {
            self.status == 1 && self.image.is_empty() && out.is_empty() && err == lines
        } else {
            self.status == 0 && out == lines && err.is_empty()
        }
    }
}

/// What a run over the commands ends with.
pub fn ran(alloc: Global, given: &Given) -> Written {
    let mut written = Written::nothing(alloc);
    let mut out = Counted::new(&mut written.out);
    written.status = plc_tool::run(
        alloc,
        given.text.as_slice(),
        given.commands.as_slice(),
        given.budget,
        &mut out,
        &mut Counted::new(&mut written.err),
    );
    written
}

/// What a run of the schedule ends with, each replica with a checkpoint after every so many commands; none where there
/// is no group of that size.
pub fn simulated(alloc: Global, given: &Given, every: u16) -> Option<Written> {
    let group = Group {
        config: Config::new(given.failures, every)?,
        budget: given.budget,
    };
    let mut written = Written::nothing(alloc);
    let mut out = Counted::new(&mut written.out);
    written.status = plc_tool::sim(
        alloc,
        given.text.as_slice(),
        given.schedule.as_slice(),
        &group,
        &mut out,
        &mut Counted::new(&mut written.err),
    );
    Some(written)
}

/// What the assembling of a text ends with.
pub fn assembled(alloc: Global, text: &[u8]) -> Written {
    let mut written = Written::nothing(alloc);
    written.status = plc_tool::asm(
        alloc,
        text,
        &mut Counted::new(&mut written.image),
        &mut Counted::new(&mut written.out),
        &mut Counted::new(&mut written.err),
    );
    written
}

/// What the listing of an image ends with.
pub fn listed(alloc: Global, image: &[u8]) -> Written {
    let mut written = Written::nothing(alloc);
    let mut out = Counted::new(&mut written.out);
    let mut err = Counted::new(&mut written.err);
    written.status = plc_tool::list(alloc, image, &mut out, &mut err);
    written
}

/// What the table of a text's names ends with.
pub fn named(alloc: Global, text: &[u8]) -> Written {
    let mut written = Written::nothing(alloc);
    let mut out = Counted::new(&mut written.out);
    let mut err = Counted::new(&mut written.err);
    written.status = plc_symbols::names(alloc, text, &mut out, &mut err);
    written
}

/// What the places of a text's instructions end with.
pub fn located(alloc: Global, text: &[u8]) -> Written {
    let mut written = Written::nothing(alloc);
    let mut out = Counted::new(&mut written.out);
    let mut err = Counted::new(&mut written.err);
    written.status = il_places::locate(alloc, text, Asked::All, &mut out, &mut err);
    written
}

/// What the comparing of two texts ends with.
pub fn compared(alloc: Global, old: &[u8], new: &[u8]) -> Written {
    let mut written = Written::nothing(alloc);
    let mut out = Counted::new(&mut written.out);
    let mut err = Counted::new(&mut written.err);
    written.status = plc_symbols::compare(alloc, old, new, &mut out, &mut err);
    written
}

/// Whether the listing of an image is assembled to the same image; so too where there is none.
pub fn reads_back(alloc: Global, image: &[u8]) -> bool {
    let listing = listed(alloc, image).out;
    image.is_empty() || assembled(alloc, listing.as_slice()).image.as_slice() == image
}
