//! Why a call of the program was refused: one line of text and one status for each fault.

ghost use Rattle.std.specs.Prelude.{◌≡◌};
ghost use Rattle.std.specs.IoError.{error_kind};
ghost use Rattle.il_text.specs.Telling.{status_of, stream_fault};
ghost use Rattle.il_text.specs.declared.fault.Fault.TheVariants.{Device, Memory};

use io_model::DeviceFault;
use std::alloc::{AllocError, AllocFailed};
use std::io;

/// A fault of a call. Lines, columns and a fault's number are from 1, an instruction and a position from 0.
#[derive(Clone, Copy, Debug, PartialEq, Eq)]
pub enum Fault {
    /// The text is no source.
    Read {
        number: u8,
        line: usize,
        column: usize,
    },
    /// The source declares no program.
    Declaration {
        number: u8,
        line: usize,
        column: usize,
    },
    /// The program has no image.
    Assembly {
        number: u8,
        instruction: usize,
    },
    /// A unit doesn't fit the types: the line of the text with the instruction that doesn't.
    Type {
        number: u8,
        line: usize,
        column: usize,
    },
    /// The bytes are no image.
    Load {
        number: u8,
    },
    /// The bytes are no image, by what stands at a position.
    LoadAt {
        number: u8,
        position: usize,
    },
    /// The text is no list of commands, or the image of a change is too long.
    Commands,
    /// The text is no schedule, or has a name that is none of the program.
    Schedule,
    /// An event of the schedule can't take place, by its number from 0 and the lowest reason.
    ScheduleAt {
        index: usize,
        reason: u8,
    },
    /// The directory of stores holds the file of a replica, or another start has it.
    Store,
    /// A file or a stream failed.
    Device,
    /// Memory ran out.
    Memory,
}

impl Fault {
    /// The status that the program ends with: 1 for refused input, 2 for a device or for memory.
    pub fn status(self) -> u8
        ensures { result ≡ status_of self }
    {
        match self {
            Fault::Device | Fault::Memory => 2,
            _ => 1,
        }
    }
}

impl From<AllocError> for Fault {
    ghost from_gives = { λ _ e. e ≡ Memory };

    fn from(_error: AllocError) -> Fault {
        Fault::Memory
    }
}

impl<T: Drop> From<AllocFailed<T>> for Fault {
    ghost from_gives = { λ _ e. e ≡ Memory };

    fn from(_failed: AllocFailed<T>) -> Fault {
        Fault::Memory
    }
}

impl From<DeviceFault> for Fault {
    ghost from_gives = { λ _ e. e ≡ Device };

    fn from(_fault: DeviceFault) -> Fault {
        Fault::Device
    }
}

/// A writer over memory, and the reading of a whole file, answer want of memory as an error of their device.
impl From<io::Error> for Fault {
    ghost from_gives = { λ error e. (e ≡ stream_fault (error_kind error)) × (status_of e ≡ 2) };

    fn from(error: io::Error) -> Fault {
        match error.kind() {
            io::ErrorKind::OutOfMemory => Fault::Memory,
            _ => Fault::Device,
        }
    }
}
