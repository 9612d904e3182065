//! Why a service isn't to be had, or can't go on.

ghost use Rattle.std.specs.Prelude.{◌≡◌};
ghost use Rattle.std.specs.IoError.{error_kind};
ghost use Rattle.plc_host.specs.Failing.{failed_by, known_as};
ghost use Rattle.plc_host.specs.declared.failed.Failed.TheVariants.{Device, Memory};

use io_model::DeviceFault;
use std::alloc::{AllocError, AllocFailed};
use std::io;
use thiserror::Error;

/// What was wanting.
#[derive(Clone, Copy, Debug, PartialEq, Eq, Error)]
pub enum Failed {
    /// A file, a socket or a stream failed, and nothing more is known of it.
    #[error("device failed")]
    Device,
    /// No thread is to be had.
    #[error("no thread")]
    Thread,
    /// A connection between replicas isn't to be had, or has ended.
    #[error("no connection")]
    Connection,
    /// Fewer than f+1 replicas were normal for too long.
    #[error("no majority")]
    Majority,
    /// This port isn't to be had.
    #[error("port {0}")]
    Port(u16),
    /// The socket for operators isn't to be had at its path.
    #[error("socket")]
    Socket,
    /// The store of this replica isn't to be had: its directory, or its file there.
    #[error("store {0}")]
    Store(u8),
    /// The report's file can't be written.
    #[error("report")]
    Report,
    /// Standard output is closed, or can't be written.
    #[error("output")]
    Output,
    #[error("out of memory")]
    Memory,
}

impl Failed {
    /// The same, but this of a device of which nothing was known.
    pub fn known_as(self, known: Failed) -> Failed
        ensures { result ≡ known_as known self }
    {
        match self {
            Failed::Device => known,
            failed => failed,
        }
    }
}

impl From<AllocError> for Failed {
    ghost from_gives = { λ _ e. e ≡ Memory };

    fn from(_error: AllocError) -> Failed {
        Failed::Memory
    }
}

impl<T: Drop> From<AllocFailed<T>> for Failed {
    ghost from_gives = { λ _ e. e ≡ Memory };

    fn from(_failed: AllocFailed<T>) -> Failed {
        Failed::Memory
    }
}

impl From<DeviceFault> for Failed {
    ghost from_gives = { λ _ e. e ≡ Device };

    fn from(_fault: DeviceFault) -> Failed {
        Failed::Device
    }
}

/// What std answers for want of memory in a call of a device is want of memory.
impl From<io::Error> for Failed {
    ghost from_gives = { λ error e. e ≡ failed_by (error_kind error) };

    fn from(error: io::Error) -> Failed {
        match error.kind() {
            io::ErrorKind::OutOfMemory => Failed::Memory,
            _ => Failed::Device,
        }
    }
}
