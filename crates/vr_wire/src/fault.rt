//! Why a message has no frame, and why a stream is no stream of frames.

ghost use Rattle.std.specs.Prelude.{◌≡◌};
ghost use Rattle.vr_wire.specs.declared.fault.WireError.TheVariants as wire;
ghost use Rattle.vr_wire.specs.declared.fault.ReadError.TheVariants as read;

use std::alloc::{AllocError, AllocFailed};
use thiserror::Error;

/// What is wrong with a message or with a stream.
#[derive(Clone, Copy, Debug, PartialEq, Eq, Error)]
pub enum WireFault {
    /// A field has no lawful value, or a body is longer or shorter than its fields.
    #[error("bad frame")]
    BadFrame,
    /// A body is longer than a body may be.
    #[error("too large")]
    TooLarge,
}

/// Why a message was not written, or a piece of a stream not read: a fault, or memory ran out.
#[derive(Clone, Copy, Debug, PartialEq, Eq, Error)]
pub enum WireError {
    #[error("{0}")]
    Fault(WireFault),
    #[error("out of memory")]
    Memory,
}

impl From<AllocError> for WireError {
    ghost from_gives = { λ _ e. e ≡ wire.Memory };

    fn from(_e: AllocError) -> WireError {
        WireError::Memory
    }
}

impl<T: Drop> From<AllocFailed<T>> for WireError {
    ghost from_gives = { λ _ e. e ≡ wire.Memory };

    fn from(_e: AllocFailed<T>) -> WireError {
        WireError::Memory
    }
}

/// Why fields could not be read: they are none of what was asked for, or memory ran out.
#[derive(Clone, Copy)]
pub(crate) enum ReadError {
    Malformed,
    Memory,
}

impl From<AllocError> for ReadError {
    ghost from_gives = { λ _ e. e ≡ read.Memory };

    fn from(_e: AllocError) -> ReadError {
        ReadError::Memory
    }
}

impl<T: Drop> From<AllocFailed<T>> for ReadError {
    ghost from_gives = { λ _ e. e ≡ read.Memory };

    fn from(_e: AllocFailed<T>) -> ReadError {
        ReadError::Memory
    }
}
