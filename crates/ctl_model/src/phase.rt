//! How far a scan came, and whether one is open.

use il_model::{OutImage, Stop};

/// How far a scan came. A position counts instructions from 0.
#[derive(Clone, Copy, Debug, PartialEq, Eq)]
pub enum ScanOut {
    /// To its end, with these outputs.
    Done(OutImage),
    /// To the breakpoint at this position, whose instruction is not performed yet.
    Held(u16),
    /// To the instruction at this position, which was not performed.
    Stopped(Stop, u16),
}

/// Whether a controller has an open scan.
#[derive(Clone, Copy, PartialEq, Eq)]
pub enum Phase {
    /// There is none.
    Idle,
    /// One is held at a position.
    Held,
    /// One was stopped, and no other begins before a reset.
    Stopped(Stop),
}
