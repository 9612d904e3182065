//! What a service runs on.

use std::alloc::Global;
use std::random::RandomSource;
use std::sync::Wait;
use std::thread::Threads;
use std::time::Clock;

/// A runtime that each thread of a service may have.
pub trait ServiceRuntime: Threads
    + Wait
    + Clock
    + RandomSource
    + Copy
    + Send
    + Sync
    + Drop
    + 'static {}

impl<R: Threads + Wait + Clock + RandomSource + Copy + Send + Sync + Drop + 'static> ServiceRuntime
    for R {}

/// The runtime of the program, for threads, clocks, sockets and files, and its allocator.
#[derive(Clone, Copy)]
pub struct Host<R: Copy> {
    pub rt: R,
    pub alloc: Global,
}
