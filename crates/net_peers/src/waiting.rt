//! What waits to be asked for.

use std::alloc::Global;
use std::mem;
use std::sync::{Mutex, Wait};

/// So much of one kind may wait; more is lost.
const MOST: usize = 256;

/// What waits to be asked for, the earliest first.
#[derive(Drop)]
pub(crate) struct Waiting<T: Drop> {
    items: Mutex<Vec<T>>,
}

impl<T: Drop> Waiting<T> {
    /// Nothing waits.
    pub(crate) fn new(alloc: Global) -> Waiting<T> {
        Waiting {
            items: Mutex::new(Vec::new(alloc)),
        }
    }

    /// Adds one. It's lost where too many wait, or memory runs out.
    pub(crate) fn add<R: Wait>(&self, rt: &R, item: T) {
        let mut items = self.items.lock(rt);
        if items.len() < MOST {
            let _ = items.push(item);
        }
    }

    /// What came since that was asked last.
    pub(crate) fn take<R: Wait>(&self, rt: &R, alloc: Global) -> Vec<T> {
        let mut items = self.items.lock(rt);
        mem::replace(&mut items, Vec::new(alloc))
    }
}
