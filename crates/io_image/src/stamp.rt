//! When outputs were released last, and how long they are shown.
ghost use Rattle.std.specs.Prelude.{◌≡◌, ◌++◌, ◌∷◌, [], List, MatchResult};
ghost use Rattle.io_image.specs.declared.release.Release.{Release};
ghost use Rattle.io_image.specs.Releases.{is_stale};

use crate::copies::Pen;
use crate::list::{Front, Naming};
use crate::release::Release;
use std::alloc::AllocError;
use std::io;
use std::sync::Arc;
use std::sync::atomic::{AtomicU64, Ordering};
use std::time::{Clock, Instant};

/// What tells how long ago outputs were released last.
pub trait Ages: Drop {
    /// In milliseconds. None where nothing was released, or the time can't be read.
    fn age(&self) -> Option<u64>;
}

/// Whether outputs that were released so long ago aren't shown any more, both in milliseconds: without a limit they
/// always are, and with one never before the first release.
pub fn is_stale(limit: Option<u32>, age: Option<u64>) -> bool
    ensures { result ≡ is_stale limit age }
{
    match (limit, age) {
        (None, _) => false,
        (Some(_), None) => true,
        (Some(limit), Some(age)) => u64::from(limit) < age,
    }
}

/// When outputs were released last, as any thread marks and reads it.
#[derive(Drop)]
pub struct Stamp<R: Clock + Drop> {
    rt: R,
    begun: Instant,
    /// In milliseconds since it was made, and 1 more; 0 where nothing was released.
    marked: AtomicU64,
}

impl<R: Clock + Drop> Stamp<R> {
    /// Nothing was released yet.
    pub fn new(rt: R) -> io::Result<Stamp<R>> {
        let begun = Instant::now(&rt)?;
        Ok(Stamp {
            rt,
            begun,
            marked: AtomicU64::new(0),
        })
    }

    /// In milliseconds since it was made, if the time can be read.
    fn now(&self) -> Option<u64> {
        let now = Instant::now(&self.rt).ok()?;
        u64::try_from(now.saturating_duration_since(self.begun).as_millis()).ok()
    }

    /// Outputs were released just now. Where the time can't be read, the mark stays that of an earlier release.
    fn mark(&self) {
        if let Some(now) = self.now() {
            self.marked.store(now.saturating_add(1), Ordering::SeqCst);
        }
    }

    /// What was released last counts from then on, as where its scan was submitted then.
    pub fn mark_from(&self, then: Instant) {
        let then = then.saturating_duration_since(self.begun).as_millis();
        let then = u64::try_from(then).unwrap_or(u64::MAX);
        self.marked.store(then.saturating_add(1), Ordering::SeqCst);
    }
}

impl<R: Clock + Drop> Ages for Arc<Stamp<R>> {
    fn age(&self) -> Option<u64> {
        let released = self.marked.load(Ordering::SeqCst).checked_sub(1)?;
        Some(self.now()?.saturating_sub(released))
    }
}

/// What shows releases, and marks when.
#[derive(Drop)]
pub struct MarkingPen<P: Drop, R: Clock + Drop> {
    pub(crate) pen: P,
    pub(crate) stamp: Arc<Stamp<R>>,
}

impl<J: Naming, P: Pen<J>, R: Clock + Drop> Pen<J> for MarkingPen<P, R> {
    ghost releases = { λ m. P.releases m.pen };

    /// It's marked once readers find it: so what they find is never older than the mark.
    fn show(&mut self, release: Release) -> Result<(), AllocError> {
        self.pen.show(release)?;
        self.stamp.mark();
        Ok(())
    }

    fn front(&self) -> &Front<J> {
        self.pen.front()
    }
}
