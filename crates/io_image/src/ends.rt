//! The writer of the released images and its readers.
ghost use Rattle.std.specs.Prelude.{◌≡◌, ◌<◌, ◌≤◌, ◌^◌, ◌++◌, ◌∷◌, ◌↔◌, ◌⊎◌, [], Err, IfOk, OnOk, OnErr, All, vec_len};
ghost use mathlib.Core.List.{IsPrefix};
ghost use Rattle.io_image.specs.Releases.{IsRising, number_of, shown};

use crate::copies::{Pen, SharedPen, Shown};
use crate::list::{Front, Naming, NewList};
use crate::release::{Release, View};
use crate::stamp::{MarkingPen, Stamp};
use left_right::{ReadHandle, WriteHandle};
use std::alloc::{AllocError, Global};
use std::marker::Model;
use std::sync::{Arc, Wait};
use std::time::Clock;
use thiserror::Error;

/// `left_right` has room for fewer readers.
const MOST_READERS: usize = 1 << 32;

/// Why a release was not published. The writer's list is as it was.
#[derive(Clone, Copy, Debug, Error, PartialEq, Eq)]
pub enum PublishError {
    #[error("the release is no newer than the last one")]
    Stale,
    #[error("no memory for the release")]
    Memory,
}

/// The released images could not be made: out of memory, or a place for a reader that `left_right` refuses.
#[derive(Clone, Copy, Debug, Error, PartialEq, Eq)]
#[error("no memory or no place for the readers of the released images")]
pub struct Unmade;

/// The one writer. Contracts see it as the list of the releases that it published.
#[derive(Drop)]
pub struct ReleasedWriter<J: Naming, P: Pen<J>> {
    pen: P,
    front: Front<J>,
}

impl<J: Naming, P: Pen<J>> Model for ReleasedWriter<J, P> {
    ghost use Rattle.std.specs.Prelude.{◌≡◌, List};
    ghost use Rattle.io_image.specs.declared.release.Release.{Release};

    ghost Value = { List Release };

    ghost view = { λ w. w.front };

    ghost invariant = { λ w. P.releases w.pen ≡ w.front };
}

/// What a writer told: the list of its releases so far, for a reader to learn. It holds the number and the image of the
/// last.
#[derive(Drop)]
pub struct Told<J: Naming> {
    front: Front<J>,
}

impl<J: Naming> Model for Told<J> {
    ghost use Rattle.std.specs.Prelude.{List};
    ghost use Rattle.io_image.specs.declared.release.Release.{Release};

    ghost Value = { List Release };

    ghost view = { λ t. t.front };
}

/// One reader. Contracts see it as the list of releases that it saw or learnt.
#[derive(Drop)]
pub struct ReleasedReader<J: Naming> {
    handle: ReadHandle<Shown<J>>,
    front: Front<J>,
}

impl<J: Naming> Model for ReleasedReader<J> {
    ghost use Rattle.std.specs.Prelude.{List};
    ghost use Rattle.io_image.specs.declared.release.Release.{Release};

    ghost Value = { List Release };

    ghost view = { λ r. r.front };
}

impl<J: Naming, P: Pen<J>> ReleasedWriter<J, P> {
    /// Publishes a release: a reader that enters from now on sees it or a later one. It waits for readers that are
    /// inside since before the last call. `Stale` where its number isn't above the last one's, of which 0 is no number,
    /// else `Memory` where a growth was refused.
    pub fn publish(&mut self, release: Release) -> Result<(), PublishError>
        ensures ok { OnOk result (self.new ≡ self.old ++ release ∷ []) }
        ensures stale { (result ≡ Err PublishError.Stale) ↔ (release.number ≤ number_of self.old) }
        ensures err { OnErr result (self.new ≡ self.old) }
    {
        if release.number <= self.front.shown().number {
            return Err(PublishError::Stale);
        }
        if self.pen.show(release).is_err() {
            return Err(PublishError::Memory);
        }
        self.front = self.pen.front().again();
        Ok(())
    }

    /// The same writer, which marks when each release is published.
    pub fn marked<R: Clock + Drop>(
        self,
        stamp: Arc<Stamp<R>>,
    ) -> ReleasedWriter<J, MarkingPen<P, R>>
        ensures { result ≡ self }
    {
        let ReleasedWriter { pen, front } = self;
        ReleasedWriter {
            pen: MarkingPen { pen, stamp },
            front,
        }
    }

    /// What was published so far. It takes no memory, and waits for nobody.
    pub fn tell(&self) -> Told<J>
        ensures told { result ≡ self.now }
        ensures rising { IsRising result }
    {
        Told {
            front: self.front.again(),
        }
    }
}

impl<J: Naming> ReleasedReader<J> {
    /// The last release of a list of which all that this reader saw before or learnt is a prefix. Where the writer is
    /// gone it is the last that the reader saw or learnt. It takes no memory, and waits for nobody.
    pub fn read(&mut self) -> View
        ensures shown { result ≡ shown self.new }
        ensures seen { IsPrefix self.old self.new }
        ensures rising { IsRising self.new }
    {
        let ReleasedReader { handle, front } = self;
        if let Some(guard) = handle.enter() {
            front.catch_up(guard.front());
        }
        front.shown()
    }

    /// Takes in what the writer told: no later read shows an older release. It takes no memory, and waits for nobody.
    pub fn learn(&mut self, told: Told<J>)
        ensures seen { IsPrefix self.old self.new }
        ensures told { IsPrefix told self.new }
        ensures longer { (self.new ≡ self.old) ⊎ (self.new ≡ told) }
    {
        self.front.catch_up(&told.front);
    }
}

/// Of what the writer told and what a reader saw or learnt, one list is a prefix of the other. It does nothing: its
/// contract is a law.
pub fn agree<J: Naming>(told: &Told<J>, reader: &ReleasedReader<J>)
    ensures { IsPrefix told.now reader.now ⊎ IsPrefix reader.now told.now }
{
    let mut longer = reader.front.again();
    longer.catch_up(&told.front);
}

// So many readers, which have seen nothing.
fn readers_of<J: Naming, R: Wait + Drop>(
    alloc: Global,
    pen: &SharedPen<J, R>,
    front: &Front<J>,
    count: usize,
) -> Result<Vec<ReleasedReader<J>>, AllocError>
    requires { front.now ≡ [] }
    ensures { IfOk result (λ v. (vec_len v ≡ count) × All (λ seen. seen ≡ []) v.items) }
{
    let mut readers = Vec::new(alloc);
    for _ in 0..count {
        let handle = pen.handle()?;
        let front = front.again();
        readers.push(ReleasedReader { handle, front })?;
    }
    Ok(readers)
}

fn ends<J: Naming, R: Wait + Drop>(
    list: NewList,
    alloc: Global,
    rt: R,
    readers: usize,
) -> Result<(ReleasedWriter<J, SharedPen<J, R>>, Vec<ReleasedReader<J>>), AllocError>
    requires list { list ≡ J.book }
    requires readers { readers < 2 ^ 32 }
    ensures writer { IfOk result (λ r. r.0 ≡ []) }
    ensures readers { IfOk result (λ r. (vec_len r.1 ≡ readers) × All (λ seen. seen ≡ []) r.1.items) }
{
    let (last, front) = list.named::<J>();
    let last = Arc::new(alloc, last)?;
    let first = Shown::new(front.again(), Arc::try_clone(&last)?);
    let second = Shown::new(front.again(), last);
    let pen = WriteHandle::new(alloc, rt, first, second, readers.max(1))?;
    let readers = readers_of(alloc, &pen, &front, readers)?;
    Ok((ReleasedWriter { pen, front }, readers))
}

/// A writer that has published nothing, and so many readers, which see the safe image and 0. `list` is a new list of
/// the name `J`. The writer keeps `rt`, since `publish` and its drop wait for readers.
pub fn released<J: Naming, R: Wait + Drop>(
    list: NewList,
    alloc: Global,
    rt: R,
    readers: usize,
) -> Result<(ReleasedWriter<J, SharedPen<J, R>>, Vec<ReleasedReader<J>>), Unmade>
    requires { list ≡ J.book }
    ensures writer { IfOk result (λ r. r.0 ≡ []) }
    ensures readers { IfOk result (λ r. (vec_len r.1 ≡ readers) × All (λ seen. seen ≡ []) r.1.items) }
{
    if readers >= MOST_READERS {
        return Err(Unmade);
    }
    match ends(list, alloc, rt, readers) {
        Ok(made) => Ok(made),
        Err(AllocError) => Err(Unmade),
    }
}
